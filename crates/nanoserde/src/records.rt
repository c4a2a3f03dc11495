//! User-defined types in bytes, in JSON and in RON, each described by one schema: the models of
//! how a user-defined type is written. Each file is one that a user copies.

mod choice;
mod equal;
mod holder;
mod item;
mod plain;
mod test;

pub use choice::Choice;
pub use holder::Holder;
pub use item::Item;
pub use plain::Plain;
pub use test::Test;
