//! User-defined types that contain themselves, in RON alone and with other formats: their impls,
//! definitions and proofs are written by `derive`.
#![tactic(auto)]

mod comment;
mod filter;
mod menu;
mod setting;

pub use comment::Comment;
pub use filter::Filter;
pub use menu::Menu;
pub use setting::Setting;
