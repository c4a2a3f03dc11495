//! From tokens to structs and enums.

mod attributes;
mod bounds;
mod brackets;
mod cursor;
mod fields;
mod items;
mod rust;
mod types;

pub use items::source_of;
pub(crate) use rust::{AS_COMMENT, KEY_TRAITS};
