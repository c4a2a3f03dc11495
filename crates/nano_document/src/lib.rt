//! Any document of JSON, as an owned value: `null`, booleans, whole numbers, decimals, texts, lists
//! and objects.
#![tactic(auto)]

mod access;
mod convert;
mod decimal;
mod held;
mod indented;
mod json;
mod known;
pub mod laws;
mod pointer;
mod read;
mod read_bin;
mod same;
mod within;
mod write;
mod write_bin;

pub use decimal::is_decimal;
pub use json::Json;
