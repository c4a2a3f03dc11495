//! JSON with indentation, of any type that can be written.
#![tactic(auto)]

mod kind;
pub mod laws;
mod layout;

pub use layout::serialize_json_indented;
