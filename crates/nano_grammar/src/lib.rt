//! What the text formats share above their lexemes, over any type of tokens: how a text is cut
//! into tokens, which tokens encode a value, how it is written, and the laws of these.
//!
//! Nearly all of it is definitions and lemmas, which contracts of the formats cite.
#![tactic(auto)]

mod attempts;
pub mod laws;
mod whole;

pub use attempts::Attempts;
pub use whole::{holds_nul, strip_end_message};
