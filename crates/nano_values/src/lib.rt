//! Values one after the other in one text of JSON or of RON.
#![tactic(auto)]

pub mod json;
pub mod ron;
