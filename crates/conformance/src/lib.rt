//! Cases as data: a format, a type, an input and the answer. A case is run, and its outcome is
//! compared with what is wanted. An accepted input is asked further, and each question is counted:
//! whether what is written is read back, prefixes, and the same entries in the other order.
#![tactic(auto)]

mod asked;
mod calls;
mod case;
mod counterparts;
mod findings;
mod names;
mod questions;
mod repeat;
mod table;
mod words;

pub use asked::{Asked, Count, Question};
pub use calls::outcome_of;
pub use case::{Case, NoCase};
pub use conformance_types::{Format, Outcome, code, escape, unescape};
pub use counterparts::counterpart;
pub use repeat::write_out;
pub use table::differences_of;
