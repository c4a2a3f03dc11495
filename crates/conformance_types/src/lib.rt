//! What the input of a case comes to, read as a value of a type that the case names: its normal
//! form, its bytes or its error. So do calls in a state answer. What is asked of it further is asked
//! by `conformance`.
#![tactic(auto)]

mod answers;
mod call;
mod calls;
mod containers;
mod dates;
mod errors;
mod fields;
mod format;
mod json_calls;
mod json_state;
mod named;
mod outcome;
mod reads;
mod ron_calls;
mod ron_state;
mod start;
mod token;
mod types;
mod writer;

pub use calls::outcome_of_kind;
pub use errors::code;
pub use fields::{escape, unescape};
pub use format::Format;
pub use named::place_of;
pub use outcome::Outcome;
