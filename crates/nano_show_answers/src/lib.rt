//! The answers of the program `nano_show` to its words and its input: what the formats of nanoserde
//! make of them. See `run` for the words.
#![tactic(auto)]

mod answers;
mod fault;
pub mod laws;
mod listed;
mod listing;
mod normal;
mod pairs;
mod shown;
mod texts;
mod whole_inputs;
mod words;

pub use answers::run;
pub use fault::{ShowFault, ending};
