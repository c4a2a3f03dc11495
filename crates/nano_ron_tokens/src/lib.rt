//! The tokens of RON: how a text is cut into them, a reader's state with its helpers and errors,
//! and a writer's state.
#![tactic(auto)]

mod error;
mod gaps;
mod helpers;
mod input;
pub mod laws;
mod plain;
mod punctuation;
mod rollback;
mod scan;
mod skip;
mod state;
mod strings;
mod token;
mod values;
mod words;
mod writer;

pub use error::DeRonErr;
pub use input::{as_value_error, expect_end};
pub use plain::{take_directly, take_plain_integer, take_plain_unsigned, take_text};
pub use rollback::end_on_error;
pub use state::DeRonState;
pub use strings::append_string;
pub use token::DeRonTok;
pub use writer::{SerRonState, append_comma};
