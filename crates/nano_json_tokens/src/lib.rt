//! The tokens of JSON: how a text is cut into them, a reader's state with its helpers and errors,
//! and a writer's state. `nano_json` passes all of it on.
#![tactic(auto)]

mod ahead;
mod error;
mod helpers;
mod input;
pub mod laws;
mod names;
mod plain;
mod punctuation;
mod quoted;
mod rollback;
mod scan;
mod skip;
mod state;
mod strings;
mod token;
mod values;
mod words;
mod writer;

pub use error::DeJsonErr;
pub use input::{as_value_error, expect_end};
pub use nano_text::bytes_left;
pub use plain::{
    may_be_null, take_directly, take_name, take_null, take_plain_bool, take_plain_integer,
    take_plain_unsigned, take_punctuator, take_text,
};
pub use rollback::end_on_error;
pub use state::DeJsonState;
pub use strings::append_string;
pub use token::DeJsonTok;
pub use writer::SerJsonState;
