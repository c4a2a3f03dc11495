//! The tokens of JSON with their errors and states, passed on.

pub use nano_json_tokens::{DeJsonErr, DeJsonState, DeJsonTok, SerJsonState};
