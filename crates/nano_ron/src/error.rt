//! The tokens of RON with their errors and states, passed on.

pub use nano_ron_tokens::{DeRonErr, DeRonState, DeRonTok, SerRonState};
