//! A message: its schema, and bytes.

use std::collections::HashMap;

// nanoserde: bin
/// What one device tells another.
#[derive(Debug, Drop)]
pub enum Message {
    /// It leaves.
    Leave,
    /// It moves along these steps, under a number.
    Move(u32, Vec<i16>),
    /// It says something.
    Say {
        /// What.
        text: String,
        /// To whom, and how often.
        to: HashMap<String, u32>,
    },
}

mod derived;
