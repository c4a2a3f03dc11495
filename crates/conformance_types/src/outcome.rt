//! The outcome of an input.

use crate::fields::escape;
use std::alloc::{AllocError, Global};

/// The outcome of an input. Out of memory is no such answer, but an `AllocError`.
#[derive(Drop)]
pub enum Outcome {
    /// A text: the normal form of the value, or what the words print.
    Text(Vec<u8>),
    /// The bytes of the value.
    Code(Vec<u8>),
    /// The whole text of the error.
    Error(Vec<u8>),
    /// The case names a type or a format that there is none of.
    Unknown,
}

impl Outcome {
    /// The verdict as a table has it.
    pub fn verdict(&self) -> &'static str {
        match self {
            Outcome::Text(_) | Outcome::Code(_) => "is",
            Outcome::Error(_) => "error",
            Outcome::Unknown => "unknown",
        }
    }

    /// Whether the two are the same, to the last byte.
    pub fn is_same(&self, other: &Outcome) -> bool {
        match (self, other) {
            (Outcome::Text(one), Outcome::Text(other)) => one.as_slice() == other.as_slice(),
            (Outcome::Code(one), Outcome::Code(other)) => one.as_slice() == other.as_slice(),
            (Outcome::Error(one), Outcome::Error(other)) => one.as_slice() == other.as_slice(),
            (Outcome::Unknown, Outcome::Unknown) => true,
            _ => false,
        }
    }

    /// Whether it is an error.
    pub fn is_error(&self) -> bool {
        match self {
            Outcome::Error(_) => true,
            _ => false,
        }
    }

    /// Whether bytes were reported to be too short, and the offset was left where it was.
    pub fn is_too_short(&self) -> bool {
        match self {
            Outcome::Error(text) => text.starts_with(b"TooShort o "),
            _ => false,
        }
    }

    /// The answer as a table has it: bytes in pairs of digits, a text with its escapes.
    pub fn answer(&self, alloc: Global) -> Result<String, AllocError> {
        match self {
            Outcome::Text(text) | Outcome::Error(text) => escape(alloc, text),
            Outcome::Code(bytes) => pairs(alloc, bytes),
            Outcome::Unknown => Ok(String::new(alloc)),
        }
    }
}

/// Bytes in pairs of lower-case hexadecimal digits, with one space between.
fn pairs(alloc: Global, bytes: &[u8]) -> Result<String, AllocError> {
    let mut text = String::new(alloc);
    for byte in bytes {
        if !text.is_empty() {
            text.push(' ')?;
        }
        write!(text, "{byte:02x}")?;
    }
    Ok(text)
}
