//! A reader's state as a case has it: `TOKEN LINE:COL TEXT`, where the text begins with `cur`.

use crate::token::Token;
use std::alloc::{AllocError, Global};

/// A state of either format.
#[derive(Clone, Copy)]
pub(crate) struct Start<'a> {
    /// The pending token, without what it carries.
    pub(crate) token: Token,
    /// What it carries, which stands in parentheses.
    pub(crate) content: &'a str,
    /// The line.
    pub(crate) line: usize,
    /// The column.
    pub(crate) col: usize,
    /// The current character, and those after it.
    pub(crate) text: &'a str,
}

/// The state that is described, or `None` where it has no place, or a token of neither format.
pub(crate) fn start_of(state: &str) -> Option<Start<'_>> {
    let (token, rest) = parted(state, ' ');
    let (place, text) = parted(rest, ' ');
    let (line, col) = parted(place, ':');
    let (token, content) = parted(token, '(');
    let content = content.strip_suffix(')').unwrap_or(content);
    Some(Start {
        token: Token::of(token)?,
        content,
        line: line.parse().ok()?,
        col: col.parse().ok()?,
        text,
    })
}

impl Start<'_> {
    /// What the token carries as a number of `u64`, where it is one.
    pub(crate) fn unsigned(&self) -> Option<u64> {
        self.content.parse().ok()
    }

    /// What the token carries as a number of `i64`, where it is one.
    pub(crate) fn signed(&self) -> Option<i64> {
        self.content.parse().ok()
    }

    /// The character that the token carries, where it is one of a byte, between quotes.
    pub(crate) fn character(&self) -> Option<char> {
        match self.content.as_bytes() {
            [b'\'', byte, b'\''] => Some(char::from(*byte)),
            _ => None,
        }
    }
}

/// What stands before the first of these characters and what stands after it, or the whole text
/// and nothing.
fn parted(text: &str, between: char) -> (&str, &str) {
    text.split_once(between).unwrap_or((text, ""))
}

/// What a call answers that ran out of memory.
pub(crate) const OUT_OF_MEMORY: &str = "out of memory";

/// An error as an answer. Out of memory has no message.
pub(crate) fn reported(
    alloc: Global,
    memory: bool,
    msg: &str,
    (line, col): (usize, usize),
) -> Result<String, AllocError> {
    match (memory, msg.is_empty()) {
        (true, true) => String::from_str(alloc, OUT_OF_MEMORY),
        (true, false) => format!(in alloc; "out of memory with a message: {msg}"),
        (false, _) => format!(in alloc; "error {msg}, at {line}:{col}"),
    }
}

/// A state after a call, without its token.
#[derive(Drop)]
pub(crate) struct Left<'a> {
    /// The text that the token carries.
    pub(crate) carried: Option<&'a str>,
    /// The line and the column.
    pub(crate) place: (usize, usize),
    /// The current character.
    pub(crate) cur: char,
    /// The characters after it.
    pub(crate) rest: &'a str,
}

impl Left<'_> {
    /// Appends it as a case has it.
    pub(crate) fn append(&self, out: &mut String) -> Result<(), AllocError> {
        if let Some(text) = self.carried {
            write!(out, "({text})")?;
        }
        let ((line, col), cur, rest) = (self.place, self.cur, self.rest);
        write!(out, " {line}:{col} {cur}{rest}")
    }
}
