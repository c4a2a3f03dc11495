//! Errors as answers, and out of memory, which is none.

use crate::format::Format;
use crate::outcome::Outcome;
use nanoserde::{DeBinErr, DeBinKind, DeJsonErr, DeRonErr};
use std::alloc::{AllocError, Global};

/// The kind of an error of bytes, with its `o`, `l` and `s`. Where the error moved the offset, by
/// how much is reported in their place.
pub fn code(alloc: Global, error: DeBinErr, moved: usize) -> Result<Outcome, AllocError> {
    let DeBinErr { o, l, s, kind } = error;
    if moved != 0 {
        text_of(format!(in alloc; "{kind:?} that moved the offset by {moved}"))
    } else if kind == DeBinKind::Memory && l == 0 {
        Err(AllocError)
    } else {
        text_of(format!(in alloc; "{kind:?} o {o} l {l} s {s}"))
    }
}

/// The bytes of a value that was read between two offsets, or the error. The second offset is
/// reported where the format asks for it.
pub(crate) fn bin(
    alloc: Global,
    format: Format,
    read: Result<Vec<u8>, DeBinErr>,
    (start, end): (usize, usize),
) -> Result<Outcome, AllocError> {
    match read {
        Ok(bytes) => match format {
            Format::BinAt => {
                let answer = Outcome::Code(bytes).answer(alloc)?;
                let reported = format!(in alloc; "{answer} -> {end}")?;
                Ok(Outcome::Text(reported.into_bytes()))
            }
            _ => Ok(Outcome::Code(bytes)),
        },
        Err(error) => code(alloc, error, start.abs_diff(end)),
    }
}

/// The outcome of a text that is none.
pub(crate) fn not_a_text(alloc: Global) -> Result<Outcome, AllocError> {
    text_of(String::from_str(alloc, "not UTF-8"))
}

/// A JSON text, or the text of the error.
pub(crate) fn json(alloc: Global, read: Result<String, DeJsonErr>) -> Result<Outcome, AllocError> {
    match read {
        Ok(text) => Ok(Outcome::Text(text.into_bytes())),
        Err(error) => json_error(alloc, &error),
    }
}

/// The bytes of a JSON text's value, or the text of the error.
pub(crate) fn json_code(
    alloc: Global,
    read: Result<Vec<u8>, DeJsonErr>,
) -> Result<Outcome, AllocError> {
    match read {
        Ok(bytes) => Ok(Outcome::Code(bytes)),
        Err(error) => json_error(alloc, &error),
    }
}

/// The text of the error.
fn json_error(alloc: Global, error: &DeJsonErr) -> Result<Outcome, AllocError> {
    let shown = format!(in alloc; "{error}")?;
    error_of(alloc, error.memory, error.msg.is_empty(), shown)
}

/// A RON text, or the text of the error.
pub(crate) fn ron(alloc: Global, read: Result<String, DeRonErr>) -> Result<Outcome, AllocError> {
    match read {
        Ok(text) => Ok(Outcome::Text(text.into_bytes())),
        Err(error) => ron_error(alloc, &error),
    }
}

/// The bytes of a RON text's value, or the text of the error.
pub(crate) fn ron_code(
    alloc: Global,
    read: Result<Vec<u8>, DeRonErr>,
) -> Result<Outcome, AllocError> {
    match read {
        Ok(bytes) => Ok(Outcome::Code(bytes)),
        Err(error) => ron_error(alloc, &error),
    }
}

/// The text of the error.
fn ron_error(alloc: Global, error: &DeRonErr) -> Result<Outcome, AllocError> {
    let shown = format!(in alloc; "{error}")?;
    error_of(alloc, error.memory, error.msg.is_empty(), shown)
}

/// An error as it is shown. Out of memory is an `AllocError`, and has no message.
fn error_of(
    alloc: Global,
    memory: bool,
    is_silent: bool,
    shown: String,
) -> Result<Outcome, AllocError> {
    match (memory, is_silent) {
        (true, true) => Err(AllocError),
        (true, false) => text_of(format!(in alloc; "out of memory with a message: {shown}")),
        (false, _) => Ok(Outcome::Error(shown.into_bytes())),
    }
}

/// The error of this text.
fn text_of(text: Result<String, AllocError>) -> Result<Outcome, AllocError> {
    Ok(Outcome::Error(text?.into_bytes()))
}
