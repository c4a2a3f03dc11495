//! The outcome of an input: a value of a type, or a call in a state.

use crate::dates::date_at;
use crate::format::Format;
use crate::json_calls::json_calls;
use crate::outcome::Outcome;
use crate::ron_calls::ron_calls;
use crate::types::outcome_of_type;
use crate::writer::{json_call, ron_call};
use std::alloc::{AllocError, Global};
use std::str;

/// The outcome of an input of this type, or of this call, in this format.
pub fn outcome_of_kind(
    alloc: Global,
    format: Format,
    kind: &str,
    input: &[u8],
) -> Result<Outcome, AllocError> {
    match format {
        Format::TomlDate => called(alloc, format, kind, input),
        _ if kind.starts_with('.') => called(alloc, format, kind, input),
        _ => outcome_of_type(alloc, format, kind, input),
    }
}

/// What a call of this name answers.
fn called(alloc: Global, format: Format, call: &str, input: &[u8]) -> Result<Outcome, AllocError> {
    let Ok(text) = str::from_utf8(input) else {
        return Ok(Outcome::Unknown);
    };
    match format {
        Format::JsonState => json_calls(alloc, call, text),
        Format::RonState => ron_calls(alloc, call, text),
        Format::JsonWrite => json_call(alloc, call, text),
        Format::RonWrite => ron_call(alloc, call, text),
        Format::TomlDate => date_at(alloc, call, text),
        _ => Ok(Outcome::Unknown),
    }
}
