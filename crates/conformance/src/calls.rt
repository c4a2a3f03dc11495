//! The outcome of a case's input: a value of a type, a call in a state, or the words of a program.

use crate::words::run_words;
use conformance_types::{Format, Outcome, outcome_of_kind};
use std::alloc::{AllocError, Global};

/// The outcome of an input of this type, or of this call, in this format.
pub fn outcome_of(
    alloc: Global,
    format: Format,
    kind: &str,
    input: &[u8],
) -> Result<Outcome, AllocError> {
    match format {
        Format::Run => run_words(alloc, kind, input),
        _ => outcome_of_kind(alloc, format, kind, input),
    }
}
