//! The types that a case can name. `tools/types.tsv` lists them, and `tools/write_types.py` writes
//! the modules of this one from it: tables of names, and what an input of the type at each place
//! comes to.

mod entries;
mod plain;
mod records;

use crate::format::Format;
use crate::outcome::Outcome;
use crate::types::plain::of_plain;
use std::alloc::{AllocError, Global};

/// The outcome of an input of this type, in bytes or in a text. An input that is taken to be
/// written is its own.
pub(crate) fn outcome_of_type(
    alloc: Global,
    format: Format,
    kind: &str,
    input: &[u8],
) -> Result<Outcome, AllocError> {
    match format {
        Format::BinWritten => Ok(Outcome::Code(Vec::from_slice(alloc, input)?)),
        Format::JsonWritten | Format::RonWritten => {
            Ok(Outcome::Text(Vec::from_slice(alloc, input)?))
        }
        _ => of_plain(alloc, format, kind, input),
    }
}
