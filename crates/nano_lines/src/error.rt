//! Why no value is taken from a stream, or put into one.

ghost use Rattle.nano_lines.specs.Faults.{IsOfStream};

use nano_json_tokens::DeJsonErr;
use std::io::{self, ErrorKind};
use thiserror::Error;

/// Why a value was not taken from a stream of lines, or not put into one. Lines count from 0,
/// and are printed from 1.
#[derive(Debug, Drop, Error)]
pub enum Fault {
    /// A line holds no value of the type.
    #[error("{error}")]
    Bad {
        /// Why not. Its line is that of the stream.
        error: DeJsonErr,
        /// The line, without its line feed.
        line: String,
    },
    /// The line of this number is longer than the limit.
    #[error("line {} is longer than the limit", .0.saturating_add(1))]
    Long(usize),
    /// The line of this number is not UTF-8.
    #[error("line {} is not UTF-8", .0.saturating_add(1))]
    NotUtf8(usize),
    /// The text of a value that is to be put has a line feed in it.
    #[error("a line feed stands in the text of a value")]
    Feed,
    /// A read or a write failed, or allocation failed.
    #[error("{0}")]
    Stream(io::Error),
}

/// Allocation failed.
pub(crate) fn no_memory() -> Fault
    ensures { IsOfStream result }
{
    Fault::Stream(ErrorKind::OutOfMemory.into())
}
