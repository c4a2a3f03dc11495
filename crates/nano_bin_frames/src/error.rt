//! Why no message is taken.

ghost use Rattle.std.specs.Prelude.{◌≡◌, ◌≢◌};
ghost use Rattle.nano_bin_bytes.specs.declared.error.DeBinKind.{DeBinKind};
ghost use Rattle.nano_bin_frames.specs.Frames.{IsOfStream, of_code};

use nano_bin::{DeBinErr, DeBinKind};
use std::io::{self, ErrorKind};
use thiserror::Error;

/// Why a message was not taken from a stream.
#[derive(Debug, Drop, Error)]
pub enum Fault {
    /// The stream ends within a frame.
    #[error("the stream ends within a message")]
    Cut,
    /// The bytes in a frame are no message.
    #[error("no message in a frame: {0}")]
    Bad(DeBinErr),
    /// A read failed, or allocation failed.
    #[error("{0}")]
    Stream(io::Error),
}

/// Allocation failed.
pub fn no_memory() -> Fault
    ensures { IsOfStream result }
{
    Fault::Stream(ErrorKind::OutOfMemory.into())
}

/// The fault where reading a code as a whole gave this error.
///
/// The size that the error carries is the code's, whatever the reader of a user-defined type
/// put there.
pub fn rejection(error: DeBinErr, code: &[u8]) -> Fault
    ensures memory { error.kind ≡ DeBinKind.Memory → IsOfStream result }
    ensures bad { error.kind ≢ DeBinKind.Memory → result ≡ Fault.Bad (of_code code.now error) }
{
    match error.kind {
        DeBinKind::Memory => no_memory(),
        _ => Fault::Bad(DeBinErr {
            s: code.len(),
            ..error
        }),
    }
}
