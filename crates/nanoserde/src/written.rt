//! What a writer wrote, as a converter returns it.

ghost use Rattle.std.specs.Prelude.{◌≡◌, IfOk, OnErr, IsErrOf, IsErrAnd};
ghost use Rattle.nano_bin_bytes.specs.declared.error.DeBinKind.TheVariants.{Memory};
ghost use Rattle.nano_bin_bytes.specs.Reading.{rejection};
ghost use Rattle.nanoserde.specs.Normal.{IsJsonMemory, IsRonMemory};

use crate::{DeBinErr, DeJsonErr, DeJsonState, DeRonErr, DeRonState};
use nano_bin_bytes::no_memory;
use std::alloc::{AllocError, Global};

/// The bytes, or out of memory with `o` and `l` 0.
pub(crate) fn bin_written(
    written: Result<Vec<u8>, AllocError>,
    d: &[u8],
) -> Result<Vec<u8>, DeBinErr>
    ensures ok { IfOk written (λ bytes. result ≡ Ok bytes) }
    ensures err { OnErr written (IsErrOf result (rejection Memory 0 0 d.now)) }
{
    match written {
        Ok(bytes) => Ok(bytes),
        Err(_rejected) => Err(no_memory(0, d)),
    }
}

/// What was written, or out of memory at line and column 0.
pub(crate) fn json_written<A>(alloc: Global, written: Result<A, AllocError>) -> Result<A, DeJsonErr>
    ensures ok { IfOk written (λ value. result ≡ Ok value) }
    ensures err { OnErr written (IsErrAnd result IsJsonMemory) }
{
    match written {
        Ok(value) => Ok(value),
        Err(_rejected) => Err(DeJsonState::new(alloc).err_memory(alloc)),
    }
}

/// What was written, or out of memory at line and column 0.
pub(crate) fn ron_written<A>(alloc: Global, written: Result<A, AllocError>) -> Result<A, DeRonErr>
    ensures ok { IfOk written (λ value. result ≡ Ok value) }
    ensures err { OnErr written (IsErrAnd result IsRonMemory) }
{
    match written {
        Ok(value) => Ok(value),
        Err(_rejected) => Err(DeRonState::new(alloc).err_memory(alloc)),
    }
}
