//! Writing one part after the other.

ghost use Rattle.std.specs.Prelude.{◌≡◌, ◌++◌, take, OnOk, OnErr};
ghost use Rattle.nano_bin_bytes.specs.Scalars.{little_endian};

use crate::traits::SerBin;
use std::alloc::{AllocError, Global};

/// Appends the bytes of a part. On error, it truncates `output` back to its first `start`
/// bytes: so a writer of several parts undoes those that it has written.
#[inline(always)]
pub fn append_part<T: SerBin>(
    alloc: Global,
    part: &T,
    output: &mut Vec<u8>,
    start: usize,
) -> Result<(), AllocError>
    ensures ok { OnOk result
        (output.new.items ≡ output.old.items ++ T.bin.canonical.written part.now) }
    ensures err { OnErr result (output.new.items ≡ take start output.old.items) }
{
    let written = part.ser_bin(alloc, output);
    if written.is_err() {
        output.truncate(start);
    }
    written
}

/// Appends a count as eight bytes.
#[inline(always)]
pub(crate) fn append_count(
    alloc: Global,
    count: usize,
    output: &mut Vec<u8>,
) -> Result<(), AllocError>
    ensures ok { OnOk result (output.new.items ≡ output.old.items ++ little_endian 8 count) }
    ensures err { OnErr result (output.new.items ≡ output.old.items) }
{
    count.ser_bin(alloc, output)
}
