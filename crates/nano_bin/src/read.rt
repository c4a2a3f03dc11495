//! Reading a count.

ghost use Rattle.std.specs.Prelude.{IfOk, IfErr};
ghost use Rattle.nano_bin_bytes.specs.Reading.{Decodes, ReadsNoneWhereShort};
ghost use Rattle.nano_bin_bytes.specs.Scalars.{EncodesNumber};

use crate::traits::DeBin;
use nano_bin_bytes::DeBinErr;
use std::alloc::Global;

/// Reads a count, which is written as eight bytes.
pub(crate) fn read_count(alloc: Global, offset: &mut usize, bytes: &[u8]) -> Result<usize, DeBinErr>
    ensures ok { IfOk result (λ count.
        Decodes (EncodesNumber 8) bytes.now offset.old count offset.new) }
    ensures err { IfErr result
        (ReadsNoneWhereShort (EncodesNumber 8) bytes.now offset.old offset.new offset.old 8) }
{
    usize::de_bin(alloc, offset, bytes)
}
