//! Structs that contain themselves, as bytes.

ghost use Rattle.std.specs.Prelude.{IfOk, IfErr};
ghost use Rattle.nano_bin_bytes.specs.Reading.{Decodes, ReadsNone};

use crate::fields::BinFieldsWithin;
use nano_bin::DeBinErr;
use nano_schema::StructSchema;
use std::alloc::Global;

/// Reads a struct that contains itself from `offset` on, and sets `offset` after it, where so many
/// levels may follow. Every error leaves `offset` unchanged; one other than out of memory says that
/// no struct is encoded there.
pub fn read_record_within<L, R: StructSchema, F: BinFieldsWithin<L, Values = R::Values>>(
    levels: &L,
    alloc: Global,
    offset: &mut usize,
    bytes: &[u8],
) -> Result<R, DeBinErr>
    ensures ok { IfOk result (λ value. Decodes F.codec.encoding.encodes
        bytes.now offset.old (F.codec.canonical.means (R.view value)) offset.new) }
    ensures err { IfErr result
        (ReadsNone F.codec.encoding.encodes bytes.now offset.old offset.new) }
{
    match F::read(levels, alloc, offset, bytes) {
        Ok(values) => Ok(R::make(values)),
        Err(error) => Err(error),
    }
}
