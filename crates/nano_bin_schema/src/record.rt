//! User-defined structs as bytes.

ghost use Rattle.std.specs.Prelude.{◌≡◌, ◌++◌, IfOk, IfErr, OnOk, OnErr};
ghost use Rattle.nano_bin_bytes.specs.Reading.{Decodes, ReadsNone};
ghost use Rattle.nano_schema.specs.Views.{SeesAs};

use crate::fields::{BinFields, BinRefs};
use nano_bin::DeBinErr;
use nano_schema::{FieldRefs, StructSchema};
use std::alloc::{AllocError, Global};

/// Reads a user-defined struct from `offset` on, and sets `offset` after it. Every error leaves
/// `offset` unchanged; one other than out of memory says that no struct is encoded there.
pub fn read_record_bin<R: StructSchema, F: BinFields<Values = R::Values>>(
    alloc: Global,
    offset: &mut usize,
    bytes: &[u8],
) -> Result<R, DeBinErr>
    ensures ok { IfOk result (λ value. Decodes F.codec.encoding.encodes
        bytes.now offset.old (F.codec.canonical.means (R.view value)) offset.new) }
    ensures err { IfErr result
        (ReadsNone F.codec.encoding.encodes bytes.now offset.old offset.new) }
{
    match F::read(alloc, offset, bytes) {
        Ok(values) => Ok(R::make(values)),
        Err(error) => Err(error),
    }
}

/// Appends the bytes of a user-defined struct, where the fields are those that it is seen by. If
/// the write fails, `output` is unchanged.
pub fn write_record_bin<'a, R: FieldRefs<'a>, F: BinRefs<'a, Refs = R::Refs, Values = R::Values>>(
    value: &'a R,
    alloc: Global,
    output: &mut Vec<u8>,
) -> Result<(), AllocError>
    ensures ok { SeesAs F.values R.FieldRefs.values → OnOk result (output.new.items
        ≡ output.old.items ++ F.codec.canonical.written (R.view value.now)) }
    ensures err { OnErr result (output.new.items ≡ output.old.items) }
{
    let refs = value.as_refs();
    F::write(&refs, alloc, output)
}
