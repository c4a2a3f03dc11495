//! Enums that contain themselves, as bytes.

ghost use Rattle.std.specs.Prelude.{◌≡◌, Err, IfOk, IfErr};
ghost use Rattle.nano_bin_bytes.specs.Reading.{rejection, Decodes, ReadsNone};
ghost use Rattle.nano_bin_bytes.specs.declared.error.DeBinKind.TheVariants.{Own};
ghost use Rattle.nano_bin_bytes.specs.Variants.{EncodesEnum};
ghost use Rattle.nano_bin_schema.specs.Enums.{HasUnknownTag};

use crate::choices::BinChoicesWithin;
use nano_bin::{DeBin, DeBinErr};
use nano_schema::EnumSchema;
use std::alloc::Global;

/// Reads an enum that contains itself from `offset` on, and sets `offset` after it, where so many
/// levels may follow. A tag that no variant has is rejected with the kind `Own`, with the tag's
/// place and length 0. Every error leaves `offset` unchanged; one other than out of memory says
/// that no variant is encoded there.
pub fn read_choice_within<L, E: EnumSchema, V: BinChoicesWithin<L, Values = E::Values>>(
    levels: &L,
    alloc: Global,
    offset: &mut usize,
    bytes: &[u8],
) -> Result<E, DeBinErr>
    ensures ok { IfOk result (λ value. Decodes (EncodesEnum V.chosen.bodies)
        bytes.now offset.old (V.chosen.means 0 (E.view value)) offset.new) }
    ensures err { IfErr result
        (ReadsNone (EncodesEnum V.chosen.bodies) bytes.now offset.old offset.new) }
    ensures own { HasUnknownTag V.chosen.bodies bytes.now offset.old
        → result ≡ Err (rejection Own offset.old 0 bytes.now) }
{
    let mut at = *offset;
    let tag = u16::de_bin(alloc, &mut at, bytes)?;
    let values = V::read(levels, tag, *offset, alloc, &mut at, bytes)?;
    *offset = at;
    Ok(E::make(values))
}
