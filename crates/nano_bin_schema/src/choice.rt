//! User-defined enums as bytes.

ghost use Rattle.std.specs.Prelude.{◌≡◌, ◌++◌, ◌≤◌, Err, IfOk, IfErr, OnOk, OnErr};
ghost use Rattle.nano_value.specs.Sums.{count_variants};
ghost use Rattle.nano_bin_bytes.specs.Reading.{rejection, Decodes, ReadsNone};
ghost use Rattle.nano_bin_bytes.specs.declared.error.DeBinKind.TheVariants.{Own};
ghost use Rattle.nano_bin_bytes.specs.Variants.{EncodesEnum, written_tagged, legal_bodies};
ghost use Rattle.nano_schema.specs.Views.{SeesAs};
ghost use Rattle.nano_bin_schema.specs.Enums.{HasUnknownTag};

use crate::choices::{BinChoiceRefs, BinChoices};
use nano_bin::{BinCodec, DeBin, DeBinErr};
use nano_schema::{EnumSchema, VariantRefs};
use std::alloc::{AllocError, Global};

/// Reads a user-defined enum from `offset` on, and sets `offset` after it. A tag that no
/// variant has is rejected with the kind `Own`, with the tag's place and length 0. Every error
/// leaves `offset` unchanged; one other than out of memory says that no variant is encoded
/// there.
pub fn read_choice_bin<E: EnumSchema + BinCodec, V: BinChoices<Values = E::Values>>(
    alloc: Global,
    offset: &mut usize,
    bytes: &[u8],
) -> Result<E, DeBinErr>
    ensures ok { IfOk result (λ value. Decodes (EncodesEnum V.chosen.bodies)
        bytes.now offset.old (V.chosen.means 0 (E.view value)) offset.new) }
    ensures means { SeesAs (λ value. V.chosen.means 0 (E.view value)) E.bin.canonical.means
        → IfOk result (λ value. Decodes (EncodesEnum V.chosen.bodies)
        bytes.now offset.old (E.means value) offset.new) }
    ensures err { IfErr result
        (ReadsNone (EncodesEnum V.chosen.bodies) bytes.now offset.old offset.new) }
    ensures own { HasUnknownTag V.chosen.bodies bytes.now offset.old
        → result ≡ Err (rejection Own offset.old 0 bytes.now) }
{
    let mut at = *offset;
    let tag = u16::de_bin(alloc, &mut at, bytes)?;
    let values = V::read(tag, *offset, alloc, &mut at, bytes)?;
    *offset = at;
    Ok(E::make(values))
}

/// Appends the bytes of a user-defined enum: the tag of its variant and the content, where the
/// variants are those that the enum is seen by. If the write fails, `output` is unchanged.
pub fn write_choice_bin<
    'a,
    E: VariantRefs<'a>,
    V: BinChoiceRefs<'a, Refs = E::Refs, Values = E::Values>,
>(value: &'a E, alloc: Global, output: &mut Vec<u8>) -> Result<(), AllocError>
    requires { count_variants (legal_bodies V.chosen.bodies) ≤ 65536 }
    ensures ok { SeesAs V.values E.VariantRefs.values → OnOk result (output.new.items
        ≡ output.old.items ++ written_tagged V.chosen.bodies (V.chosen.by_tag (E.view value.now))) }
    ensures err { OnErr result (output.new.items ≡ output.old.items) }
{
    let refs = value.as_refs();
    V::write(&refs, 0, alloc, output)
}
