//! The variants of an enum as bytes.

ghost use Rattle.std.specs.Prelude.{◌≡◌, ◌++◌, ◌+◌, ◌≤◌, ◌<◌, IfOk, IfErr, OnOk, OnErr};
ghost use Rattle.nano_value.specs.Sums.{count_variants};
ghost use Rattle.nano_bin_bytes.specs.Scalars.{little_endian};
ghost use Rattle.nano_schema.specs.Choices.{either_map};
ghost use Rattle.nano_bin_bytes.specs.Variants.{legal_bodies};
ghost use Rattle.nano_bin_schema.specs.Choices.{Chosen, DecodesChoice, written_from};
ghost use Rattle.nano_bin_schema.specs.Choices.{ReadsNoVariant};
ghost use Rattle.nano_bin_schema.specs.ChoiceCodecs.{last_choice, next_choice};

use crate::fields::{BinFields, BinRefs, BinShape};
use nano_bin::{DeBinErr, DeBinKind, SerBin};
use nano_schema::{Either, Variant};
use std::alloc::{AllocError, Global};

/// Variants that have an encoding as bytes.
pub trait BinShapes {
    /// The content of one of them.
    type Values;

    /// The variants in their order, with the format of the content of each.
    ghost chosen: { Chosen Self.Values };
}

/// Variants that are read from bytes.
pub trait BinChoices {
    /// The content of one of them.
    type Values;

    /// The variants in their order, with the format of the content of each.
    ghost chosen: { Chosen Self.Values };

    /// Reads the content of the variant with this tag, which stands at `start`, from `offset`
    /// on, and sets `offset` after it. A tag that no variant has is rejected with the kind
    /// `Own`, with the tag's place and length 0. Every error leaves `offset` unchanged; one
    /// other than out of memory says that no such content is encoded there.
    fn read(
        tag: u16,
        start: usize,
        alloc: Global,
        offset: &mut usize,
        bytes: &[u8],
    ) -> Result<Self::Values, DeBinErr>
        ensures ok { IfOk result (λ x. DecodesChoice chosen.means chosen.bodies tag
            bytes.now offset.old x offset.new) }
        ensures err { IfErr result (ReadsNoVariant chosen.bodies tag
            bytes.now start offset.old offset.new) };
}

/// Variants that are written as bytes.
pub trait BinChoiceRefs<'a> {
    /// The content of one of them.
    type Values;

    /// References to it.
    type Refs;

    /// What they refer to.
    ghost values: { Self.Refs → Self.Values };

    /// The variants in their order, with the format of the content of each.
    ghost chosen: { Chosen Self.Values };

    /// Appends the tag of the variant, where the first of them has the tag `from`, and the
    /// bytes of its content. If the write fails, `output` is unchanged.
    fn write(
        refs: &Self::Refs,
        from: u32,
        alloc: Global,
        output: &mut Vec<u8>,
    ) -> Result<(), AllocError>
        requires { from + count_variants (legal_bodies chosen.bodies) ≤ 65536 }
        ensures ok { OnOk result (output.new.items ≡ output.old.items
            ++ written_from from chosen.bodies (chosen.by_tag (values refs.now))) }
        ensures err { OnErr result (output.new.items ≡ output.old.items) };
}

/// Appends a tag and content. If the write fails, `output` is unchanged.
fn write_content<'a, S: BinRefs<'a>>(
    tag: u32,
    refs: &S::Refs,
    alloc: Global,
    output: &mut Vec<u8>,
) -> Result<(), AllocError>
    requires { tag < 65536 }
    ensures ok { OnOk result (output.new.items ≡ output.old.items
        ++ (little_endian 2 tag ++ S.codec.canonical.written (S.values refs.now))) }
    ensures err { OnErr result (output.new.items ≡ output.old.items) }
{
    let start = output.len();
    (tag as u16).ser_bin(alloc, output)?;
    let written = S::write(refs, alloc, output);
    if written.is_err() {
        output.truncate(start);
    }
    written
}

impl<N, S: BinShape> BinShapes for Variant<N, S> {
    type Values = S::Values;

    ghost chosen = { last_choice S.codec };
}

impl<N, S: BinFields> BinChoices for Variant<N, S> {
    type Values = S::Values;

    ghost chosen = { last_choice S.codec };

    fn read(
        tag: u16,
        start: usize,
        alloc: Global,
        offset: &mut usize,
        bytes: &[u8],
    ) -> Result<S::Values, DeBinErr> {
        if tag != 0 {
            return Err(DeBinErr {
                o: start,
                l: 0,
                s: bytes.len(),
                kind: DeBinKind::Own,
            });
        }
        match S::read(alloc, offset, bytes) {
            Ok(last) => Ok(last),
            Err(error) => Err(error),
        }
    }
}

impl<N, S: BinShape, C: BinShapes> BinShapes for (Variant<N, S>, C) {
    type Values = Either<S::Values, C::Values>;

    ghost chosen = { next_choice S.codec C.chosen };
}

impl<N, S: BinFields, C: BinChoices> BinChoices for (Variant<N, S>, C) {
    type Values = Either<S::Values, C::Values>;

    ghost chosen = { next_choice S.codec C.chosen };

    fn read(
        tag: u16,
        start: usize,
        alloc: Global,
        offset: &mut usize,
        bytes: &[u8],
    ) -> Result<Either<S::Values, C::Values>, DeBinErr> {
        if tag == 0 {
            return match S::read(alloc, offset, bytes) {
                Ok(first) => Ok(Either::First(first)),
                Err(error) => Err(error),
            };
        }
        match C::read(tag - 1, start, alloc, offset, bytes) {
            Ok(later) => Ok(Either::Later(later)),
            Err(error) => Err(error),
        }
    }
}

impl<'a, N, S: BinRefs<'a>> BinChoiceRefs<'a> for Variant<N, S> {
    type Values = S::Values;

    type Refs = S::Refs;

    ghost values = { S.values };

    ghost chosen = { last_choice S.codec };

    fn write(
        refs: &S::Refs,
        from: u32,
        alloc: Global,
        output: &mut Vec<u8>,
    ) -> Result<(), AllocError> {
        write_content::<S>(from, refs, alloc, output)
    }
}

impl<'a, N, S: BinRefs<'a>, C: BinChoiceRefs<'a>> BinChoiceRefs<'a> for (Variant<N, S>, C) {
    type Values = Either<S::Values, C::Values>;

    type Refs = Either<S::Refs, C::Refs>;

    ghost values = { either_map S.values C.values };

    ghost chosen = { next_choice S.codec C.chosen };

    fn write(
        refs: &Either<S::Refs, C::Refs>,
        from: u32,
        alloc: Global,
        output: &mut Vec<u8>,
    ) -> Result<(), AllocError> {
        match refs {
            Either::First(first) => write_content::<S>(from, first, alloc, output),
            Either::Later(later) => C::write(later, from + 1, alloc, output),
        }
    }
}
