//! The variants of an enum whose variants may hold values of the enum itself.

ghost use Rattle.std.specs.Prelude.{IfOk, IfErr};
ghost use Rattle.nano_bin_schema.specs.Choices.{Chosen, DecodesChoice, ReadsNoVariant};
ghost use Rattle.nano_bin_schema.specs.ChoiceCodecs.{last_choice, next_choice};

use crate::fields::BinFieldsWithin;
use nano_bin::{DeBinErr, DeBinKind};
use nano_schema::{Either, Variant};
use std::alloc::Global;

/// Variants that are read from bytes, given how many levels may follow.
pub trait BinChoicesWithin<L> {
    /// The content of one of them.
    type Values;

    /// The variants in their order, with the format of the content of each.
    ghost chosen: { Chosen Self.Values };

    /// Reads the content of the variant with this tag, which stands at `start`, from `offset`
    /// on, and sets `offset` after it. A tag that no variant has is rejected with the kind
    /// `Own`, with the tag's place and length 0. Every error leaves `offset` unchanged; one
    /// other than out of memory says that no such content is encoded there.
    fn read(
        levels: &L,
        tag: u16,
        start: usize,
        alloc: Global,
        offset: &mut usize,
        bytes: &[u8],
    ) -> Result<Self::Values, DeBinErr>
        ensures ok { IfOk result (λ x. DecodesChoice chosen.means chosen.bodies tag
            bytes.now offset.old x offset.new) }
        ensures err { IfErr result (ReadsNoVariant chosen.bodies tag
            bytes.now start offset.old offset.new) };
}

impl<L, N, S: BinFieldsWithin<L>> BinChoicesWithin<L> for Variant<N, S> {
    type Values = S::Values;

    ghost chosen = { last_choice S.codec };

    fn read(
        levels: &L,
        tag: u16,
        start: usize,
        alloc: Global,
        offset: &mut usize,
        bytes: &[u8],
    ) -> Result<S::Values, DeBinErr> {
        if tag != 0 {
            return Err(DeBinErr {
                o: start,
                l: 0,
                s: bytes.len(),
                kind: DeBinKind::Own,
            });
        }
        match S::read(levels, alloc, offset, bytes) {
            Ok(last) => Ok(last),
            Err(error) => Err(error),
        }
    }
}

impl<L, N, S: BinFieldsWithin<L>, C: BinChoicesWithin<L>> BinChoicesWithin<L>
    for (Variant<N, S>, C) {
    type Values = Either<S::Values, C::Values>;

    ghost chosen = { next_choice S.codec C.chosen };

    fn read(
        levels: &L,
        tag: u16,
        start: usize,
        alloc: Global,
        offset: &mut usize,
        bytes: &[u8],
    ) -> Result<Either<S::Values, C::Values>, DeBinErr> {
        if tag == 0 {
            return match S::read(levels, alloc, offset, bytes) {
                Ok(first) => Ok(Either::First(first)),
                Err(error) => Err(error),
            };
        }
        match C::read(levels, tag - 1, start, alloc, offset, bytes) {
            Ok(later) => Ok(Either::Later(later)),
            Err(error) => Err(error),
        }
    }
}
