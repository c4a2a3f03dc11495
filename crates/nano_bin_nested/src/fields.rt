//! Fields that may hold values of the type that has the fields, as bytes.

ghost use Rattle.std.specs.Prelude.{IfOk, IfErr};
ghost use Rattle.nano_bin_bytes.specs.Codec.{Codec};
ghost use Rattle.nano_bin_bytes.specs.Reading.{Decodes, ReadsNone};
ghost use Rattle.nano_bin.specs.ContainerCodecs.{option_codec, pair_codec};

use crate::traits::ReadsBin;
use nano_bin::{BinCodec, DeBinErr};
use nano_bin_schema::BinFields;
use nano_levels::{Other, Within};
use nano_schema::{Defaulted, Newtype, Optional, Required, Struct};
use std::alloc::Global;

/// Fields that are read from bytes, given how many levels may follow.
pub trait BinFieldsWithin<L> {
    /// Their values.
    type Values;

    /// The canonical encoding of their values, and which bytes encode which meaning.
    ghost codec: { Codec Self.Values };

    /// Reads the values from `offset` on, and sets `offset` after them. Every error leaves
    /// `offset` unchanged; one other than out of memory says that no values are encoded there.
    fn read(
        levels: &L,
        alloc: Global,
        offset: &mut usize,
        bytes: &[u8],
    ) -> Result<Self::Values, DeBinErr>
        ensures ok { IfOk result (λ values. Decodes codec.encoding.encodes
            bytes.now offset.old (codec.canonical.means values) offset.new) }
        ensures err { IfErr result
            (ReadsNone codec.encoding.encodes bytes.now offset.old offset.new) };

    /// Drops the values.
    fn discard(values: Self::Values);
}

impl<L, F: BinFields> BinFieldsWithin<L> for Other<F> {
    type Values = F::Values;

    ghost codec = { F.codec };

    fn read(
        _levels: &L,
        alloc: Global,
        offset: &mut usize,
        bytes: &[u8],
    ) -> Result<F::Values, DeBinErr> {
        F::read(alloc, offset, bytes)
    }

    fn discard(values: F::Values) {
        F::discard(values);
    }
}

impl<T: BinCodec + Drop, L: ReadsBin<T>> BinFieldsWithin<L> for Within<Newtype<T>> {
    type Values = T;

    ghost codec = { T.bin };

    fn read(levels: &L, alloc: Global, offset: &mut usize, bytes: &[u8]) -> Result<T, DeBinErr> {
        ReadsBin::<T>::read_bin(levels, alloc, offset, bytes)
    }

    fn discard(_values: T) {}
}

impl<N, T: BinCodec + Drop, L: ReadsBin<T>> BinFieldsWithin<L> for Within<Required<N, T>> {
    type Values = T;

    ghost codec = { T.bin };

    fn read(levels: &L, alloc: Global, offset: &mut usize, bytes: &[u8]) -> Result<T, DeBinErr> {
        ReadsBin::<T>::read_bin(levels, alloc, offset, bytes)
    }

    fn discard(_values: T) {}
}

impl<N, T: BinCodec + Drop, L: ReadsBin<T>> BinFieldsWithin<L> for Within<Optional<N, T>> {
    type Values = Option<T>;

    ghost codec = { option_codec T.bin };

    fn read(
        levels: &L,
        alloc: Global,
        offset: &mut usize,
        bytes: &[u8],
    ) -> Result<Option<T>, DeBinErr> {
        ReadsBin::<Option<T>>::read_bin(levels, alloc, offset, bytes)
    }

    fn discard(_values: Option<T>) {}
}

impl<N, T: BinCodec + Drop, D, L: ReadsBin<T>> BinFieldsWithin<L> for Within<Defaulted<N, T, D>> {
    type Values = T;

    ghost codec = { T.bin };

    fn read(levels: &L, alloc: Global, offset: &mut usize, bytes: &[u8]) -> Result<T, DeBinErr> {
        ReadsBin::<T>::read_bin(levels, alloc, offset, bytes)
    }

    fn discard(_values: T) {}
}

impl<L, F: BinFieldsWithin<L>> BinFieldsWithin<L> for Struct<F> {
    type Values = F::Values;

    ghost codec = { F.codec };

    fn read(
        levels: &L,
        alloc: Global,
        offset: &mut usize,
        bytes: &[u8],
    ) -> Result<F::Values, DeBinErr> {
        F::read(levels, alloc, offset, bytes)
    }

    fn discard(values: F::Values) {
        F::discard(values);
    }
}

impl<L, A: BinFieldsWithin<L>, B: BinFieldsWithin<L>> BinFieldsWithin<L> for (A, B) {
    type Values = (A::Values, B::Values);

    ghost codec = { pair_codec A.codec B.codec };

    fn read(
        levels: &L,
        alloc: Global,
        offset: &mut usize,
        bytes: &[u8],
    ) -> Result<(A::Values, B::Values), DeBinErr> {
        let mut at = *offset;
        let first = A::read(levels, alloc, &mut at, bytes)?;
        match B::read(levels, alloc, &mut at, bytes) {
            Ok(second) => {
                *offset = at;
                Ok((first, second))
            }
            Err(error) => {
                A::discard(first);
                Err(error)
            }
        }
    }

    fn discard(values: (A::Values, B::Values)) {
        let (first, second) = values;
        A::discard(first);
        B::discard(second);
    }
}
