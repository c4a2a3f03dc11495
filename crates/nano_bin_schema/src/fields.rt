//! Fields as bytes.

ghost use Rattle.std.specs.Prelude.{◌≡◌, ◌++◌, IfOk, IfErr, OnOk, OnErr};
ghost use Rattle.nano_bin_bytes.specs.Reading.{Decodes, ReadsNone};
ghost use Rattle.nano_bin_bytes.specs.Codec.{Codec};
ghost use Rattle.nano_bin.specs.ContainerCodecs.{option_codec, pair_codec};

use nano_bin::{BinCodec, DeBin, DeBinErr, SerBin};
use nano_schema::{Aliased, Defaulted, Optional, Required};
use std::alloc::{AllocError, Global};

/// Fields that have an encoding as bytes.
pub trait BinShape {
    /// Their values.
    type Values;

    /// The canonical encoding of their values, and which bytes encode which meaning.
    ghost codec: { Codec Self.Values };
}

/// Fields that are read from bytes.
pub trait BinFields {
    /// Their values.
    type Values;

    /// The canonical encoding of their values, and which bytes encode which meaning.
    ghost codec: { Codec Self.Values };

    /// Reads the values from `offset` on, and sets `offset` after them. Every error leaves
    /// `offset` unchanged; one other than out of memory says that no values are encoded there.
    fn read(alloc: Global, offset: &mut usize, bytes: &[u8]) -> Result<Self::Values, DeBinErr>
        ensures ok { IfOk result (λ values. Decodes codec.encoding.encodes
            bytes.now offset.old (codec.canonical.means values) offset.new) }
        ensures err { IfErr result
            (ReadsNone codec.encoding.encodes bytes.now offset.old offset.new) };

    /// Drops the values.
    fn discard(values: Self::Values);
}

/// Fields that are written as bytes.
pub trait BinRefs<'a> {
    /// Their values.
    type Values;

    /// References to their values.
    type Refs;

    /// What they refer to.
    ghost values: { Self.Refs → Self.Values };

    /// The canonical encoding of their values, and which bytes encode which meaning.
    ghost codec: { Codec Self.Values };

    /// Appends the bytes of the values. If the write fails, `output` is unchanged.
    fn write(refs: &Self::Refs, alloc: Global, output: &mut Vec<u8>) -> Result<(), AllocError>
        ensures ok { OnOk result (output.new.items
            ≡ output.old.items ++ codec.canonical.written (values refs.now)) }
        ensures err { OnErr result (output.new.items ≡ output.old.items) };
}

impl<N, T: BinCodec> BinShape for Required<N, T> {
    type Values = T;

    ghost codec = { T.bin };
}

impl<N, T: DeBin> BinFields for Required<N, T> {
    type Values = T;

    ghost codec = { T.bin };

    fn read(alloc: Global, offset: &mut usize, bytes: &[u8]) -> Result<T, DeBinErr> {
        T::de_bin(alloc, offset, bytes)
    }

    fn discard(_values: T) {}
}

impl<'a, N, T: SerBin + 'a> BinRefs<'a> for Required<N, T> {
    type Values = T;

    type Refs = &'a T;

    ghost values = { λ r. r.now };

    ghost codec = { T.bin };

    fn write(refs: &&'a T, alloc: Global, output: &mut Vec<u8>) -> Result<(), AllocError> {
        refs.ser_bin(alloc, output)
    }
}

impl<N, T: BinCodec> BinShape for Optional<N, T> {
    type Values = Option<T>;

    ghost codec = { option_codec T.bin };
}

impl<N, T: DeBin> BinFields for Optional<N, T> {
    type Values = Option<T>;

    ghost codec = { option_codec T.bin };

    fn read(alloc: Global, offset: &mut usize, bytes: &[u8]) -> Result<Option<T>, DeBinErr> {
        <Option<T>>::de_bin(alloc, offset, bytes)
    }

    fn discard(_values: Option<T>) {}
}

impl<'a, N, T: SerBin + 'a> BinRefs<'a> for Optional<N, T> {
    type Values = Option<T>;

    type Refs = &'a Option<T>;

    ghost values = { λ r. r.now };

    ghost codec = { option_codec T.bin };

    fn write(refs: &&'a Option<T>, alloc: Global, output: &mut Vec<u8>) -> Result<(), AllocError> {
        refs.ser_bin(alloc, output)
    }
}

impl<N, T: BinCodec, D> BinShape for Defaulted<N, T, D> {
    type Values = T;

    ghost codec = { T.bin };
}

impl<N, T: DeBin, D> BinFields for Defaulted<N, T, D> {
    type Values = T;

    ghost codec = { T.bin };

    fn read(alloc: Global, offset: &mut usize, bytes: &[u8]) -> Result<T, DeBinErr> {
        T::de_bin(alloc, offset, bytes)
    }

    fn discard(_values: T) {}
}

impl<'a, N, T: SerBin + 'a, D> BinRefs<'a> for Defaulted<N, T, D> {
    type Values = T;

    type Refs = &'a T;

    ghost values = { λ r. r.now };

    ghost codec = { T.bin };

    fn write(refs: &&'a T, alloc: Global, output: &mut Vec<u8>) -> Result<(), AllocError> {
        refs.ser_bin(alloc, output)
    }
}

impl<N, F: BinShape> BinShape for Aliased<N, F> {
    type Values = F::Values;

    ghost codec = { F.codec };
}

impl<N, F: BinFields> BinFields for Aliased<N, F> {
    type Values = F::Values;

    ghost codec = { F.codec };

    fn read(alloc: Global, offset: &mut usize, bytes: &[u8]) -> Result<F::Values, DeBinErr> {
        F::read(alloc, offset, bytes)
    }

    fn discard(values: F::Values) {
        F::discard(values);
    }
}

impl<'a, N, F: BinRefs<'a>> BinRefs<'a> for Aliased<N, F> {
    type Values = F::Values;

    type Refs = F::Refs;

    ghost values = { F.values };

    ghost codec = { F.codec };

    fn write(refs: &F::Refs, alloc: Global, output: &mut Vec<u8>) -> Result<(), AllocError> {
        F::write(refs, alloc, output)
    }
}

impl<A: BinShape, B: BinShape> BinShape for (A, B) {
    type Values = (A::Values, B::Values);

    ghost codec = { pair_codec A.codec B.codec };
}

impl<A: BinFields, B: BinFields> BinFields for (A, B) {
    type Values = (A::Values, B::Values);

    ghost codec = { pair_codec A.codec B.codec };

    fn read(
        alloc: Global,
        offset: &mut usize,
        bytes: &[u8],
    ) -> Result<(A::Values, B::Values), DeBinErr> {
        let mut at = *offset;
        let first = A::read(alloc, &mut at, bytes)?;
        match B::read(alloc, &mut at, bytes) {
            Ok(second) => {
                *offset = at;
                Ok((first, second))
            }
            Err(error) => {
                A::discard(first);
                Err(error)
            }
        }
    }

    fn discard(values: (A::Values, B::Values)) {
        let (first, second) = values;
        A::discard(first);
        B::discard(second);
    }
}

impl<'a, A: BinRefs<'a>, B: BinRefs<'a>> BinRefs<'a> for (A, B) {
    type Values = (A::Values, B::Values);

    type Refs = (A::Refs, B::Refs);

    ghost values = { λ r. (A.values r.0, B.values r.1) };

    ghost codec = { pair_codec A.codec B.codec };

    fn write(
        refs: &(A::Refs, B::Refs),
        alloc: Global,
        output: &mut Vec<u8>,
    ) -> Result<(), AllocError> {
        let start = output.len();
        A::write(&refs.0, alloc, output)?;
        let written = B::write(&refs.1, alloc, output);
        if written.is_err() {
            output.truncate(start);
        }
        written
    }
}
