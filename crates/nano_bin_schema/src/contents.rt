//! What a variant holds, as bytes.

ghost use Rattle.nano_bin.specs.ScalarCodecs.{unit_codec};

use crate::fields::{BinFields, BinRefs, BinShape};
use nano_bin::{BinCodec, DeBin, DeBinErr, SerBin, append_part};
use nano_schema::{Newtype, Struct, Tuple, Unit};
use std::alloc::{AllocError, Global};

impl BinShape for Unit {
    type Values = ();

    ghost codec = { unit_codec };
}

impl BinFields for Unit {
    type Values = ();

    ghost codec = { unit_codec };

    fn read(alloc: Global, offset: &mut usize, bytes: &[u8]) -> Result<(), DeBinErr> {
        <()>::de_bin(alloc, offset, bytes)
    }

    fn discard(_values: ()) {}
}

impl<'a> BinRefs<'a> for Unit {
    type Values = ();

    type Refs = ();

    ghost values = { λ r. r };

    ghost codec = { unit_codec };

    fn write(refs: &(), alloc: Global, output: &mut Vec<u8>) -> Result<(), AllocError> {
        refs.ser_bin(alloc, output)
    }
}

impl<T: BinCodec> BinShape for Newtype<T> {
    type Values = T;

    ghost codec = { T.bin };
}

impl<T: DeBin> BinFields for Newtype<T> {
    type Values = T;

    ghost codec = { T.bin };

    fn read(alloc: Global, offset: &mut usize, bytes: &[u8]) -> Result<T, DeBinErr> {
        T::de_bin(alloc, offset, bytes)
    }

    fn discard(_values: T) {}
}

impl<'a, T: SerBin + 'a> BinRefs<'a> for Newtype<T> {
    type Values = T;

    type Refs = &'a T;

    ghost values = { λ r. r.now };

    ghost codec = { T.bin };

    fn write(refs: &&'a T, alloc: Global, output: &mut Vec<u8>) -> Result<(), AllocError> {
        refs.ser_bin(alloc, output)
    }
}

impl<F: BinShape> BinShape for Struct<F> {
    type Values = F::Values;

    ghost codec = { F.codec };
}

impl<F: BinFields> BinFields for Struct<F> {
    type Values = F::Values;

    ghost codec = { F.codec };

    fn read(alloc: Global, offset: &mut usize, bytes: &[u8]) -> Result<F::Values, DeBinErr> {
        F::read(alloc, offset, bytes)
    }

    fn discard(values: F::Values) {
        F::discard(values);
    }
}

impl<'a, F: BinRefs<'a>> BinRefs<'a> for Struct<F> {
    type Values = F::Values;

    type Refs = F::Refs;

    ghost values = { F.values };

    ghost codec = { F.codec };

    fn write(refs: &F::Refs, alloc: Global, output: &mut Vec<u8>) -> Result<(), AllocError> {
        F::write(refs, alloc, output)
    }
}

impl<P: BinCodec> BinShape for Tuple<P> {
    type Values = P;

    ghost codec = { P.bin };
}

impl<P: DeBin> BinFields for Tuple<P> {
    type Values = P;

    ghost codec = { P.bin };

    fn read(alloc: Global, offset: &mut usize, bytes: &[u8]) -> Result<P, DeBinErr> {
        P::de_bin(alloc, offset, bytes)
    }

    fn discard(_values: P) {}
}

impl<'a, A: SerBin + 'a, B: SerBin + 'a> BinRefs<'a> for Tuple<(A, B)> {
    type Values = (A, B);

    type Refs = (&'a A, &'a B);

    ghost values = { λ r. (r.0.now, r.1.now) };

    ghost codec = { ⟦<(A, B) as BinCodec>⟧.bin };

    fn write(refs: &(&'a A, &'a B), alloc: Global, output: &mut Vec<u8>) -> Result<(), AllocError> {
        let start = output.len();
        refs.0.ser_bin(alloc, output)?;
        append_part(alloc, refs.1, output, start)
    }
}

impl<'a, A: SerBin + 'a, B: SerBin + 'a, C: SerBin + 'a> BinRefs<'a> for Tuple<(A, B, C)> {
    type Values = (A, B, C);

    type Refs = (&'a A, &'a B, &'a C);

    ghost values = { λ r. (r.0.now, r.1.now, r.2.now) };

    ghost codec = { ⟦<(A, B, C) as BinCodec>⟧.bin };

    fn write(
        refs: &(&'a A, &'a B, &'a C),
        alloc: Global,
        output: &mut Vec<u8>,
    ) -> Result<(), AllocError> {
        let start = output.len();
        refs.0.ser_bin(alloc, output)?;
        append_part(alloc, refs.1, output, start)?;
        append_part(alloc, refs.2, output, start)
    }
}

impl<'a, A: SerBin + 'a, B: SerBin + 'a, C: SerBin + 'a, D: SerBin + 'a> BinRefs<'a>
    for Tuple<(A, B, C, D)> {
    type Values = (A, B, C, D);

    type Refs = (&'a A, &'a B, &'a C, &'a D);

    ghost values = { λ r. (r.0.now, r.1.now, r.2.now, r.3.now) };

    ghost codec = { ⟦<(A, B, C, D) as BinCodec>⟧.bin };

    fn write(
        refs: &(&'a A, &'a B, &'a C, &'a D),
        alloc: Global,
        output: &mut Vec<u8>,
    ) -> Result<(), AllocError> {
        let start = output.len();
        refs.0.ser_bin(alloc, output)?;
        append_part(alloc, refs.1, output, start)?;
        append_part(alloc, refs.2, output, start)?;
        append_part(alloc, refs.3, output, start)
    }
}
