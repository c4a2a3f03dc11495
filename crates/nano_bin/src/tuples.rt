//! Tuples: one part after the other. A longer tuple is its first part and the tuple of the
//! others.

ghost use Rattle.nano_meaning.proofs.AgreesLaws.{pair_agrees, seen_agrees};
ghost use Rattle.nano_bin_bytes.specs.BaseCodecs.{codec_as};
ghost use Rattle.nano_bin_bytes.proofs.CodecLaws.{both_are_read};
ghost use Rattle.nano_bin.specs.ContainerCodecs.{pair_codec};

use crate::append::append_part;
use crate::traits::{BinCodec, DeBin, SerBin};
use nano_bin_bytes::DeBinErr;
use std::alloc::{AllocError, Global};

impl<A: BinCodec, B: BinCodec> BinCodec for (A, B) {
    ghost bin = { pair_codec A.bin B.bin };

    ghost agrees = { pair_agrees A.agrees B.agrees };
}

impl<A: SerBin, B: SerBin> SerBin for (A, B) {
    fn ser_bin(&self, alloc: Global, output: &mut Vec<u8>) -> Result<(), AllocError> {
        let start = output.len();
        self.0.ser_bin(alloc, output)?;
        append_part(alloc, &self.1, output, start)
    }
}

impl<A: DeBin, B: DeBin> DeBin for (A, B) {
    ghost is_decodable = { both_are_read A.is_decodable B.is_decodable };

    fn de_bin(alloc: Global, offset: &mut usize, bytes: &[u8]) -> Result<(A, B), DeBinErr> {
        let mut at = *offset;
        let first = A::de_bin(alloc, &mut at, bytes)?;
        let second = B::de_bin(alloc, &mut at, bytes)?;
        *offset = at;
        Ok((first, second))
    }
}

impl<A: BinCodec, B: BinCodec, C: BinCodec> BinCodec for (A, B, C) {
    ghost bin = { codec_as (λ x. (x.0, (x.1, x.2)))
        (pair_codec A.bin (pair_codec B.bin C.bin)) };

    ghost agrees = { seen_agrees (pair_agrees A.agrees (pair_agrees B.agrees C.agrees))
        (λ x. (x.0, (x.1, x.2))) };
}

impl<A: SerBin, B: SerBin, C: SerBin> SerBin for (A, B, C) {
    fn ser_bin(&self, alloc: Global, output: &mut Vec<u8>) -> Result<(), AllocError> {
        let start = output.len();
        self.0.ser_bin(alloc, output)?;
        append_part(alloc, &self.1, output, start)?;
        append_part(alloc, &self.2, output, start)
    }
}

impl<A: DeBin, B: DeBin, C: DeBin> DeBin for (A, B, C) {
    ghost is_decodable = { both_are_read A.is_decodable (both_are_read B.is_decodable C.is_decodable) };

    fn de_bin(alloc: Global, offset: &mut usize, bytes: &[u8]) -> Result<(A, B, C), DeBinErr> {
        let (first, (second, third)) = <(A, (B, C))>::de_bin(alloc, offset, bytes)?;
        Ok((first, second, third))
    }
}

impl<A: BinCodec, B: BinCodec, C: BinCodec, D: BinCodec> BinCodec for (A, B, C, D) {
    ghost bin = { codec_as (λ x. (x.0, (x.1, (x.2, x.3))))
        (pair_codec A.bin (pair_codec B.bin (pair_codec C.bin D.bin))) };

    ghost agrees = { seen_agrees
        (pair_agrees A.agrees (pair_agrees B.agrees (pair_agrees C.agrees D.agrees)))
        (λ x. (x.0, (x.1, (x.2, x.3)))) };
}

impl<A: SerBin, B: SerBin, C: SerBin, D: SerBin> SerBin for (A, B, C, D) {
    fn ser_bin(&self, alloc: Global, output: &mut Vec<u8>) -> Result<(), AllocError> {
        let start = output.len();
        self.0.ser_bin(alloc, output)?;
        append_part(alloc, &self.1, output, start)?;
        append_part(alloc, &self.2, output, start)?;
        append_part(alloc, &self.3, output, start)
    }
}

impl<A: DeBin, B: DeBin, C: DeBin, D: DeBin> DeBin for (A, B, C, D) {
    ghost is_decodable = { both_are_read A.is_decodable
        (both_are_read B.is_decodable (both_are_read C.is_decodable D.is_decodable)) };

    fn de_bin(alloc: Global, offset: &mut usize, bytes: &[u8]) -> Result<(A, B, C, D), DeBinErr> {
        let (first, (second, (third, fourth))) = <(A, (B, (C, D)))>::de_bin(alloc, offset, bytes)?;
        Ok((first, second, third, fourth))
    }
}
