//! Signed integers: two's complement, the lowest byte first.

ghost use Rattle.std.specs.Prelude.{refl, IfOk, IfErr};
ghost use Rattle.std.specs.Int.{w8, w16, w32, w64, w128};
ghost use Rattle.nano_value.specs.Meaning.{number};
ghost use Rattle.nano_meaning.proofs.AgreesLaws.{agreed};
ghost use Rattle.nano_bin_bytes.specs.Reading.{Decodes, ReadsNoneWhereShort};
ghost use Rattle.nano_bin_bytes.specs.Scalars.{EncodesSigned};
ghost use Rattle.nano_bin.specs.ScalarCodecs.{signed_codec};
ghost use Rattle.nano_bin_bytes.proofs.ScalarsLaws.{bits_fit_8, bits_fit_16, bits_fit_32};
ghost use Rattle.nano_bin_bytes.proofs.ScalarsLaws.{bits_fit_64, bits_fit_128};

use crate::traits::{BinCodec, DeBin, SerBin};
use nano_bin_bytes::{DeBinErr, append_number, append_run, read_number, read_run};
use std::alloc::{AllocError, Global};

impl BinCodec for i8 {
    ghost bin = { signed_codec w8 1 bits_fit_8 };

    ghost agrees = { agreed };
}

impl SerBin for i8 {
    fn ser_bin(&self, alloc: Global, output: &mut Vec<u8>) -> Result<(), AllocError> {
        append_number::<i8, 1>(self, output)
    }

    fn ser_bin_items(alloc: Global, items: &[i8], output: &mut Vec<u8>) -> Result<(), AllocError> {
        append_run(items, output)
    }
}

impl DeBin for i8 {
    ghost is_decodable = { refl };

    /// Allocates nothing, and returns an error exactly if fewer than 1 byte is left.
    fn de_bin(alloc: Global, offset: &mut usize, bytes: &[u8]) -> Result<i8, DeBinErr>
        ensures ok { IfOk result (λ value.
            Decodes (EncodesSigned w8 1) bytes.now offset.old (number value) offset.new) }
        ensures err { IfErr result
            (ReadsNoneWhereShort (EncodesSigned w8 1)
            bytes.now offset.old offset.new offset.old 1) }
    {
        read_number::<i8, 1>(offset, bytes)
    }

    fn de_bin_items(
        alloc: Global,
        count: usize,
        offset: &mut usize,
        bytes: &[u8],
    ) -> Result<Vec<i8>, DeBinErr> {
        read_run::<i8, 1>(alloc, count, offset, bytes)
    }
}

impl BinCodec for i16 {
    ghost bin = { signed_codec w16 2 bits_fit_16 };

    ghost agrees = { agreed };
}

impl SerBin for i16 {
    fn ser_bin(&self, alloc: Global, output: &mut Vec<u8>) -> Result<(), AllocError> {
        append_number::<i16, 2>(self, output)
    }

    fn ser_bin_items(alloc: Global, items: &[i16], output: &mut Vec<u8>) -> Result<(), AllocError> {
        append_run(items, output)
    }
}

impl DeBin for i16 {
    ghost is_decodable = { refl };

    /// Allocates nothing, and returns an error exactly if fewer than 2 bytes are left.
    fn de_bin(alloc: Global, offset: &mut usize, bytes: &[u8]) -> Result<i16, DeBinErr>
        ensures ok { IfOk result (λ value.
            Decodes (EncodesSigned w16 2) bytes.now offset.old (number value) offset.new) }
        ensures err { IfErr result
            (ReadsNoneWhereShort (EncodesSigned w16 2)
            bytes.now offset.old offset.new offset.old 2) }
    {
        read_number::<i16, 2>(offset, bytes)
    }

    fn de_bin_items(
        alloc: Global,
        count: usize,
        offset: &mut usize,
        bytes: &[u8],
    ) -> Result<Vec<i16>, DeBinErr> {
        read_run::<i16, 2>(alloc, count, offset, bytes)
    }
}

impl BinCodec for i32 {
    ghost bin = { signed_codec w32 4 bits_fit_32 };

    ghost agrees = { agreed };
}

impl SerBin for i32 {
    fn ser_bin(&self, alloc: Global, output: &mut Vec<u8>) -> Result<(), AllocError> {
        append_number::<i32, 4>(self, output)
    }

    fn ser_bin_items(alloc: Global, items: &[i32], output: &mut Vec<u8>) -> Result<(), AllocError> {
        append_run(items, output)
    }
}

impl DeBin for i32 {
    ghost is_decodable = { refl };

    /// Allocates nothing, and returns an error exactly if fewer than 4 bytes are left.
    fn de_bin(alloc: Global, offset: &mut usize, bytes: &[u8]) -> Result<i32, DeBinErr>
        ensures ok { IfOk result (λ value.
            Decodes (EncodesSigned w32 4) bytes.now offset.old (number value) offset.new) }
        ensures err { IfErr result
            (ReadsNoneWhereShort (EncodesSigned w32 4)
            bytes.now offset.old offset.new offset.old 4) }
    {
        read_number::<i32, 4>(offset, bytes)
    }

    fn de_bin_items(
        alloc: Global,
        count: usize,
        offset: &mut usize,
        bytes: &[u8],
    ) -> Result<Vec<i32>, DeBinErr> {
        read_run::<i32, 4>(alloc, count, offset, bytes)
    }
}

impl BinCodec for i64 {
    ghost bin = { signed_codec w64 8 bits_fit_64 };

    ghost agrees = { agreed };
}

impl SerBin for i64 {
    fn ser_bin(&self, alloc: Global, output: &mut Vec<u8>) -> Result<(), AllocError> {
        append_number::<i64, 8>(self, output)
    }

    fn ser_bin_items(alloc: Global, items: &[i64], output: &mut Vec<u8>) -> Result<(), AllocError> {
        append_run(items, output)
    }
}

impl DeBin for i64 {
    ghost is_decodable = { refl };

    /// Allocates nothing, and returns an error exactly if fewer than 8 bytes are left.
    fn de_bin(alloc: Global, offset: &mut usize, bytes: &[u8]) -> Result<i64, DeBinErr>
        ensures ok { IfOk result (λ value.
            Decodes (EncodesSigned w64 8) bytes.now offset.old (number value) offset.new) }
        ensures err { IfErr result
            (ReadsNoneWhereShort (EncodesSigned w64 8)
            bytes.now offset.old offset.new offset.old 8) }
    {
        read_number::<i64, 8>(offset, bytes)
    }

    fn de_bin_items(
        alloc: Global,
        count: usize,
        offset: &mut usize,
        bytes: &[u8],
    ) -> Result<Vec<i64>, DeBinErr> {
        read_run::<i64, 8>(alloc, count, offset, bytes)
    }
}

impl BinCodec for i128 {
    ghost bin = { signed_codec w128 16 bits_fit_128 };

    ghost agrees = { agreed };
}

impl SerBin for i128 {
    fn ser_bin(&self, alloc: Global, output: &mut Vec<u8>) -> Result<(), AllocError> {
        append_number::<i128, 16>(self, output)
    }

    fn ser_bin_items(
        alloc: Global,
        items: &[i128],
        output: &mut Vec<u8>,
    ) -> Result<(), AllocError> {
        append_run(items, output)
    }
}

impl DeBin for i128 {
    ghost is_decodable = { refl };

    /// Allocates nothing, and returns an error exactly if fewer than 16 bytes are left.
    fn de_bin(alloc: Global, offset: &mut usize, bytes: &[u8]) -> Result<i128, DeBinErr>
        ensures ok { IfOk result (λ value.
            Decodes (EncodesSigned w128 16) bytes.now offset.old (number value) offset.new) }
        ensures err { IfErr result
            (ReadsNoneWhereShort (EncodesSigned w128 16)
            bytes.now offset.old offset.new offset.old 16) }
    {
        read_number::<i128, 16>(offset, bytes)
    }

    fn de_bin_items(
        alloc: Global,
        count: usize,
        offset: &mut usize,
        bytes: &[u8],
    ) -> Result<Vec<i128>, DeBinErr> {
        read_run::<i128, 16>(alloc, count, offset, bytes)
    }
}
