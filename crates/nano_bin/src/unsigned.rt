//! Unsigned integers: the lowest byte first.

ghost use Rattle.std.specs.Prelude.{refl, IfOk, IfErr};
ghost use Rattle.nano_value.specs.Meaning.{whole};
ghost use Rattle.nano_meaning.proofs.AgreesLaws.{agreed};
ghost use Rattle.nano_bin_bytes.specs.Reading.{Decodes, ReadsNoneWhereShort};
ghost use Rattle.nano_bin_bytes.specs.Scalars.{EncodesUnsigned};
ghost use Rattle.nano_bin.specs.ScalarCodecs.{unsigned_codec};

use crate::traits::{BinCodec, DeBin, SerBin};
use nano_bin_bytes::{
    DeBinErr, append_bytes, append_number, append_run, no_memory, read_bytes, read_number, read_run,
};
use std::alloc::{AllocError, Global};

impl BinCodec for u8 {
    ghost bin = { unsigned_codec 1 };

    ghost agrees = { agreed };
}

impl SerBin for u8 {
    #[tactic(auto, using(nano_bin_bytes::proofs::ScalarsLaws::little_byte))]
    fn ser_bin(&self, alloc: Global, output: &mut Vec<u8>) -> Result<(), AllocError> {
        match output.push(*self) {
            Ok(()) => Ok(()),
            Err(_) => Err(AllocError),
        }
    }

    fn ser_bin_items(alloc: Global, items: &[u8], output: &mut Vec<u8>) -> Result<(), AllocError> {
        append_bytes(output, items)
    }
}

impl DeBin for u8 {
    ghost is_decodable = { refl };

    /// Allocates nothing, and returns an error exactly if fewer than 1 byte is left.
    fn de_bin(alloc: Global, offset: &mut usize, bytes: &[u8]) -> Result<u8, DeBinErr>
        ensures ok { IfOk result (λ value.
            Decodes (EncodesUnsigned 1) bytes.now offset.old (whole value) offset.new) }
        ensures err { IfErr result
            (ReadsNoneWhereShort (EncodesUnsigned 1) bytes.now offset.old offset.new offset.old 1) }
    {
        read_number::<u8, 1>(offset, bytes)
    }

    fn de_bin_items(
        alloc: Global,
        count: usize,
        offset: &mut usize,
        bytes: &[u8],
    ) -> Result<Vec<u8>, DeBinErr> {
        let mut at = *offset;
        let read = read_bytes(count, &mut at, bytes)?;
        let Ok(items) = read.to_vec(alloc) else {
            return Err(no_memory(at, bytes));
        };
        *offset = at;
        Ok(items)
    }
}

impl BinCodec for u16 {
    ghost bin = { unsigned_codec 2 };

    ghost agrees = { agreed };
}

impl SerBin for u16 {
    fn ser_bin(&self, alloc: Global, output: &mut Vec<u8>) -> Result<(), AllocError> {
        append_number::<u16, 2>(self, output)
    }

    fn ser_bin_items(alloc: Global, items: &[u16], output: &mut Vec<u8>) -> Result<(), AllocError> {
        append_run(items, output)
    }
}

impl DeBin for u16 {
    ghost is_decodable = { refl };

    /// Allocates nothing, and returns an error exactly if fewer than 2 bytes are left.
    fn de_bin(alloc: Global, offset: &mut usize, bytes: &[u8]) -> Result<u16, DeBinErr>
        ensures ok { IfOk result (λ value.
            Decodes (EncodesUnsigned 2) bytes.now offset.old (whole value) offset.new) }
        ensures err { IfErr result
            (ReadsNoneWhereShort (EncodesUnsigned 2) bytes.now offset.old offset.new offset.old 2) }
    {
        read_number::<u16, 2>(offset, bytes)
    }

    fn de_bin_items(
        alloc: Global,
        count: usize,
        offset: &mut usize,
        bytes: &[u8],
    ) -> Result<Vec<u16>, DeBinErr> {
        read_run::<u16, 2>(alloc, count, offset, bytes)
    }
}

impl BinCodec for u32 {
    ghost bin = { unsigned_codec 4 };

    ghost agrees = { agreed };
}

impl SerBin for u32 {
    fn ser_bin(&self, alloc: Global, output: &mut Vec<u8>) -> Result<(), AllocError> {
        append_number::<u32, 4>(self, output)
    }

    fn ser_bin_items(alloc: Global, items: &[u32], output: &mut Vec<u8>) -> Result<(), AllocError> {
        append_run(items, output)
    }
}

impl DeBin for u32 {
    ghost is_decodable = { refl };

    /// Allocates nothing, and returns an error exactly if fewer than 4 bytes are left.
    fn de_bin(alloc: Global, offset: &mut usize, bytes: &[u8]) -> Result<u32, DeBinErr>
        ensures ok { IfOk result (λ value.
            Decodes (EncodesUnsigned 4) bytes.now offset.old (whole value) offset.new) }
        ensures err { IfErr result
            (ReadsNoneWhereShort (EncodesUnsigned 4) bytes.now offset.old offset.new offset.old 4) }
    {
        read_number::<u32, 4>(offset, bytes)
    }

    fn de_bin_items(
        alloc: Global,
        count: usize,
        offset: &mut usize,
        bytes: &[u8],
    ) -> Result<Vec<u32>, DeBinErr> {
        read_run::<u32, 4>(alloc, count, offset, bytes)
    }
}

impl BinCodec for u64 {
    ghost bin = { unsigned_codec 8 };

    ghost agrees = { agreed };
}

impl SerBin for u64 {
    fn ser_bin(&self, alloc: Global, output: &mut Vec<u8>) -> Result<(), AllocError> {
        append_number::<u64, 8>(self, output)
    }

    fn ser_bin_items(alloc: Global, items: &[u64], output: &mut Vec<u8>) -> Result<(), AllocError> {
        append_run(items, output)
    }
}

impl DeBin for u64 {
    ghost is_decodable = { refl };

    /// Allocates nothing, and returns an error exactly if fewer than 8 bytes are left.
    fn de_bin(alloc: Global, offset: &mut usize, bytes: &[u8]) -> Result<u64, DeBinErr>
        ensures ok { IfOk result (λ value.
            Decodes (EncodesUnsigned 8) bytes.now offset.old (whole value) offset.new) }
        ensures err { IfErr result
            (ReadsNoneWhereShort (EncodesUnsigned 8) bytes.now offset.old offset.new offset.old 8) }
    {
        read_number::<u64, 8>(offset, bytes)
    }

    fn de_bin_items(
        alloc: Global,
        count: usize,
        offset: &mut usize,
        bytes: &[u8],
    ) -> Result<Vec<u64>, DeBinErr> {
        read_run::<u64, 8>(alloc, count, offset, bytes)
    }
}

impl BinCodec for usize {
    ghost bin = { unsigned_codec 8 };

    ghost agrees = { agreed };
}

impl SerBin for usize {
    fn ser_bin(&self, alloc: Global, output: &mut Vec<u8>) -> Result<(), AllocError> {
        append_number::<usize, 8>(self, output)
    }

    fn ser_bin_items(
        alloc: Global,
        items: &[usize],
        output: &mut Vec<u8>,
    ) -> Result<(), AllocError> {
        append_run(items, output)
    }
}

impl DeBin for usize {
    ghost is_decodable = { refl };

    /// Allocates nothing, and returns an error exactly if fewer than 8 bytes are left.
    fn de_bin(alloc: Global, offset: &mut usize, bytes: &[u8]) -> Result<usize, DeBinErr>
        ensures ok { IfOk result (λ value.
            Decodes (EncodesUnsigned 8) bytes.now offset.old (whole value) offset.new) }
        ensures err { IfErr result
            (ReadsNoneWhereShort (EncodesUnsigned 8) bytes.now offset.old offset.new offset.old 8) }
    {
        read_number::<usize, 8>(offset, bytes)
    }

    fn de_bin_items(
        alloc: Global,
        count: usize,
        offset: &mut usize,
        bytes: &[u8],
    ) -> Result<Vec<usize>, DeBinErr> {
        read_run::<usize, 8>(alloc, count, offset, bytes)
    }
}

impl BinCodec for u128 {
    ghost bin = { unsigned_codec 16 };

    ghost agrees = { agreed };
}

impl SerBin for u128 {
    fn ser_bin(&self, alloc: Global, output: &mut Vec<u8>) -> Result<(), AllocError> {
        append_number::<u128, 16>(self, output)
    }

    fn ser_bin_items(
        alloc: Global,
        items: &[u128],
        output: &mut Vec<u8>,
    ) -> Result<(), AllocError> {
        append_run(items, output)
    }
}

impl DeBin for u128 {
    ghost is_decodable = { refl };

    /// Allocates nothing, and returns an error exactly if fewer than 16 bytes are left.
    fn de_bin(alloc: Global, offset: &mut usize, bytes: &[u8]) -> Result<u128, DeBinErr>
        ensures ok { IfOk result (λ value.
            Decodes (EncodesUnsigned 16) bytes.now offset.old (whole value) offset.new) }
        ensures err { IfErr result
            (ReadsNoneWhereShort (EncodesUnsigned 16)
            bytes.now offset.old offset.new offset.old 16) }
    {
        read_number::<u128, 16>(offset, bytes)
    }

    fn de_bin_items(
        alloc: Global,
        count: usize,
        offset: &mut usize,
        bytes: &[u8],
    ) -> Result<Vec<u128>, DeBinErr> {
        read_run::<u128, 16>(alloc, count, offset, bytes)
    }
}
