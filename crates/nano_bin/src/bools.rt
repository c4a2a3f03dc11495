//! Booleans: a byte, 0 or any other. The unit: no byte.

ghost use Rattle.std.specs.Prelude.{◌≡◌, refl, IfOk, IfErr, IsOk};
ghost use Rattle.nano_value.specs.Meaning.{nothing, truth};
ghost use Rattle.nano_meaning.proofs.AgreesLaws.{agreed};
ghost use Rattle.nano_bin_bytes.specs.Reading.{Decodes, ReadsNoneWhereShort};
ghost use Rattle.nano_bin_bytes.specs.Scalars.{EncodesBool, EncodesUnit};
ghost use Rattle.nano_bin.specs.ScalarCodecs.{boolean_codec, unit_codec};

use crate::traits::{BinCodec, DeBin, SerBin};
use nano_bin_bytes::DeBinErr;
use std::alloc::{AllocError, Global};

impl BinCodec for bool {
    ghost bin = { boolean_codec };

    ghost agrees = { agreed };
}

impl SerBin for bool {
    fn ser_bin(&self, alloc: Global, output: &mut Vec<u8>) -> Result<(), AllocError> {
        let byte: u8 = if *self { 1 } else { 0 };
        byte.ser_bin(alloc, output)
    }
}

impl DeBin for bool {
    ghost is_decodable = { refl };

    /// Allocates nothing, and returns an error exactly if no byte is left.
    fn de_bin(alloc: Global, offset: &mut usize, bytes: &[u8]) -> Result<bool, DeBinErr>
        ensures ok { IfOk result (λ value.
            Decodes EncodesBool bytes.now offset.old (truth value) offset.new) }
        ensures err { IfErr result
            (ReadsNoneWhereShort EncodesBool bytes.now offset.old offset.new offset.old 1) }
    {
        Ok(u8::de_bin(alloc, offset, bytes)? != 0)
    }
}

impl BinCodec for () {
    ghost bin = { unit_codec };

    ghost agrees = { agreed };
}

impl SerBin for () {
    /// Appends nothing, and takes no memory.
    fn ser_bin(&self, alloc: Global, output: &mut Vec<u8>) -> Result<(), AllocError>
        ensures ok { IsOk result }
        ensures same { output.new.items ≡ output.old.items }
    {
        // No byte is written.
        Ok(())
    }
}

impl DeBin for () {
    ghost is_decodable = { refl };

    /// Reads no byte, allocates nothing, and never returns an error.
    fn de_bin(alloc: Global, offset: &mut usize, bytes: &[u8]) -> Result<(), DeBinErr>
        ensures ok { IsOk result × offset.new ≡ offset.old }
        ensures read { Decodes EncodesUnit bytes.now offset.old nothing offset.new }
    {
        // No byte is read.
        Ok(())
    }
}
