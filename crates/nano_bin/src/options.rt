//! Options: any byte but 1; or the byte 1 and the item.

ghost use Rattle.nano_meaning.proofs.AgreesLaws.{option_agrees};
ghost use Rattle.nano_bin.specs.ContainerCodecs.{option_codec};

use crate::append::append_part;
use crate::traits::{BinCodec, DeBin, SerBin};
use nano_bin_bytes::DeBinErr;
use std::alloc::{AllocError, Global};

impl<T: BinCodec> BinCodec for Option<T> {
    ghost bin = { option_codec T.bin };

    ghost agrees = { option_agrees T.agrees };
}

impl<T: SerBin> SerBin for Option<T> {
    #[inline(always)]
    fn ser_bin(&self, alloc: Global, output: &mut Vec<u8>) -> Result<(), AllocError> {
        let start = output.len();
        match self {
            Some(value) => {
                1u8.ser_bin(alloc, output)?;
                append_part(alloc, value, output, start)
            }
            None => 0u8.ser_bin(alloc, output),
        }
    }
}

impl<T: DeBin> DeBin for Option<T> {
    ghost is_decodable = { T.is_decodable };

    #[inline(always)]
    fn de_bin(alloc: Global, offset: &mut usize, bytes: &[u8]) -> Result<Option<T>, DeBinErr> {
        let mut at = *offset;
        let tag = u8::de_bin(alloc, &mut at, bytes)?;
        if tag != 1 {
            *offset = at;
            return Ok(None);
        }
        let value = T::de_bin(alloc, &mut at, bytes)?;
        *offset = at;
        Ok(Some(value))
    }
}
