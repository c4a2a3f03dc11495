//! Boxes: the content.

ghost use Rattle.nano_meaning.proofs.AgreesLaws.{seen_agrees};
ghost use Rattle.nano_bin_bytes.specs.BaseCodecs.{codec_as};

use crate::traits::{BinCodec, DeBin, SerBin};
use nano_bin_bytes::{DeBinErr, no_memory};
use std::alloc::{AllocError, Global};

impl<T: BinCodec> BinCodec for Box<T> {
    ghost bin = { codec_as (λ x. x.value) T.bin };

    ghost agrees = { seen_agrees T.agrees (λ x. x.value) };
}

impl<T: SerBin> SerBin for Box<T> {
    fn ser_bin(&self, alloc: Global, output: &mut Vec<u8>) -> Result<(), AllocError> {
        (**self).ser_bin(alloc, output)
    }
}

impl<T: DeBin> DeBin for Box<T> {
    ghost is_decodable = { T.is_decodable };

    fn de_bin(alloc: Global, offset: &mut usize, bytes: &[u8]) -> Result<Box<T>, DeBinErr> {
        let mut at = *offset;
        let value = T::de_bin(alloc, &mut at, bytes)?;
        let Ok(value) = Box::new(alloc, value) else {
            return Err(no_memory(at, bytes));
        };
        *offset = at;
        Ok(value)
    }
}
