//! Options of values that contain themselves: any byte but 1; or the byte 1 and the item.

use crate::append::append_part_within;
use crate::traits::{ReadsBin, WritesBin};
use nano_bin::{BinCodec, DeBin, DeBinErr, SerBin};
use std::alloc::{AllocError, Global};

impl<T: BinCodec + Drop, L: ReadsBin<T>> ReadsBin<Option<T>> for L {
    fn read_bin(
        &self,
        alloc: Global,
        offset: &mut usize,
        bytes: &[u8],
    ) -> Result<Option<T>, DeBinErr> {
        let mut at = *offset;
        let tag = u8::de_bin(alloc, &mut at, bytes)?;
        if tag != 1 {
            *offset = at;
            return Ok(None);
        }
        let value: T = ReadsBin::<T>::read_bin(self, alloc, &mut at, bytes)?;
        *offset = at;
        Ok(Some(value))
    }
}

impl<T: WritesBin> WritesBin for Option<T> {
    fn write_bin(&self, alloc: Global, output: &mut Vec<u8>) -> Result<(), AllocError> {
        let start = output.len();
        match self {
            Some(value) => {
                1u8.ser_bin(alloc, output)?;
                append_part_within(alloc, value, output, start)
            }
            None => 0u8.ser_bin(alloc, output),
        }
    }
}
