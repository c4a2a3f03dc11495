//! Boxes of values that contain themselves: the content.

use crate::traits::{ReadsBin, WritesBin};
use nano_bin::{BinCodec, DeBinErr};
use nano_bin_bytes::no_memory;
use std::alloc::{AllocError, Global};

impl<T: BinCodec + Drop, L: ReadsBin<T>> ReadsBin<Box<T>> for L {
    fn read_bin(
        &self,
        alloc: Global,
        offset: &mut usize,
        bytes: &[u8],
    ) -> Result<Box<T>, DeBinErr> {
        let mut at = *offset;
        let value: T = ReadsBin::<T>::read_bin(self, alloc, &mut at, bytes)?;
        let Ok(value) = Box::new(alloc, value) else {
            return Err(no_memory(at, bytes));
        };
        *offset = at;
        Ok(value)
    }
}

impl<T: WritesBin> WritesBin for Box<T> {
    fn write_bin(&self, alloc: Global, output: &mut Vec<u8>) -> Result<(), AllocError> {
        (**self).write_bin(alloc, output)
    }
}
