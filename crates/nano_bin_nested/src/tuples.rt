//! Pairs of another value and one that contains itself: one part after the other.

use crate::append::append_part_within;
use crate::traits::{ReadsBin, WritesBin};
use nano_bin::{BinCodec, DeBin, DeBinErr, SerBin};
use std::alloc::{AllocError, Global};

impl<K: DeBin, T: BinCodec + Drop, L: ReadsBin<T>> ReadsBin<(K, T)> for L {
    fn read_bin(
        &self,
        alloc: Global,
        offset: &mut usize,
        bytes: &[u8],
    ) -> Result<(K, T), DeBinErr> {
        let mut at = *offset;
        let first = K::de_bin(alloc, &mut at, bytes)?;
        let second: T = ReadsBin::<T>::read_bin(self, alloc, &mut at, bytes)?;
        *offset = at;
        Ok((first, second))
    }
}

impl<K: SerBin, T: WritesBin> WritesBin for (K, T) {
    fn write_bin(&self, alloc: Global, output: &mut Vec<u8>) -> Result<(), AllocError> {
        let start = output.len();
        self.0.ser_bin(alloc, output)?;
        append_part_within(alloc, &self.1, output, start)
    }
}
