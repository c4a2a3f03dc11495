//! Ordered maps whose values contain themselves: the count, and keys with their values, in the
//! order of the keys.

ghost use Rattle.std.specs.Prelude.{◌≡◌, ◌≤◌, ◌++◌, take, length, OnOk, OnErr};
ghost use Rattle.std.specs.List.{flat_map};
ghost use Rattle.nano_value.specs.Tables.{ascending};
ghost use Rattle.nano_bin_bytes.specs.Containers.{written_pair};

use crate::append::append_part_within;
use crate::maps::read_entries;
use crate::traits::{ReadsBin, WritesBin};
use nano_bin::{BinCodec, DeBin, DeBinErr, SerBin, append_part};
use nano_value::{Key, OrderedKey};
use std::alloc::{AllocError, Global};
use std::collections::BTreeMap;

impl<K: DeBin + Key + Ord, T: BinCodec + Drop, L: ReadsBin<T>> ReadsBin<BTreeMap<K, T>> for L {
    fn read_bin(
        &self,
        alloc: Global,
        offset: &mut usize,
        bytes: &[u8],
    ) -> Result<BTreeMap<K, T>, DeBinErr> {
        read_entries::<K, T, L, BTreeMap<K, T>>(self, alloc, offset, bytes)
    }
}

impl<K: SerBin + OrderedKey, T: WritesBin> WritesBin for BTreeMap<K, T> {
    fn write_bin(&self, alloc: Global, output: &mut Vec<u8>) -> Result<(), AllocError> {
        let start = output.len();
        self.len().ser_bin(alloc, output)?;
        append_btree_map(alloc, self, output, start)
    }
}

/// Appends the entries of an ordered map. On error, it truncates `output` back to its first
/// `start` bytes.
fn append_btree_map<K: SerBin + Ord, T: WritesBin>(
    alloc: Global,
    entries: &BTreeMap<K, T>,
    output: &mut Vec<u8>,
    start: usize,
) -> Result<(), AllocError>
    requires { start ≤ length output.old.items }
    ensures ok { OnOk result
        (output.new.items ≡ output.old.items
        ++ flat_map (written_pair K.bin.canonical.written T.bin.canonical.written)
        entries.now.entries) }
    ensures ordered { OnOk result (ascending K.cmp entries.now.entries ≡ entries.now.entries) }
    ensures err { OnErr result (output.new.items ≡ take start output.old.items) }
{
    for (key, value) in entries {
        append_part(alloc, key, output, start)?;
        append_part_within(alloc, value, output, start)?;
    }
    Ok(())
}
