//! Maps whose values contain themselves: the count, and keys with their values.

ghost use Rattle.std.specs.Prelude.{◌≡◌, ◌≤◌, ◌++◌, map, take, length, IfOk, IfErr, OnOk, OnErr};
ghost use Rattle.std.specs.List.{flat_map};
ghost use Rattle.std.specs.Map.Iter.{deref_pair};
ghost use Rattle.nano_bin_bytes.specs.Reading.{Decodes, ReadsNone};
ghost use Rattle.nano_bin_bytes.specs.Containers.{EncodesPair, written_pair, EncodesAll};

use crate::append::append_part_within;
use crate::traits::{ReadsBin, WritesBin};
use nano_bin::{BinCodec, DeBin, DeBinErr, SerBin, append_part};
use nano_bin_bytes::no_memory;
use nano_value::{CollectEntries, Key, OrderedKey, entries_by_rank};
use std::alloc::{AllocError, Global};
use std::collections::HashMap;
use std::hash::Hash;

impl<K: DeBin + Key + Hash, T: BinCodec + Drop, L: ReadsBin<T>> ReadsBin<HashMap<K, T>> for L {
    fn read_bin(
        &self,
        alloc: Global,
        offset: &mut usize,
        bytes: &[u8],
    ) -> Result<HashMap<K, T>, DeBinErr> {
        read_entries::<K, T, L, HashMap<K, T>>(self, alloc, offset, bytes)
    }
}

/// Reads a count, and as many keys with their values, one after the other, into a collection.
pub(crate) fn read_entries<K: DeBin, T: BinCodec + Drop, L: ReadsBin<T>, C: CollectEntries<K, T>>(
    levels: &L,
    alloc: Global,
    offset: &mut usize,
    bytes: &[u8],
) -> Result<C, DeBinErr>
    ensures ok { IfOk result (λ entries.
        Decodes (EncodesAll C.whole (EncodesPair K.bin.encoding.encodes T.bin.encoding.encodes))
        bytes.now offset.old (C.means entries) offset.new) }
    ensures err { IfErr result
        (ReadsNone (EncodesAll C.whole (EncodesPair K.bin.encoding.encodes T.bin.encoding.encodes))
        bytes.now offset.old offset.new) }
{
    let mut at = *offset;
    let count = usize::de_bin(alloc, &mut at, bytes)?;
    let mut entries = C::empty(alloc);
    for _ in 0..count {
        let (key, value): (K, T) = ReadsBin::<(K, T)>::read_bin(levels, alloc, &mut at, bytes)?;
        let Ok(()) = entries.put(key, value) else {
            return Err(no_memory(at, bytes));
        };
    }
    *offset = at;
    Ok(entries)
}

impl<K: SerBin + OrderedKey + Hash, T: WritesBin> WritesBin for HashMap<K, T> {
    fn write_bin(&self, alloc: Global, output: &mut Vec<u8>) -> Result<(), AllocError> {
        let start = output.len();
        let entries = entries_by_rank(alloc, self)?;
        entries.len().ser_bin(alloc, output)?;
        append_entries(alloc, &entries, output, start)
    }
}

/// Appends keys with their values. On error, it truncates `output` back to its first `start`
/// bytes.
fn append_entries<K: SerBin, T: WritesBin>(
    alloc: Global,
    entries: &[(&K, &T)],
    output: &mut Vec<u8>,
    start: usize,
) -> Result<(), AllocError>
    requires { start ≤ length output.old.items }
    ensures ok { OnOk result
        (output.new.items ≡ output.old.items
        ++ flat_map (written_pair K.bin.canonical.written T.bin.canonical.written)
        (map deref_pair entries.now)) }
    ensures err { OnErr result (output.new.items ≡ take start output.old.items) }
{
    for (key, value) in entries {
        append_part(alloc, *key, output, start)?;
        append_part_within(alloc, *value, output, start)?;
    }
    Ok(())
}
