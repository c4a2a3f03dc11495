//! Ordered maps: the count, and keys with their values, in the order of the keys. A hashed map of
//! the same entries is written alike.

ghost use Rattle.std.specs.Prelude.{◌≡◌, ◌≤◌, ◌++◌, take, length, OnOk, OnErr};
ghost use Rattle.std.specs.List.{flat_map};
ghost use Rattle.nano_value.specs.Tables.{ascending};
ghost use Rattle.nano_meaning.proofs.AgreesLaws.{ordered_map_agrees, seen_agrees};
ghost use Rattle.nano_bin_bytes.specs.BaseCodecs.{codec_as};
ghost use Rattle.nano_bin_bytes.proofs.CodecLaws.{both_are_read};
ghost use Rattle.nano_bin.specs.ContainerCodecs.{ordered_map_codec};
ghost use Rattle.nano_bin_bytes.specs.Containers.{written_pair};

use crate::append::{append_count, append_part};
use crate::maps::read_entries;
use crate::traits::{BinCodec, DeBin, SerBin};
use nano_bin_bytes::DeBinErr;
use nano_value::{Key, OrderedKey};
use std::alloc::{AllocError, Global};
use std::collections::BTreeMap;

impl<K: BinCodec + Key + Ord, V: BinCodec> BinCodec for BTreeMap<K, V> {
    ghost bin = { codec_as (λ x. x.entries) (ordered_map_codec K.order K.cmp K.bin V.bin) };

    ghost agrees = { seen_agrees (ordered_map_agrees K.agrees V.agrees K.cmp) (λ x. x.entries) };
}

impl<K: SerBin + OrderedKey, V: SerBin> SerBin for BTreeMap<K, V> {
    fn ser_bin(&self, alloc: Global, output: &mut Vec<u8>) -> Result<(), AllocError> {
        let start = output.len();
        append_count(alloc, self.len(), output)?;
        append_btree_map(alloc, self, output, start)
    }
}

/// Appends the entries of an ordered map. On error, it truncates `output` back to its first
/// `start` bytes.
fn append_btree_map<K: SerBin + Ord, V: SerBin>(
    alloc: Global,
    entries: &BTreeMap<K, V>,
    output: &mut Vec<u8>,
    start: usize,
) -> Result<(), AllocError>
    requires { start ≤ length output.old.items }
    ensures ok { OnOk result
        (output.new.items ≡ output.old.items
        ++ flat_map (written_pair K.bin.canonical.written V.bin.canonical.written)
        entries.now.entries) }
    ensures ordered { OnOk result (ascending K.cmp entries.now.entries ≡ entries.now.entries) }
    ensures err { OnErr result (output.new.items ≡ take start output.old.items) }
{
    for (key, value) in entries {
        append_part(alloc, key, output, start)?;
        append_part(alloc, value, output, start)?;
    }
    Ok(())
}

impl<K: DeBin + Key + Ord, V: DeBin> DeBin for BTreeMap<K, V> {
    ghost is_decodable = { both_are_read K.is_decodable V.is_decodable };

    fn de_bin(alloc: Global, offset: &mut usize, bytes: &[u8]) -> Result<BTreeMap<K, V>, DeBinErr> {
        read_entries::<K, V, BTreeMap<K, V>>(alloc, offset, bytes)
    }
}
