//! Sets, hashed and ordered: the count, and the items in order.

ghost use Rattle.std.specs.Prelude.{◌≡◌, ◌≤◌, ◌++◌, map, take, length, OnOk, OnErr};
ghost use Rattle.std.specs.List.{flat_map};
ghost use Rattle.std.specs.Map.Iter.{deref};
ghost use Rattle.nano_value.specs.Sets.{ascending_items};
ghost use Rattle.nano_meaning.proofs.AgreesLaws.{set_agrees, ordered_agrees, seen_agrees};
ghost use Rattle.nano_bin_bytes.specs.BaseCodecs.{codec_as};
ghost use Rattle.nano_bin.specs.ContainerCodecs.{set_codec, ordered_codec};

use crate::append::{append_count, append_part};
use crate::lists::read_items;
use crate::traits::{BinCodec, DeBin, SerBin};
use nano_bin_bytes::DeBinErr;
use nano_value::{Key, OrderedKey, items_in_order};
use std::alloc::{AllocError, Global};
use std::collections::{BTreeSet, HashSet};
use std::hash::Hash;

impl<T: BinCodec + Key + Hash> BinCodec for HashSet<T> {
    ghost bin = { codec_as (λ x. x.keys) (set_codec T.order T.bin) };

    ghost agrees = { seen_agrees (set_agrees T.agrees) (λ x. x.keys) };
}

impl<T: SerBin + OrderedKey + Hash> SerBin for HashSet<T> {
    fn ser_bin(&self, alloc: Global, output: &mut Vec<u8>) -> Result<(), AllocError> {
        let start = output.len();
        let items = items_in_order(alloc, self)?;
        append_count(alloc, items.len(), output)?;
        append_hash_set(alloc, &items, output, start)
    }
}

/// Appends the items of a hash set. On error, it truncates `output` back to its first `start`
/// bytes.
fn append_hash_set<T: SerBin>(
    alloc: Global,
    items: &[&T],
    output: &mut Vec<u8>,
    start: usize,
) -> Result<(), AllocError>
    requires { start ≤ length output.old.items }
    ensures ok { OnOk result
        (output.new.items ≡ output.old.items
        ++ flat_map T.bin.canonical.written (map deref items.now)) }
    ensures err { OnErr result (output.new.items ≡ take start output.old.items) }
{
    for item in items {
        append_part(alloc, *item, output, start)?;
    }
    Ok(())
}

impl<T: DeBin + Key + Hash> DeBin for HashSet<T> {
    ghost is_decodable = { T.is_decodable };

    fn de_bin(alloc: Global, offset: &mut usize, bytes: &[u8]) -> Result<HashSet<T>, DeBinErr> {
        read_items::<T, HashSet<T>>(alloc, offset, bytes)
    }
}

impl<T: BinCodec + Key + Ord> BinCodec for BTreeSet<T> {
    ghost bin = { codec_as (λ x. x.keys) (ordered_codec T.order T.cmp T.bin) };

    ghost agrees = { seen_agrees (ordered_agrees T.agrees T.cmp) (λ x. x.keys) };
}

impl<T: SerBin + OrderedKey> SerBin for BTreeSet<T> {
    fn ser_bin(&self, alloc: Global, output: &mut Vec<u8>) -> Result<(), AllocError> {
        let start = output.len();
        append_count(alloc, self.len(), output)?;
        append_btree_set(alloc, self, output, start)
    }
}

/// Appends the items of an ordered set. On error, it truncates `output` back to its first
/// `start` bytes.
fn append_btree_set<T: SerBin + Ord>(
    alloc: Global,
    items: &BTreeSet<T>,
    output: &mut Vec<u8>,
    start: usize,
) -> Result<(), AllocError>
    requires { start ≤ length output.old.items }
    ensures ok { OnOk result
        (output.new.items ≡ output.old.items ++ flat_map T.bin.canonical.written items.now.keys) }
    ensures ordered { OnOk result (ascending_items T.cmp items.now.keys ≡ items.now.keys) }
    ensures err { OnErr result (output.new.items ≡ take start output.old.items) }
{
    for item in items {
        append_part(alloc, item, output, start)?;
    }
    Ok(())
}

impl<T: DeBin + Key + Ord> DeBin for BTreeSet<T> {
    ghost is_decodable = { T.is_decodable };

    fn de_bin(alloc: Global, offset: &mut usize, bytes: &[u8]) -> Result<BTreeSet<T>, DeBinErr> {
        read_items::<T, BTreeSet<T>>(alloc, offset, bytes)
    }
}
