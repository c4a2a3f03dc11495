//! Vectors and linked lists: the count, and the items. Slices and arrays: the items, and no count.

ghost use Rattle.std.specs.Prelude.{◌≡◌, ◌≤◌, ◌++◌, take, length, IfOk, IfErr, OnOk, OnErr};
ghost use Rattle.std.specs.List.{flat_map};
ghost use Rattle.nano_meaning.proofs.AgreesLaws.{list_agrees, array_agrees, seen_agrees};
ghost use Rattle.nano_bin_bytes.specs.Reading.{Decodes, ReadsNone};
ghost use Rattle.nano_bin_bytes.specs.BaseCodecs.{codec_as};
ghost use Rattle.nano_bin_bytes.specs.Containers.{EncodesAll};
ghost use Rattle.nano_bin.specs.ContainerCodecs.{list_codec, array_codec, slice_codec};

use crate::append::{append_count, append_part};
use crate::read::read_count;
use crate::traits::{BinCodec, DeBin, SerBin};
use nano_bin_bytes::{DeBinErr, no_memory};
use nano_value::Collect;
use std::alloc::{AllocError, Global};
use std::collections::LinkedList;

impl<T: BinCodec> BinCodec for Vec<T> {
    ghost bin = { codec_as (λ x. x.items) (list_codec T.bin) };

    ghost agrees = { seen_agrees (list_agrees T.agrees) (λ x. x.items) };
}

impl<T: SerBin> SerBin for Vec<T> {
    fn ser_bin(&self, alloc: Global, output: &mut Vec<u8>) -> Result<(), AllocError> {
        let start = output.len();
        append_count(alloc, self.len(), output)?;
        append_items(alloc, self, output, start)
    }
}

/// Appends the items of a list. On error, it truncates `output` back to its first `start`
/// bytes.
fn append_items<T: SerBin>(
    alloc: Global,
    items: &[T],
    output: &mut Vec<u8>,
    start: usize,
) -> Result<(), AllocError>
    ensures ok { OnOk result
        (output.new.items ≡ output.old.items ++ flat_map T.bin.canonical.written items.now) }
    ensures err { OnErr result (output.new.items ≡ take start output.old.items) }
{
    let written = T::ser_bin_items(alloc, items, output);
    if written.is_err() {
        output.truncate(start);
    }
    written
}

impl<T: DeBin> DeBin for Vec<T> {
    ghost is_decodable = { T.is_decodable };

    fn de_bin(alloc: Global, offset: &mut usize, bytes: &[u8]) -> Result<Vec<T>, DeBinErr> {
        let mut at = *offset;
        let count = read_count(alloc, &mut at, bytes)?;
        let items = T::de_bin_items(alloc, count, &mut at, bytes)?;
        *offset = at;
        Ok(items)
    }
}

/// Reads a count, and as many items, one after the other, into a collection.
pub(crate) fn read_items<T: DeBin, C: Collect<T>>(
    alloc: Global,
    offset: &mut usize,
    bytes: &[u8],
) -> Result<C, DeBinErr>
    ensures ok { IfOk result (λ items.
        Decodes (EncodesAll C.whole T.bin.encoding.encodes) bytes.now offset.old
        (C.means items) offset.new) }
    ensures err { IfErr result (ReadsNone (EncodesAll C.whole T.bin.encoding.encodes)
        bytes.now offset.old offset.new) }
{
    let mut at = *offset;
    let count = read_count(alloc, &mut at, bytes)?;
    let mut items = C::empty(alloc);
    for _ in 0..count {
        let item = T::de_bin(alloc, &mut at, bytes)?;
        let Ok(()) = items.put(item) else {
            return Err(no_memory(at, bytes));
        };
    }
    *offset = at;
    Ok(items)
}

impl<T: BinCodec> BinCodec for LinkedList<T> {
    ghost bin = { list_codec T.bin };

    ghost agrees = { list_agrees T.agrees };
}

impl<T: SerBin> SerBin for LinkedList<T> {
    fn ser_bin(&self, alloc: Global, output: &mut Vec<u8>) -> Result<(), AllocError> {
        let start = output.len();
        append_count(alloc, self.len(), output)?;
        append_linked_list(alloc, self, output, start)
    }
}

/// Appends the items of a linked list. On error, it truncates `output` back to its first
/// `start` bytes.
fn append_linked_list<T: SerBin>(
    alloc: Global,
    items: &LinkedList<T>,
    output: &mut Vec<u8>,
    start: usize,
) -> Result<(), AllocError>
    requires { start ≤ length output.old.items }
    ensures ok { OnOk result
        (output.new.items ≡ output.old.items ++ flat_map T.bin.canonical.written items.now) }
    ensures err { OnErr result (output.new.items ≡ take start output.old.items) }
{
    for item in items {
        append_part(alloc, item, output, start)?;
    }
    Ok(())
}

impl<T: DeBin> DeBin for LinkedList<T> {
    ghost is_decodable = { T.is_decodable };

    fn de_bin(alloc: Global, offset: &mut usize, bytes: &[u8]) -> Result<LinkedList<T>, DeBinErr> {
        read_items::<T, LinkedList<T>>(alloc, offset, bytes)
    }
}

impl<T: BinCodec> BinCodec for &[T] {
    ghost bin = { codec_as (λ x. x.now) (slice_codec T.bin) };

    ghost agrees = { seen_agrees (list_agrees T.agrees) (λ x. x.now) };
}

impl<T: SerBin> SerBin for &[T] {
    fn ser_bin(&self, alloc: Global, output: &mut Vec<u8>) -> Result<(), AllocError> {
        T::ser_bin_items(alloc, self, output)
    }
}

impl<T: BinCodec, const N: usize> BinCodec for [T; N] {
    ghost bin = { array_codec T.bin N };

    ghost agrees = { array_agrees T.agrees N };
}

impl<T: SerBin, const N: usize> SerBin for [T; N] {
    fn ser_bin(&self, alloc: Global, output: &mut Vec<u8>) -> Result<(), AllocError> {
        T::ser_bin_items(alloc, self.as_slice(), output)
    }
}

impl<T: DeBin, const N: usize> DeBin for [T; N] {
    ghost is_decodable = { T.is_decodable };

    fn de_bin(alloc: Global, offset: &mut usize, bytes: &[u8]) -> Result<[T; N], DeBinErr> {
        let items = T::de_bin_items(alloc, N, offset, bytes)?;
        match <[T; N]>::try_from(items) {
            Ok(items) => Ok(items),
            Err(_) => unreachable!(),
        }
    }
}
