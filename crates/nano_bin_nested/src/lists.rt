//! Vectors and linked lists of values that contain themselves: the count, and the items.

ghost use Rattle.std.specs.Prelude.{◌≡◌, ◌≤◌, ◌++◌, take, length, IfOk, IfErr, OnOk, OnErr};
ghost use Rattle.std.specs.List.{flat_map};
ghost use Rattle.nano_bin_bytes.specs.Reading.{Decodes, ReadsNone};
ghost use Rattle.nano_bin_bytes.specs.Containers.{EncodesAll};

use crate::append::append_part_within;
use crate::traits::{ReadsBin, WritesBin};
use nano_bin::{BinCodec, DeBin, DeBinErr, SerBin};
use nano_bin_bytes::no_memory;
use nano_value::Collect;
use std::alloc::{AllocError, Global};
use std::collections::LinkedList;

impl<T: BinCodec + Drop, L: ReadsBin<T>> ReadsBin<Vec<T>> for L {
    fn read_bin(
        &self,
        alloc: Global,
        offset: &mut usize,
        bytes: &[u8],
    ) -> Result<Vec<T>, DeBinErr> {
        read_items::<T, L, Vec<T>>(self, alloc, offset, bytes)
    }
}

/// Reads a count, and as many items, one after the other, into a collection.
fn read_items<T: BinCodec + Drop, L: ReadsBin<T>, C: Collect<T>>(
    levels: &L,
    alloc: Global,
    offset: &mut usize,
    bytes: &[u8],
) -> Result<C, DeBinErr>
    ensures ok { IfOk result (λ items.
        Decodes (EncodesAll C.whole T.bin.encoding.encodes) bytes.now offset.old
        (C.means items) offset.new) }
    ensures err { IfErr result (ReadsNone (EncodesAll C.whole T.bin.encoding.encodes)
        bytes.now offset.old offset.new) }
{
    let mut at = *offset;
    let count = usize::de_bin(alloc, &mut at, bytes)?;
    let mut items = C::empty(alloc);
    for _ in 0..count {
        let item: T = ReadsBin::<T>::read_bin(levels, alloc, &mut at, bytes)?;
        let Ok(()) = items.put(item) else {
            return Err(no_memory(at, bytes));
        };
    }
    *offset = at;
    Ok(items)
}

impl<T: WritesBin> WritesBin for Vec<T> {
    fn write_bin(&self, alloc: Global, output: &mut Vec<u8>) -> Result<(), AllocError> {
        let start = output.len();
        self.len().ser_bin(alloc, output)?;
        append_items(alloc, self, output, start)
    }
}

/// Appends the items of a list. On error, it truncates `output` back to its first `start` bytes.
fn append_items<T: WritesBin>(
    alloc: Global,
    items: &Vec<T>,
    output: &mut Vec<u8>,
    start: usize,
) -> Result<(), AllocError>
    requires { start ≤ length output.old.items }
    ensures ok { OnOk result
        (output.new.items ≡ output.old.items ++ flat_map T.bin.canonical.written items.now.items) }
    ensures err { OnErr result (output.new.items ≡ take start output.old.items) }
{
    for item in items {
        let written = item.write_bin(alloc, output);
        if written.is_err() {
            output.truncate(start);
            return written;
        }
    }
    Ok(())
}

impl<T: BinCodec + Drop, L: ReadsBin<T>> ReadsBin<LinkedList<T>> for L {
    fn read_bin(
        &self,
        alloc: Global,
        offset: &mut usize,
        bytes: &[u8],
    ) -> Result<LinkedList<T>, DeBinErr> {
        read_items::<T, L, LinkedList<T>>(self, alloc, offset, bytes)
    }
}

impl<T: WritesBin> WritesBin for LinkedList<T> {
    fn write_bin(&self, alloc: Global, output: &mut Vec<u8>) -> Result<(), AllocError> {
        let start = output.len();
        self.len().ser_bin(alloc, output)?;
        append_linked_list(alloc, self, output, start)
    }
}

/// Appends the items of a linked list. On error, it truncates `output` back to its first `start`
/// bytes.
fn append_linked_list<T: WritesBin>(
    alloc: Global,
    items: &LinkedList<T>,
    output: &mut Vec<u8>,
    start: usize,
) -> Result<(), AllocError>
    requires { start ≤ length output.old.items }
    ensures ok { OnOk result
        (output.new.items ≡ output.old.items ++ flat_map T.bin.canonical.written items.now) }
    ensures err { OnErr result (output.new.items ≡ take start output.old.items) }
{
    for item in items {
        append_part_within(alloc, item, output, start)?;
    }
    Ok(())
}
