//! The calls by which rows of fields and variants are read, where values of the type itself stand
//! in them, and containers of such values. Each is made once, with what it returns.

use crate::checks::holds;
use nano_bin::DeBinKind;
use nano_bin_nested::{
    BinChoicesWithin, BinFieldsWithin, DeBinErr, Levels, Other, ReadsBin, Within, WritesBin,
};
use nano_schema::{Either, Newtype, Variant};
use std::alloc::Global;
use std::collections::{HashMap, LinkedList};
use test_nested_derived::Tree;

/// The name of both variants.
struct Name {}

/// A number, and a tree.
type Fields = (Other<Newtype<u8>>, Within<Newtype<Tree>>);

/// A number, or a tree.
type Variants = (
    Variant<Name, Other<Newtype<u8>>>,
    Variant<Name, Within<Newtype<Tree>>>,
);

/// A byte, a number, and a leaf.
const FIELDS: &[u8] = &[9, 7, 0, 0, 4, 0, 0, 0];

/// A tag, and a leaf.
const VARIANT: &[u8] = &[1, 0, 0, 0, 4, 0, 0, 0];

/// A count of 1, a number, and a leaf.
const ENTRIES: &[u8] = &[1, 0, 0, 0, 0, 0, 0, 0, 5, 0, 0, 4, 0, 0, 0];

/// A count of 2, and two leaves.
const TREES: &[u8] = &[2, 0, 0, 0, 0, 0, 0, 0, 0, 0, 4, 0, 0, 0, 0, 0, 5, 0, 0, 0];

/// Whether all of the bytes are a value, and are what is written of it.
fn is_read_back<T: WritesBin + Drop, L: ReadsBin<T>>(
    alloc: Global,
    levels: &L,
    bytes: &[u8],
) -> Result<bool, DeBinErr> {
    let mut offset = 0;
    let value: T = ReadsBin::<T>::read_bin(levels, alloc, &mut offset, bytes)?;
    let mut written = Vec::new(alloc);
    let is_written = value.write_bin(alloc, &mut written).is_ok();
    Ok(is_written && offset == bytes.len() && written.as_slice() == bytes)
}

/// Whether a number and a tree are read, and dropped.
fn are_read(alloc: Global) -> Result<bool, DeBinErr> {
    let mut offset = 1;
    let levels = Levels::most();
    let values = <Fields as BinFieldsWithin<Levels>>::read(levels, alloc, &mut offset, FIELDS)?;
    let are_so = values.0 == 7 && values.1 == Tree::Leaf(4);
    <Fields as BinFieldsWithin<Levels>>::discard(values);
    Ok(are_so && offset == 8)
}

/// Whether no tree is read where no level may follow, and the offset is unchanged.
fn are_out(alloc: Global) -> bool {
    let mut offset = 1;
    match <Fields as BinFieldsWithin<Levels>>::read(&Levels::Out, alloc, &mut offset, FIELDS) {
        Ok(_values) => false,
        Err(error) => error.o == 2 && error.kind == DeBinKind::Memory && offset == 1,
    }
}

/// Whether the content of the second variant is read.
fn is_chosen(alloc: Global) -> Result<bool, DeBinErr> {
    let mut offset = 2;
    let levels = Levels::most();
    match <Variants as BinChoicesWithin<Levels>>::read(levels, 1, 0, alloc, &mut offset, VARIANT)? {
        Either::First(_number) => Ok(false),
        Either::Later(tree) => Ok(tree == Tree::Leaf(4) && offset == 8),
    }
}

/// Whether a tag that no variant has is rejected at its place, and the offset is unchanged.
fn is_unknown(alloc: Global) -> bool {
    let mut offset = 2;
    let levels = Levels::most();
    match <Variants as BinChoicesWithin<Levels>>::read(levels, 2, 0, alloc, &mut offset, VARIANT) {
        Ok(_content) => false,
        Err(error) => error.o == 0 && error.kind == DeBinKind::Own && offset == 2,
    }
}

#[test]
fn rows_and_variants_are_read_within_levels(rt: HostRuntime) {
    let alloc = rt.alloc();
    holds(&rt, are_read(alloc).unwrap_or(false), "fields");
    holds(&rt, are_out(alloc), "no level");
    holds(&rt, is_chosen(alloc).unwrap_or(false), "a variant");
    holds(&rt, is_unknown(alloc), "a tag");
}

#[test]
fn containers_are_read_within_levels(rt: HostRuntime) {
    let alloc = rt.alloc();
    let most = Levels::most();
    let is_so = is_read_back::<HashMap<u8, Tree>, Levels>(alloc, most, ENTRIES);
    holds(&rt, is_so.unwrap_or(false), "a hashed map");
    let is_so = is_read_back::<Vec<(u8, Tree)>, Levels>(alloc, most, ENTRIES);
    holds(&rt, is_so.unwrap_or(false), "pairs");
    let is_so = is_read_back::<LinkedList<Tree>, Levels>(alloc, most, TREES);
    holds(&rt, is_so.unwrap_or(false), "a linked list");
}
