//! Keys of each type, entries and items in order, and `known` of each type through its bound.

use crate::checks::{holds, is_so};
use nano_value::{
    ExactEq, Key, OrderedKey, Value, entries_by_rank, entries_in_order, items_in_order, laws,
};
use std::alloc::{AllocError, Global};
use std::collections::{BTreeMap, BTreeSet, HashMap, HashSet, LinkedList};

/// Whether a key is what it means, and orders as it does.
fn orders<T: OrderedKey>(less: &T, more: &T) -> bool {
    less.known();
    more.known();
    less == less && less < more && more != less && less.cmp(more).is_lt()
}

#[test]
fn numbers_are_keys(rt: HostRuntime) {
    holds(&rt, orders(&1u8, &2), "u8");
    holds(&rt, orders(&1u16, &2), "u16");
    holds(&rt, orders(&1u32, &2), "u32");
    holds(&rt, orders(&1u64, &2), "u64");
    holds(&rt, orders(&1usize, &2), "usize");
    holds(&rt, orders(&1u128, &2), "u128");
    holds(&rt, orders(&-1i8, &2), "i8");
    holds(&rt, orders(&-1i16, &2), "i16");
    holds(&rt, orders(&-1i32, &2), "i32");
    holds(&rt, orders(&-1i64, &2), "i64");
    holds(&rt, orders(&-1i128, &2), "i128");
}

#[test]
fn other_types_are_keys(rt: HostRuntime) {
    holds(&rt, orders(&false, &true), "bool");
    holds(&rt, orders(&"a", &"b"), "a str");
    holds(&rt, orders(&None, &Some(1u8)), "an option");
    holds(&rt, orders(&[1u8, 2], &[1, 3]), "an array");
    holds(&rt, orders(&(1u8, 2u8), &(1, 3)), "a pair");
    holds(&rt, orders(&(1u8, 2u8, 3u8), &(1, 2, 4)), "three");
    holds(&rt, orders(&(1u8, 2u8, 3u8, 4u8), &(1, 2, 3, 5)), "four");
    ().known();
    let slice: &[u16] = &[1, 2];
    slice.known();
}

/// Whether texts and boxes order as what they hold.
fn texts_and_boxes_order(alloc: Global) -> Result<bool, AllocError> {
    let (less, more) = (String::from_str(alloc, "a")?, String::from_str(alloc, "b")?);
    let (one, two) = (Box::new(alloc, 1u16)?, Box::new(alloc, 2u16)?);
    Ok(orders(&less, &more) && orders(&one, &two))
}

/// Whether lists order as their items, one after the other.
fn lists_order(alloc: Global) -> Result<bool, AllocError> {
    let (less, more) = (vec![in alloc; 1u16]?, vec![in alloc; 1u16, 0]?);
    let mut linked = LinkedList::new(alloc);
    linked.push_back("a")?;
    Ok(orders(&less, &more) && orders(&LinkedList::new(alloc), &linked))
}

/// Whether sets and maps order as their items and entries.
fn sets_and_maps_order(alloc: Global) -> Result<bool, AllocError> {
    let mut set = BTreeSet::new(alloc);
    set.insert("a")?;
    let mut map = BTreeMap::new(alloc);
    if map.insert(5u16, "a").is_err() {
        return Err(AllocError);
    }
    Ok(orders(&BTreeSet::new(alloc), &set) && orders(&BTreeMap::new(alloc), &map))
}

#[test]
fn types_that_take_memory_are_keys(rt: HostRuntime) {
    let alloc = rt.alloc();
    is_so(&rt, texts_and_boxes_order(alloc), "texts and boxes");
    is_so(&rt, lists_order(alloc), "lists");
    is_so(&rt, sets_and_maps_order(alloc), "sets and maps");
}

/// The keys 3, -2 and 0 in order, each with its value.
const IN_ORDER: &[(&i16, &u8)] = &[(&-2, &2), (&0, &3), (&3, &1)];

/// Whether the entries of a map come in the order of their keys.
fn entries_come_in_order(alloc: Global) -> Result<bool, AllocError> {
    let mut map = HashMap::new(alloc);
    for (key, value) in [(3i16, 1u8), (-2, 2), (0, 3)] {
        map.insert(key, value)?;
    }
    map.known();
    let in_order = entries_in_order(alloc, &map)?;
    let by_rank = entries_by_rank(alloc, &map)?;
    Ok(in_order.as_slice() == IN_ORDER && by_rank.as_slice() == IN_ORDER)
}

/// Whether the items of a set come in order.
fn items_come_in_order(alloc: Global) -> Result<bool, AllocError> {
    let mut set = HashSet::new(alloc);
    for item in ["aaaaaaaab", "aaaaaaaa", "aaaaaaaaa"] {
        set.insert(item)?;
    }
    set.known();
    let items = items_in_order(alloc, &set)?;
    Ok(items.as_slice() == [&"aaaaaaaa", &"aaaaaaaaa", &"aaaaaaaab"].as_slice())
}

/// The ranks that two keys are given.
fn ranks<K: Key>(first: &K, second: &K) -> (u64, u64) {
    let mut entries = [(0, (first, ())), (0, (second, ()))];
    K::put_ranks(&mut entries);
    (entries[0].0, entries[1].0)
}

/// Two texts and their ranks: those of what comes after the bytes that both begin with.
const RANKED: &[(&str, &str, (u64, u64))] = &[
    ("a", "b\0", (0x6100_0000_0000_0000, 0x6200_0000_0000_0000)),
    (
        "key/a",
        "key/b",
        (0x6100_0000_0000_0000, 0x6200_0000_0000_0000),
    ),
    ("key", "key/", (0, 0x2F00_0000_0000_0000)),
    ("", "a", (0, 0x6100_0000_0000_0000)),
    ("same", "same", (0, 0)),
];

/// Whether the texts have these ranks.
fn texts_are_ranked(alloc: Global) -> Result<bool, AllocError> {
    for (first, second, expected) in RANKED {
        let first = String::from_str(alloc, first)?;
        let second = String::from_str(alloc, second)?;
        if ranks(&first, &second) != *expected {
            return Ok(false);
        }
    }
    Ok(true)
}

#[test]
fn in_order(rt: HostRuntime) {
    let alloc = rt.alloc();
    is_so(&rt, entries_come_in_order(alloc), "entries");
    is_so(&rt, items_come_in_order(alloc), "items");
    is_so(&rt, texts_are_ranked(alloc), "texts");
    holds(&rt, ranks(&7u8, &5) == (7, 5), "numbers");
    holds(&rt, ranks(&u64::MAX, &0) == (u64::MAX, 0), "the ends");
    let ends = ranks(&i64::MIN, &i64::MAX);
    holds(&rt, ends == (0, u64::MAX), "the signed ends");
    holds(&rt, ranks(&-1i8, &0) == ((1 << 63) - 1, 1 << 63), "signed");
    holds(&rt, ranks(&true, &false) == (0, 0), "no ranks");
    laws::tables_hold_last_values::<u8, bool>();
    laws::ascending_is_in_order::<u8, bool>();
}

/// Whether `==` distinguishes two values of a type where it is exact.
fn differ<T: ExactEq>(one: &T, other: &T) -> bool {
    T::eq_agrees();
    one == one && one != other
}

/// Two hash maps of one entry each, with the same key.
fn two_maps(alloc: Global) -> Result<(HashMap<u8, bool>, HashMap<u8, bool>), AllocError> {
    let mut one = HashMap::new(alloc);
    let mut other = HashMap::new(alloc);
    let _none = one.insert(1u8, true)?;
    let _none = other.insert(1u8, false)?;
    Ok((one, other))
}

/// Whether two hash maps differ where the values do, and each is equal to itself.
fn maps_differ(alloc: Global) -> Result<bool, AllocError> {
    let (one, other) = two_maps(alloc)?;
    laws::equal_maps_mean_the_same(&one, &other);
    Ok(one == one && one != other)
}

#[test]
fn equality_is_exact(rt: HostRuntime) {
    holds(&rt, differ(&1u8, &2), "a number");
    holds(&rt, differ(&-1i32, &1), "a signed number");
    holds(&rt, differ(&true, &false), "a boolean");
    holds(&rt, differ(&Some(1u8), &None), "an option");
    holds(&rt, differ(&[1u8, 2], &[2, 1]), "an array");
    holds(&rt, differ(&(1u8, true), &(1, false)), "a pair");
    holds(&rt, differ(&(1u8, 2u8, 3u8), &(1, 2, 4)), "three parts");
    holds(
        &rt,
        differ(&(1u8, 2u8, 3u8, 4u8), &(0, 2, 3, 4)),
        "four parts",
    );
    is_so(&rt, maps_differ(rt.alloc()), "hash maps");
}
