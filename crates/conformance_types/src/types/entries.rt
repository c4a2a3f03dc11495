//! Sets and maps, and containers of containers.
//!
//! tools/write_types.py writes this file of tools/types.tsv.

use crate::containers::{of_hash_map, of_hash_set, of_list, of_option, of_tree_map, of_tree_set};
use crate::format::Format;
use crate::named::place_of;
use crate::outcome::Outcome;
use crate::reads::of_bytes;
use crate::types::records::of_records;
use std::alloc::{AllocError, Global};
use std::collections::{BTreeMap, BTreeSet, HashMap, HashSet, LinkedList};

/// The names of the types of `of_hashed`, in the order of its arms.
const HASHED_NAMES: &[&str] = &[
    "HashSet<u8>",
    "HashSet<i32>",
    "HashSet<String>",
    "HashSet<Option<u8>>",
    "HashMap<u8, u8>",
    "HashMap<u8, bool>",
    "HashMap<u64, u8>",
    "HashMap<i64, u8>",
    "HashMap<i16, String>",
    "HashMap<String, i32>",
    "HashMap<String, String>",
    "HashMap<String, Vec<u8>>",
];

/// A hashed set or map, or another type.
pub(crate) fn of_hashed(
    alloc: Global,
    format: Format,
    kind: &str,
    input: &[u8],
) -> Result<Outcome, AllocError> {
    match place_of(HASHED_NAMES, kind) {
        Some(0) => of_hash_set::<u8>(alloc, format, input),
        Some(1) => of_hash_set::<i32>(alloc, format, input),
        Some(2) => of_bytes::<HashSet<String>>(alloc, format, input),
        Some(3) => of_hash_set::<Option<u8>>(alloc, format, input),
        Some(4) => of_hash_map::<u8, u8>(alloc, format, input),
        Some(5) => of_hash_map::<u8, bool>(alloc, format, input),
        Some(6) => of_hash_map::<u64, u8>(alloc, format, input),
        Some(7) => of_hash_map::<i64, u8>(alloc, format, input),
        Some(8) => of_bytes::<HashMap<i16, String>>(alloc, format, input),
        Some(9) => of_hash_map::<String, i32>(alloc, format, input),
        Some(10) => of_bytes::<HashMap<String, String>>(alloc, format, input),
        Some(11) => of_hash_map::<String, Vec<u8>>(alloc, format, input),
        _ => of_ordered(alloc, format, kind, input),
    }
}

/// The names of the types of `of_ordered`, in the order of its arms.
const ORDERED_NAMES: &[&str] = &[
    "BTreeSet<u8>",
    "BTreeSet<i32>",
    "BTreeSet<String>",
    "BTreeSet<Option<u8>>",
    "BTreeMap<u8, u8>",
    "BTreeMap<u8, bool>",
    "BTreeMap<u64, u8>",
    "BTreeMap<i64, u8>",
    "BTreeMap<i16, String>",
    "BTreeMap<String, i32>",
    "BTreeMap<String, String>",
];

/// An ordered set or map, or another type.
pub(crate) fn of_ordered(
    alloc: Global,
    format: Format,
    kind: &str,
    input: &[u8],
) -> Result<Outcome, AllocError> {
    match place_of(ORDERED_NAMES, kind) {
        Some(0) => of_tree_set::<u8>(alloc, format, input),
        Some(1) => of_tree_set::<i32>(alloc, format, input),
        Some(2) => of_bytes::<BTreeSet<String>>(alloc, format, input),
        Some(3) => of_tree_set::<Option<u8>>(alloc, format, input),
        Some(4) => of_tree_map::<u8, u8>(alloc, format, input),
        Some(5) => of_tree_map::<u8, bool>(alloc, format, input),
        Some(6) => of_tree_map::<u64, u8>(alloc, format, input),
        Some(7) => of_tree_map::<i64, u8>(alloc, format, input),
        Some(8) => of_bytes::<BTreeMap<i16, String>>(alloc, format, input),
        Some(9) => of_tree_map::<String, i32>(alloc, format, input),
        Some(10) => of_bytes::<BTreeMap<String, String>>(alloc, format, input),
        _ => of_nested(alloc, format, kind, input),
    }
}

/// The names of the types of `of_nested`, in the order of its arms.
const NESTED_NAMES: &[&str] = &[
    "Option<Option<u8>>",
    "Vec<Option<u8>>",
    "Vec<Vec<u8>>",
    "Vec<LinkedList<u8>>",
    "Vec<BTreeSet<u8>>",
    "Vec<HashMap<u8, u8>>",
];

/// A container of containers, or another type.
pub(crate) fn of_nested(
    alloc: Global,
    format: Format,
    kind: &str,
    input: &[u8],
) -> Result<Outcome, AllocError> {
    match place_of(NESTED_NAMES, kind) {
        Some(0) => of_option::<Option<u8>>(alloc, format, input),
        Some(1) => of_list::<Option<u8>>(alloc, format, input),
        Some(2) => of_list::<Vec<u8>>(alloc, format, input),
        Some(3) => of_list::<LinkedList<u8>>(alloc, format, input),
        Some(4) => of_list::<BTreeSet<u8>>(alloc, format, input),
        Some(5) => of_list::<HashMap<u8, u8>>(alloc, format, input),
        _ => of_records(alloc, format, kind, input),
    }
}
