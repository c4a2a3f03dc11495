//! The types without a container, and lists, options, arrays, boxes and tuples of them.
//!
//! tools/write_types.py writes this file of tools/types.tsv.

use crate::containers::{of_list, of_option};
use crate::format::Format;
use crate::named::place_of;
use crate::outcome::Outcome;
use crate::reads::{of_bytes, of_type};
use crate::types::entries::of_hashed;
use std::alloc::{AllocError, Global};
use std::collections::LinkedList;

/// The names of the types of `of_plain`, in the order of its arms.
const PLAIN_NAMES: &[&str] = &[
    "u8", "u16", "u32", "u64", "u128", "usize", "i8", "i16", "i32", "i64", "i128", "bool", "()",
    "String",
];

/// A number, a truth, the unit or a text, or another type.
pub(crate) fn of_plain(
    alloc: Global,
    format: Format,
    kind: &str,
    input: &[u8],
) -> Result<Outcome, AllocError> {
    match place_of(PLAIN_NAMES, kind) {
        Some(0) => of_type::<u8>(alloc, format, input),
        Some(1) => of_type::<u16>(alloc, format, input),
        Some(2) => of_type::<u32>(alloc, format, input),
        Some(3) => of_type::<u64>(alloc, format, input),
        Some(4) => of_bytes::<u128>(alloc, format, input),
        Some(5) => of_type::<usize>(alloc, format, input),
        Some(6) => of_type::<i8>(alloc, format, input),
        Some(7) => of_type::<i16>(alloc, format, input),
        Some(8) => of_type::<i32>(alloc, format, input),
        Some(9) => of_type::<i64>(alloc, format, input),
        Some(10) => of_bytes::<i128>(alloc, format, input),
        Some(11) => of_type::<bool>(alloc, format, input),
        Some(12) => of_type::<()>(alloc, format, input),
        Some(13) => of_type::<String>(alloc, format, input),
        _ => of_lists(alloc, format, kind, input),
    }
}

/// The names of the types of `of_lists`, in the order of its arms.
const LISTS_NAMES: &[&str] = &[
    "Vec<u8>",
    "Vec<u16>",
    "Vec<u32>",
    "Vec<u64>",
    "Vec<u128>",
    "Vec<usize>",
    "Vec<i8>",
    "Vec<i16>",
    "Vec<i32>",
    "Vec<i64>",
    "Vec<i128>",
    "Vec<bool>",
    "Vec<()>",
    "Vec<String>",
];

/// A list, or another type.
pub(crate) fn of_lists(
    alloc: Global,
    format: Format,
    kind: &str,
    input: &[u8],
) -> Result<Outcome, AllocError> {
    match place_of(LISTS_NAMES, kind) {
        Some(0) => of_list::<u8>(alloc, format, input),
        Some(1) => of_list::<u16>(alloc, format, input),
        Some(2) => of_list::<u32>(alloc, format, input),
        Some(3) => of_list::<u64>(alloc, format, input),
        Some(4) => of_bytes::<Vec<u128>>(alloc, format, input),
        Some(5) => of_bytes::<Vec<usize>>(alloc, format, input),
        Some(6) => of_bytes::<Vec<i8>>(alloc, format, input),
        Some(7) => of_bytes::<Vec<i16>>(alloc, format, input),
        Some(8) => of_bytes::<Vec<i32>>(alloc, format, input),
        Some(9) => of_list::<i64>(alloc, format, input),
        Some(10) => of_bytes::<Vec<i128>>(alloc, format, input),
        Some(11) => of_list::<bool>(alloc, format, input),
        Some(12) => of_list::<()>(alloc, format, input),
        Some(13) => of_list::<String>(alloc, format, input),
        _ => of_parts(alloc, format, kind, input),
    }
}

/// The names of the types of `of_parts`, in the order of its arms.
const PARTS_NAMES: &[&str] = &[
    "Option<u8>",
    "Option<bool>",
    "Option<()>",
    "Option<String>",
    "Box<u8>",
    "Box<String>",
    "LinkedList<u8>",
    "LinkedList<String>",
    "[u8; 0]",
    "[u8; 2]",
    "[u16; 2]",
    "[String; 2]",
];

/// An option, a box, a linked list or an array, or another type.
pub(crate) fn of_parts(
    alloc: Global,
    format: Format,
    kind: &str,
    input: &[u8],
) -> Result<Outcome, AllocError> {
    match place_of(PARTS_NAMES, kind) {
        Some(0) => of_option::<u8>(alloc, format, input),
        Some(1) => of_option::<bool>(alloc, format, input),
        Some(2) => of_option::<()>(alloc, format, input),
        Some(3) => of_option::<String>(alloc, format, input),
        Some(4) => of_type::<Box<u8>>(alloc, format, input),
        Some(5) => of_bytes::<Box<String>>(alloc, format, input),
        Some(6) => of_type::<LinkedList<u8>>(alloc, format, input),
        Some(7) => of_bytes::<LinkedList<String>>(alloc, format, input),
        Some(8) => of_type::<[u8; 0]>(alloc, format, input),
        Some(9) => of_type::<[u8; 2]>(alloc, format, input),
        Some(10) => of_type::<[u16; 2]>(alloc, format, input),
        Some(11) => of_bytes::<[String; 2]>(alloc, format, input),
        _ => of_tuples(alloc, format, kind, input),
    }
}

/// The names of the types of `of_tuples`, in the order of its arms.
const TUPLES_NAMES: &[&str] = &[
    "(u8, u8)",
    "(u8, String)",
    "(String, String)",
    "(u8, bool, i16)",
    "(String, String, String)",
    "(u8, bool, i16, String)",
    "(String, String, String, String)",
];

/// A tuple, or another type.
pub(crate) fn of_tuples(
    alloc: Global,
    format: Format,
    kind: &str,
    input: &[u8],
) -> Result<Outcome, AllocError> {
    match place_of(TUPLES_NAMES, kind) {
        Some(0) => of_type::<(u8, u8)>(alloc, format, input),
        Some(1) => of_type::<(u8, String)>(alloc, format, input),
        Some(2) => of_bytes::<(String, String)>(alloc, format, input),
        Some(3) => of_type::<(u8, bool, i16)>(alloc, format, input),
        Some(4) => of_bytes::<(String, String, String)>(alloc, format, input),
        Some(5) => of_type::<(u8, bool, i16, String)>(alloc, format, input),
        Some(6) => of_bytes::<(String, String, String, String)>(alloc, format, input),
        _ => of_hashed(alloc, format, kind, input),
    }
}
