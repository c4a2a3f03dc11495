//! The formats under one function with C's calling convention, so that they run beside other
//! programs in one process.
#![tactic(auto)]

ghost use Rattle.std.specs.Prelude.{◌≡◌, ◌<◌, ◌⊎◌, length};

mod item;
mod item_ron;

use item::Item;
use nano_bin::{BothBin, DeBinKind};
use nano_json::BothJson;
use nano_ron::BothRon;
use nano_toml::TomlParser;
use std::alloc::Global;
use std::collections::HashMap;

/// The input is rejected.
pub const REJECTED: i64 = -1;
/// Allocation failed.
pub const NO_MEMORY: i64 = -2;
/// The output is too short for what is written.
pub const TOO_SHORT: i64 = -3;
/// There is no such case.
pub const NO_SUCH_CASE: i64 = -4;

/// The format number of the binary format.
const BINARY: u32 = 0;
/// The format number of JSON.
const JSON: u32 = 1;
/// The format number of RON.
const RON: u32 = 2;
/// The format number of TOML.
const TOML: u32 = 3;
/// So many bytes are copied at once.
const BLOCK: usize = 1024;

/// What is done with a value that is read.
#[derive(Clone, Copy, PartialEq, Eq)]
enum Then {
    /// It is dropped.
    Drop,
    /// It is written, and copied into the output.
    Copy,
    /// It is written, and what is written is dropped.
    Measure,
}

/// Reads a value of a kind in a format, and drops it (`op` 0), writes it again into `output`
/// (`op` 1), or writes it and drops what it wrote (`op` 2).
///
/// Formats: 0 is the binary one, 1 is JSON, 2 is RON, 3 is TOML. Kinds: 0 `Vec<u8>`, 1 `Vec<u64>`,
/// 2 `Vec<String>`, 3 `HashMap<String, i32>`, 4 a list of records
/// `{ value: i32, note: Option<String> }`. TOML has kind 0 alone, its tables, and only reads.
/// Answers 0 or the number of bytes written, or one of the negative constants of this crate.
#[unsafe(no_mangle)]
pub extern "C" fn nano_op(
    alloc: Global,
    codec: u32,
    kind: u32,
    op: u32,
    input: &[u8],
    output: &mut [u8],
) -> i64
    ensures no_case { (TOML < codec ⊎ 4 < kind) ⊎ 2 < op → result ≡ NO_SUCH_CASE }
    ensures only_reads { codec ≡ TOML → 0 < kind ⊎ 0 < op → result ≡ NO_SUCH_CASE }
{
    let then = match op {
        0 => Then::Drop,
        1 => Then::Copy,
        2 => Then::Measure,
        _ => return NO_SUCH_CASE,
    };
    match codec {
        BINARY => binary(alloc, kind, then, input, output),
        JSON => json(alloc, kind, then, input, output),
        RON => ron(alloc, kind, then, input, output),
        TOML if kind == 0 && op == 0 => toml(alloc, input),
        _ => NO_SUCH_CASE,
    }
}

/// One case of the binary format.
fn binary(alloc: Global, kind: u32, then: Then, input: &[u8], output: &mut [u8]) -> i64
    ensures { 4 < kind → result ≡ NO_SUCH_CASE }
{
    match kind {
        0 => binary_again::<Vec<u8>>(alloc, then, input, output),
        1 => binary_again::<Vec<u64>>(alloc, then, input, output),
        2 => binary_again::<Vec<String>>(alloc, then, input, output),
        3 => binary_again::<HashMap<String, i32>>(alloc, then, input, output),
        4 => binary_again::<Vec<Item>>(alloc, then, input, output),
        _ => NO_SUCH_CASE,
    }
}

/// One case of JSON.
fn json(alloc: Global, kind: u32, then: Then, input: &[u8], output: &mut [u8]) -> i64
    ensures { 4 < kind → result ≡ NO_SUCH_CASE }
{
    let Ok(text) = str::from_utf8(input) else {
        return if kind > 4 { NO_SUCH_CASE } else { REJECTED };
    };
    match kind {
        0 => json_again::<Vec<u8>>(alloc, then, text, output),
        1 => json_again::<Vec<u64>>(alloc, then, text, output),
        2 => json_again::<Vec<String>>(alloc, then, text, output),
        3 => json_again::<HashMap<String, i32>>(alloc, then, text, output),
        4 => json_again::<Vec<Item>>(alloc, then, text, output),
        _ => NO_SUCH_CASE,
    }
}

/// One case of RON.
fn ron(alloc: Global, kind: u32, then: Then, input: &[u8], output: &mut [u8]) -> i64
    ensures { 4 < kind → result ≡ NO_SUCH_CASE }
{
    let Ok(text) = str::from_utf8(input) else {
        return if kind > 4 { NO_SUCH_CASE } else { REJECTED };
    };
    match kind {
        0 => ron_again::<Vec<u8>>(alloc, then, text, output),
        1 => ron_again::<Vec<u64>>(alloc, then, text, output),
        2 => ron_again::<Vec<String>>(alloc, then, text, output),
        3 => ron_again::<HashMap<String, i32>>(alloc, then, text, output),
        4 => ron_again::<Vec<Item>>(alloc, then, text, output),
        _ => NO_SUCH_CASE,
    }
}

/// Reads a TOML text, and drops its table.
fn toml(alloc: Global, input: &[u8]) -> i64 {
    let Ok(text) = str::from_utf8(input) else {
        return REJECTED;
    };
    match TomlParser::parse(alloc, text) {
        Ok(_) => 0,
        Err(error) if error.memory => NO_MEMORY,
        Err(_) => REJECTED,
    }
}

/// Reads a value from bytes and, where asked, writes it again.
fn binary_again<T: BothBin>(alloc: Global, then: Then, input: &[u8], output: &mut [u8]) -> i64 {
    let value = match T::deserialize_bin(alloc, input) {
        Ok(value) => value,
        Err(error) => {
            return if error.kind == DeBinKind::Memory {
                NO_MEMORY
            } else {
                REJECTED
            };
        }
    };
    if then == Then::Drop {
        return 0;
    }
    match value.serialize_bin(alloc) {
        Ok(bytes) => put(&bytes, then, output),
        Err(_) => NO_MEMORY,
    }
}

/// Reads a value from a JSON text and, where asked, writes it again.
fn json_again<T: BothJson>(alloc: Global, then: Then, input: &str, output: &mut [u8]) -> i64 {
    let value = match T::deserialize_json(alloc, input) {
        Ok(value) => value,
        Err(error) => return if error.memory { NO_MEMORY } else { REJECTED },
    };
    if then == Then::Drop {
        return 0;
    }
    match value.serialize_json(alloc) {
        Ok(text) => put(text.as_bytes(), then, output),
        Err(_) => NO_MEMORY,
    }
}

/// Reads a value from a RON text and, where asked, writes it again.
fn ron_again<T: BothRon>(alloc: Global, then: Then, input: &str, output: &mut [u8]) -> i64 {
    let value = match T::deserialize_ron(alloc, input) {
        Ok(value) => value,
        Err(error) => return if error.memory { NO_MEMORY } else { REJECTED },
    };
    if then == Then::Drop {
        return 0;
    }
    match value.serialize_ron(alloc) {
        Ok(text) => put(text.as_bytes(), then, output),
        Err(_) => NO_MEMORY,
    }
}

/// Returns how many bytes are written and, where asked, copies them to the start of `output`.
fn put(bytes: &[u8], then: Then, output: &mut [u8]) -> i64 {
    if then == Then::Copy {
        match output.get_mut(..bytes.len()) {
            Some(prefix) => copy(bytes, prefix),
            None => return TOO_SHORT,
        }
    }
    i64::try_from(bytes.len()).unwrap_or(TOO_SHORT)
}

/// Copies bytes in short blocks: what counts instructions counts one long copy as an instruction a
/// byte.
fn copy(bytes: &[u8], prefix: &mut [u8])
    requires { length prefix.old ≡ length bytes.now }
{
    let mut done = 0;
    while done < bytes.len() {
        let end = bytes.len().min(done.saturating_add(BLOCK));
        prefix[done..end].copy_from_slice(&bytes[done..end]);
        done = end;
    }
}
