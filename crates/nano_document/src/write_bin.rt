//! Writes documents as bytes.

ghost use Rattle.std.specs.Prelude.{◌≡◌, ◌≤◌, ◌++◌, take, length, OnOk, OnErr};
ghost use Rattle.std.specs.List.{flat_map};
ghost use Rattle.nano_bin_bytes.specs.Scalars.{little_endian};
ghost use Rattle.nano_bin_bytes.specs.Containers.{written_list, written_pair};
ghost use Rattle.nano_bin.specs.ScalarCodecs.{string_codec};
ghost use Rattle.nano_document.specs.BinScalars.{written_integer};
ghost use Rattle.nano_document.specs.BinCodecs.{bin_codec};

use crate::decimal::is_decimal;
use crate::json::Json;
use nano_bin::{SerBin, append_part};
use std::alloc::{AllocError, Global};

/// Appends a tag and what its variant holds. On an error, `output` is unchanged.
fn append_variant<T: SerBin>(
    alloc: Global,
    tag: u16,
    content: &T,
    output: &mut Vec<u8>,
) -> Result<(), AllocError>
    ensures ok { OnOk result (output.new.items ≡ output.old.items
        ++ (little_endian 2 tag ++ T.bin.canonical.written content.now)) }
    ensures err { OnErr result (output.new.items ≡ output.old.items) }
{
    let start = output.len();
    tag.ser_bin(alloc, output)?;
    append_part(alloc, content, output, start)
}

/// Appends a whole number, as a `U64` unless it is below 0. On an error, `output` is unchanged.
fn append_signed(alloc: Global, number: i64, output: &mut Vec<u8>) -> Result<(), AllocError>
    ensures ok { OnOk result (output.new.items ≡ output.old.items ++ written_integer number) }
    ensures err { OnErr result (output.new.items ≡ output.old.items) }
{
    if number < 0 {
        append_variant(alloc, 3, &number, output)
    } else {
        append_variant(alloc, 2, &(number as u64), output)
    }
}

/// Appends a decimal, or as a `Text` what is none. On an error, `output` is unchanged.
fn append_decimal(alloc: Global, text: &String, output: &mut Vec<u8>) -> Result<(), AllocError>
    ensures ok { OnOk result (output.new.items
        ≡ output.old.items ++ bin_codec.canonical.written (Json.Decimal text.now)) }
    ensures err { OnErr result (output.new.items ≡ output.old.items) }
{
    if is_decimal(text.as_str()) {
        append_variant(alloc, 4, text, output)
    } else {
        append_variant(alloc, 5, text, output)
    }
}

/// Appends a document. On an error, `output` is unchanged.
#[cycle(write)]
fn append_json(alloc: Global, json: &Json, output: &mut Vec<u8>) -> Result<(), AllocError>
    ensures ok { OnOk result
        (output.new.items ≡ output.old.items ++ bin_codec.canonical.written json.now) }
    ensures err { OnErr result (output.new.items ≡ output.old.items) }
{
    match json {
        Json::Null => append_variant(alloc, 0, &(), output),
        Json::Bool(truth) => append_variant(alloc, 1, truth, output),
        Json::U64(number) => append_variant(alloc, 2, number, output),
        Json::I64(number) => append_signed(alloc, *number, output),
        Json::Decimal(text) => append_decimal(alloc, text, output),
        Json::Text(text) => append_variant(alloc, 5, text, output),
        Json::List(items) => append_list(alloc, items, output),
        Json::Object(entries) => append_object(alloc, entries, output),
    }
}

/// Appends the tag of a list, the count of its documents, and each. On an error, `output` is
/// unchanged.
#[cycle(write)]
fn append_list(alloc: Global, items: &Vec<Json>, output: &mut Vec<u8>) -> Result<(), AllocError>
    ensures ok { OnOk result (output.new.items ≡ output.old.items
        ++ (little_endian 2 6 ++ written_list bin_codec.canonical.written items.now.items)) }
    ensures err { OnErr result (output.new.items ≡ output.old.items) }
{
    let start = output.len();
    append_variant(alloc, 6, &items.len(), output)?;
    append_items(alloc, items, output, start)
}

/// Appends documents. On an error, it truncates `output` back to its first `start` bytes.
#[cycle(write)]
fn append_items(
    alloc: Global,
    items: &Vec<Json>,
    output: &mut Vec<u8>,
    start: usize,
) -> Result<(), AllocError>
    requires { start ≤ length output.old.items }
    ensures ok { OnOk result (output.new.items
        ≡ output.old.items ++ flat_map bin_codec.canonical.written items.now.items) }
    ensures err { OnErr result (output.new.items ≡ take start output.old.items) }
{
    for item in items {
        let written = append_json(alloc, item, output);
        if written.is_err() {
            output.truncate(start);
            return written;
        }
    }
    Ok(())
}

/// Appends the tag of an object, the count of its entries, and each. On an error, `output` is
/// unchanged.
#[cycle(write)]
fn append_object(
    alloc: Global,
    entries: &Vec<(String, Json)>,
    output: &mut Vec<u8>,
) -> Result<(), AllocError>
    ensures ok { OnOk result (output.new.items ≡ output.old.items
        ++ (little_endian 2 7 ++ written_list
        (written_pair string_codec.canonical.written bin_codec.canonical.written)
        entries.now.items)) }
    ensures err { OnErr result (output.new.items ≡ output.old.items) }
{
    let start = output.len();
    append_variant(alloc, 7, &entries.len(), output)?;
    append_entries(alloc, entries, output, start)
}

/// Appends names with their documents. On an error, it truncates `output` back to its first
/// `start` bytes.
#[cycle(write)]
fn append_entries(
    alloc: Global,
    entries: &Vec<(String, Json)>,
    output: &mut Vec<u8>,
    start: usize,
) -> Result<(), AllocError>
    requires { start ≤ length output.old.items }
    ensures ok { OnOk result (output.new.items ≡ output.old.items
        ++ flat_map (written_pair string_codec.canonical.written bin_codec.canonical.written)
        entries.now.items) }
    ensures err { OnErr result (output.new.items ≡ take start output.old.items) }
{
    for entry in entries {
        let written = append_entry(alloc, &entry.0, &entry.1, output);
        if written.is_err() {
            output.truncate(start);
            return written;
        }
    }
    Ok(())
}

/// Appends a name and a document. On an error, `output` is unchanged.
#[cycle(write)]
fn append_entry(
    alloc: Global,
    name: &String,
    value: &Json,
    output: &mut Vec<u8>,
) -> Result<(), AllocError>
    ensures ok { OnOk result (output.new.items ≡ output.old.items ++ written_pair
        string_codec.canonical.written bin_codec.canonical.written (name.now, value.now)) }
    ensures err { OnErr result (output.new.items ≡ output.old.items) }
{
    let start = output.len();
    name.ser_bin(alloc, output)?;
    let written = append_json(alloc, value, output);
    if written.is_err() {
        output.truncate(start);
    }
    written
}

impl SerBin for Json {
    fn ser_bin(&self, alloc: Global, output: &mut Vec<u8>) -> Result<(), AllocError> {
        append_json(alloc, self, output)
    }
}
