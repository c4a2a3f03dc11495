//! Reads documents from bytes.
//!
//! On an error, a reader here may leave the offset at any position, unless it says where.

ghost use Rattle.std.specs.Prelude.{◌≡◌, refl, map, string_bytes, IfOk, IfErr};
ghost use Rattle.nano_value.specs.Meaning.{text, listed};
ghost use Rattle.nano_bin_bytes.specs.Reading.{rejection, Decodes};
ghost use Rattle.nano_bin_bytes.specs.declared.error.DeBinKind.TheVariants.{Own};
ghost use Rattle.nano_bin.specs.ContainerCodecs.{list_of};
ghost use Rattle.nano_document.specs.Documents.{json_means, entry_means};
ghost use Rattle.nano_document.specs.BinCodecs.{bin_decimals, bin_level, bin_codec, bin_entry};
ghost use Rattle.nano_document.specs.BinCodecs.{RejectsFrom};

use crate::decimal::is_decimal;
use crate::json::Json;
use crate::read::{MOST_LEVELS, signed};
use nano_bin::{DeBin, DeBinErr, DeBinKind};
use nano_bin_bytes::no_memory;
use std::alloc::Global;

/// The error that what stands at a place is no document.
fn no_document(place: usize, bytes: &[u8]) -> DeBinErr
    ensures { result ≡ rejection Own place 0 bytes.now }
{
    DeBinErr {
        o: place,
        l: 0,
        s: bytes.len(),
        kind: DeBinKind::Own,
    }
}

/// Reads a text that is a decimal.
fn read_decimal(alloc: Global, offset: &mut usize, bytes: &[u8]) -> Result<String, DeBinErr>
    ensures ok { IfOk result (λ s.
        Decodes bin_decimals.encodes bytes.now offset.old (text (string_bytes s)) offset.new) }
    ensures err { IfErr result (RejectsFrom bin_decimals.encodes bytes.now offset.old) }
{
    let start = *offset;
    let text = String::de_bin(alloc, offset, bytes)?;
    if !is_decimal(text.as_str()) {
        return Err(no_document(start, bytes));
    }
    Ok(text)
}

/// Reads a document of at most so many levels.
#[cycle(read)]
fn read_json(
    alloc: Global,
    levels: usize,
    offset: &mut usize,
    bytes: &[u8],
) -> Result<Json, DeBinErr>
    ensures ok { IfOk result (λ json. Decodes (bin_level levels).encoding.encodes
        bytes.now offset.old (json_means json) offset.new) }
    ensures err { IfErr result (RejectsFrom bin_codec.encoding.encodes bytes.now offset.old) }
{
    let start = *offset;
    if levels == 0 {
        return Err(no_memory(start, bytes));
    }
    match u16::de_bin(alloc, offset, bytes)? {
        0 => Ok(Json::Null),
        1 => Ok(Json::Bool(bool::de_bin(alloc, offset, bytes)?)),
        2 => Ok(Json::U64(u64::de_bin(alloc, offset, bytes)?)),
        3 => Ok(signed(i64::de_bin(alloc, offset, bytes)?)),
        4 => Ok(Json::Decimal(read_decimal(alloc, offset, bytes)?)),
        5 => Ok(Json::Text(String::de_bin(alloc, offset, bytes)?)),
        6 => Ok(Json::List(read_items(alloc, levels - 1, offset, bytes)?)),
        7 => Ok(Json::Object(read_entries(alloc, levels - 1, offset, bytes)?)),
        _ => Err(no_document(start, bytes)),
    }
}

/// Reads a count, and so many documents, each of at most so many levels.
#[cycle(read)]
fn read_items(
    alloc: Global,
    levels: usize,
    offset: &mut usize,
    bytes: &[u8],
) -> Result<Vec<Json>, DeBinErr>
    ensures ok { IfOk result (λ items. Decodes (list_of (bin_level levels).encoding).encodes
        bytes.now offset.old (listed (map json_means items.items)) offset.new) }
    ensures err { IfErr result
        (RejectsFrom (list_of bin_codec.encoding).encodes bytes.now offset.old) }
{
    let count = usize::de_bin(alloc, offset, bytes)?;
    let mut items = Vec::new(alloc);
    for _ in 0..count {
        let item = read_json(alloc, levels, offset, bytes)?;
        if items.push(item).is_err() {
            return Err(no_memory(*offset, bytes));
        }
    }
    Ok(items)
}

/// Reads a count, and so many names with their documents, each of at most so many levels.
#[cycle(read)]
fn read_entries(
    alloc: Global,
    levels: usize,
    offset: &mut usize,
    bytes: &[u8],
) -> Result<Vec<(String, Json)>, DeBinErr>
    ensures ok { IfOk result (λ entries. Decodes (list_of (bin_entry (bin_level levels))).encodes
        bytes.now offset.old (listed (map (entry_means json_means) entries.items)) offset.new) }
    ensures err { IfErr result
        (RejectsFrom (list_of (bin_entry bin_codec)).encodes bytes.now offset.old) }
{
    let count = usize::de_bin(alloc, offset, bytes)?;
    let mut entries = Vec::new(alloc);
    for _ in 0..count {
        let entry = read_entry(alloc, levels, offset, bytes)?;
        if entries.push(entry).is_err() {
            return Err(no_memory(*offset, bytes));
        }
    }
    Ok(entries)
}

/// Reads a name and a document of at most so many levels.
#[cycle(read)]
fn read_entry(
    alloc: Global,
    levels: usize,
    offset: &mut usize,
    bytes: &[u8],
) -> Result<(String, Json), DeBinErr>
    ensures ok { IfOk result (λ entry. Decodes (bin_entry (bin_level levels)).encodes
        bytes.now offset.old (entry_means json_means entry) offset.new) }
    ensures err { IfErr result
        (RejectsFrom (bin_entry bin_codec).encodes bytes.now offset.old) }
{
    let name = String::de_bin(alloc, offset, bytes)?;
    let value = read_json(alloc, levels, offset, bytes)?;
    Ok((name, value))
}

impl DeBin for Json {
    ghost is_decodable = { refl };

    fn de_bin(alloc: Global, offset: &mut usize, bytes: &[u8]) -> Result<Json, DeBinErr> {
        let mut at = *offset;
        let json = read_json(alloc, MOST_LEVELS, &mut at, bytes)?;
        *offset = at;
        Ok(json)
    }
}
