//! Whether two documents mean the same.

ghost use Rattle.std.specs.Prelude.{◌≡◌, ◌↔◌, IsTrue, map, string_bytes};
ghost use Rattle.nano_value.specs.Meaning.{text};
ghost use Rattle.nano_meaning.specs.Sums.{tagged};
ghost use Rattle.nano_document.specs.Documents.{json_means, entry_means};

use crate::decimal::is_decimal;
use crate::json::Json;

/// Whether two documents mean the same.
#[cycle(same)]
pub(crate) fn same_json(one: &Json, other: &Json) -> bool
    ensures { IsTrue result ↔ (json_means one.now ≡ json_means other.now) }
{
    match one {
        Json::Null => other.is_null(),
        Json::Bool(truth) => other.as_bool() == Some(*truth),
        Json::U64(number) => other.as_u64() == Some(*number),
        Json::I64(number) => other.as_i64() == Some(*number),
        Json::Decimal(text) => same_decimal(text, other),
        Json::Text(text) => is_text(text, other),
        Json::List(items) => match other.as_list() {
            Some(others) => {
                let left_items = items.as_slice();
                let right_items = others.as_slice();
                same_items(left_items, right_items)
            }
            None => false,
        },
        Json::Object(entries) => match other.as_object() {
            Some(others) => {
                let left_entries = entries.as_slice();
                let right_entries = others.as_slice();
                same_entries(left_entries, right_entries)
            }
            None => false,
        },
    }
}

/// Whether a document is the decimal, or the text if that is no decimal.
fn same_decimal(decimal: &String, other: &Json) -> bool
    ensures { IsTrue result ↔ (json_means (Json.Decimal decimal.now) ≡ json_means other.now) }
{
    if !is_decimal(decimal.as_str()) {
        return is_text(decimal, other);
    }
    match other.as_decimal() {
        Some(other) => decimal.as_str() == other,
        None => false,
    }
}

/// Whether a document is the text.
fn is_text(string: &String, other: &Json) -> bool
    ensures { IsTrue result
        ↔ (json_means other.now ≡ tagged 3 (text (string_bytes string.now))) }
{
    match other.as_str() {
        Some(other) => string.as_str() == other,
        None => false,
    }
}

/// Whether documents mean the same, in order.
#[cycle(same)]
fn same_items(items: &[Json], others: &[Json]) -> bool
    ensures { IsTrue result ↔ (map json_means items.now ≡ map json_means others.now) }
{
    if items.len() != others.len() {
        return false;
    }
    for i in 0..items.len() {
        if !same_json(&items[i], &others[i]) {
            return false;
        }
    }
    true
}

/// Whether entries mean the same, in order.
#[cycle(same)]
fn same_entries(entries: &[(String, Json)], others: &[(String, Json)]) -> bool
    ensures { IsTrue result
        ↔ (map (entry_means json_means) entries.now ≡ map (entry_means json_means) others.now) }
{
    if entries.len() != others.len() {
        return false;
    }
    for i in 0..entries.len() {
        let entry = &entries[i];
        if !same_entry(&entry.0, &entry.1, &others[i]) {
            return false;
        }
    }
    true
}

/// Whether a name and a document are the same as those of an entry.
#[cycle(same)]
fn same_entry(name: &String, value: &Json, other: &(String, Json)) -> bool
    ensures { IsTrue result
        ↔ (entry_means json_means (name.now, value.now) ≡ entry_means json_means other.now) }
{
    if name.as_str() != other.0.as_str() {
        return false;
    }
    same_json(value, &other.1)
}
