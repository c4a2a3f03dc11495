//! Writes documents.

ghost use Rattle.std.specs.Prelude.{OnOk, OnErr};
ghost use Rattle.nano_text.specs.Outcomes.{Appends, AppendsPart};
ghost use Rattle.nano_json.specs.Lists.{in_list, written_list};
ghost use Rattle.nano_json.specs.Lists.{written_entry, written_entries};
ghost use Rattle.nano_document.specs.DocumentCodecs.{json_codec, string_codec};

use crate::decimal::append_decimal;
use crate::json::Json;
use nano_json::{SerJson, SerJsonState, rollback_on_error};
use std::alloc::{AllocError, Global};

/// Appends a document. If allocation fails, the text written so far remains.
#[cycle(write)]
fn append_json(alloc: Global, json: &Json, d: usize, s: &mut SerJsonState) -> Result<(), AllocError>
    ensures ok { OnOk result (Appends s.old.out s.new.out (json_codec.canonical.text d json.now)) }
    ensures err { OnErr result (AppendsPart s.old.out s.new.out) }
{
    match json {
        Json::Null => ().ser_json(alloc, d, s),
        Json::Bool(truth) => truth.ser_json(alloc, d, s),
        Json::U64(number) => number.ser_json(alloc, d, s),
        Json::I64(number) => number.ser_json(alloc, d, s),
        Json::Decimal(text) => append_decimal(alloc, text, d, s),
        Json::Text(text) => text.ser_json(alloc, d, s),
        Json::List(items) => append_items(alloc, items, d.saturating_add(1), s),
        Json::Object(entries) => append_entries(alloc, entries, d.saturating_add(1), s),
    }
}

/// Appends documents between square brackets. If allocation fails, the text written so far
/// remains.
#[cycle(write)]
fn append_items(
    alloc: Global,
    items: &Vec<Json>,
    d: usize,
    s: &mut SerJsonState,
) -> Result<(), AllocError>
    ensures ok { OnOk result (Appends s.old.out s.new.out
        (written_list (json_codec.canonical.text d) items.now.items)) }
    ensures err { OnErr result (AppendsPart s.old.out s.new.out) }
{
    s.out.push('[')?;
    let mut first = true;
    for item in items {
        append_item(alloc, item, first, d, s)?;
        first = false;
    }
    s.out.push(']')
}

/// Appends a document, after a comma unless it is the first. If allocation fails, the text written
/// so far remains.
#[cycle(write)]
fn append_item(
    alloc: Global,
    item: &Json,
    first: bool,
    d: usize,
    s: &mut SerJsonState,
) -> Result<(), AllocError>
    ensures ok { OnOk result
        (Appends s.old.out s.new.out (in_list first (json_codec.canonical.text d item.now))) }
    ensures err { OnErr result (AppendsPart s.old.out s.new.out) }
{
    if !first {
        s.out.push(',')?;
    }
    append_json(alloc, item, d, s)
}

/// Appends names with their documents between braces. If allocation fails, the text written so far
/// remains.
#[cycle(write)]
fn append_entries(
    alloc: Global,
    entries: &Vec<(String, Json)>,
    d: usize,
    s: &mut SerJsonState,
) -> Result<(), AllocError>
    ensures ok { OnOk result (Appends s.old.out s.new.out (written_entries
        (string_codec.canonical.text d) (json_codec.canonical.text d) entries.now.items)) }
    ensures err { OnErr result (AppendsPart s.old.out s.new.out) }
{
    s.out.push('{')?;
    let mut first = true;
    for entry in entries {
        append_entry(alloc, &entry.0, &entry.1, first, d, s)?;
        first = false;
    }
    s.out.push('}')
}

/// Appends a name, a colon and a document, after a comma unless they are the first. If allocation
/// fails, the text written so far remains.
#[cycle(write)]
fn append_entry(
    alloc: Global,
    name: &String,
    value: &Json,
    first: bool,
    d: usize,
    s: &mut SerJsonState,
) -> Result<(), AllocError>
    ensures ok { OnOk result (Appends s.old.out s.new.out (in_list first (written_entry
        (string_codec.canonical.text d) (json_codec.canonical.text d) (name.now, value.now)))) }
    ensures err { OnErr result (AppendsPart s.old.out s.new.out) }
{
    append_name(alloc, name, first, d, s)?;
    s.out.push(':')?;
    append_json(alloc, value, d, s)
}

/// Appends a name, after a comma unless it is the first. If allocation fails, the text written so
/// far remains.
fn append_name(
    alloc: Global,
    name: &String,
    first: bool,
    d: usize,
    s: &mut SerJsonState,
) -> Result<(), AllocError>
    ensures ok { OnOk result
        (Appends s.old.out s.new.out (in_list first (string_codec.canonical.text d name.now))) }
    ensures err { OnErr result (AppendsPart s.old.out s.new.out) }
{
    if !first {
        s.out.push(',')?;
    }
    name.ser_json(alloc, d, s)
}

impl SerJson for Json {
    fn ser_json(&self, alloc: Global, d: usize, s: &mut SerJsonState) -> Result<(), AllocError> {
        let start = s.out.len();
        let written = append_json(alloc, self, d, s);
        rollback_on_error(&mut s.out, start, written)
    }
}
