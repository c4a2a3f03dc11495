//! Writes documents with indentation.

ghost use Rattle.std.specs.Prelude.{◌≡◌, ◌++◌, ◌∷◌, [], cond, OnOk, OnErr, IfOk, string_bytes};
ghost use Rattle.std.specs.Prelude.{encode_utf8_all};
ghost use Rattle.nano_text.specs.Place.{saturating_next};
ghost use Rattle.nano_text.specs.Outcomes.{Appends, AppendsPart};
ghost use Rattle.nano_grammar.specs.Items.{item_in_list};
ghost use Rattle.nano_json_tokens.specs.Token.{block_punctuation, curly_punctuation};
ghost use Rattle.nano_document.specs.DocumentCodecs.{string_codec};
ghost use Rattle.nano_document.specs.Indented.{line, lines};
ghost use Rattle.nano_document.specs.IndentedCodecs.{indented, entry_text, items_text};
ghost use Rattle.nano_document.specs.IndentedCodecs.{entries_text};

use crate::decimal::append_decimal;
use crate::json::Json;
use nano_json::{SerJson, SerJsonState};
use std::alloc::{AllocError, Global};

impl Json {
    /// Returns the document with indentation: each item and each entry on a line of its own, two
    /// spaces to a level.
    ///
    /// # Errors
    ///
    /// Out of memory alone.
    ///
    /// # Examples
    ///
    /// ```
    /// ("indent", []) => Ok(document.serialize_indented(alloc)?),
    /// ```
    pub fn serialize_indented(&self, alloc: Global) -> Result<String, AllocError>
        ensures { IfOk result (λ text. string_bytes text ≡ encode_utf8_all (indented 0 self.now)) }
    {
        let mut state = SerJsonState {
            out: String::new(alloc),
        };
        append_document(alloc, self, 0, &mut state)?;
        Ok(state.out)
    }
}

/// Appends a document. If allocation fails, the text written so far remains.
#[cycle(indented)]
fn append_document(
    alloc: Global,
    json: &Json,
    d: usize,
    s: &mut SerJsonState,
) -> Result<(), AllocError>
    ensures ok { OnOk result (Appends s.old.out s.new.out (indented d json.now)) }
    ensures err { OnErr result (AppendsPart s.old.out s.new.out) }
{
    match json {
        Json::Null => ().ser_json(alloc, d, s),
        Json::Bool(truth) => truth.ser_json(alloc, d, s),
        Json::U64(number) => number.ser_json(alloc, d, s),
        Json::I64(number) => number.ser_json(alloc, d, s),
        Json::Decimal(text) => append_decimal(alloc, text, d, s),
        Json::Text(text) => text.ser_json(alloc, d, s),
        Json::List(items) => append_items(alloc, items, d, s),
        Json::Object(entries) => append_entries(alloc, entries, d, s),
    }
}

/// Appends documents between square brackets. If allocation fails, the text written so far
/// remains.
#[cycle(indented)]
fn append_items(
    alloc: Global,
    items: &Vec<Json>,
    d: usize,
    s: &mut SerJsonState,
) -> Result<(), AllocError>
    ensures ok { OnOk result (Appends s.old.out s.new.out (items_text d items.now.items)) }
    ensures err { OnErr result (AppendsPart s.old.out s.new.out) }
{
    if items.is_empty() {
        return s.out.push_str("[]");
    }
    s.out.push('[')?;
    let mut first = true;
    for item in items {
        append_item(alloc, item, first, d, s)?;
        first = false;
    }
    append_line(d, s)?;
    s.out.push(']')
}

/// Appends a document on a line of the next level, after a comma unless it is the first. If
/// allocation fails, the text written so far remains.
#[cycle(indented)]
fn append_item(
    alloc: Global,
    item: &Json,
    first: bool,
    d: usize,
    s: &mut SerJsonState,
) -> Result<(), AllocError>
    ensures ok { OnOk result (Appends s.old.out s.new.out
        (item_in_list (lines d) block_punctuation first (indented (saturating_next d) item.now))) }
    ensures err { OnErr result (AppendsPart s.old.out s.new.out) }
{
    let inner = d.saturating_add(1);
    append_start(first, inner, s)?;
    append_document(alloc, item, inner, s)
}

/// Appends names with their documents between braces. If allocation fails, the text written so far
/// remains.
#[cycle(indented)]
fn append_entries(
    alloc: Global,
    entries: &Vec<(String, Json)>,
    d: usize,
    s: &mut SerJsonState,
) -> Result<(), AllocError>
    ensures ok { OnOk result (Appends s.old.out s.new.out (entries_text d entries.now.items)) }
    ensures err { OnErr result (AppendsPart s.old.out s.new.out) }
{
    if entries.is_empty() {
        return s.out.push_str("{}");
    }
    s.out.push('{')?;
    let mut first = true;
    for entry in entries {
        append_entry(alloc, &entry.0, &entry.1, first, d, s)?;
        first = false;
    }
    append_line(d, s)?;
    s.out.push('}')
}

/// Appends a name, a colon, a space and a document on a line of the next level, after a comma
/// unless they are the first. If allocation fails, the text written so far remains.
#[cycle(indented)]
fn append_entry(
    alloc: Global,
    name: &String,
    value: &Json,
    first: bool,
    d: usize,
    s: &mut SerJsonState,
) -> Result<(), AllocError>
    ensures ok { OnOk result (Appends s.old.out s.new.out (item_in_list (lines d) curly_punctuation
        first (entry_text (saturating_next d) (name.now, value.now)))) }
    ensures err { OnErr result (AppendsPart s.old.out s.new.out) }
{
    let inner = d.saturating_add(1);
    append_start(first, inner, s)?;
    append_name(alloc, name, inner, s)?;
    append_document(alloc, value, inner, s)
}

/// Appends a name, a colon and a space. If allocation fails, the text written so far remains.
fn append_name(
    alloc: Global,
    name: &String,
    d: usize,
    s: &mut SerJsonState,
) -> Result<(), AllocError>
    ensures ok { OnOk result (Appends s.old.out s.new.out
        (string_codec.canonical.text d name.now ++ 58 ∷ (32 ∷ []))) }
    ensures err { OnErr result (AppendsPart s.old.out s.new.out) }
{
    name.ser_json(alloc, d, s)?;
    s.out.push_str(": ")
}

/// Appends the beginning of a line of a level, after a comma unless it is the first. If allocation
/// fails, the text written so far remains.
fn append_start(first: bool, d: usize, s: &mut SerJsonState) -> Result<(), AllocError>
    ensures ok { OnOk result
        (Appends s.old.out s.new.out (cond first (line d) (44 ∷ line d))) }
    ensures err { OnErr result (AppendsPart s.old.out s.new.out) }
{
    if first {
        return append_line(d, s);
    }
    s.out.push(',')?;
    append_line(d, s)
}

/// Appends a line feed, and two spaces for each level. If allocation fails, the text written so
/// far remains.
fn append_line(d: usize, s: &mut SerJsonState) -> Result<(), AllocError>
    ensures ok { OnOk result (Appends s.old.out s.new.out (line d)) }
    ensures err { OnErr result (AppendsPart s.old.out s.new.out) }
{
    s.out.push('\n')?;
    for _level in 0..d {
        s.out.push_str("  ")?;
    }
    Ok(())
}
