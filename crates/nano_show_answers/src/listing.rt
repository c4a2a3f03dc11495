//! The listing of the table that an input encodes.

ghost use Rattle.std.specs.Prelude.{◌≡◌, ◌++◌, map, IfOk, OnOk, option_map, string_bytes};
ghost use Rattle.std.specs.Map.Iter.{deref_pair};
ghost use Rattle.nano_toml.specs.Kinds.{as_tables};
ghost use Rattle.nano_toml.specs.Data.{view, table_view, tables_view};
ghost use Rattle.nano_show_answers.specs.Answer.{AnswersInput, IsListing, chain};
ghost use Rattle.nano_show_answers.specs.Listing.{element_lines, element_name, elements_lines};
ghost use Rattle.nano_show_answers.specs.Listing.{lines_after, listing, pair_line};

use crate::fault::ShowFault;
use crate::listed::append_listed;
use crate::texts::text;
use nanoserde::{SerJson, SerJsonState, Toml, TomlParser, entries_in_order};
use std::alloc::{AllocError, Global};
use std::collections::HashMap;

/// The listing of the table that the input encodes.
pub(crate) fn listing_of(alloc: Global, input: &[u8]) -> Result<Vec<u8>, ShowFault>
    ensures { AnswersInput IsListing input.now result }
{
    match TomlParser::parse(alloc, text(alloc, input)?) {
        Ok(table) => Ok(listing(alloc, &table)?),
        Err(error) if error.memory => Err(ShowFault::Memory),
        Err(error) => Err(ShowFault::Refused(error.to_string(alloc)?)),
    }
}

/// The lines of a table: its keys in ascending order, and after a key the lines of its
/// elements.
fn listing(alloc: Global, table: &HashMap<String, Toml>) -> Result<Vec<u8>, AllocError>
    ensures { IfOk result (λ answer. answer.items ≡ listing (table_view table.now.entries)) }
{
    let mut state = SerJsonState {
        out: String::new(alloc),
    };
    let entries = entries(alloc, table)?;
    for (key, value) in &entries {
        append_entry(alloc, key, value, &mut state)?;
    }
    Ok(state.out.into_bytes())
}

/// The keys of a table and their values, in ascending order of the keys.
fn entries<'a>(
    alloc: Global,
    table: &'a HashMap<String, Toml>,
) -> Result<Vec<(&'a String, &'a Toml)>, AllocError>
    ensures { IfOk result (λ entries.
        chain (map deref_pair entries.items) ≡ table_view table.now.entries) }
{
    let _count = table.len();
    entries_in_order(alloc, table)
}

/// Appends the line of a key, and after it those of its elements.
fn append_entry(
    alloc: Global,
    key: &String,
    value: &Toml,
    state: &mut SerJsonState,
) -> Result<(), AllocError>
    ensures { OnOk result (string_bytes state.new.out ≡ string_bytes state.old.out
        ++ (pair_line (string_bytes key.now) (view value.now)
        ++ lines_after (string_bytes key.now) (view value.now))) }
{
    append_pair(alloc, key, value, state)?;
    match tables_in(value) {
        Some(tables) => append_elements(alloc, key, tables, state),
        None => Ok(()),
    }
}

/// The tables of an array of them; any other value has none.
fn tables_in(value: &Toml) -> Option<&Vec<HashMap<String, Toml>>>
    ensures { as_tables (view value.now)
        ≡ option_map (λ array. tables_view array.now.items) result }
{
    match value {
        Toml::Array(tables) => Some(tables),
        Toml::SimpleArray(_) => None,
        Toml::Str(_) => None,
        Toml::Bool(_) => None,
        Toml::Num(_) => None,
        Toml::Dec(_) => None,
        Toml::Nan(_) => None,
        Toml::Inf(_) => None,
        Toml::Date(_) => None,
    }
}

/// Appends the lines of a key's elements, in order.
fn append_elements(
    alloc: Global,
    key: &String,
    tables: &Vec<HashMap<String, Toml>>,
    state: &mut SerJsonState,
) -> Result<(), AllocError>
    ensures { OnOk result (string_bytes state.new.out ≡ string_bytes state.old.out
        ++ elements_lines (string_bytes key.now) 0 (tables_view tables.now.items)) }
{
    for place in 0..tables.len() {
        let name = element_name(alloc, key, place)?;
        append_element(alloc, &name, &tables[place], state)?;
    }
    Ok(())
}

/// What names the element of a key at this place.
fn element_name(alloc: Global, key: &String, place: usize) -> Result<String, AllocError>
    ensures { IfOk result (λ name. string_bytes name ≡ element_name (string_bytes key.now) place) }
{
    let quoted = key.serialize_json(alloc)?;
    format!(in alloc; "{quoted}[{place}] ")
}

/// Appends the lines of an element, its keys in ascending order, with what names it before each.
fn append_element(
    alloc: Global,
    name: &str,
    table: &HashMap<String, Toml>,
    state: &mut SerJsonState,
) -> Result<(), AllocError>
    ensures { OnOk result (string_bytes state.new.out
        ≡ string_bytes state.old.out ++ element_lines name.now (table_view table.now.entries)) }
{
    let entries = entries(alloc, table)?;
    for (key, value) in &entries {
        state.out.push_str(name)?;
        append_pair(alloc, key, value, state)?;
    }
    Ok(())
}

/// Appends the line of a key and its value.
fn append_pair(
    alloc: Global,
    key: &String,
    value: &Toml,
    state: &mut SerJsonState,
) -> Result<(), AllocError>
    ensures { OnOk result (string_bytes state.new.out
        ≡ string_bytes state.old.out ++ pair_line (string_bytes key.now) (view value.now)) }
{
    key.ser_json(alloc, 0, state)?;
    state.out.push_str(" = ")?;
    append_listed(alloc, value, state)?;
    state.out.push('\n')
}
