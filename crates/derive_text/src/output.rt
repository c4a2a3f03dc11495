//! The impls of structs and enums, as text that `rt fmt` leaves as it is.
//!
//! The text is a whole module, which brings in what it says by name.

mod nested;
mod nested_bodies;
mod nested_json;
mod nested_json_contents;
mod nested_json_fields;
mod nested_json_variants;
mod nested_names;
mod nested_parameters;
mod nested_ron;
mod nested_ron_contents;
mod nested_ron_steps;
mod nested_rows;
mod nested_text;
mod nested_writes;

use derive_impls::append_flat;
use derive_impls::names::Names;
use derive_impls::sheet::Sheet;
use derive_syntax::{Definition, Fault, Source};
use nested::append_nested;
use std::alloc::Global;

const NO_TYPE: &str =
    "no struct or enum has a line `// nanoserde: bin json ron`, which says in which \
    formats it is read and written";

/// The impls of each struct and enum for which a format is named.
pub(crate) fn impls<'a>(
    alloc: Global,
    module: &'a str,
    source: &Source<'a>,
    end: usize,
) -> Result<String, Fault> {
    let mut sheet = Sheet::new(alloc, Names::new(alloc, source)?)?;
    let mut is_empty = true;
    for definition in &source.definitions {
        if definition.attributes.codec.is_some() {
            append_impls(&mut sheet, module, source, definition)?;
            is_empty = false;
        }
    }
    if is_empty {
        return Err(Fault::place(end, NO_TYPE));
    }
    Ok(sheet.finish()?)
}

/// Appends the impls of a struct or an enum.
fn append_impls<'a>(
    sheet: &mut Sheet,
    module: &'a str,
    source: &Source<'a>,
    definition: &Definition<'a>,
) -> Result<(), Fault> {
    match source.cycle_of(sheet.alloc, definition)? {
        Some(cycle) => append_nested(sheet, module, (source, definition), cycle),
        None => append_flat(sheet, module, definition),
    }
}
