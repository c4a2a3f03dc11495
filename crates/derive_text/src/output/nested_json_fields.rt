//! What writes the fields of a struct that contains itself in JSON, or those of a variant.

use derive_impls::layout::{Brackets, Items, Piece, list};
use derive_impls::rows::Leaf;
use derive_impls::sheet::Sheet;
use derive_impls::target::Target;
use derive_impls::types::optional_part;
use derive_syntax::{Field, field_name};
use std::alloc::AllocError;

/// The steps that append the fields of a type, which stand so in their row, and whose values begin
/// so: with what comes before a field's name, or before its number if that is `v`.
pub(crate) fn json_fields<'a>(
    sheet: &mut Sheet,
    target: &Target<'a>,
    fields: &[Field<'a>],
    (leaves, before): (&[Leaf], &str),
) -> Result<String, AllocError> {
    let alloc = sheet.alloc;
    let mut text = String::new(alloc);
    for (i, (field, leaf)) in fields.iter().zip(leaves).enumerate() {
        let bound = match fields.get(i.saturating_add(1)) {
            Some(next) => format!(in alloc; "let {}_is_first = ", next.name.text)?,
            None => String::new(alloc),
        };
        let value = if before == "v" {
            format!(in alloc; "v{i}")?
        } else {
            format!(in alloc; "{before}{}", field.name.text)?
        };
        let first = first_of(sheet, field, i)?;
        let around = (bound.as_str(), value.as_str(), first.as_str());
        let step = if target.is_within(field.of) {
            within(sheet, field, around)?
        } else {
            other(sheet, field, leaf, around)?
        };
        sheet.add_made(&mut text, format!(in alloc; "        {step}\n"));
    }
    Ok(text)
}

/// What says whether no field comes before the one at its place.
fn first_of<'a>(sheet: &mut Sheet, field: &Field<'a>, i: usize) -> Result<String, AllocError> {
    if i == 0 {
        return String::from_str(sheet.alloc, "true");
    }
    format!(in sheet.alloc; "{}_is_first", field.name.text)
}

/// What appends a field that holds values of the type.
fn within<'a>(
    sheet: &mut Sheet,
    field: &Field<'a>,
    (bound, value, first): (&str, &str, &str),
) -> Result<String, AllocError> {
    let alloc = sheet.alloc;
    let kind = match optional_part(field.of) {
        Some(_part) => "optional",
        None => "required",
    };
    let open = sheet.made(format!(in alloc; "{bound}nano_json_nested::append_{kind}_within("));
    let key = format!(in alloc; "\"{}\"", field_name(alloc, *field, None)?)?;
    let arguments = ["alloc", key.as_str(), value, first, "inner", "s"];
    call(sheet, open.as_str(), &arguments)
}

/// What appends a field that holds no values of the type.
fn other<'a>(
    sheet: &mut Sheet,
    field: &Field<'a>,
    leaf: &Leaf,
    (bound, value, first): (&str, &str, &str),
) -> Result<String, AllocError> {
    let alloc = sheet.alloc;
    let _refs = sheet.short("nano_json_schema::JsonRefs");
    let kind = match optional_part(field.of) {
        Some(_part) => "Optional",
        None => "Required",
    };
    // A field with a default is written as one that must be there.
    let mut parts = String::new(alloc);
    for text in leaf.texts.get(..2).unwrap_or(&[]) {
        let between = if parts.is_empty() { "" } else { ", " };
        sheet.add(&mut parts, between);
        sheet.add(&mut parts, text.as_str());
    }
    let open = sheet.made(format!(in alloc;
        "{bound}nano_schema::{kind}::<{parts}>::append_fields("
    ));
    let value = sheet.made(format!(in alloc; "&{value}"));
    let arguments = [value.as_str(), "alloc", first, "inner", "s"];
    call(sheet, open.as_str(), &arguments)
}

/// A call that passes an error on.
fn call(sheet: &mut Sheet, open: &str, arguments: &[&str]) -> Result<String, AllocError> {
    let open = sheet.short(open);
    let mut pieces = Vec::new(sheet.alloc);
    for argument in arguments {
        pieces.push(Piece::of(sheet.alloc, *argument)?)?;
    }
    let brackets = Brackets {
        open: open.as_str(),
        close: ")?;",
        items: Items::Values,
        indent: 8,
        before: 8,
        after: 0,
    };
    Ok(list(sheet.alloc, brackets, &pieces)?.laid)
}
