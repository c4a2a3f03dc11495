//! Fields with names, of a struct or of a variant.

use crate::defaults::append_default;
use crate::labels::append_labels;
use crate::rows::{Around, Leaf};
use crate::sheet::Sheet;
use crate::types::{optional_part, type_text};
use derive_syntax::{Case, Field, Holes, field_name, stands_in_row};
use std::alloc::{AllocError, Global};

/// The fields that stand in the schema: those that are read and written, and those that are made as
/// defaults of the schema.
pub(crate) fn row_fields<'a>(
    alloc: Global,
    fields: &[Field<'a>],
) -> Result<Vec<Field<'a>>, AllocError> {
    let mut in_row = Vec::new(alloc);
    for field in fields {
        if stands_in_row(*field) {
            in_row.push(*field)?;
        }
    }
    Ok(in_row)
}

/// Whether none of the fields stands in the schema.
pub(crate) fn are_skipped<'a>(fields: &[Field<'a>]) -> bool {
    for field in fields {
        if stands_in_row(*field) {
            return false;
        }
    }
    true
}

/// Appends the labels of fields, whose names are in this case, and returns the fields as they stand
/// in a schema.
pub(crate) fn append_fields<'a>(
    sheet: &mut Sheet,
    owner: &str,
    fields: &[Field<'a>],
    case: Option<Case>,
) -> Result<Vec<Leaf>, AllocError> {
    let names = names_of(sheet.alloc, fields, case)?;
    let mut labels = append_labels(sheet, owner, &names)?.into_iter();
    let mut leaves = Vec::new(sheet.alloc);
    for field in fields {
        if field.attributes.skip.is_some() {
            leaves.push(skipped_field(sheet, owner, *field)?)?;
            continue;
        }
        let Some(label) = labels.next() else {
            break;
        };
        let mut leaf = schema_field(sheet, owner, *field, label)?;
        for _alias in &field.attributes.aliases(sheet.alloc)? {
            if let Some(label) = labels.next() {
                let open = sheet.short("nano_schema::Aliased<");
                leaf.around.push(Around { open, label })?;
            }
        }
        sheet.push(&mut leaves, leaf);
    }
    Ok(leaves)
}

/// The names of fields that are read, each before its aliases.
fn names_of<'a>(
    alloc: Global,
    fields: &[Field<'a>],
    case: Option<Case>,
) -> Result<Vec<String>, AllocError> {
    let mut names = Vec::new(alloc);
    for field in fields {
        if field.attributes.skip.is_none() {
            names.push(field_name(alloc, *field, case)?)?;
        }
        for alias in &field.attributes.aliases(alloc)? {
            names.push(String::from_str(alloc, alias.quoted())?)?;
        }
    }
    Ok(names)
}

/// A field as it stands in a schema, after its default, if it has one.
fn schema_field<'a>(
    sheet: &mut Sheet,
    owner: &str,
    field: Field<'a>,
    label: String,
) -> Result<Leaf, AllocError> {
    let alloc = sheet.alloc;
    let mut texts = Vec::new(alloc);
    let (open, part) = match (field.attributes.default, optional_part(field.of)) {
        (Some(_), _) => ("nano_schema::Defaulted<", field.of),
        (None, Some(part)) => ("nano_schema::Optional<", part),
        (None, None) => ("nano_schema::Required<", field.of),
    };
    let open = sheet.short(open);
    sheet.push(&mut texts, label);
    let item = sheet.made(type_text(alloc, part));
    sheet.push(&mut texts, item);
    if field.attributes.default.is_some() {
        texts.push(append_default(sheet, owner, field)?)?;
    }
    Ok(Leaf {
        open,
        texts,
        close: ">",
        around: Vec::new(alloc),
    })
}

/// A field that is neither written nor read, as it stands in a schema, after its default.
fn skipped_field<'a>(sheet: &mut Sheet, owner: &str, field: Field<'a>) -> Result<Leaf, AllocError> {
    let alloc = sheet.alloc;
    let mut texts = Vec::new(alloc);
    let of = sheet.made(type_text(alloc, field.of));
    sheet.push(&mut texts, of);
    texts.push(append_default(sheet, owner, field)?)?;
    Ok(Leaf {
        open: sheet.short("nano_schema::Skipped<"),
        texts,
        close: ">",
        around: Vec::new(alloc),
    })
}

/// A text for each field, from a template with its name and its type.
pub fn field_texts<'a>(
    alloc: Global,
    fields: &[Field<'a>],
    template: &str,
) -> Result<Vec<String>, AllocError> {
    let mut texts = Vec::new(alloc);
    for field in fields {
        texts.push(field_text(alloc, *field, template)?)?;
    }
    Ok(texts)
}

/// A text for a field, from a template with its name and its type.
fn field_text<'a>(alloc: Global, field: Field<'a>, template: &str) -> Result<String, AllocError> {
    let mut holes = Holes::new(alloc);
    holes.put("NAME", field.name.text);
    holes.put_made("TYPE", type_text(alloc, field.of));
    holes.fill(template)
}
