//! Structs with named fields: their schema, and then each format.

use crate::codecs::append_codecs;
use crate::defaults::made_field;
use crate::ensured::of_fields;
use crate::fields::{append_fields, field_texts, row_fields};
use crate::forms::RECORD;
use crate::layout::{Brackets, Items, Piece, list};
use crate::rows::{append_row, laid_pairs, paired};
use crate::seen::{Seen, append_seen};
use crate::sheet::Sheet;
use crate::taking::fields_taken;
use crate::target::Target;
use derive_syntax::Field;
use std::alloc::{AllocError, Global};

/// Appends the impls of a struct with named fields.
pub(crate) fn append_record<'a>(
    sheet: &mut Sheet,
    target: &Target<'a>,
    fields: &[Field<'a>],
) -> Result<(), AllocError> {
    let in_row = row_fields(sheet.alloc, fields)?;
    let leaves = append_fields(sheet, target.name.text, &in_row, target.attributes.case)?;
    append_row(sheet, target.row.as_str(), &leaves)?;
    let seen = seen(sheet, target, fields, &in_row)?;
    append_seen(sheet, target, &seen)?;
    append_codecs(sheet, target, &RECORD, &RECORD)
}

/// The struct as the values of the fields that stand in its row.
fn seen<'a>(
    sheet: &mut Sheet,
    target: &Target<'a>,
    fields: &[Field<'a>],
    in_row: &[Field<'a>],
) -> Result<Seen, AllocError> {
    let alloc = sheet.alloc;
    Ok(Seen {
        types: values_of_row(sheet, target)?,
        view: laid_pairs(alloc, &field_texts(alloc, in_row, "x.$NAME")?, 4, (24, 3))?,
        ensured: of_fields(sheet, target, fields)?,
        taken: fields_taken(alloc, in_row, "values", 8)?,
        made: made(alloc, target, fields)?.laid,
        borrowed: laid(alloc, in_row, "&self.$NAME", Items::Values, (8, 7))?,
    })
}

/// The type of the values of a row, as the schema says it.
pub(crate) fn values_of_row<'a>(
    sheet: &mut Sheet,
    target: &Target<'a>,
) -> Result<String, AllocError> {
    let of = format!(in sheet.alloc; "<{} as nano_schema::Shape>::Values", target.row)?;
    Ok(sheet.short(of.as_str()))
}

/// A text for each field as nested pairs, on a line that is indented so far, after so many columns
/// of it.
pub fn laid<'a>(
    alloc: Global,
    fields: &[Field<'a>],
    template: &str,
    items: Items,
    (indent, before): (usize, usize),
) -> Result<String, AllocError> {
    let texts = field_texts(alloc, fields, template)?;
    Ok(paired(alloc, texts, items, indent, before)?.laid)
}

/// A struct of fields that are at hand by their names, but for those that do not stand in the schema.
pub fn made<'a>(
    alloc: Global,
    target: &Target<'a>,
    fields: &[Field<'a>],
) -> Result<Piece, AllocError> {
    let mut names = Vec::new(alloc);
    for field in fields {
        names.push(Piece::of(alloc, made_field(alloc, *field)?.as_str())?)?;
    }
    let open = format!(in alloc; "{} {{", target.name.text)?;
    let brackets = Brackets {
        open: open.as_str(),
        close: "}",
        items: Items::Fields,
        indent: 8,
        before: 8,
        after: 0,
    };
    list(alloc, brackets, &names)
}
