//! The steps that append the fields of a struct that contains itself in RON, or those of a variant.

use derive_impls::layout::{Brackets, Items, Piece, list};
use derive_impls::sheet::Sheet;
use derive_impls::target::Target;
use derive_impls::types::optional_part;
use derive_syntax::{Field, field_name};
use std::alloc::AllocError;

/// The steps that append the fields of a value of a type, or the arguments that are its fields.
pub(crate) fn field_steps<'a>(
    sheet: &mut Sheet,
    target: &Target<'a>,
    fields: &[Field<'a>],
    of_value: bool,
) -> Result<String, AllocError> {
    let alloc = sheet.alloc;
    let mut text = String::new(alloc);
    for (i, field) in fields.iter().enumerate() {
        let kind = match optional_part(field.of) {
            Some(_part) => "optional",
            None => "required",
        };
        let end = if target.is_within(field.of) {
            "_within"
        } else {
            ""
        };
        let open = sheet.made(format!(in alloc; "nano_ron_nested::append_{kind}{end}("));
        let key = format!(in alloc; "\"{}\"", field_name(alloc, *field, None)?)?;
        let value = if of_value {
            format!(in alloc; "&value.{}", field.name.text)?
        } else {
            format!(in alloc; "v{i}")?
        };
        let arguments = ["alloc", key.as_str(), value.as_str(), "inner", "s"];
        text.push_str(step(sheet, open.as_str(), &arguments)?.as_str())?;
    }
    Ok(text)
}

/// A call on lines of its own.
fn step(sheet: &mut Sheet, open: &str, arguments: &[&str]) -> Result<String, AllocError> {
    let open = sheet.short(open);
    let mut pieces = Vec::new(sheet.alloc);
    for argument in arguments {
        pieces.push(Piece::of(sheet.alloc, *argument)?)?;
    }
    let brackets = Brackets {
        open: open.as_str(),
        close: ")?;",
        items: Items::Values,
        indent: 8,
        before: 8,
        after: 0,
    };
    format!(in sheet.alloc; "        {}\n", list(sheet.alloc, brackets, &pieces)?.laid)
}
