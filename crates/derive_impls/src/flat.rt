//! The impls of a type that does not contain itself.

use crate::choices::append_choice;
use crate::keys::append_key;
use crate::records::append_record;
use crate::sheet::Sheet;
use crate::target::Target;
use crate::transparent::append_transparent;
use crate::tuples::append_tuple;
use derive_syntax::{Definition, Fault, Shape};

/// Appends the impls of a struct or an enum that does not contain itself.
pub fn append_flat<'a>(
    sheet: &mut Sheet,
    module: &'a str,
    definition: &Definition<'a>,
) -> Result<(), Fault> {
    let target = Target::new(sheet, module, definition)?;
    match &definition.shape {
        Shape::Fields(fields) => append_record(sheet, &target, fields)?,
        Shape::Parts(parts) => match parts.as_slice() {
            [part] => append_transparent(sheet, &target, *part)?,
            _ => append_tuple(sheet, &target, parts)?,
        },
        Shape::Variants(variants) => append_choice(sheet, &target, variants)?,
    }
    append_key(sheet, &target, &definition.shape)
}
