//! What is asked of structs and enums beyond their grammar.

mod bounds;
mod defaults;
mod definitions;
mod keys;
mod known;
mod names;
mod nested;
mod nested_defaults;
mod nested_json;
mod shared;

use crate::syntax::Source;
pub use defaults::{Missing, missing_value, stands_in_row};
use definitions::check_definition;
use derive_source::Fault;
use names::check_distinct;
pub use names::{field_name, variant_name};
use nested::check_nested;
use std::alloc::Global;

/// An error where no impls can be written for the definitions: a name stands twice, a renamed
/// name is none of a format, an attribute has no meaning where it stands, or a type is not known. Or
/// a type contains itself where that is not written, or another type that contains it.
pub fn check_source<'a>(alloc: Global, source: &Source<'a>) -> Result<(), Fault> {
    let mut names = Vec::new(alloc);
    for definition in &source.definitions {
        names.push(definition.name)?;
    }
    check_distinct(&names)?;
    for definition in &source.definitions {
        check_definition(alloc, source, definition)?;
        check_nested(alloc, source, definition)?;
    }
    Ok(())
}
