//! The bounds that a type has, in each of its impls.

use crate::layout::{COLUMNS, width};
use crate::types::type_text;
use derive_syntax::{Bound, Type};
use std::alloc::{AllocError, Global};

/// What opens an impl after its type: the bounds, and a bracket.
pub(crate) fn opening<'a>(alloc: Global, bounds: &[Bound<'a>]) -> Result<String, AllocError> {
    if bounds.is_empty() {
        return String::from_str(alloc, " {");
    }
    let mut text = String::from_str(alloc, "\nwhere\n")?;
    for bound in bounds {
        text.push_str(bound_text(alloc, bound)?.as_str())?;
        text.push_str(",\n")?;
    }
    text.push('{')?;
    Ok(text)
}

/// A bound on one line, or with a line for each trait where that is too long.
fn bound_text<'a>(alloc: Global, bound: &Bound<'a>) -> Result<String, AllocError> {
    let of = type_text(alloc, bound.of)?;
    let traits = joined(alloc, &bound.traits, " + ")?;
    let line = format!(in alloc; "    {of}: {traits}")?;
    if width(line.as_str()) < COLUMNS {
        return Ok(line);
    }
    let traits = joined(alloc, &bound.traits, "\n        + ")?;
    format!(in alloc; "    {of}: {traits}")
}

/// Types, with something between them.
fn joined<'a>(alloc: Global, types: &[Type<'a>], between: &str) -> Result<String, AllocError> {
    let mut text = String::new(alloc);
    for of in types {
        text.push_str(if text.is_empty() { "" } else { between })?;
        text.push_str(type_text(alloc, *of)?.as_str())?;
    }
    Ok(text)
}
