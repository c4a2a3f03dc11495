//! How nested pairs of values are taken apart.

use crate::fields::field_texts;
use crate::layout::Items;
use crate::rows::paired;
use derive_syntax::{Field, Type};
use std::alloc::{AllocError, Global};

/// Lines, each indented so far, that take the values of fields out of nested pairs: by one pattern,
/// or step by step where one of several is an array.
pub fn fields_taken<'a>(
    alloc: Global,
    fields: &[Field<'a>],
    of: &str,
    indent: usize,
) -> Result<String, AllocError> {
    let names = field_texts(alloc, fields, "$NAME")?;
    let mut has_array = false;
    for field in fields {
        has_array = has_array || is_array(field.of);
    }
    if has_array && names.len() > 2 {
        return taken(alloc, &names, (blanks(indent), of));
    }
    let before = indent.saturating_add("let ".len());
    let pattern = paired(alloc, names, Items::Patterns, indent, before)?.laid;
    format!(in alloc; "{}let {pattern} = {of};\n", blanks(indent))
}

/// An indent of eight blanks, or else of sixteen.
pub fn blanks(indent: usize) -> &'static str {
    if indent == 8 {
        "        "
    } else {
        "                "
    }
}

/// Whether a type is an array: the prover takes one out of nested pairs step by step alone.
pub fn is_array(of: Type<'_>) -> bool {
    match of.0.first() {
        Some(token) => token.is("["),
        None => false,
    }
}

/// Lines, each after such an indent, that take nested pairs of so many values apart, each half at
/// a time.
pub fn taken(
    alloc: Global,
    names: &[String],
    (indent, whole): (&str, &str),
) -> Result<String, AllocError> {
    let (first, second) = names.split_at(names.len() / 2);
    if names.len() < 2 {
        return Ok(String::new(alloc));
    }
    let one = together(alloc, first)?;
    let other = together(alloc, second)?;
    let mut lines = format!(in alloc; "{indent}let ({one}, {other}) = {whole};\n")?;
    lines.push_str(taken(alloc, first, (indent, one.as_str()))?.as_str())?;
    lines.push_str(taken(alloc, second, (indent, other.as_str()))?.as_str())?;
    Ok(lines)
}

/// What values together are called, or one alone.
fn together(alloc: Global, names: &[String]) -> Result<String, AllocError> {
    match names {
        [name] => name.clone(),
        [first, .., last] => format!(in alloc; "{first}_to_{last}"),
        [] => Ok(String::new(alloc)),
    }
}
