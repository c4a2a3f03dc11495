//! The type parameters that types name.

use derive_syntax::{Content, Field, Shape, Token, Type, Variant, stands_in_row};
use std::alloc::{AllocError, Global};

/// Those of the parameters that stand in one of the types, in their order.
pub(crate) fn parameters_in<'a>(
    alloc: Global,
    parameters: &[Token<'a>],
    types: &[Type<'a>],
) -> Result<Vec<Token<'a>>, AllocError> {
    let mut found = Vec::new(alloc);
    for parameter in parameters {
        if is_named(*parameter, types) {
            found.push(*parameter)?;
        }
    }
    Ok(found)
}

/// Whether a parameter stands in one of the types.
fn is_named<'a>(parameter: Token<'a>, types: &[Type<'a>]) -> bool {
    for of in types {
        if of.parameter_of(&[parameter]).is_some() {
            return true;
        }
    }
    false
}

/// The types of the fields that stand in the schema.
pub(crate) fn encoded_types<'a>(
    alloc: Global,
    fields: &[Field<'a>],
) -> Result<Vec<Type<'a>>, AllocError> {
    let mut types = Vec::new(alloc);
    for field in fields {
        if stands_in_row(*field) {
            types.push(field.of)?;
        }
    }
    Ok(types)
}

/// The types of what a variant holds, as far as it stands in the schema.
pub(crate) fn content_types<'a>(
    alloc: Global,
    content: &Content<'a>,
) -> Result<Vec<Type<'a>>, AllocError> {
    match content {
        Content::Nothing => Ok(Vec::new(alloc)),
        Content::Parts(parts) => parts.clone(),
        Content::Fields(fields) => encoded_types(alloc, fields),
    }
}

/// The types of what a definition is made of, as far as they stand in the schema.
pub(crate) fn shape_types<'a>(
    alloc: Global,
    shape: &Shape<'a>,
) -> Result<Vec<Type<'a>>, AllocError> {
    match shape {
        Shape::Fields(fields) => encoded_types(alloc, fields),
        Shape::Parts(parts) => parts.clone(),
        Shape::Variants(variants) => variant_types(alloc, variants),
    }
}

/// The types of what variants hold, as far as they stand in the schema.
fn variant_types<'a>(alloc: Global, variants: &[Variant<'a>]) -> Result<Vec<Type<'a>>, AllocError> {
    let mut types = Vec::new(alloc);
    for variant in variants {
        types.extend_from_slice(&content_types(alloc, &variant.content)?)?;
    }
    Ok(types)
}

/// Parameters with a bound each, in angle brackets with what stands before them, if there is
/// anything.
pub(crate) fn bounds<'a>(
    alloc: Global,
    before: &str,
    parameters: &[Token<'a>],
    bound: &str,
) -> Result<String, AllocError> {
    let mut text = String::from_str(alloc, before)?;
    for parameter in parameters {
        text.push_str(if text.is_empty() { "<" } else { ", " })?;
        text.push_str(parameter.text)?;
        text.push_str(bound)?;
    }
    if !text.is_empty() {
        text.push('>')?;
    }
    Ok(text)
}
