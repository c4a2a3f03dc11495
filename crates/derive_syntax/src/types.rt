//! What stands within a type: the parts of a tuple, and what stands between commas.

use crate::syntax::Type;
use crate::token::Token;
use std::alloc::{AllocError, Global};

/// The parts of a tuple, if the type is one.
pub fn tuple_parts<'a>(of: Type<'a>) -> Option<Type<'a>> {
    match of.0 {
        [open, .., close] if open.is("(") && close.is(")") => {
            Some(Type(of.0.get(1..of.0.len().saturating_sub(1))?))
        }
        _ => None,
    }
}

/// Whether a token is an opening bracket.
fn opens(token: Token<'_>) -> bool {
    token.is("<") || token.is("(") || token.is("[")
}

/// Whether a token is a closing bracket.
fn closes(token: Token<'_>) -> bool {
    token.is(">") || token.is(")") || token.is("]")
}

/// The types between the commas of such a list.
pub fn listed<'a>(alloc: Global, list: Type<'a>) -> Result<Vec<Type<'a>>, AllocError> {
    let mut types = Vec::new(alloc);
    let mut depth = 0usize;
    let mut start = 0usize;
    for (i, token) in list.0.iter().enumerate() {
        if opens(*token) {
            depth = depth.saturating_add(1);
        } else if closes(*token) {
            depth = depth.saturating_sub(1);
        } else if token.is(",") && depth == 0 {
            types.push(Type(list.0.get(start..i).unwrap_or(&[])))?;
            start = i.saturating_add(1);
        }
    }
    match list.0.get(start..) {
        Some(rest) if !rest.is_empty() => types.push(Type(rest))?,
        _ => {}
    }
    Ok(types)
}
