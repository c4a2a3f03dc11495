//! Type parameters, and what is asked of them.

use crate::parse::cursor::Cursor;
use crate::parse::types::parse_type;
use crate::syntax::{Bound, Type};
use crate::token::{Token, TokenKind};
use derive_source::Fault;
use std::alloc::Global;

/// Takes type parameters, if there are any, and adds their bounds.
pub(crate) fn parameters<'a>(
    alloc: Global,
    cursor: &mut Cursor<'a>,
    bounds: &mut Vec<Bound<'a>>,
) -> Result<Vec<Token<'a>>, Fault> {
    if !cursor.take("<") {
        return Ok(Vec::new(alloc));
    }
    let parameters = listed_parameters(alloc, cursor, bounds)?;
    cursor.expect(">", "stands where a comma or `>` is wanted")?;
    Ok(parameters)
}

/// Takes type parameters, as long as there are commas between them.
fn listed_parameters<'a>(
    alloc: Global,
    cursor: &mut Cursor<'a>,
    bounds: &mut Vec<Bound<'a>>,
) -> Result<Vec<Token<'a>>, Fault> {
    let mut parameters = Vec::new(alloc);
    for _turn in cursor.tokens {
        parameters.push(parameter(alloc, cursor, bounds)?)?;
        if !cursor.take(",") || cursor.is_at(">") {
            break;
        }
    }
    Ok(parameters)
}

/// Takes a type parameter, and adds its bound if it has one.
fn parameter<'a>(
    alloc: Global,
    cursor: &mut Cursor<'a>,
    bounds: &mut Vec<Bound<'a>>,
) -> Result<Token<'a>, Fault> {
    if cursor.is_at_kind(TokenKind::Lifetime) {
        return Err(cursor.fault(LIFETIME));
    }
    let position = cursor.position();
    let name = cursor.name()?;
    let of = Type(cursor.since(position));
    if cursor.take(":") {
        let traits = traits(alloc, cursor)?;
        bounds.push(Bound { of, traits })?;
    }
    Ok(name)
}

/// Takes `where` and the bounds after it, if it comes next, and adds them.
pub(crate) fn where_clause<'a>(
    alloc: Global,
    cursor: &mut Cursor<'a>,
    bounds: &mut Vec<Bound<'a>>,
) -> Result<(), Fault> {
    if !cursor.take("where") {
        return Ok(());
    }
    for _turn in cursor.tokens {
        if ends_bounds(cursor) {
            break;
        }
        bounds.push(bound(alloc, cursor)?)?;
        if !cursor.take(",") {
            break;
        }
    }
    if ends_bounds(cursor) {
        Ok(())
    } else {
        Err(cursor.fault("stands where a comma or the end of the bounds is wanted"))
    }
}

/// Whether what comes next ends the bounds of a type.
fn ends_bounds(cursor: &Cursor<'_>) -> bool {
    cursor.is_at("{") || cursor.is_at(";")
}

/// Takes a type and what is asked of it.
fn bound<'a>(alloc: Global, cursor: &mut Cursor<'a>) -> Result<Bound<'a>, Fault> {
    let of = parse_type(alloc, cursor)?;
    cursor.expect(":", "stands where `:` and a trait are wanted")?;
    let traits = traits(alloc, cursor)?;
    Ok(Bound { of, traits })
}

/// Takes traits, as long as there is a plus sign between them.
fn traits<'a>(alloc: Global, cursor: &mut Cursor<'a>) -> Result<Vec<Type<'a>>, Fault> {
    let mut traits = Vec::new(alloc);
    for _turn in cursor.tokens {
        traits.push(bounding(alloc, cursor)?)?;
        if !cursor.take("+") {
            break;
        }
    }
    Ok(traits)
}

/// Takes a trait or the lifetime `'static`.
fn bounding<'a>(alloc: Global, cursor: &mut Cursor<'a>) -> Result<Type<'a>, Fault> {
    match cursor.peek() {
        Some(token) if token.text == "'static" => {
            let position = cursor.position();
            let _ = cursor.next();
            Ok(Type(cursor.since(position)))
        }
        Some(token) if token.kind == TokenKind::Lifetime => Err(token.fault(LIFETIME)),
        Some(token) if token.kind == TokenKind::Word => parse_type(alloc, cursor),
        _ => Err(cursor.fault("stands where a trait is wanted")),
    }
}

const LIFETIME: &str = "is a lifetime: a type that is read owns what it holds";
