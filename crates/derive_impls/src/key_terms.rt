//! The ghost terms of keys, and those of what has several parts.

use crate::held::in_turn;
use crate::tuples::{PLACES, named};
use std::alloc::{AllocError, Global};

/// The ghost terms of a type that is a key.
#[derive(Drop)]
pub(crate) struct Terms {
    /// That two values are equal where they mean the same.
    pub(crate) exact: String,
    /// That two values compare as what they mean does.
    pub(crate) follows: String,
    /// Lines that bring in what they cite of the types of the file.
    pub(crate) imports: String,
}

/// The terms of a struct whose parts have these.
pub(crate) fn of_terms(alloc: Global, parts: &[Terms]) -> Result<Terms, AllocError> {
    let one = values_of(alloc, "x.", parts.len())?;
    let other = values_of(alloc, "y.", parts.len())?;
    let exact = exact_of(alloc, parts)?;
    let follows = follows_of(alloc, parts)?;
    Ok(Terms {
        exact: format!(in alloc; "λ x y. {exact}.exact {one} {other}")?,
        follows: format!(in alloc; "λ x y. {follows}.follows {one} {other}")?,
        imports: imports_of_parts(alloc, parts)?,
    })
}

/// So many parts of a value as pairs, each by its place after the name of the value.
fn values_of(alloc: Global, value: &str, count: usize) -> Result<String, AllocError> {
    in_turn(alloc, &named(alloc, value, &PLACES, count)?, "", ", ")
}

/// That the pairs of parts are equal where they mean the same.
fn exact_of(alloc: Global, parts: &[Terms]) -> Result<String, AllocError> {
    let mut exact = Vec::new(alloc);
    for part in parts {
        exact.push(part.exact.clone()?)?;
    }
    in_turn(alloc, &exact, "exact_pair ", " ")
}

/// That the pairs of parts compare as what they mean does.
fn follows_of(alloc: Global, parts: &[Terms]) -> Result<String, AllocError> {
    let mut follows = Vec::new(alloc);
    for part in parts {
        follows.push(part.follows.clone()?)?;
    }
    in_turn(alloc, &follows, "ordered_pair ", " ")
}

/// Lines that bring in what the terms of parts cite, each once.
fn imports_of_parts(alloc: Global, parts: &[Terms]) -> Result<String, AllocError> {
    let mut imports = String::new(alloc);
    for part in parts {
        add_lines(&mut imports, part.imports.as_str())?;
    }
    Ok(imports)
}

/// Appends lines, if they are not there yet.
fn add_lines(text: &mut String, lines: &str) -> Result<(), AllocError> {
    if text.as_str().contains(lines) {
        return Ok(());
    }
    text.push_str(lines)
}

/// The terms of a type of the library.
pub(crate) fn library_terms(alloc: Global, kind: &str) -> Result<Terms, AllocError> {
    Ok(Terms {
        exact: format!(in alloc; "exact_{kind}")?,
        follows: format!(in alloc; "ordered_{kind}")?,
        imports: String::new(alloc),
    })
}

/// The terms of a tuple of this kind, whose parts have these.
pub(crate) fn tuple_terms(alloc: Global, kind: &str, parts: &[Terms]) -> Result<Terms, AllocError> {
    let mut exact = format!(in alloc; "(exact_{kind}")?;
    let mut follows = format!(in alloc; "(ordered_{kind}")?;
    for part in parts {
        add_argument(&mut exact, part.exact.as_str())?;
        add_argument(&mut follows, part.follows.as_str())?;
    }
    exact.push(')')?;
    follows.push(')')?;
    Ok(Terms {
        exact,
        follows,
        imports: imports_of_parts(alloc, parts)?,
    })
}

/// Adds an argument to a term.
fn add_argument(term: &mut String, argument: &str) -> Result<(), AllocError> {
    term.push(' ')?;
    term.push_str(argument)
}
