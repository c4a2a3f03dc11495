//! Types as they are written.

use derive_syntax::{Token, Type};
use std::alloc::{AllocError, Global};

/// A type of the library: its name, and its module.
pub(crate) type LibraryType = (&'static str, &'static str);

/// A type on one line, as the module of the impls says it.
pub fn type_text<'a>(alloc: Global, of: Type<'a>) -> Result<String, AllocError> {
    let mut text = String::new(alloc);
    let mut before: Option<Token<'a>> = None;
    for (i, token) in of.0.iter().enumerate() {
        let following = of.0.get(i.saturating_add(1)).copied();
        if let Some(comma) = before {
            if comma.is(",") || comma.is(";") {
                text.push(' ')?;
            }
        }
        if token.is(",") && ends_bracket(following) {
            before = None;
            continue;
        }
        text.push_str(from_below(before, *token))?;
        before = Some(*token);
    }
    Ok(text)
}

/// Whether a comma before this token is one too many. One before the end of a tuple is not: it may
/// be a tuple of one.
fn ends_bracket(following: Option<Token<'_>>) -> bool {
    match following {
        Some(token) => token.is(">"),
        None => true,
    }
}

/// A token of a type, after another one, as the module of the impls says it: that module stands
/// below the one of the type, so a path from there has a step more.
fn from_below<'a>(before: Option<Token<'a>>, token: Token<'a>) -> &'a str {
    match before {
        Some(colons) if colons.is("::") => token.text,
        _ if token.is("self") => "super",
        _ if token.is("super") => "super::super",
        _ => token.text,
    }
}

/// A path as the module of the impls says it.
pub(crate) fn path_text(alloc: Global, path: &str) -> Result<String, AllocError> {
    match path.split_once("::") {
        Some(("self", rest)) => format!(in alloc; "super::{rest}"),
        Some(("super", _rest)) => format!(in alloc; "super::{path}"),
        _ => String::from_str(alloc, path),
    }
}

/// The type in an `Option`, if the type is one.
pub fn optional_part<'a>(of: Type<'a>) -> Option<Type<'a>> {
    argument_of(of, ("Option", "option"))
}

/// What stands between the angle brackets of a type of the library, if the type is this one.
pub(crate) fn argument_of<'a>(of: Type<'a>, library: LibraryType) -> Option<Type<'a>> {
    let end = path_length(of);
    let is_it = is_path_of(of.0.get(..end)?, library);
    match of.0.get(end..)? {
        [open, .., close] if is_it && open.is("<") && close.is(">") => Some(Type(
            of.0.get(end.saturating_add(1)..of.0.len().saturating_sub(1))?,
        )),
        _ => None,
    }
}

/// How many tokens of a type stand before its first angle bracket.
fn path_length(of: Type<'_>) -> usize {
    for (i, token) in of.0.iter().enumerate() {
        if token.is("<") {
            return i;
        }
    }
    of.0.len()
}

/// Whether a path is that of this type of the library: its name, or all of the path.
fn is_path_of(path: &[Token<'_>], (name, module): LibraryType) -> bool {
    match path {
        [found] => found.is(name),
        [root, _, within, _, found] => root.is("std") && within.is(module) && found.is(name),
        _ => false,
    }
}
