//! Types of the library that hold values of other types.

use crate::syntax::Type;
use crate::token::TokenKind;
use crate::types::{listed, tuple_parts};
use derive_source::Fault;
use std::alloc::{AllocError, Global};

/// A type of the library that holds no values of the type that contains itself.
#[derive(Clone, Copy, PartialEq)]
pub enum Container<'a> {
    /// An array of so many items, as the program has the number.
    Array(&'a str),
    /// A `BTreeSet` of keys of a type of Rust's, by its name.
    BTreeSet(&'a str),
    /// A `HashMap` from keys of a type of Rust's, by its name.
    HashMap(&'a str),
    /// A `HashSet` of keys of a type of Rust's, by its name.
    HashSet(&'a str),
    /// A `LinkedList`.
    LinkedList,
    /// A tuple of two to four parts.
    Tuple,
}

/// The types that a key may have.
const KEYS: [&str; 11] = [
    "bool", "u8", "u16", "u32", "u64", "usize", "i8", "i16", "i32", "i64", "String",
];

const NO_KEY: &str = "is no key of a map or a set in a type that contains itself: such a key is a \
    `String`, `bool` or an integer of at most 64 bits";

/// A type of the library that is none of those around the type that contains itself, and the types
/// of what it holds beside keys.
///
/// # Errors
///
/// Its keys are of another type than keys may have, the length of an array is no decimal number, or
/// an allocation fails.
pub(crate) fn container_of<'a>(
    alloc: Global,
    of: Type<'a>,
) -> Result<Option<(Container<'a>, Vec<Type<'a>>)>, Fault> {
    if let Some(parts) = tuple_parts(of) {
        return Ok(tuple_of(alloc, parts)?);
    }
    match collection_of(of)? {
        Some((container, Some(held))) => Ok(Some((container, one(alloc, held)?))),
        Some((container, None)) => Ok(Some((container, Vec::new(alloc)))),
        None => Ok(None),
    }
}

/// The same of a type that is no tuple: it holds values of one other type at most.
fn collection_of<'a>(of: Type<'a>) -> Result<Option<(Container<'a>, Option<Type<'a>>)>, Fault> {
    if let Some((item, count)) = array_of(of)? {
        return Ok(Some((Container::Array(count), Some(item))));
    }
    let (Some(word), Some(held)) = (of.0.first(), between(of)) else {
        return Ok(None);
    };
    match word.text {
        "LinkedList" => Ok(Some((Container::LinkedList, Some(held)))),
        "HashMap" => match keyed(held)? {
            Some((key, value)) => Ok(Some((Container::HashMap(key), Some(value)))),
            None => Ok(None),
        },
        "HashSet" => Ok(Some((Container::HashSet(key_of(held)?), None))),
        "BTreeSet" => Ok(Some((Container::BTreeSet(key_of(held)?), None))),
        _ => Ok(None),
    }
}

/// One type.
fn one<'a>(alloc: Global, of: Type<'a>) -> Result<Vec<Type<'a>>, AllocError> {
    let mut types = Vec::new(alloc);
    types.push(of)?;
    Ok(types)
}

/// A tuple of these parts, if it has two to four.
fn tuple_of<'a>(
    alloc: Global,
    parts: Type<'a>,
) -> Result<Option<(Container<'a>, Vec<Type<'a>>)>, AllocError> {
    let types = listed(alloc, parts)?;
    if types.len() < 2 || types.len() > 4 {
        return Ok(None);
    }
    Ok(Some((Container::Tuple, types)))
}

const NO_LENGTH: &str = "is no length of an array in a type that contains itself: such a length is \
    written in decimal digits alone";

/// The type of the items of an array, and how many there are.
///
/// # Errors
///
/// The number is written in another way than in decimal digits.
fn array_of<'a>(of: Type<'a>) -> Result<Option<(Type<'a>, &'a str)>, Fault> {
    match of.0 {
        [open, item @ .., semicolon, count, close]
            if open.is("[") && semicolon.is(";") && close.is("]") => {
            match count.kind {
                TokenKind::Number if is_decimal(count.text) => Ok(Some((Type(item), count.text))),
                TokenKind::Number => Err(count.fault(NO_LENGTH)),
                _ => Ok(None),
            }
        }
        _ => Ok(None),
    }
}

/// Whether a number has decimal digits alone, of which the first is no 0 before others.
fn is_decimal(number: &str) -> bool {
    for c in number.chars() {
        if !c.is_ascii_digit() {
            return false;
        }
    }
    number.len() < 2 || !number.starts_with('0')
}

/// What stands between the angle brackets of a type, without a comma at its end.
pub(crate) fn between<'a>(of: Type<'a>) -> Option<Type<'a>> {
    let open = of.0.get(1)?;
    if !open.is("<") {
        return None;
    }
    let held = of.0.get(2..of.0.len().saturating_sub(1))?;
    match held.last() {
        Some(comma) if comma.is(",") => Some(Type(held.get(..held.len().saturating_sub(1))?)),
        _ => Some(Type(held)),
    }
}

/// What stands between the angle brackets of a map: a key, by its name, a comma and a value.
///
/// # Errors
///
/// The key is of another type than keys may have.
pub(crate) fn keyed<'a>(between: Type<'a>) -> Result<Option<(&'a str, Type<'a>)>, Fault> {
    match between.0 {
        [key, comma, value @ ..] if comma.is(",") && KEYS.contains(&key.text) => {
            Ok(Some((key.text, Type(value))))
        }
        [key, _next, ..] => Err(key.fault(NO_KEY)),
        _ => Ok(None),
    }
}

/// The key that a set is of, by its name.
///
/// # Errors
///
/// It is of another type than keys may have.
fn key_of<'a>(between: Type<'a>) -> Result<&'a str, Fault> {
    match between.0 {
        [key] if KEYS.contains(&key.text) => Ok(key.text),
        [key, ..] => Err(key.fault(NO_KEY)),
        [] => Err(Fault::place(0, NO_KEY)),
    }
}
