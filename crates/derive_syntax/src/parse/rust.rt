//! Rust's attributes, which are passed over.

use crate::parse::cursor::Cursor;
use crate::syntax::Attributes;
use derive_source::Fault;

/// Passes over the rest of `[..]`, of which the first bracket is taken, and notes what would change
/// what is written.
pub(crate) fn rust_attribute<'a>(
    cursor: &mut Cursor<'a>,
    attributes: &mut Attributes<'a>,
) -> Result<(), Fault> {
    if cursor.is_at("nserde") {
        return Err(cursor.fault(AS_COMMENT));
    }
    if cursor.is_at("serde") {
        attributes.serde = cursor.peek();
    }
    if cursor.is_at("cfg") {
        attributes.cfg = cursor.peek();
    }
    if cursor.is_at("cycle") {
        attributes.cycle = cursor.peek();
    }
    let is_derive = cursor.is_at("derive");
    let mut depth = 1usize;
    for _turn in cursor.tokens {
        if is_derive {
            attributes.is_serde = check_macro(cursor)? || attributes.is_serde;
            let found = usize::from(is_key_trait(cursor));
            attributes.key_traits = attributes.key_traits.saturating_add(found);
        }
        if cursor.take("[") {
            depth = depth.saturating_add(1);
        } else if cursor.take("]") {
            depth = depth.saturating_sub(1);
        } else {
            let _ = cursor.next();
        }
        if depth == 0 {
            return Ok(());
        }
    }
    Err(cursor.fault("stands where `]` is wanted"))
}

/// Whether the next token is a macro of serde. It is an error where it is one of nanoserde.
fn check_macro(cursor: &Cursor<'_>) -> Result<bool, Fault> {
    for name in ["SerBin", "DeBin", "SerJson", "DeJson", "SerRon", "DeRon"] {
        if cursor.is_at(name) {
            return Err(cursor.fault(NO_MACRO));
        }
    }
    Ok(cursor.is_at("Serialize") || cursor.is_at("Deserialize"))
}

/// Whether the next token is a trait that a key has.
fn is_key_trait(cursor: &Cursor<'_>) -> bool {
    match cursor.peek() {
        Some(token) => KEY_TRAITS.contains(&token.text),
        None => false,
    }
}

pub(crate) const KEY_TRAITS: [&str; 5] = ["PartialEq", "Eq", "PartialOrd", "Ord", "Hash"];

pub(crate) const AS_COMMENT: &str = "is written as a comment: `// nanoserde: ..`";

const NO_MACRO: &str = "is no macro here: a line `// nanoserde: bin json ron` above the type takes \
    its place, with the formats that it has";
