//! Which types are known: those of the prelude, those of the file, its parameters, and those that
//! a line brings in.

use crate::check::shared::is_shared;
use crate::syntax::{Attributes, Definition, Source, Type};
use crate::token::{Token, TokenKind};
use derive_source::Fault;

const PRELUDE: [&str; 15] = [
    "bool", "u8", "u16", "u32", "u64", "u128", "usize", "i8", "i16", "i32", "i64", "i128",
    "String", "Option", "Vec",
];

/// An error at the first word of a type that stands for no type here.
pub(crate) fn check_type<'a>(
    source: &Source<'a>,
    definition: &Definition<'a>,
    of: Type<'a>,
) -> Result<(), Fault> {
    let mut in_path = false;
    let mut in_length = false;
    for (i, token) in of.0.iter().enumerate() {
        let is_path = match of.0.get(i.saturating_add(1)) {
            Some(following) => following.is("::"),
            None => false,
        };
        if is_shared(source, definition, of.0.get(..i).unwrap_or(&[]), *token) {
            return Err(token.fault(NO_SHARED));
        }
        if token.kind == TokenKind::Word && !in_path && !is_path && !in_length {
            check_word(source, definition, *token)?;
        }
        in_path = token.is("::");
        in_length = token.is(";");
    }
    Ok(())
}

/// An error where a word that is a whole path stands for no type here.
fn check_word<'a>(
    source: &Source<'a>,
    definition: &Definition<'a>,
    word: Token<'a>,
) -> Result<(), Fault> {
    check_number(word, definition.attributes)?;
    let is_known = PRELUDE.contains(&word.text)
        || word.text == "Box"
        || word.is_among(&definition.parameters)
        || is_defined(source, word)
        || is_imported(&source.imported, word);
    if is_known {
        Ok(())
    } else {
        Err(word.fault(
            "is no type that is known: none above has this name, and no `use` brings it in",
        ))
    }
}

const NO_SHARED: &str =
    "is a type that has no format here: a type owns what it holds, as it is or in a `Box`";

const NO_FLOAT: &str = "is a type that has no format here: write an integer, or a `String` that \
    has the number's text";

const NO_SELF: &str = "stands for the type around it: write its name";

/// An error at a type of Rust's that a format of this type lacks.
fn check_number(word: Token<'_>, attributes: Attributes<'_>) -> Result<(), Fault> {
    match word.text {
        "f32" | "f64" => Err(word.fault(NO_FLOAT)),
        "char" | "str" => Err(word.fault("is a type that has no format here: write `String`")),
        "isize" => Err(word.fault("is a type that has no format here: write `i64`")),
        "Self" => Err(word.fault(NO_SELF)),
        "u128" | "i128" if attributes.json.is_used() || attributes.ron.is_used() => {
            Err(word.fault("is a type that has bytes alone, and no JSON and RON"))
        }
        _ => Ok(()),
    }
}

/// Whether a type of the file has this name.
pub(crate) fn is_defined<'a>(source: &Source<'a>, word: Token<'a>) -> bool {
    for definition in &source.definitions {
        if definition.name.text == word.text {
            return true;
        }
    }
    false
}

/// Whether a line may bring in this name.
pub(crate) fn is_imported<'a>(imported: &[Token<'a>], word: Token<'a>) -> bool {
    for token in imported {
        if token.text == word.text || token.is("*") {
            return true;
        }
    }
    false
}
