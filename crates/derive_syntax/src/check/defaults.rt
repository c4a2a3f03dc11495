//! What a field has where it is missing, or where it is skipped.

use crate::check::known::{is_defined, is_imported};
use crate::check::names::within;
use crate::syntax::{Definition, Field, Source, Type};
use crate::token::{Token, TokenKind};
use derive_source::Fault;

/// What a field has where it is missing.
#[derive(Clone, Copy)]
pub enum Missing<'a> {
    /// The default of its type.
    OfType,
    /// A number of an unsigned type.
    Whole(&'a str),
    /// A number of a signed type.
    Signed(&'a str),
    /// `true` or `false`.
    Truth(&'a str),
    /// A text.
    Text(&'a str),
    /// What the type of this path stands for.
    Path(&'a str),
}

const NO_DEFAULT: &str =
    "is for a field whose type has a default: a box has none, and no tuple and \
    no array of texts, lists, maps or sets has one";

const NO_TYPE: &str = "is no value of the field's type, and no path of a type that stands for one";

const NO_PARAMETER: &str = "is for a field of a type that is known, and no type parameter is";

const NO_NUMBER: &str = "is no number of the field's type, in digits without leading zeros";

/// What a field has where it is missing.
pub fn missing_value<'a>(field: Field<'a>) -> Missing<'a> {
    let Some(token) = field.attributes.default_path else {
        return Missing::OfType;
    };
    let text = token.quoted();
    let of = type_name(field.of);
    if of == "String" {
        Missing::Text(text)
    } else if of == "bool" && (text == "true" || text == "false") {
        Missing::Truth(text)
    } else if is_path(text) {
        Missing::Path(text)
    } else if of.starts_with('i') {
        Missing::Signed(text)
    } else {
        Missing::Whole(text)
    }
}

/// An error where a field cannot have what its attributes give it.
pub(crate) fn check_default<'a>(
    source: &Source<'a>,
    definition: &Definition<'a>,
    field: Field<'a>,
) -> Result<(), Fault> {
    check_parameters(definition, field)?;
    let missing = missing_value(field);
    if let (Some(word), Missing::OfType) = (field.attributes.skip, missing) {
        if let TypeDefault::None = type_default(field.of) {
            return Err(word.fault(NO_DEFAULT));
        }
    }
    match field.attributes.default_path {
        Some(token) => check_given(source, field, token, missing),
        None => Ok(()),
    }
}

/// An error where what is given as a default is none of the field's type.
fn check_given<'a>(
    source: &Source<'a>,
    field: Field<'a>,
    token: Token<'a>,
    missing: Missing<'a>,
) -> Result<(), Fault> {
    match missing {
        Missing::Whole(text) | Missing::Signed(text) => {
            if is_number(type_name(field.of), text) {
                Ok(())
            } else {
                Err(token.fault(NO_NUMBER))
            }
        }
        Missing::Text(text) => check_text(token, text),
        Missing::Path(text) if !is_known(source, token, text) => Err(token.fault(NO_TYPE)),
        _ => Ok(()),
    }
}

/// An error where the default of a type parameter is wanted.
fn check_parameters<'a>(definition: &Definition<'a>, field: Field<'a>) -> Result<(), Fault> {
    if field.of.parameter_of(&definition.parameters).is_none() {
        return Ok(());
    }
    match (field.attributes.skip, field.attributes.default) {
        (Some(word), _) => Err(word.fault(NO_PARAMETER)),
        (None, Some(word)) if field.of.0.len() == 1 => Err(word.fault(NO_PARAMETER)),
        _ => Ok(()),
    }
}

/// Whether a field is read, or is skipped and made as a default of the schema: one that may take
/// memory, or what a type stands for. Any other skipped field is made in its place, of a number, a
/// truth value or its type's `Default`.
pub fn stands_in_row<'a>(field: Field<'a>) -> bool {
    if field.attributes.skip.is_none() {
        return true;
    }
    match missing_value(field) {
        Missing::OfType => matches!(type_default(field.of), TypeDefault::OfSchema),
        Missing::Text(_) | Missing::Path(_) => true,
        Missing::Whole(_) | Missing::Signed(_) | Missing::Truth(_) => false,
    }
}

/// What a skipped field can be made as that is given no default.
#[derive(Drop)]
enum TypeDefault {
    /// The `Default` of its type, which takes no memory.
    InPlace,
    /// What the schema has as the default of its type.
    OfSchema,
    /// Nothing.
    None,
}

/// What a skipped field of a type can be made as.
fn type_default(of: Type<'_>) -> TypeDefault {
    for token in of.0 {
        if token.text == "Option" {
            break;
        }
        if HELD_IN_MEMORY.contains(&token.text) {
            let is_outermost = token.text == outermost(of) && token.text != "Box";
            return if is_outermost {
                TypeDefault::OfSchema
            } else {
                TypeDefault::None
            };
        }
    }
    TypeDefault::InPlace
}

/// The name of a type, without its path and its arguments, or nothing if it is a tuple or an array.
fn outermost<'a>(of: Type<'a>) -> &'a str {
    let mut name = "";
    for token in of.0 {
        if token.is("<") || token.is("(") || token.is("[") {
            break;
        }
        name = token.text;
    }
    name
}

const HELD_IN_MEMORY: [&str; 8] = [
    "String",
    "Vec",
    "LinkedList",
    "HashMap",
    "HashSet",
    "BTreeMap",
    "BTreeSet",
    "Box",
];

/// The name of a type of one word, or nothing.
fn type_name<'a>(of: Type<'a>) -> &'a str {
    match of.0 {
        [token] => token.text,
        _ => "",
    }
}

/// Whether a text may be the path of a type.
fn is_path(text: &str) -> bool {
    match text.chars().next() {
        Some(c) => c == '_' || c.is_ascii_alphabetic(),
        None => false,
    }
}

/// Whether a text is the path of a type that is known here, or one of another module.
fn is_known<'a>(source: &Source<'a>, token: Token<'a>, text: &'a str) -> bool {
    for c in text.chars() {
        if c != '_' && c != ':' && !c.is_ascii_alphanumeric() {
            return false;
        }
    }
    let word = Token {
        kind: TokenKind::Word,
        text,
        offset: token.offset,
    };
    text.contains("::") || is_defined(source, word) || is_imported(&source.imported, word)
}

/// Whether a text is a number of this type, in digits without leading zeros.
pub(crate) fn is_number(of: &str, text: &str) -> bool {
    let digits = text.strip_prefix('-').unwrap_or(text);
    let is_plain = match digits.chars().next() {
        Some('0') => digits == "0",
        Some(c) => c.is_ascii_digit(),
        None => false,
    };
    is_plain && is_in_range(of, text)
}

/// Whether a text is read as a number of this type.
fn is_in_range(of: &str, text: &str) -> bool {
    match of {
        "u8" => text.parse::<u8>().is_ok(),
        "u16" => text.parse::<u16>().is_ok(),
        "u32" => text.parse::<u32>().is_ok(),
        "u64" => text.parse::<u64>().is_ok(),
        "u128" => text.parse::<u128>().is_ok(),
        "usize" => text.parse::<usize>().is_ok(),
        "i8" => text.parse::<i8>().is_ok(),
        "i16" => text.parse::<i16>().is_ok(),
        "i32" => text.parse::<i32>().is_ok(),
        "i64" => text.parse::<i64>().is_ok(),
        "i128" => text.parse::<i128>().is_ok(),
        _ => false,
    }
}

/// An error at the first character of a text that would need an escape.
fn check_text(token: Token<'_>, text: &str) -> Result<(), Fault> {
    for (at, c) in text.char_indices() {
        if c == '"' || c == '\\' || c.is_ascii_control() || !c.is_ascii() {
            return Err(within(
                token,
                at,
                "this is in no default: a text is ASCII that needs no escape",
            ));
        }
    }
    Ok(())
}
