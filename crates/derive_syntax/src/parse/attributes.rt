//! Comments `// nanoserde: ..`.

use crate::parse::cursor::Cursor;
use crate::parse::rust::rust_attribute;
use crate::syntax::{Attributes, Directions};
use crate::token::{Token, TokenKind};
use derive_source::{Case, Fault};

/// What stands below an attribute.
#[derive(Clone, Copy, PartialEq)]
pub(crate) enum Below {
    /// A struct or an enum.
    Definition,
    /// A field.
    Field,
    /// A variant.
    Variant,
    /// A part of a tuple struct or tuple variant.
    Part,
}

const UNTOUCHED: Directions = Directions {
    reads: false,
    writes: false,
};

const NO_ATTRIBUTES: Attributes = Attributes {
    first: None,
    codec: None,
    bin: UNTOUCHED,
    json: UNTOUCHED,
    ron: UNTOUCHED,
    transparent: None,
    key: None,
    key_traits: 0,
    rename: None,
    above: &[],
    rename_all: None,
    case: None,
    levels: None,
    deny_unknown: None,
    allow_unknown: None,
    default: None,
    default_path: None,
    skip: None,
    serde: None,
    is_serde: false,
    cfg: None,
    cycle: None,
};

/// Takes what stands above something.
pub(crate) fn attributes<'a>(
    cursor: &mut Cursor<'a>,
    below: Below,
) -> Result<Attributes<'a>, Fault> {
    let mut attributes = NO_ATTRIBUTES;
    let start = cursor.position();
    for _turn in cursor.tokens {
        if cursor.is_at_kind(TokenKind::Attribute) {
            let _ = cursor.next();
            read_words(cursor, &mut attributes, below)?;
        } else if cursor.take("#") {
            let _ = cursor.take("!");
            cursor.expect("[", "stands where `[` is wanted")?;
            rust_attribute(cursor, &mut attributes)?;
        } else {
            break;
        }
    }
    Ok(Attributes {
        above: cursor.since(start),
        ..attributes
    })
}

impl<'a> Attributes<'a> {
    /// An error if there is any: nothing follows that could have them.
    pub(crate) fn of_nothing(self) -> Result<(), Fault> {
        match self.first {
            Some(word) => Err(word.fault("stands above no struct, enum, field or variant")),
            None => Ok(()),
        }
    }
}

/// Takes the words of a comment, to its end: one at least.
fn read_words<'a>(
    cursor: &mut Cursor<'a>,
    attributes: &mut Attributes<'a>,
    below: Below,
) -> Result<(), Fault> {
    for _turn in cursor.tokens {
        let word = cursor.of_kind(TokenKind::Word, "stands where an attribute is wanted")?;
        if attributes.first.is_none() {
            attributes.first = Some(word);
        }
        read_word(cursor, attributes, below, word)?;
        let _ = cursor.take(",");
        if cursor.is_at_kind(TokenKind::AttributeEnd) {
            let _ = cursor.next();
            break;
        }
    }
    Ok(())
}

/// Takes what belongs to a word.
fn read_word<'a>(
    cursor: &mut Cursor<'a>,
    attributes: &mut Attributes<'a>,
    below: Below,
    word: Token<'a>,
) -> Result<(), Fault> {
    match word.text {
        "rename" => {
            above(
                below == Below::Field || below == Below::Variant,
                word,
                FIELD_OR_VARIANT,
            )?;
            let text = value(cursor)?;
            set(&mut attributes.rename, text, word)
        }
        "alias" => {
            above(below == Below::Field, word, FIELD)?;
            value(cursor)?;
            Ok(())
        }
        "skip" => {
            above(below == Below::Field, word, FIELD)?;
            set(&mut attributes.skip, word, word)
        }
        "default" => {
            above(below == Below::Field, word, FIELD)?;
            if cursor.is_at("=") {
                attributes.default_path = Some(value(cursor)?);
            }
            set(&mut attributes.default, word, word)
        }
        _ => read_type_word(cursor, attributes, below, word),
    }
}

/// Takes what belongs to a word that stands above a struct or an enum.
fn read_type_word<'a>(
    cursor: &mut Cursor<'a>,
    attributes: &mut Attributes<'a>,
    below: Below,
    word: Token<'a>,
) -> Result<(), Fault> {
    match word.text {
        "rename_all" => {
            above(below == Below::Definition, word, DEFINITION)?;
            let text = value(cursor)?;
            attributes.case = Some(case_of(text)?);
            set(&mut attributes.rename_all, text, word)
        }
        "levels" => {
            above(below == Below::Definition, word, DEFINITION)?;
            let text = value(cursor)?;
            set(&mut attributes.levels, text, word)
        }
        "transparent" => set_above(&mut attributes.transparent, below, word),
        "key" => set_above(&mut attributes.key, below, word),
        "deny_unknown" => set_above(&mut attributes.deny_unknown, below, word),
        "allow_unknown" => set_above(&mut attributes.allow_unknown, below, word),
        _ => read_codec(attributes, below, word),
    }
}

const DEFINITION: &str = "stands only above a struct or an enum";

const FIELD: &str = "stands only above a field with a name";

const FIELD_OR_VARIANT: &str = "stands only above a field with a name or a variant";

const NO_ATTRIBUTE: &str = "is no attribute: those of a type are bin, json, ron, each of them also \
    with de_ or ser_ before it, key, rename_all, deny_unknown, allow_unknown, transparent and \
    levels; those of a field rename, alias, default and skip";

const NO_CASE: &str = "is no case: those of names are lowercase, UPPERCASE, PascalCase, camelCase, \
    snake_case, SCREAMING_SNAKE_CASE, kebab-case and SCREAMING-KEBAB-CASE";

/// An error if the word is not where it may stand.
fn above(may: bool, word: Token<'_>, words: &'static str) -> Result<(), Fault> {
    if may { Ok(()) } else { Err(word.fault(words)) }
}

/// Takes an equals sign and a text.
fn value<'a>(cursor: &mut Cursor<'a>) -> Result<Token<'a>, Fault> {
    cursor.expect("=", "stands where `=` and a text are wanted")?;
    cursor.of_kind(TokenKind::Text, "stands where a text is wanted")
}

/// The case that a text names.
fn case_of(text: Token<'_>) -> Result<Case, Fault> {
    match Case::named(text.quoted()) {
        Some(case) => Ok(case),
        None => Err(text.fault(NO_CASE)),
    }
}

/// Sets a word that stands above a struct or an enum.
fn set_above<'a>(
    place: &mut Option<Token<'a>>,
    below: Below,
    word: Token<'a>,
) -> Result<(), Fault> {
    above(below == Below::Definition, word, DEFINITION)?;
    set(place, word, word)
}

/// Sets what is to be set once.
fn set<'a>(place: &mut Option<Token<'a>>, value: Token<'a>, word: Token<'a>) -> Result<(), Fault> {
    if place.is_some() {
        return Err(word.fault("stands twice"));
    }
    *place = Some(value);
    Ok(())
}

/// Takes a word that names a format, and perhaps one direction.
fn read_codec<'a>(
    attributes: &mut Attributes<'a>,
    below: Below,
    word: Token<'a>,
) -> Result<(), Fault> {
    let (reads, writes, name) = match word.text.split_once('_') {
        Some(("de", name)) => (true, false, name),
        Some(("ser", name)) => (false, true, name),
        Some(_) => (false, false, ""),
        None => (true, true, word.text),
    };
    let directions = match name {
        "bin" => &mut attributes.bin,
        "json" => &mut attributes.json,
        "ron" => &mut attributes.ron,
        _ => return Err(word.fault(NO_ATTRIBUTE)),
    };
    directions.reads = directions.reads || reads;
    directions.writes = directions.writes || writes;
    if attributes.codec.is_none() {
        attributes.codec = Some(word);
    }
    above(below == Below::Definition, word, DEFINITION)
}
