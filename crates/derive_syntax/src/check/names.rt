//! Names of types, fields and variants.

use crate::syntax::{Attributes, Field, Variant};
use crate::token::{Token, TokenKind};
use derive_source::{Case, Fault};
use std::alloc::{AllocError, Global};

/// A name under which something is read and written.
#[derive(Drop)]
pub(crate) struct EncodedName<'a> {
    /// The name.
    text: String,
    /// What it was made of: the text after `rename`, or the name in the program.
    token: Token<'a>,
}

impl<'a> EncodedName<'a> {
    /// The name of a field, whose type has this case.
    pub(crate) fn of_field(
        alloc: Global,
        field: Field<'a>,
        case: Option<Case>,
    ) -> Result<EncodedName<'a>, AllocError> {
        Ok(EncodedName {
            text: field_name(alloc, field, case)?,
            token: field.attributes.rename.unwrap_or(field.name),
        })
    }

    /// A second name of a field.
    pub(crate) fn of_alias(alloc: Global, alias: Token<'a>) -> Result<EncodedName<'a>, AllocError> {
        Ok(EncodedName {
            text: String::from_str(alloc, alias.quoted())?,
            token: alias,
        })
    }

    /// The name of a variant, whose type has this case.
    pub(crate) fn of_variant(
        alloc: Global,
        variant: &Variant<'a>,
        case: Option<Case>,
    ) -> Result<EncodedName<'a>, AllocError> {
        Ok(EncodedName {
            text: variant_name(alloc, variant, case)?,
            token: variant.attributes.rename.unwrap_or(variant.name),
        })
    }

    /// What is wrong with it: the first words are of one that stands in the source, and the second
    /// ones of one that `rename_all` makes.
    fn fault(&self, written: &'static str, cased: &'static str) -> Fault {
        let is_written = self.token.quoted() == self.text.as_str();
        self.token.fault(if is_written { written } else { cased })
    }
}

/// An error at the first name that an earlier one is.
pub(crate) fn check_distinct(names: &[Token<'_>]) -> Result<(), Fault> {
    for (i, name) in names.iter().enumerate() {
        for earlier in names.iter().take(i) {
            if earlier.text == name.text {
                return Err(name.fault("stands twice"));
            }
        }
    }
    Ok(())
}

/// An error at the first encoded name that an earlier one is.
pub(crate) fn check_encoded(names: &[EncodedName<'_>]) -> Result<(), Fault> {
    for (i, name) in names.iter().enumerate() {
        for earlier in names.iter().take(i) {
            if earlier.text == name.text {
                return Err(name.token.fault("stands twice"));
            }
        }
    }
    Ok(())
}

/// The name under which a field is read and written, whose type has this case.
pub fn field_name<'a>(
    alloc: Global,
    field: Field<'a>,
    case: Option<Case>,
) -> Result<String, AllocError> {
    match (field.attributes.rename, case) {
        (Some(name), _) => String::from_str(alloc, name.quoted()),
        (None, Some(case)) => case.of_field(alloc, field.name.text),
        (None, None) => String::from_str(alloc, field.name.text),
    }
}

/// The name under which a variant is read and written, whose type has this case.
pub fn variant_name<'a>(
    alloc: Global,
    variant: &Variant<'a>,
    case: Option<Case>,
) -> Result<String, AllocError> {
    match (variant.attributes.rename, case) {
        (Some(name), _) => String::from_str(alloc, name.quoted()),
        (None, Some(case)) => case.of_variant(alloc, variant.name.text),
        (None, None) => String::from_str(alloc, variant.name.text),
    }
}

/// An error where a name cannot be written in a format of the type.
pub(crate) fn check_name<'a>(name: &EncodedName<'a>, of: Attributes<'a>) -> Result<(), Fault> {
    if name.text.is_empty() && name.token.kind == TokenKind::Word {
        return Err(name.token.fault(EMPTY));
    }
    if of.ron.is_used() {
        check_ron_name(name)
    } else if of.json.is_used() {
        check_json_name(name)
    } else {
        Ok(())
    }
}

const EMPTY: &str = "has no name left by `rename_all`: give it one by `rename`";

const CASED_TRUTH: &str = "becomes a truth value of RON by `rename_all`: give it another name by \
    `rename`";

const CASED_NUMBER: &str = "becomes a number of RON by `rename_all`: give it another name by \
    `rename`";

/// An error where a name is none of RON: it is a word, and neither `true` nor `false`.
fn check_ron_name(name: &EncodedName<'_>) -> Result<(), Fault> {
    let text = name.text.as_str();
    if text == "true" || text == "false" {
        return Err(name.fault("is a truth value in RON, and no name", CASED_TRUTH));
    }
    match text.chars().next() {
        Some(c) if !c.is_ascii_digit() => {}
        _ => {
            return Err(name.fault(
                "begins with no letter, so it is no name in RON",
                CASED_NUMBER,
            ));
        }
    }
    for (at, c) in text.char_indices() {
        if c != '_' && !c.is_ascii_alphanumeric() {
            return Err(within(
                name.token,
                at,
                "this is in no name of RON, which is one word",
            ));
        }
    }
    Ok(())
}

/// An error where a name would need an escape in JSON.
fn check_json_name(name: &EncodedName<'_>) -> Result<(), Fault> {
    for (at, c) in name.text.as_str().char_indices() {
        if c == '"' || c == '\\' || c.is_ascii_control() {
            return Err(within(
                name.token,
                at,
                "this is in no name here: a name needs no escape in JSON",
            ));
        }
    }
    Ok(())
}

/// A fault at a byte of what stands between a name's quotes.
pub(crate) fn within(name: Token<'_>, at: usize, words: &'static str) -> Fault {
    Fault::place(name.offset.saturating_add(1).saturating_add(at), words)
}
