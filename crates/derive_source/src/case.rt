//! The cases of names that `rename_all` has, each as serde has it.

ghost use Rattle.std.specs.Prelude.{◌≡◌, IfOk, string_bytes, chars, map, true};
ghost use Rattle.std.specs.Char.{to_ascii_lowercase, to_ascii_uppercase};
ghost use Rattle.derive_source.specs.Cases.{capitalized, uncapitalized, in_words, hyphen};
ghost use Rattle.derive_source.specs.Cases.{field_in, variant_in};

use std::alloc::{AllocError, Global};

/// How the names of fields or variants are written.
#[derive(Clone, Copy, PartialEq)]
pub enum Case {
    /// `lowercase`.
    Lower,
    /// `UPPERCASE`.
    Upper,
    /// `PascalCase`.
    Pascal,
    /// `camelCase`.
    Camel,
    /// `snake_case`.
    Snake,
    /// `SCREAMING_SNAKE_CASE`.
    ScreamingSnake,
    /// `kebab-case`.
    Kebab,
    /// `SCREAMING-KEBAB-CASE`.
    ScreamingKebab,
}

impl Case {
    /// The case that is called so.
    pub fn named(name: &str) -> Option<Case> {
        match name {
            "lowercase" => Some(Case::Lower),
            "UPPERCASE" => Some(Case::Upper),
            "PascalCase" => Some(Case::Pascal),
            "camelCase" => Some(Case::Camel),
            "snake_case" => Some(Case::Snake),
            "SCREAMING_SNAKE_CASE" => Some(Case::ScreamingSnake),
            "kebab-case" => Some(Case::Kebab),
            "SCREAMING-KEBAB-CASE" => Some(Case::ScreamingKebab),
            _ => None,
        }
    }

    /// Whether its names have hyphens.
    pub fn has_hyphens(self) -> bool {
        self == Case::Kebab || self == Case::ScreamingKebab
    }

    /// A field's name in this case. It is taken to be in snake case.
    pub fn of_field(self, alloc: Global, name: &str) -> Result<String, AllocError>
        ensures { IfOk result (λ text.
            chars (string_bytes text) ≡ field_in self (chars name.now)) }
    {
        match self {
            Case::Lower | Case::Snake => String::from_str(alloc, name),
            Case::Upper | Case::ScreamingSnake => upper(alloc, name),
            Case::Pascal => capitalized(alloc, name),
            Case::Camel => uncapitalized(alloc, capitalized(alloc, name)?.as_str()),
            Case::Kebab => hyphenated(alloc, name),
            Case::ScreamingKebab => hyphenated(alloc, upper(alloc, name)?.as_str()),
        }
    }

    /// A variant's name in this case. It is taken to be in Pascal case.
    pub fn of_variant(self, alloc: Global, name: &str) -> Result<String, AllocError>
        ensures { IfOk result (λ text.
            chars (string_bytes text) ≡ variant_in self (chars name.now)) }
    {
        match self {
            Case::Lower => lower(alloc, name),
            Case::Upper => upper(alloc, name),
            Case::Pascal => String::from_str(alloc, name),
            Case::Camel => uncapitalized(alloc, name),
            Case::Snake => lower(alloc, in_words(alloc, name)?.as_str()),
            Case::ScreamingSnake => upper(alloc, in_words(alloc, name)?.as_str()),
            Case::Kebab => {
                let snake = lower(alloc, in_words(alloc, name)?.as_str())?;
                hyphenated(alloc, snake.as_str())
            }
            Case::ScreamingKebab => {
                let snake = upper(alloc, in_words(alloc, name)?.as_str())?;
                hyphenated(alloc, snake.as_str())
            }
        }
    }
}

/// A name without its underscores, and with a capital where a word begins: at the first character
/// and after an underscore.
fn capitalized(alloc: Global, name: &str) -> Result<String, AllocError>
    ensures { IfOk result (λ text.
        chars (string_bytes text) ≡ capitalized true (chars name.now)) }
{
    let mut text = String::new(alloc);
    let mut begins = true;
    for c in name.chars() {
        if c == '_' {
            begins = true;
        } else {
            text.push(if begins { c.to_ascii_uppercase() } else { c })?;
            begins = false;
        }
    }
    Ok(text)
}

/// A name whose first character is no capital.
fn uncapitalized(alloc: Global, name: &str) -> Result<String, AllocError>
    ensures { IfOk result (λ text.
        chars (string_bytes text) ≡ uncapitalized (chars name.now)) }
{
    let mut text = String::new(alloc);
    let mut chars = name.chars();
    let Some(first) = chars.next() else {
        return Ok(text);
    };
    text.push(first.to_ascii_lowercase())?;
    text.push_str(chars.as_str())?;
    Ok(text)
}

/// A name with an underscore before each capital but one at its beginning.
fn in_words(alloc: Global, name: &str) -> Result<String, AllocError>
    ensures { IfOk result (λ text. chars (string_bytes text) ≡ in_words (chars name.now)) }
{
    let mut text = String::new(alloc);
    let mut is_first = true;
    for c in name.chars() {
        if c.is_ascii_uppercase() && !is_first {
            text.push('_')?;
        }
        text.push(c)?;
        is_first = false;
    }
    Ok(text)
}

/// A name with small letters in the place of its capitals.
fn lower(alloc: Global, name: &str) -> Result<String, AllocError>
    ensures { IfOk result (λ text.
        chars (string_bytes text) ≡ map to_ascii_lowercase (chars name.now)) }
{
    name.chars().map(|c| c.to_ascii_lowercase()).collect(alloc)
}

/// A name with capitals in the place of its small letters.
fn upper(alloc: Global, name: &str) -> Result<String, AllocError>
    ensures { IfOk result (λ text.
        chars (string_bytes text) ≡ map to_ascii_uppercase (chars name.now)) }
{
    name.chars().map(|c| c.to_ascii_uppercase()).collect(alloc)
}

/// A name with hyphens in the place of its underscores.
fn hyphenated(alloc: Global, name: &str) -> Result<String, AllocError>
    ensures { IfOk result (λ text. chars (string_bytes text) ≡ map hyphen (chars name.now)) }
{
    name.chars()
        .map(|c| if c == '_' { '-' } else { c })
        .collect(alloc)
}
