//! Words.

ghost use Rattle.std.specs.Prelude.{◌≡◌, ℕ, List, IfOk, IfSome, IfNone, IsSome};
ghost use Rattle.nano_toml.specs.Characters.{starts_word, is_in_word};
ghost use Rattle.nano_toml.specs.Cut.{Cut};
ghost use Rattle.nano_toml.specs.Place.{remaining};
ghost use Rattle.nano_toml.specs.Reading.{scalar_at, token_of, a_token};
ghost use Rattle.nano_toml.specs.Token.{prefix, following, ident, word_token};

use crate::state::Cursor;
use crate::token::TomlTok;
use std::alloc::{AllocError, Global};

pub(crate) fn starts_word(c: u8) -> bool
    ensures { result ≡ starts_word c }
{
    c.is_ascii_alphabetic() || c == b'_'
}

/// Most are small letters, which are tested first.
fn is_in_word(c: u8) -> bool
    ensures { result ≡ is_in_word c }
{
    let is_letter = c >= b'a' && c <= b'z' || c >= b'A' && c <= b'Z';
    is_letter || c == b'_' || c == b'-' || c == b'.'
}

/// The value that a word is, unless it is a name.
fn word_value(word: &str) -> Option<TomlTok>
    ensures value { IfSome result (λ t. token_of t ≡ a_token (word_token word.now)) }
    ensures scalar { IfSome result (λ t. IsSome (scalar_at (token_of t))) }
    ensures name { IfNone result (word_token word.now ≡ ident word.now) }
{
    match word {
        "true" => Some(TomlTok::Bool(true)),
        "false" => Some(TomlTok::Bool(false)),
        "inf" => Some(TomlTok::Inf(false)),
        "nan" => Some(TomlTok::Nan(false)),
        _ => None,
    }
}

/// What a word is.
pub(crate) fn word_token(alloc: Global, word: &str) -> Result<TomlTok, AllocError>
    ensures { IfOk result (λ t. token_of t ≡ a_token (word_token word.now)) }
{
    match word_value(word) {
        Some(value) => Ok(value),
        None => Ok(TomlTok::Ident(String::from_str(alloc, word)?)),
    }
}

impl<'a> Cursor<'a> {
    /// Takes a word.
    pub(crate) fn read_word(&mut self) -> &'a str
        ensures text { result.now ≡ prefix is_in_word (remaining self.old) }
        ensures rest { remaining self.new ≡ following is_in_word (remaining self.old) }
    {
        self.take_while(is_in_word)
    }

    /// Takes what is skipped and the name after it, if there is a name. If not, nothing is
    /// taken.
    pub(crate) fn next_name(&mut self) -> Option<&'a str>
        ensures cut { IfSome result
            (λ name. Cut (remaining self.old) (ident name.now) (remaining self.new)) }
        ensures none { IfNone result (remaining self.new ≡ remaining self.old) }
        ensures no_name { IfNone result
            ((name rest : List ℕ) → Cut (remaining self.old) (ident name) rest → ⊥) }
    {
        let mut ahead = self.again();
        ahead.skip();
        if !starts_word(ahead.first()) {
            return None;
        }
        let word = ahead.read_word();
        if let Some(_) = word_value(word) {
            return None;
        }
        self.rest = ahead.rest;
        Some(word)
    }
}
