//! How a reader's state takes a word.

ghost use Rattle.std.specs.Prelude.{◌≡◌, MatchResult, true, length, string_bytes};
ghost use Rattle.nano_text.specs.Characters.{prefix};
ghost use Rattle.nano_text.specs.Place.{remaining};
ghost use Rattle.nano_ron_tokens.specs.Cut.{is_word, starts_word};
ghost use Rattle.nano_ron_tokens.specs.Scan.{word_token, FoundWord, NoCapacityForWord};
ghost use Rattle.nano_ron_tokens.specs.State.{pending};

use crate::scan::Rejection;
use crate::state::DeRonState;
use crate::token::DeRonTok;
use std::alloc::AllocError;
use std::str::Chars;

impl DeRonState {
    /// Takes the word that begins here.
    pub(crate) fn take_word(&mut self, i: &mut Chars<'_>) -> Result<(), Rejection>
        requires { starts_word self.old.cur ≡ true }
        ensures word { MatchResult result
            (λ _. FoundWord self.old i.old self.new i.new
            (pending self.new ≡ word_token (prefix is_word (remaining self.old.cur i.old))))
            (λ r. (r ≡ Rejection.Memory) × NoCapacityForWord self.old i.old self.new i.new) }
        ensures others { (self.new.strbuf ≡ self.old.strbuf) × (self.new.numbuf ≡ self.old.numbuf) }
    {
        if self.gather_word(i).is_err() {
            return Err(Rejection::Memory);
        }
        let word = self.identbuf.as_str();
        if word == "true" {
            self.tok = DeRonTok::Bool(true);
            return Ok(());
        }
        if word == "false" {
            self.tok = DeRonTok::Bool(false);
            return Ok(());
        }
        self.tok = DeRonTok::Ident;
        Ok(())
    }

    /// Gathers the word that begins here in `identbuf`.
    ///
    /// Its first character is the current one, which may never have been in `i`. The others are
    /// appended at once.
    fn gather_word(&mut self, i: &mut Chars<'_>) -> Result<(), AllocError>
        requires { starts_word self.old.cur ≡ true }
        ensures word { MatchResult result
            (λ _. FoundWord self.old i.old self.new i.new
            (string_bytes self.new.identbuf ≡ prefix is_word (remaining self.old.cur i.old)))
            (λ _. NoCapacityForWord self.old i.old self.new i.new) }
        ensures others { (self.new.strbuf ≡ self.old.strbuf) × (self.new.numbuf ≡ self.old.numbuf) }
    {
        self.identbuf.clear();
        self.identbuf.push(self.cur)?;
        let text = i.as_str();
        let len = word_len(text.as_bytes());
        let (word, rest) = text.split_at(len);
        self.identbuf.push_str(word)?;
        self.col = self.col.saturating_add(len);
        *i = rest.chars();
        self.next(i);
        Ok(())
    }
}

/// How many of these bytes go on with a word.
fn word_len(bytes: &[u8]) -> usize
    ensures { result ≡ length (prefix is_word bytes.now) }
{
    for (len, byte) in bytes.iter().enumerate() {
        if !is_word(*byte) {
            return len;
        }
    }
    bytes.len()
}

/// Whether a byte goes on with a word.
#[inline]
fn is_word(byte: u8) -> bool
    ensures { result ≡ is_word byte }
{
    byte.is_ascii_uppercase() || byte.is_ascii_lowercase() || byte == b'_' || byte.is_ascii_digit()
}

/// Whether a character begins a word.
#[inline]
pub(crate) fn starts_word(c: char) -> bool
    ensures { result ≡ starts_word c }
{
    c.is_ascii_uppercase() || c.is_ascii_lowercase() || c == '_'
}
