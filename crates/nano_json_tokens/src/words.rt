//! How a reader's state takes a word: `true`, `false` or `null`.

ghost use Rattle.std.specs.Prelude.{◌≡◌, MatchResult, Some, string_bytes};
ghost use Rattle.nano_text.specs.Characters.{prefix};
ghost use Rattle.nano_text.specs.Place.{remaining};
ghost use Rattle.nano_json_tokens.specs.Cut.{is_word};
ghost use Rattle.nano_json_tokens.specs.Scan.{word_token, FoundWord, NotWord, NoCapacityForWord};
ghost use Rattle.nano_json_tokens.specs.State.{pending};

use crate::scan::Rejection;
use crate::state::DeJsonState;
use crate::token::DeJsonTok;
use std::alloc::AllocError;
use std::str::Chars;

impl DeJsonState {
    /// Takes the word that begins here.
    pub(crate) fn take_word(&mut self, i: &mut Chars<'_>) -> Result<(), Rejection>
        ensures word { MatchResult result
            (λ _. FoundWord self.old i.old self.new i.new
            (word_token (prefix is_word (remaining self.old.cur i.old)) ≡ Some (pending self.new)))
            (NotWord self.old i.old self.new i.new) }
        ensures others { (self.new.strbuf ≡ self.old.strbuf) × (self.new.numbuf ≡ self.old.numbuf) }
    {
        if self.gather_word(i).is_err() {
            return Err(Rejection::Memory);
        }
        let word = self.identbuf.as_str();
        if word == "true" {
            self.tok = DeJsonTok::Bool(true);
            return Ok(());
        }
        if word == "false" {
            self.tok = DeJsonTok::Bool(false);
            return Ok(());
        }
        if word == "null" {
            self.tok = DeJsonTok::Null;
            return Ok(());
        }
        Err(Rejection::Word)
    }

    /// Gathers the word that begins here in `identbuf`.
    fn gather_word(&mut self, i: &mut Chars<'_>) -> Result<(), AllocError>
        ensures word { MatchResult result
            (λ _. FoundWord self.old i.old self.new i.new
            (string_bytes self.new.identbuf ≡ prefix is_word (remaining self.old.cur i.old)))
            (λ _. NoCapacityForWord self.old i.old self.new i.new) }
        ensures others { (self.new.strbuf ≡ self.old.strbuf) × (self.new.numbuf ≡ self.old.numbuf) }
    {
        self.identbuf.clear();
        'word: while is_word(self.cur) {
            self.identbuf.push(self.cur)?;
            self.next(i);
        }
        Ok(())
    }
}

/// Whether a word may hold the character.
#[inline]
pub(crate) fn is_word(c: char) -> bool
    ensures { result ≡ is_word c }
{
    c.is_ascii_uppercase() || c.is_ascii_lowercase() || c == '_'
}
