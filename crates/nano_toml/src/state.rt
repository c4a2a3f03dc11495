//! The place in a text, and the steps to the next character and to the next token.

ghost use Rattle.std.specs.Prelude.{◌≡◌, ◌≢◌, ℕ, Bool, List, [], ◌∷◌, ◌<◌, ◌==◌, ◌-◌, ◌⊎◌, Some};
ghost use Rattle.std.specs.Prelude.{true, false, chars, length, IfOk, IfErr, option_map, not};
ghost use Rattle.std.specs.Prelude.{if◌then◌else◌};
ghost use Rattle.nano_toml.specs.Characters.{is_space, is_line_feed, IsByteTest};
ghost use Rattle.nano_toml.specs.Cut.{punctuator_token, Cut, CutsNothing};
ghost use Rattle.nano_toml.specs.Place.{remaining, remaining_text, taken_count};
ghost use Rattle.nano_toml.specs.Outcomes.{OnFault};
ghost use Rattle.nano_toml.specs.Scan.{after_gaps, tail};
ghost use Rattle.nano_toml.specs.Token.{begins, following, Token};
ghost use Rattle.nano_toml.specs.Stops.{Breaks};
ghost use Rattle.nano_toml.specs.Reading.{a_token, token_of, Took};
ghost use Rattle.nano_toml.specs.declared.fault.Fault.TheVariants.{Memory};

use crate::fault::{Fault, Lexeme};
use crate::numbers::starts_number;
use crate::runs::{is_in_line, is_remaining};
use crate::token::TomlTok;
use crate::words::{starts_word, word_token};
use std::alloc::Global;
use std::str::Chars;

/// A text as far as it was taken: what is left of it, which goes up to its end or to a NUL.
#[derive(Drop)]
pub(crate) struct Cursor<'a> {
    pub(crate) rest: Chars<'a>,
}

fn is_space(c: u8) -> bool
    ensures { result ≡ is_space c }
{
    c == b'\n' || c == b'\r' || c == b'\t' || c == b' '
}

/// The token of one character, if it is one.
fn punctuator(c: u8) -> Option<TomlTok>
    ensures { option_map (λ t. token_of t) result
        ≡ option_map (λ t. a_token t) (punctuator_token c) }
{
    match c {
        b',' => Some(TomlTok::Comma),
        b'[' => Some(TomlTok::BlockOpen),
        b']' => Some(TomlTok::BlockClose),
        b'=' => Some(TomlTok::Equals),
        _ => None,
    }
}

impl<'a> Cursor<'a> {
    /// The start of a text.
    pub(crate) fn new(input: &'a str) -> Cursor<'a>
        ensures { remaining result ≡ remaining_text input.now }
    {
        Cursor {
            rest: input.chars(),
        }
    }

    /// A cursor at the same place.
    pub(crate) fn again(&self) -> Cursor<'a>
        ensures { remaining result ≡ remaining self.now }
    {
        Cursor {
            rest: self.rest.as_str().chars(),
        }
    }

    /// The first byte of what is left, or 0 at its end: a test of bytes can be made of it in place
    /// of the character.
    pub(crate) fn first(&self) -> u8
        ensures end { result ≡ 0 → remaining self.now ≡ [] }
        ensures test { (p : ℕ → Bool) → IsByteTest p → begins p (remaining self.now) ≡ p result }
    {
        match self.rest.as_str().as_bytes().first() {
            Some(byte) => *byte,
            None => 0,
        }
    }

    /// Takes one character, and answers it, or NUL at the end. A NUL ends the text: it isn't taken.
    pub(crate) fn next(&mut self) -> char
        ensures taken { result ≢ 0 → remaining self.old ≡ result ∷ remaining self.new }
        ensures end { result ≡ 0 → remaining self.old ≡ [] }
        ensures unchanged { result ≡ 0 → remaining self.new ≡ [] }
    {
        let mut ahead = self.rest.as_str().chars();
        match ahead.next() {
            Some(c) => {
                if c != '\0' {
                    self.rest = ahead;
                }
                c
            }
            None => '\0',
        }
    }

    /// How many characters remain.
    fn remaining(&self) -> usize
        ensures { result ≡ length (remaining self.now) }
    {
        let mut ahead = self.again();
        // the proof takes from this call that the rest is UTF-8
        let _held = ahead.rest.as_str();
        ahead.take_while(is_remaining).chars().count()
    }

    /// How many characters of the text were taken, the one that stands here among them.
    pub(crate) fn taken(&self, text: &str) -> usize
        ensures { result ≡ taken_count text.now (remaining self.now) }
    {
        let before = Cursor::new(text)
            .remaining()
            .saturating_sub(self.remaining());
        let all = text.chars().count();
        let after = all.saturating_sub(before).saturating_sub(1);
        all.saturating_sub(after)
    }

    /// Takes this character of ASCII, if it stands here, and answers whether it does.
    pub(crate) fn take(&mut self, wanted: u8) -> bool
        requires some { wanted ≢ 0 }
        requires ascii { wanted < 128 }
        ensures found { result ≡ begins (λ c. c == wanted) (remaining self.old) }
        ensures rest { remaining self.new
            ≡ (if result then tail (remaining self.old) else remaining self.old) }
    {
        let found = self.first() == wanted;
        if found {
            self.next();
        }
        found
    }

    /// Takes what stands before the next line feed.
    fn skip_line(&mut self)
        ensures { remaining self.new ≡ following (λ c. not (is_line_feed c)) (remaining self.old) }
    {
        self.take_while(is_in_line);
    }

    /// Takes white space and comments.
    pub(crate) fn skip(&mut self)
        ensures { remaining self.new ≡ after_gaps false (remaining self.old) }
    {
        'gaps: loop {
            let first = self.first();
            if first == b'#' {
                self.skip_line();
            } else if is_space(first) {
                self.next();
            } else {
                return;
            }
        }
    }

    /// Takes what is skipped and this bracket or equals sign after it, if it is there, and returns
    /// whether it is. If not, nothing is taken.
    pub(crate) fn next_separator(&mut self, wanted: u8) -> bool
        requires { (wanted ≡ 91) ⊎ ((wanted ≡ 93) ⊎ (wanted ≡ 61)) }
        ensures cut { result ≡ true → (token : Token) → punctuator_token wanted ≡ Some token
            → Cut (remaining self.old) token (remaining self.new) }
        ensures none { result ≡ false → remaining self.new ≡ remaining self.old }
        ensures no_separator { result ≡ false → (token : Token)
            → punctuator_token wanted ≡ Some token
            → (rest : List ℕ) → Cut (remaining self.old) token rest → ⊥ }
    {
        let mut ahead = self.again();
        ahead.skip();
        let found = ahead.take(wanted);
        if found {
            self.rest = ahead.rest;
        }
        found
    }

    /// Cuts one token, or the end of the text.
    pub(crate) fn next_tok(&mut self, alloc: Global) -> Result<TomlTok, Fault>
        ensures cut { IfOk result
            (λ t. Took (remaining self.old) (token_of t) (remaining self.new)) }
        ensures rejected { OnFault result (CutsNothing (remaining self.old)) }
        ensures broken { IfErr result
            (λ e. e ≢ Memory → Breaks e (remaining self.old) (remaining self.new)) }
    {
        self.skip();
        let first = self.first();
        if starts_word(first) {
            return Ok(word_token(alloc, self.read_word())?);
        }
        if starts_number(first) {
            return self.read_number(alloc);
        }
        if first == b'"' {
            self.next();
            return Ok(TomlTok::Str(self.read_string(alloc)?));
        }
        if first == 0 {
            return Ok(TomlTok::Eof);
        }
        match punctuator(first) {
            Some(token) => {
                self.next();
                Ok(token)
            }
            None => Err(Fault::Malformed(Lexeme::Character)),
        }
    }
}
