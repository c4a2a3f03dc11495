//! How a reader's state takes the next token: white space, and one lexeme.

ghost use Rattle.std.specs.Prelude.{◌≡◌, ◌≢◌, ℕ, List, None, false};
ghost use Rattle.std.specs.Option.{option_map};
ghost use Rattle.nano_text.specs.Breaks.{BreaksNumber, BreaksString};
ghost use Rattle.nano_json_tokens.specs.Breaks.{Breaks, BreaksLexeme};
ghost use Rattle.nano_json_tokens.specs.Cut.{starts_number, Cut, IsLexeme, IsRunOf};
ghost use Rattle.nano_json_tokens.specs.Cut.{IsQuoted};
ghost use Rattle.nano_json_tokens.specs.Scan.{punctuator_of, Scans, PassedSpace};
ghost use Rattle.nano_json_tokens.specs.State.{token_of};

use crate::state::DeJsonState;
use crate::token::DeJsonTok;
use crate::words::is_word;
use nano_text::{Fault, Number, is_space, read_number, read_string};
use std::str::Chars;

/// Why no token was taken. The message is made where the error is reported to the caller, so
/// code that reads many tokens returns one byte.
#[derive(Clone, Copy)]
pub(crate) enum Rejection {
    /// The character starts no token.
    NoToken,
    /// The word in `identbuf` is no token.
    Word,
    /// A number run that is not good.
    Number,
    /// A string that has no end, or a bad escape.
    String,
    /// The end of the text inside a skipped field.
    Field,
    /// Allocation failed.
    Memory,
}

impl DeJsonState {
    /// Takes the next token, whatever it is. An error leaves the pending token, and the place where
    /// the error was found.
    #[inline(never)]
    pub(crate) fn scan_token(&mut self, i: &mut Chars<'_>) -> Result<(), Rejection>
        ensures { Scans Cut Breaks self.old i.old self.new i.new result }
    {
        self.pass_space(i);
        self.take_lexeme(i)
    }

    /// Passes over white space, of which most texts have none here.
    #[inline(always)]
    pub(crate) fn skip_space(&mut self, i: &mut Chars<'_>)
        ensures { PassedSpace self.old i.old self.new i.new }
    {
        if is_space(self.cur) {
            self.skip_spaces(i);
        }
    }

    /// Passes over white space, in a function of its own.
    #[inline(never)]
    fn skip_spaces(&mut self, i: &mut Chars<'_>)
        ensures { PassedSpace self.old i.old self.new i.new }
    {
        self.pass_space(i);
    }

    /// Passes over white space, of which most tokens have some in a text of many lines.
    #[inline(always)]
    fn pass_space(&mut self, i: &mut Chars<'_>)
        ensures { PassedSpace self.old i.old self.new i.new }
    {
        let mut place = self.place();
        place.skip_space(i);
        self.stand_at(place);
    }

    /// Takes the token that begins here, where no white space stands. Most are a number, a
    /// string or a punctuator; it may be another.
    #[inline(always)]
    pub(crate) fn take_lexeme(&mut self, i: &mut Chars<'_>) -> Result<(), Rejection>
        ensures { Scans (λ text token rest. IsLexeme token text rest) BreaksLexeme
            self.old i.old self.new i.new result }
    {
        if starts_number(self.cur) {
            return self.take_number(i);
        }
        if self.cur == '"' {
            return self.take_string(i);
        }
        if let Some(tok) = punctuator(self.cur) {
            self.next(i);
            self.tok = tok;
            return Ok(());
        }
        self.take_other(i)
    }

    /// Takes the word that begins here, or the end.
    #[inline(never)]
    fn take_other(&mut self, i: &mut Chars<'_>) -> Result<(), Rejection>
        requires no_number { starts_number self.old.cur ≡ false }
        requires no_string { self.old.cur ≢ 34 }
        requires no_punctuator { punctuator_of self.old.cur ≡ None }
        ensures { Scans (λ text token rest. IsLexeme token text rest) BreaksLexeme
            self.old i.old self.new i.new result }
    {
        if is_word(self.cur) {
            return self.take_word(i);
        }
        if self.cur == '\0' {
            self.tok = DeJsonTok::Eof;
            return Ok(());
        }
        Err(Rejection::NoToken)
    }

    /// Takes the number that begins here.
    #[inline(always)]
    fn take_number(&mut self, i: &mut Chars<'_>) -> Result<(), Rejection>
        ensures { Scans (λ text token rest. IsRunOf token text rest) BreaksNumber
            self.old i.old self.new i.new result }
    {
        let mut place = self.place();
        let read = read_number(&mut place, i, &mut self.numbuf);
        self.stand_at(place);
        match read {
            Ok(number) => {
                self.tok = match number {
                    Number::U64(value) => DeJsonTok::U64(value),
                    Number::I64(value) => DeJsonTok::I64(value),
                    Number::Dec => DeJsonTok::F64,
                };
                Ok(())
            }
            Err(fault) => match fault {
                Fault::Malformed => Err(Rejection::Number),
                Fault::Memory => Err(Rejection::Memory),
            },
        }
    }

    /// Takes the string that begins here.
    #[inline(never)]
    fn take_string(&mut self, i: &mut Chars<'_>) -> Result<(), Rejection>
        ensures { Scans (λ text token rest. IsQuoted token text rest) BreaksString
            self.old i.old self.new i.new result }
    {
        let mut place = self.place();
        let read = read_string(&mut place, i, &mut self.strbuf);
        self.stand_at(place);
        match read {
            Ok(()) => {
                self.tok = DeJsonTok::Str;
                Ok(())
            }
            Err(fault) => match fault {
                Fault::Malformed => Err(Rejection::String),
                Fault::Memory => Err(Rejection::Memory),
            },
        }
    }
}

#[inline]
pub(crate) fn starts_number(c: char) -> bool
    ensures { result ≡ starts_number c }
{
    c.is_ascii_digit() || c == '-' || c == '+'
}

/// The punctuator that a character is.
#[inline]
fn punctuator(c: char) -> Option<DeJsonTok>
    ensures { (strbuf numbuf : List ℕ)
        → option_map (λ t. token_of t strbuf numbuf) result ≡ punctuator_of c }
{
    match c {
        ':' => Some(DeJsonTok::Colon),
        ',' => Some(DeJsonTok::Comma),
        '[' => Some(DeJsonTok::BlockOpen),
        ']' => Some(DeJsonTok::BlockClose),
        '{' => Some(DeJsonTok::CurlyOpen),
        '}' => Some(DeJsonTok::CurlyClose),
        _ => None,
    }
}
