//! How a reader's state takes the next token: a gap, and one lexeme.

ghost use Rattle.std.specs.Prelude.{◌≡◌, ℕ, List, MatchResult, OnErr, IfSome, Some, false};
ghost use Rattle.std.specs.Option.{option_map};
ghost use Rattle.nano_text.specs.Characters.{first_is};
ghost use Rattle.nano_text.specs.Place.{remaining};
ghost use Rattle.nano_grammar.specs.Outcomes.{NothingCut};
ghost use Rattle.nano_text.specs.Breaks.{BreaksNumber, BreaksString};
ghost use Rattle.nano_ron_tokens.specs.Breaks.{Breaks, BreaksLexeme, BreaksSingle};
ghost use Rattle.nano_ron_tokens.specs.Cut.{starts_number, Cut, IsLexeme, IsRunOf, IsQuoted};
ghost use Rattle.nano_ron_tokens.specs.Cut.{IsCharacter};
ghost use Rattle.nano_ron_tokens.specs.Outcomes.{Moved};
ghost use Rattle.nano_ron_tokens.specs.Scan.{starts_gap, punctuator_of, Scans};
ghost use Rattle.nano_ron_tokens.specs.State.{token_of, pending, KeepsOtherBuffers};

use crate::state::DeRonState;
use crate::token::DeRonTok;
use crate::words::starts_word;
use nano_text::{Fault, Number, read_number, read_string};
use std::str::Chars;

/// Why no token was taken. The message is made where the error is reported to the caller, so
/// that what reads many tokens returns one byte.
#[derive(Clone, Copy)]
pub(crate) enum Rejection {
    /// The character starts no token.
    NoToken,
    /// A number run that is not good.
    Number,
    /// A string that has no end, or a bad escape.
    String,
    /// A `/` that begins no comment.
    Comment,
    /// A character between apostrophes that is none.
    Character,
    /// The end of the text inside a skipped field.
    Field,
    /// An allocation failed.
    Memory,
}

impl DeRonState {
    /// Takes the next token. An error leaves the pending token, and the place where it was
    /// found.
    ///
    /// After most values and names a comma, a colon or a closing parenthesis follows at once.
    /// It is taken here, inlined, and what makes errors is inlined in the callers too. Any
    /// other token is taken by one separate function, so that no error is written where a token
    /// is taken.
    #[inline(always)]
    pub(crate) fn scan_after_value(&mut self, i: &mut Chars<'_>) -> Result<(), Rejection>
        ensures { Scans Cut Breaks self.old i.old self.new i.new result }
    {
        if let Some(tok) = separator(self.cur) {
            self.next(i);
            self.tok = tok;
            return Ok(());
        }
        self.scan_token(i)
    }

    /// Takes the next token, whatever it is.
    #[inline(never)]
    pub(crate) fn scan_token(&mut self, i: &mut Chars<'_>) -> Result<(), Rejection>
        ensures { Scans Cut Breaks self.old i.old self.new i.new result }
    {
        if !self.skip_gaps(i) {
            return Err(Rejection::Comment);
        }
        self.take_lexeme(i)
    }

    /// Takes the token that begins here, where no gap stands.
    fn take_lexeme(&mut self, i: &mut Chars<'_>) -> Result<(), Rejection>
        requires { first_is starts_gap (remaining self.old.cur i.old) ≡ false }
        ensures { Scans (λ text token rest. IsLexeme token text rest) BreaksLexeme
            self.old i.old self.new i.new result }
    {
        if let Some(tok) = punctuator(self.cur) {
            self.next(i);
            self.tok = tok;
            return Ok(());
        }
        if starts_number(self.cur) {
            return self.take_number(i);
        }
        if self.cur == '"' {
            return self.take_string(i);
        }
        if self.cur == '\'' {
            return self.take_character(i);
        }
        if starts_word(self.cur) {
            return self.take_word(i);
        }
        if self.cur == '\0' {
            self.tok = DeRonTok::Eof;
            return Ok(());
        }
        Err(Rejection::NoToken)
    }

    /// Takes the number that begins here.
    fn take_number(&mut self, i: &mut Chars<'_>) -> Result<(), Rejection>
        ensures { Scans (λ text token rest. IsRunOf token text rest) BreaksNumber
            self.old i.old self.new i.new result }
    {
        let mut place = self.place();
        let read = read_number(&mut place, i, &mut self.numbuf);
        self.stand_at(place);
        match read {
            Ok(number) => {
                self.tok = match number {
                    Number::U64(value) => DeRonTok::U64(value),
                    Number::I64(value) => DeRonTok::I64(value),
                    Number::Dec => DeRonTok::F64,
                };
                Ok(())
            }
            Err(fault) => match fault {
                Fault::Malformed => Err(Rejection::Number),
                Fault::Memory => Err(Rejection::Memory),
            },
        }
    }

    /// Takes the string that begins here.
    fn take_string(&mut self, i: &mut Chars<'_>) -> Result<(), Rejection>
        ensures { Scans (λ text token rest. IsQuoted token text rest) BreaksString
            self.old i.old self.new i.new result }
    {
        let mut place = self.place();
        let read = read_string(&mut place, i, &mut self.strbuf);
        self.stand_at(place);
        match read {
            Ok(()) => {
                self.tok = DeRonTok::Str;
                Ok(())
            }
            Err(fault) => match fault {
                Fault::Malformed => Err(Rejection::String),
                Fault::Memory => Err(Rejection::Memory),
            },
        }
    }

    /// Takes the character between apostrophes that begins here.
    fn take_character(&mut self, i: &mut Chars<'_>) -> Result<(), Rejection>
        requires { self.old.cur ≡ 39 }
        ensures taken { MatchResult result
            (λ _. IsCharacter (pending self.new) (remaining self.old.cur i.old)
            (remaining self.new.cur i.new) × KeepsOtherBuffers self.old self.new)
            (λ r. (r ≡ Rejection.Character)
            × NothingCut (λ text token rest. IsCharacter token text rest)
            (remaining self.old.cur i.old)) }
        ensures broken { OnErr result (BreaksSingle (remaining self.old.cur i.old)
            (remaining self.new.cur i.new)) }
        ensures place { Moved self.old i.old self.new i.new }
    {
        self.next(i);
        if self.cur == '\\' {
            self.next(i);
        }
        let c = self.cur;
        if c == '\0' {
            return Err(Rejection::Character);
        }
        self.next(i);
        if self.cur != '\'' {
            return Err(Rejection::Character);
        }
        self.next(i);
        self.tok = DeRonTok::Char(c);
        Ok(())
    }
}

#[inline]
fn starts_number(c: char) -> bool
    ensures { result ≡ starts_number c }
{
    c == '+' || c == '-' || c.is_ascii_digit() || c == '.'
}

/// The punctuator that a character is, if it is one that follows a value or a name.
#[inline(always)]
fn separator(c: char) -> Option<DeRonTok>
    ensures { IfSome result (λ t. (strbuf numbuf identbuf : List ℕ)
        → punctuator_of c ≡ Some (token_of t strbuf numbuf identbuf)) }
{
    match c {
        ',' => Some(DeRonTok::Comma),
        ':' => Some(DeRonTok::Colon),
        ')' => Some(DeRonTok::ParenClose),
        _ => None,
    }
}

/// The punctuator that a character is.
#[inline]
fn punctuator(c: char) -> Option<DeRonTok>
    ensures { (strbuf numbuf identbuf : List ℕ)
        → option_map (λ t. token_of t strbuf numbuf identbuf) result ≡ punctuator_of c }
{
    match c {
        ':' => Some(DeRonTok::Colon),
        ',' => Some(DeRonTok::Comma),
        '[' => Some(DeRonTok::BlockOpen),
        ']' => Some(DeRonTok::BlockClose),
        '(' => Some(DeRonTok::ParenOpen),
        ')' => Some(DeRonTok::ParenClose),
        '{' => Some(DeRonTok::CurlyOpen),
        '}' => Some(DeRonTok::CurlyClose),
        _ => None,
    }
}
