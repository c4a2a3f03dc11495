//! What mostly stands next, which is taken with no call: a punctuator after a value, and the first
//! token of a value.

ghost use Rattle.std.specs.Prelude.{◌≡◌, ℕ, List, IfSome, Some, true, false};
ghost use Rattle.nano_text.specs.Characters.{is_space};
ghost use Rattle.nano_json_tokens.specs.Breaks.{Breaks};
ghost use Rattle.nano_json_tokens.specs.Cut.{Cut};
ghost use Rattle.nano_json_tokens.specs.Scan.{punctuator_of, Scans};
ghost use Rattle.nano_json_tokens.specs.State.{token_of};

use crate::scan::Rejection;
use crate::state::DeJsonState;
use crate::token::DeJsonTok;
use std::str::Chars;

impl DeJsonState {
    /// Takes the next token. An error leaves the pending token, and the place where the error
    /// was found.
    ///
    /// A comma, a colon or a closing brace directly follows most values and names. It
    /// is taken here, inlined, and what makes errors is inlined in the callers too. A separate
    /// function takes any other token, so no error is written where a token is taken.
    #[inline(always)]
    pub(crate) fn scan_after_value(&mut self, i: &mut Chars<'_>) -> Result<(), Rejection>
        ensures { Scans Cut Breaks self.old i.old self.new i.new result }
    {
        if let Some(tok) = separator(self.cur) {
            self.next(i);
            self.tok = tok;
            return Ok(());
        }
        self.scan_token(i)
    }

    /// Takes the next token. An error leaves the pending token, and the place where the error
    /// was found.
    ///
    /// A number, a string or a struct directly follows most colons, and most commas of a list.
    /// Its first token is taken here, inlined. A separate function takes any other token.
    #[inline(always)]
    pub(crate) fn scan_value(&mut self, i: &mut Chars<'_>) -> Result<(), Rejection>
        ensures { Scans Cut Breaks self.old i.old self.new i.new result }
    {
        if starts_value(self.cur) {
            return self.take_lexeme(i);
        }
        self.scan_token(i)
    }
}

/// The punctuator that a character is, if it is one that follows a value or a name.
#[inline(always)]
fn separator(c: char) -> Option<DeJsonTok>
    ensures { IfSome result (λ t. (strbuf numbuf : List ℕ)
        → punctuator_of c ≡ Some (token_of t strbuf numbuf)) }
{
    match c {
        ',' => Some(DeJsonTok::Comma),
        ':' => Some(DeJsonTok::Colon),
        '}' => Some(DeJsonTok::CurlyClose),
        _ => None,
    }
}

/// Whether a number, a string or a struct mostly begins with the character.
#[inline(always)]
fn starts_value(c: char) -> bool
    ensures { result ≡ true → is_space c ≡ false }
{
    c.is_ascii_digit() || c == '"' || c == '{'
}
