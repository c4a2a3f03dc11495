//! The calls of a reader's state that take the pending token.

ghost use Rattle.nano_json_tokens.specs.Outcomes.{TakesOne, TakesString, TakesComma, TakesColon};
ghost use Rattle.nano_json_tokens.specs.Token.{colon, block_open, block_close, curly_open};
ghost use Rattle.nano_json_tokens.specs.Token.{curly_close};

use crate::error::DeJsonErr;
use crate::state::DeJsonState;
use crate::token::DeJsonTok;
use std::alloc::Global;
use std::str::Chars;

/// The calls that take the pending token. If another token is pending, they reject it, and the
/// token and its text are unchanged. If they fail while they take the next token, the state is
/// at the end of the text. In any case line and column count the characters that were taken.
impl DeJsonState {
    /// Takes the next token where a colon is pending.
    #[inline(always)]
    pub fn colon(&mut self, alloc: Global, i: &mut Chars<'_>) -> Result<(), DeJsonErr>
        ensures { TakesOne self.old i.old self.new i.new colon result }
    {
        match self.tok {
            DeJsonTok::Colon => self.scan_value_token(alloc, i),
            _ => Err(self.err_token(alloc, ":")),
        }
    }

    /// Takes the next token where a string is pending.
    pub fn string(&mut self, alloc: Global, i: &mut Chars<'_>) -> Result<(), DeJsonErr>
        ensures { TakesString self.old i.old self.new i.new result }
    {
        match self.tok {
            DeJsonTok::Str => self.next_tok(alloc, i),
            _ => Err(self.err_token(alloc, "String")),
        }
    }

    /// Takes the next token where `[` is pending.
    #[inline]
    pub fn block_open(&mut self, alloc: Global, i: &mut Chars<'_>) -> Result<(), DeJsonErr>
        ensures { TakesOne self.old i.old self.new i.new block_open result }
    {
        match self.tok {
            DeJsonTok::BlockOpen => self.scan_other_token(alloc, i),
            _ => Err(self.err_token(alloc, "[")),
        }
    }

    /// Takes the next token where `]` is pending.
    #[inline]
    pub fn block_close(&mut self, alloc: Global, i: &mut Chars<'_>) -> Result<(), DeJsonErr>
        ensures { TakesOne self.old i.old self.new i.new block_close result }
    {
        match self.tok {
            DeJsonTok::BlockClose => self.next_tok(alloc, i),
            _ => Err(self.err_token(alloc, "]")),
        }
    }

    /// Takes the next token where `{` is pending.
    #[inline]
    pub fn curly_open(&mut self, alloc: Global, i: &mut Chars<'_>) -> Result<(), DeJsonErr>
        ensures { TakesOne self.old i.old self.new i.new curly_open result }
    {
        match self.tok {
            DeJsonTok::CurlyOpen => self.scan_other_token(alloc, i),
            _ => Err(self.err_token(alloc, "{")),
        }
    }

    /// Takes the next token where `}` is pending.
    #[inline(always)]
    pub fn curly_close(&mut self, alloc: Global, i: &mut Chars<'_>) -> Result<(), DeJsonErr>
        ensures { TakesOne self.old i.old self.new i.new curly_close result }
    {
        match self.tok {
            DeJsonTok::CurlyClose => self.next_tok(alloc, i),
            _ => Err(self.err_token(alloc, "}")),
        }
    }

    /// Takes the next token where a comma is pending, and nothing where `]` is.
    #[inline(always)]
    pub fn eat_comma_block(&mut self, alloc: Global, i: &mut Chars<'_>) -> Result<(), DeJsonErr>
        ensures { TakesComma self.old i.old self.new i.new block_close result }
    {
        match self.tok {
            DeJsonTok::Comma => self.scan_value_token(alloc, i),
            DeJsonTok::BlockClose => Ok(()),
            _ => Err(self.err_token(alloc, ", or ]")),
        }
    }

    /// Takes the next token where a comma is pending, and nothing where `}` is.
    #[inline]
    pub fn eat_comma_curly(&mut self, alloc: Global, i: &mut Chars<'_>) -> Result<(), DeJsonErr>
        ensures { TakesComma self.old i.old self.new i.new curly_close result }
    {
        match self.tok {
            DeJsonTok::Comma => self.scan_other_token(alloc, i),
            DeJsonTok::CurlyClose => Ok(()),
            _ => Err(self.err_token(alloc, ", or }")),
        }
    }

    /// Takes a colon, which comes after the pending token, and the token after it.
    ///
    /// If a token other than a colon comes, it is taken and remains pending, with its text, even
    /// if allocation of the message fails. Any other error leaves the state at the end of the
    /// text.
    pub fn next_colon(&mut self, alloc: Global, i: &mut Chars<'_>) -> Result<(), DeJsonErr>
        ensures { TakesColon self.old i.old self.new i.new result }
    {
        self.next_tok(alloc, i)?;
        self.colon(alloc, i)
    }
}
