//! The calls of a reader's state that take the pending token.

ghost use Rattle.nano_ron_tokens.specs.Outcomes.{TakesOne, TakesIdent, TakesComma, TakesColon};
ghost use Rattle.nano_ron_tokens.specs.Token.{colon, block_open, block_close, curly_open};
ghost use Rattle.nano_ron_tokens.specs.Token.{curly_close, paren_open, paren_close};

use crate::error::DeRonErr;
use crate::state::DeRonState;
use crate::token::DeRonTok;
use std::alloc::Global;
use std::str::Chars;

/// The calls that take the pending token. If another token is pending, they fail, and the token
/// is unchanged, with its text. If they fail while they take the next token, the state is at
/// the end of the text. In any case line and column count the characters that were taken.
impl DeRonState {
    /// Takes the next token where a colon is pending.
    #[inline]
    pub fn colon(&mut self, alloc: Global, i: &mut Chars<'_>) -> Result<(), DeRonErr>
        ensures { TakesOne self.old i.old self.new i.new colon result }
    {
        match self.tok {
            DeRonTok::Colon => self.scan_value_token(alloc, i),
            _ => Err(self.err_token(alloc, ":")),
        }
    }

    /// Takes the next token where a word is pending.
    pub fn ident(&mut self, alloc: Global, i: &mut Chars<'_>) -> Result<(), DeRonErr>
        ensures { TakesIdent self.old i.old self.new i.new result }
    {
        match self.tok {
            DeRonTok::Ident => self.next_tok(alloc, i),
            _ => Err(self.err_token(alloc, "Identifier")),
        }
    }

    /// Takes the next token where `[` is pending.
    #[inline]
    pub fn block_open(&mut self, alloc: Global, i: &mut Chars<'_>) -> Result<(), DeRonErr>
        ensures { TakesOne self.old i.old self.new i.new block_open result }
    {
        match self.tok {
            DeRonTok::BlockOpen => self.scan_value_token(alloc, i),
            _ => Err(self.err_token(alloc, "[")),
        }
    }

    /// Takes the next token where `]` is pending.
    #[inline]
    pub fn block_close(&mut self, alloc: Global, i: &mut Chars<'_>) -> Result<(), DeRonErr>
        ensures { TakesOne self.old i.old self.new i.new block_close result }
    {
        match self.tok {
            DeRonTok::BlockClose => self.next_tok(alloc, i),
            _ => Err(self.err_token(alloc, "]")),
        }
    }

    /// Takes the next token where `{` is pending.
    #[inline]
    pub fn curly_open(&mut self, alloc: Global, i: &mut Chars<'_>) -> Result<(), DeRonErr>
        ensures { TakesOne self.old i.old self.new i.new curly_open result }
    {
        match self.tok {
            DeRonTok::CurlyOpen => self.scan_value_token(alloc, i),
            _ => Err(self.err_token(alloc, "{")),
        }
    }

    /// Takes the next token where `}` is pending.
    #[inline]
    pub fn curly_close(&mut self, alloc: Global, i: &mut Chars<'_>) -> Result<(), DeRonErr>
        ensures { TakesOne self.old i.old self.new i.new curly_close result }
    {
        match self.tok {
            DeRonTok::CurlyClose => self.next_tok(alloc, i),
            _ => Err(self.err_token(alloc, "}")),
        }
    }

    /// Takes the next token where `(` is pending.
    #[inline]
    pub fn paren_open(&mut self, alloc: Global, i: &mut Chars<'_>) -> Result<(), DeRonErr>
        ensures { TakesOne self.old i.old self.new i.new paren_open result }
    {
        match self.tok {
            DeRonTok::ParenOpen => self.scan_value_token(alloc, i),
            _ => Err(self.err_token(alloc, "(")),
        }
    }

    /// Takes the next token where `)` is pending.
    #[inline]
    pub fn paren_close(&mut self, alloc: Global, i: &mut Chars<'_>) -> Result<(), DeRonErr>
        ensures { TakesOne self.old i.old self.new i.new paren_close result }
    {
        match self.tok {
            DeRonTok::ParenClose => self.next_tok(alloc, i),
            _ => Err(self.err_token(alloc, ")")),
        }
    }

    /// Takes the next token where a comma is pending, and nothing where `]` is.
    #[inline]
    pub fn eat_comma_block(&mut self, alloc: Global, i: &mut Chars<'_>) -> Result<(), DeRonErr>
        ensures { TakesComma self.old i.old self.new i.new block_close result }
    {
        match self.tok {
            DeRonTok::Comma => self.scan_value_token(alloc, i),
            DeRonTok::BlockClose => Ok(()),
            _ => Err(self.err_token(alloc, ", or ]")),
        }
    }

    /// Takes the next token where a comma is pending, and nothing where `}` is.
    #[inline]
    pub fn eat_comma_curly(&mut self, alloc: Global, i: &mut Chars<'_>) -> Result<(), DeRonErr>
        ensures { TakesComma self.old i.old self.new i.new curly_close result }
    {
        match self.tok {
            DeRonTok::Comma => self.scan_value_token(alloc, i),
            DeRonTok::CurlyClose => Ok(()),
            _ => Err(self.err_token(alloc, ", or }")),
        }
    }

    /// Takes the next token where a comma is pending, and nothing where `)` is.
    #[inline]
    pub fn eat_comma_paren(&mut self, alloc: Global, i: &mut Chars<'_>) -> Result<(), DeRonErr>
        ensures { TakesComma self.old i.old self.new i.new paren_close result }
    {
        match self.tok {
            DeRonTok::Comma => self.scan_value_token(alloc, i),
            DeRonTok::ParenClose => Ok(()),
            _ => Err(self.err_token(alloc, ", or )")),
        }
    }

    /// Takes a colon, which comes after the pending token, and the token after it.
    ///
    /// If a token other than a colon comes, it is taken and remains pending, with its text,
    /// also if there is no memory for the message. Any other error leaves the state at the end
    /// of the text.
    pub fn next_colon(&mut self, alloc: Global, i: &mut Chars<'_>) -> Result<(), DeRonErr>
        ensures { TakesColon self.old i.old self.new i.new result }
    {
        self.next_tok(alloc, i)?;
        self.colon(alloc, i)
    }
}
