//! Tests of the pending token.

ghost use Rattle.std.specs.Prelude.{◌≡◌};
ghost use Rattle.nano_ron_tokens.specs.State.{pending};
ghost use Rattle.nano_ron_tokens.specs.Token.{is_none, is_block_close, is_curly_close};
ghost use Rattle.nano_ron_tokens.specs.Token.{is_paren_close};
ghost use Rattle.nano_ron_tokens.specs.Scan.{is_paren_open, is_scalar, is_opening, is_closing};
ghost use Rattle.nano_ron_tokens.specs.Scan.{is_end};

use crate::state::DeRonState;
use crate::token::DeRonTok;

impl DeRonState {
    /// Whether the word `None` is pending.
    #[inline]
    pub fn is_none(&self) -> bool
        ensures { result ≡ is_none (pending self.now) }
    {
        match self.tok {
            DeRonTok::Ident => self.identbuf.as_str() == "None",
            _ => false,
        }
    }

    /// Whether `]` is pending.
    #[inline]
    pub fn is_block_close(&self) -> bool
        ensures { result ≡ is_block_close (pending self.now) }
    {
        match self.tok {
            DeRonTok::BlockClose => true,
            _ => false,
        }
    }

    /// Whether `}` is pending.
    #[inline]
    pub fn is_curly_close(&self) -> bool
        ensures { result ≡ is_curly_close (pending self.now) }
    {
        match self.tok {
            DeRonTok::CurlyClose => true,
            _ => false,
        }
    }

    /// Whether `)` is pending.
    #[inline]
    pub fn is_paren_close(&self) -> bool
        ensures { result ≡ is_paren_close (pending self.now) }
    {
        match self.tok {
            DeRonTok::ParenClose => true,
            _ => false,
        }
    }

    #[inline]
    pub(crate) fn is_paren_open(&self) -> bool
        ensures { result ≡ is_paren_open (pending self.now) }
    {
        match self.tok {
            DeRonTok::ParenOpen => true,
            _ => false,
        }
    }

    #[inline]
    pub(crate) fn is_scalar(&self) -> bool
        ensures { result ≡ is_scalar (pending self.now) }
    {
        match self.tok {
            DeRonTok::Ident => true,
            DeRonTok::Str => true,
            DeRonTok::U64(_value) => true,
            DeRonTok::I64(_value) => true,
            DeRonTok::F64 => true,
            DeRonTok::Bool(_value) => true,
            DeRonTok::Char(_value) => true,
            _ => false,
        }
    }

    #[inline]
    pub(crate) fn is_opening(&self) -> bool
        ensures { result ≡ is_opening (pending self.now) }
    {
        match self.tok {
            DeRonTok::BlockOpen => true,
            DeRonTok::CurlyOpen => true,
            DeRonTok::ParenOpen => true,
            _ => false,
        }
    }

    #[inline]
    pub(crate) fn is_closing(&self) -> bool
        ensures { result ≡ is_closing (pending self.now) }
    {
        match self.tok {
            DeRonTok::BlockClose => true,
            DeRonTok::CurlyClose => true,
            DeRonTok::ParenClose => true,
            _ => false,
        }
    }

    #[inline]
    pub(crate) fn is_end(&self) -> bool
        ensures { result ≡ is_end (pending self.now) }
    {
        match self.tok {
            DeRonTok::Eof => true,
            _ => false,
        }
    }
}
