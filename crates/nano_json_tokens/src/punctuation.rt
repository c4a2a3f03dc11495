//! Tests of the pending token.

ghost use Rattle.std.specs.Prelude.{◌≡◌};
ghost use Rattle.nano_json_tokens.specs.State.{pending};
ghost use Rattle.nano_json_tokens.specs.Token.{is_null, is_block_close, is_curly_close};
ghost use Rattle.nano_json_tokens.specs.Scan.{is_scalar, is_opening, is_closing, is_end};

use crate::state::DeJsonState;
use crate::token::DeJsonTok;

impl DeJsonState {
    /// Whether `null` is pending.
    #[inline]
    pub fn is_null(&self) -> bool
        ensures { result ≡ is_null (pending self.now) }
    {
        match self.tok {
            DeJsonTok::Null => true,
            _ => false,
        }
    }

    /// Whether `]` is pending.
    #[inline]
    pub fn is_block_close(&self) -> bool
        ensures { result ≡ is_block_close (pending self.now) }
    {
        match self.tok {
            DeJsonTok::BlockClose => true,
            _ => false,
        }
    }

    /// Whether `}` is pending.
    #[inline]
    pub fn is_curly_close(&self) -> bool
        ensures { result ≡ is_curly_close (pending self.now) }
    {
        match self.tok {
            DeJsonTok::CurlyClose => true,
            _ => false,
        }
    }

    #[inline]
    pub(crate) fn is_scalar(&self) -> bool
        ensures { result ≡ is_scalar (pending self.now) }
    {
        match self.tok {
            DeJsonTok::Str => true,
            DeJsonTok::U64(_value) => true,
            DeJsonTok::I64(_value) => true,
            DeJsonTok::F64 => true,
            DeJsonTok::Bool(_value) => true,
            DeJsonTok::Null => true,
            _ => false,
        }
    }

    #[inline]
    pub(crate) fn is_opening(&self) -> bool
        ensures { result ≡ is_opening (pending self.now) }
    {
        match self.tok {
            DeJsonTok::BlockOpen => true,
            DeJsonTok::CurlyOpen => true,
            _ => false,
        }
    }

    #[inline]
    pub(crate) fn is_closing(&self) -> bool
        ensures { result ≡ is_closing (pending self.now) }
    {
        match self.tok {
            DeJsonTok::BlockClose => true,
            DeJsonTok::CurlyClose => true,
            _ => false,
        }
    }

    #[inline]
    pub(crate) fn is_end(&self) -> bool
        ensures { result ≡ is_end (pending self.now) }
    {
        match self.tok {
            DeJsonTok::Eof => true,
            _ => false,
        }
    }
}
