//! What a token is for its neighbours.

ghost use Rattle.std.specs.Prelude.{◌≡◌, ℕ, List};
ghost use Rattle.nano_json_tokens.specs.State.{token_of};
ghost use Rattle.nano_json_indent.specs.Layout.{kind, level_after};

use nano_json_tokens::DeJsonTok;

/// What a token is for those beside it.
#[derive(Clone, Copy)]
pub(crate) enum Kind {
    /// None: the start of the text.
    Start,
    /// An opening bracket or brace.
    Opening,
    /// A closing bracket or brace.
    Closing,
    /// A comma.
    Comma,
    /// A colon.
    Colon,
    /// A string, a number or a word.
    Scalar,
}

impl Kind {
    /// The kind of a token.
    pub(crate) fn of(tok: &DeJsonTok) -> Kind
        ensures { (strbuf numbuf : List ℕ) → result ≡ kind (token_of tok.now strbuf numbuf) }
    {
        match tok {
            DeJsonTok::BlockOpen | DeJsonTok::CurlyOpen => Kind::Opening,
            DeJsonTok::BlockClose | DeJsonTok::CurlyClose => Kind::Closing,
            DeJsonTok::Comma => Kind::Comma,
            DeJsonTok::Colon => Kind::Colon,
            _ => Kind::Scalar,
        }
    }

    /// The level after a token of this kind, from that before it.
    pub(crate) fn level_after(self, level: usize) -> usize
        ensures { result ≡ level_after level self }
    {
        match self {
            Kind::Opening => level.saturating_add(1),
            Kind::Closing => level.saturating_sub(1),
            _ => level,
        }
    }
}
