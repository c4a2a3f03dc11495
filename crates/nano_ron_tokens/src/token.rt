//! The tokens of RON.

/// A token of RON. Its text, if it has one, stands in a buffer of the state.
#[derive(Debug, Drop, PartialEq)]
pub enum DeRonTok {
    /// A word but `true` and `false`. Its text stands in `identbuf`.
    Ident,
    /// A string. Its text stands in `strbuf`.
    Str,
    /// A whole number without a minus sign.
    U64(u64),
    /// A whole number with a minus sign.
    I64(i64),
    /// A number with a point or an exponent. Its text stands in `numbuf`.
    F64,
    /// `true` or `false`.
    Bool(bool),
    /// A character between apostrophes.
    Char(char),
    /// `:`.
    Colon,
    /// `{`.
    CurlyOpen,
    /// `}`.
    CurlyClose,
    /// `(`.
    ParenOpen,
    /// `)`.
    ParenClose,
    /// `[`.
    BlockOpen,
    /// `]`.
    BlockClose,
    /// `,`.
    Comma,
    /// Before the first token.
    Bof,
    /// The end of the text.
    Eof,
}

impl Default for DeRonTok {
    ghost use Rattle.std.specs.Prelude.{◌≡◌};
    ghost use Rattle.nano_ron_tokens.specs.declared.token.DeRonTok.TheVariants.{Bof};

    ghost is_default = { λ tok. tok ≡ Bof };

    fn default() -> DeRonTok {
        DeRonTok::Bof
    }
}
