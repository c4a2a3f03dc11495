//! The tokens of JSON.

/// A token of JSON. Its text, if it has one, stands in a buffer of the state.
#[derive(Debug, Drop, PartialEq)]
pub enum DeJsonTok {
    /// A string. Its text stands in `strbuf`.
    Str,
    /// A character. No text is cut into one.
    Char(char),
    /// A whole number without a minus sign.
    U64(u64),
    /// A whole number with a minus sign.
    I64(i64),
    /// A number with a point or an exponent. Its text stands in `numbuf`.
    F64,
    /// `true` or `false`.
    Bool(bool),
    /// A word of no meaning. No text is cut into one.
    BareIdent,
    /// `null`.
    Null,
    /// `:`.
    Colon,
    /// `{`.
    CurlyOpen,
    /// `}`.
    CurlyClose,
    /// `[`.
    BlockOpen,
    /// `]`.
    BlockClose,
    /// `,`.
    Comma,
    /// Before the first token.
    Bof,
    /// The end of the text.
    Eof,
}

impl Default for DeJsonTok {
    ghost use Rattle.std.specs.Prelude.{◌≡◌};
    ghost use Rattle.nano_json_tokens.specs.declared.token.DeJsonTok.TheVariants.{Bof};

    ghost is_default = { λ tok. tok ≡ Bof };

    fn default() -> DeJsonTok {
        DeJsonTok::Bof
    }
}
