//! The tokens of a text.

/// A token of a TOML text.
#[derive(Drop, Debug, PartialEq)]
pub enum TomlTok {
    /// A word, with its dots.
    Ident(String),
    /// The characters of a string.
    Str(String),
    /// An integer without a minus sign.
    U64(u64),
    /// An integer with a minus sign.
    I64(i64),
    /// A decimal: its text without underscores and without `+`.
    F64(String),
    Bool(bool),
    /// `nan`, true with a minus sign.
    Nan(bool),
    /// `inf`, true with a minus sign.
    Inf(bool),
    /// A date or a time: its text without underscores in its first digits and without `+`.
    Date(String),
    Equals,
    BlockOpen,
    BlockClose,
    Comma,
    /// Before the first token.
    Bof,
    /// The end of the text.
    Eof,
}
