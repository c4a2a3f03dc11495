//! The tokens that a state can have.

use crate::named::named;

/// A token of either format, without what it carries.
#[derive(Clone, Copy)]
pub(crate) enum Token {
    U64,
    I64,
    Bool,
    Char,
    Ident,
    BareIdent,
    Str,
    F64,
    Null,
    Colon,
    Comma,
    CurlyOpen,
    CurlyClose,
    ParenOpen,
    ParenClose,
    BlockOpen,
    BlockClose,
    Bof,
    Eof,
}

/// The tokens by their names.
const TOKENS: &[(&str, Token)] = &[
    ("U64", Token::U64),
    ("I64", Token::I64),
    ("Bool", Token::Bool),
    ("Char", Token::Char),
    ("Ident", Token::Ident),
    ("BareIdent", Token::BareIdent),
    ("Str", Token::Str),
    ("F64", Token::F64),
    ("Null", Token::Null),
    ("Colon", Token::Colon),
    ("Comma", Token::Comma),
    ("CurlyOpen", Token::CurlyOpen),
    ("CurlyClose", Token::CurlyClose),
    ("ParenOpen", Token::ParenOpen),
    ("ParenClose", Token::ParenClose),
    ("BlockOpen", Token::BlockOpen),
    ("BlockClose", Token::BlockClose),
    ("Bof", Token::Bof),
    ("Eof", Token::Eof),
];

impl Token {
    /// The token of this name.
    pub(crate) fn of(word: &str) -> Option<Token> {
        named(TOKENS, word)
    }
}
