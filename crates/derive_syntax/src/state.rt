//! What is known of the token that is being cut, by the characters that were taken.

use crate::token::TokenKind;

/// What is known of a token.
#[derive(Clone, Copy)]
pub(crate) enum State {
    /// It is white space.
    Blank,
    /// It is a word.
    Word,
    /// It is a number.
    Number,
    /// It is an apostrophe, and perhaps letters.
    Lifetime,
    /// It is a whole token of punctuation.
    Punctuation,
    /// It is one colon.
    Colon,
    /// It is a slash, and may begin a comment.
    Slash,
    /// It is a comment that ends with its line.
    Comment,
    /// It is a comment between `/*` and `*/`, so many of them open, and its last character.
    Block(u32, char),
    /// It is a string literal that has not ended, and whether its next character is escaped.
    Text(bool),
    /// It is a whole string literal.
    WholeText,
}

impl State {
    /// A token of this character.
    pub(crate) fn beginning(c: char) -> State {
        match c {
            '/' => State::Slash,
            ':' => State::Colon,
            '"' => State::Text(false),
            '\'' => State::Lifetime,
            _ if c.is_ascii_digit() => State::Number,
            _ if is_word(c) => State::Word,
            _ if c.is_whitespace() => State::Blank,
            _ => State::Punctuation,
        }
    }

    /// The token with this character, or `None` where it ends before it.
    pub(crate) fn after(self, c: char) -> Option<State> {
        match self {
            State::Word | State::Number | State::Lifetime if is_word(c) => Some(self),
            State::Colon if c == ':' => Some(State::Punctuation),
            State::Slash if c == '/' => Some(State::Comment),
            State::Slash if c == '*' => Some(State::Block(1, ' ')),
            State::Comment if c != '\n' => Some(self),
            State::Block(depth, last) if depth > 0 => Some(State::in_block(depth, last, c)),
            State::Text(true) => Some(State::Text(false)),
            State::Text(false) if c == '"' => Some(State::WholeText),
            State::Text(false) => Some(State::Text(c == '\\')),
            _ => None,
        }
    }

    /// A block comment with one more character.
    fn in_block(depth: u32, last: char, c: char) -> State {
        match (last, c) {
            ('/', '*') => State::Block(depth.saturating_add(1), ' '),
            ('*', '/') => State::Block(depth.saturating_sub(1), ' '),
            _ => State::Block(depth, c),
        }
    }

    /// The token's kind, or `None` where it is white space or a comment.
    pub(crate) fn kind(self) -> Option<TokenKind> {
        match self {
            State::Word => Some(TokenKind::Word),
            State::Number => Some(TokenKind::Number),
            State::Lifetime => Some(TokenKind::Lifetime),
            State::Punctuation | State::Colon | State::Slash => Some(TokenKind::Punctuation),
            State::Text(_) | State::WholeText => Some(TokenKind::Text),
            State::Blank | State::Comment | State::Block(..) => None,
        }
    }

    /// Whether the token wants an end that has not come.
    pub(crate) fn is_open(self) -> bool {
        match self {
            State::Text(_) => true,
            State::Block(depth, _) => depth > 0,
            _ => false,
        }
    }
}

fn is_word(c: char) -> bool {
    c == '_' || c.is_ascii_alphanumeric()
}
