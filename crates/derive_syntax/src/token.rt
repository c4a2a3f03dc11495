//! Tokens of the part of Rust that the generator reads.

use derive_source::{Fault, Subject};

/// What a token is.
#[derive(Clone, Copy, PartialEq)]
pub enum TokenKind {
    /// A name or a keyword.
    Word,
    /// A number.
    Number,
    /// A string literal, with its quotes.
    Text,
    /// An apostrophe and the word after it.
    Lifetime,
    /// One character of punctuation, or `::`.
    Punctuation,
    /// The beginning of a comment `// nanoserde: ..`, to its colon.
    Attribute,
    /// The end of such a comment.
    AttributeEnd,
}

/// A token, and at which byte of the source it begins.
#[derive(Clone, Copy)]
pub struct Token<'a> {
    /// What it is.
    pub kind: TokenKind,
    /// Its characters.
    pub text: &'a str,
    /// The byte at which it begins.
    pub offset: usize,
}

impl<'a> Token<'a> {
    /// Whether it is this word or punctuation.
    pub fn is(self, text: &str) -> bool {
        match self.kind {
            TokenKind::Word | TokenKind::Punctuation => self.text == text,
            _ => false,
        }
    }

    /// Whether it is one of these words.
    pub fn is_among(self, words: &[Token<'a>]) -> bool {
        for word in words {
            if word.text == self.text {
                return true;
            }
        }
        false
    }

    /// What stands between the quotes of a string literal.
    pub fn quoted(self) -> &'a str {
        let text = self.text.strip_prefix('"').unwrap_or(self.text);
        text.strip_suffix('"').unwrap_or(text)
    }

    /// What is wrong with it.
    pub fn fault(self, words: &'static str) -> Fault {
        Fault::At {
            offset: self.offset,
            subject: Subject::Token(self.text.len()),
            words,
        }
    }
}
