//! The tokens of a source, as far as they are taken.

use crate::token::{Token, TokenKind};
use derive_source::{Fault, Subject};

/// The tokens of a source, as far as they are taken.
#[derive(Drop)]
pub(crate) struct Cursor<'a> {
    /// All of them.
    pub(crate) tokens: &'a [Token<'a>],
    /// How many are taken.
    taken: usize,
    /// How many bytes the source has.
    end: usize,
}

impl<'a> Cursor<'a> {
    /// All tokens of a source of so many bytes.
    pub(crate) fn new(tokens: &'a [Token<'a>], end: usize) -> Cursor<'a> {
        Cursor {
            tokens,
            taken: 0,
            end,
        }
    }

    /// The next token.
    pub(crate) fn peek(&self) -> Option<Token<'a>> {
        self.tokens.get(self.taken).copied()
    }

    /// Takes the next token.
    pub(crate) fn next(&mut self) -> Option<Token<'a>> {
        let token = self.peek()?;
        self.taken = self.taken.saturating_add(1);
        Some(token)
    }

    /// How many tokens are taken.
    pub(crate) fn position(&self) -> usize {
        self.taken
    }

    /// The tokens that were taken since so many were.
    pub(crate) fn since(&self, position: usize) -> &'a [Token<'a>] {
        self.tokens.get(position..self.taken).unwrap_or(&[])
    }

    /// Whether the next token is this word or punctuation.
    pub(crate) fn is_at(&self, text: &str) -> bool {
        match self.peek() {
            Some(token) => token.is(text),
            None => false,
        }
    }

    /// Whether the next token is of this kind.
    pub(crate) fn is_at_kind(&self, kind: TokenKind) -> bool {
        match self.peek() {
            Some(token) => token.kind == kind,
            None => false,
        }
    }

    /// Whether the token so many after the next one is this word or punctuation.
    pub(crate) fn is_ahead(&self, count: usize, text: &str) -> bool {
        match self.tokens.get(self.taken.saturating_add(count)) {
            Some(token) => token.is(text),
            None => false,
        }
    }

    /// Takes the next token if it is this word or punctuation, and says whether it was.
    pub(crate) fn take(&mut self, text: &str) -> bool {
        let found = self.is_at(text);
        if found {
            let _ = self.next();
        }
        found
    }

    /// Takes the next token, which is to be this word or punctuation.
    pub(crate) fn expect(&mut self, text: &str, words: &'static str) -> Result<(), Fault> {
        if self.take(text) {
            Ok(())
        } else {
            Err(self.fault(words))
        }
    }

    /// Takes the next token, which is to be of this kind.
    pub(crate) fn of_kind(
        &mut self,
        kind: TokenKind,
        words: &'static str,
    ) -> Result<Token<'a>, Fault> {
        match self.peek() {
            Some(token) if token.kind == kind => {
                let _ = self.next();
                Ok(token)
            }
            _ => Err(self.fault(words)),
        }
    }

    /// Takes the next token, which is to be a name.
    pub(crate) fn name(&mut self) -> Result<Token<'a>, Fault> {
        match self.peek() {
            Some(token) if token.is("r") && self.is_ahead(1, "#") => Err(token.fault(RAW)),
            Some(token) if token.kind == TokenKind::Word && !is_keyword(token.text) => {
                let _ = self.next();
                Ok(token)
            }
            _ => Err(self.fault("stands where a name is wanted")),
        }
    }

    /// The fault of the next token, or of the end.
    pub(crate) fn fault(&self, words: &'static str) -> Fault {
        match self.peek() {
            Some(token) if token.kind != TokenKind::AttributeEnd => token.fault(words),
            Some(token) => Fault::At {
                offset: token.offset,
                subject: Subject::EndOfLine,
                words,
            },
            None => Fault::At {
                offset: self.end,
                subject: Subject::End,
                words,
            },
        }
    }
}

const RAW: &str = "begins a raw name: take another name here, and give the one of the texts by \
    `rename`";

/// Whether Rust keeps this word for itself.
fn is_keyword(word: &str) -> bool {
    [
        "as", "async", "const", "crate", "dyn", "else", "enum", "extern", "fn", "for", "if",
        "impl", "in", "let", "loop", "match", "mod", "move", "mut", "pub", "ref", "return",
        "static", "struct", "super", "trait", "type", "unsafe", "use", "where", "while",
    ]
    .contains(&word)
}
