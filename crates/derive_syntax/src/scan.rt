//! Cuts a source into tokens. Comments are left out, but for those that begin `// nanoserde:`,
//! whose words are cut as the source is.

use crate::comment;
use crate::state::State;
use crate::token::{Token, TokenKind};
use derive_source::Fault;
use std::alloc::Global;

const ATTRIBUTE: &str = "// nanoserde:";

const NOT_ALONE: &str = "an attribute stands on a line of its own, above what it is for";

/// The tokens of a source.
///
/// It is an error where a string literal or a comment has no end, where a comment is meant to be an
/// attribute and is none, and where an attribute stands after something on its line.
pub fn tokens_of<'a>(alloc: Global, source: &'a str) -> Result<Vec<Token<'a>>, Fault> {
    let mut scanner = Scanner {
        source,
        tokens: Vec::new(alloc),
        start: 0,
        state: State::Blank,
        in_attribute: false,
    };
    for (offset, c) in source.char_indices() {
        scanner.step(offset, c)?;
    }
    scanner.end_line(source.len())?;
    scanner.finish()
}

/// A source, as far as it is cut.
#[derive(Drop)]
struct Scanner<'a> {
    source: &'a str,
    tokens: Vec<Token<'a>>,
    /// Where the token begins that is being cut.
    start: usize,
    /// What is known of that token.
    state: State,
    /// Whether it is part of a comment `// nanoserde: ..`.
    in_attribute: bool,
}

impl<'a> Scanner<'a> {
    /// Takes the next character.
    fn step(&mut self, offset: usize, c: char) -> Result<(), Fault> {
        if c == '\n' {
            self.end_line(offset)?;
        }
        if let Some(state) = self.state.after(c) {
            self.state = state;
            if c == ':' && self.text(offset.saturating_add(1)) == ATTRIBUTE {
                if self.is_after_another() {
                    return Err(Fault::place(self.start, NOT_ALONE));
                }
                self.push(TokenKind::Attribute, ATTRIBUTE)?;
                self.start = offset.saturating_add(1);
                self.in_attribute = true;
                self.state = State::Blank;
            }
            return Ok(());
        }
        self.close(offset)?;
        self.start = offset;
        self.state = State::beginning(c);
        Ok(())
    }

    /// Ends a comment `// nanoserde: ..`, if one has begun, at a line feed or the end.
    fn end_line(&mut self, offset: usize) -> Result<(), Fault> {
        if !self.in_attribute {
            return Ok(());
        }
        if self.state.is_open() {
            return Err(self.unended());
        }
        self.close(offset)?;
        self.start = offset;
        self.state = State::Blank;
        self.in_attribute = false;
        Ok(self.push(TokenKind::AttributeEnd, "")?)
    }

    /// Adds the token that ends here, if it is one.
    fn close(&mut self, end: usize) -> Result<(), Fault> {
        let text = self.text(end);
        if let Some(kind) = self.state.kind() {
            self.push(kind, text)?;
        } else if let Some(words) = comment::fault_of(text) {
            return Err(Fault::place(self.start, words));
        }
        Ok(())
    }

    /// The tokens, once all characters are taken.
    fn finish(mut self) -> Result<Vec<Token<'a>>, Fault> {
        if self.state.is_open() {
            return Err(self.unended());
        }
        let end = self.source.len();
        self.close(end)?;
        Ok(self.tokens)
    }

    /// Whether another token stands before this one on its line.
    fn is_after_another(&self) -> bool {
        match self.tokens.last() {
            Some(token) => {
                let end = token.offset.saturating_add(token.text.len());
                !self
                    .source
                    .get(end..self.start)
                    .unwrap_or("")
                    .contains('\n')
            }
            None => false,
        }
    }

    /// What is at fault in a literal or a comment that does not end.
    fn unended(&self) -> Fault {
        Fault::place(self.start, "this has no end")
    }

    /// The characters from where the token began.
    fn text(&self, end: usize) -> &'a str {
        self.source.get(self.start..end).unwrap_or("")
    }

    fn push(&mut self, kind: TokenKind, text: &'a str) -> Result<(), Fault> {
        Ok(
            self.tokens.push(Token {
                kind,
                text,
                offset: self.start,
            })?,
        )
    }
}
