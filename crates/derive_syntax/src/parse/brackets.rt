//! Brackets: each that opens is closed.

use crate::token::{Token, TokenKind};
use derive_source::Fault;
use std::alloc::Global;

/// An error at the first bracket that another kind closes, or that closes none; and at the last one
/// that is open at the end. Brackets in a comment `// nanoserde: ..` are none.
pub(crate) fn check_brackets<'a>(alloc: Global, tokens: &[Token<'a>]) -> Result<(), Fault> {
    let mut open = Vec::new(alloc);
    let mut in_attribute = false;
    for token in tokens {
        match token.kind {
            TokenKind::Attribute => in_attribute = true,
            TokenKind::AttributeEnd => in_attribute = false,
            TokenKind::Punctuation if !in_attribute => take(&mut open, *token)?,
            _ => {}
        }
    }
    match open.pop() {
        Some(bracket) => Err(unclosed(bracket)),
        None => Ok(()),
    }
}

/// Takes a token, which may be a bracket.
fn take<'a>(open: &mut Vec<Token<'a>>, token: Token<'a>) -> Result<(), Fault> {
    let opening = match token.text {
        "(" | "[" | "{" => return Ok(open.push(token)?),
        ")" => "(",
        "]" => "[",
        "}" => "{",
        _ => return Ok(()),
    };
    match open.pop() {
        Some(bracket) if bracket.text == opening => Ok(()),
        Some(bracket) => Err(unclosed(bracket)),
        None => Err(token.fault("closes no bracket")),
    }
}

/// What is wrong with a bracket that is not closed.
fn unclosed(bracket: Token<'_>) -> Fault {
    bracket.fault(match bracket.text {
        "(" => "is closed by no `)`",
        "[" => "is closed by no `]`",
        _ => "is closed by no `}`",
    })
}
