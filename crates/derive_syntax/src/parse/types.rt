//! Types: paths with arguments, tuples and arrays, at any nesting.

use crate::parse::cursor::Cursor;
use crate::syntax::Type;
use crate::token::{Token, TokenKind};
use derive_source::Fault;
use std::alloc::Global;

/// A bracket that has been opened.
#[derive(Clone, Copy, PartialEq)]
enum Bracket {
    /// `<`.
    Angle,
    /// `(`.
    Round,
    /// `[`.
    Square,
}

impl Bracket {
    /// What closes it.
    fn closing(self) -> &'static str {
        match self {
            Bracket::Angle => ">",
            Bracket::Round => ")",
            Bracket::Square => "]",
        }
    }

    /// What is wrong with another token than what may come in it after a type.
    fn wanted(self) -> &'static str {
        match self {
            Bracket::Angle => "stands where a comma or `>` is wanted",
            Bracket::Round => "stands where a comma or `)` is wanted",
            Bracket::Square => "stands where `]` is wanted",
        }
    }
}

/// What comes next within a type.
#[derive(Clone, Copy)]
enum Next {
    /// A type.
    Start,
    /// A type, or the end of the bracket.
    StartOrClose,
    /// What may come after a type.
    After,
    /// Nothing: the type has ended.
    Nothing,
}

/// Takes a type.
pub(crate) fn parse_type<'a>(alloc: Global, cursor: &mut Cursor<'a>) -> Result<Type<'a>, Fault> {
    let position = cursor.position();
    let mut open = Vec::new(alloc);
    let mut next = Next::Start;
    for _turn in cursor.tokens {
        next = match next {
            Next::Start => start(cursor, &mut open)?,
            Next::StartOrClose => start_or_close(cursor, &mut open)?,
            Next::After => after(cursor, &mut open)?,
            Next::Nothing => break,
        };
    }
    if let Next::Start | Next::StartOrClose = next {
        return Err(cursor.fault("stands where a type is wanted"));
    }
    Ok(Type(cursor.since(position)))
}

/// Takes the beginning of a type.
fn start<'a>(cursor: &mut Cursor<'a>, open: &mut Vec<Bracket>) -> Result<Next, Fault> {
    if cursor.take("(") {
        open.push(Bracket::Round)?;
        return Ok(Next::StartOrClose);
    }
    if cursor.take("[") {
        open.push(Bracket::Square)?;
        return Ok(Next::Start);
    }
    match cursor.peek() {
        Some(token) if token.kind == TokenKind::Lifetime => Err(token.fault(
            "is a lifetime: a type that is read owns what it holds",
        )),
        Some(token) if is_pointer(token) => Err(token.fault(
            "begins no type that can be read and written: no reference, pointer, function or \
             trait is one",
        )),
        Some(token) if token.is("::") => Err(token.fault(
            "begins no path here: leave it out, as in `std::vec::Vec`",
        )),
        Some(token) if token.kind == TokenKind::Word => path(cursor, open),
        _ => Err(cursor.fault("stands where a type is wanted")),
    }
}

/// Whether a token begins a type that no format has.
fn is_pointer(token: Token<'_>) -> bool {
    ["&", "*", "fn", "dyn", "impl", "!", "?"].contains(&token.text)
}

/// Takes a path, and the bracket of its arguments.
fn path<'a>(cursor: &mut Cursor<'a>, open: &mut Vec<Bracket>) -> Result<Next, Fault> {
    root(cursor)?;
    for _turn in cursor.tokens {
        let _ = cursor.name()?;
        if !cursor.take("::") {
            break;
        }
    }
    if cursor.take("<") {
        open.push(Bracket::Angle)?;
        return Ok(Next::Start);
    }
    Ok(Next::After)
}

/// Takes what a path from the crate or from a module begins with, each step with its colons.
fn root<'a>(cursor: &mut Cursor<'a>) -> Result<(), Fault> {
    if cursor.take("crate") || cursor.take("self") {
        cursor.expect("::", "stands where `::` is wanted")?;
    }
    for _turn in cursor.tokens {
        if !cursor.take("super") {
            break;
        }
        cursor.expect("::", "stands where `::` is wanted")?;
    }
    Ok(())
}

/// Takes the beginning of a type, or the end of a bracket.
fn start_or_close<'a>(cursor: &mut Cursor<'a>, open: &mut Vec<Bracket>) -> Result<Next, Fault> {
    match open.last().copied() {
        Some(bracket) if cursor.take(bracket.closing()) => {
            let _ = open.pop();
            Ok(Next::After)
        }
        _ => start(cursor, open),
    }
}

/// Takes what comes after a type.
fn after<'a>(cursor: &mut Cursor<'a>, open: &mut Vec<Bracket>) -> Result<Next, Fault> {
    let Some(bracket) = open.last().copied() else {
        return Ok(Next::Nothing);
    };
    if bracket == Bracket::Square {
        length(cursor)?;
    } else if cursor.take(",") {
        return Ok(Next::StartOrClose);
    }
    if cursor.take(bracket.closing()) {
        let _ = open.pop();
        return Ok(Next::After);
    }
    Err(cursor.fault(bracket.wanted()))
}

/// Takes the length of an array.
fn length<'a>(cursor: &mut Cursor<'a>) -> Result<(), Fault> {
    cursor.expect(
        ";",
        "stands where `;` and the length of an array are wanted",
    )?;
    match cursor.peek() {
        Some(token) if token.kind == TokenKind::Number => {
            let _ = cursor.next();
            Ok(())
        }
        _ => {
            let _ = cursor.name()?;
            Ok(())
        }
    }
}
