//! A state of RON's reader as a case has it.

use crate::outcome::Outcome;
use crate::start::{Left, Start, reported, start_of};
use crate::token::Token;
use nanoserde::{DeRonErr, DeRonState, DeRonTok};
use std::alloc::{AllocError, Global};
use std::str::Chars;

/// Puts a reader into the state that a case describes, and answers with the characters after its
/// current one, or `None` where it describes none.
pub(crate) fn ron_start<'a>(
    state: &mut DeRonState,
    text: &'a str,
) -> Result<Option<Chars<'a>>, AllocError> {
    let Some(start) = start_of(text) else {
        return Ok(None);
    };
    let Some(tok) = token(&start) else {
        return Ok(None);
    };
    match tok {
        DeRonTok::Str => state.strbuf.push_str(start.content)?,
        DeRonTok::F64 => state.numbuf.push_str(start.content)?,
        _ => state.identbuf.push_str(start.content)?,
    }
    let mut input = start.text.chars();
    state.next(&mut input);
    state.tok = tok;
    state.line = start.line;
    state.col = start.col;
    Ok(Some(input))
}

/// The state in which a text is read from its beginning on. Its first token may be none.
pub(crate) fn ron_begun(alloc: Global, input: &mut Chars<'_>) -> DeRonState {
    let mut state = DeRonState::new(alloc);
    state.next(input);
    let _cut = state.next_tok(alloc, input);
    state
}

/// The pending token.
fn token(start: &Start<'_>) -> Option<DeRonTok> {
    match start.token {
        Token::U64 => Some(DeRonTok::U64(start.unsigned()?)),
        Token::I64 => Some(DeRonTok::I64(start.signed()?)),
        Token::Bool => Some(DeRonTok::Bool(start.content == "true")),
        Token::Char => Some(DeRonTok::Char(start.character()?)),
        Token::Ident => Some(DeRonTok::Ident),
        Token::Str => Some(DeRonTok::Str),
        Token::F64 => Some(DeRonTok::F64),
        Token::Colon => Some(DeRonTok::Colon),
        Token::CurlyOpen => Some(DeRonTok::CurlyOpen),
        Token::CurlyClose => Some(DeRonTok::CurlyClose),
        Token::ParenOpen => Some(DeRonTok::ParenOpen),
        Token::ParenClose => Some(DeRonTok::ParenClose),
        Token::BlockOpen => Some(DeRonTok::BlockOpen),
        Token::BlockClose => Some(DeRonTok::BlockClose),
        Token::Comma => Some(DeRonTok::Comma),
        Token::Bof => Some(DeRonTok::Bof),
        Token::Eof => Some(DeRonTok::Eof),
        _ => None,
    }
}

/// Appends the state after an answer.
pub(crate) fn append_ron_state(
    answer: &mut String,
    state: &DeRonState,
    input: &Chars<'_>,
) -> Result<(), AllocError> {
    let tok = &state.tok;
    write!(answer, " -> {tok:?}")?;
    let carried = match tok {
        DeRonTok::Str => Some(state.strbuf.as_str()),
        DeRonTok::F64 => Some(state.numbuf.as_str()),
        DeRonTok::Ident => Some(state.identbuf.as_str()),
        _ => None,
    };
    let left = Left {
        carried,
        place: (state.line, state.col),
        cur: state.cur,
        rest: input.as_str(),
    };
    left.append(answer)
}

/// An error as the answer of a call.
pub(crate) fn ron_fault(alloc: Global, error: &DeRonErr) -> Result<String, AllocError> {
    let msg = error.msg.as_str();
    reported(alloc, error.memory, msg, (error.line, error.col))
}

/// What was read in a state, and the state afterwards.
pub(crate) fn ron_left(
    alloc: Global,
    read: Result<String, DeRonErr>,
    state: &DeRonState,
    input: &Chars<'_>,
) -> Result<Outcome, AllocError> {
    let mut answer = match read {
        Ok(text) => text,
        Err(error) => ron_fault(alloc, &error)?,
    };
    append_ron_state(&mut answer, state, input)?;
    Ok(Outcome::Text(answer.into_bytes()))
}
