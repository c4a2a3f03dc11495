//! A state of JSON's reader as a case has it.

use crate::outcome::Outcome;
use crate::start::{Left, Start, reported, start_of};
use crate::token::Token;
use nanoserde::{DeJsonErr, DeJsonState, DeJsonTok};
use std::alloc::{AllocError, Global};
use std::str::Chars;

/// Puts a reader into the state that a case describes, and answers with the characters after its
/// current one, or `None` where it describes none.
pub(crate) fn json_start<'a>(
    state: &mut DeJsonState,
    text: &'a str,
) -> Result<Option<Chars<'a>>, AllocError> {
    let Some(start) = start_of(text) else {
        return Ok(None);
    };
    let Some(tok) = token(&start) else {
        return Ok(None);
    };
    match tok {
        DeJsonTok::Str => state.strbuf.push_str(start.content)?,
        DeJsonTok::F64 => state.numbuf.push_str(start.content)?,
        _ => state.identbuf.push_str(start.content)?,
    }
    let mut input = start.text.chars();
    state.next(&mut input);
    state.tok = tok;
    state.line = start.line;
    state.col = start.col;
    Ok(Some(input))
}

/// The state in which a text is read from its beginning on. Its first token may be none.
pub(crate) fn json_begun(alloc: Global, input: &mut Chars<'_>) -> DeJsonState {
    let mut state = DeJsonState::new(alloc);
    state.next(input);
    let _cut = state.next_tok(alloc, input);
    state
}

/// The pending token.
fn token(start: &Start<'_>) -> Option<DeJsonTok> {
    match start.token {
        Token::U64 => Some(DeJsonTok::U64(start.unsigned()?)),
        Token::I64 => Some(DeJsonTok::I64(start.signed()?)),
        Token::Bool => Some(DeJsonTok::Bool(start.content == "true")),
        Token::Char => Some(DeJsonTok::Char(start.character()?)),
        Token::Str => Some(DeJsonTok::Str),
        Token::F64 => Some(DeJsonTok::F64),
        Token::BareIdent => Some(DeJsonTok::BareIdent),
        Token::Null => Some(DeJsonTok::Null),
        Token::Colon => Some(DeJsonTok::Colon),
        Token::CurlyOpen => Some(DeJsonTok::CurlyOpen),
        Token::CurlyClose => Some(DeJsonTok::CurlyClose),
        Token::BlockOpen => Some(DeJsonTok::BlockOpen),
        Token::BlockClose => Some(DeJsonTok::BlockClose),
        Token::Comma => Some(DeJsonTok::Comma),
        Token::Bof => Some(DeJsonTok::Bof),
        Token::Eof => Some(DeJsonTok::Eof),
        _ => None,
    }
}

/// Appends the state after an answer.
pub(crate) fn append_json_state(
    answer: &mut String,
    state: &DeJsonState,
    input: &Chars<'_>,
) -> Result<(), AllocError> {
    let tok = &state.tok;
    write!(answer, " -> {tok:?}")?;
    let carried = match tok {
        DeJsonTok::Str => Some(state.strbuf.as_str()),
        DeJsonTok::F64 => Some(state.numbuf.as_str()),
        _ => None,
    };
    let left = Left {
        carried,
        place: (state.line, state.col),
        cur: state.cur,
        rest: input.as_str(),
    };
    left.append(answer)
}

/// An error as the answer of a call.
pub(crate) fn json_fault(alloc: Global, error: &DeJsonErr) -> Result<String, AllocError> {
    let msg = error.msg.as_str();
    reported(alloc, error.memory, msg, (error.line, error.col))
}

/// What was read in a state, and the state afterwards.
pub(crate) fn json_left(
    alloc: Global,
    read: Result<String, DeJsonErr>,
    state: &DeJsonState,
    input: &Chars<'_>,
) -> Result<Outcome, AllocError> {
    let mut answer = match read {
        Ok(text) => text,
        Err(error) => json_fault(alloc, &error)?,
    };
    append_json_state(&mut answer, state, input)?;
    Ok(Outcome::Text(answer.into_bytes()))
}
