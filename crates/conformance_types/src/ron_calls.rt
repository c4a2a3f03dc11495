//! Calls of a state of RON's reader: what is answered, and the state afterwards.

use crate::answers::append_answer;
use crate::call::Call;
use crate::outcome::Outcome;
use crate::ron_state::{append_ron_state, ron_fault, ron_start};
use crate::start::OUT_OF_MEMORY;
use nanoserde::{DeRonErr, DeRonState};
use std::alloc::{AllocError, Global};
use std::fmt::Display;
use std::str::Chars;

/// What calls answer in a state, one after the other, and the state after each.
pub(crate) fn ron_calls(alloc: Global, calls: &str, text: &str) -> Result<Outcome, AllocError> {
    let mut state = DeRonState::new(alloc);
    let Some(mut input) = ron_start(&mut state, text)? else {
        return Ok(Outcome::Unknown);
    };
    let mut answers = String::new(alloc);
    if append_answers(alloc, &mut state, &mut input, calls, &mut answers)? {
        Ok(Outcome::Text(answers.into_bytes()))
    } else {
        Ok(Outcome::Unknown)
    }
}

/// Appends what each call answers, and the state after it. A call that runs out of memory is the
/// last. Returns whether each has a name that is known.
fn append_answers(
    alloc: Global,
    state: &mut DeRonState,
    input: &mut Chars<'_>,
    calls: &str,
    answers: &mut String,
) -> Result<bool, AllocError> {
    for word in calls.split(' ') {
        let Some(call) = Call::of(word) else {
            return Ok(false);
        };
        let Some(answer) = taken(alloc, state, input, call)? else {
            return Ok(false);
        };
        append_answer(answers, answer.as_str())?;
        append_ron_state(answers, state, input)?;
        if answer.as_str() == OUT_OF_MEMORY {
            break;
        }
    }
    Ok(true)
}

/// A value, or the error.
fn value<V: Display + Drop>(
    alloc: Global,
    read: Result<V, DeRonErr>,
) -> Result<Option<String>, AllocError> {
    match read {
        Ok(value) => Ok(Some(format!(in alloc; "{value}")?)),
        Err(error) => Ok(Some(ron_fault(alloc, &error)?)),
    }
}

/// What a call that takes a token answers.
fn done(alloc: Global, taken: Result<(), DeRonErr>) -> Result<Option<String>, AllocError> {
    match taken {
        Ok(()) => Ok(Some(String::from_str(alloc, "ok")?)),
        Err(error) => Ok(Some(ron_fault(alloc, &error)?)),
    }
}

/// The error that a call makes, by its clone.
fn copied(alloc: Global, error: DeRonErr) -> Result<Option<String>, AllocError> {
    let again = error.clone(alloc)?;
    Ok(Some(ron_fault(alloc, &again)?))
}

/// What a call answers that takes a token, or what another call does.
fn taken(
    alloc: Global,
    state: &mut DeRonState,
    input: &mut Chars<'_>,
    call: Call,
) -> Result<Option<String>, AllocError> {
    match call {
        Call::NextTok => done(alloc, state.next_tok(alloc, input)),
        Call::Colon => done(alloc, state.colon(alloc, input)),
        Call::NextColon => done(alloc, state.next_colon(alloc, input)),
        Call::Ident => done(alloc, state.ident(alloc, input)),
        Call::BlockOpen => done(alloc, state.block_open(alloc, input)),
        Call::BlockClose => done(alloc, state.block_close(alloc, input)),
        Call::CurlyOpen => done(alloc, state.curly_open(alloc, input)),
        Call::CurlyClose => done(alloc, state.curly_close(alloc, input)),
        Call::ParenOpen => done(alloc, state.paren_open(alloc, input)),
        Call::ParenClose => done(alloc, state.paren_close(alloc, input)),
        Call::EatCommaBlock => done(alloc, state.eat_comma_block(alloc, input)),
        Call::EatCommaCurly => done(alloc, state.eat_comma_curly(alloc, input)),
        Call::EatCommaParen => done(alloc, state.eat_comma_paren(alloc, input)),
        Call::WholeField => done(alloc, state.whole_field(alloc, input)),
        _ => other(alloc, state, input, call),
    }
}

/// What a call answers that takes no token, or one that makes a value or an error.
fn other(
    alloc: Global,
    state: &mut DeRonState,
    input: &mut Chars<'_>,
    call: Call,
) -> Result<Option<String>, AllocError> {
    match call {
        Call::Next => {
            state.next(input);
            done(alloc, Ok(()))
        }
        Call::Fail => {
            state.fail();
            done(alloc, Ok(()))
        }
        Call::AsString => value(alloc, state.as_string(alloc)),
        Call::AsBool => value(alloc, state.as_bool(alloc)),
        Call::U64Range3 => value(alloc, state.u64_range(alloc, 3)),
        Call::I64RangeToFive => value(alloc, state.i64_range(alloc, -5, 5)),
        Call::I64RangeOfNone => value(alloc, state.i64_range(alloc, 5, -5)),
        Call::I64Range => value(alloc, state.i64_range(alloc, i64::MIN, i64::MAX)),
        _ => seen(alloc, state, call),
    }
}

/// What a call answers that looks at the pending token, or one that makes an error.
fn seen(alloc: Global, state: &DeRonState, call: Call) -> Result<Option<String>, AllocError> {
    match call {
        Call::IsNone => value(alloc, Ok(state.is_none())),
        Call::IsBlockClose => value(alloc, Ok(state.is_block_close())),
        Call::IsCurlyClose => value(alloc, Ok(state.is_curly_close())),
        Call::IsParenClose => value(alloc, Ok(state.is_paren_close())),
        Call::NextIdent => value(alloc, Ok(state.next_ident().is_some())),
        _ => made(alloc, state, call),
    }
}

/// What a call answers that makes an error.
fn made(alloc: Global, state: &DeRonState, call: Call) -> Result<Option<String>, AllocError> {
    match call {
        Call::ErrExp => copied(alloc, state.err_exp(alloc, "k")),
        Call::ErrNf => copied(alloc, state.err_nf(alloc, "k")),
        Call::ErrEnum => copied(alloc, state.err_enum(alloc, "V")),
        Call::ErrToken => copied(alloc, state.err_token(alloc, "x")),
        Call::ErrRange => copied(alloc, state.err_range(alloc, "x")),
        Call::ErrType => copied(alloc, state.err_type(alloc, "x")),
        Call::ErrParse => copied(alloc, state.err_parse(alloc, "x")),
        Call::ErrMemory => copied(alloc, state.err_memory(alloc)),
        _ => Ok(None),
    }
}
