//! What a reader of a whole input needs: the end after the value, and the errors of the value.

ghost use Rattle.std.specs.Prelude.{MatchResult};
ghost use Rattle.nano_ron_tokens.specs.Scan.{IsWholeInput, GoesOn, IsValueError};

use crate::error::DeRonErr;
use crate::state::DeRonState;
use crate::token::DeRonTok;
use nano_grammar::{holds_nul, strip_end_message};
use std::alloc::Global;

/// Fails with the message `Cannot parse end ` if a token other than the end is pending, or a
/// NUL is anywhere in the input.
pub fn expect_end(alloc: Global, state: &DeRonState, input: &str) -> Result<(), DeRonErr>
    ensures { MatchResult result
        (λ _. IsWholeInput state.now input.now) (GoesOn state.now input.now) }
{
    let ended = match state.tok {
        DeRonTok::Eof => !holds_nul(input),
        _ => false,
    };
    if ended {
        Ok(())
    } else {
        Err(state.err_parse(alloc, "end"))
    }
}

/// The error of a value that is to be a whole input. `Cannot parse end ` is reserved for what
/// comes after the value. So if a reader of a user-defined type returns this message, its last
/// space is removed.
#[cold]
#[inline(never)]
pub fn as_value_error(mut error: DeRonErr) -> DeRonErr
    ensures { IsValueError error result }
{
    strip_end_message(&mut error.msg);
    error
}
