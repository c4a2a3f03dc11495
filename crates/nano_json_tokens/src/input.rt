//! What a reader of a whole input needs: the end after the value, and the errors of the value.

ghost use Rattle.std.specs.Prelude.{MatchResult};
ghost use Rattle.nano_json_tokens.specs.Scan.{IsWholeInput, GoesOn, IsValueError};

use crate::error::DeJsonErr;
use crate::state::DeJsonState;
use crate::token::DeJsonTok;
use nano_grammar::{holds_nul, strip_end_message};
use std::alloc::Global;

/// Returns an error with the message `Cannot parse end ` if a token other than the end is
/// pending, or a NUL stands anywhere in the input.
pub fn expect_end(alloc: Global, state: &DeJsonState, input: &str) -> Result<(), DeJsonErr>
    ensures { MatchResult result
        (λ _. IsWholeInput state.now input.now) (GoesOn state.now input.now) }
{
    let ended = match state.tok {
        DeJsonTok::Eof => !holds_nul(input),
        _ => false,
    };
    if ended {
        Ok(())
    } else {
        Err(state.err_parse(alloc, "end"))
    }
}

/// The error of a value that must be a whole input. `Cannot parse end ` is reserved for what
/// follows the value. So if a reader of a user-defined type returns this message, its last
/// space is cut.
#[cold]
#[inline(never)]
pub fn as_value_error(mut error: DeJsonErr) -> DeJsonErr
    ensures { IsValueError error result }
{
    strip_end_message(&mut error.msg);
    error
}
