//! Booleans, and the unit, which is `()`.
//! Their readers are inlined: a value read then passes through no result with space for an
//! error.

ghost use Rattle.nano_value.specs.Meaning.{truth, nothing};
ghost use Rattle.nano_meaning.proofs.AgreesLaws.{agreed};
ghost use Rattle.nano_ron.specs.ScalarCodecs.{booleans, units, boolean_codec, unit_codec};
ghost use Rattle.nano_ron.specs.Outcomes.{position, Reads};

use crate::traits::{DeRon, RonCodec, SerRon};
use nano_ron_tokens::{DeRonErr, DeRonState, SerRonState, end_on_error};
use std::alloc::{AllocError, Global};
use std::str::Chars;

impl RonCodec for bool {
    ghost ron = { boolean_codec };

    ghost agrees = { agreed };
}

impl SerRon for bool {
    fn ser_ron(&self, _alloc: Global, _d: usize, s: &mut SerRonState) -> Result<(), AllocError> {
        if *self {
            return s.out.push_str("true");
        }
        s.out.push_str("false")
    }
}

/// Reads `true` or `false`, or a whole number without a minus sign: 0 for false, any other for
/// true. On an error, the position of the state is unspecified.
#[inline(always)]
fn read_bool(alloc: Global, state: &mut DeRonState, input: &mut Chars<'_>) -> Result<bool, DeRonErr>
    ensures { Reads booleans.encodes truth
        (position state.old input.old) (position state.new input.new) result }
{
    let value = state.as_bool(alloc)?;
    state.next_tok(alloc, input)?;
    Ok(value)
}

impl DeRon for bool {
    #[inline(always)]
    fn de_ron(
        alloc: Global,
        state: &mut DeRonState,
        input: &mut Chars<'_>,
    ) -> Result<bool, DeRonErr> {
        let read = read_bool(alloc, state, input);
        end_on_error(state, read)
    }
}

impl RonCodec for () {
    ghost ron = { unit_codec };

    ghost agrees = { agreed };
}

impl SerRon for () {
    fn ser_ron(&self, _alloc: Global, _d: usize, s: &mut SerRonState) -> Result<(), AllocError> {
        s.out.push_str("()")
    }
}

/// Reads `()`. On an error, the position of the state is unspecified.
#[inline(always)]
fn read_unit(alloc: Global, state: &mut DeRonState, input: &mut Chars<'_>) -> Result<(), DeRonErr>
    ensures { Reads units.encodes (λ _. nothing)
        (position state.old input.old) (position state.new input.new) result }
{
    state.paren_open(alloc, input)?;
    state.paren_close(alloc, input)
}

impl DeRon for () {
    #[inline(always)]
    fn de_ron(
        alloc: Global,
        state: &mut DeRonState,
        input: &mut Chars<'_>,
    ) -> Result<(), DeRonErr> {
        let read = read_unit(alloc, state, input);
        end_on_error(state, read)
    }
}
