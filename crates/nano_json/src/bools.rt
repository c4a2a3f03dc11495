//! Booleans and the unit: one word each.
//! The readers are inlined, so a value that is read passes through no result with space for an
//! error.
//!
//! On an error, a reader here may leave the state at any position, unless it says where.

ghost use Rattle.nano_value.specs.Meaning.{truth, nothing};
ghost use Rattle.nano_meaning.proofs.AgreesLaws.{agreed};
ghost use Rattle.nano_json.specs.ScalarCodecs.{booleans, units, boolean_codec, unit_codec};
ghost use Rattle.nano_json.specs.Outcomes.{position, Reads};

use crate::traits::{DeJson, JsonCodec, SerJson};
use nano_json_tokens::{DeJsonErr, DeJsonState, SerJsonState, end_on_error, take_plain_bool};
use nano_text::Place;
use std::alloc::{AllocError, Global};
use std::str::Chars;

impl JsonCodec for bool {
    ghost json = { boolean_codec };

    ghost agrees = { agreed };
}

impl SerJson for bool {
    fn ser_json(&self, _alloc: Global, _d: usize, s: &mut SerJsonState) -> Result<(), AllocError> {
        if *self {
            return s.out.push_str("true");
        }
        s.out.push_str("false")
    }
}

/// Reads `true` or `false`.
#[inline(always)]
fn read_bool(
    alloc: Global,
    state: &mut DeJsonState,
    input: &mut Chars<'_>,
) -> Result<bool, DeJsonErr>
    ensures { Reads booleans.encodes truth
        (position state.old input.old) (position state.new input.new) result }
{
    let value = state.as_bool(alloc)?;
    state.next_tok(alloc, input)?;
    Ok(value)
}

impl DeJson for bool {
    #[inline(always)]
    fn de_json(
        alloc: Global,
        state: &mut DeJsonState,
        input: &mut Chars<'_>,
    ) -> Result<bool, DeJsonErr> {
        let read = read_bool(alloc, state, input);
        end_on_error(state, read)
    }

    #[inline(always)]
    fn de_json_plain(
        _alloc: Global,
        place: &mut Place,
        input: &mut Chars<'_>,
        _text: &mut String,
    ) -> Option<bool> {
        take_plain_bool(place, input)
    }
}

impl JsonCodec for () {
    ghost json = { unit_codec };

    ghost agrees = { agreed };
}

impl SerJson for () {
    fn ser_json(&self, _alloc: Global, _d: usize, s: &mut SerJsonState) -> Result<(), AllocError> {
        s.out.push_str("null")
    }
}

/// Reads `null`.
#[inline(always)]
fn read_unit(alloc: Global, state: &mut DeJsonState, input: &mut Chars<'_>) -> Result<(), DeJsonErr>
    ensures { Reads units.encodes (λ _. nothing)
        (position state.old input.old) (position state.new input.new) result }
{
    if state.is_null() {
        return state.next_tok(alloc, input);
    }
    Err(state.err_token(alloc, "null"))
}

impl DeJson for () {
    #[inline(always)]
    fn de_json(
        alloc: Global,
        state: &mut DeJsonState,
        input: &mut Chars<'_>,
    ) -> Result<(), DeJsonErr> {
        let read = read_unit(alloc, state, input);
        end_on_error(state, read)
    }
}
