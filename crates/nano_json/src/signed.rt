//! Signed integers: a whole number in the type's range, with or without a minus sign.
//! The readers are inlined, so a value that is read passes through no result with space for an
//! error.
//!
//! On an error, a reader here may leave the state at any position, unless it says where.

ghost use Rattle.std.specs.Int.{w8, w16, w32, w64};
ghost use Rattle.nano_value.specs.Meaning.{number};
ghost use Rattle.nano_meaning.proofs.AgreesLaws.{agreed};
ghost use Rattle.nano_json.specs.ScalarCodecs.{IsRangeOf, signed, signed_codec, within_8};
ghost use Rattle.nano_json.specs.ScalarCodecs.{within_16, within_32, within_64};
ghost use Rattle.nano_json.specs.Outcomes.{position, Reads};
ghost use Rattle.nano_json_tokens.specs.Outcomes.{TakesPlainly};

use crate::traits::{DeJson, JsonCodec, SerJson};
use nano_json_tokens::{DeJsonErr, DeJsonState, SerJsonState, end_on_error, take_plain_integer};
use nano_text::{Place, append_signed};
use std::alloc::{AllocError, Global};
use std::str::Chars;

/// A signed integer type of a width.
trait Signed: Sized {
    ghost use Rattle.std.specs.Prelude.{◌≡◌, ℤ, FitsSigned};
    ghost use Rattle.std.specs.Int.{Width};

    ghost width: { Width };

    /// The number that a value is.
    ghost value: { Self → ℤ };

    /// The value that is this number.
    fn narrow(number: i64) -> Self
        requires { FitsSigned width number }
        ensures { value result ≡ number };
}

/// Reads a whole number, with or without a minus sign, from `min` to `max`.
#[inline(always)]
fn read_signed<T: Signed>(
    alloc: Global,
    state: &mut DeJsonState,
    input: &mut Chars<'_>,
    min: i64,
    max: i64,
) -> Result<T, DeJsonErr>
    requires { IsRangeOf T.width min max }
    ensures { Reads (signed T.width).encodes (λ x. number (T.value x))
        (position state.old input.old) (position state.new input.new) result }
{
    let number = state.i64_range(alloc, min, max)?;
    state.next_tok(alloc, input)?;
    Ok(T::narrow(number))
}

/// Takes a whole number from `min` to `max`, which stands plainly.
#[inline(always)]
fn take_signed_of<T: Signed>(
    place: &mut Place,
    input: &mut Chars<'_>,
    min: i64,
    max: i64,
) -> Option<T>
    requires { IsRangeOf T.width min max }
    ensures { TakesPlainly (signed T.width).encodes (λ x. number (T.value x))
        place.old input.old place.new input.new result }
{
    let number = take_plain_integer(place, input, min, max)?;
    Some(T::narrow(number))
}

impl JsonCodec for i8 {
    ghost json = { signed_codec w8 within_8 };

    ghost agrees = { agreed };
}

impl SerJson for i8 {
    fn ser_json(&self, _alloc: Global, _d: usize, s: &mut SerJsonState) -> Result<(), AllocError> {
        append_signed(&mut s.out, i64::from(*self))
    }
}

impl Signed for i8 {
    ghost width = { w8 };

    ghost value = { λ x. x };

    fn narrow(number: i64) -> i8 {
        number as i8
    }
}

impl DeJson for i8 {
    #[inline(always)]
    fn de_json(
        alloc: Global,
        state: &mut DeJsonState,
        input: &mut Chars<'_>,
    ) -> Result<i8, DeJsonErr> {
        let read = read_signed(alloc, state, input, i8::MIN as i64, i8::MAX as i64);
        end_on_error(state, read)
    }

    #[inline(always)]
    fn de_json_plain(
        _alloc: Global,
        place: &mut Place,
        input: &mut Chars<'_>,
        _text: &mut String,
    ) -> Option<i8> {
        take_signed_of(place, input, i8::MIN as i64, i8::MAX as i64)
    }
}

impl JsonCodec for i16 {
    ghost json = { signed_codec w16 within_16 };

    ghost agrees = { agreed };
}

impl SerJson for i16 {
    fn ser_json(&self, _alloc: Global, _d: usize, s: &mut SerJsonState) -> Result<(), AllocError> {
        append_signed(&mut s.out, i64::from(*self))
    }
}

impl Signed for i16 {
    ghost width = { w16 };

    ghost value = { λ x. x };

    fn narrow(number: i64) -> i16 {
        number as i16
    }
}

impl DeJson for i16 {
    #[inline(always)]
    fn de_json(
        alloc: Global,
        state: &mut DeJsonState,
        input: &mut Chars<'_>,
    ) -> Result<i16, DeJsonErr> {
        let read = read_signed(alloc, state, input, i16::MIN as i64, i16::MAX as i64);
        end_on_error(state, read)
    }

    #[inline(always)]
    fn de_json_plain(
        _alloc: Global,
        place: &mut Place,
        input: &mut Chars<'_>,
        _text: &mut String,
    ) -> Option<i16> {
        take_signed_of(place, input, i16::MIN as i64, i16::MAX as i64)
    }
}

impl JsonCodec for i32 {
    ghost json = { signed_codec w32 within_32 };

    ghost agrees = { agreed };
}

impl SerJson for i32 {
    fn ser_json(&self, _alloc: Global, _d: usize, s: &mut SerJsonState) -> Result<(), AllocError> {
        append_signed(&mut s.out, i64::from(*self))
    }
}

impl Signed for i32 {
    ghost width = { w32 };

    ghost value = { λ x. x };

    fn narrow(number: i64) -> i32 {
        number as i32
    }
}

impl DeJson for i32 {
    #[inline(always)]
    fn de_json(
        alloc: Global,
        state: &mut DeJsonState,
        input: &mut Chars<'_>,
    ) -> Result<i32, DeJsonErr> {
        let read = read_signed(alloc, state, input, i32::MIN as i64, i32::MAX as i64);
        end_on_error(state, read)
    }

    #[inline(always)]
    fn de_json_plain(
        _alloc: Global,
        place: &mut Place,
        input: &mut Chars<'_>,
        _text: &mut String,
    ) -> Option<i32> {
        take_signed_of(place, input, i32::MIN as i64, i32::MAX as i64)
    }
}

impl JsonCodec for i64 {
    ghost json = { signed_codec w64 within_64 };

    ghost agrees = { agreed };
}

impl SerJson for i64 {
    fn ser_json(&self, _alloc: Global, _d: usize, s: &mut SerJsonState) -> Result<(), AllocError> {
        append_signed(&mut s.out, *self)
    }
}

impl Signed for i64 {
    ghost width = { w64 };

    ghost value = { λ x. x };

    fn narrow(number: i64) -> i64 {
        number
    }
}

impl DeJson for i64 {
    #[inline(always)]
    fn de_json(
        alloc: Global,
        state: &mut DeJsonState,
        input: &mut Chars<'_>,
    ) -> Result<i64, DeJsonErr> {
        let read = read_signed(alloc, state, input, i64::MIN, i64::MAX);
        end_on_error(state, read)
    }

    #[inline(always)]
    fn de_json_plain(
        _alloc: Global,
        place: &mut Place,
        input: &mut Chars<'_>,
        _text: &mut String,
    ) -> Option<i64> {
        take_signed_of(place, input, i64::MIN, i64::MAX)
    }
}
