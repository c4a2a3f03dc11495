//! Signed integers: a whole number in the type's range, with or without a minus sign.
//! Their readers are inlined: a value read then passes through no result with space for an
//! error.

ghost use Rattle.std.specs.Int.{w8, w16, w32, w64};
ghost use Rattle.nano_value.specs.Meaning.{number};
ghost use Rattle.nano_meaning.proofs.AgreesLaws.{agreed};
ghost use Rattle.nano_ron.specs.ScalarCodecs.{IsRangeOf, signed, signed_codec, within_8, within_16};
ghost use Rattle.nano_ron.specs.ScalarCodecs.{within_32, within_64};
ghost use Rattle.nano_ron.specs.Outcomes.{position, Reads};
ghost use Rattle.nano_ron_tokens.specs.Outcomes.{TakesPlainly};

use crate::traits::{DeRon, RonCodec, SerRon};
use nano_ron_tokens::{DeRonErr, DeRonState, SerRonState, end_on_error, take_plain_integer};
use nano_text::{Place, append_signed};
use std::alloc::{AllocError, Global};
use std::str::Chars;

/// A signed integer type of a width.
trait Signed: Sized {
    ghost use Rattle.std.specs.Prelude.{◌≡◌, ℤ, FitsSigned};
    ghost use Rattle.std.specs.Int.{Width};

    ghost width: { Width };

    /// The number that a value is.
    ghost value: { Self → ℤ };

    /// The value that is this number.
    fn narrow(number: i64) -> Self
        requires { FitsSigned width number }
        ensures { value result ≡ number };
}

/// Reads a whole number, with or without a minus sign, from `min` to `max`. On an error, the
/// position of the state is unspecified.
#[inline(always)]
fn read_signed<T: Signed>(
    alloc: Global,
    state: &mut DeRonState,
    input: &mut Chars<'_>,
    min: i64,
    max: i64,
) -> Result<T, DeRonErr>
    requires { IsRangeOf T.width min max }
    ensures { Reads (signed T.width).encodes (λ x. number (T.value x))
        (position state.old input.old) (position state.new input.new) result }
{
    let number = state.i64_range(alloc, min, max)?;
    state.next_tok(alloc, input)?;
    Ok(T::narrow(number))
}

/// Takes a whole number from `min` to `max`, which stands plainly.
#[inline(always)]
fn take_signed_of<T: Signed>(
    place: &mut Place,
    input: &mut Chars<'_>,
    min: i64,
    max: i64,
) -> Option<T>
    requires { IsRangeOf T.width min max }
    ensures { TakesPlainly (signed T.width).encodes (λ x. number (T.value x))
        place.old input.old place.new input.new result }
{
    let number = take_plain_integer(place, input, min, max)?;
    Some(T::narrow(number))
}

impl RonCodec for i8 {
    ghost ron = { signed_codec w8 within_8 };

    ghost agrees = { agreed };
}

impl SerRon for i8 {
    fn ser_ron(&self, _alloc: Global, _d: usize, s: &mut SerRonState) -> Result<(), AllocError> {
        append_signed(&mut s.out, i64::from(*self))
    }
}

impl Signed for i8 {
    ghost width = { w8 };

    ghost value = { λ x. x };

    fn narrow(number: i64) -> i8 {
        number as i8
    }
}

impl DeRon for i8 {
    #[inline(always)]
    fn de_ron(
        alloc: Global,
        state: &mut DeRonState,
        input: &mut Chars<'_>,
    ) -> Result<i8, DeRonErr> {
        let read = read_signed(alloc, state, input, i8::MIN as i64, i8::MAX as i64);
        end_on_error(state, read)
    }

    #[inline(always)]
    fn de_ron_plain(
        _alloc: Global,
        place: &mut Place,
        input: &mut Chars<'_>,
        _text: &mut String,
    ) -> Option<i8> {
        take_signed_of(place, input, i8::MIN as i64, i8::MAX as i64)
    }
}

impl RonCodec for i16 {
    ghost ron = { signed_codec w16 within_16 };

    ghost agrees = { agreed };
}

impl SerRon for i16 {
    fn ser_ron(&self, _alloc: Global, _d: usize, s: &mut SerRonState) -> Result<(), AllocError> {
        append_signed(&mut s.out, i64::from(*self))
    }
}

impl Signed for i16 {
    ghost width = { w16 };

    ghost value = { λ x. x };

    fn narrow(number: i64) -> i16 {
        number as i16
    }
}

impl DeRon for i16 {
    #[inline(always)]
    fn de_ron(
        alloc: Global,
        state: &mut DeRonState,
        input: &mut Chars<'_>,
    ) -> Result<i16, DeRonErr> {
        let read = read_signed(alloc, state, input, i16::MIN as i64, i16::MAX as i64);
        end_on_error(state, read)
    }

    #[inline(always)]
    fn de_ron_plain(
        _alloc: Global,
        place: &mut Place,
        input: &mut Chars<'_>,
        _text: &mut String,
    ) -> Option<i16> {
        take_signed_of(place, input, i16::MIN as i64, i16::MAX as i64)
    }
}

impl RonCodec for i32 {
    ghost ron = { signed_codec w32 within_32 };

    ghost agrees = { agreed };
}

impl SerRon for i32 {
    fn ser_ron(&self, _alloc: Global, _d: usize, s: &mut SerRonState) -> Result<(), AllocError> {
        append_signed(&mut s.out, i64::from(*self))
    }
}

impl Signed for i32 {
    ghost width = { w32 };

    ghost value = { λ x. x };

    fn narrow(number: i64) -> i32 {
        number as i32
    }
}

impl DeRon for i32 {
    #[inline(always)]
    fn de_ron(
        alloc: Global,
        state: &mut DeRonState,
        input: &mut Chars<'_>,
    ) -> Result<i32, DeRonErr> {
        let read = read_signed(alloc, state, input, i32::MIN as i64, i32::MAX as i64);
        end_on_error(state, read)
    }

    #[inline(always)]
    fn de_ron_plain(
        _alloc: Global,
        place: &mut Place,
        input: &mut Chars<'_>,
        _text: &mut String,
    ) -> Option<i32> {
        take_signed_of(place, input, i32::MIN as i64, i32::MAX as i64)
    }
}

impl RonCodec for i64 {
    ghost ron = { signed_codec w64 within_64 };

    ghost agrees = { agreed };
}

impl SerRon for i64 {
    fn ser_ron(&self, _alloc: Global, _d: usize, s: &mut SerRonState) -> Result<(), AllocError> {
        append_signed(&mut s.out, *self)
    }
}

impl Signed for i64 {
    ghost width = { w64 };

    ghost value = { λ x. x };

    fn narrow(number: i64) -> i64 {
        number
    }
}

impl DeRon for i64 {
    #[inline(always)]
    fn de_ron(
        alloc: Global,
        state: &mut DeRonState,
        input: &mut Chars<'_>,
    ) -> Result<i64, DeRonErr> {
        let read = read_signed(alloc, state, input, i64::MIN, i64::MAX);
        end_on_error(state, read)
    }

    #[inline(always)]
    fn de_ron_plain(
        _alloc: Global,
        place: &mut Place,
        input: &mut Chars<'_>,
        _text: &mut String,
    ) -> Option<i64> {
        take_signed_of(place, input, i64::MIN, i64::MAX)
    }
}
