//! Unsigned integers: a whole number in the type's range, without a minus sign.
//! Their readers are inlined: a value read then passes through no result with space for an
//! error.

ghost use Rattle.std.specs.Prelude.{◌≡◌, ◌+◌, ◌^◌};
ghost use Rattle.nano_value.specs.Meaning.{whole};
ghost use Rattle.nano_meaning.proofs.AgreesLaws.{agreed};
ghost use Rattle.nano_ron.specs.Outcomes.{position, Reads};
ghost use Rattle.nano_ron_tokens.specs.Outcomes.{TakesPlainly};
ghost use Rattle.nano_ron.specs.ScalarCodecs.{unsigned, unsigned_codec, below_8, below_16};
ghost use Rattle.nano_ron.specs.ScalarCodecs.{below_32, below_64};

use crate::traits::{DeRon, RonCodec, SerRon};
use nano_ron_tokens::{DeRonErr, DeRonState, SerRonState, end_on_error, take_plain_unsigned};
use nano_text::{Place, append_unsigned};
use std::alloc::{AllocError, Global};
use std::str::Chars;

/// An unsigned integer type of so many bits.
trait Unsigned: Sized {
    ghost use Rattle.std.specs.Prelude.{◌≡◌, ◌<◌, ◌^◌, ℕ};

    ghost bits: { ℕ };

    /// The number that a value is.
    ghost value: { Self → ℕ };

    /// The value that is this number.
    fn narrow(number: u64) -> Self
        requires { number < 2 ^ bits }
        ensures { value result ≡ number };
}

/// Reads a whole number without a minus sign that is at most `max`. On an error, the position
/// of the state is unspecified.
#[inline(always)]
fn read_unsigned<T: Unsigned>(
    alloc: Global,
    state: &mut DeRonState,
    input: &mut Chars<'_>,
    max: u64,
) -> Result<T, DeRonErr>
    requires { 2 ^ T.bits ≡ max + 1 }
    ensures { Reads (unsigned T.bits).encodes (λ x. whole (T.value x))
        (position state.old input.old) (position state.new input.new) result }
{
    let number = state.u64_range(alloc, max)?;
    state.next_tok(alloc, input)?;
    Ok(T::narrow(number))
}

/// Takes a whole number of at most `max`, which stands plainly.
#[inline(always)]
fn take_unsigned_of<T: Unsigned>(place: &mut Place, input: &mut Chars<'_>, max: u64) -> Option<T>
    requires { 2 ^ T.bits ≡ max + 1 }
    ensures { TakesPlainly (unsigned T.bits).encodes (λ x. whole (T.value x))
        place.old input.old place.new input.new result }
{
    let number = take_plain_unsigned(place, input, max)?;
    Some(T::narrow(number))
}

impl RonCodec for u8 {
    ghost ron = { unsigned_codec 8 below_8 };

    ghost agrees = { agreed };
}

impl SerRon for u8 {
    fn ser_ron(&self, _alloc: Global, _d: usize, s: &mut SerRonState) -> Result<(), AllocError> {
        append_unsigned(&mut s.out, u64::from(*self))
    }
}

impl Unsigned for u8 {
    ghost bits = { 8 };

    ghost value = { λ x. x };

    fn narrow(number: u64) -> u8 {
        number as u8
    }
}

impl DeRon for u8 {
    #[inline(always)]
    fn de_ron(
        alloc: Global,
        state: &mut DeRonState,
        input: &mut Chars<'_>,
    ) -> Result<u8, DeRonErr> {
        let read = read_unsigned(alloc, state, input, u8::MAX as u64);
        end_on_error(state, read)
    }

    #[inline(always)]
    fn de_ron_plain(
        _alloc: Global,
        place: &mut Place,
        input: &mut Chars<'_>,
        _text: &mut String,
    ) -> Option<u8> {
        take_unsigned_of(place, input, u8::MAX as u64)
    }
}

impl RonCodec for u16 {
    ghost ron = { unsigned_codec 16 below_16 };

    ghost agrees = { agreed };
}

impl SerRon for u16 {
    fn ser_ron(&self, _alloc: Global, _d: usize, s: &mut SerRonState) -> Result<(), AllocError> {
        append_unsigned(&mut s.out, u64::from(*self))
    }
}

impl Unsigned for u16 {
    ghost bits = { 16 };

    ghost value = { λ x. x };

    fn narrow(number: u64) -> u16 {
        number as u16
    }
}

impl DeRon for u16 {
    #[inline(always)]
    fn de_ron(
        alloc: Global,
        state: &mut DeRonState,
        input: &mut Chars<'_>,
    ) -> Result<u16, DeRonErr> {
        let read = read_unsigned(alloc, state, input, u16::MAX as u64);
        end_on_error(state, read)
    }

    #[inline(always)]
    fn de_ron_plain(
        _alloc: Global,
        place: &mut Place,
        input: &mut Chars<'_>,
        _text: &mut String,
    ) -> Option<u16> {
        take_unsigned_of(place, input, u16::MAX as u64)
    }
}

impl RonCodec for u32 {
    ghost ron = { unsigned_codec 32 below_32 };

    ghost agrees = { agreed };
}

impl SerRon for u32 {
    fn ser_ron(&self, _alloc: Global, _d: usize, s: &mut SerRonState) -> Result<(), AllocError> {
        append_unsigned(&mut s.out, u64::from(*self))
    }
}

impl Unsigned for u32 {
    ghost bits = { 32 };

    ghost value = { λ x. x };

    fn narrow(number: u64) -> u32 {
        number as u32
    }
}

impl DeRon for u32 {
    #[inline(always)]
    fn de_ron(
        alloc: Global,
        state: &mut DeRonState,
        input: &mut Chars<'_>,
    ) -> Result<u32, DeRonErr> {
        let read = read_unsigned(alloc, state, input, u32::MAX as u64);
        end_on_error(state, read)
    }

    #[inline(always)]
    fn de_ron_plain(
        _alloc: Global,
        place: &mut Place,
        input: &mut Chars<'_>,
        _text: &mut String,
    ) -> Option<u32> {
        take_unsigned_of(place, input, u32::MAX as u64)
    }
}

impl RonCodec for u64 {
    ghost ron = { unsigned_codec 64 below_64 };

    ghost agrees = { agreed };
}

impl SerRon for u64 {
    fn ser_ron(&self, _alloc: Global, _d: usize, s: &mut SerRonState) -> Result<(), AllocError> {
        append_unsigned(&mut s.out, *self)
    }
}

impl Unsigned for u64 {
    ghost bits = { 64 };

    ghost value = { λ x. x };

    fn narrow(number: u64) -> u64 {
        number
    }
}

impl DeRon for u64 {
    #[inline(always)]
    fn de_ron(
        alloc: Global,
        state: &mut DeRonState,
        input: &mut Chars<'_>,
    ) -> Result<u64, DeRonErr> {
        let read = read_unsigned(alloc, state, input, u64::MAX);
        end_on_error(state, read)
    }

    #[inline(always)]
    fn de_ron_plain(
        _alloc: Global,
        place: &mut Place,
        input: &mut Chars<'_>,
        _text: &mut String,
    ) -> Option<u64> {
        take_unsigned_of(place, input, u64::MAX)
    }
}

impl RonCodec for usize {
    ghost ron = { unsigned_codec 64 below_64 };

    ghost agrees = { agreed };
}

impl SerRon for usize {
    fn ser_ron(&self, _alloc: Global, _d: usize, s: &mut SerRonState) -> Result<(), AllocError> {
        append_unsigned(&mut s.out, *self as u64)
    }
}

impl Unsigned for usize {
    ghost bits = { 64 };

    ghost value = { λ x. x };

    fn narrow(number: u64) -> usize {
        number as usize
    }
}

impl DeRon for usize {
    #[inline(always)]
    fn de_ron(
        alloc: Global,
        state: &mut DeRonState,
        input: &mut Chars<'_>,
    ) -> Result<usize, DeRonErr> {
        let read = read_unsigned(alloc, state, input, usize::MAX as u64);
        end_on_error(state, read)
    }

    #[inline(always)]
    fn de_ron_plain(
        _alloc: Global,
        place: &mut Place,
        input: &mut Chars<'_>,
        _text: &mut String,
    ) -> Option<usize> {
        take_unsigned_of(place, input, usize::MAX as u64)
    }
}
