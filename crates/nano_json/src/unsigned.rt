//! Unsigned integers: a whole number in the type's range, without a minus sign.
//! The readers are inlined, so a value that is read passes through no result with space for an
//! error.
//!
//! On an error, a reader here may leave the state at any position, unless it says where.

ghost use Rattle.std.specs.Prelude.{◌≡◌, ◌+◌, ◌^◌};
ghost use Rattle.nano_value.specs.Meaning.{whole};
ghost use Rattle.nano_meaning.proofs.AgreesLaws.{agreed};
ghost use Rattle.nano_json.specs.Outcomes.{position, Reads};
ghost use Rattle.nano_json_tokens.specs.Outcomes.{TakesPlainly};
ghost use Rattle.nano_json.specs.ScalarCodecs.{unsigned, unsigned_codec, below_8, below_16};
ghost use Rattle.nano_json.specs.ScalarCodecs.{below_32, below_64};

use crate::traits::{DeJson, JsonCodec, SerJson};
use nano_json_tokens::{DeJsonErr, DeJsonState, SerJsonState, end_on_error, take_plain_unsigned};
use nano_text::{Place, append_unsigned};
use std::alloc::{AllocError, Global};
use std::str::Chars;

/// An unsigned integer type of so many bits.
trait Unsigned: Sized {
    ghost use Rattle.std.specs.Prelude.{◌≡◌, ◌<◌, ◌^◌, ℕ};

    ghost bits: { ℕ };

    /// The number that a value is.
    ghost value: { Self → ℕ };

    /// The value that is this number.
    fn narrow(number: u64) -> Self
        requires { number < 2 ^ bits }
        ensures { value result ≡ number };
}

/// Reads a whole number without a minus sign that is at most `max`.
#[inline(always)]
fn read_unsigned<T: Unsigned>(
    alloc: Global,
    state: &mut DeJsonState,
    input: &mut Chars<'_>,
    max: u64,
) -> Result<T, DeJsonErr>
    requires { 2 ^ T.bits ≡ max + 1 }
    ensures { Reads (unsigned T.bits).encodes (λ x. whole (T.value x))
        (position state.old input.old) (position state.new input.new) result }
{
    let number = state.u64_range(alloc, max)?;
    state.next_tok(alloc, input)?;
    Ok(T::narrow(number))
}

/// Takes a whole number of at most `max`, which stands plainly.
#[inline(always)]
fn take_unsigned_of<T: Unsigned>(place: &mut Place, input: &mut Chars<'_>, max: u64) -> Option<T>
    requires { 2 ^ T.bits ≡ max + 1 }
    ensures { TakesPlainly (unsigned T.bits).encodes (λ x. whole (T.value x))
        place.old input.old place.new input.new result }
{
    let number = take_plain_unsigned(place, input, max)?;
    Some(T::narrow(number))
}

impl JsonCodec for u8 {
    ghost json = { unsigned_codec 8 below_8 };

    ghost agrees = { agreed };
}

impl SerJson for u8 {
    fn ser_json(&self, _alloc: Global, _d: usize, s: &mut SerJsonState) -> Result<(), AllocError> {
        append_unsigned(&mut s.out, u64::from(*self))
    }
}

impl Unsigned for u8 {
    ghost bits = { 8 };

    ghost value = { λ x. x };

    fn narrow(number: u64) -> u8 {
        number as u8
    }
}

impl DeJson for u8 {
    #[inline(always)]
    fn de_json(
        alloc: Global,
        state: &mut DeJsonState,
        input: &mut Chars<'_>,
    ) -> Result<u8, DeJsonErr> {
        let read = read_unsigned(alloc, state, input, u8::MAX as u64);
        end_on_error(state, read)
    }

    #[inline(always)]
    fn de_json_plain(
        _alloc: Global,
        place: &mut Place,
        input: &mut Chars<'_>,
        _text: &mut String,
    ) -> Option<u8> {
        take_unsigned_of(place, input, u8::MAX as u64)
    }
}

impl JsonCodec for u16 {
    ghost json = { unsigned_codec 16 below_16 };

    ghost agrees = { agreed };
}

impl SerJson for u16 {
    fn ser_json(&self, _alloc: Global, _d: usize, s: &mut SerJsonState) -> Result<(), AllocError> {
        append_unsigned(&mut s.out, u64::from(*self))
    }
}

impl Unsigned for u16 {
    ghost bits = { 16 };

    ghost value = { λ x. x };

    fn narrow(number: u64) -> u16 {
        number as u16
    }
}

impl DeJson for u16 {
    #[inline(always)]
    fn de_json(
        alloc: Global,
        state: &mut DeJsonState,
        input: &mut Chars<'_>,
    ) -> Result<u16, DeJsonErr> {
        let read = read_unsigned(alloc, state, input, u16::MAX as u64);
        end_on_error(state, read)
    }

    #[inline(always)]
    fn de_json_plain(
        _alloc: Global,
        place: &mut Place,
        input: &mut Chars<'_>,
        _text: &mut String,
    ) -> Option<u16> {
        take_unsigned_of(place, input, u16::MAX as u64)
    }
}

impl JsonCodec for u32 {
    ghost json = { unsigned_codec 32 below_32 };

    ghost agrees = { agreed };
}

impl SerJson for u32 {
    fn ser_json(&self, _alloc: Global, _d: usize, s: &mut SerJsonState) -> Result<(), AllocError> {
        append_unsigned(&mut s.out, u64::from(*self))
    }
}

impl Unsigned for u32 {
    ghost bits = { 32 };

    ghost value = { λ x. x };

    fn narrow(number: u64) -> u32 {
        number as u32
    }
}

impl DeJson for u32 {
    #[inline(always)]
    fn de_json(
        alloc: Global,
        state: &mut DeJsonState,
        input: &mut Chars<'_>,
    ) -> Result<u32, DeJsonErr> {
        let read = read_unsigned(alloc, state, input, u32::MAX as u64);
        end_on_error(state, read)
    }

    #[inline(always)]
    fn de_json_plain(
        _alloc: Global,
        place: &mut Place,
        input: &mut Chars<'_>,
        _text: &mut String,
    ) -> Option<u32> {
        take_unsigned_of(place, input, u32::MAX as u64)
    }
}

impl JsonCodec for u64 {
    ghost json = { unsigned_codec 64 below_64 };

    ghost agrees = { agreed };
}

impl SerJson for u64 {
    fn ser_json(&self, _alloc: Global, _d: usize, s: &mut SerJsonState) -> Result<(), AllocError> {
        append_unsigned(&mut s.out, *self)
    }
}

impl Unsigned for u64 {
    ghost bits = { 64 };

    ghost value = { λ x. x };

    fn narrow(number: u64) -> u64 {
        number
    }
}

impl DeJson for u64 {
    #[inline(always)]
    fn de_json(
        alloc: Global,
        state: &mut DeJsonState,
        input: &mut Chars<'_>,
    ) -> Result<u64, DeJsonErr> {
        let read = read_unsigned(alloc, state, input, u64::MAX);
        end_on_error(state, read)
    }

    #[inline(always)]
    fn de_json_plain(
        _alloc: Global,
        place: &mut Place,
        input: &mut Chars<'_>,
        _text: &mut String,
    ) -> Option<u64> {
        take_unsigned_of(place, input, u64::MAX)
    }
}

impl JsonCodec for usize {
    ghost json = { unsigned_codec 64 below_64 };

    ghost agrees = { agreed };
}

impl SerJson for usize {
    fn ser_json(&self, _alloc: Global, _d: usize, s: &mut SerJsonState) -> Result<(), AllocError> {
        append_unsigned(&mut s.out, *self as u64)
    }
}

impl Unsigned for usize {
    ghost bits = { 64 };

    ghost value = { λ x. x };

    fn narrow(number: u64) -> usize {
        number as usize
    }
}

impl DeJson for usize {
    #[inline(always)]
    fn de_json(
        alloc: Global,
        state: &mut DeJsonState,
        input: &mut Chars<'_>,
    ) -> Result<usize, DeJsonErr> {
        let read = read_unsigned(alloc, state, input, usize::MAX as u64);
        end_on_error(state, read)
    }

    #[inline(always)]
    fn de_json_plain(
        _alloc: Global,
        place: &mut Place,
        input: &mut Chars<'_>,
        _text: &mut String,
    ) -> Option<usize> {
        take_unsigned_of(place, input, usize::MAX as u64)
    }
}
