//! Tokens that are taken with none pending: the place and the input change, and the state does not,
//! so that both can remain in registers. White space before a token is passed.
//!
//! Where a call answers that it took nothing, it may have moved the place and the input: callers
//! hand in copies.

ghost use Rattle.std.specs.Prelude.{◌≡◌, ◌≢◌, IfSome, Some, true, false, string_bytes};
ghost use Rattle.nano_text.specs.Outcomes.{Counts};
ghost use Rattle.nano_text.specs.Place.{text_at};
ghost use Rattle.nano_ron_tokens.specs.Cut.{Cut};
ghost use Rattle.nano_ron_tokens.specs.Outcomes.{TakesPlainly};
ghost use Rattle.nano_ron_tokens.specs.Scan.{AnUnsigned, AnInteger, IsInteger};
ghost use Rattle.nano_ron_tokens.specs.Scan.{punctuator_of};
ghost use Rattle.nano_ron_tokens.specs.Token.{Token, str};

use nano_text::{Place, read_string, take_negative, take_unsigned};
use std::str::Chars;

/// Takes this punctuator, if it is the current character, and answers whether it did.
#[inline(always)]
pub fn take_directly(place: &mut Place, input: &mut Chars<'_>, punctuator: char) -> bool
    requires { punctuator ≢ 0 }
    ensures taken { result ≡ true → (token : Token) → punctuator_of punctuator ≡ Some token
        → Cut (text_at place.old input.old) token (text_at place.new input.new) }
    ensures other { result ≡ false → (place.new ≡ place.old) × (input.new ≡ input.old) }
    ensures counts { Counts place.old input.old place.new input.new }
{
    if place.cur != punctuator {
        return false;
    }
    place.next(input);
    true
}

/// Takes a string, whose text `text` holds then, and answers whether it did.
#[inline(always)]
pub fn take_text(place: &mut Place, input: &mut Chars<'_>, text: &mut String) -> bool
    ensures taken { result ≡ true → Cut (text_at place.old input.old)
        (str (string_bytes text.new)) (text_at place.new input.new) }
    ensures counts { Counts place.old input.old place.new input.new }
{
    place.skip_space(input);
    match read_string(place, input, text) {
        Ok(()) => true,
        Err(_fault) => false,
    }
}

/// Takes a whole number of at most `max` without a sign.
#[inline(always)]
pub fn take_plain_unsigned(place: &mut Place, input: &mut Chars<'_>, max: u64) -> Option<u64>
    ensures { TakesPlainly (AnUnsigned max) (λ n. n)
        place.old input.old place.new input.new result }
{
    place.skip_space(input);
    let number = take_unsigned(place, input, max)?;
    if number > max {
        return None;
    }
    Some(number)
}

/// Takes the integer that begins here, where 64 bits hold it with its sign.
#[inline(always)]
fn take_integer(place: &mut Place, input: &mut Chars<'_>) -> Option<i64>
    ensures found { IfSome result (λ z. IsInteger z
        (text_at place.old input.old) (text_at place.new input.new)) }
    ensures counts { Counts place.old input.old place.new input.new }
{
    if place.cur == '-' {
        return take_negative(place, input);
    }
    let number = take_unsigned(place, input, i64::MAX as u64)?;
    if number > i64::MAX as u64 {
        return None;
    }
    Some(number as i64)
}

/// Takes a whole number from `min` to `max`, with or without a minus.
#[inline(always)]
pub fn take_plain_integer(
    place: &mut Place,
    input: &mut Chars<'_>,
    min: i64,
    max: i64,
) -> Option<i64>
    ensures { TakesPlainly (AnInteger min max) (λ z. z)
        place.old input.old place.new input.new result }
{
    place.skip_space(input);
    let number = take_integer(place, input)?;
    if number < min || max < number {
        return None;
    }
    Some(number)
}
