//! Tokens that are taken with none pending: the place and the input change, and the state does not,
//! so that both can remain in registers. White space before a token is passed.
//!
//! Where a call answers that it took nothing, it may have moved the place and the input: callers
//! hand in copies.

ghost use Rattle.std.specs.Prelude.{◌≡◌, ◌≢◌, ℕ, List, [], ◌∷◌, IfSome, Some, true, false, codes};
ghost use Rattle.std.specs.Prelude.{string_bytes};
ghost use Rattle.nano_text.specs.Outcomes.{Counts};
ghost use Rattle.nano_text.specs.Place.{text_at};
ghost use Rattle.nano_grammar.specs.Tokens.{Cuts};
ghost use Rattle.nano_json_tokens.specs.Cut.{Cut, BeginsWithWord};
ghost use Rattle.nano_json_tokens.specs.Outcomes.{TakesPlainly};
ghost use Rattle.nano_json_tokens.specs.Scan.{ATruth, AnUnsigned, AnInteger, IsInteger};
ghost use Rattle.nano_json_tokens.specs.Scan.{punctuator_of};
ghost use Rattle.nano_json_tokens.specs.Token.{Token, str, colon, null};

use crate::words::is_word;
use nano_text::{Place, plain_string_before, read_string, take_negative, take_unsigned};
use std::str::Chars;

/// Takes this character, if it is the current one.
#[inline(always)]
fn take_character(place: &mut Place, input: &mut Chars<'_>, character: char) -> Option<()>
    requires { character ≢ 0 }
    ensures { IfSome result (λ _.
        (text_at place.old input.old ≡ character ∷ text_at place.new input.new)
        × Counts place.old input.old place.new input.new) }
{
    if place.cur != character {
        return None;
    }
    place.next(input);
    Some(())
}

/// Takes this punctuator, if it is the current character, and answers whether it did.
#[inline(always)]
pub fn take_directly(place: &mut Place, input: &mut Chars<'_>, punctuator: char) -> bool
    requires { punctuator ≢ 0 }
    ensures taken { result ≡ true → (token : Token) → punctuator_of punctuator ≡ Some token
        → Cut (text_at place.old input.old) token (text_at place.new input.new) }
    ensures other { result ≡ false → (place.new ≡ place.old) × (input.new ≡ input.old) }
    ensures counts { Counts place.old input.old place.new input.new }
{
    if place.cur != punctuator {
        return false;
    }
    place.next(input);
    true
}

/// Takes this punctuator, if it comes next, and answers whether it did.
#[inline(always)]
pub fn take_punctuator(place: &mut Place, input: &mut Chars<'_>, punctuator: char) -> bool
    requires { punctuator ≢ 0 }
    ensures taken { result ≡ true → (token : Token) → punctuator_of punctuator ≡ Some token
        → Cut (text_at place.old input.old) token (text_at place.new input.new) }
    ensures counts { Counts place.old input.old place.new input.new }
{
    place.skip_space(input);
    take_directly(place, input, punctuator)
}

/// Whether `null` may come next, by its first character.
#[inline(always)]
pub fn may_be_null(place: &Place, input: &Chars<'_>) -> bool
    ensures { result ≡ false → (rest : List ℕ)
        → Cut (text_at place.now input.now) null rest → ⊥ }
{
    let mut here = *place;
    let mut rest = input.as_str().chars();
    here.skip_space(&mut rest);
    here.cur == 'n'
}

/// Takes `null`.
#[inline(always)]
pub fn take_null(place: &mut Place, input: &mut Chars<'_>) -> Option<()>
    ensures { IfSome result (λ _.
        Cut (text_at place.old input.old) null (text_at place.new input.new)
        × Counts place.old input.old place.new input.new) }
{
    place.skip_space(input);
    take_character(place, input, 'n')?;
    take_character(place, input, 'u')?;
    take_character(place, input, 'l')?;
    take_character(place, input, 'l')?;
    if is_word(place.cur) {
        return None;
    }
    Some(())
}

/// Takes `true` or `false`.
#[inline(always)]
pub fn take_plain_bool(place: &mut Place, input: &mut Chars<'_>) -> Option<bool>
    ensures { TakesPlainly ATruth (λ b. b) place.old input.old place.new input.new result }
{
    place.skip_space(input);
    if place.cur == 't' {
        take_true(place, input)?;
        return Some(true);
    }
    take_false(place, input)?;
    Some(false)
}

/// Takes `true` from the current character on.
#[inline(always)]
fn take_true(place: &mut Place, input: &mut Chars<'_>) -> Option<()>
    ensures { IfSome result (λ _. BeginsWithWord (codes "true")
        (text_at place.old input.old) (text_at place.new input.new)
        × Counts place.old input.old place.new input.new) }
{
    take_character(place, input, 't')?;
    take_character(place, input, 'r')?;
    take_character(place, input, 'u')?;
    take_character(place, input, 'e')?;
    if is_word(place.cur) {
        return None;
    }
    Some(())
}

/// Takes `false` from the current character on.
#[inline(always)]
fn take_false(place: &mut Place, input: &mut Chars<'_>) -> Option<()>
    ensures { IfSome result (λ _. BeginsWithWord (codes "false")
        (text_at place.old input.old) (text_at place.new input.new)
        × Counts place.old input.old place.new input.new) }
{
    take_character(place, input, 'f')?;
    take_character(place, input, 'a')?;
    take_character(place, input, 'l')?;
    take_character(place, input, 's')?;
    take_character(place, input, 'e')?;
    if is_word(place.cur) {
        return None;
    }
    Some(())
}

/// Takes a name without an escape and the colon directly after it. The name is a part of the input.
#[inline(always)]
pub fn take_name<'a>(place: &mut Place, input: &mut Chars<'a>) -> Option<&'a str>
    ensures taken { IfSome result (λ name. Cuts Cut (str name.now ∷ (colon ∷ []))
        (text_at place.old input.old) (text_at place.new input.new)) }
    ensures counts { IfSome result (λ _. Counts place.old input.old place.new input.new) }
{
    place.skip_space(input);
    let name = plain_string_before(place, input, Some(b':'))?;
    if !take_directly(place, input, ':') {
        return None;
    }
    Some(name)
}

/// Takes a string, whose text `text` holds then, and answers whether it did.
#[inline(always)]
pub fn take_text(place: &mut Place, input: &mut Chars<'_>, text: &mut String) -> bool
    ensures taken { result ≡ true → Cut (text_at place.old input.old)
        (str (string_bytes text.new)) (text_at place.new input.new) }
    ensures counts { Counts place.old input.old place.new input.new }
{
    place.skip_space(input);
    match read_string(place, input, text) {
        Ok(()) => true,
        Err(_fault) => false,
    }
}

/// Takes a whole number of at most `max` without a sign.
#[inline(always)]
pub fn take_plain_unsigned(place: &mut Place, input: &mut Chars<'_>, max: u64) -> Option<u64>
    ensures { TakesPlainly (AnUnsigned max) (λ n. n)
        place.old input.old place.new input.new result }
{
    place.skip_space(input);
    let number = take_unsigned(place, input, max)?;
    if number > max {
        return None;
    }
    Some(number)
}

/// Takes the integer that begins here, where 64 bits hold it with its sign.
#[inline(always)]
fn take_integer(place: &mut Place, input: &mut Chars<'_>) -> Option<i64>
    ensures found { IfSome result (λ z. IsInteger z
        (text_at place.old input.old) (text_at place.new input.new)) }
    ensures counts { Counts place.old input.old place.new input.new }
{
    if place.cur == '-' {
        return take_negative(place, input);
    }
    let number = take_unsigned(place, input, i64::MAX as u64)?;
    if number > i64::MAX as u64 {
        return None;
    }
    Some(number as i64)
}

/// Takes a whole number from `min` to `max`, with or without a minus.
#[inline(always)]
pub fn take_plain_integer(
    place: &mut Place,
    input: &mut Chars<'_>,
    min: i64,
    max: i64,
) -> Option<i64>
    ensures { TakesPlainly (AnInteger min max) (λ z. z)
        place.old input.old place.new input.new result }
{
    place.skip_space(input);
    let number = take_integer(place, input)?;
    if number < min || max < number {
        return None;
    }
    Some(number)
}
