//! Decimals: numbers with a point or an exponent, by their text.

ghost use Rattle.std.specs.Prelude.{◌≡◌, ◌↔◌, ◌∷◌, OnOk, OnErr, IsTrue, MatchOption, false};
ghost use Rattle.std.specs.Prelude.{string_bytes};
ghost use Rattle.std.specs.Char.{is_ascii_digit};
ghost use Rattle.nano_text.specs.Characters.{following, first_is};
ghost use Rattle.nano_text.specs.Number.{is_point};
ghost use Rattle.nano_text.specs.Outcomes.{Appends, AppendsPart};
ghost use Rattle.nano_text.specs.Scan.{after_one, after_sign, is_minus_char};
ghost use Rattle.nano_json_tokens.specs.Cut.{starts_number};
ghost use Rattle.nano_document.specs.Decimals.{IsDecimal, is_decimal, is_unsigned, is_exponent};
ghost use Rattle.nano_document.specs.Decimals.{are_digits, decimal_text};

use nano_json::{SerJson, SerJsonState};
use std::alloc::{AllocError, Global};

/// Whether all of a text is one number that has a point or an exponent, as JSON is read.
///
/// It begins with a sign or a digit. It has a digit before its exponent, which is `e` or `E`, an
/// optional minus, and at least one digit.
pub fn is_decimal(text: &str) -> bool
    ensures exact { IsTrue result ↔ IsDecimal text.now }
    ensures value { result ≡ is_decimal text.now }
{
    let bytes = text.as_bytes();
    starts_number(bytes) && is_unsigned(after_sign(bytes))
}

/// Whether bytes begin with a sign or a digit.
fn starts_number(bytes: &[u8]) -> bool
    ensures { result ≡ first_is starts_number bytes.now }
{
    match bytes.first() {
        Some(byte) => *byte == b'+' || *byte == b'-' || byte.is_ascii_digit(),
        None => false,
    }
}

/// Whether bytes are a decimal without a sign.
fn is_unsigned(bytes: &[u8]) -> bool
    ensures { result ≡ is_unsigned bytes.now }
{
    let pointed = after_digits(bytes);
    let Some(fraction) = after_point(pointed) else {
        return pointed.len() < bytes.len() && is_exponent(pointed);
    };
    let exponent = after_digits(fraction);
    // Without a digit, the point stands alone before the exponent.
    if bytes.len() == exponent.len() + 1 {
        return false;
    }
    exponent.is_empty() || is_exponent(exponent)
}

/// Whether bytes are an exponent: `e` or `E`, an optional minus, and digits.
fn is_exponent(bytes: &[u8]) -> bool
    ensures { result ≡ is_exponent bytes.now }
{
    match bytes.split_first() {
        Some((letter, rest)) => (*letter == b'e' || *letter == b'E')
            && are_digits(after_minus(rest)),
        None => false,
    }
}

/// Whether bytes are digits, and at least one.
fn are_digits(bytes: &[u8]) -> bool
    ensures { result ≡ are_digits bytes.now }
{
    !bytes.is_empty() && after_digits(bytes).is_empty()
}

/// What comes after a sign, if there is one.
#[tactic(auto, unfolding(nano_text::specs::Scan::after_sign))]
fn after_sign(bytes: &[u8]) -> &[u8]
    ensures { result.now ≡ after_sign bytes.now }
{
    let Some((sign, rest)) = bytes.split_first() else {
        return bytes;
    };
    if *sign == b'+' || *sign == b'-' {
        rest
    } else {
        bytes
    }
}

/// What comes after a minus, if there is one.
fn after_minus(bytes: &[u8]) -> &[u8]
    ensures { result.now ≡ after_one is_minus_char bytes.now }
{
    match bytes.split_first() {
        Some((b'-', rest)) => rest,
        _ => bytes,
    }
}

/// What comes after a point, if bytes begin with one.
fn after_point(bytes: &[u8]) -> Option<&[u8]>
    ensures { MatchOption result (first_is is_point bytes.now ≡ false)
        (λ rest. bytes.now ≡ 46 ∷ rest.now) }
{
    match bytes.split_first() {
        Some((b'.', rest)) => Some(rest),
        _ => None,
    }
}

/// What comes after the digits that bytes begin with.
fn after_digits(bytes: &[u8]) -> &[u8]
    ensures { result.now ≡ following is_ascii_digit bytes.now }
{
    for (place, byte) in bytes.iter().enumerate() {
        if !byte.is_ascii_digit() {
            return &bytes[place..];
        }
    }
    &[]
}

/// Appends a decimal as it stands, and any other text as a string. If allocation fails, the text
/// written so far remains.
pub(crate) fn append_decimal(
    alloc: Global,
    text: &String,
    d: usize,
    s: &mut SerJsonState,
) -> Result<(), AllocError>
    ensures ok { OnOk result (Appends s.old.out s.new.out (decimal_text (string_bytes text.now))) }
    ensures err { OnErr result (AppendsPart s.old.out s.new.out) }
{
    if is_decimal(text.as_str()) {
        return s.out.push_str(text.as_str());
    }
    text.ser_json(alloc, d, s)
}
