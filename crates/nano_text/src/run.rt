//! The run of characters that a number is read from, taken as long as it goes: good or not.

ghost use Rattle.std.specs.Prelude.{◌≡◌, ◌+◌, ◌*◌, ◌<◌, ℕ, length};
ghost use Rattle.std.specs.Char.{is_ascii_digit};
ghost use Rattle.std.specs.Option.{option_map};
ghost use Rattle.std.specs.Str.Parse.{digits_value, digits_value_after};
ghost use Rattle.nano_text.specs.Characters.{prefix, following, first_is};
ghost use Rattle.nano_text.specs.Number.{is_sign, is_letter_e};
ghost use Rattle.nano_text.specs.Outcomes.{Counts, IsWord};
ghost use Rattle.nano_text.specs.Place.{text_at};
ghost use Rattle.nano_text.specs.Scan.{first_if, after_one, is_minus_char, after_sign, fraction_at};
ghost use Rattle.nano_text.specs.Scan.{after_fraction, exponent_at, after_exponent, after_run};
ghost use Rattle.nano_text.specs.Scan.{exponent_len};
ghost use Rattle.nano_text.specs.ScanLaws.{run_at};

use crate::place::Place;
use std::str::Chars;

/// Digits that were taken.
#[derive(Clone, Copy)]
pub(crate) struct Digits {
    /// How many they are.
    pub(crate) len: usize,
    /// The number that they write, where 64 bits hold it.
    pub(crate) value: Option<u64>,
}

/// The lengths of an exponent that was taken.
#[derive(Clone, Copy)]
pub(crate) struct ExponentLen {
    pub(crate) minus: bool,
    pub(crate) digits: usize,
}

/// A run that was taken, good or not.
#[derive(Clone, Copy)]
pub(crate) struct TakenRun {
    pub(crate) sign: Option<char>,
    pub(crate) whole: Digits,
    /// How many digits come after the point, if there is one.
    pub(crate) fraction: Option<usize>,
    pub(crate) exponent: Option<ExponentLen>,
}

fn is_sign(c: char) -> bool
    ensures { result ≡ is_sign c }
{
    c == '+' || c == '-'
}

fn is_letter_e(c: char) -> bool
    ensures { result ≡ is_letter_e c }
{
    c == 'e' || c == 'E'
}

/// The number with one more digit at its end, where 64 bits hold it.
fn with_digit(value: Option<u64>, digit: u64) -> Option<u64>
    requires { digit < 10 }
    ensures { (all : ℕ) → IsWord value all → IsWord result (all * 10 + digit) }
{
    let value = value?;
    // Nearly every digit passes this one test.
    if value < u64::MAX / 10 {
        return Some(value * 10 + digit);
    }
    if value == u64::MAX / 10 && digit <= u64::MAX % 10 {
        Some(value * 10 + digit)
    } else {
        None
    }
}

/// The digits that these bytes begin with, after a first digit that is already taken.
fn digits_after(first: u64, bytes: &[u8]) -> Digits
    ensures len { result.len ≡ length (prefix is_ascii_digit bytes.now) }
    ensures value { IsWord result.value
        (digits_value_after 10 first (prefix is_ascii_digit bytes.now)) }
{
    let mut value = Some(first);
    for (len, byte) in bytes.iter().enumerate() {
        if !byte.is_ascii_digit() {
            return Digits { len, value };
        }
        value = with_digit(value, u64::from(*byte - b'0'));
    }
    Digits {
        len: bytes.len(),
        value,
    }
}

/// Takes the longest prefix of digits.
///
/// The first is the current character, which may never have been in `i`. The others are taken
/// at once, and the number that they encode is built as they are taken. Inlined, so that its
/// result remains in registers.
#[inline(always)]
fn take_digits(p: &mut Place, i: &mut Chars<'_>) -> Digits
    ensures len { result.len ≡ length (prefix is_ascii_digit (text_at p.old i.old)) }
    ensures value { IsWord result.value
        (digits_value 10 (prefix is_ascii_digit (text_at p.old i.old))) }
    ensures rest { text_at p.new i.new ≡ following is_ascii_digit (text_at p.old i.old) }
    ensures place { Counts p.old i.old p.new i.new }
{
    let Some(first) = p.cur.to_digit(10) else {
        return Digits {
            len: 0,
            value: Some(0),
        };
    };
    let text = i.as_str();
    let more = digits_after(u64::from(first), text.as_bytes());
    p.col = p.col.saturating_add(more.len);
    *i = text.split_at(more.len).1.chars();
    p.next(i);
    Digits {
        len: more.len + 1,
        value: more.value,
    }
}

/// Takes a sign, if there is one.
fn take_sign(p: &mut Place, i: &mut Chars<'_>) -> Option<char>
    ensures sign { result ≡ first_if is_sign (text_at p.old i.old) }
    ensures rest { text_at p.new i.new ≡ after_sign (text_at p.old i.old) }
    ensures place { Counts p.old i.old p.new i.new }
{
    let sign = p.cur;
    if !is_sign(sign) {
        return None;
    }
    p.next(i);
    Some(sign)
}

/// Takes a point and the digits after it, if there is one. Returns how many digits they are.
fn take_fraction(p: &mut Place, i: &mut Chars<'_>) -> Option<usize>
    ensures found { result ≡ option_map length (fraction_at (text_at p.old i.old)) }
    ensures rest { text_at p.new i.new ≡ after_fraction (text_at p.old i.old) }
    ensures place { Counts p.old i.old p.new i.new }
{
    if p.cur != '.' {
        return None;
    }
    p.next(i);
    Some(take_digits(p, i).len)
}

/// Takes a minus, if there is one, and answers whether there is.
fn take_minus(p: &mut Place, i: &mut Chars<'_>) -> bool
    ensures minus { result ≡ first_is is_minus_char (text_at p.old i.old) }
    ensures rest { text_at p.new i.new ≡ after_one is_minus_char (text_at p.old i.old) }
    ensures place { Counts p.old i.old p.new i.new }
{
    if p.cur != '-' {
        return false;
    }
    p.next(i);
    true
}

/// Takes an exponent, if there is one.
fn take_exponent(p: &mut Place, i: &mut Chars<'_>) -> Option<ExponentLen>
    ensures found { result ≡ option_map exponent_len (exponent_at (text_at p.old i.old)) }
    ensures rest { text_at p.new i.new ≡ after_exponent (text_at p.old i.old) }
    ensures place { Counts p.old i.old p.new i.new }
{
    if !is_letter_e(p.cur) {
        return None;
    }
    p.next(i);
    let minus = take_minus(p, i);
    let digits = take_digits(p, i).len;
    Some(ExponentLen { minus, digits })
}

/// Takes the run that begins here, as long as it goes.
pub(crate) fn take_run(p: &mut Place, i: &mut Chars<'_>) -> TakenRun
    ensures sign { result.sign ≡ (run_at (text_at p.old i.old)).sign }
    ensures whole { result.whole.len ≡ length (run_at (text_at p.old i.old)).whole }
    ensures value { IsWord result.whole.value
        (digits_value 10 (run_at (text_at p.old i.old)).whole) }
    ensures fraction { result.fraction ≡ option_map length (run_at (text_at p.old i.old)).fraction }
    ensures exponent { result.exponent
        ≡ option_map exponent_len (run_at (text_at p.old i.old)).exponent }
    ensures rest { text_at p.new i.new ≡ after_run (text_at p.old i.old) }
    ensures place { Counts p.old i.old p.new i.new }
{
    let sign = take_sign(p, i);
    let whole = take_digits(p, i);
    let fraction = take_fraction(p, i);
    let exponent = take_exponent(p, i);
    TakenRun {
        sign,
        whole,
        fraction,
        exponent,
    }
}
