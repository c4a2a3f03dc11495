//! Whole numbers of few digits, which nearly all numbers are: their digits are looked at in one
//! loop, and taken at once. Anything else falls back to `run`; no input is consumed.

ghost use Rattle.std.specs.Prelude.{◌≡◌, ◌≢◌, ◌<◌, ◌≤◌, ◌^◌, true, false, IfSome, length, get_or};
ghost use Rattle.std.specs.Prelude.{pos, neg_ℤ};
ghost use Rattle.std.specs.Char.{is_ascii_digit, digit_value};
ghost use Rattle.std.specs.Str.Iter.{chars_rest};
ghost use Rattle.std.specs.Str.Parse.{digits_value, digits_value_after};
ghost use Rattle.nano_text.specs.Characters.{prefix, following};
ghost use Rattle.nano_text.specs.Number.{continues};
ghost use Rattle.nano_text.specs.Outcomes.{Counts};
ghost use Rattle.nano_text.specs.Place.{held, before_nul, text_at};

use crate::place::Place;
use std::str::Chars;

/// Up to this many digits after a first one cannot overflow a `u64`.
const MOST: usize = 18;

/// Among so many bytes the digits end, or they are too many.
const AHEAD: usize = MOST + 1;

/// Among so many bytes a number of at most three digits ends, after its first one.
const FEW: usize = 3;

/// Digits that follow, and the character after them.
#[derive(Clone, Copy)]
pub(crate) struct Ahead {
    /// How many they are.
    pub(crate) len: usize,
    /// The number that they encode, after a first digit.
    pub(crate) value: u64,
    /// The character after them.
    pub(crate) next: u8,
}

/// Whether a whole number surely ends before this character: those from the tab up to the point,
/// `]` and `}`.
fn ends_whole(byte: u8) -> bool
    ensures { result ≡ true → (continues None None byte ≡ false) × (byte < 128) }
{
    byte >= b'\t' && byte < b'.' || byte == b']' || byte == b'}'
}

/// Looks at the digits that these bytes begin with, after a first digit. `None` where they are
/// many, or what follows is unusual.
#[inline(always)]
fn digits_within(first: u64, bytes: &[u8]) -> Option<Ahead>
    requires { first < 10 }
    ensures len { IfSome result (λ ahead. ahead.len ≡ length (prefix is_ascii_digit bytes.now)) }
    ensures value { IfSome result (λ ahead. ahead.value
        ≡ digits_value_after 10 first (prefix is_ascii_digit bytes.now)) }
    ensures next { IfSome result (λ ahead. (ahead.len < length bytes.now)
        × (ahead.next ≡ get_or bytes.now ahead.len 0)) }
    ensures ends { IfSome result (λ ahead. (continues None None ahead.next ≡ false)
        × (ahead.next < 128)) }
{
    let mut value = first;
    for (len, byte) in bytes.iter().enumerate() {
        if !byte.is_ascii_digit() {
            // Nearly each number of a list ends so, and nothing more is asked of this byte.
            if *byte == b',' {
                let next = b',';
                return Some(Ahead { len, value, next });
            }
            if !ends_whole(*byte) {
                return None;
            }
            let next = *byte;
            return Some(Ahead { len, value, next });
        }
        if len == MOST {
            return None;
        }
        value = value * 10 + u64::from(*byte - b'0');
    }
    None
}

/// Looks at the digits that these bytes begin with, after a first digit, as `digits_within` does:
/// among as many bytes as are enough, so that no turn asks whether they end. `None` where there are
/// fewer.
#[inline(always)]
fn digits_among_enough(first: u64, bytes: &[u8]) -> Option<Ahead>
    requires { first < 10 }
    ensures len { IfSome result (λ ahead. ahead.len ≡ length (prefix is_ascii_digit bytes.now)) }
    ensures value { IfSome result (λ ahead. ahead.value
        ≡ digits_value_after 10 first (prefix is_ascii_digit bytes.now)) }
    ensures next { IfSome result (λ ahead. (ahead.len < length bytes.now)
        × (ahead.next ≡ get_or bytes.now ahead.len 0)) }
    ensures ends { IfSome result (λ ahead. (continues None None ahead.next ≡ false)
        × (ahead.next < 128)) }
{
    let chunk = bytes.first_chunk::<AHEAD>()?;
    digits_within(first, chunk)
}

/// Looks at the digits that these bytes begin with, after a first digit, as `digits_within` does:
/// at the end of a text, where the bytes are few.
#[inline(always)]
fn last_digits(first: u64, bytes: &[u8]) -> Option<Ahead>
    requires { first < 10 }
    ensures len { IfSome result (λ ahead. ahead.len ≡ length (prefix is_ascii_digit bytes.now)) }
    ensures value { IfSome result (λ ahead. ahead.value
        ≡ digits_value_after 10 first (prefix is_ascii_digit bytes.now)) }
    ensures next { IfSome result (λ ahead. (ahead.len < length bytes.now)
        × (ahead.next ≡ get_or bytes.now ahead.len 0)) }
    ensures ends { IfSome result (λ ahead. (continues None None ahead.next ≡ false)
        × (ahead.next < 128)) }
{
    digits_within(first, bytes)
}

/// Looks at the digits that these bytes begin with, after a first digit. `None` where they are
/// many, or what follows is unusual.
#[inline(always)]
fn digits_ahead(first: u64, bytes: &[u8]) -> Option<Ahead>
    requires { first < 10 }
    ensures len { IfSome result (λ ahead. ahead.len ≡ length (prefix is_ascii_digit bytes.now)) }
    ensures value { IfSome result (λ ahead. ahead.value
        ≡ digits_value_after 10 first (prefix is_ascii_digit bytes.now)) }
    ensures next { IfSome result (λ ahead. (ahead.len < length bytes.now)
        × (ahead.next ≡ get_or bytes.now ahead.len 0)) }
    ensures ends { IfSome result (λ ahead. (continues None None ahead.next ≡ false)
        × (ahead.next < 128)) }
{
    if bytes.len() < AHEAD {
        return last_digits(first, bytes);
    }
    digits_among_enough(first, bytes)
}

/// Looks at the one or two digits that these bytes may begin with, after a first digit, with no
/// branch on how many they are: where numbers are short, that cannot be foreseen. `None` where there
/// are more, or what follows is unusual.
#[inline(always)]
fn few_digits(first: u64, bytes: &[u8]) -> Option<Ahead>
    requires digit { first < 10 }
    requires enough { 3 ≤ length bytes.now }
    ensures len { IfSome result (λ ahead. ahead.len ≡ length (prefix is_ascii_digit bytes.now)) }
    ensures value { IfSome result (λ ahead. ahead.value
        ≡ digits_value_after 10 first (prefix is_ascii_digit bytes.now)) }
    ensures next { IfSome result (λ ahead. (ahead.len < length bytes.now)
        × (ahead.next ≡ get_or bytes.now ahead.len 0)) }
    ensures ends { IfSome result (λ ahead. (continues None None ahead.next ≡ false)
        × (ahead.next < 128)) }
{
    let has_second = bytes[0].is_ascii_digit();
    let has_third = has_second & bytes[1].is_ascii_digit();
    let len = usize::from(has_second) + usize::from(has_third);
    let next = bytes[len];
    if next != b',' && !ends_whole(next) {
        return None;
    }
    let tens = first * 10 + u64::from(bytes[0].wrapping_sub(b'0'));
    let hundreds = tens * 10 + u64::from(bytes[1].wrapping_sub(b'0'));
    let values = [first, tens, hundreds];
    let value = values[len];
    Some(Ahead { len, value, next })
}

/// Looks at the digits that these bytes begin with, after a first digit, as `few_digits` does, or
/// at the end of a text, where the bytes are fewer, one by one.
#[inline(always)]
fn short_ahead(first: u64, bytes: &[u8]) -> Option<Ahead>
    requires { first < 10 }
    ensures len { IfSome result (λ ahead. ahead.len ≡ length (prefix is_ascii_digit bytes.now)) }
    ensures value { IfSome result (λ ahead. ahead.value
        ≡ digits_value_after 10 first (prefix is_ascii_digit bytes.now)) }
    ensures next { IfSome result (λ ahead. (ahead.len < length bytes.now)
        × (ahead.next ≡ get_or bytes.now ahead.len 0)) }
    ensures ends { IfSome result (λ ahead. (continues None None ahead.next ≡ false)
        × (ahead.next < 128)) }
{
    if bytes.len() < FEW {
        return last_digits(first, bytes);
    }
    few_digits(first, bytes)
}

/// Takes the digits that follow, and the character after them.
#[inline(always)]
pub(crate) fn stand_after(p: &mut Place, i: &mut Chars<'_>, ahead: Ahead)
    requires len { ahead.len ≡ length (prefix is_ascii_digit (chars_rest i.old)) }
    requires within { ahead.len < length (chars_rest i.old) }
    requires next { ahead.next ≡ get_or (chars_rest i.old) ahead.len 0 }
    requires ascii { ahead.next < 128 }
    ensures rest { text_at p.new i.new ≡ before_nul (following is_ascii_digit (held i.old)) }
    ensures cur { p.new.cur ≡ ahead.next }
    ensures place { p.old.cur ≢ 0 → Counts p.old i.old p.new i.new }
{
    let text = i.as_str();
    let (_digits, rest) = text.split_at(ahead.len + 1);
    *i = rest.chars();
    p.cur = char::from(ahead.next);
    if ahead.next == b'\n' {
        p.line = p.line.saturating_add(1);
        p.col = 0;
        return;
    }
    p.col = p.col.saturating_add(ahead.len + 1);
}

/// The digits of the whole number that begins at a digit, which is taken already, and goes on with
/// these bytes. Where at most `max` is wanted, one of more digits may be `None`.
#[inline(always)]
pub(crate) fn unsigned_ahead(cur: char, bytes: &[u8], max: u64) -> Option<Ahead>
    ensures digit { IfSome result (λ _. is_ascii_digit cur ≡ true) }
    ensures len { IfSome result (λ ahead. ahead.len ≡ length (prefix is_ascii_digit bytes.now)) }
    ensures value { IfSome result (λ ahead. ahead.value
        ≡ digits_value_after 10 (digit_value cur) (prefix is_ascii_digit bytes.now)) }
    ensures next { IfSome result (λ ahead. (ahead.len < length bytes.now)
        × (ahead.next ≡ get_or bytes.now ahead.len 0)) }
    ensures ends { IfSome result (λ ahead. (continues None None ahead.next ≡ false)
        × (ahead.next < 128)) }
{
    if !cur.is_ascii_digit() {
        return None;
    }
    let first = u64::from(u32::from(cur) - u32::from('0'));
    if max < 1000 {
        return short_ahead(first, bytes);
    }
    digits_ahead(first, bytes)
}

/// The digits of the whole number that begins at a minus, which is taken already, and goes on with
/// these bytes.
#[inline(always)]
pub(crate) fn negative_ahead(cur: char, bytes: &[u8]) -> Option<Ahead>
    ensures minus { IfSome result (λ _. cur ≡ 45) }
    ensures some { IfSome result (λ ahead. 0 < ahead.len) }
    ensures len { IfSome result (λ ahead. ahead.len ≡ length (prefix is_ascii_digit bytes.now)) }
    ensures value { IfSome result (λ ahead. ahead.value
        ≡ digits_value 10 (prefix is_ascii_digit bytes.now)) }
    ensures next { IfSome result (λ ahead. (ahead.len < length bytes.now)
        × (ahead.next ≡ get_or bytes.now ahead.len 0)) }
    ensures ends { IfSome result (λ ahead. (continues None None ahead.next ≡ false)
        × (ahead.next < 128)) }
{
    if cur != '-' {
        return None;
    }
    let ahead = digits_ahead(0, bytes)?;
    if ahead.len == 0 {
        return None;
    }
    Some(ahead)
}
