//! Number lexemes.

ghost use Rattle.std.specs.Prelude.{◌≡◌, ◌+◌, ◌^◌, ◌<◌, ◌≤◌, IfOk, List, ℕ, pos, neg_ℤ, length};
ghost use Rattle.std.specs.Prelude.{string_bytes, string_capacity, MatchOption, SomeIff, IfSome, None};
ghost use Rattle.std.specs.Prelude.{true};
ghost use Rattle.std.specs.Char.{is_ascii_digit};
ghost use Rattle.std.specs.Str.Parse.{digits_value};
ghost use Rattle.nano_text.specs.Number.{IsNumber, AreGoodParts, number_from_parts, is_minus};
ghost use Rattle.nano_text.specs.Number.{sign_text};
ghost use Rattle.nano_text.specs.Breaks.{BreaksNumber};
ghost use Rattle.nano_text.specs.Outcomes.{Counts, IsWord};
ghost use Rattle.nano_text.specs.Place.{text_at};
ghost use Rattle.nano_text.specs.Scan.{decimal_len, fraction_capacity, exponent_capacity};

use crate::place::Place;
use crate::run::{Digits, ExponentLen, take_run};
use crate::whole::{negative_ahead, stand_after, unsigned_ahead};
use std::alloc::AllocError;
use std::str::Chars;

/// Which number a lexeme is.
#[derive(Clone, Copy, Debug, PartialEq)]
pub enum Number {
    /// An integer without a minus.
    U64(u64),
    /// An integer with a minus, which 0 may have too.
    I64(i64),
    /// A number with a point or an exponent. Its text stands in the buffer that was passed.
    Dec,
}

/// Why no lexeme was read.
#[derive(Clone, Copy, Debug, PartialEq)]
pub enum Fault {
    /// None begins there.
    Malformed,
    /// A buffer could not grow for its text.
    Memory,
}

impl From<AllocError> for Fault {
    ghost use Rattle.std.specs.Prelude.{◌≡◌};
    ghost use Rattle.nano_text.specs.declared.number.Fault.TheVariants.{Memory};

    ghost from_gives = { λ _ e. e ≡ Memory };

    fn from(_e: AllocError) -> Fault {
        Self::Memory
    }
}

fn is_minus(sign: Option<char>) -> bool
    ensures { result ≡ is_minus sign }
{
    match sign {
        Some(c) => c == '-',
        None => false,
    }
}

/// How many characters a sign takes.
fn sign_len(sign: Option<char>) -> usize
    ensures { result ≡ length (sign_text sign) }
{
    match sign {
        Some(_) => 1,
        None => 0,
    }
}

/// `-value`, where 64 bits hold it.
fn negated(value: u64) -> Option<i64>
    ensures { SomeIff result (value ≤ 2 ^ 63) (neg_ℤ (pos value)) }
{
    if value < 1 << 63 {
        Some(-(value as i64))
    } else if value == 1 << 63 {
        Some(i64::MIN)
    } else {
        None
    }
}

/// `-value` as a number, where 64 bits hold it.
fn negative(value: u64) -> Option<Number>
    ensures { IfSome result (λ number. (value ≤ 2 ^ 63)
        × (number ≡ Number.I64 (neg_ℤ (pos value)))) }
{
    let value = negated(value)?;
    Some(Number::I64(value))
}

/// The integer that a sign and digits write.
fn integer_of(minus: bool, whole: Digits) -> Option<Number>
    ensures { (ds : List ℕ) → whole.len ≡ length ds → IsWord whole.value (digits_value 10 ds)
        → MatchOption result
        (AreGoodParts minus ds None None → ⊥)
        (λ n. AreGoodParts minus ds None None × (n ≡ number_from_parts minus ds None None)) }
{
    if whole.len == 0 {
        return None;
    }
    let value = whole.value?;
    if !minus {
        return Some(Number::U64(value));
    }
    let value = negated(value)?;
    Some(Number::I64(value))
}

/// How many characters come after the point of a good decimal, or after the letter of its
/// exponent if it has no point. `None` for one that isn't good.
fn decimal_len(
    whole: usize,
    fraction: Option<usize>,
    exponent: Option<ExponentLen>,
) -> Option<usize>
    requires { fraction_capacity fraction + exponent_capacity exponent < 2 ^ 64 }
    ensures { result ≡ decimal_len whole fraction exponent }
{
    match (fraction, exponent) {
        (None, None) => None,
        (Some(digits), None) => {
            if 0 < whole || 0 < digits {
                Some(digits)
            } else {
                None
            }
        }
        (None, Some(exponent)) => {
            if 0 < whole && 0 < exponent.digits {
                Some(usize::from(exponent.minus) + exponent.digits)
            } else {
                None
            }
        }
        (Some(digits), Some(exponent)) => {
            if (0 < whole || 0 < digits) && 0 < exponent.digits {
                Some(digits + 1 + usize::from(exponent.minus) + exponent.digits)
            } else {
                None
            }
        }
    }
}

/// Takes the whole number without a sign that begins at the current character, where at most `max`
/// is wanted; it may be greater. `None`, which takes nothing, where there is none, and where it has
/// many digits or what follows it is unusual.
///
/// Below 1,000 no branch asks how many digits there are, which nobody can foresee.
#[inline(always)]
pub fn take_unsigned(p: &mut Place, i: &mut Chars<'_>, max: u64) -> Option<u64>
    ensures found { IfSome result (λ value. (run : List ℕ)
        × IsNumber (text_at p.old i.old) (Number.U64 value) run (text_at p.new i.new)) }
    ensures begins { IfSome result (λ _. is_ascii_digit p.old.cur ≡ true) }
    ensures place { Counts p.old i.old p.new i.new }
    ensures none { result ≡ None → (p.new ≡ p.old) × (i.new ≡ i.old) }
{
    let ahead = unsigned_ahead(p.cur, i.as_str().as_bytes(), max)?;
    stand_after(p, i, ahead);
    Some(ahead.value)
}

/// Takes the whole number with a minus that begins at the current character. `None`, which takes
/// nothing, where there is none, and where it has many digits or what follows it is unusual.
#[inline(always)]
pub fn take_negative(p: &mut Place, i: &mut Chars<'_>) -> Option<i64>
    ensures found { IfSome result (λ value. (run : List ℕ)
        × IsNumber (text_at p.old i.old) (Number.I64 value) run (text_at p.new i.new)) }
    ensures begins { IfSome result (λ _. p.old.cur ≡ 45) }
    ensures place { Counts p.old i.old p.new i.new }
    ensures none { result ≡ None → (p.new ≡ p.old) × (i.new ≡ i.old) }
{
    let ahead = negative_ahead(p.cur, i.as_str().as_bytes())?;
    let value = negated(ahead.value)?;
    stand_after(p, i, ahead);
    Some(value)
}

/// Reads the number lexeme that begins at the current character.
///
/// A number is an optional sign, digits, optionally a point and digits, optionally `e` or `E`,
/// an optional minus and digits. The longest run is taken. Without a point and an exponent it
/// is an integer, which has a digit: with a minus an `I64` down to -2^63, otherwise a `U64` up
/// to 2^64 - 1. A decimal has a digit before its exponent, and one in it; its text is left in
/// `numbuf`. Line and column count each character that was taken, as [`Place::next`] does.
///
/// # Errors
///
/// `Fault::Malformed` where no number lexeme begins here: no shorter part of a run that isn't
/// good is one. `Fault::Memory` where `numbuf` could not grow for a decimal's text; an integer
/// allocates no memory. Afterwards the place is after the run.
#[inline(always)]
pub fn read_number(p: &mut Place, i: &mut Chars<'_>, numbuf: &mut String) -> Result<Number, Fault>
    ensures found { IfOk result (λ number. (run : List ℕ)
        × IsNumber (text_at p.old i.old) number run (text_at p.new i.new)
        × (number ≡ Number.Dec → string_bytes numbuf.new ≡ run)) }
    ensures place { Counts p.old i.old p.new i.new }

    // Memory is requested only where the buffer lacks the capacity for a decimal's text.
    ensures memory { result ≡ Err Fault.Memory → (run rest : List ℕ)
        × IsNumber (text_at p.old i.old) Number.Dec run rest
        × (string_capacity numbuf.old < length run) }
    ensures malformed { result ≡ Err Fault.Malformed → (number : Number) (run rest : List ℕ)
        → IsNumber (text_at p.old i.old) number run rest → ⊥ }
    ensures breaks { result ≡ Err Fault.Malformed
        → BreaksNumber (text_at p.old i.old) (text_at p.new i.new) }
{
    if let Some(ahead) = unsigned_ahead(p.cur, i.as_str().as_bytes(), u64::MAX) {
        stand_after(p, i, ahead);
        return Ok(Number::U64(ahead.value));
    }
    // Lends a copy, so that the place itself remains in registers where it is not lent.
    let mut place = *p;
    let read = read_other(&mut place, i, numbuf);
    *p = place;
    read
}

/// Reads any number lexeme, of which few are whole numbers without a minus.
#[inline(never)]
fn read_other(p: &mut Place, i: &mut Chars<'_>, numbuf: &mut String) -> Result<Number, Fault>
    ensures found { IfOk result (λ number. (run : List ℕ)
        × IsNumber (text_at p.old i.old) number run (text_at p.new i.new)
        × (number ≡ Number.Dec → string_bytes numbuf.new ≡ run)) }
    ensures place { Counts p.old i.old p.new i.new }

    // Memory is requested only where the buffer lacks the capacity for a decimal's text.
    ensures memory { result ≡ Err Fault.Memory → (run rest : List ℕ)
        × IsNumber (text_at p.old i.old) Number.Dec run rest
        × (string_capacity numbuf.old < length run) }
    ensures malformed { result ≡ Err Fault.Malformed → (number : Number) (run rest : List ℕ)
        → IsNumber (text_at p.old i.old) number run rest → ⊥ }
    ensures breaks { result ≡ Err Fault.Malformed
        → BreaksNumber (text_at p.old i.old) (text_at p.new i.new) }
{
    if let Some(ahead) = negative_ahead(p.cur, i.as_str().as_bytes()) {
        if let Some(number) = negative(ahead.value) {
            stand_after(p, i, ahead);
            return Ok(number);
        }
    }
    read_run(p, i, numbuf)
}

/// Reads any number lexeme from the run that begins here.
fn read_run(p: &mut Place, i: &mut Chars<'_>, numbuf: &mut String) -> Result<Number, Fault>
    ensures found { IfOk result (λ number. (run : List ℕ)
        × IsNumber (text_at p.old i.old) number run (text_at p.new i.new)
        × (number ≡ Number.Dec → string_bytes numbuf.new ≡ run)) }
    ensures place { Counts p.old i.old p.new i.new }

    // Memory is requested only where the buffer lacks the capacity for a decimal's text.
    ensures memory { result ≡ Err Fault.Memory → (run rest : List ℕ)
        × IsNumber (text_at p.old i.old) Number.Dec run rest
        × (string_capacity numbuf.old < length run) }
    ensures malformed { result ≡ Err Fault.Malformed → (number : Number) (run rest : List ℕ)
        → IsNumber (text_at p.old i.old) number run rest → ⊥ }
    ensures breaks { result ≡ Err Fault.Malformed
        → BreaksNumber (text_at p.old i.old) (text_at p.new i.new) }
{
    let first = p.cur;
    let text = i.as_str();
    let run = take_run(p, i);
    if run.fraction.is_none() && run.exponent.is_none() {
        let Some(number) = integer_of(is_minus(run.sign), run.whole) else {
            return Err(Fault::Malformed);
        };
        return Ok(number);
    }
    let Some(following) = decimal_len(run.whole.len, run.fraction, run.exponent) else {
        return Err(Fault::Malformed);
    };
    let (more, _rest) = text.split_at(sign_len(run.sign) + run.whole.len + following);
    numbuf.clear();
    numbuf.push(first)?;
    numbuf.push_str(more)?;
    Ok(Number::Dec)
}
