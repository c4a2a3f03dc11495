//! Numbers and dates.

ghost use Rattle.std.specs.Prelude.{◌≡◌, ◌==◌, ◌^◌, ◌++◌, pos, neg_ℤ, nat_le, true, length, Some};
ghost use Rattle.std.specs.Prelude.{None, OnOk, OnErr, IfOk, IfErr, string_bytes, if◌then◌else◌};
ghost use Rattle.nano_toml.specs.Characters.{is_sign, is_digit, starts_number, is_in_digits};
ghost use Rattle.nano_toml.specs.Characters.{is_in_date};
ghost use Rattle.nano_toml.specs.Place.{remaining, point_remaining, number_remaining};
ghost use Rattle.nano_toml.specs.Number.{digits, value, unchanged_sign};
ghost use Rattle.nano_toml.specs.Outcomes.{OnFault, FaultIs, Appends, Takes, ReportsLexeme};
ghost use Rattle.nano_toml.specs.Scan.{number_from, tail, any_digit, fitting, more_value};
ghost use Rattle.nano_toml.specs.Scan.{decimal_at, date_at, integer_from, number_at};
ghost use Rattle.nano_toml.specs.Token.{prefix, following, begins};
ghost use Rattle.nano_toml.specs.Reading.{token_of};

use crate::fault::{Fault, Lexeme};
use crate::state::Cursor;
use crate::token::TomlTok;
use std::alloc::{AllocError, Global};

/// With one more digit, a number below this one is not too great.
const SMALL: u64 = 1 << 60;

fn is_sign(c: u8) -> bool
    ensures { result ≡ is_sign c }
{
    c == b'+' || c == b'-'
}

fn is_digit(c: u8) -> bool
    ensures { result ≡ is_digit c }
{
    c >= b'0' && c <= b'9'
}

pub(crate) fn starts_number(c: u8) -> bool
    ensures { result ≡ starts_number c }
{
    is_sign(c) || is_digit(c)
}

fn is_in_digits(c: u8) -> bool
    ensures { result ≡ is_in_digits c }
{
    is_digit(c) || c == b'_'
}

fn is_in_date(c: u8) -> bool
    ensures { result ≡ is_in_date c }
{
    is_digit(c) || c == b':' || c == b'-' || c == b'T'
}

/// Digits with underscores: how many characters they are, whether there is a digit, and their
/// value, unless it is too great.
#[derive(Clone, Copy)]
struct Digits {
    len: usize,
    any: bool,
    value: Option<u64>,
}

/// Takes digits and underscores off the prefix of bytes, and builds their value digit by digit.
fn digits_of(bytes: &[u8]) -> Digits
    ensures len { result.len ≡ length (prefix is_in_digits bytes.now) }
    ensures any { result.any ≡ any_digit (prefix is_in_digits bytes.now) }
    ensures value { result.value ≡ fitting (value (prefix is_in_digits bytes.now)) }
{
    let mut any = false;
    let mut value = Some(0);
    for (len, byte) in bytes.iter().enumerate() {
        if is_digit(*byte) {
            any = true;
            value = with_digit(value, *byte);
        } else if *byte != b'_' {
            return Digits { len, any, value };
        }
    }
    Digits {
        len: bytes.len(),
        any,
        value,
    }
}

/// Whether there is a digit.
fn has_digit(run: &str) -> bool
    ensures { result ≡ any_digit run.now }
{
    for byte in run.as_bytes() {
        if is_digit(*byte) {
            return true;
        }
    }
    false
}

/// Appends the digits of a run to the text.
fn push_digits(text: &mut String, run: &str) -> Result<(), AllocError>
    ensures { OnOk result (Appends text.old text.new (digits run.now)) }
{
    for byte in run.as_bytes() {
        if is_digit(*byte) {
            text.push(char::from(*byte))?;
        }
    }
    Ok(())
}

/// The value with one more digit, unless it is too great. Most are small, and so is what they
/// become.
fn with_digit(value: Option<u64>, digit: u8) -> Option<u64>
    requires { is_digit digit ≡ true }
    ensures { result ≡ more_value value digit }
{
    let size = value?;
    if size < SMALL {
        return Some(size * 10 + u64::from(digit - b'0'));
    }
    size.checked_mul(10)?.checked_add(u64::from(digit - b'0'))
}

/// The negative number of this size, where it is in range.
fn negative(size: u64) -> Option<i64>
    ensures { result ≡ (if nat_le size (2 ^ 63) then Some (neg_ℤ (pos size)) else None) }
{
    if size == 1 << 63 {
        return Some(i64::MIN);
    }
    if size > 1 << 63 {
        return None;
    }
    Some(-(size as i64))
}

/// The integer of digits, unless there is none or it is out of range.
fn integer(minus: bool, digits: Digits) -> Result<TomlTok, Fault>
    ensures found { IfOk result
        (λ t. integer_from minus digits.any digits.value ≡ Some (token_of t)) }
    ensures rejected { OnErr result (integer_from minus digits.any digits.value ≡ None) }
    ensures reported { IfErr result (λ e. e ≡ Fault.Malformed Lexeme.Number) }
{
    match digits.value {
        Some(size) if digits.any => {
            if !minus {
                return Ok(TomlTok::U64(size));
            }
            match negative(size) {
                Some(number) => Ok(TomlTok::I64(number)),
                None => Err(Fault::Malformed(Lexeme::Number)),
            }
        }
        _ => Err(Fault::Malformed(Lexeme::Number)),
    }
}

/// The sign that a number's text retains and the digits of a run, with capacity for more bytes.
fn start_text(alloc: Global, minus: bool, run: &str, more: usize) -> Result<String, AllocError>
    ensures { IfOk result (λ text. string_bytes text ≡ unchanged_sign minus ++ digits run.now) }
{
    let capacity = run.len().saturating_add(more).saturating_add(1);
    let mut text = String::with_capacity(alloc, capacity)?;
    if minus {
        text.push('-')?;
    }
    push_digits(&mut text, run)?;
    Ok(text)
}

impl<'a> Cursor<'a> {
    /// Takes a sign, if there is one, and answers whether it is a minus.
    fn read_sign(&mut self) -> bool
        ensures minus { result ≡ begins (λ c. c == 45) (remaining self.old) }
        ensures rest { remaining self.new
            ≡ (if begins is_sign (remaining self.old)
            then tail (remaining self.old) else remaining self.old) }
    {
        let first = self.first();
        let minus = first == b'-';
        if is_sign(first) {
            self.next();
        }
        minus
    }

    /// Takes digits and underscores.
    fn read_digits(&mut self) -> &'a str
        ensures text { result.now ≡ prefix is_in_digits (remaining self.old) }
        ensures rest { remaining self.new ≡ following is_in_digits (remaining self.old) }
    {
        self.take_while(is_in_digits)
    }

    /// Takes digits and underscores, and what they say is found as they are taken.
    fn read_integer(&mut self) -> (&'a str, Digits)
        ensures text { result.0.now ≡ prefix is_in_digits (remaining self.old) }
        ensures any { result.1.any ≡ any_digit result.0.now }
        ensures value { result.1.value ≡ fitting (value result.0.now) }
        ensures rest { remaining self.new ≡ following is_in_digits (remaining self.old) }
    {
        let held = self.rest.as_str();
        let digits = digits_of(held.as_bytes());
        let (run, rest) = held.split_at(digits.len);
        self.rest = rest.chars();
        (run, digits)
    }

    /// Takes digits, `:`, `-` and `T`.
    fn read_rest_of_date(&mut self) -> &'a str
        ensures text { result.now ≡ prefix is_in_date (remaining self.old) }
        ensures rest { remaining self.new ≡ following is_in_date (remaining self.old) }
    {
        self.take_while(is_in_date)
    }

    /// Reads a decimal, after its point, with these digits before the point.
    fn read_decimal(&mut self, alloc: Global, minus: bool, whole: &str) -> Result<TomlTok, Fault>
        ensures found { Takes result
            (decimal_at minus whole.now (remaining self.old)) (remaining self.new) }
        ensures rejected { OnFault result (decimal_at minus whole.now (remaining self.old) ≡ None) }
        ensures reported { FaultIs result (Fault.Malformed Lexeme.Number) }
        ensures remaining { OnFault result
            (remaining self.new ≡ following is_in_digits (remaining self.old)) }
    {
        let part = self.read_digits();
        let before = has_digit(whole);
        let after = has_digit(part);
        let mut text = start_text(alloc, minus, whole, part.len().saturating_add(1))?;
        text.push('.')?;
        push_digits(&mut text, part)?;
        if before || after {
            Ok(TomlTok::F64(text))
        } else {
            Err(Fault::Malformed(Lexeme::Number))
        }
    }

    /// Reads a date, after its first minus, with these digits before it.
    fn read_date(&mut self, alloc: Global, minus: bool, first: &str) -> Result<TomlTok, AllocError>
        ensures { Takes result (date_at minus first.now (remaining self.old)) (remaining self.new) }
    {
        let more = self.read_rest_of_date();
        let mut text = start_text(alloc, minus, first, more.len().saturating_add(1))?;
        text.push('-')?;
        text.push_str(more)?;
        Ok(TomlTok::Date(text))
    }

    /// Reads a number that starts with digits, after its sign.
    fn read_from_digits(&mut self, alloc: Global, minus: bool) -> Result<TomlTok, Fault>
        ensures found { Takes result (number_from minus (remaining self.old)) (remaining self.new) }
        ensures rejected { OnFault result (number_from minus (remaining self.old) ≡ None) }
        ensures reported { FaultIs result (Fault.Malformed Lexeme.Number) }
        ensures remaining { OnFault result
            (remaining self.new ≡ point_remaining (following is_in_digits (remaining self.old))) }
    {
        let (whole, digits) = self.read_integer();
        if self.take(b'.') {
            self.read_decimal(alloc, minus, whole)
        } else if self.take(b'-') {
            Ok(self.read_date(alloc, minus, whole)?)
        } else {
            integer(minus, digits)
        }
    }

    /// Reads a number or a date.
    pub(crate) fn read_number(&mut self, alloc: Global) -> Result<TomlTok, Fault>
        ensures found { Takes result (number_at (remaining self.old)) (remaining self.new) }
        ensures rejected { OnFault result (number_at (remaining self.old) ≡ None) }
        ensures reported { ReportsLexeme result }
        ensures remaining { OnFault result
            (remaining self.new ≡ number_remaining (remaining self.old)) }
    {
        let minus = self.read_sign();
        let first = self.first();
        if first == b'n' {
            return self.read_nan(minus);
        }
        if first == b'i' {
            return self.read_infinity(minus);
        }
        self.read_from_digits(alloc, minus)
    }
}
