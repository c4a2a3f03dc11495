//! Decimal digits of integers.

ghost use Rattle.std.specs.Prelude.{◌≡◌, ◌+◌, ◌-◌, ◌/◌, ◌%◌, ◌^◌, ◌<◌, ◌≤◌, ◌++◌, ◌∷◌, OnOk};
ghost use Rattle.std.specs.Prelude.{OnErr, string_bytes, IsAscii, length, take, drop};
ghost use Rattle.std.specs.Fmt.{decimal, signed_decimal};
ghost use Rattle.nano_text.specs.Characters.{three_digits};
ghost use Rattle.nano_text.specs.Outcomes.{Appends, Unchanged};

use crate::triples::{digit_count, leading_digits, padded_triple};
use std::alloc::AllocError;
use std::str;

/// Numbers below it fit 32 bits.
const BILLION: u64 = 1_000_000_000;
/// The most digits that a number has.
const MOST_DIGITS: usize = 20;
/// Where the digits of a number end in a buffer: before them is space for the byte that a triple
/// begins with.
const DIGITS_END: usize = MOST_DIGITS + 3;
/// From each place where digits may start there are as many bytes as the most digits.
const BUFFER_LEN: usize = DIGITS_END + MOST_DIGITS;

/// Writes a number below 1,000 as three digits that end at `end`. The byte before them is
/// overwritten too.
#[inline(always)]
fn write_triple(number: u32, buffer: &mut [u8], end: usize)
    requires small { number < 1000 }
    requires within { (4 ≤ end) × (end ≤ length buffer.old) }
    ensures { drop (end - 3) buffer.new ≡ three_digits number ++ drop end buffer.old }
{
    let digits = padded_triple(number).as_bytes();
    buffer[end - 1] = digits[3];
    buffer[end - 2] = digits[2];
    buffer[end - 3] = digits[1];
    buffer[end - 4] = digits[0];
}

/// Writes a number below 1,000,000,000 as nine digits that end at `end`. The byte before them is
/// overwritten too.
#[inline(always)]
fn write_nine(number: u32, buffer: &mut [u8], end: usize)
    requires small { number < 10 ^ 9 }
    requires within { (10 ≤ end) × (end ≤ length buffer.old) }
    ensures { drop (end - 9) buffer.new ≡ three_digits (number / 1000 / 1000)
        ++ (three_digits (number / 1000 % 1000)
        ++ (three_digits (number % 1000) ++ drop end buffer.old)) }
{
    let thousands = number / 1000;
    write_triple(number % 1000, buffer, end);
    write_triple(thousands % 1000, buffer, end - 3);
    write_triple(thousands / 1000, buffer, end - 6);
}

/// Writes the digits of a number below 1,000,000,000 so that they end at `end`, three at a time
/// from the last. Returns where they start. Bytes before them may be overwritten too.
#[inline(always)]
fn write_highest(number: u32, buffer: &mut [u8], end: usize) -> usize
    requires small { number < 10 ^ 9 }
    requires within { (length (decimal number) + 3 ≤ end) × (end ≤ length buffer.old) }
    ensures start { result + length (decimal number) ≡ end }
    ensures written { drop result buffer.new ≡ decimal number ++ drop end buffer.old }
{
    let mut rest = number;
    let mut at = end;
    'triples: while rest >= 1000 {
        write_triple(rest % 1000, buffer, at);
        rest /= 1000;
        at -= 3;
    }
    write_triple(rest, buffer, at);
    at - digit_count(rest)
}

/// Writes the digits of a number so that they end at `end`, nine at a time from the last, since 32
/// bits are divided sooner than 64. Returns where they start. Bytes before them may be overwritten
/// too.
#[inline(always)]
fn write_digits(number: u64, buffer: &mut [u8], end: usize) -> usize
    requires within { (length (decimal number) + 3 ≤ end) × (end ≤ length buffer.old) }
    ensures start { result + length (decimal number) ≡ end }
    ensures written { drop result buffer.new ≡ decimal number ++ drop end buffer.old }
{
    let mut rest = number;
    let mut at = end;
    'nines: while rest >= BILLION {
        write_nine((rest % BILLION) as u32, buffer, at);
        rest /= BILLION;
        at -= 9;
    }
    write_highest(rest as u32, buffer, at)
}

/// Appends the first bytes of an ASCII text. All of it is appended and then truncated: a copy of
/// a length that is known where this is inlined is no call. If the allocation fails, `out` is
/// unchanged.
#[inline(always)]
fn append_first(out: &mut String, text: &str, len: usize) -> Result<(), AllocError>
    requires ascii { IsAscii text.now }
    requires within { len ≤ length text.now }
    ensures ok { OnOk result (string_bytes out.new ≡ string_bytes out.old ++ take len text.now) }
    ensures err { OnErr result (Unchanged out.old out.new) }
{
    let start = out.len();
    out.push_str(text)?;
    out.truncate(start + len);
    Ok(())
}

/// These bytes as a text: ASCII is UTF-8, and its check would cost as much as the digits.
#[inline(always)]
fn ascii_text(bytes: &[u8]) -> &str
    requires { IsAscii bytes.now }
    ensures { result.now ≡ bytes.now }
{
    unsafe { str::from_utf8_unchecked(bytes) }
}

/// Appends what a buffer holds from `start` to where its digits end. If the allocation fails,
/// `out` is unchanged.
#[inline(always)]
fn append_written(out: &mut String, buffer: &[u8], start: usize) -> Result<(), AllocError>
    requires ascii { IsAscii (drop start buffer.now) }
    requires within { (3 ≤ start) × (start ≤ DIGITS_END) × (length buffer.now ≡ BUFFER_LEN) }
    ensures ok { OnOk result
        (string_bytes out.new ≡ string_bytes out.old
        ++ take (DIGITS_END - start) (drop start buffer.now)) }
    ensures err { OnErr result (Unchanged out.old out.new) }
{
    let text = ascii_text(&buffer[start..start + MOST_DIGITS]);
    append_first(out, text, DIGITS_END - start)
}

/// Appends a number below 1,000, with no branch on how many digits it has. If the allocation
/// fails, `out` is unchanged.
#[inline(always)]
fn append_short(out: &mut String, number: u32) -> Result<(), AllocError>
    requires { number < 1000 }
    ensures ok { OnOk result (string_bytes out.new ≡ string_bytes out.old ++ decimal number) }
    ensures err { OnErr result (Unchanged out.old out.new) }
{
    let count = digit_count(number);
    let digits = leading_digits(number, count);
    append_first(out, ascii_text(&digits), count)
}

/// Appends the digits of a number. If the allocation fails, `out` is unchanged.
#[inline(always)]
fn append_digits(out: &mut String, number: u64) -> Result<(), AllocError>
    ensures ok { OnOk result (string_bytes out.new ≡ string_bytes out.old ++ decimal number) }
    ensures err { OnErr result (Unchanged out.old out.new) }
{
    let mut buffer = [b'0'; BUFFER_LEN];
    let start = write_digits(number, &mut buffer, DIGITS_END);
    append_written(out, &buffer, start)
}

/// Appends a number to a text that may have to grow. If the allocation fails, `out` is unchanged.
#[cold]
#[inline(never)]
fn append_grown(out: &mut String, number: u64) -> Result<(), AllocError>
    ensures ok { OnOk result (string_bytes out.new ≡ string_bytes out.old ++ decimal number) }
    ensures err { OnErr result (Unchanged out.old out.new) }
{
    append_digits(out, number)
}

/// Appends a number, without inlining. A text that has to grow is left to another function, so
/// that nothing is saved here for its call. If the allocation fails, `out` is unchanged.
#[inline(never)]
fn append_long(out: &mut String, number: u64) -> Result<(), AllocError>
    ensures ok { OnOk result (string_bytes out.new ≡ string_bytes out.old ++ decimal number) }
    ensures err { OnErr result (Unchanged out.old out.new) }
{
    if out.capacity() - out.len() < MOST_DIGITS {
        return append_grown(out, number);
    }
    append_digits(out, number)
}

/// Appends a number in decimal digits, one below 1,000 without a call. If an allocation fails,
/// `out` is unchanged.
#[inline(always)]
pub fn append_unsigned(out: &mut String, value: u64) -> Result<(), AllocError>
    ensures ok { OnOk result (Appends out.old out.new (decimal value)) }
    ensures err { OnErr result (Unchanged out.old out.new) }
{
    if value < 1000 {
        return append_short(out, value as u32);
    }
    append_long(out, value)
}

/// Appends a minus sign and the digits of a number. If the allocation fails, `out` is unchanged.
#[inline(never)]
fn append_negative(out: &mut String, magnitude: u64) -> Result<(), AllocError>
    requires { magnitude ≤ 2 ^ 63 }
    ensures ok { OnOk result
        (string_bytes out.new ≡ string_bytes out.old ++ 45 ∷ decimal magnitude) }
    ensures err { OnErr result (Unchanged out.old out.new) }
{
    let mut buffer = [b'0'; BUFFER_LEN];
    let first = write_digits(magnitude, &mut buffer, DIGITS_END);
    buffer[first - 1] = b'-';
    append_written(out, &buffer, first - 1)
}

/// Appends a number in decimal digits, with a minus sign where it is negative. If an allocation
/// fails, `out` is unchanged.
#[inline]
pub fn append_signed(out: &mut String, value: i64) -> Result<(), AllocError>
    ensures ok { OnOk result (Appends out.old out.new (signed_decimal value)) }
    ensures err { OnErr result (Unchanged out.old out.new) }
{
    if value < 0 {
        return append_negative(out, value.unsigned_abs());
    }
    append_unsigned(out, value.unsigned_abs())
}
