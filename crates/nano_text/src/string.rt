//! String lexemes.

ghost use Rattle.std.specs.Prelude.{◌≡◌, ◌≢◌, ◌++◌, ◌∷◌, ◌<◌, ◌≤◌, true, false, OnErr, OnOk, IfOk};
ghost use Rattle.std.specs.Prelude.{IfSome, List, ℕ, string_bytes, string_capacity};
ghost use Rattle.std.specs.Prelude.{encode_utf8_all, length};
ghost use Rattle.std.specs.Char.{digit_value, is_ascii_hexdigit};
ghost use Rattle.std.specs.List.{AllWithin};
ghost use Rattle.nano_text.specs.Breaks.{BreaksEscape, BreaksString, BreaksUnicode, BreaksUnit};
ghost use Rattle.nano_text.specs.Characters.{prefix, following};
ghost use Rattle.nano_text.specs.Outcomes.{Appends, Counts};
ghost use Rattle.nano_text.specs.Place.{IsInLine, text_at};
ghost use Rattle.nano_text.specs.String.{CodeUnit, IsHex, IsPiece, IsString, Piece, is_plain};
ghost use Rattle.nano_text.specs.String.{piece_char, piece_text, unit_text, unit_value};

use crate::body::{escaped_char, read_at_once};
use crate::number::Fault;
use crate::place::Place;
use std::alloc::AllocError;
use std::str::Chars;

/// Whether a character, or a byte of UTF-8, stands for itself in a string. Most are greater
/// than the backslash, so that is tested first.
fn is_plain(c: u32) -> bool
    ensures { result ≡ is_plain c }
{
    c > u32::from('\\') || c != u32::from('"') && c != u32::from('\\') && c != 0
}

/// The longest prefix of some bytes that stands for itself.
#[derive(Clone, Copy)]
struct PlainRun {
    /// How many bytes it has.
    len: usize,
    /// Its bytes, each less the space, taken together by `|`. Without the highest bit there is no
    /// control character, which wraps, and none beyond ASCII, which begins with a byte above 0xC1.
    bits: u8,
}

/// Measures the bytes that stand for themselves before the first that doesn't.
fn plain_run(bytes: &[u8]) -> PlainRun
    ensures len { result.len ≡ length (prefix is_plain bytes.now) }
    ensures in_line { result.bits < 128 → AllWithin IsInLine bytes.now 0 result.len }
{
    let mut bits = 0;
    for (len, byte) in bytes.iter().enumerate() {
        if !is_plain(u32::from(*byte)) {
            return PlainRun { len, bits };
        }
        bits |= byte.wrapping_sub(b' ');
    }
    PlainRun {
        len: bytes.len(),
        bits,
    }
}

/// Appends the longest prefix of the remaining input that stands for itself.
///
/// Its first character is the current one, which may never have been in `i`. The others are
/// appended at once.
#[inline(always)]
fn take_plain(p: &mut Place, i: &mut Chars<'_>, strbuf: &mut String) -> Result<(), AllocError>
    requires { is_plain p.old.cur ≡ true }
    ensures capacity { string_capacity strbuf.old ≤ string_capacity strbuf.new }
    ensures full { OnErr result (string_capacity strbuf.old
        < length (string_bytes strbuf.old
        ++ encode_utf8_all (prefix is_plain (text_at p.old i.old)))) }
    ensures rest { OnOk result (text_at p.new i.new ≡ following is_plain (text_at p.old i.old)) }
    ensures place { Counts p.old i.old p.new i.new }
    ensures taken { OnOk result
        (Appends strbuf.old strbuf.new (prefix is_plain (text_at p.old i.old))) }
{
    strbuf.push(p.cur)?;
    let text = i.as_str();
    let run = plain_run(text.as_bytes());
    let (plain, rest) = text.split_at(run.len);
    strbuf.push_str(plain)?;
    if run.bits < 0x80 {
        p.col = p.col.saturating_add(run.len);
    } else {
        p.pass(plain);
    }
    *i = rest.chars();
    p.next(i);
    Ok(())
}

/// Takes a hexadecimal digit, and answers its value.
fn take_hex_digit(p: &mut Place, i: &mut Chars<'_>) -> Option<u32>
    ensures digit { IfSome result (λ value. (is_ascii_hexdigit p.old.cur ≡ true)
        × (value ≡ digit_value p.old.cur) × (value < 16)) }
    ensures taken { IfSome result (λ value. text_at p.old i.old ≡ p.old.cur ∷ text_at p.new i.new) }
    ensures place { Counts p.old i.old p.new i.new }
    ensures none { result ≡ None → (c : ℕ) (rest : List ℕ)
        → is_ascii_hexdigit c ≡ true → text_at p.old i.old ≡ c ∷ rest → ⊥ }
    ensures unchanged { result ≡ None → (p.new ≡ p.old) × (i.new ≡ i.old) }
{
    let value = p.cur.to_digit(16)?;
    p.next(i);
    Some(value)
}

/// Takes four hexadecimal digits, and answers the code unit that they write.
fn take_code_unit(p: &mut Place, i: &mut Chars<'_>) -> Option<u32>
    ensures taken { IfSome result (λ value. (unit : CodeUnit) × IsHex unit
        × (value ≡ unit_value unit)
        × (text_at p.old i.old ≡ unit_text unit ++ text_at p.new i.new)) }
    ensures small { IfSome result (λ value. value < 0x10000) }
    ensures place { Counts p.old i.old p.new i.new }
    ensures none { result ≡ None → (unit : CodeUnit) (rest : List ℕ) → IsHex unit
        → text_at p.old i.old ≡ unit_text unit ++ rest → ⊥ }
    ensures breaks { result ≡ None → BreaksUnit (text_at p.old i.old) (text_at p.new i.new) }
{
    let first = take_hex_digit(p, i)?;
    let second = take_hex_digit(p, i)?;
    let third = take_hex_digit(p, i)?;
    let fourth = take_hex_digit(p, i)?;
    Some(((first * 16 + second) * 16 + third) * 16 + fourth)
}

/// Takes what comes after `\u`: a code unit, or a leading surrogate, `\u` and a trailing one.
fn take_unicode(p: &mut Place, i: &mut Chars<'_>) -> Option<char>
    ensures taken { IfSome result (λ c. (piece : Piece) × IsPiece piece
        × (c ≡ piece_char piece)
        × (92 ∷ (117 ∷ text_at p.old i.old) ≡ piece_text piece ++ text_at p.new i.new)) }
    ensures place { Counts p.old i.old p.new i.new }
    ensures none { result ≡ None → (piece : Piece) (rest : List ℕ) → IsPiece piece
        → 92 ∷ (117 ∷ text_at p.old i.old) ≡ piece_text piece ++ rest → ⊥ }
    ensures breaks { result ≡ None → BreaksUnicode (text_at p.old i.old) (text_at p.new i.new) }
{
    let lead = take_code_unit(p, i)?;
    if lead < 0xD800 || 0xDFFF < lead {
        return char::from_u32(lead);
    }
    if 0xDBFF < lead || p.cur != '\\' {
        return None;
    }
    p.next(i);
    if p.cur != 'u' {
        return None;
    }
    p.next(i);
    let trail = take_code_unit(p, i)?;
    if trail < 0xDC00 || 0xDFFF < trail {
        return None;
    }
    char::from_u32(0x10000 + (lead - 0xD800) * 0x400 + (trail - 0xDC00))
}

/// Takes an escape, of which the backslash is current, and answers the character that it stands
/// for.
fn take_escape(p: &mut Place, i: &mut Chars<'_>) -> Option<char>
    requires { p.old.cur ≡ 92 }
    ensures taken { IfSome result (λ c. (piece : Piece) × IsPiece piece
        × (c ≡ piece_char piece)
        × (text_at p.old i.old ≡ piece_text piece ++ text_at p.new i.new)) }
    ensures place { Counts p.old i.old p.new i.new }
    ensures none { result ≡ None → (piece : Piece) (rest : List ℕ) → IsPiece piece
        → text_at p.old i.old ≡ piece_text piece ++ rest → ⊥ }
    ensures breaks { result ≡ None → (after : List ℕ)
        × (text_at p.old i.old ≡ 92 ∷ after) × BreaksEscape after (text_at p.new i.new) }
{
    p.next(i);
    if p.cur == 'u' {
        p.next(i);
        return take_unicode(p, i);
    }
    if p.cur == '\0' {
        return None;
    }
    let c = escaped_char(p.cur);
    p.next(i);
    Some(c)
}

/// Reads the string lexeme that begins at the current character, piece by piece.
#[cold]
#[inline(never)]
fn read_pieces(p: &mut Place, i: &mut Chars<'_>, strbuf: &mut String) -> Result<(), Fault>
    ensures found { OnOk result ((characters : List ℕ)
        × IsString (text_at p.old i.old) characters (text_at p.new i.new)
        × (string_bytes strbuf.new ≡ encode_utf8_all characters)) }
    ensures place { Counts p.old i.old p.new i.new }
    ensures memory { result ≡ Err Fault.Memory → (characters rest : List ℕ)
        → IsString (text_at p.old i.old) characters rest
        → string_capacity strbuf.old < length (encode_utf8_all characters) }
    ensures malformed { result ≡ Err Fault.Malformed → (characters rest : List ℕ)
        → IsString (text_at p.old i.old) characters rest → ⊥ }
    ensures breaks { result ≡ Err Fault.Malformed
        → BreaksString (text_at p.old i.old) (text_at p.new i.new) }
{
    strbuf.clear();
    if p.cur != '"' {
        return Err(Fault::Malformed);
    }
    p.next(i);
    'pieces: while p.cur != '"' {
        if p.cur == '\0' {
            return Err(Fault::Malformed);
        }
        if p.cur != '\\' {
            take_plain(p, i, strbuf)?;
            continue;
        }
        let Some(c) = take_escape(p, i) else {
            return Err(Fault::Malformed);
        };
        strbuf.push(c)?;
    }
    p.next(i);
    Ok(())
}

/// Reads the string lexeme that begins at the current character. Its text is left in `strbuf`.
///
/// A string is a quote, pieces and a quote. A piece is any character except a quote, a
/// backslash and NUL; or `\n`, `\r`, `\t`, `\b`, `\f` or `\0`; or `\u` and the four hexadecimal
/// digits of a scalar value; or two of these for a leading and a trailing surrogate; or a
/// backslash and any other character except NUL, which stands for that character. Line and
/// column count each character that was taken, as [`Place::next`] does.
///
/// # Errors
///
/// `Fault::Malformed` where no string lexeme begins here, `Fault::Memory` where `strbuf` could
/// not grow. Afterwards line and column count what was taken, up to where the fault was found,
/// and `strbuf` holds a prefix of the text.
#[inline(always)]
pub fn read_string(p: &mut Place, i: &mut Chars<'_>, strbuf: &mut String) -> Result<(), Fault>
    ensures found { OnOk result ((characters : List ℕ)
        × IsString (text_at p.old i.old) characters (text_at p.new i.new)
        × (string_bytes strbuf.new ≡ encode_utf8_all characters)) }
    ensures place { Counts p.old i.old p.new i.new }

    // Memory is requested only where the buffer lacks the capacity for the text.
    ensures memory { result ≡ Err Fault.Memory → (characters rest : List ℕ)
        → IsString (text_at p.old i.old) characters rest
        → string_capacity strbuf.old < length (encode_utf8_all characters) }
    ensures malformed { result ≡ Err Fault.Malformed → (characters rest : List ℕ)
        → IsString (text_at p.old i.old) characters rest → ⊥ }
    ensures breaks { result ≡ Err Fault.Malformed
        → BreaksString (text_at p.old i.old) (text_at p.new i.new) }
{
    if read_at_once(p, i, strbuf) {
        return Ok(());
    }
    // Lends copies, so that the place and the input remain in registers where they are not lent.
    let mut place = *p;
    let mut rest = i.as_str().chars();
    let read = read_pieces(&mut place, &mut rest, strbuf);
    *p = place;
    *i = rest;
    read
}
