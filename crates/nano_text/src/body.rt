//! Strings of plain characters and short escapes in one line, which nearly all are: they are read
//! at once. Anything else falls back to `string`; no input is consumed.

ghost use Rattle.std.specs.Prelude.{◌≡◌, ◌≢◌, ◌++◌, ◌∷◌, ◌<◌, ◌≤◌, true, false, IfSome, None, List};
ghost use Rattle.std.specs.Prelude.{ℕ, count_by, string_bytes, string_capacity, ◌+◌, take, drop};
ghost use Rattle.std.specs.Prelude.{encode_utf8_all, length, slice_index, OnOk};
ghost use Rattle.std.specs.Str.{IsCharBoundary};
ghost use Rattle.nano_text.specs.Characters.{prefix};
ghost use Rattle.nano_text.specs.Outcomes.{Counts};
ghost use Rattle.nano_text.specs.Place.{begins_character, text_at};
ghost use Rattle.nano_text.specs.String.{IsPlainString, IsString, escaped_char, is_plain_in_line};

use crate::lanes::{LANES, plain_lanes};
use crate::place::{Place, begins_character};
use std::alloc::AllocError;
use std::str::Chars;

const BACKSPACE: char = '\u{8}';

const FORM_FEED: char = '\u{c}';

/// How many bytes are copied at once, with no call.
const BLOCK: usize = 32;

/// Whether a byte of UTF-8 is of a character that stands for itself in a string, and in its line.
fn is_plain_in_line(byte: u8) -> bool
    ensures { result ≡ is_plain_in_line byte }
{
    byte >= b' ' && byte != b'"' && byte != b'\\'
}

/// The longest prefix of some bytes that stands for itself in its line.
#[derive(Clone, Copy)]
struct LineRun {
    /// How many bytes it has.
    len: usize,
    /// How many characters.
    columns: usize,
}

/// Measures the bytes before the first that does not stand for itself in its line, one by one.
#[cold]
#[inline(never)]
fn last_run(bytes: &[u8]) -> LineRun
    ensures len { result.len ≡ length (prefix is_plain_in_line bytes.now) }
    ensures columns { result.columns
        ≡ count_by begins_character (prefix is_plain_in_line bytes.now) }
{
    let mut columns = 0;
    for (len, byte) in bytes.iter().enumerate() {
        if !is_plain_in_line(*byte) {
            return LineRun { len, columns };
        }
        if begins_character(*byte) {
            columns += 1;
        }
    }
    let len = bytes.len();
    LineRun { len, columns }
}

/// Measures the bytes before the first that does not stand for itself in its line, sixteen in a
/// turn.
#[inline(always)]
fn line_run(bytes: &[u8]) -> LineRun
    ensures len { result.len ≡ length (prefix is_plain_in_line bytes.now) }
    ensures columns { result.columns
        ≡ count_by begins_character (prefix is_plain_in_line bytes.now) }
{
    let mut len = 0;
    let mut columns = 0;
    'lanes: while bytes.len() - len >= LANES {
        let lanes = plain_lanes(bytes, len);
        columns += lanes.columns;
        if lanes.len < LANES {
            len += lanes.len;
            return LineRun { len, columns };
        }
        len += LANES;
    }
    let rest = last_run(&bytes[len..]);
    LineRun {
        len: len + rest.len,
        columns: columns + rest.columns,
    }
}

/// Whether the first bytes of a text are few, and a whole block of it is there.
#[inline(always)]
fn is_in_block(bytes: &[u8], len: usize) -> bool
    ensures { result ≡ true → (len ≤ 32) × (32 < length bytes.now)
        × (begins_character (slice_index bytes.now 32) ≡ true) }
{
    len <= BLOCK && BLOCK < bytes.len() && begins_character(bytes[BLOCK])
}

/// Appends the first bytes of a text. A few are appended with the block that they begin, which is
/// then truncated: a copy of a length that is known is no call.
#[inline(always)]
fn append_prefix(out: &mut String, text: &str, len: usize) -> Result<(), AllocError>
    requires { IsCharBoundary text.now len }
    ensures ok { OnOk result (string_bytes out.new ≡ string_bytes out.old ++ take len text.now) }
    ensures capacity { string_capacity out.old ≤ string_capacity out.new }
{
    if !is_in_block(text.as_bytes(), len) {
        return out.push_str(text.split_at(len).0);
    }
    let start = out.len();
    out.push_str(text.split_at(BLOCK).0)?;
    out.truncate(start + len);
    Ok(())
}

/// The character that a backslash and this character stand for.
pub(crate) fn escaped_char(c: char) -> char
    ensures { result ≡ escaped_char c }
{
    match c {
        'n' => '\n',
        'r' => '\r',
        't' => '\t',
        'b' => BACKSPACE,
        'f' => FORM_FEED,
        '0' => '\0',
        _ => c,
    }
}

/// Whether these bytes begin with a quote.
fn begins_with_quote(bytes: &[u8]) -> bool
    ensures yes { result ≡ true → (rest : List ℕ) × (bytes.now ≡ 34 ∷ rest) }
    ensures no { result ≡ false → (rest : List ℕ) → bytes.now ≢ 34 ∷ rest }
{
    match bytes.first() {
        Some(byte) => *byte == b'"',
        None => false,
    }
}

/// The character that a backslash and one character of ASCII stand for, if these bytes begin with
/// them.
fn short_escape(bytes: &[u8]) -> Option<char>
    ensures { IfSome result (λ c. (escaped : ℕ) × (rest : List ℕ)
        × (bytes.now ≡ 92 ∷ (escaped ∷ rest)) × (32 ≤ escaped) × (escaped < 128)
        × (escaped ≢ 117) × (c ≡ escaped_char escaped)) }
{
    let [backslash, escaped] = *bytes.first_chunk::<2>()?;
    if backslash != b'\\' || escaped < b' ' || escaped >= 0x80 || escaped == b'u' {
        return None;
    }
    Some(escaped_char(char::from(escaped)))
}

/// Whether these bytes begin with this one, if it is given.
#[inline(always)]
fn goes_on(bytes: &[u8], next: Option<u8>) -> bool
    ensures yes { result ≡ true → IfSome next (λ byte. (rest : List ℕ) × (bytes.now ≡ byte ∷ rest)) }
    ensures no { result ≡ false
        → IfSome next (λ byte. (rest : List ℕ) × (bytes.now ≡ byte ∷ rest)) → ⊥ }
{
    let Some(wanted) = next else {
        return true;
    };
    match bytes.first() {
        Some(byte) => *byte == wanted,
        None => false,
    }
}

/// Takes the string that begins at the current character, where it has no escape and no character
/// below U+0020: the text between the quotes, in place. Where no such string begins there, nothing
/// is taken.
#[inline(always)]
pub fn plain_string<'a>(p: &mut Place, i: &mut Chars<'a>) -> Option<&'a str>
    ensures found { IfSome result (λ text. (characters : List ℕ)
        × IsString (text_at p.old i.old) characters (text_at p.new i.new)
        × (text.now ≡ encode_utf8_all characters)) }
    ensures none { result ≡ None → (characters : List ℕ) → (rest : List ℕ)
        → IsPlainString (text_at p.old i.old) characters rest → ⊥ }
    ensures place { Counts p.old i.old p.new i.new }
    ensures unchanged { result ≡ None → (p.new ≡ p.old) × (i.new ≡ i.old) }
{
    plain_string_before(p, i, None)
}

/// The same, only where this character of ASCII comes right after it, if it is given. It is not
/// taken, but what follows the string is known then, so that taking it costs next to nothing.
#[inline(always)]
pub fn plain_string_before<'a>(
    p: &mut Place,
    i: &mut Chars<'a>,
    next: Option<u8>,
) -> Option<&'a str>
    requires ascii { IfSome next (λ byte. (0 < byte) × (byte < 128)) }
    ensures found { IfSome result (λ text. (characters : List ℕ)
        × IsString (text_at p.old i.old) characters (text_at p.new i.new)
        × (text.now ≡ encode_utf8_all characters)) }
    ensures next { IfSome result (λ _. IfSome next (λ byte. (more : List ℕ)
        × (text_at p.new i.new ≡ byte ∷ more))) }
    ensures none { result ≡ None → (characters : List ℕ) → (rest : List ℕ)
        → IsPlainString (text_at p.old i.old) characters rest
        → IfSome next (λ byte. (more : List ℕ) × (rest ≡ byte ∷ more)) → ⊥ }
    ensures place { Counts p.old i.old p.new i.new }
    ensures unchanged { result ≡ None → (p.new ≡ p.old) × (i.new ≡ i.old) }
{
    if p.cur != '"' {
        return None;
    }
    let rest = i.as_str();
    let run = line_run(rest.as_bytes());
    let (plain, following) = rest.split_at(run.len);
    if !begins_with_quote(following.as_bytes()) {
        return None;
    }
    let after = following.split_at(1).1;
    if !goes_on(after.as_bytes(), next) {
        return None;
    }
    p.col = p.col.saturating_add(run.columns).saturating_add(1);
    *i = after.chars();
    p.next(i);
    Some(plain)
}

/// Reads the string that begins at the current character, and answers whether that could be done at
/// once. Where it couldn't, nothing is taken, and `strbuf` may hold anything.
#[inline(always)]
pub(crate) fn read_at_once(p: &mut Place, i: &mut Chars<'_>, strbuf: &mut String) -> bool
    ensures found { result ≡ true → (characters : List ℕ)
        × IsString (text_at p.old i.old) characters (text_at p.new i.new)
        × (string_bytes strbuf.new ≡ encode_utf8_all characters) }
    ensures place { Counts p.old i.old p.new i.new }
    ensures unchanged { result ≡ false → (p.new ≡ p.old) × (i.new ≡ i.old) }
    ensures capacity { string_capacity strbuf.old ≤ string_capacity strbuf.new }
{
    if p.cur != '"' {
        return false;
    }
    strbuf.clear();
    let mut col = p.col;
    let mut rest = i.as_str();
    'runs: loop {
        let run = line_run(rest.as_bytes());
        let Ok(()) = append_prefix(strbuf, rest, run.len) else {
            return false;
        };
        let following = rest.split_at(run.len).1;
        col = col.saturating_add(run.columns);
        if begins_with_quote(following.as_bytes()) {
            p.col = col.saturating_add(1);
            *i = following.split_at(1).1.chars();
            p.next(i);
            return true;
        }
        let Some(c) = short_escape(following.as_bytes()) else {
            return false;
        };
        let Ok(()) = strbuf.push(c) else {
            return false;
        };
        col = col.saturating_add(2);
        rest = following.split_at(2).1;
    }
}
