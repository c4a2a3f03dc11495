//! Lexemes that begin at a character that is set by hand, places, digits, characters with
//! escapes, and the laws of texts.

use crate::checks::{holds, is_made, is_so};
use nano_text::{
    Escaping, Fault, Number, Place, append_characters, append_signed, append_unsigned, bytes_left,
    is_space, laws, plain_string, plain_string_before, read_number, read_string, rollback_on_error,
};
use std::alloc::{AllocError, Global};
use std::str::Chars;

/// A character, and those after it, which are still to be read.
pub(crate) fn first_place(text: &str) -> (Place, Chars<'_>) {
    let mut input = text.chars();
    let mut place = Place {
        cur: '\0',
        line: 0,
        col: 0,
    };
    place.next(&mut input);
    (place, input)
}

/// Whether a text begins with this number, whose text is this if it is a decimal, and it ends
/// before this column.
fn is_number(
    alloc: Global,
    text: &str,
    expected: Result<Number, Fault>,
    decimal: &str,
    col: usize,
) -> bool {
    let (mut place, mut input) = first_place(text);
    let mut buffer = String::new(alloc);
    let read = read_number(&mut place, &mut input, &mut buffer);
    read == expected && buffer.as_str() == decimal && place.line == 0 && place.col == col
}

/// Texts that begin with no number in any format, and the column where that is seen.
const NO_NUMBERS: &[(&str, usize)] = &[
    ("e5", 2),
    (".e5", 3),
    ("", 0),
    ("\09", 1),
    ("x", 1),
    ("axyz", 1),
];

#[test]
fn numbers(rt: HostRuntime) {
    let alloc = rt.alloc();
    let whole = is_number(alloc, "42,", Ok(Number::U64(42)), "", 3);
    holds(&rt, whole, "a whole number");
    let decimal = is_number(alloc, "-1.50]", Ok(Number::Dec), "-1.50", 6);
    holds(&rt, decimal, "a decimal");
    for (text, col) in NO_NUMBERS {
        let is_none = is_number(alloc, text, Err(Fault::Malformed), "", *col);
        holds(&rt, is_none, text);
    }
}

/// Whether a text begins with this string, or with this fault, up to this line and column.
fn is_string(
    alloc: Global,
    text: &str,
    fault: Option<Fault>,
    string: &str,
    (line, col): (usize, usize),
) -> bool {
    let (mut place, mut input) = first_place(text);
    let mut buffer = String::new(alloc);
    let reported = read_string(&mut place, &mut input, &mut buffer).err();
    let is_after = place.line == line && place.col == col;
    reported == fault && buffer.as_str() == string && is_after
}

/// Texts after a quote, the string that is taken in place, and the column after it.
const IN_PLACE: &[(&str, Option<&str>, usize)] = &[
    ("a\":", Some("a"), 4),
    ("\"", Some(""), 2),
    ("0123456789abcdefé\" ", Some("0123456789abcdefé"), 20),
    (
        "0123456789abcdé0123456789abcdé01\"",
        Some("0123456789abcdé0123456789abcdé01"),
        34,
    ),
    ("a\\n\"", None, 1),
    ("a\nb\"", None, 1),
    ("a", None, 1),
];

/// Whether this string is taken in place, up to this column.
fn is_in_place(text: &str, string: Option<&str>, col: usize) -> bool {
    let mut input = text.chars();
    let mut place = Place {
        cur: '"',
        line: 0,
        col: 1,
    };
    plain_string(&mut place, &mut input) == string && place.col == col
}

/// Texts after a quote, a byte, and the string that is taken in place before that byte.
const BEFORE: &[(&str, u8, Option<&str>)] = &[
    ("a\":", b':', Some("a")),
    ("é\",", b',', Some("é")),
    ("a\" :", b':', None),
    ("a\"", b':', None),
];

/// Whether this string is taken in place before this byte, which is of ASCII.
fn is_before(text: &str, next: u8, string: Option<&str>) -> bool {
    if next == 0 || next >= 128 {
        return false;
    }
    let mut input = text.chars();
    let mut place = Place {
        cur: '"',
        line: 0,
        col: 1,
    };
    plain_string_before(&mut place, &mut input, Some(next)) == string
}

/// White space before a text, and the line and column of what follows it.
const SPACES: &[(&str, usize, usize)] = &[
    ("x", 0, 1),
    (" x", 0, 2),
    ("\n    x", 1, 5),
    ("\r\n\tx", 1, 2),
    ("\n\n  \n x", 3, 2),
    ("\n        \t x", 1, 11),
];

/// Whether what follows the white space is `x`, at this line and column.
fn is_passed(text: &str, line: usize, col: usize) -> bool {
    let (mut place, mut input) = first_place(text);
    place.skip_space(&mut input);
    place.cur == 'x' && place.line == line && place.col == col && input.next().is_none()
}

#[test]
fn white_space(rt: HostRuntime) {
    for (text, line, col) in SPACES {
        holds(&rt, is_passed(text, *line, *col), text);
    }
    holds(&rt, is_space('\t') && !is_space('\u{a0}'), "a tab");
}

#[test]
fn strings(rt: HostRuntime) {
    let alloc = rt.alloc();
    let is_read = is_string(alloc, "\"é\nü😋x\" ", None, "é\nü😋x", (1, 5));
    holds(&rt, is_read, "a string");
    let is_none = is_string(alloc, "axyz", Some(Fault::Malformed), "", (0, 1));
    holds(&rt, is_none, "a letter");
    let is_none = is_string(alloc, "", Some(Fault::Malformed), "", (0, 0));
    holds(&rt, is_none, "the end");
    for (text, string, col) in IN_PLACE {
        holds(&rt, is_in_place(text, *string, *col), text);
    }
    for (text, next, string) in BEFORE {
        holds(&rt, is_before(text, *next, *string), text);
    }
}

/// Whether copies are what they were made of.
fn are_copies() -> Result<bool, AllocError> {
    let number = Number::I64(-2).clone()?;
    let fault = Fault::Memory.clone()?;
    let (place, _input) = first_place("a");
    Ok(number == Number::I64(-2) && fault == Fault::Memory && place.clone()? == place)
}

#[test]
fn copies_and_laws(rt: HostRuntime) {
    is_so(&rt, are_copies(), "copies");
    holds(&rt, bytes_left(&"aé😋".chars()) == 7, "aé😋");
    holds(&rt, bytes_left(&first_place("aé😋").1) == 6, "é😋");
    laws::a_text_begins_with_one_number();
    laws::a_text_begins_with_one_string();
    laws::a_number_breaks_at_one_place();
    laws::a_string_breaks_at_one_place();
}

/// A format that writes a quote twice, and each other character as itself.
struct TwoQuotes;

impl Escaping for TwoQuotes {
    ghost use Rattle.std.specs.Prelude.{◌==◌, ◌∷◌, [], not, if◌then◌else◌};
    ghost use Rattle.std.proofs.Common.{arith};
    ghost use Rattle.std.proofs.lemmas.Bool.Decides.{nat_tests};

    ghost stands = { λ c. not (c == 34) };

    ghost written = { λ c. if c == 34 then 34 ∷ (34 ∷ []) else (c ∷ []) };

    fn stands_as_itself(c: u32) -> bool {
        c != u32::from('"')
    }

    fn append_character(out: &mut String, c: char) -> Result<(), AllocError> {
        if c == '"' {
            return out.push_str("\"\"");
        }
        out.push(c)
    }

    ghost wide_stands = { λ n h. Prim.grind (arith, nat_tests) };

    ghost plain_stands = { λ n plain other. Prim.grind (arith, nat_tests) };

    ghost as_itself = { λ c h. Prim.grind (arith, nat_tests) };
}

/// Texts with a quote before, in and after each run of four, eight and sixteen bytes.
const TEXTS: &[&str] = &[
    "",
    "a",
    "\"",
    "é\"x\"\"",
    "\"\"ab😋",
    "abc\"",
    "abcd",
    "abcd\"",
    "abcdefg\"h",
    "abcdefgh\"i",
    "abcdefghijklmnop",
    "abcdefghijklmno\"",
    "abcdefghijklmnop\"",
    "\"abcdefghijklmnopqr",
    "abc\ndéfghi\\klm\u{7f}opqr\"s",
];

/// A text as a format writes it.
fn escaped<E: Escaping>(alloc: Global, text: &str) -> Result<String, AllocError> {
    let mut out = String::new(alloc);
    append_characters::<E>(&mut out, text)?;
    Ok(out)
}

/// Whether a text is written with each quote twice.
fn has_two_quotes(alloc: Global, text: &str) -> Result<bool, AllocError> {
    let expected = text.replace(alloc, "\"", "\"\"")?;
    Ok(escaped::<TwoQuotes>(alloc, text)? == expected)
}

/// A character that stands as itself, and one that does not, where the format says so.
fn two_characters<E: Escaping>(alloc: Global) -> Result<String, AllocError> {
    let mut out = String::new(alloc);
    if E::stands_as_itself(u32::from('é')) && !E::stands_as_itself(u32::from('"')) {
        E::append_character(&mut out, 'é')?;
        E::append_character(&mut out, '"')?;
    }
    Ok(out)
}

/// Two numbers in digits, one after the other.
fn digits(alloc: Global) -> Result<String, AllocError> {
    let mut out = String::new(alloc);
    append_unsigned(&mut out, 109)?;
    append_signed(&mut out, -12)?;
    Ok(out)
}

/// What two bytes of a text are followed by after a write.
fn following(alloc: Global, wrote: Result<(), AllocError>) -> Result<String, AllocError> {
    let mut out = String::from_str(alloc, "é and more")?;
    let _written = rollback_on_error(&mut out, 2, wrote);
    Ok(out)
}

#[test]
fn written_digits_and_characters(rt: HostRuntime) {
    let alloc = rt.alloc();
    for text in TEXTS {
        is_so(&rt, has_two_quotes(alloc, text), text);
    }
    is_made(&rt, two_characters::<TwoQuotes>(alloc), "é\"\"");
    is_made(&rt, digits(alloc), "109-12");
    is_made(&rt, following(alloc, Ok(())), "é and more");
    is_made(&rt, following(alloc, Err(AllocError)), "é");
}
