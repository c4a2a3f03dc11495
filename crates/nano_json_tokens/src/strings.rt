//! Strings as they are written.

ghost use Rattle.std.specs.Prelude.{◌≡◌, ◌<◌, OnOk, OnErr};
ghost use Rattle.nano_text.specs.Outcomes.{Appends, AppendsPart, Unchanged};
ghost use Rattle.std.specs.Char.{digit_char};
ghost use Rattle.nano_text.specs.String.{scalar, piece_text};
ghost use Rattle.nano_json_tokens.specs.Written.{four_digits, written_text};

use nano_text::{Escaping, append_characters, rollback_on_error};
use std::alloc::AllocError;

const BACKSPACE: char = '\u{8}';

const FORM_FEED: char = '\u{c}';

/// How JSON writes the characters of a text: control characters, DEL, the quote and the backslash
/// by an escape.
struct JsonText;

impl Escaping for JsonText {
    ghost use Rattle.std.proofs.Common.{arith};
    ghost use Rattle.std.proofs.lemmas.Bool.Decides.{nat_tests};
    ghost use Rattle.nano_text.specs.String.{piece_text};
    ghost use Rattle.nano_json_tokens.specs.Written.{stands_as_itself, written_piece};
    ghost use Rattle.nano_json_tokens.specs.WrittenImpls.{written_as_itself};

    ghost stands = { stands_as_itself };

    ghost written = { λ c. piece_text (written_piece c) };

    fn stands_as_itself(c: u32) -> bool {
        if c > u32::from('\\') {
            return c != 127;
        }
        32 <= c && c != u32::from('"') && c != u32::from('\\')
    }

    fn append_character(out: &mut String, c: char) -> Result<(), AllocError> {
        match c {
            BACKSPACE => out.push_str("\\b"),
            FORM_FEED => out.push_str("\\f"),
            '\n' => out.push_str("\\n"),
            '\r' => out.push_str("\\r"),
            '\t' => out.push_str("\\t"),
            '\\' => out.push_str("\\\\"),
            '"' => out.push_str("\\\""),
            _ => {
                if u32::from(c) < 32 || c == '\u{7f}' {
                    return append_code(out, c);
                }
                out.push(c)
            }
        }
    }

    ghost wide_stands = { λ n h. Prim.grind (arith, nat_tests) };

    ghost plain_stands = { λ n plain other. Prim.grind (arith, nat_tests) };

    ghost as_itself = { written_as_itself };
}

/// Appends a control character by its four hexadecimal digits. If allocation fails, the text
/// written so far remains.
fn append_code(out: &mut String, c: char) -> Result<(), AllocError>
    requires { c < 128 }
    ensures ok { OnOk result (Appends out.old out.new (piece_text (scalar (four_digits c)))) }
    ensures err { OnErr result (AppendsPart out.old out.new) }
{
    out.push_str("\\u00")?;
    out.push(hex_digit(u32::from(c) / 16))?;
    out.push(hex_digit(u32::from(c) % 16))
}

/// A hexadecimal digit in lower case.
fn hex_digit(value: u32) -> char
    requires { value < 16 }
    ensures { result ≡ digit_char value }
{
    match char::from_digit(value, 16) {
        Some(digit) => digit,
        None => '0',
    }
}

/// Appends a text as a string: its characters between quotes, with escapes. If allocation
/// fails, `out` is unchanged.
pub fn append_string(out: &mut String, text: &str) -> Result<(), AllocError>
    ensures ok { OnOk result (Appends out.old out.new (written_text text.now)) }
    ensures err { OnErr result (Unchanged out.old out.new) }
{
    let start = out.len();
    let written = append_quoted(out, text);
    rollback_on_error(out, start, written)
}

/// Appends a text as a string. If allocation fails, the text written so far remains.
fn append_quoted(out: &mut String, text: &str) -> Result<(), AllocError>
    ensures ok { OnOk result (Appends out.old out.new (written_text text.now)) }
    ensures err { OnErr result (AppendsPart out.old out.new) }
{
    out.push('"')?;
    append_characters::<JsonText>(out, text)?;
    out.push('"')
}
