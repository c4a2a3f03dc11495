//! Texts as strings.

ghost use Rattle.std.specs.Prelude.{OnOk, OnErr};
ghost use Rattle.nano_text.specs.Outcomes.{Appends, AppendsPart, Unchanged};
ghost use Rattle.nano_ron_tokens.specs.Written.{written_text};

use nano_text::{Escaping, append_characters, rollback_on_error};
use std::alloc::AllocError;

/// How RON writes the characters of a text: those that a string cannot hold as they are by an
/// escape, and line ends and tabs too.
struct RonText;

impl Escaping for RonText {
    ghost use Rattle.std.proofs.Common.{arith};
    ghost use Rattle.std.proofs.lemmas.Bool.Decides.{nat_tests};
    ghost use Rattle.nano_text.specs.String.{piece_text};
    ghost use Rattle.nano_ron_tokens.specs.Written.{stands_as_itself, written_piece};

    ghost stands = { stands_as_itself };

    ghost written = { λ c. piece_text (written_piece c) };

    fn stands_as_itself(c: u32) -> bool {
        c != u32::from('\n')
            && c != u32::from('\r')
            && c != u32::from('\t')
            && c != 0
            && c != u32::from('\\')
            && c != u32::from('"')
    }

    fn append_character(out: &mut String, c: char) -> Result<(), AllocError> {
        match c {
            '\n' => out.push_str("\\n"),
            '\r' => out.push_str("\\r"),
            '\t' => out.push_str("\\t"),
            '\0' => out.push_str("\\0"),
            '\\' => out.push_str("\\\\"),
            '"' => out.push_str("\\\""),
            _ => out.push(c),
        }
    }

    ghost wide_stands = { λ n h. Prim.grind (arith, nat_tests) };

    ghost plain_stands = { λ n plain other. Prim.grind (arith, nat_tests) };

    ghost as_itself = { λ c h. Prim.grind (arith, nat_tests) };
}

/// Appends a text as a string: its characters between quotes, with escapes. A failed allocation
/// leaves `out` as it was.
pub fn append_string(out: &mut String, text: &str) -> Result<(), AllocError>
    ensures ok { OnOk result (Appends out.old out.new (written_text text.now)) }
    ensures err { OnErr result (Unchanged out.old out.new) }
{
    let start = out.len();
    let written = append_quoted(out, text);
    rollback_on_error(out, start, written)
}

/// Appends a text as a string. A failed allocation leaves what was written so far.
fn append_quoted(out: &mut String, text: &str) -> Result<(), AllocError>
    ensures ok { OnOk result (Appends out.old out.new (written_text text.now)) }
    ensures err { OnErr result (AppendsPart out.old out.new) }
{
    out.push('"')?;
    append_characters::<RonText>(out, text)?;
    out.push('"')
}
