//! A line as it is shown around a place in it, with a caret below.

ghost use Rattle.std.specs.Prelude.{◌≡◌, OnOk, map, take, drop, encode_utf8_all};
ghost use Rattle.std.specs.Str.{chars};
ghost use Rattle.std.specs.Io.KnownBytes.{Appends};
ghost use Rattle.nano_text_forms.specs.Shown.{visible, blank, dots, excerpt};

use std::io::{self, Write};

/// How many characters of a line are shown on each side of the place, at most.
const SIDE: usize = 60;

/// Prints what is shown of a line around the place after its first `before` characters, and a
/// caret under the next one.
pub(crate) fn print<W: Write>(output: &mut W, line: &str, before: usize) -> io::Result<()>
    ensures { OnOk result (Appends (W.contents output.old) (W.contents output.new)
        (excerpt (chars line.now) before)) }
{
    let start = before.saturating_sub(SIDE);
    let ahead = before - start;
    let left_out = line
        .chars()
        .count()
        .saturating_sub(start)
        .saturating_sub(ahead + SIDE);
    write!(output, "{}", dots(start))?;
    print_part(output, line, start, ahead + SIDE)?;
    writeln!(output, "{}", dots(left_out))?;
    write!(output, "{}", margin(start))?;
    print_blanks(output, line, start, ahead)?;
    writeln!(output, "^")
}

/// Prints so many characters of a line from a place on.
fn print_part<W: Write>(output: &mut W, line: &str, start: usize, count: usize) -> io::Result<()>
    ensures { OnOk result (Appends (W.contents output.old) (W.contents output.new)
        (encode_utf8_all (map visible (take count (drop start (chars line.now)))))) }
{
    for c in line.chars().skip(start).take(count) {
        write!(output, "{}", visible(c))?;
    }
    Ok(())
}

/// Prints white space under so many characters of a line from a place on.
fn print_blanks<W: Write>(output: &mut W, line: &str, start: usize, count: usize) -> io::Result<()>
    ensures { OnOk result (Appends (W.contents output.old) (W.contents output.new)
        (map blank (take count (drop start (chars line.now))))) }
{
    for c in line.chars().skip(start).take(count) {
        write!(output, "{}", if c == '\t' { c } else { ' ' })?;
    }
    Ok(())
}

/// What stands in the place of so many characters.
fn dots(left_out: usize) -> &'static str
    ensures { result.now ≡ dots left_out }
{
    if left_out == 0 { "" } else { "..." }
}

/// White space under what stands in the place of so many characters.
fn margin(left_out: usize) -> &'static str
    ensures { result.now ≡ map blank (dots left_out) }
{
    if left_out == 0 { "" } else { "   " }
}

/// What is shown of a character.
fn visible(c: char) -> char
    ensures { result ≡ visible c }
{
    if c != '\t' && (c < ' ' || ('\u{7f}' <= c && c < '\u{a0}')) {
        '\u{fffd}'
    } else {
        c
    }
}
