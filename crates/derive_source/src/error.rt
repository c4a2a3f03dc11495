//! Why nothing was written, with line and column.

ghost use Rattle.std.specs.Prelude.{◌≡◌, IfOk, OnOk, map, take};
ghost use Rattle.std.specs.Io.KnownBytes.{Appends};
ghost use Rattle.std.specs.Str.{chars};
ghost use Rattle.derive_source.specs.Errors.{IsErrorIn};
ghost use Rattle.derive_source.specs.Place.{StandsIn};
ghost use Rattle.derive_source.specs.Shown.{blank, line_at, pointed, shown};

use crate::fault::{Fault, Subject};
use crate::place::Place;
use std::alloc::{AllocError, Global};
use std::io::{self, Write};

/// What is wrong with a source, and where.
#[derive(Debug, Drop)]
pub struct SourceFault {
    /// What is wrong.
    pub message: String,
    /// At which byte, counted from 0.
    pub offset: usize,
    /// How many line feeds stand before it, so that 0 is the first line.
    pub line: usize,
    /// How many characters of its line stand before it.
    pub column: usize,
}

/// Why nothing was written.
#[derive(Debug, Drop)]
pub enum DeriveError {
    /// The source is at fault.
    Source(SourceFault),
    /// An allocation failed.
    Memory,
}

impl SourceFault {
    /// Prints `name:line:column: message`, with line and column counted from 1, then the line, and
    /// a caret under the character. `source` is the text that was given. The output's errors are
    /// passed on, with what was written before.
    pub fn show<W: Write>(&self, output: &mut W, name: &str, source: &str) -> io::Result<()>
        ensures { OnOk result (Appends (W.contents output.old) (W.contents output.new)
            (shown self.now name.now source.now)) }
    {
        let line = self.line.saturating_add(1);
        let column = self.column.saturating_add(1);
        writeln!(output, "{name}:{line}:{column}: {}", self.message)?;
        print_pointed(output, line_at(source, self.line), self.column)
    }
}

/// A line of a source, counted from 0, or the empty one where the source has no such line.
fn line_at(source: &str, row: usize) -> &str
    ensures { result.now ≡ line_at source.now row }
{
    source.lines().nth(row).unwrap_or("")
}

/// Prints a line, and a caret under the character after so many.
fn print_pointed<W: Write>(output: &mut W, line: &str, before: usize) -> io::Result<()>
    ensures { OnOk result (Appends (W.contents output.old) (W.contents output.new)
        (pointed line.now before)) }
{
    writeln!(output, "{line}")?;
    print_blanks(output, line, before)?;
    writeln!(output, "^")
}

/// Prints white space under so many characters of a line.
fn print_blanks<W: Write>(output: &mut W, line: &str, count: usize) -> io::Result<()>
    ensures { OnOk result (Appends (W.contents output.old) (W.contents output.new)
        (map blank (take count (chars line.now)))) }
{
    for c in line.chars().take(count) {
        write!(output, "{}", if c == '\t' { c } else { ' ' })?;
    }
    Ok(())
}

impl From<AllocError> for DeriveError {
    fn from(_failed: AllocError) -> Self {
        DeriveError::Memory
    }
}

/// The error of a fault in a source.
pub fn error_of(alloc: Global, source: &str, fault: Fault) -> DeriveError
    ensures { IsErrorIn source.now result }
{
    match fault {
        Fault::Memory => DeriveError::Memory,
        Fault::At {
            offset,
            subject,
            words,
        } => match source_fault(alloc, source, offset, subject, words) {
            Ok(fault) => DeriveError::Source(fault),
            Err(_failed) => DeriveError::Memory,
        },
    }
}

/// What is wrong at a byte. An offset within a character, or after the end, stands for the end.
fn source_fault(
    alloc: Global,
    source: &str,
    offset: usize,
    subject: Subject,
    words: &str,
) -> Result<SourceFault, AllocError>
    ensures { IfOk result (StandsIn source.now) }
{
    let message = message(alloc, source.get(offset..).unwrap_or(""), subject, words)?;
    let (offset, before) = match source.get(..offset) {
        Some(before) => (offset, before),
        None => (source.len(), source),
    };
    let place = Place::following(before);
    Ok(SourceFault {
        message,
        offset,
        line: place.line,
        column: place.column,
    })
}

/// What is wrong, in words. `from` begins with what is at fault.
fn message(alloc: Global, from: &str, subject: Subject, words: &str) -> Result<String, AllocError> {
    match subject {
        Subject::Token(length) => {
            format!(in alloc; "`{}` {words}", from.get(..length).unwrap_or(from))
        }
        Subject::EndOfLine => format!(in alloc; "the end of the line {words}"),
        Subject::End => format!(in alloc; "the end of the definitions {words}"),
        Subject::Nothing => String::from_str(alloc, words),
    }
}
