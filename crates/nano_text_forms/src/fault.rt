//! A fault of a text, and what is shown of it.

ghost use Rattle.std.specs.Prelude.{◌≡◌, OnOk};
ghost use Rattle.std.specs.Str.{chars};
ghost use Rattle.std.specs.Io.KnownBytes.{Appends};
ghost use Rattle.nano_text_forms.specs.Shown.{row_of, before_of, line_of, within, shown_at};
ghost use Rattle.nano_text_forms.specs.Shown.{shown, shown_of_line};

use crate::excerpt;
use std::io::{self, Write};

/// What is wrong with a text, and where: the line and the column at which reading stood, both
/// counted from 0. The character on which it stood is counted in the column; on a line feed that is
/// column 0 of the next line.
#[derive(Debug, Drop)]
pub struct TextFault {
    /// The reader's words.
    pub words: String,
    /// The line, counted from 0.
    pub line: usize,
    /// The number of characters taken on that line.
    pub column: usize,
}

impl TextFault {
    /// Prints what is wrong with a text: its name, line and column, both counted from 1, and the
    /// words, then the line, and a caret under the character where reading stopped.
    ///
    /// At the end of the text that is its last character, and where no character was taken the
    /// first. A column beyond the end of the line stands after its last character. Of a line are
    /// shown 60 characters on either side of the place, with three dots where it is cut. A tab is
    /// printed as it is, in the caret's line too; any other control character as U+FFFD.
    ///
    /// `name` is what the text is called, and `text` the text that was read.
    ///
    /// # Errors
    ///
    /// The output's, with what was written before.
    ///
    /// # Examples
    ///
    /// ```
    /// Err(Rejection::Text(fault)) => {
    ///     fault.show(&mut rt.stderr(), name, text.as_str())?;
    /// ```
    pub fn show<W: Write>(&self, output: &mut W, name: &str, text: &str) -> io::Result<()>
        ensures { OnOk result (Appends (W.contents output.old) (W.contents output.new)
            (shown self.now name.now text.now)) }
    {
        let row = self.row();
        let line = line_at(text, row);
        let before = self.before(line.chars().count());
        self.print(output, name, row, line, before)
    }

    /// Prints the same where only the line at fault is at hand, as one of a stream of lines.
    ///
    /// `line` is that line, without its line feed; it has the number `self.line`.
    ///
    /// # Errors
    ///
    /// The output's, with what was written before.
    pub fn show_line<W: Write>(&self, output: &mut W, name: &str, line: &str) -> io::Result<()>
        ensures { OnOk result (Appends (W.contents output.old) (W.contents output.new)
            (shown_of_line self.now name.now line.now)) }
    {
        let before = self.within(line.chars().count());
        self.print(output, name, self.line, line, before)
    }

    /// Prints the place and the words, and below them the line with a caret.
    fn print<W: Write>(
        &self,
        output: &mut W,
        name: &str,
        row: usize,
        line: &str,
        before: usize,
    ) -> io::Result<()>
        ensures { OnOk result (Appends (W.contents output.old) (W.contents output.new)
            (shown_at self.now.words name.now row (chars line.now) before)) }
    {
        let (row, column) = (row.saturating_add(1), before.saturating_add(1));
        writeln!(output, "{name}:{row}:{column}: {}", self.words)?;
        excerpt::print(output, line, before)
    }

    /// The line that is shown, counted from 0.
    fn row(&self) -> usize
        ensures { result ≡ row_of self.now.line self.now.column }
    {
        if self.column == 0 {
            self.line.saturating_sub(1)
        } else {
            self.line
        }
    }

    /// How many of this many characters of the text's line come before the caret.
    fn before(&self, count: usize) -> usize
        ensures { result ≡ before_of self.now.line self.now.column count }
    {
        match (self.line, self.column) {
            (0, 0) => 0,
            (_, 0) => count,
            (_, column) => count.min(column - 1),
        }
    }

    /// The same of a line that is at hand alone.
    fn within(&self, count: usize) -> usize
        ensures { result ≡ within self.now.column count }
    {
        count.min(self.column.saturating_sub(1))
    }
}

/// A line of a text, counted from 0, or the empty one where the text has no such line.
fn line_at(text: &str, row: usize) -> &str
    ensures { result.now ≡ line_of text.now row }
{
    text.lines().nth(row).unwrap_or("")
}
