//! Lines and columns.

ghost use Rattle.std.specs.Prelude.{◌≡◌, chars};
ghost use Rattle.derive_source.specs.Place.{line_of, column_of};

/// A line and a column.
#[derive(Clone, Copy)]
pub(crate) struct Place {
    /// How many line feeds stand before it.
    pub(crate) line: usize,
    /// How many characters of its line stand before it.
    pub(crate) column: usize,
}

impl Place {
    /// The place after a text.
    pub(crate) fn following(before: &str) -> Place
        ensures line { result.line ≡ line_of (chars before.now) }
        ensures column { result.column ≡ column_of (chars before.now) }
    {
        let mut line = 0;
        let mut column = 0;
        for c in before.chars() {
            if c == '\n' {
                line += 1;
                column = 0;
            } else {
                column += 1;
            }
        }
        Place { line, column }
    }
}
