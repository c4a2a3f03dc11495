//! Places in a text.

ghost use Rattle.std.specs.Prelude.{◌≡◌, chars, take};
ghost use Rattle.nano_toml.specs.Place.{line_of, column_of};

/// A place in a text.
#[derive(Clone, Copy)]
pub(crate) struct Place {
    /// How many line feeds stand before it.
    pub(crate) line: usize,
    /// How many characters of its line stand before it.
    pub(crate) col: usize,
}

impl Place {
    /// The place after so many characters of a text.
    pub(crate) fn following(text: &str, taken: usize) -> Place
        ensures line { result.line ≡ line_of (take taken (chars text.now)) }
        ensures col { result.col ≡ column_of (take taken (chars text.now)) }
    {
        let mut line = 0;
        let mut col = 0;
        for c in text.chars().take(taken) {
            if c == '\n' {
                line += 1;
                col = 0;
            } else {
                col += 1;
            }
        }
        Place { line, col }
    }
}
