//! The place in a text, and the step to the next character.

ghost use Rattle.std.specs.Prelude.{◌≡◌, ◌≢◌, ◌<◌, ◌∷◌, ◌++◌, List, ℕ, chars, count_by};
ghost use Rattle.nano_text.specs.Outcomes.{Counts};
ghost use Rattle.nano_text.specs.Place.{held, tail, place_after, text_at, before_nul, passed};
ghost use Rattle.nano_text.specs.Place.{Passes, is_line_feed, begins_character};

use std::str::Chars;

/// The current character, and where it stands. Lines and columns count from 0.
#[derive(Clone, Copy, Debug, PartialEq)]
pub struct Place {
    pub cur: char,
    pub line: usize,
    pub col: usize,
}

impl Place {
    /// Takes one character, which becomes the current one.
    ///
    /// A line feed adds one to `line` and sets `col` to 0; any other character, NUL too, adds
    /// one to `col`. They saturate at `usize::MAX`. At the end of `i` the current character
    /// becomes NUL, and `line` and `col` are unchanged.
    #[inline(always)]
    pub fn next(&mut self, i: &mut Chars<'_>)
        ensures place { self.new ≡ place_after self.old (held i.old) }
        ensures held { held i.new ≡ tail (held i.old) }
        ensures passes { Passes self.old (held i.old) self.new (held i.new) }

        // At a character of the text the next one is of the text too, or the NUL that ends it.
        ensures counts { self.old.cur ≢ 0 → Counts self.old i.old self.new i.new }

        // What input remains afterwards, and that the current character was taken from its
        // start.
        ensures rest { text_at self.new i.new ≡ before_nul (held i.old) }
        ensures taken { self.old.cur ≢ 0
            → text_at self.old i.old ≡ self.old.cur ∷ text_at self.new i.new }
    {
        let _text = i.as_str();
        match i.next() {
            Some(c) => {
                self.cur = c;
                if c == '\n' {
                    self.line = self.line.saturating_add(1);
                    self.col = 0;
                } else {
                    self.col = self.col.saturating_add(1);
                }
            }
            None => self.cur = '\0',
        }
    }

    /// Counts these characters as if they were taken one by one.
    #[cold]
    #[inline(never)]
    pub(crate) fn pass(&mut self, text: &str)
        ensures cur { self.new.cur ≡ self.old.cur }
        ensures line { self.new.line ≡ (passed self.old (chars text.now)).line }
        ensures col { self.new.col ≡ (passed self.old (chars text.now)).col }
    {
        let bytes = text.as_bytes();
        let feeds = line_feeds(bytes);
        if feeds == 0 {
            self.col = self.col.saturating_add(characters(bytes));
            return;
        }
        self.line = self.line.saturating_add(feeds);
        self.col = characters(last_line(text).as_bytes());
    }
}

/// How many of the bytes are line feeds. The whole run is looked at, without a way out of the loop
/// before its end, so that the compiler makes it vector code.
fn line_feeds(bytes: &[u8]) -> usize
    ensures { result ≡ count_by is_line_feed bytes.now }
{
    bytes.iter().filter(|byte| **byte == b'\n').count()
}

/// What comes after the last line feed, or the whole text if there is none.
fn last_line(text: &str) -> &str
    ensures none { count_by is_line_feed result.now ≡ 0 }
    ensures following { 0 < count_by is_line_feed text.now
        → (before : List ℕ) × (text.now ≡ before ++ 10 ∷ result.now) }
{
    match text.rsplit_once('\n') {
        Some((_before, line)) => line,
        None => text,
    }
}

/// Whether a character begins with this byte of UTF-8.
pub(crate) fn begins_character(byte: u8) -> bool
    ensures { result ≡ begins_character byte }
{
    byte < 0x80 || 0xC0 <= byte
}

/// How many characters these bytes of UTF-8 begin.
fn characters(bytes: &[u8]) -> usize
    ensures { result ≡ count_by begins_character bytes.now }
{
    bytes.iter().filter(|byte| begins_character(**byte)).count()
}
