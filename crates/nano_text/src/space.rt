//! White space between tokens.

ghost use Rattle.std.specs.Prelude.{◌≡◌, ◌≢◌, length};
ghost use Rattle.nano_text.specs.Characters.{prefix, following, is_space};
ghost use Rattle.nano_text.specs.Outcomes.{Counts};
ghost use Rattle.nano_text.specs.Place.{held, text_at, before_nul};
ghost use Rattle.nano_text.specs.Scan.{is_blank};

use crate::lanes::{LANES, blank_lanes};
use crate::place::Place;
use std::str::Chars;

impl Place {
    /// Passes over white space, from the current character on. An indent is passed at once.
    #[inline(always)]
    pub fn skip_space(&mut self, i: &mut Chars<'_>)
        ensures rest { text_at self.new i.new ≡ following is_space (text_at self.old i.old) }
        ensures counts { Counts self.old i.old self.new i.new }
    {
        'space: while is_space(self.cur) {
            if self.cur == '\n' {
                self.skip_blanks(i);
            } else {
                self.next(i);
            }
        }
    }

    /// Passes over the current character and the blanks after it.
    ///
    /// The current character may never have been in `i`. The blanks are spaces, the white space
    /// of indents, and are counted at once: each is one byte and one column.
    #[inline(always)]
    fn skip_blanks(&mut self, i: &mut Chars<'_>)
        ensures rest { text_at self.new i.new ≡ following is_blank (before_nul (held i.old)) }
        ensures counts { self.old.cur ≢ 0 → Counts self.old i.old self.new i.new }
    {
        let text = i.as_str();
        let len = blanks_len(text.as_bytes());
        self.col = self.col.saturating_add(len);
        *i = text.split_at(len).1.chars();
        self.next(i);
    }
}

/// Whether a character is white space.
#[inline(always)]
pub fn is_space(c: char) -> bool
    ensures { result ≡ is_space c }
{
    c == '\n' || c == '\r' || c == '\t' || c == ' '
}

/// How many of these bytes are blanks before the first that is none, sixteen in a turn.
#[inline(always)]
fn blanks_len(bytes: &[u8]) -> usize
    ensures { result ≡ length (prefix is_blank bytes.now) }
{
    let mut len = 0;
    'lanes: while bytes.len() - len >= LANES {
        let blanks = blank_lanes(bytes, len);
        len += blanks;
        if blanks < LANES {
            return len;
        }
    }
    len + few_blanks(&bytes[len..])
}

/// How many of these bytes are blanks before the first that is none, looked at one by one.
fn few_blanks(bytes: &[u8]) -> usize
    ensures { result ≡ length (prefix is_blank bytes.now) }
{
    for (len, byte) in bytes.iter().enumerate() {
        if !is_blank(*byte) {
            return len;
        }
    }
    bytes.len()
}

/// Whether a byte is what indents are made of.
#[inline]
fn is_blank(byte: u8) -> bool
    ensures { result ≡ is_blank byte }
{
    byte == b' '
}
