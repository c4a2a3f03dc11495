//! Runs of characters, which are taken at once.

ghost use Rattle.std.specs.Prelude.{◌≡◌, ℕ, Bool, length, encode_utf8_all};
ghost use Rattle.nano_toml.specs.Characters.{IsByteTest};
ghost use Rattle.nano_toml.specs.Place.{remaining};
ghost use Rattle.nano_toml.specs.Scan.{is_plain, is_in_line, is_remaining};
ghost use Rattle.nano_toml.specs.Token.{prefix, following, IsTest};

use crate::state::Cursor;

/// Whether a character, or a byte of UTF-8, stands for itself in a string.
pub(crate) fn is_plain(c: u8) -> bool
    ensures { result ≡ is_plain c }
{
    c != b'"' && c != b'\\' && c != 0
}

/// Whether a character, or a byte of UTF-8, is no end of a line.
pub(crate) fn is_in_line(c: u8) -> bool
    ensures { result ≡ is_in_line c }
{
    c != b'\n' && c != 0
}

/// Whether a character, or a byte of UTF-8, doesn't end the text.
pub(crate) fn is_remaining(c: u8) -> bool
    ensures { result ≡ is_remaining c }
{
    c != 0
}

/// How many bytes stand before the first that doesn't pass the test.
fn run_len<F: Fn(u8) -> bool>(bytes: &[u8], test: F) -> usize
    requires { F.IsAlwaysCallable test }
    ensures { (p : ℕ → Bool) → IsTest (F.post test) p → result ≡ length (prefix p bytes.now) }
{
    for (len, byte) in bytes.iter().enumerate() {
        if !test(*byte) {
            return len;
        }
    }
    bytes.len()
}

impl<'a> Cursor<'a> {
    /// Takes the longest prefix of characters that pass the test. The first byte of a character
    /// decides whether it passes.
    pub(crate) fn take_while<F: Fn(u8) -> bool>(&mut self, test: F) -> &'a str
        requires callable { F.IsAlwaysCallable test }
        requires by_bytes { (p : ℕ → Bool) × IsByteTest p × IsTest (F.post test) p }
        ensures text { (p : ℕ → Bool) → IsByteTest p → IsTest (F.post test) p
            → result.now ≡ encode_utf8_all (prefix p (remaining self.old)) }
        ensures rest { (p : ℕ → Bool) → IsByteTest p → IsTest (F.post test) p
            → remaining self.new ≡ following p (remaining self.old) }
    {
        let held = self.rest.as_str();
        let (run, rest) = held.split_at(run_len(held.as_bytes(), test));
        self.rest = rest.chars();
        run
    }
}
