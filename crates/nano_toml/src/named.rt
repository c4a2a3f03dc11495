//! The numbers that words name: `nan` and `inf`.

ghost use Rattle.std.specs.Prelude.{◌≡◌, ◌≢◌, None, codes};
ghost use Rattle.nano_toml.specs.Place.{remaining, word_remaining};
ghost use Rattle.nano_toml.specs.Outcomes.{OnFault, FaultIs, Takes, ReportsLexeme};
ghost use Rattle.nano_toml.specs.Scan.{word_at};
ghost use Rattle.nano_toml.specs.Token.{nan, infinity};

use crate::fault::{Fault, Lexeme};
use crate::state::Cursor;
use crate::token::TomlTok;

impl<'a> Cursor<'a> {
    /// Reads `nan`.
    pub(crate) fn read_nan(&mut self, minus: bool) -> Result<TomlTok, Fault>
        ensures found { Takes result
            (word_at (nan minus) (codes "nan") (remaining self.old)) (remaining self.new) }
        ensures rejected { OnFault result
            (word_at (nan minus) (codes "nan") (remaining self.old) ≡ None) }
        ensures reported { FaultIs result (Fault.Malformed Lexeme.Nan) }
        ensures remaining { OnFault result
            (remaining self.new ≡ word_remaining (codes "nan") (remaining self.old)) }
    {
        if self.take(b'n') && self.take(b'a') && self.take(b'n') {
            Ok(TomlTok::Nan(minus))
        } else {
            Err(Fault::Malformed(Lexeme::Nan))
        }
    }

    /// Reads `inf`.
    pub(crate) fn read_infinity(&mut self, minus: bool) -> Result<TomlTok, Fault>
        ensures found { Takes result
            (word_at (infinity minus) (codes "inf") (remaining self.old)) (remaining self.new) }
        ensures rejected { OnFault result
            (word_at (infinity minus) (codes "inf") (remaining self.old) ≡ None) }
        ensures reported { ReportsLexeme result }
        ensures remaining { OnFault result
            (remaining self.new ≡ word_remaining (codes "inf") (remaining self.old)) }
    {
        if !self.take(b'i') || !self.take(b'n') {
            Err(Fault::Malformed(Lexeme::Nan))
        } else if self.take(b'f') {
            Ok(TomlTok::Inf(minus))
        } else {
            Err(Fault::Malformed(Lexeme::Infinity))
        }
    }
}
