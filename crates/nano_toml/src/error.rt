//! Why a text was rejected.

use std::alloc::{AllocError, Global};
use std::error::Error;
use std::fmt;

/// Why a text was rejected, and where.
///
/// The messages, each with a space at its end:
/// `Cannot parse toml {what} `, where the characters begin no token;
/// `Unexpected token {token} `, where a token stands where none of its kind may;
/// `Array header on another kind {key} `, where a header `[[key]]` names a key that a pair
/// gave.
/// On out of memory, `memory` is true and `msg` is empty.
///
/// The place is where reading stopped: after the last character that was taken, which may be
/// the one that follows the token at fault.
#[derive(Drop)]
pub struct TomlErr {
    /// What is wrong.
    pub msg: String,
    /// How many line feeds stand before the place, so that 0 is the first line.
    pub line: usize,
    /// How many characters of its line stand before the place.
    pub col: usize,
    /// Whether memory ran out, which says nothing of the text.
    pub memory: bool,
}

impl TomlErr {
    ghost use Rattle.std.specs.Prelude.{◌≡◌, IfOk, string_bytes};

    /// A copy of the error. Copying itself fails only with out of memory.
    pub fn clone(&self, alloc: Global) -> Result<TomlErr, AllocError>
        ensures message { IfOk result (λ copy. string_bytes copy.msg ≡ string_bytes self.now.msg) }
        ensures line { IfOk result (λ copy. copy.line ≡ self.now.line) }
        ensures col { IfOk result (λ copy. copy.col ≡ self.now.col) }
        ensures memory { IfOk result (λ copy. copy.memory ≡ self.now.memory) }
    {
        Ok(TomlErr {
            msg: String::from_str(alloc, self.msg.as_str())?,
            line: self.line,
            col: self.col,
            memory: self.memory,
        })
    }
}

/// Prints the message, and the line and the column counted from 1.
impl fmt::Display for TomlErr {
    ghost use Rattle.std.specs.Prelude.{Some, string_bytes};
    ghost use Rattle.nano_toml.specs.Outcomes.{error_text};

    ghost output = { λ e. Some (error_text (string_bytes e.msg) e.line e.col) };

    fn fmt<W: fmt::Write>(&self, f: &mut fmt::Formatter<W>) -> fmt::Result {
        let msg = self.msg.as_str();
        let line = self.line.saturating_add(1);
        let col = self.col.saturating_add(1);
        write!(f, "Toml error: {msg}, line:{line} col:{col}")
    }
}

/// Prints the same as `Display`.
impl fmt::Debug for TomlErr {
    ghost use Rattle.std.specs.Prelude.{Some, string_bytes};
    ghost use Rattle.nano_toml.specs.Outcomes.{error_text};

    ghost debug_output = { λ e. Some (error_text (string_bytes e.msg) e.line e.col) };

    fn fmt<W: fmt::Write>(&self, f: &mut fmt::Formatter<W>) -> fmt::Result {
        write!(f, "{self}")
    }
}

impl Error for TomlErr {}
