//! Why a text is rejected.

ghost use Rattle.std.specs.Prelude.{◌≡◌};
ghost use Rattle.nano_text_forms.specs.Forms.{IsOf};

use crate::fault::TextFault;
use nano_json::DeJsonErr;
use nano_ron::DeRonErr;
use nano_toml::TomlErr;
use std::alloc::AllocError;

/// Why a text was not read. The error of each text reader is one of these.
#[derive(Debug, Drop)]
pub enum Rejection {
    /// The text is no value of the type, or no TOML.
    Text(TextFault),
    /// An allocation failed.
    Memory,
}

impl From<AllocError> for Rejection {
    ghost use Rattle.nano_text_forms.specs.declared.rejection.Rejection.TheVariants.{Memory};

    ghost from_gives = { λ _ rejection. rejection ≡ Memory };

    fn from(_rejected: AllocError) -> Self {
        Rejection::Memory
    }
}

impl From<DeJsonErr> for Rejection {
    ghost from_gives = { λ error. IsOf error.memory error.msg error.line error.col };

    fn from(error: DeJsonErr) -> Self {
        reported(error.memory, error.msg, error.line, error.col)
    }
}

impl From<DeRonErr> for Rejection {
    ghost from_gives = { λ error. IsOf error.memory error.msg error.line error.col };

    fn from(error: DeRonErr) -> Self {
        reported(error.memory, error.msg, error.line, error.col)
    }
}

impl From<TomlErr> for Rejection {
    ghost from_gives = { λ error. IsOf error.memory error.msg error.line error.col };

    fn from(error: TomlErr) -> Self {
        reported(error.memory, error.msg, error.line, error.col)
    }
}

/// The rejection for a reader's error, with its words and its place.
fn reported(memory: bool, words: String, line: usize, column: usize) -> Rejection
    ensures { IsOf memory words line column result }
{
    if memory {
        return Rejection::Memory;
    }
    Rejection::Text(TextFault {
        words,
        line,
        column,
    })
}
