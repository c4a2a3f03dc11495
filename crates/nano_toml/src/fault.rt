//! Why the reader stopped.

ghost use Rattle.std.specs.Prelude.{◌≡◌};
ghost use Rattle.nano_toml.specs.Outcomes.{word_of};
ghost use Rattle.nano_toml.specs.declared.fault.Fault.TheVariants.{Memory};

use crate::token::TomlTok;
use std::alloc::{AllocError, AllocFailed};

/// What characters were taken for that begin no token.
#[derive(Clone, Copy)]
pub(crate) enum Lexeme {
    Number,
    Nan,
    Infinity,
    Quoted,
    Character,
}

impl Lexeme {
    /// The word for it in a message.
    pub(crate) fn word(self) -> &'static str
        ensures { result.now ≡ word_of self }
    {
        match self {
            Lexeme::Number => "number",
            Lexeme::Nan => "nan",
            Lexeme::Infinity => "inf",
            Lexeme::Quoted => "string",
            Lexeme::Character => "tokenizer",
        }
    }
}

/// Why the reader stopped: out of memory, or what is wrong with the text.
#[derive(Drop)]
pub(crate) enum Fault {
    Memory,
    /// The characters begin no token.
    Malformed(Lexeme),
    /// A token stands where none of its kind may.
    Unexpected(TomlTok),
    /// A header `[[key]]` names a key that a pair gave.
    OtherKind(String),
}

impl From<AllocError> for Fault {
    ghost from_gives = { λ _ e. e ≡ Memory };

    fn from(_error: AllocError) -> Fault {
        Fault::Memory
    }
}

impl<T: Drop> From<AllocFailed<T>> for Fault {
    ghost from_gives = { λ _ e. e ≡ Memory };

    fn from(_error: AllocFailed<T>) -> Fault {
        Fault::Memory
    }
}
