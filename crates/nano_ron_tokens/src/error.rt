//! Errors of a reader, and the calls of a state that make them.

ghost use Rattle.std.specs.Prelude.{◌≡◌, ◌++◌, true, IfOk, codes};
ghost use Rattle.nano_ron_tokens.specs.State.{IsSameError, below_range, above_range};
ghost use Rattle.nano_ron_tokens.specs.Outcomes.{IsMadeAt, Says, SaysIt};

use crate::state::DeRonState;
use std::alloc::{AllocError, Global};
use std::error::Error;
use std::fmt;

/// Why nothing was read, and where. `memory` is true, and `msg` empty, only if an allocation
/// failed.
#[derive(Drop)]
pub struct DeRonErr {
    /// What was found, in words.
    pub msg: String,
    /// The line, counted from 0.
    pub line: usize,
    /// The column, counted from 0.
    pub col: usize,
    /// Whether an allocation failed.
    pub memory: bool,
}

impl DeRonErr {
    /// The same error again, or an out-of-memory error.
    pub fn clone(&self, alloc: Global) -> Result<DeRonErr, AllocError>
        ensures { IfOk result (IsSameError self.now) }
    {
        Ok(DeRonErr {
            msg: String::from_str(alloc, self.msg.as_str())?,
            line: self.line,
            col: self.col,
            memory: self.memory,
        })
    }
}

impl fmt::Display for DeRonErr {
    ghost use Rattle.std.specs.Prelude.{Some};
    ghost use Rattle.nano_ron_tokens.specs.State.{error_text};

    ghost output = { λ e. Some (error_text e) };

    fn fmt<W: fmt::Write>(&self, f: &mut fmt::Formatter<W>) -> fmt::Result {
        let msg = self.msg.as_str();
        let line = self.line.saturating_add(1);
        let col = self.col.saturating_add(1);
        write!(f, "Ron Deserialize error: {msg}, line:{line} col:{col}")
    }
}

impl fmt::Debug for DeRonErr {
    ghost use Rattle.std.specs.Prelude.{Some};
    ghost use Rattle.nano_ron_tokens.specs.State.{error_text};

    ghost debug_output = { λ e. Some (error_text e) };

    fn fmt<W: fmt::Write>(&self, f: &mut fmt::Formatter<W>) -> fmt::Result {
        write!(f, "{self}")
    }
}

impl Error for DeRonErr {}

/// The calls that make an error. Each error has the state's line and column. If there is no
/// memory for the message, it is an out-of-memory error.
impl DeRonState {
    /// A key that is not known: `Unexpected key {name}`.
    #[cold]
    #[inline(never)]
    pub fn err_exp(&self, alloc: Global, name: &str) -> DeRonErr
        ensures { Says self.now (codes "Unexpected key " ++ name.now) result }
    {
        self.err(alloc, format!(in alloc; "Unexpected key {name}"))
    }

    /// A key that is missing: `Key not found {name}`.
    #[cold]
    #[inline(never)]
    pub fn err_nf(&self, alloc: Global, name: &str) -> DeRonErr
        ensures { Says self.now (codes "Key not found " ++ name.now) result }
    {
        self.err(alloc, format!(in alloc; "Key not found {name}"))
    }

    /// A variant that is not known: `Enum not defined {name}`.
    #[cold]
    #[inline(never)]
    pub fn err_enum(&self, alloc: Global, name: &str) -> DeRonErr
        ensures { Says self.now (codes "Enum not defined " ++ name.now) result }
    {
        self.err(alloc, format!(in alloc; "Enum not defined {name}"))
    }

    /// Another token than the one that is pending: `Unexpected token {token} expected {what} `,
    /// with the token's debug form.
    #[cold]
    #[inline(never)]
    pub fn err_token(&self, alloc: Global, what: &str) -> DeRonErr
        ensures { IsMadeAt self.now result }
    {
        let tok = &self.tok;
        self.err(
            alloc,
            format!(in alloc; "Unexpected token {tok:?} expected {what} "),
        )
    }

    /// A value that is out of range: `Value out of range {what} `.
    #[cold]
    #[inline(never)]
    pub fn err_range(&self, alloc: Global, what: &str) -> DeRonErr
        ensures { Says self.now (codes "Value out of range " ++ (what.now ++ codes " ")) result }
    {
        self.err(alloc, format!(in alloc; "Value out of range {what} "))
    }

    /// A token of another type: `Token wrong type {what} `.
    #[cold]
    #[inline(never)]
    pub fn err_type(&self, alloc: Global, what: &str) -> DeRonErr
        ensures { Says self.now (codes "Token wrong type " ++ (what.now ++ codes " ")) result }
    {
        self.err(alloc, format!(in alloc; "Token wrong type {what} "))
    }

    /// A text that is no such lexeme: `Cannot parse {what} `.
    #[cold]
    #[inline(never)]
    pub fn err_parse(&self, alloc: Global, what: &str) -> DeRonErr
        ensures { Says self.now (codes "Cannot parse " ++ (what.now ++ codes " ")) result }
    {
        self.err(alloc, format!(in alloc; "Cannot parse {what} "))
    }

    /// A value below the least that is allowed: `Value out of range {value}<{min} `.
    #[cold]
    #[inline(never)]
    pub(crate) fn err_below(&self, alloc: Global, value: i128, min: i128) -> DeRonErr
        ensures { Says self.now (below_range value min) result }
    {
        self.err(
            alloc,
            format!(in alloc; "Value out of range {value}<{min} "),
        )
    }

    /// A value above the greatest that is allowed: `Value out of range {value}>{max} `.
    #[cold]
    #[inline(never)]
    pub(crate) fn err_above(&self, alloc: Global, value: i128, max: i128) -> DeRonErr
        ensures { Says self.now (above_range value max) result }
    {
        self.err(
            alloc,
            format!(in alloc; "Value out of range {value}>{max} "),
        )
    }

    /// An out-of-memory error.
    pub fn err_memory(&self, alloc: Global) -> DeRonErr
        ensures memory { result.memory ≡ true }
        ensures made { IsMadeAt self.now result }
    {
        DeRonErr {
            msg: String::new(alloc),
            line: self.line,
            col: self.col,
            memory: true,
        }
    }

    /// An error with this message, or out of memory if there was none for the message.
    pub(crate) fn err(&self, alloc: Global, msg: Result<String, AllocError>) -> DeRonErr
        ensures { SaysIt self.now msg result }
    {
        match msg {
            Ok(msg) => DeRonErr {
                msg,
                line: self.line,
                col: self.col,
                memory: false,
            },
            Err(_rejected) => self.err_memory(alloc),
        }
    }
}
