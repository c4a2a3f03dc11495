//! The state of a writer.

ghost use Rattle.std.specs.Prelude.{◌≡◌, ◌++◌, OnOk, OnErr, IsOk, codes};
ghost use Rattle.nano_text.specs.Outcomes.{Unchanged};
ghost use Rattle.nano_json_tokens.specs.Outcomes.{Writes};

use crate::quoted::{SHORT_NAME, append_short_name};
use std::alloc::AllocError;

/// What is written so far. A call that runs out of memory leaves it unchanged.
#[derive(Drop)]
pub struct SerJsonState {
    /// The text.
    pub out: String,
}

impl SerJsonState {
    /// Writes nothing: JSON is written without indents.
    pub fn indent(&mut self, _d: usize) -> Result<(), AllocError>
        ensures ok { IsOk result }
        ensures same { self.new ≡ self.old }
    {
        Ok(())
    }

    /// Writes the name of a field, between quotes and as it is, and a colon.
    #[inline(always)]
    pub fn field(&mut self, d: usize, field: &str) -> Result<(), AllocError>
        ensures ok { OnOk result
            (Writes self.old self.new (codes "\"" ++ (field.now ++ codes "\":"))) }
        ensures err { OnErr result (Unchanged self.old.out self.new.out) }
    {
        self.indent(d)?;
        if field.len() <= SHORT_NAME {
            return append_short_name(&mut self.out, field);
        }
        self.out.reserve(field.len() + 3)?;
        self.out.push('"')?;
        self.out.push_str(field)?;
        self.out.push('"')?;
        self.out.push(':')
    }

    /// Writes a label, between quotes and as it is.
    pub fn label(&mut self, label: &str) -> Result<(), AllocError>
        ensures ok { OnOk result
            (Writes self.old self.new (codes "\"" ++ (label.now ++ codes "\""))) }
        ensures err { OnErr result (Unchanged self.old.out self.new.out) }
    {
        self.out.reserve(label.len() + 2)?;
        self.out.push('"')?;
        self.out.push_str(label)?;
        self.out.push('"')
    }

    /// Writes the comma after a field or an item.
    pub fn conl(&mut self) -> Result<(), AllocError>
        ensures ok { OnOk result (Writes self.old self.new (codes ",")) }
        ensures err { OnErr result (Unchanged self.old.out self.new.out) }
    {
        self.out.push(',')
    }

    /// Writes the bracket before fields.
    pub fn st_pre(&mut self) -> Result<(), AllocError>
        ensures ok { OnOk result (Writes self.old self.new (codes "{")) }
        ensures err { OnErr result (Unchanged self.old.out self.new.out) }
    {
        self.out.push('{')
    }

    /// Writes the bracket after fields.
    pub fn st_post(&mut self, d: usize) -> Result<(), AllocError>
        ensures ok { OnOk result (Writes self.old self.new (codes "}")) }
        ensures err { OnErr result (Unchanged self.old.out self.new.out) }
    {
        self.indent(d)?;
        self.out.push('}')
    }
}
