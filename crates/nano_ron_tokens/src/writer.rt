//! The state of a writer.

ghost use Rattle.std.specs.Prelude.{◌≡◌, ◌++◌, ◌∷◌, [], cond, OnOk, OnErr, codes, string_bytes};
ghost use Rattle.nano_text.specs.Outcomes.{Appends, AppendsPart, Unchanged};
ghost use Rattle.nano_ron_tokens.specs.Outcomes.{Writes};
ghost use Rattle.nano_ron_tokens.specs.Written.{indent};

use nano_text::rollback_on_error;
use std::alloc::AllocError;

/// What is written so far. A call that runs out of memory leaves it as it was.
#[derive(Drop)]
pub struct SerRonState {
    /// The text.
    pub out: String,
}

impl SerRonState {
    /// Writes four spaces for each of `d` levels.
    pub fn indent(&mut self, d: usize) -> Result<(), AllocError>
        ensures ok { OnOk result (Writes self.old self.new (indent d)) }
        ensures err { OnErr result (Unchanged self.old.out self.new.out) }
    {
        // A level that no memory can hold is rejected at once.
        self.out.reserve(d.saturating_mul(4))?;
        let start = self.out.len();
        let written = append_indent(&mut self.out, d);
        rollback_on_error(&mut self.out, start, written)
    }

    /// Writes the indent of level `d`, the name of a field as it is, and a colon.
    pub fn field(&mut self, d: usize, field: &str) -> Result<(), AllocError>
        ensures ok { OnOk result
            (Writes self.old self.new (indent d ++ (field.now ++ codes ":"))) }
        ensures err { OnErr result (Unchanged self.old.out self.new.out) }
    {
        let start = self.out.len();
        let written = self.append_field(d, field);
        rollback_on_error(&mut self.out, start, written)
    }

    /// Writes the comma after a field or an item, and a line feed.
    pub fn conl(&mut self) -> Result<(), AllocError>
        ensures ok { OnOk result (Writes self.old self.new (codes ",\n")) }
        ensures err { OnErr result (Unchanged self.old.out self.new.out) }
    {
        self.out.push_str(",\n")
    }

    /// Writes the parenthesis before fields, and a line feed.
    pub fn st_pre(&mut self) -> Result<(), AllocError>
        ensures ok { OnOk result (Writes self.old self.new (codes "(\n")) }
        ensures err { OnErr result (Unchanged self.old.out self.new.out) }
    {
        self.out.push_str("(\n")
    }

    /// Writes the indent of level `d`, and the parenthesis after fields.
    pub fn st_post(&mut self, d: usize) -> Result<(), AllocError>
        ensures ok { OnOk result (Writes self.old self.new (indent d ++ codes ")")) }
        ensures err { OnErr result (Unchanged self.old.out self.new.out) }
    {
        let start = self.out.len();
        let written = self.append_closing(d);
        rollback_on_error(&mut self.out, start, written)
    }

    /// Writes what `field` does. A failed allocation leaves what was written so far.
    fn append_field(&mut self, d: usize, field: &str) -> Result<(), AllocError>
        ensures ok { OnOk result
            (Writes self.old self.new (indent d ++ (field.now ++ codes ":"))) }
        ensures err { OnErr result (AppendsPart self.old.out self.new.out) }
    {
        self.indent(d)?;
        self.out.push_str(field)?;
        self.out.push(':')
    }

    /// Writes what `st_post` does. A failed allocation leaves what was written so far.
    fn append_closing(&mut self, d: usize) -> Result<(), AllocError>
        ensures ok { OnOk result (Writes self.old self.new (indent d ++ codes ")")) }
        ensures err { OnErr result (AppendsPart self.old.out self.new.out) }
    {
        self.indent(d)?;
        self.out.push(')')
    }
}

/// Appends four spaces for each of `d` levels. A failed allocation leaves what was written so
/// far.
fn append_indent(out: &mut String, d: usize) -> Result<(), AllocError>
    ensures ok { OnOk result (string_bytes out.new ≡ string_bytes out.old ++ indent d) }
    ensures err { OnErr result (AppendsPart out.old out.new) }
{
    for _level in 0..d {
        out.push_str("    ")?;
    }
    Ok(())
}

/// Appends a comma unless an item is the first. A failed allocation leaves what was written.
pub fn append_comma(first: bool, s: &mut SerRonState) -> Result<(), AllocError>
    ensures ok { OnOk result (Appends s.old.out s.new.out (cond first [] (44 ∷ []))) }
    ensures err { OnErr result (AppendsPart s.old.out s.new.out) }
{
    if first {
        return Ok(());
    }
    s.out.push(',')
}
