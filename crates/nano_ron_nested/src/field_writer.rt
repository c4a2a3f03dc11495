//! Named fields, written one below the other, of which some hold values of the type that has them.
//! A field that is always written is a line, and one that may be missing is a line or none.

ghost use Rattle.std.specs.Prelude.{OnOk, OnErr};
ghost use Rattle.nano_grammar.proofs.FieldCodecLaws.{written_field};
ghost use Rattle.nano_ron_schema.specs.FieldCodecs.{required_field, optional_field};
ghost use Rattle.nano_ron_schema.specs.Outcomes.{on_a_line, on_lines, field_text};
ghost use Rattle.nano_text.specs.Outcomes.{Appends, AppendsPart};

use crate::traits::WritesRon;
use nano_ron::{SerRon, SerRonState};
use std::alloc::{AllocError, Global};

/// Appends a field whose value holds no values of the type, on a line of its own, with a comma
/// after it. A failed allocation leaves what was written so far.
pub fn append_field<T: SerRon>(
    alloc: Global,
    name: &str,
    value: &T,
    d: usize,
    s: &mut SerRonState,
) -> Result<(), AllocError>
    ensures ok { OnOk result (Appends s.old.out s.new.out (on_a_line d
        (field_text d (written_field name.now T.ron.canonical value.now)))) }
    ensures err { OnErr result (AppendsPart s.old.out s.new.out) }
{
    s.field(d, name)?;
    value.ser_ron(alloc, d, s)?;
    s.conl()
}

/// Appends a field whose value holds values of the type, on a line of its own, with a comma after
/// it. A failed allocation leaves what was written so far.
pub fn append_field_within<T: WritesRon>(
    alloc: Global,
    name: &str,
    value: &T,
    d: usize,
    s: &mut SerRonState,
) -> Result<(), AllocError>
    ensures ok { OnOk result (Appends s.old.out s.new.out (on_a_line d
        (field_text d (written_field name.now T.ron.canonical value.now)))) }
    ensures err { OnErr result (AppendsPart s.old.out s.new.out) }
{
    s.field(d, name)?;
    value.write_ron(alloc, d, s)?;
    s.conl()
}

/// Appends a field that is always written, whose value holds no values of the type: on a line of its
/// own, with a comma after it. A failed allocation leaves what was written so far.
pub fn append_required<T: SerRon>(
    alloc: Global,
    name: &str,
    value: &T,
    d: usize,
    s: &mut SerRonState,
) -> Result<(), AllocError>
    ensures ok { OnOk result (Appends s.old.out s.new.out (on_lines d (field_text d)
        ((required_field name.now T.ron).canonical.fields value.now))) }
    ensures err { OnErr result (AppendsPart s.old.out s.new.out) }
{
    append_field(alloc, name, value, d, s)
}

/// Appends a field that is always written, whose value holds values of the type: on a line of its
/// own, with a comma after it. A failed allocation leaves what was written so far.
pub fn append_required_within<T: WritesRon>(
    alloc: Global,
    name: &str,
    value: &T,
    d: usize,
    s: &mut SerRonState,
) -> Result<(), AllocError>
    ensures ok { OnOk result (Appends s.old.out s.new.out (on_lines d (field_text d)
        ((required_field name.now T.ron).canonical.fields value.now))) }
    ensures err { OnErr result (AppendsPart s.old.out s.new.out) }
{
    append_field_within(alloc, name, value, d, s)
}

/// Appends a field that is written where there is a value, which holds no values of the type: on a
/// line of its own, with a comma after it. A failed allocation leaves what was written so far.
pub fn append_optional<T: SerRon>(
    alloc: Global,
    name: &str,
    value: &Option<T>,
    d: usize,
    s: &mut SerRonState,
) -> Result<(), AllocError>
    ensures ok { OnOk result (Appends s.old.out s.new.out (on_lines d (field_text d)
        ((optional_field name.now T.ron).canonical.fields value.now))) }
    ensures err { OnErr result (AppendsPart s.old.out s.new.out) }
{
    match value {
        Some(value) => append_field(alloc, name, value, d, s),
        None => Ok(()),
    }
}

/// Appends a field that is written where there is a value, which holds values of the type: on a
/// line of its own, with a comma after it. A failed allocation leaves what was written so far.
pub fn append_optional_within<T: WritesRon>(
    alloc: Global,
    name: &str,
    value: &Option<T>,
    d: usize,
    s: &mut SerRonState,
) -> Result<(), AllocError>
    ensures ok { OnOk result (Appends s.old.out s.new.out (on_lines d (field_text d)
        ((optional_field name.now T.ron).canonical.fields value.now))) }
    ensures err { OnErr result (AppendsPart s.old.out s.new.out) }
{
    match value {
        Some(value) => append_field_within(alloc, name, value, d, s),
        None => Ok(()),
    }
}
