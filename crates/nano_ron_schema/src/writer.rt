//! Named fields, as they are written.

ghost use Rattle.std.specs.Prelude.{OnOk, OnErr};
ghost use Rattle.nano_grammar.proofs.FieldCodecLaws.{written_field};
ghost use Rattle.nano_ron_schema.specs.Outcomes.{on_a_line, field_text, fields_text};
ghost use Rattle.nano_text.specs.Outcomes.{Appends, AppendsPart, Unchanged};

use crate::fields::RonRefs;
use nano_ron::{SerRon, SerRonState, rollback_on_error};
use std::alloc::{AllocError, Global};

/// Appends a field on a line of its own, with a comma after it. A failed allocation leaves what
/// was written so far.
pub(crate) fn append_field<T: SerRon>(
    alloc: Global,
    name: &str,
    value: &T,
    d: usize,
    s: &mut SerRonState,
) -> Result<(), AllocError>
    ensures ok { OnOk result (Appends s.old.out s.new.out (on_a_line d
        (field_text d (written_field name.now T.ron.canonical value.now)))) }
    ensures err { OnErr result (AppendsPart s.old.out s.new.out) }
{
    s.field(d, name)?;
    value.ser_ron(alloc, d, s)?;
    s.conl()
}

/// Appends a struct at level `d`. A failed allocation leaves what was written so far.
fn append_struct<'a, F: RonRefs<'a>>(
    refs: &F::Refs,
    alloc: Global,
    d: usize,
    s: &mut SerRonState,
) -> Result<(), AllocError>
    ensures ok { OnOk result
        (Appends s.old.out s.new.out (fields_text d
        (F.codec.canonical.fields (F.values refs.now)))) }
    ensures err { OnErr result (AppendsPart s.old.out s.new.out) }
{
    s.st_pre()?;
    F::append_fields(refs, alloc, d.saturating_add(1), s)?;
    s.st_post(d)
}

/// Appends a struct at level `d`: its fields between parentheses, each on a line of its own at
/// the next level, with a comma after it. Names are written as they are.
///
/// A failed write leaves `s.out` as it was.
pub fn write_fields<'a, F: RonRefs<'a>>(
    refs: &F::Refs,
    alloc: Global,
    d: usize,
    s: &mut SerRonState,
) -> Result<(), AllocError>
    ensures ok { OnOk result
        (Appends s.old.out s.new.out (fields_text d
        (F.codec.canonical.fields (F.values refs.now)))) }
    ensures err { OnErr result (Unchanged s.old.out s.new.out) }
{
    let start = s.out.len();
    let written = append_struct::<F>(refs, alloc, d, s);
    rollback_on_error(&mut s.out, start, written)
}
