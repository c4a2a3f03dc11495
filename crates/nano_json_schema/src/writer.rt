//! Named fields, as they are written.

ghost use Rattle.std.specs.Prelude.{OnOk, OnErr};
ghost use Rattle.nano_grammar.specs.FieldCodec.{field_text, fields_text};
ghost use Rattle.nano_grammar.proofs.FieldCodecLaws.{written_field};
ghost use Rattle.nano_json_schema.specs.FieldCodecs.{json_fields};
ghost use Rattle.nano_json_schema.specs.Outcomes.{after_comma};
ghost use Rattle.nano_text.specs.Outcomes.{Appends, AppendsPart, Unchanged};

use crate::fields::JsonRefs;
use nano_json::{SerJson, SerJsonState, rollback_on_error};
use std::alloc::{AllocError, Global};

/// Appends a field, after a comma unless it is the first. If allocation fails, what was written
/// so far is left.
pub(crate) fn append_field<T: SerJson>(
    alloc: Global,
    name: &str,
    value: &T,
    first: bool,
    d: usize,
    s: &mut SerJsonState,
) -> Result<(), AllocError>
    ensures ok { OnOk result (Appends s.old.out s.new.out (after_comma first
        (field_text json_fields d (written_field name.now T.json.canonical value.now)))) }
    ensures err { OnErr result (AppendsPart s.old.out s.new.out) }
{
    if !first {
        s.conl()?;
    }
    s.field(d, name)?;
    value.ser_json(alloc, d, s)
}

/// Appends a struct at level `d`. If allocation fails, what was written so far is left.
fn append_struct<'a, F: JsonRefs<'a>>(
    refs: &F::Refs,
    alloc: Global,
    d: usize,
    s: &mut SerJsonState,
) -> Result<(), AllocError>
    ensures ok { OnOk result
        (Appends s.old.out s.new.out (fields_text json_fields d
        (F.codec.canonical.fields (F.values refs.now)))) }
    ensures err { OnErr result (AppendsPart s.old.out s.new.out) }
{
    s.st_pre()?;
    F::append_fields(refs, alloc, true, d.saturating_add(1), s)?;
    s.st_post(d)
}

/// Appends a struct at level `d`: its fields between braces, with their values at the
/// next level. Names are written as they are, without escapes.
///
/// If the write fails, `s.out` is unchanged.
pub fn write_fields<'a, F: JsonRefs<'a>>(
    refs: &F::Refs,
    alloc: Global,
    d: usize,
    s: &mut SerJsonState,
) -> Result<(), AllocError>
    ensures ok { OnOk result
        (Appends s.old.out s.new.out (fields_text json_fields d
        (F.codec.canonical.fields (F.values refs.now)))) }
    ensures err { OnErr result (Unchanged s.old.out s.new.out) }
{
    let start = s.out.len();
    let written = append_struct::<F>(refs, alloc, d, s);
    rollback_on_error(&mut s.out, start, written)
}
