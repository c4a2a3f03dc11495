//! The variants of enums, written: a name, and between braces a name with its content.

ghost use Rattle.std.specs.Prelude.{◌++◌, ◌∷◌, [], OnOk, OnErr};
ghost use Rattle.nano_grammar.specs.FieldCodec.{fields_text};
ghost use Rattle.nano_json_schema.specs.FieldCodecs.{json_fields};
ghost use Rattle.nano_json_schema.specs.Variants.{content_text};
ghost use Rattle.nano_text.specs.Outcomes.{Appends, AppendsPart, Unchanged};
ghost use Rattle.nano_json.specs.Written.{written_text};

use crate::fields::JsonRefs;
use crate::writer::write_fields;
use nano_json::{SerJson, SerJsonState, rollback_on_error};
use std::alloc::{AllocError, Global};

/// Appends the name of a variant without content, between quotes and with escapes where it
/// needs them: `"Name"`. If the write fails, `s.out` is unchanged.
pub fn write_unit_variant(alloc: Global, name: &str, s: &mut SerJsonState) -> Result<(), AllocError>
    ensures ok { OnOk result (Appends s.old.out s.new.out (written_text name.now)) }
    ensures err { OnErr result (Unchanged s.old.out s.new.out) }
{
    name.ser_json(alloc, 0, s)
}

/// Appends a variant with content: `{`, its name, a colon, the content at level `d`, and `}`.
/// If the write fails, `s.out` is unchanged.
pub fn write_variant<T: SerJson>(
    alloc: Global,
    name: &str,
    content: &T,
    d: usize,
    s: &mut SerJsonState,
) -> Result<(), AllocError>
    ensures ok { OnOk result (Appends s.old.out s.new.out
        (content_text name.now (T.json.canonical.text d content.now))) }
    ensures err { OnErr result (Unchanged s.old.out s.new.out) }
{
    let start = s.out.len();
    let written = append_variant(alloc, name, content, d, s);
    rollback_on_error(&mut s.out, start, written)
}

/// Appends a variant whose content is named fields: `{`, its name, a colon, the fields between
/// braces with their values at the level after `d`, and `}`. If the write fails,
/// `s.out` is unchanged.
pub fn write_fields_variant<'a, F: JsonRefs<'a>>(
    name: &str,
    refs: &F::Refs,
    alloc: Global,
    d: usize,
    s: &mut SerJsonState,
) -> Result<(), AllocError>
    ensures ok { OnOk result (Appends s.old.out s.new.out
        (content_text name.now (fields_text json_fields d
        (F.codec.canonical.fields (F.values refs.now))))) }
    ensures err { OnErr result (Unchanged s.old.out s.new.out) }
{
    let start = s.out.len();
    let written = append_fields_variant::<F>(name, refs, alloc, d, s);
    rollback_on_error(&mut s.out, start, written)
}

/// Appends a variant with content. If allocation fails, what was written so far is left.
fn append_variant<T: SerJson>(
    alloc: Global,
    name: &str,
    content: &T,
    d: usize,
    s: &mut SerJsonState,
) -> Result<(), AllocError>
    ensures ok { OnOk result (Appends s.old.out s.new.out
        (content_text name.now (T.json.canonical.text d content.now))) }
    ensures err { OnErr result (AppendsPart s.old.out s.new.out) }
{
    append_opening(alloc, name, s)?;
    content.ser_json(alloc, d, s)?;
    s.out.push('}')
}

/// Appends a variant whose content is named fields. If allocation fails, what was written so
/// far is left.
fn append_fields_variant<'a, F: JsonRefs<'a>>(
    name: &str,
    refs: &F::Refs,
    alloc: Global,
    d: usize,
    s: &mut SerJsonState,
) -> Result<(), AllocError>
    ensures ok { OnOk result (Appends s.old.out s.new.out
        (content_text name.now (fields_text json_fields d
        (F.codec.canonical.fields (F.values refs.now))))) }
    ensures err { OnErr result (AppendsPart s.old.out s.new.out) }
{
    append_opening(alloc, name, s)?;
    write_fields::<F>(refs, alloc, d, s)?;
    s.out.push('}')
}

/// Appends what comes before the content of a variant. If allocation fails, what was written so
/// far is left.
fn append_opening(alloc: Global, name: &str, s: &mut SerJsonState) -> Result<(), AllocError>
    ensures ok { OnOk result
        (Appends s.old.out s.new.out (123 ∷ (written_text name.now ++ 58 ∷ []))) }
    ensures err { OnErr result (AppendsPart s.old.out s.new.out) }
{
    s.out.push('{')?;
    write_unit_variant(alloc, name, s)?;
    s.out.push(':')
}
