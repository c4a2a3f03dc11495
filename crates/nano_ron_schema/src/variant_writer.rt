//! The variants of enums, written: a name, with content directly after it or without.

ghost use Rattle.std.specs.Prelude.{OnOk, OnErr, chars};
ghost use Rattle.nano_ron_schema.specs.Outcomes.{fields_text};
ghost use Rattle.nano_ron_schema.specs.Variants.{content_text};
ghost use Rattle.nano_text.specs.Outcomes.{Appends, AppendsPart, Unchanged};

use crate::fields::RonRefs;
use crate::writer::write_fields;
use nano_ron::{SerRon, SerRonState, rollback_on_error};
use std::alloc::{AllocError, Global};

/// Appends the name of a variant without content, as it is. A failed write leaves `s.out` as it
/// was.
pub fn write_unit_variant(name: &str, s: &mut SerRonState) -> Result<(), AllocError>
    ensures ok { OnOk result (Appends s.old.out s.new.out (chars name.now)) }
    ensures err { OnErr result (Unchanged s.old.out s.new.out) }
{
    s.out.push_str(name)
}

/// Appends a variant with content: its name, and the content at level `d`. A failed write
/// leaves `s.out` as it was.
pub fn write_variant<T: SerRon>(
    alloc: Global,
    name: &str,
    content: &T,
    d: usize,
    s: &mut SerRonState,
) -> Result<(), AllocError>
    ensures ok { OnOk result (Appends s.old.out s.new.out
        (content_text name.now (T.ron.canonical.text d content.now))) }
    ensures err { OnErr result (Unchanged s.old.out s.new.out) }
{
    let start = s.out.len();
    let written = append_variant(alloc, name, content, d, s);
    rollback_on_error(&mut s.out, start, written)
}

/// Appends a variant whose content is named fields: its name, and the fields between
/// parentheses at level `d`. A failed write leaves `s.out` as it was.
pub fn write_fields_variant<'a, F: RonRefs<'a>>(
    name: &str,
    refs: &F::Refs,
    alloc: Global,
    d: usize,
    s: &mut SerRonState,
) -> Result<(), AllocError>
    ensures ok { OnOk result (Appends s.old.out s.new.out
        (content_text name.now (fields_text d
        (F.codec.canonical.fields (F.values refs.now))))) }
    ensures err { OnErr result (Unchanged s.old.out s.new.out) }
{
    let start = s.out.len();
    let written = append_fields_variant::<F>(name, refs, alloc, d, s);
    rollback_on_error(&mut s.out, start, written)
}

/// Appends a variant with content. A failed allocation leaves what was written so far.
fn append_variant<T: SerRon>(
    alloc: Global,
    name: &str,
    content: &T,
    d: usize,
    s: &mut SerRonState,
) -> Result<(), AllocError>
    ensures ok { OnOk result (Appends s.old.out s.new.out
        (content_text name.now (T.ron.canonical.text d content.now))) }
    ensures err { OnErr result (AppendsPart s.old.out s.new.out) }
{
    write_unit_variant(name, s)?;
    content.ser_ron(alloc, d, s)
}

/// Appends a variant whose content is named fields. A failed allocation leaves what was written
/// so far.
fn append_fields_variant<'a, F: RonRefs<'a>>(
    name: &str,
    refs: &F::Refs,
    alloc: Global,
    d: usize,
    s: &mut SerRonState,
) -> Result<(), AllocError>
    ensures ok { OnOk result (Appends s.old.out s.new.out
        (content_text name.now (fields_text d
        (F.codec.canonical.fields (F.values refs.now))))) }
    ensures err { OnErr result (AppendsPart s.old.out s.new.out) }
{
    write_unit_variant(name, s)?;
    write_fields::<F>(refs, alloc, d, s)
}
