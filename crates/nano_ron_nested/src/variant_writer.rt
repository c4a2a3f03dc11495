//! The variants of enums that contain themselves, written: a name with its content.

ghost use Rattle.std.specs.Prelude.{OnOk, OnErr};
ghost use Rattle.nano_ron.specs.ContainerCodecs.{pair_codec, triple_codec};
ghost use Rattle.nano_ron_schema.specs.VariantCodecs.{single_codec};
ghost use Rattle.nano_ron_schema.specs.Variants.{content_text};
ghost use Rattle.nano_text.specs.Outcomes.{Appends, AppendsPart, Unchanged};

use crate::part_writer::{append_last_within, append_part_within, open_variant};
use crate::traits::WritesRon;
use nano_ron::{SerRon, SerRonState, rollback_on_error};
use nano_ron_schema::{Part, WriteContent, write_unit_variant};
use nano_schema::Newtype;
use std::alloc::{AllocError, Global};

/// Appends a variant with one part, which holds no values of the enum: its name, and the part at
/// level `d` between parentheses. If the write fails, `s.out` is unchanged.
pub fn write_variant_other<T: SerRon>(
    alloc: Global,
    name: &str,
    part: &T,
    d: usize,
    s: &mut SerRonState,
) -> Result<(), AllocError>
    ensures ok { OnOk result (Appends s.old.out s.new.out
        (content_text name.now ((single_codec T.ron).canonical.text d part.now))) }
    ensures err { OnErr result (Unchanged s.old.out s.new.out) }
{
    Newtype::<T>::write(name, &part, alloc, d, s)
}

/// Appends a variant with one part, which holds values of the enum: its name, and the part at
/// level `d` between parentheses. If the write fails, `s.out` is unchanged.
pub fn write_variant_within<T: WritesRon>(
    alloc: Global,
    name: &str,
    part: &T,
    d: usize,
    s: &mut SerRonState,
) -> Result<(), AllocError>
    ensures ok { OnOk result (Appends s.old.out s.new.out
        (content_text name.now ((single_codec T.ron).canonical.text d part.now))) }
    ensures err { OnErr result (Unchanged s.old.out s.new.out) }
{
    let start = s.out.len();
    let written = append_variant(alloc, name, part, d, s);
    rollback_on_error(&mut s.out, start, written)
}

/// Appends a variant with one part. If allocation fails, what was written so far is left.
fn append_variant<T: WritesRon>(
    alloc: Global,
    name: &str,
    part: &T,
    d: usize,
    s: &mut SerRonState,
) -> Result<(), AllocError>
    ensures ok { OnOk result (Appends s.old.out s.new.out
        (content_text name.now ((single_codec T.ron).canonical.text d part.now))) }
    ensures err { OnErr result (AppendsPart s.old.out s.new.out) }
{
    write_unit_variant(name, s)?;
    s.out.push('(')?;
    append_last_within(alloc, part, d, s)
}

impl<T: SerRon> WritesRon for Part<'_, T> {
    fn write_ron(&self, alloc: Global, d: usize, s: &mut SerRonState) -> Result<(), AllocError> {
        self.ser_ron(alloc, d, s)
    }
}

/// Appends a variant with two parts: its name, and the parts at level `d` with a comma and a space
/// between them and parentheses around them. A part that holds no values of the enum is given as a
/// `Part`. If the write fails, `s.out` is unchanged.
pub fn write_pair_within<A: WritesRon, B: WritesRon>(
    alloc: Global,
    name: &str,
    first: &A,
    second: &B,
    d: usize,
    s: &mut SerRonState,
) -> Result<(), AllocError>
    ensures ok { OnOk result (Appends s.old.out s.new.out (content_text name.now
        ((pair_codec A.ron B.ron).canonical.text d (first.now, second.now)))) }
    ensures err { OnErr result (Unchanged s.old.out s.new.out) }
{
    let start = s.out.len();
    let written = append_pair(alloc, name, first, second, d, s);
    rollback_on_error(&mut s.out, start, written)
}

/// Appends a variant with two parts. If allocation fails, what was written so far is left.
fn append_pair<A: WritesRon, B: WritesRon>(
    alloc: Global,
    name: &str,
    first: &A,
    second: &B,
    d: usize,
    s: &mut SerRonState,
) -> Result<(), AllocError>
    ensures ok { OnOk result (Appends s.old.out s.new.out (content_text name.now
        ((pair_codec A.ron B.ron).canonical.text d (first.now, second.now)))) }
    ensures err { OnErr result (AppendsPart s.old.out s.new.out) }
{
    open_variant(name, s)?;
    append_part_within(alloc, first, d, s)?;
    append_last_within(alloc, second, d, s)
}

/// Appends a variant with three parts: its name, and the parts at level `d` with a comma and a space
/// between two and parentheses around them. A part that holds no values of the enum is given as a
/// `Part`. If the write fails, `s.out` is unchanged.
pub fn write_triple_within<A: WritesRon, B: WritesRon, C: WritesRon>(
    alloc: Global,
    name: &str,
    first: &A,
    second: &B,
    third: &C,
    d: usize,
    s: &mut SerRonState,
) -> Result<(), AllocError>
    ensures ok { OnOk result (Appends s.old.out s.new.out (content_text name.now
        ((triple_codec A.ron B.ron C.ron).canonical.text d (first.now, second.now, third.now)))) }
    ensures err { OnErr result (Unchanged s.old.out s.new.out) }
{
    let start = s.out.len();
    let written = append_triple(alloc, name, first, second, third, d, s);
    rollback_on_error(&mut s.out, start, written)
}

/// Appends a variant with three parts. If allocation fails, what was written so far is left.
fn append_triple<A: WritesRon, B: WritesRon, C: WritesRon>(
    alloc: Global,
    name: &str,
    first: &A,
    second: &B,
    third: &C,
    d: usize,
    s: &mut SerRonState,
) -> Result<(), AllocError>
    ensures ok { OnOk result (Appends s.old.out s.new.out (content_text name.now
        ((triple_codec A.ron B.ron C.ron).canonical.text d (first.now, second.now, third.now)))) }
    ensures err { OnErr result (AppendsPart s.old.out s.new.out) }
{
    open_variant(name, s)?;
    append_part_within(alloc, first, d, s)?;
    append_part_within(alloc, second, d, s)?;
    append_last_within(alloc, third, d, s)
}
