//! The parts of tuple variants, written between parentheses, with commas between them.

ghost use Rattle.std.specs.Prelude.{◌++◌, ◌∷◌, [], OnOk, OnErr};
ghost use Rattle.nano_text.specs.Outcomes.{Appends, AppendsPart};
ghost use Rattle.nano_ron_schema.specs.Variants.{content_text};

use crate::traits::WritesRon;
use nano_ron::{SerRon, SerRonState};
use nano_ron_schema::write_unit_variant;
use std::alloc::{AllocError, Global};

/// Appends the name of a tuple variant, and the opening parenthesis. If an allocation fails, what
/// was written so far remains.
pub fn open_variant(name: &str, s: &mut SerRonState) -> Result<(), AllocError>
    ensures ok { OnOk result (Appends s.old.out s.new.out (content_text name.now (40 ∷ []))) }
    ensures err { OnErr result (AppendsPart s.old.out s.new.out) }
{
    write_unit_variant(name, s)?;
    s.out.push('(')
}

/// Appends a part that holds no values of the enum and is not the last, and a comma and a space
/// after it. If an allocation fails, what was written so far remains.
pub fn append_part<T: SerRon>(
    alloc: Global,
    part: &T,
    d: usize,
    s: &mut SerRonState,
) -> Result<(), AllocError>
    ensures ok { OnOk result (Appends s.old.out s.new.out
        (T.ron.canonical.text d part.now ++ 44 ∷ (32 ∷ []))) }
    ensures err { OnErr result (AppendsPart s.old.out s.new.out) }
{
    part.ser_ron(alloc, d, s)?;
    s.out.push_str(", ")
}

/// Appends a part that holds values of the enum and is not the last, and a comma and a space after
/// it. If an allocation fails, what was written so far remains.
pub fn append_part_within<T: WritesRon>(
    alloc: Global,
    part: &T,
    d: usize,
    s: &mut SerRonState,
) -> Result<(), AllocError>
    ensures ok { OnOk result (Appends s.old.out s.new.out
        (T.ron.canonical.text d part.now ++ 44 ∷ (32 ∷ []))) }
    ensures err { OnErr result (AppendsPart s.old.out s.new.out) }
{
    part.write_ron(alloc, d, s)?;
    s.out.push_str(", ")
}

/// Appends the last part, which holds no values of the enum, and the closing parenthesis. If an
/// allocation fails, what was written so far remains.
pub fn append_last<T: SerRon>(
    alloc: Global,
    part: &T,
    d: usize,
    s: &mut SerRonState,
) -> Result<(), AllocError>
    ensures ok { OnOk result
        (Appends s.old.out s.new.out (T.ron.canonical.text d part.now ++ 41 ∷ [])) }
    ensures err { OnErr result (AppendsPart s.old.out s.new.out) }
{
    part.ser_ron(alloc, d, s)?;
    s.out.push(')')
}

/// Appends the last part, which holds values of the enum, and the closing parenthesis. If an
/// allocation fails, what was written so far remains.
pub fn append_last_within<T: WritesRon>(
    alloc: Global,
    part: &T,
    d: usize,
    s: &mut SerRonState,
) -> Result<(), AllocError>
    ensures ok { OnOk result
        (Appends s.old.out s.new.out (T.ron.canonical.text d part.now ++ 41 ∷ [])) }
    ensures err { OnErr result (AppendsPart s.old.out s.new.out) }
{
    part.write_ron(alloc, d, s)?;
    s.out.push(')')
}
