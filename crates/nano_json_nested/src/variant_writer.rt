//! The variants of enums that contain themselves, written: between braces a name with its content.

ghost use Rattle.std.specs.Prelude.{◌++◌, ◌∷◌, [], OnOk, OnErr};
ghost use Rattle.nano_json_schema.specs.FieldCodecs.{single_codec};
ghost use Rattle.nano_json.specs.ContainerCodecs.{pair_codec, triple_codec};
ghost use Rattle.nano_json_schema.specs.Variants.{content_text};
ghost use Rattle.nano_json_tokens.specs.Written.{written_text};
ghost use Rattle.nano_text.specs.Outcomes.{Appends, AppendsPart, Unchanged};

use crate::traits::WritesJson;
use nano_json::{SerJson, SerJsonState, rollback_on_error};
use nano_json_schema::{Part, WriteContent};
use nano_schema::Newtype;
use std::alloc::{AllocError, Global};

/// Appends a variant with one part, which holds no values of the enum: `{`, its name, a colon, the
/// part at level `d` between square brackets, and `}`. If the write fails, `s.out` is unchanged.
pub fn write_variant_other<T: SerJson>(
    alloc: Global,
    name: &str,
    part: &T,
    d: usize,
    s: &mut SerJsonState,
) -> Result<(), AllocError>
    ensures ok { OnOk result (Appends s.old.out s.new.out
        (content_text name.now ((single_codec T.json).canonical.text d part.now))) }
    ensures err { OnErr result (Unchanged s.old.out s.new.out) }
{
    Newtype::<T>::write(name, &part, alloc, d, s)
}

/// Appends a variant with one part, which holds values of the enum: `{`, its name, a colon, the
/// part at level `d` between square brackets, and `}`. If the write fails, `s.out` is unchanged.
pub fn write_variant_within<T: WritesJson>(
    alloc: Global,
    name: &str,
    part: &T,
    d: usize,
    s: &mut SerJsonState,
) -> Result<(), AllocError>
    ensures ok { OnOk result (Appends s.old.out s.new.out
        (content_text name.now ((single_codec T.json).canonical.text d part.now))) }
    ensures err { OnErr result (Unchanged s.old.out s.new.out) }
{
    let start = s.out.len();
    let written = append_variant(alloc, name, part, d, s);
    rollback_on_error(&mut s.out, start, written)
}

/// Appends what stands before the parts of a variant: `{`, its name, a colon, and a square bracket.
/// If allocation fails, what was written so far is left.
fn open_variant(alloc: Global, name: &str, s: &mut SerJsonState) -> Result<(), AllocError>
    ensures ok { OnOk result (Appends s.old.out s.new.out
        (123 ∷ (written_text name.now ++ 58 ∷ (91 ∷ [])))) }
    ensures err { OnErr result (AppendsPart s.old.out s.new.out) }
{
    s.out.push('{')?;
    name.ser_json(alloc, 0, s)?;
    s.out.push_str(":[")
}

/// Appends a variant with one part. If allocation fails, what was written so far is left.
fn append_variant<T: WritesJson>(
    alloc: Global,
    name: &str,
    part: &T,
    d: usize,
    s: &mut SerJsonState,
) -> Result<(), AllocError>
    ensures ok { OnOk result (Appends s.old.out s.new.out
        (content_text name.now ((single_codec T.json).canonical.text d part.now))) }
    ensures err { OnErr result (AppendsPart s.old.out s.new.out) }
{
    open_variant(alloc, name, s)?;
    part.write_json(alloc, d, s)?;
    s.out.push_str("]}")
}

impl<T: SerJson> WritesJson for Part<'_, T> {
    fn write_json(&self, alloc: Global, d: usize, s: &mut SerJsonState) -> Result<(), AllocError> {
        self.ser_json(alloc, d, s)
    }
}

/// Appends a variant with two parts: `{`, its name, a colon, the parts at level `d` with a comma
/// between them and square brackets around them, and `}`. A part that holds no values of the enum is
/// given as a `Part`. If the write fails, `s.out` is unchanged.
pub fn write_pair_within<A: WritesJson, B: WritesJson>(
    alloc: Global,
    name: &str,
    first: &A,
    second: &B,
    d: usize,
    s: &mut SerJsonState,
) -> Result<(), AllocError>
    ensures ok { OnOk result (Appends s.old.out s.new.out (content_text name.now
        ((pair_codec A.json B.json).canonical.text d (first.now, second.now)))) }
    ensures err { OnErr result (Unchanged s.old.out s.new.out) }
{
    let start = s.out.len();
    let written = append_pair(alloc, name, first, second, d, s);
    rollback_on_error(&mut s.out, start, written)
}

/// Appends a variant with two parts. If allocation fails, what was written so far is left.
fn append_pair<A: WritesJson, B: WritesJson>(
    alloc: Global,
    name: &str,
    first: &A,
    second: &B,
    d: usize,
    s: &mut SerJsonState,
) -> Result<(), AllocError>
    ensures ok { OnOk result (Appends s.old.out s.new.out (content_text name.now
        ((pair_codec A.json B.json).canonical.text d (first.now, second.now)))) }
    ensures err { OnErr result (AppendsPart s.old.out s.new.out) }
{
    open_variant(alloc, name, s)?;
    append_last_two(alloc, first, second, d, s)
}

/// Appends the last two parts with a comma between them, and what closes the variant. If allocation
/// fails, what was written so far is left.
fn append_last_two<A: WritesJson, B: WritesJson>(
    alloc: Global,
    first: &A,
    second: &B,
    d: usize,
    s: &mut SerJsonState,
) -> Result<(), AllocError>
    ensures ok { OnOk result (Appends s.old.out s.new.out (A.json.canonical.text d first.now
        ++ 44 ∷ (B.json.canonical.text d second.now ++ 93 ∷ (125 ∷ [])))) }
    ensures err { OnErr result (AppendsPart s.old.out s.new.out) }
{
    first.write_json(alloc, d, s)?;
    s.out.push(',')?;
    second.write_json(alloc, d, s)?;
    s.out.push_str("]}")
}

/// Appends a variant with three parts: `{`, its name, a colon, the parts at level `d` with a comma
/// between two and square brackets around them, and `}`. A part that holds no values of the enum is
/// given as a `Part`. If the write fails, `s.out` is unchanged.
pub fn write_triple_within<A: WritesJson, B: WritesJson, C: WritesJson>(
    alloc: Global,
    name: &str,
    first: &A,
    second: &B,
    third: &C,
    d: usize,
    s: &mut SerJsonState,
) -> Result<(), AllocError>
    ensures ok { OnOk result (Appends s.old.out s.new.out (content_text name.now
        ((triple_codec A.json B.json C.json).canonical.text d (first.now, second.now, third.now)))) }
    ensures err { OnErr result (Unchanged s.old.out s.new.out) }
{
    let start = s.out.len();
    let written = append_triple(alloc, name, first, second, third, d, s);
    rollback_on_error(&mut s.out, start, written)
}

/// Appends a variant with three parts. If allocation fails, what was written so far is left.
fn append_triple<A: WritesJson, B: WritesJson, C: WritesJson>(
    alloc: Global,
    name: &str,
    first: &A,
    second: &B,
    third: &C,
    d: usize,
    s: &mut SerJsonState,
) -> Result<(), AllocError>
    ensures ok { OnOk result (Appends s.old.out s.new.out (content_text name.now
        ((triple_codec A.json B.json C.json).canonical.text d (first.now, second.now, third.now)))) }
    ensures err { OnErr result (AppendsPart s.old.out s.new.out) }
{
    open_variant(alloc, name, s)?;
    first.write_json(alloc, d, s)?;
    s.out.push(',')?;
    append_last_two(alloc, second, third, d, s)
}
