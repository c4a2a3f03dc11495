//! The parts of a variant that has several, between square brackets, where some may hold values of
//! the enum.
//!
//! On an error, a reader here may leave the state at any position, unless it says where.

ghost use Rattle.std.specs.Prelude.{ℕ};
ghost use Rattle.nano_value.specs.Meaning.{Meaning, paired};
ghost use Rattle.nano_grammar.specs.Choices.{more};
ghost use Rattle.nano_json.specs.Codec.{Codec};
ghost use Rattle.nano_json.specs.ContainerCodecs.{last_codec};
ghost use Rattle.nano_json.specs.Outcomes.{position, Reads, ReadsOrEnds};
ghost use Rattle.nano_json_nested.specs.Parts.{and_parts, in_brackets};

use crate::brackets::read_last;
use crate::contents::{JsonContentWithin, close_content};
use crate::other::read_other;
use crate::traits::{NestedJson, ReadsJson};
use nano_json::{DeJson, DeJsonErr, DeJsonState, end_on_error};
use nano_levels::{Other, Within};
use nano_schema::{Newtype, Tuple};
use std::alloc::Global;
use std::str::Chars;

/// Parts that are read, given how many levels may follow: the last one, or one and those after it
/// (a pair).
pub trait JsonPartsWithin<L> {
    /// Their values.
    type Values;

    /// How they are written and read after the opening bracket, where so many levels may follow.
    ghost codec: { ℕ → Codec Self.Values };

    /// What they mean.
    ghost means: { Self.Values → Meaning };

    /// Reads the parts, and the closing bracket.
    ///
    /// An error other than out of memory says that no such parts stand there. The state may be at
    /// any position then.
    fn read_parts(
        levels: &L,
        left: usize,
        alloc: Global,
        state: &mut DeJsonState,
        input: &mut Chars<'_>,
    ) -> Result<Self::Values, DeJsonErr>
        ensures { Reads (codec left).encoding.encodes means
            (position state.old input.old) (position state.new input.new) result };

    /// Drops the values.
    fn discard_parts(values: Self::Values);
}

// ---- the last part

/// Reads another part, and the closing bracket.
fn read_other_last<T: DeJson>(
    alloc: Global,
    state: &mut DeJsonState,
    input: &mut Chars<'_>,
) -> Result<T, DeJsonErr>
    ensures { Reads (last_codec T.json).encoding.encodes T.json.canonical.means
        (position state.old input.old) (position state.new input.new) result }
{
    let last = read_other::<T>(alloc, state, input)?;
    state.eat_comma_block(alloc, input)?;
    state.block_close(alloc, input)?;
    Ok(last)
}

impl<L, T: DeJson> JsonPartsWithin<L> for Other<Newtype<T>> {
    type Values = T;

    ghost codec = { λ levels. last_codec T.json };

    ghost means = { T.json.canonical.means };

    fn read_parts(
        _levels: &L,
        _left: usize,
        alloc: Global,
        state: &mut DeJsonState,
        input: &mut Chars<'_>,
    ) -> Result<T, DeJsonErr> {
        read_other_last(alloc, state, input)
    }

    fn discard_parts(_values: T) {}
}

impl<T: NestedJson + Drop, L: ReadsJson<T>> JsonPartsWithin<L> for Within<Newtype<T>> {
    type Values = T;

    ghost codec = { λ levels. last_codec (T.at levels) };

    ghost means = { T.means };

    fn read_parts(
        levels: &L,
        left: usize,
        alloc: Global,
        state: &mut DeJsonState,
        input: &mut Chars<'_>,
    ) -> Result<T, DeJsonErr> {
        read_last::<T, L>(levels, left, alloc, state, input)
    }

    fn discard_parts(_values: T) {}
}

// ---- a part, and those after it

/// Reads another part, and those after it.
fn read_other_first<T: DeJson, L, P: JsonPartsWithin<L>>(
    levels: &L,
    left: usize,
    alloc: Global,
    state: &mut DeJsonState,
    input: &mut Chars<'_>,
) -> Result<(T, P::Values), DeJsonErr>
    ensures { Reads (and_parts T.json (P.codec left)).encoding.encodes
        (λ x. paired (T.json.canonical.means x.0, P.means x.1))
        (position state.old input.old) (position state.new input.new) result }
{
    let first = read_other::<T>(alloc, state, input)?;
    state.eat_comma_block(alloc, input)?;
    let rest = P::read_parts(levels, left, alloc, state, input)?;
    Ok((first, rest))
}

impl<T: DeJson, L, P: JsonPartsWithin<L>> JsonPartsWithin<L> for (Other<Newtype<T>>, P) {
    type Values = (T, P::Values);

    ghost codec = { λ levels. and_parts T.json (P.codec levels) };

    ghost means = { λ x. paired (T.json.canonical.means x.0, P.means x.1) };

    fn read_parts(
        levels: &L,
        left: usize,
        alloc: Global,
        state: &mut DeJsonState,
        input: &mut Chars<'_>,
    ) -> Result<(T, P::Values), DeJsonErr> {
        read_other_first::<T, L, P>(levels, left, alloc, state, input)
    }

    fn discard_parts(values: (T, P::Values)) {
        let (_first, rest) = values;
        P::discard_parts(rest);
    }
}

/// Reads a part that holds values of the enum, and those after it.
fn read_within_first<T: NestedJson + Drop, L: ReadsJson<T>, P: JsonPartsWithin<L>>(
    levels: &L,
    left: usize,
    alloc: Global,
    state: &mut DeJsonState,
    input: &mut Chars<'_>,
) -> Result<(T, P::Values), DeJsonErr>
    ensures { Reads (and_parts (T.at left) (P.codec left)).encoding.encodes
        (λ x. paired (T.means x.0, P.means x.1))
        (position state.old input.old) (position state.new input.new) result }
{
    let first: T = ReadsJson::<T>::read_json(levels, left, alloc, state, input)?;
    state.eat_comma_block(alloc, input)?;
    let rest = P::read_parts(levels, left, alloc, state, input)?;
    Ok((first, rest))
}

impl<T: NestedJson + Drop, L: ReadsJson<T>, P: JsonPartsWithin<L>> JsonPartsWithin<L>
    for (Within<Newtype<T>>, P) {
    type Values = (T, P::Values);

    ghost codec = { λ levels. and_parts (T.at levels) (P.codec levels) };

    ghost means = { λ x. paired (T.means x.0, P.means x.1) };

    fn read_parts(
        levels: &L,
        left: usize,
        alloc: Global,
        state: &mut DeJsonState,
        input: &mut Chars<'_>,
    ) -> Result<(T, P::Values), DeJsonErr> {
        read_within_first::<T, L, P>(levels, left, alloc, state, input)
    }

    fn discard_parts(values: (T, P::Values)) {
        let (_first, rest) = values;
        P::discard_parts(rest);
    }
}

// ---- all of them

/// Reads parts between square brackets.
fn read_row<L, P: JsonPartsWithin<L>>(
    levels: &L,
    left: usize,
    alloc: Global,
    state: &mut DeJsonState,
    input: &mut Chars<'_>,
) -> Result<P::Values, DeJsonErr>
    ensures { Reads (in_brackets (P.codec left)).encoding.encodes P.means
        (position state.old input.old) (position state.new input.new) result }
{
    state.block_open(alloc, input)?;
    P::read_parts(levels, left, alloc, state, input)
}

/// Reads parts between square brackets. Every error leaves the state at the end of the text.
fn read_tuple<L, P: JsonPartsWithin<L>>(
    levels: &L,
    left: usize,
    alloc: Global,
    state: &mut DeJsonState,
    input: &mut Chars<'_>,
) -> Result<P::Values, DeJsonErr>
    ensures { ReadsOrEnds (in_brackets (P.codec left)).encoding.encodes P.means
        (position state.old input.old) (position state.new input.new) result }
{
    let read = read_row::<L, P>(levels, left, alloc, state, input);
    end_on_error(state, read)
}

impl<L, P: JsonPartsWithin<L>> JsonContentWithin<L> for Tuple<P> {
    type Values = P::Values;

    ghost rest = { λ levels. more (in_brackets (P.codec levels)).encoding };

    ghost means = { P.means };

    fn stands_alone() -> bool {
        false
    }

    fn read(
        levels: &L,
        left: usize,
        alloc: Global,
        state: &mut DeJsonState,
        input: &mut Chars<'_>,
    ) -> Result<P::Values, DeJsonErr> {
        let values = read_tuple::<L, P>(levels, left, alloc, state, input)?;
        match close_content(alloc, state, input) {
            Ok(()) => Ok(values),
            Err(error) => {
                P::discard_parts(values);
                Err(error)
            }
        }
    }
}
