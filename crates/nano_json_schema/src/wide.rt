//! User-defined tuple structs of more than four parts, in JSON: a row between square brackets.
//!
//! On an error, a reader here may leave the state at any position, unless it says where.

ghost use Rattle.std.specs.Prelude.{◌++◌, ◌∷◌, [], OnOk, OnErr};
ghost use Rattle.nano_text.specs.Outcomes.{Appends, AppendsPart, Unchanged};
ghost use Rattle.nano_json.specs.Codec.{Codec};
ghost use Rattle.nano_json.specs.ContainerCodecs.{last_codec};
ghost use Rattle.nano_json.specs.Outcomes.{position, Reads, ReadsOrEnds};
ghost use Rattle.nano_schema.specs.Views.{SeesAs};
ghost use Rattle.nano_json_schema.specs.FieldCodecs.{next_part, row_codec};

use crate::brackets::read_last;
use nano_json::{
    DeJson, DeJsonErr, DeJsonState, JsonCodec, SerJson, SerJsonState, end_on_error,
    rollback_on_error,
};
use nano_schema::{FieldRefs, Newtype, StructSchema};
use std::alloc::{AllocError, Global};
use std::str::Chars;

/// Parts that have a JSON codec: one (`Newtype`), or one and the parts after it (a pair).
pub trait JsonParts {
    /// Their values.
    type Values;

    /// How they are written and read after the opening bracket, up to and with the closing one.
    ghost codec: { Codec Self.Values };
}

/// Parts that are read from JSON.
pub trait JsonPartsRead {
    /// Their values.
    type Values;

    /// How they are written and read.
    ghost codec: { Codec Self.Values };

    /// Reads the parts, and the closing bracket after them.
    ///
    /// An error other than out of memory says that no such parts stand there, with one more token
    /// or the end after them. The state may be at any position then.
    fn read(
        alloc: Global,
        state: &mut DeJsonState,
        input: &mut Chars<'_>,
    ) -> Result<Self::Values, DeJsonErr>
        ensures { Reads codec.encoding.encodes codec.canonical.means
            (position state.old input.old) (position state.new input.new) result };
}

/// Parts that are written as JSON.
pub trait JsonPartsRefs<'a> {
    /// Their values.
    type Values;

    /// References to their values.
    type Refs;

    /// What they refer to.
    ghost values: { Self.Refs → Self.Values };

    /// How they are written and read.
    ghost codec: { Codec Self.Values };

    /// Appends the parts at level `d`, and the closing bracket after them.
    ///
    /// If the write fails, what was written so far is left.
    fn append(
        refs: &Self::Refs,
        alloc: Global,
        d: usize,
        s: &mut SerJsonState,
    ) -> Result<(), AllocError>
        ensures ok { OnOk result
            (Appends s.old.out s.new.out (codec.canonical.text d (values refs.now))) }
        ensures err { OnErr result (AppendsPart s.old.out s.new.out) };
}

// ---- the last part

impl<T: JsonCodec> JsonParts for Newtype<T> {
    type Values = T;

    ghost codec = { last_codec T.json };
}

impl<T: DeJson> JsonPartsRead for Newtype<T> {
    type Values = T;

    ghost codec = { last_codec T.json };

    fn read(alloc: Global, state: &mut DeJsonState, input: &mut Chars<'_>) -> Result<T, DeJsonErr> {
        read_last(alloc, state, input)
    }
}

impl<'a, T: SerJson + 'a> JsonPartsRefs<'a> for Newtype<T> {
    type Values = T;

    type Refs = &'a T;

    ghost values = { λ r. r.now };

    ghost codec = { last_codec T.json };

    fn append(
        refs: &&'a T,
        alloc: Global,
        d: usize,
        s: &mut SerJsonState,
    ) -> Result<(), AllocError> {
        append_last(alloc, *refs, d, s)
    }
}

// ---- a part, and those after it

impl<T: JsonCodec, R: JsonParts> JsonParts for (Newtype<T>, R) {
    type Values = (T, R::Values);

    ghost codec = { next_part T.json R.codec };
}

impl<T: DeJson, R: JsonPartsRead> JsonPartsRead for (Newtype<T>, R) {
    type Values = (T, R::Values);

    ghost codec = { next_part T.json R.codec };

    fn read(
        alloc: Global,
        state: &mut DeJsonState,
        input: &mut Chars<'_>,
    ) -> Result<(T, R::Values), DeJsonErr> {
        let first = T::de_json(alloc, state, input)?;
        state.eat_comma_block(alloc, input)?;
        let others = R::read(alloc, state, input)?;
        Ok((first, others))
    }
}

impl<'a, T: SerJson + 'a, R: JsonPartsRefs<'a>> JsonPartsRefs<'a> for (Newtype<T>, R) {
    type Values = (T, R::Values);

    type Refs = (&'a T, R::Refs);

    ghost values = { λ r. (r.0.now, R.values r.1) };

    ghost codec = { next_part T.json R.codec };

    fn append(
        refs: &(&'a T, R::Refs),
        alloc: Global,
        d: usize,
        s: &mut SerJsonState,
    ) -> Result<(), AllocError> {
        append_part(alloc, refs.0, d, s)?;
        R::append(&refs.1, alloc, d, s)
    }
}

/// Appends a part that is not the last, and the comma after it. If allocation fails, what was
/// written so far is left.
fn append_part<T: SerJson>(
    alloc: Global,
    part: &T,
    d: usize,
    s: &mut SerJsonState,
) -> Result<(), AllocError>
    ensures ok { OnOk result
        (Appends s.old.out s.new.out (T.json.canonical.text d part.now ++ 44 ∷ [])) }
    ensures err { OnErr result (AppendsPart s.old.out s.new.out) }
{
    part.ser_json(alloc, d, s)?;
    s.out.push(',')
}

/// Appends the last part, and the closing bracket. If allocation fails, what was written so far is
/// left.
fn append_last<T: SerJson>(
    alloc: Global,
    part: &T,
    d: usize,
    s: &mut SerJsonState,
) -> Result<(), AllocError>
    ensures ok { OnOk result
        (Appends s.old.out s.new.out (T.json.canonical.text d part.now ++ 93 ∷ [])) }
    ensures err { OnErr result (AppendsPart s.old.out s.new.out) }
{
    part.ser_json(alloc, d, s)?;
    s.out.push(']')
}

// ---- the whole row

/// Reads a row of parts between square brackets.
fn read_row<P: JsonPartsRead>(
    alloc: Global,
    state: &mut DeJsonState,
    input: &mut Chars<'_>,
) -> Result<P::Values, DeJsonErr>
    ensures { Reads (row_codec P.codec).encoding.encodes P.codec.canonical.means
        (position state.old input.old) (position state.new input.new) result }
{
    state.block_open(alloc, input)?;
    P::read(alloc, state, input)
}

/// Reads a user-defined tuple struct, which is encoded as the tuple of its parts. The token after
/// it is pending then, which may be the end.
///
/// An error other than out of memory says that no such tuple is encoded there, with one more token
/// or the end after it. Every error leaves the state at the end of the text.
pub fn read_tuple_json<R: StructSchema, P: JsonPartsRead<Values = R::Values>>(
    alloc: Global,
    state: &mut DeJsonState,
    input: &mut Chars<'_>,
) -> Result<R, DeJsonErr>
    ensures { ReadsOrEnds (row_codec P.codec).encoding.encodes
        (λ value. P.codec.canonical.means (R.view value))
        (position state.old input.old) (position state.new input.new) result }
{
    let read = read_row::<P>(alloc, state, input);
    match end_on_error(state, read) {
        Ok(values) => Ok(R::make(values)),
        Err(error) => Err(error),
    }
}

/// Appends a row of parts between square brackets. If allocation fails, what was written so far is
/// left.
fn append_row<'a, P: JsonPartsRefs<'a>>(
    refs: &P::Refs,
    alloc: Global,
    d: usize,
    s: &mut SerJsonState,
) -> Result<(), AllocError>
    ensures ok { OnOk result (Appends s.old.out s.new.out
        ((row_codec P.codec).canonical.text d (P.values refs.now))) }
    ensures err { OnErr result (AppendsPart s.old.out s.new.out) }
{
    s.out.push('[')?;
    P::append(refs, alloc, d, s)
}

/// Appends a row of parts between square brackets. If the write fails, `s.out` is unchanged.
fn write_row<'a, P: JsonPartsRefs<'a>>(
    refs: &P::Refs,
    alloc: Global,
    d: usize,
    s: &mut SerJsonState,
) -> Result<(), AllocError>
    ensures ok { OnOk result (Appends s.old.out s.new.out
        ((row_codec P.codec).canonical.text d (P.values refs.now))) }
    ensures err { OnErr result (Unchanged s.old.out s.new.out) }
{
    let start = s.out.len();
    let written = append_row::<P>(refs, alloc, d, s);
    rollback_on_error(&mut s.out, start, written)
}

/// Writes a user-defined tuple struct at level `d`, as the tuple of its parts, where the parts are
/// those that it is seen by. If the write fails, `s.out` is unchanged.
pub fn write_tuple_json<
    'a,
    R: FieldRefs<'a>,
    P: JsonPartsRefs<'a, Refs = R::Refs, Values = R::Values>,
>(value: &'a R, alloc: Global, d: usize, s: &mut SerJsonState) -> Result<(), AllocError>
    ensures ok { SeesAs P.values R.FieldRefs.values → OnOk result (Appends s.old.out s.new.out
        ((row_codec P.codec).canonical.text d (R.view value.now))) }
    ensures err { OnErr result (Unchanged s.old.out s.new.out) }
{
    let refs = value.as_refs();
    write_row::<P>(&refs, alloc, d, s)
}
