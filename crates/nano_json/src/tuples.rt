//! Tuples: two, three or four parts between square brackets. On an error the private functions
//! leave the state anywhere and the text that they wrote; the impls put that right.

ghost use Rattle.std.specs.Prelude.{◌++◌, ◌∷◌, [], OnOk, OnErr};
ghost use Rattle.nano_value.specs.Meaning.{paired};
ghost use Rattle.nano_meaning.proofs.AgreesLaws.{seen_agrees, pair_agrees};
ghost use Rattle.nano_text.specs.Outcomes.{Appends, AppendsPart};
ghost use Rattle.nano_json.specs.Outcomes.{position, Reads};
ghost use Rattle.nano_json.specs.ContainerCodecs.{last_codec, two_parts, three_parts, four_parts};
ghost use Rattle.nano_json.specs.ContainerCodecs.{pair_codec, triple_codec, quadruple_codec};

use crate::traits::{DeJson, JsonCodec, SerJson};
use nano_json_tokens::{DeJsonErr, DeJsonState, SerJsonState, end_on_error};
use nano_text::rollback_on_error;
use std::alloc::{AllocError, Global};
use std::str::Chars;

/// Reads the last part of a tuple, and its closing bracket.
fn read_last<T: DeJson>(
    alloc: Global,
    state: &mut DeJsonState,
    input: &mut Chars<'_>,
) -> Result<T, DeJsonErr>
    ensures { Reads (last_codec T.json).encoding.encodes T.means
        (position state.old input.old) (position state.new input.new) result }
{
    let last = T::de_json(alloc, state, input)?;
    state.eat_comma_block(alloc, input)?;
    state.block_close(alloc, input)?;
    Ok(last)
}

/// Reads the last two parts of a tuple, and its closing bracket.
fn read_two<A: DeJson, B: DeJson>(
    alloc: Global,
    state: &mut DeJsonState,
    input: &mut Chars<'_>,
) -> Result<(A, B), DeJsonErr>
    ensures { Reads (two_parts A.json B.json).encoding.encodes
        (λ x. paired (A.means x.0, B.means x.1))
        (position state.old input.old) (position state.new input.new) result }
{
    let first = A::de_json(alloc, state, input)?;
    state.eat_comma_block(alloc, input)?;
    let last = read_last(alloc, state, input)?;
    Ok((first, last))
}

/// Reads the last three parts of a tuple, and its closing bracket.
fn read_three<A: DeJson, B: DeJson, C: DeJson>(
    alloc: Global,
    state: &mut DeJsonState,
    input: &mut Chars<'_>,
) -> Result<(A, B, C), DeJsonErr>
    ensures { Reads (three_parts A.json B.json C.json).encoding.encodes
        (λ x. paired (A.means x.0, paired (B.means x.1, C.means x.2)))
        (position state.old input.old) (position state.new input.new) result }
{
    let first = A::de_json(alloc, state, input)?;
    state.eat_comma_block(alloc, input)?;
    let rest: (B, C) = read_two(alloc, state, input)?;
    Ok((first, rest.0, rest.1))
}

/// Reads the four parts of a tuple, and its closing bracket.
fn read_four<A: DeJson, B: DeJson, C: DeJson, D: DeJson>(
    alloc: Global,
    state: &mut DeJsonState,
    input: &mut Chars<'_>,
) -> Result<(A, B, C, D), DeJsonErr>
    ensures { Reads (four_parts A.json B.json C.json D.json).encoding.encodes
        (λ x. paired (A.means x.0, paired (B.means x.1, paired (C.means x.2, D.means x.3))))
        (position state.old input.old) (position state.new input.new) result }
{
    let first = A::de_json(alloc, state, input)?;
    state.eat_comma_block(alloc, input)?;
    let rest: (B, C, D) = read_three(alloc, state, input)?;
    Ok((first, rest.0, rest.1, rest.2))
}

/// Appends a part of a tuple and the punctuator after it.
fn append_part<T: SerJson>(
    alloc: Global,
    part: &T,
    punctuator: char,
    d: usize,
    s: &mut SerJsonState,
) -> Result<(), AllocError>
    ensures ok { OnOk result
        (Appends s.old.out s.new.out (T.json.canonical.text d part.now ++ punctuator ∷ [])) }
    ensures err { OnErr result (AppendsPart s.old.out s.new.out) }
{
    part.ser_json(alloc, d, s)?;
    s.out.push(punctuator)
}

impl<A: JsonCodec, B: JsonCodec> JsonCodec for (A, B) {
    ghost json = { pair_codec A.json B.json };

    ghost agrees = { pair_agrees A.agrees B.agrees };
}

/// Appends a tuple.
fn append_pair<A: SerJson, B: SerJson>(
    alloc: Global,
    parts: &(A, B),
    d: usize,
    s: &mut SerJsonState,
) -> Result<(), AllocError>
    ensures ok { OnOk result (Appends s.old.out s.new.out
        ((pair_codec A.json B.json).canonical.text d parts.now)) }
    ensures err { OnErr result (AppendsPart s.old.out s.new.out) }
{
    s.out.push('[')?;
    append_part(alloc, &parts.0, ',', d, s)?;
    append_part(alloc, &parts.1, ']', d, s)
}

impl<A: SerJson, B: SerJson> SerJson for (A, B) {
    fn ser_json(&self, alloc: Global, d: usize, s: &mut SerJsonState) -> Result<(), AllocError> {
        let start = s.out.len();
        let written = append_pair(alloc, self, d, s);
        rollback_on_error(&mut s.out, start, written)
    }
}

/// Reads a tuple.
fn read_pair<A: DeJson, B: DeJson>(
    alloc: Global,
    state: &mut DeJsonState,
    input: &mut Chars<'_>,
) -> Result<(A, B), DeJsonErr>
    ensures { Reads (pair_codec A.json B.json).encoding.encodes
        (λ x. paired (A.means x.0, B.means x.1))
        (position state.old input.old) (position state.new input.new) result }
{
    state.block_open(alloc, input)?;
    read_two(alloc, state, input)
}

impl<A: DeJson, B: DeJson> DeJson for (A, B) {
    fn de_json(
        alloc: Global,
        state: &mut DeJsonState,
        input: &mut Chars<'_>,
    ) -> Result<(A, B), DeJsonErr> {
        let read = read_pair(alloc, state, input);
        end_on_error(state, read)
    }
}

impl<A: JsonCodec, B: JsonCodec, C: JsonCodec> JsonCodec for (A, B, C) {
    ghost json = { triple_codec A.json B.json C.json };

    ghost agrees = { seen_agrees (pair_agrees A.agrees (pair_agrees B.agrees C.agrees))
        (λ x. (x.0, (x.1, x.2))) };
}

/// Appends a tuple.
fn append_triple<A: SerJson, B: SerJson, C: SerJson>(
    alloc: Global,
    parts: &(A, B, C),
    d: usize,
    s: &mut SerJsonState,
) -> Result<(), AllocError>
    ensures ok { OnOk result (Appends s.old.out s.new.out
        ((triple_codec A.json B.json C.json).canonical.text d parts.now)) }
    ensures err { OnErr result (AppendsPart s.old.out s.new.out) }
{
    s.out.push('[')?;
    append_part(alloc, &parts.0, ',', d, s)?;
    append_part(alloc, &parts.1, ',', d, s)?;
    append_part(alloc, &parts.2, ']', d, s)
}

impl<A: SerJson, B: SerJson, C: SerJson> SerJson for (A, B, C) {
    fn ser_json(&self, alloc: Global, d: usize, s: &mut SerJsonState) -> Result<(), AllocError> {
        let start = s.out.len();
        let written = append_triple(alloc, self, d, s);
        rollback_on_error(&mut s.out, start, written)
    }
}

/// Reads a tuple.
fn read_triple<A: DeJson, B: DeJson, C: DeJson>(
    alloc: Global,
    state: &mut DeJsonState,
    input: &mut Chars<'_>,
) -> Result<(A, B, C), DeJsonErr>
    ensures { Reads (triple_codec A.json B.json C.json).encoding.encodes
        (λ x. paired (A.means x.0, paired (B.means x.1, C.means x.2)))
        (position state.old input.old) (position state.new input.new) result }
{
    state.block_open(alloc, input)?;
    read_three(alloc, state, input)
}

impl<A: DeJson, B: DeJson, C: DeJson> DeJson for (A, B, C) {
    fn de_json(
        alloc: Global,
        state: &mut DeJsonState,
        input: &mut Chars<'_>,
    ) -> Result<(A, B, C), DeJsonErr> {
        let read = read_triple(alloc, state, input);
        end_on_error(state, read)
    }
}

impl<A: JsonCodec, B: JsonCodec, C: JsonCodec, D: JsonCodec> JsonCodec for (A, B, C, D) {
    ghost json = { quadruple_codec A.json B.json C.json D.json };

    ghost agrees = { seen_agrees
        (pair_agrees A.agrees (pair_agrees B.agrees (pair_agrees C.agrees D.agrees)))
        (λ x. (x.0, (x.1, (x.2, x.3)))) };
}

/// Appends a tuple.
fn append_quadruple<A: SerJson, B: SerJson, C: SerJson, D: SerJson>(
    alloc: Global,
    parts: &(A, B, C, D),
    d: usize,
    s: &mut SerJsonState,
) -> Result<(), AllocError>
    ensures ok { OnOk result (Appends s.old.out s.new.out
        ((quadruple_codec A.json B.json C.json D.json).canonical.text d parts.now)) }
    ensures err { OnErr result (AppendsPart s.old.out s.new.out) }
{
    s.out.push('[')?;
    append_part(alloc, &parts.0, ',', d, s)?;
    append_part(alloc, &parts.1, ',', d, s)?;
    append_part(alloc, &parts.2, ',', d, s)?;
    append_part(alloc, &parts.3, ']', d, s)
}

impl<A: SerJson, B: SerJson, C: SerJson, D: SerJson> SerJson for (A, B, C, D) {
    fn ser_json(&self, alloc: Global, d: usize, s: &mut SerJsonState) -> Result<(), AllocError> {
        let start = s.out.len();
        let written = append_quadruple(alloc, self, d, s);
        rollback_on_error(&mut s.out, start, written)
    }
}

/// Reads a tuple.
fn read_quadruple<A: DeJson, B: DeJson, C: DeJson, D: DeJson>(
    alloc: Global,
    state: &mut DeJsonState,
    input: &mut Chars<'_>,
) -> Result<(A, B, C, D), DeJsonErr>
    ensures { Reads (quadruple_codec A.json B.json C.json D.json).encoding.encodes
        (λ x. paired (A.means x.0, paired (B.means x.1, paired (C.means x.2, D.means x.3))))
        (position state.old input.old) (position state.new input.new) result }
{
    state.block_open(alloc, input)?;
    read_four(alloc, state, input)
}

impl<A: DeJson, B: DeJson, C: DeJson, D: DeJson> DeJson for (A, B, C, D) {
    fn de_json(
        alloc: Global,
        state: &mut DeJsonState,
        input: &mut Chars<'_>,
    ) -> Result<(A, B, C, D), DeJsonErr> {
        let read = read_quadruple(alloc, state, input);
        end_on_error(state, read)
    }
}
