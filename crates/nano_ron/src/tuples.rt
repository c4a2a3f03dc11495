//! Tuples: two, three or four parts between parentheses. On an error the private functions leave
//! the state anywhere and the text that they wrote; the impls put that right.

ghost use Rattle.std.specs.Prelude.{OnOk, OnErr};
ghost use Rattle.nano_value.specs.Meaning.{paired};
ghost use Rattle.nano_meaning.proofs.AgreesLaws.{seen_agrees, pair_agrees};
ghost use Rattle.nano_text.specs.Outcomes.{Appends, AppendsPart};
ghost use Rattle.nano_ron.specs.Outcomes.{position, Reads};
ghost use Rattle.nano_ron.specs.ContainerCodecs.{two_parts, three_parts, four_parts, pair_codec};
ghost use Rattle.nano_ron.specs.ContainerCodecs.{triple_codec, quadruple_codec};

use crate::parts::{append_last, append_part, read_last};
use crate::traits::{DeRon, RonCodec, SerRon};
use nano_ron_tokens::{DeRonErr, DeRonState, SerRonState, end_on_error};
use nano_text::rollback_on_error;
use std::alloc::{AllocError, Global};
use std::str::Chars;

/// Reads the last two parts of a tuple, and its closing bracket. On an error, the position of
/// the state is unspecified.
fn read_two<A: DeRon, B: DeRon>(
    alloc: Global,
    state: &mut DeRonState,
    input: &mut Chars<'_>,
) -> Result<(A, B), DeRonErr>
    ensures { Reads (two_parts A.ron B.ron).encoding.encodes
        (λ x. paired (A.means x.0, B.means x.1))
        (position state.old input.old) (position state.new input.new) result }
{
    let first = A::de_ron(alloc, state, input)?;
    state.eat_comma_paren(alloc, input)?;
    let last = read_last(alloc, state, input)?;
    Ok((first, last))
}

/// Reads the last three parts of a tuple, and its closing bracket. On an error, the position of
/// the state is unspecified.
fn read_three<A: DeRon, B: DeRon, C: DeRon>(
    alloc: Global,
    state: &mut DeRonState,
    input: &mut Chars<'_>,
) -> Result<(A, B, C), DeRonErr>
    ensures { Reads (three_parts A.ron B.ron C.ron).encoding.encodes
        (λ x. paired (A.means x.0, paired (B.means x.1, C.means x.2)))
        (position state.old input.old) (position state.new input.new) result }
{
    let first = A::de_ron(alloc, state, input)?;
    state.eat_comma_paren(alloc, input)?;
    let rest: (B, C) = read_two(alloc, state, input)?;
    Ok((first, rest.0, rest.1))
}

/// Reads the four parts of a tuple, and its closing bracket. On an error, the position of the
/// state is unspecified.
fn read_four<A: DeRon, B: DeRon, C: DeRon, D: DeRon>(
    alloc: Global,
    state: &mut DeRonState,
    input: &mut Chars<'_>,
) -> Result<(A, B, C, D), DeRonErr>
    ensures { Reads (four_parts A.ron B.ron C.ron D.ron).encoding.encodes
        (λ x. paired (A.means x.0, paired (B.means x.1, paired (C.means x.2, D.means x.3))))
        (position state.old input.old) (position state.new input.new) result }
{
    let first = A::de_ron(alloc, state, input)?;
    state.eat_comma_paren(alloc, input)?;
    let rest: (B, C, D) = read_three(alloc, state, input)?;
    Ok((first, rest.0, rest.1, rest.2))
}

impl<A: RonCodec, B: RonCodec> RonCodec for (A, B) {
    ghost ron = { pair_codec A.ron B.ron };

    ghost agrees = { pair_agrees A.agrees B.agrees };
}

/// Appends a tuple.
fn append_pair<A: SerRon, B: SerRon>(
    alloc: Global,
    parts: &(A, B),
    d: usize,
    s: &mut SerRonState,
) -> Result<(), AllocError>
    ensures ok { OnOk result (Appends s.old.out s.new.out
        ((pair_codec A.ron B.ron).canonical.text d parts.now)) }
    ensures err { OnErr result (AppendsPart s.old.out s.new.out) }
{
    s.out.push('(')?;
    append_part(alloc, &parts.0, d, s)?;
    append_last(alloc, &parts.1, d, s)
}

impl<A: SerRon, B: SerRon> SerRon for (A, B) {
    fn ser_ron(&self, alloc: Global, d: usize, s: &mut SerRonState) -> Result<(), AllocError> {
        let start = s.out.len();
        let written = append_pair(alloc, self, d, s);
        rollback_on_error(&mut s.out, start, written)
    }
}

/// Reads a tuple. On an error, the position of the state is unspecified.
fn read_pair<A: DeRon, B: DeRon>(
    alloc: Global,
    state: &mut DeRonState,
    input: &mut Chars<'_>,
) -> Result<(A, B), DeRonErr>
    ensures { Reads (pair_codec A.ron B.ron).encoding.encodes
        (λ x. paired (A.means x.0, B.means x.1))
        (position state.old input.old) (position state.new input.new) result }
{
    state.paren_open(alloc, input)?;
    read_two(alloc, state, input)
}

impl<A: DeRon, B: DeRon> DeRon for (A, B) {
    fn de_ron(
        alloc: Global,
        state: &mut DeRonState,
        input: &mut Chars<'_>,
    ) -> Result<(A, B), DeRonErr> {
        let read = read_pair(alloc, state, input);
        end_on_error(state, read)
    }
}

impl<A: RonCodec, B: RonCodec, C: RonCodec> RonCodec for (A, B, C) {
    ghost ron = { triple_codec A.ron B.ron C.ron };

    ghost agrees = { seen_agrees (pair_agrees A.agrees (pair_agrees B.agrees C.agrees))
        (λ x. (x.0, (x.1, x.2))) };
}

/// Appends a tuple.
fn append_triple<A: SerRon, B: SerRon, C: SerRon>(
    alloc: Global,
    parts: &(A, B, C),
    d: usize,
    s: &mut SerRonState,
) -> Result<(), AllocError>
    ensures ok { OnOk result (Appends s.old.out s.new.out
        ((triple_codec A.ron B.ron C.ron).canonical.text d parts.now)) }
    ensures err { OnErr result (AppendsPart s.old.out s.new.out) }
{
    s.out.push('(')?;
    append_part(alloc, &parts.0, d, s)?;
    append_part(alloc, &parts.1, d, s)?;
    append_last(alloc, &parts.2, d, s)
}

impl<A: SerRon, B: SerRon, C: SerRon> SerRon for (A, B, C) {
    fn ser_ron(&self, alloc: Global, d: usize, s: &mut SerRonState) -> Result<(), AllocError> {
        let start = s.out.len();
        let written = append_triple(alloc, self, d, s);
        rollback_on_error(&mut s.out, start, written)
    }
}

/// Reads a tuple. On an error, the position of the state is unspecified.
fn read_triple<A: DeRon, B: DeRon, C: DeRon>(
    alloc: Global,
    state: &mut DeRonState,
    input: &mut Chars<'_>,
) -> Result<(A, B, C), DeRonErr>
    ensures { Reads (triple_codec A.ron B.ron C.ron).encoding.encodes
        (λ x. paired (A.means x.0, paired (B.means x.1, C.means x.2)))
        (position state.old input.old) (position state.new input.new) result }
{
    state.paren_open(alloc, input)?;
    read_three(alloc, state, input)
}

impl<A: DeRon, B: DeRon, C: DeRon> DeRon for (A, B, C) {
    fn de_ron(
        alloc: Global,
        state: &mut DeRonState,
        input: &mut Chars<'_>,
    ) -> Result<(A, B, C), DeRonErr> {
        let read = read_triple(alloc, state, input);
        end_on_error(state, read)
    }
}

impl<A: RonCodec, B: RonCodec, C: RonCodec, D: RonCodec> RonCodec for (A, B, C, D) {
    ghost ron = { quadruple_codec A.ron B.ron C.ron D.ron };

    ghost agrees = { seen_agrees
        (pair_agrees A.agrees (pair_agrees B.agrees (pair_agrees C.agrees D.agrees)))
        (λ x. (x.0, (x.1, (x.2, x.3)))) };
}

/// Appends a tuple.
fn append_quadruple<A: SerRon, B: SerRon, C: SerRon, D: SerRon>(
    alloc: Global,
    parts: &(A, B, C, D),
    d: usize,
    s: &mut SerRonState,
) -> Result<(), AllocError>
    ensures ok { OnOk result (Appends s.old.out s.new.out
        ((quadruple_codec A.ron B.ron C.ron D.ron).canonical.text d parts.now)) }
    ensures err { OnErr result (AppendsPart s.old.out s.new.out) }
{
    s.out.push('(')?;
    append_part(alloc, &parts.0, d, s)?;
    append_part(alloc, &parts.1, d, s)?;
    append_part(alloc, &parts.2, d, s)?;
    append_last(alloc, &parts.3, d, s)
}

impl<A: SerRon, B: SerRon, C: SerRon, D: SerRon> SerRon for (A, B, C, D) {
    fn ser_ron(&self, alloc: Global, d: usize, s: &mut SerRonState) -> Result<(), AllocError> {
        let start = s.out.len();
        let written = append_quadruple(alloc, self, d, s);
        rollback_on_error(&mut s.out, start, written)
    }
}

/// Reads a tuple. On an error, the position of the state is unspecified.
fn read_quadruple<A: DeRon, B: DeRon, C: DeRon, D: DeRon>(
    alloc: Global,
    state: &mut DeRonState,
    input: &mut Chars<'_>,
) -> Result<(A, B, C, D), DeRonErr>
    ensures { Reads (quadruple_codec A.ron B.ron C.ron D.ron).encoding.encodes
        (λ x. paired (A.means x.0, paired (B.means x.1, paired (C.means x.2, D.means x.3))))
        (position state.old input.old) (position state.new input.new) result }
{
    state.paren_open(alloc, input)?;
    read_four(alloc, state, input)
}

impl<A: DeRon, B: DeRon, C: DeRon, D: DeRon> DeRon for (A, B, C, D) {
    fn de_ron(
        alloc: Global,
        state: &mut DeRonState,
        input: &mut Chars<'_>,
    ) -> Result<(A, B, C, D), DeRonErr> {
        let read = read_quadruple(alloc, state, input);
        end_on_error(state, read)
    }
}
