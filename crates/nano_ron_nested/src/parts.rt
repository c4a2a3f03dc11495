//! The parts of a tuple variant, of which some hold values of the enum itself.
//!
//! On an error, a reader here may leave the state at any position, unless it says where.

ghost use Rattle.std.specs.Prelude.{ℕ};
ghost use Rattle.nano_value.specs.Meaning.{Meaning, paired};
ghost use Rattle.nano_grammar.proofs.PairsLaws.{and_then};
ghost use Rattle.nano_ron.specs.Codec.{Encoding};
ghost use Rattle.nano_ron.specs.Outcomes.{position, Reads, ReadsOrEnds};
ghost use Rattle.nano_ron_tokens.specs.Token.{comma};
ghost use Rattle.nano_ron_nested.specs.PartCodecs.{before_closing};

use crate::other::read_other;
use crate::traits::{NestedRon, ReadsRon};
use nano_levels::{Other, Within};
use nano_ron::{DeRon, DeRonErr, DeRonState};
use nano_schema::Newtype;
use std::alloc::Global;
use std::str::Chars;

/// One part that is read from RON, given how many levels may follow.
pub trait RonPartWithin<L> {
    /// Its value.
    type Values;

    /// What encodes it, where so many levels may follow.
    ghost part: { ℕ → Encoding };

    /// What it means.
    ghost means: { Self.Values → Meaning };

    /// Reads the part. The token after it is pending then.
    ///
    /// An error other than out of memory says that no such part is encoded there, with one more
    /// token or the end after it. Every error leaves the state at the end of the text.
    fn read_part(
        levels: &L,
        left: usize,
        alloc: Global,
        state: &mut DeRonState,
        input: &mut Chars<'_>,
    ) -> Result<Self::Values, DeRonErr>
        ensures { ReadsOrEnds (part left).encodes means
            (position state.old input.old) (position state.new input.new) result };

    /// Drops the value.
    fn discard_part(values: Self::Values);
}

/// The last part, or one part and those after it, with the closing parenthesis.
pub trait RonPartsWithin<L> {
    /// Their values.
    type Values;

    /// What encodes them, where so many levels may follow.
    ghost parts: { ℕ → Encoding };

    /// What they mean.
    ghost means: { Self.Values → Meaning };

    /// Reads the parts, and the closing parenthesis after them.
    ///
    /// An error other than out of memory says that no such parts are encoded there, with one more
    /// token or the end after them. The state may be at any position then.
    fn read_parts(
        levels: &L,
        left: usize,
        alloc: Global,
        state: &mut DeRonState,
        input: &mut Chars<'_>,
    ) -> Result<Self::Values, DeRonErr>
        ensures { Reads (parts left).encodes means
            (position state.old input.old) (position state.new input.new) result };
}

impl<L, T: DeRon> RonPartWithin<L> for Other<Newtype<T>> {
    type Values = T;

    ghost part = { λ levels. T.ron.encoding };

    ghost means = { T.ron.canonical.means };

    fn read_part(
        _levels: &L,
        _left: usize,
        alloc: Global,
        state: &mut DeRonState,
        input: &mut Chars<'_>,
    ) -> Result<T, DeRonErr> {
        read_other::<T>(alloc, state, input)
    }

    fn discard_part(_values: T) {}
}

impl<T: NestedRon + Drop, L: ReadsRon<T>> RonPartWithin<L> for Within<Newtype<T>> {
    type Values = T;

    ghost part = { λ levels. (T.at levels).encoding };

    ghost means = { T.means };

    fn read_part(
        levels: &L,
        left: usize,
        alloc: Global,
        state: &mut DeRonState,
        input: &mut Chars<'_>,
    ) -> Result<T, DeRonErr> {
        ReadsRon::<T>::read_ron(levels, left, alloc, state, input)
    }

    fn discard_part(_values: T) {}
}

/// Reads the last part, and the closing parenthesis after it.
fn read_last<L, P: RonPartWithin<L>>(
    levels: &L,
    left: usize,
    alloc: Global,
    state: &mut DeRonState,
    input: &mut Chars<'_>,
) -> Result<P::Values, DeRonErr>
    ensures { Reads (before_closing (P.part left)).encodes P.means
        (position state.old input.old) (position state.new input.new) result }
{
    let last = P::read_part(levels, left, alloc, state, input)?;
    match state.eat_comma_paren(alloc, input) {
        Ok(()) => match state.paren_close(alloc, input) {
            Ok(()) => Ok(last),
            Err(error) => {
                P::discard_part(last);
                Err(error)
            }
        },
        Err(error) => {
            P::discard_part(last);
            Err(error)
        }
    }
}

impl<L, T: DeRon> RonPartsWithin<L> for Other<Newtype<T>> {
    type Values = T;

    ghost parts = { λ levels. before_closing T.ron.encoding };

    ghost means = { T.ron.canonical.means };

    fn read_parts(
        levels: &L,
        left: usize,
        alloc: Global,
        state: &mut DeRonState,
        input: &mut Chars<'_>,
    ) -> Result<T, DeRonErr> {
        read_last::<L, Other<Newtype<T>>>(levels, left, alloc, state, input)
    }
}

impl<T: NestedRon + Drop, L: ReadsRon<T>> RonPartsWithin<L> for Within<Newtype<T>> {
    type Values = T;

    ghost parts = { λ levels. before_closing (T.at levels).encoding };

    ghost means = { T.means };

    fn read_parts(
        levels: &L,
        left: usize,
        alloc: Global,
        state: &mut DeRonState,
        input: &mut Chars<'_>,
    ) -> Result<T, DeRonErr> {
        read_last::<L, Within<Newtype<T>>>(levels, left, alloc, state, input)
    }
}

impl<L, A: RonPartWithin<L>, B: RonPartsWithin<L>> RonPartsWithin<L> for (A, B) {
    type Values = (A::Values, B::Values);

    ghost parts = { λ levels. and_then comma (A.part levels) (B.parts levels) };

    ghost means = { λ values. paired (A.means values.0, B.means values.1) };

    fn read_parts(
        levels: &L,
        left: usize,
        alloc: Global,
        state: &mut DeRonState,
        input: &mut Chars<'_>,
    ) -> Result<(A::Values, B::Values), DeRonErr> {
        let first = A::read_part(levels, left, alloc, state, input)?;
        match state.eat_comma_paren(alloc, input) {
            Ok(()) => match B::read_parts(levels, left, alloc, state, input) {
                Ok(others) => Ok((first, others)),
                Err(error) => {
                    A::discard_part(first);
                    Err(error)
                }
            },
            Err(error) => {
                A::discard_part(first);
                Err(error)
            }
        }
    }
}
