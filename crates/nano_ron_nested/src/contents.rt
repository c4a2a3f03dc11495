//! What a variant holds whose content may hold values of the enum itself.

ghost use Rattle.std.specs.Prelude.{◌≡◌, ℕ};
ghost use Rattle.nano_value.specs.Meaning.{Meaning, paired};
ghost use Rattle.nano_ron.specs.Outcomes.{position, ReadsOrEnds};
ghost use Rattle.nano_ron_tokens.specs.Cut.{ron_grammar};
ghost use Rattle.nano_ron_tokens.specs.Token.{comma};
ghost use Rattle.nano_grammar.specs.Choices.{Rest, more, stands_alone};
ghost use Rattle.nano_grammar.proofs.PairsLaws.{and_then};
ghost use Rattle.nano_grammar.proofs.StructLaws.{fields_of};
ghost use Rattle.nano_ron_schema.specs.FieldCodecs.{ron_fields};
ghost use Rattle.nano_ron_schema.specs.Reading.{EncodesRest};
ghost use Rattle.nano_ron_nested.specs.PartCodecs.{before_closing, in_parentheses};

use crate::brackets::read_in_brackets;
use crate::fields::RonFieldsWithin;
use crate::parts::{RonPartWithin, RonPartsWithin};
use crate::read::read_record_ron_within;
use crate::traits::{NestedRon, ReadsRon};
use nano_levels::{Other, Within};
use nano_ron::{DeRonErr, DeRonState};
use nano_ron_schema::ReadContent;
use nano_schema::{Newtype, Struct};
use std::alloc::Global;
use std::str::Chars;

/// The content of a variant that is read from RON, given how many levels may follow.
pub trait RonContentWithin<L> {
    /// Its values.
    type Values;

    /// What comes after the name of the variant, where so many levels may follow.
    ghost rest: { ℕ → Rest ron_grammar };

    /// What it means.
    ghost means: { Self.Values → Meaning };

    /// Whether the name of the variant stands alone, with no content after it.
    fn stands_alone() -> bool
        ensures { (levels : ℕ) → result ≡ stands_alone (rest levels) };

    /// Reads what comes after the name of the variant; for a variant without content that is
    /// nothing.
    ///
    /// An error other than out of memory says that no such content is encoded there, with one
    /// more token or the end after it. Every error leaves the state at the end of the text.
    fn read(
        levels: &L,
        left: usize,
        alloc: Global,
        state: &mut DeRonState,
        input: &mut Chars<'_>,
    ) -> Result<Self::Values, DeRonErr>
        ensures { ReadsOrEnds (EncodesRest (rest left)) means
            (position state.old input.old) (position state.new input.new) result };
}

impl<L, S: ReadContent> RonContentWithin<L> for Other<S> {
    type Values = S::Values;

    ghost rest = { λ levels. S.content.rest };

    ghost means = { S.means };

    fn stands_alone() -> bool {
        S::stands_alone()
    }

    fn read(
        _levels: &L,
        _left: usize,
        alloc: Global,
        state: &mut DeRonState,
        input: &mut Chars<'_>,
    ) -> Result<S::Values, DeRonErr> {
        S::read(alloc, state, input)
    }
}

impl<T: NestedRon + Drop, L: ReadsRon<T>> RonContentWithin<L> for Within<Newtype<T>> {
    type Values = T;

    ghost rest = { λ levels. more (in_parentheses (before_closing (T.at levels).encoding)) };

    ghost means = { T.means };

    fn stands_alone() -> bool {
        false
    }

    fn read(
        levels: &L,
        left: usize,
        alloc: Global,
        state: &mut DeRonState,
        input: &mut Chars<'_>,
    ) -> Result<T, DeRonErr> {
        read_in_brackets::<L, Within<Newtype<T>>>(levels, left, alloc, state, input)
    }
}

impl<L, A: RonPartWithin<L>, B: RonPartsWithin<L>> RonContentWithin<L> for (A, B) {
    type Values = (A::Values, B::Values);

    ghost rest = { λ levels.
        more (in_parentheses (and_then comma (A.part levels) (B.parts levels))) };

    ghost means = { λ values. paired (A.means values.0, B.means values.1) };

    fn stands_alone() -> bool {
        false
    }

    fn read(
        levels: &L,
        left: usize,
        alloc: Global,
        state: &mut DeRonState,
        input: &mut Chars<'_>,
    ) -> Result<(A::Values, B::Values), DeRonErr> {
        read_in_brackets::<L, (A, B)>(levels, left, alloc, state, input)
    }
}

impl<L, F: RonFieldsWithin<L>> RonContentWithin<L> for Struct<F> {
    type Values = F::Values;

    ghost rest = { λ levels. more (fields_of ron_fields (F.codec levels).struct) };

    ghost means = { F.means };

    fn stands_alone() -> bool {
        false
    }

    fn read(
        levels: &L,
        left: usize,
        alloc: Global,
        state: &mut DeRonState,
        input: &mut Chars<'_>,
    ) -> Result<F::Values, DeRonErr> {
        read_record_ron_within::<L, F>(levels, left, alloc, state, input)
    }
}
