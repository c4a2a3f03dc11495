//! The variants of an enum whose variants may hold values of the enum itself.

ghost use Rattle.std.specs.Prelude.{◌≡◌, ℕ, suc};
ghost use Rattle.nano_value.specs.Meaning.{Meaning};
ghost use Rattle.nano_value.specs.Sums.{tagged};
ghost use Rattle.nano_ron.specs.Outcomes.{position};
ghost use Rattle.nano_schema.specs.Choices.{either_is};
ghost use Rattle.nano_grammar.specs.Choices.{before, has_alone, is_named};
ghost use Rattle.nano_grammar.specs.Variants.{no_variants};
ghost use Rattle.nano_ron_schema.specs.Reading.{Encodings};
ghost use Rattle.nano_ron_schema.specs.Outcomes.{ReadsChoice};

use crate::contents::RonContentWithin;
use nano_ron::{DeRonErr, DeRonState};
use nano_ron_schema::unknown_variant;
use nano_schema::{Either, Label, Variant};
use std::alloc::Global;
use std::str::Chars;

/// Variants that are read from RON, given how many levels may follow.
pub trait RonChoicesWithin<L> {
    /// The content of one of them.
    type Values;

    /// The variants with what encodes their content, where so many levels may follow.
    ghost encodes: { ℕ → Encodings };

    /// What the content of one of them means, with variant indices counted from here.
    ghost means: { ℕ → Self.Values → Meaning };

    /// Whether a variant without content has this name. It takes no memory.
    fn stands_alone(name: &str) -> bool
        ensures { (levels : ℕ) → result ≡ has_alone (encodes levels) name.now };

    /// Reads the content of the variant of this name: one without content if the name stands
    /// alone, and otherwise one with content. A name that none of these has is rejected with
    /// `Enum not defined {name}`.
    ///
    /// An error other than out of memory says that no content of such a variant is encoded
    /// there, with one more token or the end after it. Every error leaves the state at the end
    /// of the text.
    fn read(
        levels: &L,
        left: usize,
        name: &str,
        alone: bool,
        alloc: Global,
        state: &mut DeRonState,
        input: &mut Chars<'_>,
    ) -> Result<Self::Values, DeRonErr>
        ensures { ReadsChoice (encodes left) alone name.now means
            (position state.old input.old) (position state.new input.new) result };
}

/// Whether this is the name, and both stand alone or neither does.
fn is_named(name: &str, alone: bool, variant: &str, stands_alone: bool) -> bool
    ensures { result ≡ is_named alone stands_alone name.now variant.now }
{
    alone == stands_alone && name == variant
}

impl<L, N: Label, S: RonContentWithin<L>> RonChoicesWithin<L> for Variant<N, S> {
    type Values = S::Values;

    ghost encodes = { λ levels. before (S.rest levels) N.label no_variants };

    ghost means = { λ from x. tagged from (S.means x) };

    fn stands_alone(name: &str) -> bool {
        S::stands_alone() && name == N::text()
    }

    fn read(
        levels: &L,
        left: usize,
        name: &str,
        alone: bool,
        alloc: Global,
        state: &mut DeRonState,
        input: &mut Chars<'_>,
    ) -> Result<S::Values, DeRonErr> {
        if is_named(name, alone, N::text(), S::stands_alone()) {
            return S::read(levels, left, alloc, state, input);
        }
        Err(unknown_variant(alloc, state, name))
    }
}

impl<L, N: Label, S: RonContentWithin<L>, C: RonChoicesWithin<L>> RonChoicesWithin<L>
    for (Variant<N, S>, C) {
    type Values = Either<S::Values, C::Values>;

    ghost encodes = { λ levels. before (S.rest levels) N.label (C.encodes levels) };

    ghost means = { λ from. either_is (λ x. tagged from (S.means x)) (C.means (suc from)) };

    fn stands_alone(name: &str) -> bool {
        (S::stands_alone() && name == N::text()) || C::stands_alone(name)
    }

    fn read(
        levels: &L,
        left: usize,
        name: &str,
        alone: bool,
        alloc: Global,
        state: &mut DeRonState,
        input: &mut Chars<'_>,
    ) -> Result<Either<S::Values, C::Values>, DeRonErr> {
        if is_named(name, alone, N::text(), S::stands_alone()) {
            return match S::read(levels, left, alloc, state, input) {
                Ok(content) => Ok(Either::First(content)),
                Err(error) => Err(error),
            };
        }
        match C::read(levels, left, name, alone, alloc, state, input) {
            Ok(later) => Ok(Either::Later(later)),
            Err(error) => Err(error),
        }
    }
}
