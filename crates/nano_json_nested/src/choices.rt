//! The variants of an enum whose variants may hold values of the enum itself.

ghost use Rattle.std.specs.Prelude.{◌≡◌, ℕ, suc};
ghost use Rattle.nano_value.specs.Meaning.{Meaning};
ghost use Rattle.nano_value.specs.Sums.{tagged};
ghost use Rattle.nano_json.specs.Outcomes.{position};
ghost use Rattle.nano_schema.specs.Choices.{either_is};
ghost use Rattle.nano_grammar.specs.Choices.{before, is_named};
ghost use Rattle.nano_grammar.specs.Variants.{no_variants};
ghost use Rattle.nano_json_schema.specs.Reading.{Encodings};
ghost use Rattle.nano_json_schema.specs.Variants.{is_alone, bytes_of};
ghost use Rattle.nano_json_schema.specs.Outcomes.{ReadsChoice, GivesUnknown};

use crate::contents::JsonContentWithin;
use nano_json::{DeJsonErr, DeJsonState};
use nano_json_schema::{VariantName, unknown_variant};
use nano_schema::{Either, Label, Variant};
use std::alloc::Global;
use std::str::Chars;

/// Variants that are read from JSON, given how many levels may follow.
pub trait JsonChoicesWithin<L> {
    /// The content of one of them.
    type Values;

    /// The variants with what encodes their content, where so many levels may follow.
    ghost encodes: { ℕ → Encodings };

    /// What the content of one of them means, with variant indices counted from here.
    ghost means: { ℕ → Self.Values → Meaning };

    /// Reads the content of the variant whose name was taken in this way, and the `}` after it.
    /// A name that no variant has is rejected with `Enum not defined {name}`.
    ///
    /// An error other than out of memory says that no content of a variant of this name is
    /// encoded there, with one more token or the end after it. Every error leaves the state at
    /// the end of the text.
    fn read(
        levels: &L,
        left: usize,
        name: &VariantName,
        alloc: Global,
        state: &mut DeJsonState,
        input: &mut Chars<'_>,
    ) -> Result<Self::Values, DeJsonErr>
        ensures { ReadsChoice (encodes left) name.now means
            (position state.old input.old) (position state.new input.new) result };
}

/// Whether the name that was taken is this one, and stood as it says.
fn is_named(read: &VariantName, name: &str, alone: bool) -> bool
    ensures { result ≡ is_named (is_alone read.now) alone (bytes_of read.now) name.now }
{
    match read {
        VariantName::Unit(read) => alone && read.as_str() == name,
        VariantName::Content(read) => !alone && read.as_str() == name,
    }
}

/// The error for a name that no variant has. It leaves the state at the end of the text.
fn unknown(alloc: Global, state: &mut DeJsonState, name: &VariantName) -> DeJsonErr
    ensures { GivesUnknown state.old state.new (bytes_of name.now) result }
{
    match name {
        VariantName::Unit(name) => unknown_variant(alloc, state, name.as_str()),
        VariantName::Content(name) => unknown_variant(alloc, state, name.as_str()),
    }
}

impl<L, N: Label, S: JsonContentWithin<L>> JsonChoicesWithin<L> for Variant<N, S> {
    type Values = S::Values;

    ghost encodes = { λ levels. before (S.rest levels) N.label no_variants };

    ghost means = { λ from x. tagged from (S.means x) };

    fn read(
        levels: &L,
        left: usize,
        name: &VariantName,
        alloc: Global,
        state: &mut DeJsonState,
        input: &mut Chars<'_>,
    ) -> Result<S::Values, DeJsonErr> {
        if is_named(name, N::text(), S::stands_alone()) {
            return S::read(levels, left, alloc, state, input);
        }
        Err(unknown(alloc, state, name))
    }
}

impl<L, N: Label, S: JsonContentWithin<L>, C: JsonChoicesWithin<L>> JsonChoicesWithin<L>
    for (Variant<N, S>, C) {
    type Values = Either<S::Values, C::Values>;

    ghost encodes = { λ levels. before (S.rest levels) N.label (C.encodes levels) };

    ghost means = { λ from. either_is (λ x. tagged from (S.means x)) (C.means (suc from)) };

    fn read(
        levels: &L,
        left: usize,
        name: &VariantName,
        alloc: Global,
        state: &mut DeJsonState,
        input: &mut Chars<'_>,
    ) -> Result<Either<S::Values, C::Values>, DeJsonErr> {
        if is_named(name, N::text(), S::stands_alone()) {
            return match S::read(levels, left, alloc, state, input) {
                Ok(content) => Ok(Either::First(content)),
                Err(error) => Err(error),
            };
        }
        match C::read(levels, left, name, alloc, state, input) {
            Ok(later) => Ok(Either::Later(later)),
            Err(error) => Err(error),
        }
    }
}
