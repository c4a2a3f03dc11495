//! The variants of an enum in JSON.

ghost use Rattle.std.specs.Prelude.{◌≡◌, ℕ, suc, OnOk, OnErr};
ghost use Rattle.nano_value.specs.Meaning.{Meaning};
ghost use Rattle.nano_value.specs.Sums.{tagged};
ghost use Rattle.nano_text.specs.Outcomes.{Appends, Unchanged};
ghost use Rattle.nano_json.specs.Outcomes.{position};
ghost use Rattle.nano_schema.specs.Choices.{either_is, either_map};
ghost use Rattle.nano_grammar.specs.Choices.{ChoiceCodec, is_named, last_choice};
ghost use Rattle.nano_grammar.proofs.ChoicesLaws.{next_choice};
ghost use Rattle.nano_json_schema.specs.Variants.{is_alone, bytes_of};
ghost use Rattle.nano_json_schema.specs.Outcomes.{ReadsChoice, GivesUnknown};
ghost use Rattle.nano_json_schema.specs.VariantCodecs.{json_variants};

use crate::contents::{JsonContent, ReadContent, WriteContent};
use crate::variants::{VariantName, unknown_variant};
use nano_json::{DeJsonErr, DeJsonState, SerJsonState};
use nano_schema::{Either, Label, Variant};
use std::alloc::{AllocError, Global};
use std::str::Chars;

/// Variants that have a JSON codec.
pub trait JsonShapes {
    /// The content of one of them.
    type Values;

    /// How they are written and read.
    ghost codec: { ChoiceCodec json_variants Self.Values };
}

/// Variants that are read from JSON.
pub trait JsonChoices {
    /// The content of one of them.
    type Values;

    /// How they are written and read.
    ghost codec: { ChoiceCodec json_variants Self.Values };

    /// What the content of one of them means, with variant indices counted from here.
    ghost means: { ℕ → Self.Values → Meaning };

    /// Reads the content of the variant whose name was taken in this way, and the `}` after it.
    /// A name that no variant has is rejected with `Enum not defined {name}`.
    ///
    /// An error other than out of memory says that no content of a variant of this name is
    /// encoded there, with one more token or the end after it. Every error leaves the state at
    /// the end of the text.
    fn read(
        name: &VariantName,
        alloc: Global,
        state: &mut DeJsonState,
        input: &mut Chars<'_>,
    ) -> Result<Self::Values, DeJsonErr>
        ensures { ReadsChoice codec.encodes name.now means
            (position state.old input.old) (position state.new input.new) result };
}

/// Variants that are written as JSON.
pub trait JsonChoiceRefs<'a> {
    /// The content of one of them.
    type Values;

    /// References to it.
    type Refs;

    /// What they refer to.
    ghost values: { Self.Refs → Self.Values };

    /// How they are written and read.
    ghost codec: { ChoiceCodec json_variants Self.Values };

    /// Appends the variant with its content at level `d`. If the write fails, `s.out` is
    /// unchanged.
    fn write(
        refs: &Self::Refs,
        alloc: Global,
        d: usize,
        s: &mut SerJsonState,
    ) -> Result<(), AllocError>
        ensures ok { OnOk result
            (Appends s.old.out s.new.out (codec.text d (values refs.now))) }
        ensures err { OnErr result (Unchanged s.old.out s.new.out) };
}

/// Whether the name that was taken is this one, and stood as it says.
fn is_named(read: &VariantName, name: &str, alone: bool) -> bool
    ensures { result ≡ is_named (is_alone read.now) alone (bytes_of read.now) name.now }
{
    match read {
        VariantName::Unit(read) => alone && read.as_str() == name,
        VariantName::Content(read) => !alone && read.as_str() == name,
    }
}

/// The error for a name that no variant has. It leaves the state at the end of the text.
fn unknown(alloc: Global, state: &mut DeJsonState, name: &VariantName) -> DeJsonErr
    ensures { GivesUnknown state.old state.new (bytes_of name.now) result }
{
    match name {
        VariantName::Unit(name) => unknown_variant(alloc, state, name.as_str()),
        VariantName::Content(name) => unknown_variant(alloc, state, name.as_str()),
    }
}

impl<N: Label, S: JsonContent> JsonShapes for Variant<N, S> {
    type Values = S::Values;

    ghost codec = { last_choice N.label S.content };
}

impl<N: Label, S: ReadContent> JsonChoices for Variant<N, S> {
    type Values = S::Values;

    ghost codec = { last_choice N.label S.content };

    ghost means = { λ from x. tagged from (S.means x) };

    fn read(
        name: &VariantName,
        alloc: Global,
        state: &mut DeJsonState,
        input: &mut Chars<'_>,
    ) -> Result<S::Values, DeJsonErr> {
        if is_named(name, N::text(), S::stands_alone()) {
            return S::read(alloc, state, input);
        }
        Err(unknown(alloc, state, name))
    }
}

impl<N: Label, S: JsonContent, C: JsonShapes> JsonShapes for (Variant<N, S>, C) {
    type Values = Either<S::Values, C::Values>;

    ghost codec = { next_choice N.label S.content C.codec };
}

impl<N: Label, S: ReadContent, C: JsonChoices> JsonChoices for (Variant<N, S>, C) {
    type Values = Either<S::Values, C::Values>;

    ghost codec = { next_choice N.label S.content C.codec };

    ghost means = { λ from. either_is (λ x. tagged from (S.means x)) (C.means (suc from)) };

    fn read(
        name: &VariantName,
        alloc: Global,
        state: &mut DeJsonState,
        input: &mut Chars<'_>,
    ) -> Result<Either<S::Values, C::Values>, DeJsonErr> {
        if is_named(name, N::text(), S::stands_alone()) {
            return match S::read(alloc, state, input) {
                Ok(content) => Ok(Either::First(content)),
                Err(error) => Err(error),
            };
        }
        match C::read(name, alloc, state, input) {
            Ok(later) => Ok(Either::Later(later)),
            Err(error) => Err(error),
        }
    }
}

impl<'a, N: Label, S: WriteContent<'a>> JsonChoiceRefs<'a> for Variant<N, S> {
    type Values = S::Values;

    type Refs = S::Refs;

    ghost values = { S.values };

    ghost codec = { last_choice N.label S.content };

    fn write(
        refs: &S::Refs,
        alloc: Global,
        d: usize,
        s: &mut SerJsonState,
    ) -> Result<(), AllocError> {
        S::write(N::text(), refs, alloc, d, s)
    }
}

impl<'a, N: Label, S: WriteContent<'a>, C: JsonChoiceRefs<'a>> JsonChoiceRefs<'a>
    for (Variant<N, S>, C) {
    type Values = Either<S::Values, C::Values>;

    type Refs = Either<S::Refs, C::Refs>;

    ghost values = { either_map S.values C.values };

    ghost codec = { next_choice N.label S.content C.codec };

    fn write(
        refs: &Either<S::Refs, C::Refs>,
        alloc: Global,
        d: usize,
        s: &mut SerJsonState,
    ) -> Result<(), AllocError> {
        match refs {
            Either::First(refs) => S::write(N::text(), refs, alloc, d, s),
            Either::Later(refs) => C::write(refs, alloc, d, s),
        }
    }
}
