//! The variants of an enum in RON.

ghost use Rattle.std.specs.Prelude.{◌≡◌, ℕ, suc, OnOk, OnErr};
ghost use Rattle.nano_value.specs.Meaning.{Meaning};
ghost use Rattle.nano_value.specs.Sums.{tagged};
ghost use Rattle.nano_text.specs.Outcomes.{Appends, Unchanged};
ghost use Rattle.nano_ron.specs.Outcomes.{position};
ghost use Rattle.nano_schema.specs.Choices.{either_is, either_map};
ghost use Rattle.nano_grammar.specs.Choices.{ChoiceCodec, has_alone, is_named, last_choice};
ghost use Rattle.nano_grammar.proofs.ChoicesLaws.{next_choice};
ghost use Rattle.nano_ron_schema.specs.Outcomes.{ReadsChoice};
ghost use Rattle.nano_ron_schema.specs.VariantCodecs.{ron_variants};

use crate::contents::{ReadContent, RonContent, WriteContent};
use crate::variants::unknown_variant;
use nano_ron::{DeRonErr, DeRonState, SerRonState};
use nano_schema::{Either, Label, Variant};
use std::alloc::{AllocError, Global};
use std::str::Chars;

/// Variants that have a RON codec.
pub trait RonShapes {
    /// The content of one of them.
    type Values;

    /// How they are written and read.
    ghost codec: { ChoiceCodec ron_variants Self.Values };
}

/// Variants that are read from RON.
pub trait RonChoices {
    /// The content of one of them.
    type Values;

    /// How they are written and read.
    ghost codec: { ChoiceCodec ron_variants Self.Values };

    /// What the content of one of them means, with variant indices counted from here.
    ghost means: { ℕ → Self.Values → Meaning };

    /// Whether a variant without content has this name. It takes no memory.
    fn stands_alone(name: &str) -> bool
        ensures { result ≡ has_alone codec.encodes name.now };

    /// Reads the content of the variant of this name: one without content if the name stands
    /// alone, and otherwise one with content. A name that none of these has is rejected with
    /// `Enum not defined {name}`.
    ///
    /// An error other than out of memory says that no content of such a variant is encoded
    /// there, with one more token or the end after it. Every error leaves the state at the end
    /// of the text.
    fn read(
        name: &str,
        alone: bool,
        alloc: Global,
        state: &mut DeRonState,
        input: &mut Chars<'_>,
    ) -> Result<Self::Values, DeRonErr>
        ensures { ReadsChoice codec.encodes alone name.now means
            (position state.old input.old) (position state.new input.new) result };
}

/// Variants that are written as RON.
pub trait RonChoiceRefs<'a> {
    /// The content of one of them.
    type Values;

    /// References to it.
    type Refs;

    /// What they refer to.
    ghost values: { Self.Refs → Self.Values };

    /// How they are written and read.
    ghost codec: { ChoiceCodec ron_variants Self.Values };

    /// Appends the variant with its content at level `d`. If the write fails, `s.out` is
    /// unchanged.
    fn write(
        refs: &Self::Refs,
        alloc: Global,
        d: usize,
        s: &mut SerRonState,
    ) -> Result<(), AllocError>
        ensures ok { OnOk result
            (Appends s.old.out s.new.out (codec.text d (values refs.now))) }
        ensures err { OnErr result (Unchanged s.old.out s.new.out) };
}

/// Whether this is the name, and both stand alone or neither does.
fn is_named(name: &str, alone: bool, variant: &str, stands_alone: bool) -> bool
    ensures { result ≡ is_named alone stands_alone name.now variant.now }
{
    alone == stands_alone && name == variant
}

impl<N: Label, S: RonContent> RonShapes for Variant<N, S> {
    type Values = S::Values;

    ghost codec = { last_choice N.label S.content };
}

impl<N: Label, S: ReadContent> RonChoices for Variant<N, S> {
    type Values = S::Values;

    ghost codec = { last_choice N.label S.content };

    ghost means = { λ from x. tagged from (S.means x) };

    fn stands_alone(name: &str) -> bool {
        S::stands_alone() && name == N::text()
    }

    fn read(
        name: &str,
        alone: bool,
        alloc: Global,
        state: &mut DeRonState,
        input: &mut Chars<'_>,
    ) -> Result<S::Values, DeRonErr> {
        if is_named(name, alone, N::text(), S::stands_alone()) {
            return S::read(alloc, state, input);
        }
        Err(unknown_variant(alloc, state, name))
    }
}

impl<N: Label, S: RonContent, C: RonShapes> RonShapes for (Variant<N, S>, C) {
    type Values = Either<S::Values, C::Values>;

    ghost codec = { next_choice N.label S.content C.codec };
}

impl<N: Label, S: ReadContent, C: RonChoices> RonChoices for (Variant<N, S>, C) {
    type Values = Either<S::Values, C::Values>;

    ghost codec = { next_choice N.label S.content C.codec };

    ghost means = { λ from. either_is (λ x. tagged from (S.means x)) (C.means (suc from)) };

    fn stands_alone(name: &str) -> bool {
        (S::stands_alone() && name == N::text()) || C::stands_alone(name)
    }

    fn read(
        name: &str,
        alone: bool,
        alloc: Global,
        state: &mut DeRonState,
        input: &mut Chars<'_>,
    ) -> Result<Either<S::Values, C::Values>, DeRonErr> {
        if is_named(name, alone, N::text(), S::stands_alone()) {
            return match S::read(alloc, state, input) {
                Ok(content) => Ok(Either::First(content)),
                Err(error) => Err(error),
            };
        }
        match C::read(name, alone, alloc, state, input) {
            Ok(later) => Ok(Either::Later(later)),
            Err(error) => Err(error),
        }
    }
}

impl<'a, N: Label, S: WriteContent<'a>> RonChoiceRefs<'a> for Variant<N, S> {
    type Values = S::Values;

    type Refs = S::Refs;

    ghost values = { S.values };

    ghost codec = { last_choice N.label S.content };

    fn write(
        refs: &S::Refs,
        alloc: Global,
        d: usize,
        s: &mut SerRonState,
    ) -> Result<(), AllocError> {
        S::write(N::text(), refs, alloc, d, s)
    }
}

impl<'a, N: Label, S: WriteContent<'a>, C: RonChoiceRefs<'a>> RonChoiceRefs<'a>
    for (Variant<N, S>, C) {
    type Values = Either<S::Values, C::Values>;

    type Refs = Either<S::Refs, C::Refs>;

    ghost values = { either_map S.values C.values };

    ghost codec = { next_choice N.label S.content C.codec };

    fn write(
        refs: &Either<S::Refs, C::Refs>,
        alloc: Global,
        d: usize,
        s: &mut SerRonState,
    ) -> Result<(), AllocError> {
        match refs {
            Either::First(refs) => S::write(N::text(), refs, alloc, d, s),
            Either::Later(refs) => C::write(refs, alloc, d, s),
        }
    }
}
