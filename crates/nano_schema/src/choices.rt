//! The variants of an enum, in their order.

ghost use Rattle.std.specs.Prelude.{ℕ, suc};
ghost use Rattle.nano_value.specs.Meaning.{Meaning};
ghost use Rattle.nano_value.specs.Sums.{Variants, no_variants, variant as sum, tagged, LegalFrom};
ghost use Rattle.nano_schema.specs.Choices.{either_is, either_map};

use crate::fields::{Borrowed, Shape};
use std::marker::PhantomData;

/// A variant, by its name and its content: a `Unit`, a `Newtype`, a `Tuple` or a `Struct`.
#[derive(Drop)]
pub struct Variant<N, S> {
    /// Its name.
    pub name: PhantomData<N>,
    /// What it holds.
    pub content: PhantomData<S>,
}

/// The content of the first of some variants, or of one of the later ones.
#[derive(Drop)]
pub enum Either<A, B> {
    /// That of the first.
    First(A),
    /// That of a later one.
    Later(B),
}

/// One variant, or one and more: what the content of one of them means.
pub trait Choices {
    /// The content of one of them.
    type Values;

    /// What the content of one of them means, with variant indices counted from here.
    ghost means: { ℕ → Self.Values → Meaning };

    /// What is legal for the content of each.
    ghost legals: { Variants };
}

/// Variants whose content is at hand by reference.
pub trait BorrowedChoices<'a> {
    /// The content of one of them.
    type Values;

    /// The references.
    type Refs;

    /// What they refer to.
    ghost values: { Self.Refs → Self.Values };

    /// What the content of one of them means, with variant indices counted from here.
    ghost means: { ℕ → Self.Values → Meaning };

    /// What is legal for the content of each.
    ghost legals: { Variants };

    /// Does nothing. Its contract says that what the content of a program means is legal.
    fn known(refs: &Self::Refs)
        ensures { (from : ℕ) → LegalFrom from legals (means from (values refs.now)) };
}

impl<N, S: Shape> Choices for Variant<N, S> {
    type Values = S::Values;

    ghost means = { λ from x. tagged from (S.means x) };

    ghost legals = { sum S.legal no_variants };
}

impl<'a, N, S: Borrowed<'a>> BorrowedChoices<'a> for Variant<N, S> {
    type Values = S::Values;

    type Refs = S::Refs;

    ghost values = { S.values };

    ghost means = { λ from x. tagged from (S.means x) };

    ghost legals = { sum S.legal no_variants };

    #[tactic(auto, using(crate::specs::ChoicesImpls::last_is_legal))]
    fn known(refs: &S::Refs) {
        S::known(refs);
    }
}

impl<N, S: Shape, C: Choices> Choices for (Variant<N, S>, C) {
    type Values = Either<S::Values, C::Values>;

    ghost means = { λ from. either_is (λ x. tagged from (S.means x)) (C.means (suc from)) };

    ghost legals = { sum S.legal C.legals };
}

impl<'a, N, S: Borrowed<'a>, C: BorrowedChoices<'a>> BorrowedChoices<'a> for (Variant<N, S>, C) {
    type Values = Either<S::Values, C::Values>;

    type Refs = Either<S::Refs, C::Refs>;

    ghost values = { either_map S.values C.values };

    ghost means = { λ from. either_is (λ x. tagged from (S.means x)) (C.means (suc from)) };

    ghost legals = { sum S.legal C.legals };

    #[tactic(auto, using(crate::specs::ChoicesImpls::first_is_legal, crate::specs::ChoicesImpls::later_is_legal))]
    fn known(refs: &Either<S::Refs, C::Refs>) {
        match refs {
            Either::First(first) => S::known(first),
            Either::Later(later) => C::known(later),
        }
    }
}
