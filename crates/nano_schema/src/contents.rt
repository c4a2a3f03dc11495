//! What a variant holds: nothing (a unit variant), one part (a newtype variant), a tuple of parts (a
//! tuple variant), or named fields (a struct variant).

ghost use Rattle.nano_value.specs.Meaning.{nothing, LegalUnit};

use crate::fields::{Borrowed, Shape};
use nano_value::Value;
use std::marker::PhantomData;

/// The content of a unit variant: none.
#[derive(Drop)]
pub struct Unit {}

/// The content of a newtype variant: one part.
#[derive(Drop)]
pub struct Newtype<T> {
    /// The type of its value.
    pub of: PhantomData<T>,
}

/// The content of a tuple variant: two, three or four parts, one after the other. `P` is their tuple.
#[derive(Drop)]
pub struct Tuple<P> {
    /// The type of the tuple.
    pub of: PhantomData<P>,
}

/// The content of a struct variant: named fields, as those of a struct.
#[derive(Drop)]
pub struct Struct<F> {
    /// The fields.
    pub of: PhantomData<F>,
}

impl Shape for Unit {
    type Values = ();

    ghost means = { λ v. nothing };

    ghost legal = { LegalUnit };
}

impl<'a> Borrowed<'a> for Unit {
    type Values = ();

    type Refs = ();

    ghost values = { λ r. r };

    ghost means = { λ v. nothing };

    ghost legal = { LegalUnit };

    fn known(_refs: &()) {}
}

impl<T: Value> Shape for Newtype<T> {
    type Values = T;

    ghost means = { T.means };

    ghost legal = { T.legal };
}

impl<'a, T: Value + 'a> Borrowed<'a> for Newtype<T> {
    type Values = T;

    type Refs = &'a T;

    ghost values = { λ r. r.now };

    ghost means = { T.means };

    ghost legal = { T.legal };

    fn known(refs: &&'a T) {
        refs.known();
    }
}

impl<F: Shape> Shape for Struct<F> {
    type Values = F::Values;

    ghost means = { F.means };

    ghost legal = { F.legal };
}

impl<'a, F: Borrowed<'a>> Borrowed<'a> for Struct<F> {
    type Values = F::Values;

    type Refs = F::Refs;

    ghost values = { F.values };

    ghost means = { F.means };

    ghost legal = { F.legal };

    fn known(refs: &F::Refs) {
        F::known(refs);
    }
}

impl<P: Value> Shape for Tuple<P> {
    type Values = P;

    ghost means = { P.means };

    ghost legal = { P.legal };
}

impl<'a, A: Value + 'a, B: Value + 'a> Borrowed<'a> for Tuple<(A, B)> {
    type Values = (A, B);

    type Refs = (&'a A, &'a B);

    ghost values = { λ r. (r.0.now, r.1.now) };

    ghost means = { ⟦<(A, B) as Value>⟧.means };

    ghost legal = { ⟦<(A, B) as Value>⟧.legal };

    #[tactic(auto, using(nano_meaning::proofs::MeaningLaws::pair_is_legal))]
    fn known(refs: &(&'a A, &'a B)) {
        refs.0.known();
        refs.1.known();
    }
}

impl<'a, A: Value + 'a, B: Value + 'a, C: Value + 'a> Borrowed<'a> for Tuple<(A, B, C)> {
    type Values = (A, B, C);

    type Refs = (&'a A, &'a B, &'a C);

    ghost values = { λ r. (r.0.now, r.1.now, r.2.now) };

    ghost means = { ⟦<(A, B, C) as Value>⟧.means };

    ghost legal = { ⟦<(A, B, C) as Value>⟧.legal };

    #[tactic(auto, using(nano_meaning::proofs::MeaningLaws::pair_is_legal))]
    fn known(refs: &(&'a A, &'a B, &'a C)) {
        refs.0.known();
        refs.1.known();
        refs.2.known();
    }
}

impl<'a, A: Value + 'a, B: Value + 'a, C: Value + 'a, D: Value + 'a> Borrowed<'a>
    for Tuple<(A, B, C, D)> {
    type Values = (A, B, C, D);

    type Refs = (&'a A, &'a B, &'a C, &'a D);

    ghost values = { λ r. (r.0.now, r.1.now, r.2.now, r.3.now) };

    ghost means = { ⟦<(A, B, C, D) as Value>⟧.means };

    ghost legal = { ⟦<(A, B, C, D) as Value>⟧.legal };

    #[tactic(auto, using(nano_meaning::proofs::MeaningLaws::pair_is_legal))]
    fn known(refs: &(&'a A, &'a B, &'a C, &'a D)) {
        refs.0.known();
        refs.1.known();
        refs.2.known();
        refs.3.known();
    }
}
