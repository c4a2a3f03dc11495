//! Fields by their names and types.

ghost use Rattle.std.specs.Option.{option_map};
ghost use Rattle.nano_value.specs.Meaning.{Meaning, optional, paired, pair_map, LegalOption};
ghost use Rattle.nano_value.specs.Meaning.{LegalPair, LegalUnit, nothing};

use crate::labels::Label;
use nano_value::Value;
use std::marker::PhantomData;

/// A field that must be there, by its name and the type of its value.
#[derive(Drop)]
pub struct Required<N, T> {
    /// Its name.
    pub name: PhantomData<N>,
    /// The type of its value.
    pub of: PhantomData<T>,
}

/// A field that may be missing, and is `None` then, by its name and the type of its value
/// without the `Option`.
#[derive(Drop)]
pub struct Optional<N, T> {
    /// Its name.
    pub name: PhantomData<N>,
    /// The type of its value, without the `Option`.
    pub of: PhantomData<T>,
}

/// A field that may be missing, and has its default then, by its name, the type of its value and
/// the default (`DefaultOf`). It is always written.
#[derive(Drop)]
pub struct Defaulted<N, T, D> {
    /// Its name.
    pub name: PhantomData<N>,
    /// The type of its value.
    pub of: PhantomData<T>,
    /// What it has where it is missing.
    pub missing: PhantomData<D>,
}

/// A field that is also read under a second name, the alias, and is written under its own: by the
/// alias and the field, which is one of the above or has an alias already.
#[derive(Drop)]
pub struct Aliased<N, F> {
    /// The alias.
    pub alias: PhantomData<N>,
    /// The field.
    pub field: PhantomData<F>,
}

/// A field that is neither written nor read, by the type of its value and what it is made as
/// (`DefaultOf`). It has no name in a text, and its value means nothing.
#[derive(Drop)]
pub struct Skipped<T, D> {
    /// The type of its value.
    pub of: PhantomData<T>,
    /// What it is made as.
    pub made: PhantomData<D>,
}

/// The label of a field is its name.
impl<N: Label, T> Label for Required<N, T> {
    ghost label = { N.label };

    fn text() -> &'static str {
        N::text()
    }
}

/// The label of a field is its name.
impl<N: Label, T> Label for Optional<N, T> {
    ghost label = { N.label };

    fn text() -> &'static str {
        N::text()
    }
}

/// The label of a field is its name.
impl<N: Label, T, D> Label for Defaulted<N, T, D> {
    ghost label = { N.label };

    fn text() -> &'static str {
        N::text()
    }
}

/// The label of a field is its own name.
impl<N, F: Label> Label for Aliased<N, F> {
    ghost label = { F.label };

    fn text() -> &'static str {
        F::text()
    }
}

/// One field, or fields and more fields: what their values mean.
pub trait Shape {
    /// The values of the fields.
    type Values;

    /// What the values mean.
    ghost means: { Self.Values → Meaning };

    /// Which meanings the values of a program have.
    ghost legal: { Meaning → Type 0 };
}

/// Fields whose values are at hand by reference.
pub trait Borrowed<'a> {
    /// The values of the fields.
    type Values;

    /// The references.
    type Refs;

    /// What they refer to.
    ghost values: { Self.Refs → Self.Values };

    /// What the values mean.
    ghost means: { Self.Values → Meaning };

    /// Which meanings the values of a program have.
    ghost legal: { Meaning → Type 0 };

    /// Does nothing. Its contract says that what the values of a program mean is legal.
    fn known(refs: &Self::Refs)
        ensures { legal (means (values refs.now)) };
}

impl<N, T: Value> Shape for Required<N, T> {
    type Values = T;

    ghost means = { T.means };

    ghost legal = { T.legal };
}

impl<'a, N, T: Value + 'a> Borrowed<'a> for Required<N, T> {
    type Values = T;

    type Refs = &'a T;

    ghost values = { λ r. r.now };

    ghost means = { T.means };

    ghost legal = { T.legal };

    fn known(refs: &&'a T) {
        refs.known();
    }
}

impl<N, T: Value> Shape for Optional<N, T> {
    type Values = Option<T>;

    ghost means = { λ x. optional (option_map T.means x) };

    ghost legal = { LegalOption T.legal };
}

impl<'a, N, T: Value + 'a> Borrowed<'a> for Optional<N, T> {
    type Values = Option<T>;

    type Refs = &'a Option<T>;

    ghost values = { λ r. r.now };

    ghost means = { λ x. optional (option_map T.means x) };

    ghost legal = { LegalOption T.legal };

    fn known(refs: &&'a Option<T>) {
        refs.known();
    }
}

impl<N, T: Value, D> Shape for Defaulted<N, T, D> {
    type Values = T;

    ghost means = { T.means };

    ghost legal = { T.legal };
}

impl<'a, N, T: Value + 'a, D> Borrowed<'a> for Defaulted<N, T, D> {
    type Values = T;

    type Refs = &'a T;

    ghost values = { λ r. r.now };

    ghost means = { T.means };

    ghost legal = { T.legal };

    fn known(refs: &&'a T) {
        refs.known();
    }
}

impl<N, F: Shape> Shape for Aliased<N, F> {
    type Values = F::Values;

    ghost means = { F.means };

    ghost legal = { F.legal };
}

impl<'a, N, F: Borrowed<'a>> Borrowed<'a> for Aliased<N, F> {
    type Values = F::Values;

    type Refs = F::Refs;

    ghost values = { F.values };

    ghost means = { F.means };

    ghost legal = { F.legal };

    fn known(refs: &F::Refs) {
        F::known(refs);
    }
}

impl<T, D> Shape for Skipped<T, D> {
    type Values = T;

    ghost means = { λ x. nothing };

    ghost legal = { LegalUnit };
}

impl<'a, T: 'a, D> Borrowed<'a> for Skipped<T, D> {
    type Values = T;

    type Refs = &'a T;

    ghost values = { λ r. r.now };

    ghost means = { λ x. nothing };

    ghost legal = { LegalUnit };

    fn known(_refs: &&'a T) {}
}

impl<A: Shape, B: Shape> Shape for (A, B) {
    type Values = (A::Values, B::Values);

    ghost means = { λ v. paired (pair_map A.means B.means v) };

    ghost legal = { LegalPair A.legal B.legal };
}

impl<'a, A: Borrowed<'a>, B: Borrowed<'a>> Borrowed<'a> for (A, B) {
    type Values = (A::Values, B::Values);

    type Refs = (A::Refs, B::Refs);

    ghost values = { λ r. (A.values r.0, B.values r.1) };

    ghost means = { λ v. paired (pair_map A.means B.means v) };

    ghost legal = { LegalPair A.legal B.legal };

    #[tactic(auto, using(nano_meaning::proofs::MeaningLaws::pair_is_legal))]
    fn known(refs: &(A::Refs, B::Refs)) {
        A::known(&refs.0);
        B::known(&refs.1);
    }
}
