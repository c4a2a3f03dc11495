//! When `==` is exact: true of exactly the values that mean the same.
//!
//! That of a container is exact where those of its parts are. A hash map has no impl: its `==` is
//! exact because no two of its keys are equal, which is known of the maps of a program alone, and
//! `laws::equal_maps_mean_the_same` is the fact for two of them.

use crate::value::{Key, Value};
use std::collections::{BTreeMap, BTreeSet, HashSet, LinkedList};
use std::hash::Hash;

/// A type whose `==` is exact: what is written is read back as a value that is `==`.
pub trait ExactEq: Value + PartialEq {
    ghost use Rattle.nano_value.specs.Meaning.{EqAgrees};

    /// Does nothing. Its contract says that two values are equal by `==` exactly where they mean
    /// the same.
    fn eq_agrees()
        ensures { EqAgrees Self.eq Self.means };
}

impl ExactEq for u8 {
    #[tactic(auto, using(nano_meaning::proofs::ExactLaws::unsigned_tell))]
    fn eq_agrees() {}
}

impl ExactEq for u16 {
    #[tactic(auto, using(nano_meaning::proofs::ExactLaws::unsigned_tell))]
    fn eq_agrees() {}
}

impl ExactEq for u32 {
    #[tactic(auto, using(nano_meaning::proofs::ExactLaws::unsigned_tell))]
    fn eq_agrees() {}
}

impl ExactEq for u64 {
    #[tactic(auto, using(nano_meaning::proofs::ExactLaws::unsigned_tell))]
    fn eq_agrees() {}
}

impl ExactEq for usize {
    #[tactic(auto, using(nano_meaning::proofs::ExactLaws::unsigned_tell))]
    fn eq_agrees() {}
}

impl ExactEq for u128 {
    #[tactic(auto, using(nano_meaning::proofs::ExactLaws::unsigned_tell))]
    fn eq_agrees() {}
}

impl ExactEq for i8 {
    #[tactic(auto, using(nano_meaning::proofs::ExactLaws::signed_tell))]
    fn eq_agrees() {}
}

impl ExactEq for i16 {
    #[tactic(auto, using(nano_meaning::proofs::ExactLaws::signed_tell))]
    fn eq_agrees() {}
}

impl ExactEq for i32 {
    #[tactic(auto, using(nano_meaning::proofs::ExactLaws::signed_tell))]
    fn eq_agrees() {}
}

impl ExactEq for i64 {
    #[tactic(auto, using(nano_meaning::proofs::ExactLaws::signed_tell))]
    fn eq_agrees() {}
}

impl ExactEq for i128 {
    #[tactic(auto, using(nano_meaning::proofs::ExactLaws::signed_tell))]
    fn eq_agrees() {}
}

impl ExactEq for bool {
    #[tactic(auto, using(nano_meaning::proofs::ExactLaws::truths_tell))]
    fn eq_agrees() {}
}

impl ExactEq for () {
    #[tactic(auto, using(nano_meaning::proofs::ExactLaws::units_tell))]
    fn eq_agrees() {}
}

impl ExactEq for String {
    #[tactic(auto, using(nano_meaning::proofs::ExactLaws::texts_tell))]
    fn eq_agrees() {}
}

impl<T: ExactEq> ExactEq for Box<T> {
    fn eq_agrees() {
        T::eq_agrees();
    }
}

impl<T: ExactEq> ExactEq for Option<T> {
    #[tactic(auto, using(nano_meaning::proofs::ExactLaws::options_tell))]
    fn eq_agrees() {
        T::eq_agrees();
    }
}

impl<T: ExactEq> ExactEq for Vec<T> {
    #[tactic(auto, using(nano_meaning::proofs::ExactLaws::lists_tell))]
    fn eq_agrees() {
        T::eq_agrees();
    }
}

impl<T: ExactEq> ExactEq for LinkedList<T> {
    #[tactic(auto, using(nano_meaning::proofs::ExactLaws::lists_tell))]
    fn eq_agrees() {
        T::eq_agrees();
    }
}

impl<T: ExactEq, const N: usize> ExactEq for [T; N] {
    #[tactic(auto, using(nano_meaning::proofs::ExactLaws::lists_tell))]
    fn eq_agrees() {
        T::eq_agrees();
    }
}

impl<A: ExactEq, B: ExactEq> ExactEq for (A, B) {
    #[tactic(auto, using(nano_meaning::proofs::ExactLaws::pairs_tell))]
    fn eq_agrees() {
        A::eq_agrees();
        B::eq_agrees();
    }
}

impl<A: ExactEq, B: ExactEq, C: ExactEq> ExactEq for (A, B, C) {
    #[tactic(auto, using(nano_meaning::proofs::ExactLaws::triples_tell))]
    fn eq_agrees() {
        A::eq_agrees();
        B::eq_agrees();
        C::eq_agrees();
    }
}

impl<A: ExactEq, B: ExactEq, C: ExactEq, D: ExactEq> ExactEq for (A, B, C, D) {
    #[tactic(auto, using(nano_meaning::proofs::ExactLaws::quadruples_tell))]
    fn eq_agrees() {
        A::eq_agrees();
        B::eq_agrees();
        C::eq_agrees();
        D::eq_agrees();
    }
}

impl<T: Key + Hash> ExactEq for HashSet<T> {
    #[tactic(auto, using(nano_meaning::proofs::ExactEqLaws::hashed_sets_tell))]
    fn eq_agrees() {}
}

impl<T: Key + Ord> ExactEq for BTreeSet<T> {
    fn eq_agrees() {}
}

impl<K: Key + Ord, V: ExactEq> ExactEq for BTreeMap<K, V> {
    fn eq_agrees() {
        V::eq_agrees();
    }
}
