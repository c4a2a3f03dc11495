//! Lists, slices and arrays: the meanings of the items, in order.

ghost use Rattle.std.specs.Prelude.{◌≡◌, ◌<◌, length, map};
ghost use Rattle.nano_value.specs.Meaning.{listed, usize_bound, LegalArray, LegalList};
ghost use Rattle.nano_meaning.proofs.OrderLaws.{lists, lists_follow};
ghost use Rattle.nano_meaning.proofs.ExactLaws.{lists_tell};

use crate::value::{Key, OrderedKey, Value};
use std::collections::LinkedList;

impl<T: Value> Value for Vec<T> {
    ghost means = { λ x. listed (map T.means x.items) };

    ghost legal = { LegalList T.legal };

    fn known(&self) {
        for item in self {
            item.known();
        }
    }
}

impl<T: Key> Key for Vec<T> {
    ghost order = { lists T.order };

    ghost exact = { λ x y. lists_tell T.means T.eq T.exact x.items y.items };
}

impl<T: Value> Value for LinkedList<T> {
    ghost means = { λ x. listed (map T.means x) };

    ghost legal = { LegalList T.legal };

    fn known(&self) {
        let _count = self.len();
        for item in self {
            item.known();
        }
    }
}

impl<T: Key> Key for LinkedList<T> {
    ghost order = { lists T.order };

    ghost exact = { lists_tell T.means T.eq T.exact };
}

/// The number of items, which a `usize` has.
fn count<T>(items: &[T]) -> usize
    ensures value { result ≡ length items.now }
    ensures fits { length items.now < usize_bound }
{
    items.len()
}

impl<T: Value> Value for &[T] {
    ghost means = { λ x. listed (map T.means x.now) };

    ghost legal = { LegalList T.legal };

    fn known(&self) {
        let _count = count(self);
        for item in *self {
            item.known();
        }
    }
}

impl<T: Key> Key for &[T] {
    ghost order = { lists T.order };

    ghost exact = { λ x y. lists_tell T.means T.eq T.exact x.now y.now };
}

impl<T: Value, const N: usize> Value for [T; N] {
    ghost means = { λ x. listed (map T.means x) };

    ghost legal = { LegalArray N T.legal };

    fn known(&self) {
        for item in self {
            item.known();
        }
    }
}

impl<T: Key, const N: usize> Key for [T; N] {
    ghost order = { lists T.order };

    ghost exact = { lists_tell T.means T.eq T.exact };
}

impl<T: OrderedKey> OrderedKey for Vec<T> {
    ghost follows = { λ x y. lists_follow T.cmp T.means T.order T.follows x.items y.items };
}

impl<T: OrderedKey, const N: usize> OrderedKey for [T; N] {
    ghost follows = { lists_follow T.cmp T.means T.order T.follows };
}

impl<T: OrderedKey> OrderedKey for LinkedList<T> {
    ghost follows = { lists_follow T.cmp T.means T.order T.follows };
}

impl<T: OrderedKey> OrderedKey for &[T] {
    ghost follows = { λ x y. lists_follow T.cmp T.means T.order T.follows x.now y.now };
}
