//! Ordered sets: each means its items, as a hash set of them does.

ghost use Rattle.nano_value.specs.Sets.{LegalSet};
ghost use Rattle.nano_meaning.proofs.OrderedSetsLaws.{sets, sets_follow, ordered_tell};
ghost use Rattle.nano_value.specs.Ordered.{ordered_means};

use crate::value::{Key, OrderedKey, Value};
use std::collections::BTreeSet;

impl<T: Key + Ord> Value for BTreeSet<T> {
    ghost means = { λ x. ordered_means T.cmp T.means x.keys };

    ghost legal = { LegalSet T.legal };

    fn known(&self) {
        for item in self {
            item.known();
        }
    }
}

impl<T: Key + Ord> Key for BTreeSet<T> {
    ghost order = { sets T.order };

    ghost exact = { λ x y. ordered_tell T.cmp T.eq T.means T.total T.matches_eq T.exact x.keys
        y.keys };
}

impl<T: OrderedKey> OrderedKey for BTreeSet<T> {
    ghost follows = { λ x y. sets_follow T.cmp T.means T.order T.follows x.keys y.keys };
}
