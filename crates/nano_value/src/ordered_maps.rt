//! Ordered maps: each means the table of its entries, as a hash map of them does.

ghost use Rattle.nano_value.specs.Tables.{LegalMap};
ghost use Rattle.nano_meaning.proofs.OrderedMapsLaws.{maps, maps_follow, ordered_maps_tell};
ghost use Rattle.nano_value.specs.Ordered.{ordered_map_means};

use crate::value::{Key, OrderedKey, Value};
use std::collections::BTreeMap;

impl<K: Key + Ord, V: Value> Value for BTreeMap<K, V> {
    ghost means = { λ x. ordered_map_means K.cmp K.means V.means x.entries };

    ghost legal = { LegalMap K.legal V.legal };

    fn known(&self) {
        for (key, value) in self {
            key.known();
            value.known();
        }
    }
}

impl<K: Key + Ord, V: Key> Key for BTreeMap<K, V> {
    ghost order = { maps K.order V.order };

    ghost exact = { λ x y. ordered_maps_tell K.cmp K.eq K.means V.eq V.means K.total K.matches_eq
        K.exact V.exact x.entries y.entries };
}

impl<K: OrderedKey, V: OrderedKey> OrderedKey for BTreeMap<K, V> {
    ghost follows = { λ x y. maps_follow K.cmp K.means K.order K.follows V.means V.cmp V.order
        V.follows x.entries y.entries };
}
