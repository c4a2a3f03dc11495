//! Hash maps: each means the table of its entries, in whatever order they are walked.

ghost use Rattle.nano_value.specs.Tables.{table_of, table_means, LegalMap};

use crate::value::{Key, Value};
use std::collections::HashMap;
use std::hash::Hash;

impl<K: Key + Hash, V: Value> Value for HashMap<K, V> {
    ghost means = { λ x. table_means (table_of K.means V.means x.entries) };

    ghost legal = { LegalMap K.legal V.legal };

    fn known(&self) {
        for (key, value) in self {
            key.known();
            value.known();
        }
    }
}
