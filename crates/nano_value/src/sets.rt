//! Sets: each means its items, in whatever order they are walked.

ghost use Rattle.nano_value.specs.Sets.{item_set, set_means, LegalSet};

use crate::value::{Key, Value};
use std::collections::HashSet;
use std::hash::Hash;

impl<T: Key + Hash> Value for HashSet<T> {
    ghost means = { λ x. set_means (item_set T.means x.keys) };

    ghost legal = { LegalSet T.legal };

    fn known(&self) {
        for item in self {
            item.known();
        }
    }
}
