//! Boxes: each means its content.

use crate::value::{Key, OrderedKey, Value};

impl<T: Value> Value for Box<T> {
    ghost means = { λ x. T.means x.value };

    ghost legal = { T.legal };

    fn known(&self) {
        (**self).known();
    }
}

impl<T: Key> Key for Box<T> {
    ghost order = { T.order };

    ghost exact = { λ x y. T.exact x.value y.value };
}

impl<T: OrderedKey> OrderedKey for Box<T> {
    ghost follows = { λ x y. T.follows x.value y.value };
}
