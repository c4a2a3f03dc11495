//! A shelf.

use std::collections::BTreeMap;

// nanoserde: bin json ron
/// A shelf.
#[derive(PartialEq, Debug, Drop)]
pub struct Shelf<K, V> {
    /// Its name.
    pub name: K,
    /// What stands on it.
    pub values: BTreeMap<String, V>,
    /// The best of these.
    pub best: Option<V>,
    /// The shelves in it.
    pub inner: Vec<Shelf<K, V>>,
}

mod derived;
