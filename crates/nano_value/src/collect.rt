//! Collections that a reader fills, one item or entry after the other: it has one loop for all
//! lists and sets, and one for all maps.

ghost use Rattle.std.specs.Prelude.{◌≡◌, map};
ghost use Rattle.std.proofs.Common.{ap};
ghost use Rattle.nano_value.specs.Meaning.{listed};
ghost use Rattle.nano_value.specs.Sets.{items_mean};
ghost use Rattle.nano_value.specs.Tables.{map_means};
ghost use Rattle.nano_value.specs.Collected.{HoldsSet, HoldsOrderedSet, HoldsTable};
ghost use Rattle.nano_value.specs.Collected.{HoldsOrderedTable};
ghost use Rattle.nano_meaning.proofs.LastValuesLaws.{set_is_whole, ordered_set_is_whole};
ghost use Rattle.nano_meaning.proofs.LastValuesLaws.{table_is_whole, ordered_table_is_whole};

use crate::value::{Key, Value};
use std::alloc::{AllocError, Global};
use std::collections::{BTreeMap, BTreeSet, HashMap, HashSet, LinkedList};
use std::hash::Hash;

/// A collection that readers fill with items: a list, or a set. It is no part of a format, whose
/// encodings stand for what a collection means.
///
/// A reader knows what it put in, in which order, and by `is_whole` what the collection means then,
/// whatever its type.
pub trait Collect<T: Value>: Value + Drop {
    ghost use Rattle.std.specs.Prelude.{◌≡◌, ◌++◌, ◌∷◌, [], List, OnOk};
    ghost use Rattle.nano_value.specs.Meaning.{Meaning};

    /// What a collection means that was filled with items of these meanings, in this order.
    ghost whole: { List Meaning → Meaning };

    /// Holds of a collection and the meanings of what was put into it, in this order.
    ghost holds: { Self → List Meaning → Type 0 };

    /// A collection with nothing in it. It allocates nothing.
    fn empty(alloc: Global) -> Self
        ensures { holds result [] };

    /// Puts an item in, after those that were. If allocation fails, what is held is not known.
    fn put(&mut self, item: T) -> Result<(), AllocError>
        ensures { OnOk result ((items : List Meaning) → holds self.old items
            → holds self.new (items ++ T.means item ∷ [])) };

    /// A collection means what was put into it comes to.
    ghost is_whole: { (x : Self) (items : List Meaning) → holds x items
        → Self.means x ≡ whole items };
}

/// A collection that readers fill with keys and their values: a map. It is no part of a format,
/// whose encodings stand for what a collection means.
///
/// A reader knows what it put in, in which order, and by `is_whole` what the collection means then,
/// whatever its type.
pub trait CollectEntries<K: Value, V: Value>: Value + Drop {
    ghost use Rattle.std.specs.Prelude.{◌≡◌, ◌++◌, ◌∷◌, [], List, OnOk};
    ghost use Rattle.nano_value.specs.Meaning.{Meaning};

    /// What a collection means that was filled with keys and values of these meanings, in this
    /// order.
    ghost whole: { List (Meaning × Meaning) → Meaning };

    /// Holds of a collection and the meanings of the keys and values that were put into it, in
    /// this order.
    ghost holds: { Self → List (Meaning × Meaning) → Type 0 };

    /// A collection with nothing in it. It allocates nothing.
    fn empty(alloc: Global) -> Self
        ensures { holds result [] };

    /// Puts a key with its value in, after those that were. If allocation fails, what is held is
    /// not known.
    fn put(&mut self, key: K, value: V) -> Result<(), AllocError>
        ensures { OnOk result ((entries : List (Meaning × Meaning)) → holds self.old entries
            → holds self.new (entries ++ (K.means key, V.means value) ∷ [])) };

    /// A collection means what was put into it comes to.
    ghost is_whole: { (x : Self) (entries : List (Meaning × Meaning)) → holds x entries
        → Self.means x ≡ whole entries };
}

impl<T: Value + Drop> Collect<T> for Vec<T> {
    ghost whole = { listed };

    ghost holds = { λ x items. map T.means x.items ≡ items };

    ghost is_whole = { λ x items held. ap listed held };

    #[inline]
    fn empty(alloc: Global) -> Vec<T> {
        Vec::new(alloc)
    }

    #[inline]
    fn put(&mut self, item: T) -> Result<(), AllocError> {
        self.push(item)?;
        Ok(())
    }
}

impl<T: Value + Drop> Collect<T> for LinkedList<T> {
    ghost whole = { listed };

    ghost holds = { λ x items. map T.means x ≡ items };

    ghost is_whole = { λ x items held. ap listed held };

    #[inline]
    fn empty(alloc: Global) -> LinkedList<T> {
        LinkedList::new(alloc)
    }

    #[inline]
    fn put(&mut self, item: T) -> Result<(), AllocError> {
        self.push_back(item)?;
        Ok(())
    }
}

impl<T: Key + Hash + Drop> Collect<T> for HashSet<T> {
    ghost whole = { items_mean };

    ghost holds = { λ x items. HoldsSet T.eq T.means x.keys items };

    ghost is_whole = { λ x items held. set_is_whole held };

    #[inline]
    fn empty(alloc: Global) -> HashSet<T> {
        HashSet::new(alloc)
    }

    #[inline]
    fn put(&mut self, item: T) -> Result<(), AllocError> {
        let _added = self.insert(item)?;
        Ok(())
    }
}

impl<T: Key + Ord + Drop> Collect<T> for BTreeSet<T> {
    ghost whole = { items_mean };

    ghost holds = { λ x items. HoldsOrderedSet T.cmp T.means x.keys items };

    ghost is_whole = { λ x items held. ordered_set_is_whole held };

    #[inline]
    fn empty(alloc: Global) -> BTreeSet<T> {
        BTreeSet::new(alloc)
    }

    #[inline]
    fn put(&mut self, item: T) -> Result<(), AllocError> {
        let _added = self.insert(item)?;
        Ok(())
    }
}

impl<K: Key + Hash + Drop, V: Value + Drop> CollectEntries<K, V> for HashMap<K, V> {
    ghost whole = { map_means };

    ghost holds = { λ x entries. HoldsTable K.eq K.means V.means x.entries entries };

    ghost is_whole = { λ x entries held. table_is_whole held };

    #[inline]
    fn empty(alloc: Global) -> HashMap<K, V> {
        HashMap::new(alloc)
    }

    #[inline]
    fn put(&mut self, key: K, value: V) -> Result<(), AllocError> {
        let _old = self.insert(key, value)?;
        Ok(())
    }
}

impl<K: Key + Ord + Drop, V: Value + Drop> CollectEntries<K, V> for BTreeMap<K, V> {
    ghost whole = { map_means };

    ghost holds = { λ x entries. HoldsOrderedTable K.cmp K.means V.means x.entries entries };

    ghost is_whole = { λ x entries held. ordered_table_is_whole held };

    #[inline]
    fn empty(alloc: Global) -> BTreeMap<K, V> {
        BTreeMap::new(alloc)
    }

    #[inline]
    fn put(&mut self, key: K, value: V) -> Result<(), AllocError> {
        let _replaced = self.insert(key, value)?;
        Ok(())
    }
}
