//! What a field that is missing has in its place.

ghost use Rattle.std.specs.Prelude.{◌≡◌, IfOk, [], false};
ghost use Rattle.nano_value.specs.Meaning.{Meaning, nothing, text, truth};

use nano_value::{Key, Value};
use std::alloc::{AllocError, Global};
use std::collections::{BTreeMap, BTreeSet, HashMap, HashSet, LinkedList};
use std::hash::Hash;

/// The value of a field that is missing. A type stands for it, as one stands for a name.
pub trait DefaultOf<T: Value> {
    /// What it means.
    ghost missing: { Meaning };

    /// The value.
    fn default(alloc: Global) -> Result<T, AllocError>
        ensures { IfOk result (λ value. T.means value ≡ missing) };
}

/// The default of a type of the standard library: zero, `false`, `None`, or no items.
#[derive(Drop)]
pub struct TypeDefault {}

impl DefaultOf<bool> for TypeDefault {
    ghost missing = { truth false };

    fn default(_alloc: Global) -> Result<bool, AllocError> {
        Ok(false)
    }
}

impl DefaultOf<()> for TypeDefault {
    ghost missing = { nothing };

    fn default(_alloc: Global) -> Result<(), AllocError> {
        Ok(())
    }
}

impl DefaultOf<String> for TypeDefault {
    ghost missing = { text [] };

    fn default(alloc: Global) -> Result<String, AllocError> {
        Ok(String::new(alloc))
    }
}

impl<T: Value> DefaultOf<Option<T>> for TypeDefault {
    ghost missing = { nothing };

    fn default(_alloc: Global) -> Result<Option<T>, AllocError> {
        Ok(None)
    }
}

impl<T: Value> DefaultOf<Vec<T>> for TypeDefault {
    ghost missing = { nothing };

    fn default(alloc: Global) -> Result<Vec<T>, AllocError> {
        Ok(Vec::new(alloc))
    }
}

impl<T: Value> DefaultOf<LinkedList<T>> for TypeDefault {
    ghost missing = { nothing };

    fn default(alloc: Global) -> Result<LinkedList<T>, AllocError> {
        Ok(LinkedList::new(alloc))
    }
}

impl<K: Key + Hash, V: Value> DefaultOf<HashMap<K, V>> for TypeDefault {
    ghost missing = { nothing };

    fn default(alloc: Global) -> Result<HashMap<K, V>, AllocError> {
        Ok(HashMap::new(alloc))
    }
}

impl<T: Key + Hash> DefaultOf<HashSet<T>> for TypeDefault {
    ghost missing = { nothing };

    fn default(alloc: Global) -> Result<HashSet<T>, AllocError> {
        Ok(HashSet::new(alloc))
    }
}

impl<K: Key + Ord, V: Value> DefaultOf<BTreeMap<K, V>> for TypeDefault {
    ghost missing = { nothing };

    fn default(alloc: Global) -> Result<BTreeMap<K, V>, AllocError> {
        Ok(BTreeMap::new(alloc))
    }
}

impl<T: Key + Ord> DefaultOf<BTreeSet<T>> for TypeDefault {
    ghost missing = { nothing };

    fn default(alloc: Global) -> Result<BTreeSet<T>, AllocError> {
        Ok(BTreeSet::new(alloc))
    }
}
