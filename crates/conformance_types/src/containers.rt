//! The outcome of an input as a container, through the bounds of what it contains. That a container
//! is read and written is proved here, once for all types of items.

use crate::format::Format;
use crate::outcome::Outcome;
use crate::reads::of_type;
use nanoserde::records::Holder;
use nanoserde::{DeBin, DeJson, DeRon, OrderedKey, SerBin, SerJson, SerRon};
use std::alloc::{AllocError, Global};
use std::collections::{BTreeMap, BTreeSet, HashMap, HashSet};
use std::hash::Hash;

/// The outcome as a list.
pub(crate) fn of_list<T: SerBin + DeBin + SerJson + DeJson + SerRon + DeRon>(
    alloc: Global,
    format: Format,
    input: &[u8],
) -> Result<Outcome, AllocError> {
    of_type::<Vec<T>>(alloc, format, input)
}

/// The outcome as an option.
pub(crate) fn of_option<T: SerBin + DeBin + SerJson + DeJson + SerRon + DeRon>(
    alloc: Global,
    format: Format,
    input: &[u8],
) -> Result<Outcome, AllocError> {
    of_type::<Option<T>>(alloc, format, input)
}

/// The outcome as a struct that holds one value.
pub(crate) fn of_holder<T: SerBin + DeBin + SerJson + DeJson + SerRon + DeRon>(
    alloc: Global,
    format: Format,
    input: &[u8],
) -> Result<Outcome, AllocError> {
    of_type::<Holder<T>>(alloc, format, input)
}

/// The outcome as a hashed set.
pub(crate) fn of_hash_set<T>(
    alloc: Global,
    format: Format,
    input: &[u8],
) -> Result<Outcome, AllocError>
where
    T: SerBin + DeBin + SerJson + DeJson + SerRon + DeRon + OrderedKey + Hash,
{
    of_type::<HashSet<T>>(alloc, format, input)
}

/// The outcome as an ordered set.
pub(crate) fn of_tree_set<T>(
    alloc: Global,
    format: Format,
    input: &[u8],
) -> Result<Outcome, AllocError>
where
    T: SerBin + DeBin + SerJson + DeJson + SerRon + DeRon + OrderedKey,
{
    of_type::<BTreeSet<T>>(alloc, format, input)
}

/// The outcome as a hashed map.
pub(crate) fn of_hash_map<K, V>(
    alloc: Global,
    format: Format,
    input: &[u8],
) -> Result<Outcome, AllocError>
where
    K: SerBin + DeBin + SerJson + DeJson + SerRon + DeRon + OrderedKey + Hash,
    V: SerBin + DeBin + SerJson + DeJson + SerRon + DeRon,
{
    of_type::<HashMap<K, V>>(alloc, format, input)
}

/// The outcome as an ordered map.
pub(crate) fn of_tree_map<K, V>(
    alloc: Global,
    format: Format,
    input: &[u8],
) -> Result<Outcome, AllocError>
where
    K: SerBin + DeBin + SerJson + DeJson + SerRon + DeRon + OrderedKey,
    V: SerBin + DeBin + SerJson + DeJson + SerRon + DeRon,
{
    of_type::<BTreeMap<K, V>>(alloc, format, input)
}
