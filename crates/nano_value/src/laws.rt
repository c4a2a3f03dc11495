//! What tables and orders of entries are, each the contract of a function.
//!
//! A caller in generic code that needs one of these facts calls the function; none of them does
//! anything else.
ghost use Rattle.std.specs.Prelude.{◌≡◌, ◌↔◌, Decides, List, map};
ghost use Rattle.nano_value.specs.Meaning.{Meaning, pair_map};
ghost use Rattle.nano_value.specs.Tables.{Table, table_of, HoldsLastValues};

use crate::exact_eq::ExactEq;
use crate::value::{Key, Value};
pub use nano_meaning::laws::ascending_is_in_order;
use std::collections::HashMap;
use std::hash::Hash;

/// The table that a map of entries means is the one that has, for each key that occurs, the value
/// of the key's last pair, and nothing else.
pub fn tables_hold_last_values<K: Value, V: Value>()
    ensures { (entries : List (K × V)) (t : Table Meaning) →
        (t ≡ table_of K.means V.means entries)
        ↔ HoldsLastValues (map (pair_map K.means V.means) entries) t }
{}

/// Two hash maps are equal by `==` exactly where they mean the same, if `==` of their values is
/// exact.
pub fn equal_maps_mean_the_same<K: Key + Hash, V: ExactEq>(
    one: &HashMap<K, V>,
    other: &HashMap<K, V>,
)
    ensures { Decides (⟦<HashMap<K, V> as PartialEq>⟧.eq one.now other.now)
        (⟦<HashMap<K, V> as Value>⟧.means one.now ≡ ⟦<HashMap<K, V> as Value>⟧.means other.now) }
{
    V::eq_agrees();
    let _one = one.len();
    let _other = other.len();
}
