//! Which defaults are read back from JSON: each of a number, a boolean, `()` or a text, and an absent
//! value or no items.

ghost use Rattle.nano_json_schema.specs.DefaultImpls.{none_is_sound, set_is_sound, map_is_sound};
ghost use Rattle.nano_json_schema.specs.DefaultImpls.{ordered_set_is_sound, ordered_map_is_sound};
ghost use Rattle.nano_json_schema.specs.DefaultImpls.{list_is_sound};

use crate::defaulted::JsonDefaultOf;
use nano_json::JsonCodec;
use nano_schema::{DefaultOf, TypeDefault};
use nano_value::Key;
use std::collections::{BTreeMap, BTreeSet, HashMap, HashSet, LinkedList};
use std::hash::Hash;

impl<D: DefaultOf<u8>> JsonDefaultOf<u8> for D {
    ghost is_sound = { λ x e. tt };
}

impl<D: DefaultOf<u16>> JsonDefaultOf<u16> for D {
    ghost is_sound = { λ x e. tt };
}

impl<D: DefaultOf<u32>> JsonDefaultOf<u32> for D {
    ghost is_sound = { λ x e. tt };
}

impl<D: DefaultOf<u64>> JsonDefaultOf<u64> for D {
    ghost is_sound = { λ x e. tt };
}

impl<D: DefaultOf<usize>> JsonDefaultOf<usize> for D {
    ghost is_sound = { λ x e. tt };
}

impl<D: DefaultOf<i8>> JsonDefaultOf<i8> for D {
    ghost is_sound = { λ x e. tt };
}

impl<D: DefaultOf<i16>> JsonDefaultOf<i16> for D {
    ghost is_sound = { λ x e. tt };
}

impl<D: DefaultOf<i32>> JsonDefaultOf<i32> for D {
    ghost is_sound = { λ x e. tt };
}

impl<D: DefaultOf<i64>> JsonDefaultOf<i64> for D {
    ghost is_sound = { λ x e. tt };
}

impl<D: DefaultOf<bool>> JsonDefaultOf<bool> for D {
    ghost is_sound = { λ x e. tt };
}

impl<D: DefaultOf<()>> JsonDefaultOf<()> for D {
    ghost is_sound = { λ x e. tt };
}

impl<D: DefaultOf<String>> JsonDefaultOf<String> for D {
    ghost is_sound = { λ x e. tt };
}

impl<T: JsonCodec> JsonDefaultOf<Option<T>> for TypeDefault {
    ghost is_sound = { none_is_sound T.json };
}

impl<T: JsonCodec> JsonDefaultOf<Vec<T>> for TypeDefault {
    ghost is_sound = { λ x. list_is_sound T.json x.items };
}

impl<T: JsonCodec> JsonDefaultOf<LinkedList<T>> for TypeDefault {
    ghost is_sound = { list_is_sound T.json };
}

impl<K: JsonCodec + Key + Hash, V: JsonCodec> JsonDefaultOf<HashMap<K, V>> for TypeDefault {
    ghost is_sound = { λ x. map_is_sound K.order K.json V.json x.entries };
}

impl<K: JsonCodec + Key + Ord, V: JsonCodec> JsonDefaultOf<BTreeMap<K, V>> for TypeDefault {
    ghost is_sound = { λ x. ordered_map_is_sound K.order K.cmp K.json V.json x.entries };
}

impl<T: JsonCodec + Key + Hash> JsonDefaultOf<HashSet<T>> for TypeDefault {
    ghost is_sound = { λ x. set_is_sound T.order T.json x.keys };
}

impl<T: JsonCodec + Key + Ord> JsonDefaultOf<BTreeSet<T>> for TypeDefault {
    ghost is_sound = { λ x. ordered_set_is_sound T.order T.cmp T.json x.keys };
}
