//! Which defaults are read back from RON: each of a number, a boolean, `()` or a text, and an absent
//! value or no items.

ghost use Rattle.nano_ron_schema.specs.DefaultImpls.{none_is_sound, set_is_sound, map_is_sound};
ghost use Rattle.nano_ron_schema.specs.DefaultImpls.{ordered_set_is_sound, ordered_map_is_sound};
ghost use Rattle.nano_ron_schema.specs.DefaultImpls.{vector_is_sound, linked_is_sound};

use crate::defaulted::RonDefaultOf;
use nano_ron::RonCodec;
use nano_schema::{DefaultOf, TypeDefault};
use nano_value::Key;
use std::collections::{BTreeMap, BTreeSet, HashMap, HashSet, LinkedList};
use std::hash::Hash;

impl<D: DefaultOf<u8>> RonDefaultOf<u8> for D {
    ghost is_sound = { λ x e. tt };
}

impl<D: DefaultOf<u16>> RonDefaultOf<u16> for D {
    ghost is_sound = { λ x e. tt };
}

impl<D: DefaultOf<u32>> RonDefaultOf<u32> for D {
    ghost is_sound = { λ x e. tt };
}

impl<D: DefaultOf<u64>> RonDefaultOf<u64> for D {
    ghost is_sound = { λ x e. tt };
}

impl<D: DefaultOf<usize>> RonDefaultOf<usize> for D {
    ghost is_sound = { λ x e. tt };
}

impl<D: DefaultOf<i8>> RonDefaultOf<i8> for D {
    ghost is_sound = { λ x e. tt };
}

impl<D: DefaultOf<i16>> RonDefaultOf<i16> for D {
    ghost is_sound = { λ x e. tt };
}

impl<D: DefaultOf<i32>> RonDefaultOf<i32> for D {
    ghost is_sound = { λ x e. tt };
}

impl<D: DefaultOf<i64>> RonDefaultOf<i64> for D {
    ghost is_sound = { λ x e. tt };
}

impl<D: DefaultOf<bool>> RonDefaultOf<bool> for D {
    ghost is_sound = { λ x e. tt };
}

impl<D: DefaultOf<()>> RonDefaultOf<()> for D {
    ghost is_sound = { λ x e. tt };
}

impl<D: DefaultOf<String>> RonDefaultOf<String> for D {
    ghost is_sound = { λ x e. tt };
}

impl<T: RonCodec> RonDefaultOf<Option<T>> for TypeDefault {
    ghost is_sound = { none_is_sound T.ron };
}

impl<T: RonCodec> RonDefaultOf<Vec<T>> for TypeDefault {
    ghost is_sound = { λ x. vector_is_sound T.ron x.items };
}

impl<T: RonCodec> RonDefaultOf<LinkedList<T>> for TypeDefault {
    ghost is_sound = { linked_is_sound T.ron };
}

impl<K: RonCodec + Key + Hash, V: RonCodec> RonDefaultOf<HashMap<K, V>> for TypeDefault {
    ghost is_sound = { λ x. map_is_sound K.order K.ron V.ron x.entries };
}

impl<K: RonCodec + Key + Ord, V: RonCodec> RonDefaultOf<BTreeMap<K, V>> for TypeDefault {
    ghost is_sound = { λ x. ordered_map_is_sound K.order K.cmp K.ron V.ron x.entries };
}

impl<T: RonCodec + Key + Hash> RonDefaultOf<HashSet<T>> for TypeDefault {
    ghost is_sound = { λ x. set_is_sound T.order T.ron x.keys };
}

impl<T: RonCodec + Key + Ord> RonDefaultOf<BTreeSet<T>> for TypeDefault {
    ghost is_sound = { λ x. ordered_set_is_sound T.order T.cmp T.ron x.keys };
}
