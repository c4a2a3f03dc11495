//! Sources with types that contain themselves within collections, and the fault of each.

/// A collection stands in such a type in a way that is not written.
pub(crate) const COLLECTIONS: &str = r#"use std::collections::HashMap;

// nanoserde: bin
struct A {
    a: HashMap<String, A>,
}
=> 5:24: `A` leads to the type itself within a tuple, an array or another collection
----
use std::collections::BTreeMap;

// nanoserde: bin
struct A {
    a: BTreeMap<u128, A>,
}
=> 5:17: `u128` is no key of a map or a set in a type that contains itself
----
use std::collections::BTreeMap;

// nanoserde: json
struct A {
    a: Option<BTreeMap<Option<u8>, A>>,
}
=> 5:24: `Option` is no key of a map or a set in a type that contains itself
----
use std::collections::BTreeMap;

// nanoserde: ron
enum A {
    B(BTreeMap<Box<A>, u8>),
}
=> 5:16: `Box` is no key of a map or a set in a type that contains itself
----
use std::collections::BTreeMap;

// nanoserde: json ron
struct A {
    a: BTreeMap<u8, Option<A>>,
}
=> 5:8: `BTreeMap` has an `Option` of the type that contains itself within it
----
use std::collections::BTreeMap;

// nanoserde: bin
struct A {
    a: Vec<A>,
    b: BTreeMap<u8, (u8, u8, u8, u8, bool)>,
}
=> 6:21: `(` stands in a type that contains itself
----
// nanoserde: bin
enum A {
    B(Vec<(u8, A)>),
}
=> 3:16: `A` leads to the type itself within a tuple, an array or another collection
----
// nanoserde: bin
enum A {
    B { a: Box<[A; 2]> },
}
=> 3:17: `A` leads to the type itself within a tuple, an array or another collection
----
// nanoserde: bin
struct A {
    a: Vec<A>,
    b: [u8; N],
}
=> 4:8: `[` stands in a type that contains itself
----
// nanoserde: bin
struct A<T> {
    a: Vec<A<T>>,
    b: Option<(u8, Vec<T>)>,
}
=> 4:20: `Vec` leads to a type parameter within a tuple, an array or another collection
----
use std::collections::HashSet;

// nanoserde: bin
struct A {
    a: Vec<A>,
    b: HashSet<u128>,
}
=> 6:16: `u128` is no key of a map or a set in a type that contains itself
----
use std::collections::BTreeSet;

// nanoserde: bin
struct A {
    a: Vec<A>,
    b: [BTreeSet<(u8, u8)>; 2],
}
=> 6:18: `(` is no key of a map or a set in a type that contains itself
----
// nanoserde: bin
struct A {
    a: Vec<A>,
    b: [u8; 0x2],
}
=> 4:13: `0x2` is no length of an array in a type that contains itself
----
// nanoserde: json
struct A {
    a: Vec<A>,
    b: Option<[u8; 2usize]>,
}
=> 4:20: `2usize` is no length of an array in a type that contains itself
----
// nanoserde: ron
enum A {
    B(Vec<A>, [u8; 1_000]),
}
=> 3:20: `1_000` is no length of an array in a type that contains itself
----
// nanoserde: bin
struct A {
    a: Vec<A>,
    b: [u8; 02],
}
=> 4:13: `02` is no length of an array in a type that contains itself"#;
