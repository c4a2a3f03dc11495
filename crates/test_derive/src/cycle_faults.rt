//! Sources with types that contain each other, and what is wrong with each.

/// Types contain each other.
pub(crate) const CYCLES: &str = r#"// nanoserde: json
struct A {
    a: Vec<B>,
}

// nanoserde: json
struct B {
    a: Option<A>,
}
=> 2:8: `A` is one of types that contain each other: `#[cycle(name)]` stands above each
----
// nanoserde: json
#[cycle(a)]
struct A {
    a: Vec<B>,
}

// nanoserde: json ron
#[cycle(a)]
struct B {
    a: Option<A>,
}
=> 9:8: `B` is one of types that contain each other: the same line with formats stands above
----
// nanoserde: json
#[cycle(a)]
struct A {
    a: Vec<B>,
}

#[cycle(a)]
struct B {
    a: Option<A>,
}
=> 8:8: `B` is one of types that contain each other: the same line with formats stands above
----
// nanoserde: json
#[cycle(a)]
struct A {
    a: Vec<B>,
}

// nanoserde: json levels = "3"
#[cycle(a)]
struct B {
    a: Option<A>,
}
=> 7:29: `"3"` stands above a type whose levels are not counted
----
// nanoserde: bin
#[cycle(a)]
enum A {
    C(u8),
    D { a: Box<B> },
}

// nanoserde: bin
#[cycle(a)]
struct B(u8, C);

// nanoserde: bin
#[cycle(a)]
enum C {
    E,
    F(Vec<A>),
}
=> 10:8: `B` is a tuple struct that contains itself: give its parts names
----
// nanoserde: bin
enum A {
    C(u8, Box<B>),
    D(Box<A>),
}

// nanoserde: bin
enum B {
    E(Box<B>),
    F(Vec<A>),
}
=> 3:15: `B` leads back to the type that it stands in
----
// nanoserde: bin
struct A {
    a: Vec<A>,
    b: Vec<B>,
}

// nanoserde: bin
struct B {
    a: Vec<A>,
    b: Vec<B>,
}
=> 4:12: `B` leads back to the type that it stands in
----
// nanoserde: bin
#[cycle(a)]
struct A {
    a: Vec<Option<B>>,
}

// nanoserde: bin
#[cycle(a)]
struct B {
    a: Vec<A>,
}
=> 4:8: `Vec` has an `Option` of the type that contains itself within it
----
use std::collections::BTreeMap;

// nanoserde: bin
struct A {
    a: BTreeMap<String,>,
    b: Vec<A>,
}
=> 5:8: `BTreeMap` stands in a type that contains itself: a part of one is"#;
