//! Sources and the fault of each, after `=> `. A line of hyphens parts them. They are texts, since
//! a table of pairs takes longer to prove the more of them it has.

/// What stands above `mod derived;` is no struct or enum, or no whole one.
pub(crate) const ITEMS: &str = r#"union A {
    a: u8,
}
=> 1:1: `union` is no type that can be read and written
----
struct A {
    a: u8,
}

pub fn f() {}
=> 5:5: `fn` stands where a struct or an enum
----
impl A {}
=> 1:1: `impl` stands where
----
mod a {}
=> 1:7: `{` begins a module
----
struct A();
=> 1:10: `)` stands where a type is wanted: leave
----
enum A { B() }
=> 1:12: `)` stands where a type is wanted: leave
----
struct A {
    a: u8
=> 1:10: `{` is closed by no `}`
----
struct A {
    a: u8,
    a: u8,
}
=> 3:5: `a` stands twice
----
enum A {
    B,
    B(u8),
}
=> 3:5: `B` stands twice
----
struct A(u8);
enum A {
    B,
}
=> 2:6: `A` stands twice
----
struct A(u8, u16, u32, u64, u8, u16, u32, u64, bool);
=> 1:48: `bool` begins a ninth part: a struct has one to eight
----
enum A {
    B(u8, u16, u32, u64, bool),
}
=> 2:26: `bool` begins a fifth part: a variant has one to four
----
/* x
=> 1:1: this has no end
----
struct A(u8);
=> 2:1: no struct or enum has a line"#;

/// A field has a type that is not known here, or that has no format.
pub(crate) const TYPES: &str = r#"struct A<'a> {
    a: &'a str,
}
=> 1:10: `'a` is a lifetime
----
struct A {
    a: Vec<::std::string::String>,
}
=> 2:12: `::` begins no path here
----
struct A {
    a: super::,
}
=> 2:15: `,` stands where a name is wanted
----
struct A {
    a: crate,
}
=> 2:13: `,` stands where `::` is wanted
----
struct A {
    a: &'a str,
}
=> 2:8: `&` begins no type
----
struct A {
    a: fn(u8),
}
=> 2:8: `fn` begins no type
----
struct A {
    a: Strng,
}
=> 2:8: `Strng` is no type that is known
----
struct A {
    a: Vec<Option<Strng>>,
}
=> 2:19: `Strng` is no type that is known
----
struct A {
    a: [u8; ],
}
=> 2:13: `]` stands where a name is wanted
----
struct A {
    a: Vec<u8,
}
=> 3:1: `}` stands where a type is wanted
----
struct A {
    a: f64,
}
=> 2:8: `f64` is a type that has no format here
----
// nanoserde: json
struct A {
    a: u128,
}
=> 3:8: `u128` is a type that has bytes
----
// nanoserde: json
struct A<T> {
    a: Vec<BTreeMap<u8, T>>,
}
=> 3:12: `BTreeMap` is no type that is known
----
use std::collections::BTreeMap;
// nanoserde: json
struct A<T> {
    a: Vec<BTreeMap<u8, T>>,
}
=> 4:25: `T` is a type parameter within a type
----
// nanoserde: json
struct A<T>([T; 2]);
=> 2:14: `T` is a type parameter within a type
----
// nanoserde: json
struct A(u8, u16, u32, u64, u8, u16, u32, Strng);
=> 2:43: `Strng` is no type that is known"#;

/// What is asked of a type parameter is no bound, or one that the impls have.
pub(crate) const BOUNDS: &str = r#"struct A<T: > {
    a: T,
}
=> 1:13: `>` stands where a trait is wanted
----
struct A<T: ?Sized> {
    a: T,
}
=> 1:13: `?` stands where a trait is wanted
----
struct A<T: Clone + 'a> {
    a: T,
}
=> 1:21: `'a` is a lifetime
----
struct A<T: Fn(u8)> {
    a: T,
}
=> 1:15: `(` stands where a comma or `>` is wanted
----
struct A<T>
where
    T,
{
    a: T,
}
=> 3:6: `,` stands where `:` and a trait are wanted
----
struct A<T, U>
where
    T: Clone
    U: Clone,
{
    a: T,
}
=> 4:5: `U` stands where a comma or the end of the bounds is wanted
----
// nanoserde: json
struct A<T: Clone, U>(T, U)
where
    U: Ord + nano_json::DeJson;
=> 4:25: `DeJson` is a bound that each impl has"#;
