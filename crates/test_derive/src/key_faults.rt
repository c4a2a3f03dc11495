//! Types that are called keys and are none, and the fault of each, after `=> `. A line of hyphens
//! parts them.

/// The type is none that can be a key.
pub(crate) const KEYS: &str = r#"// nanoserde: json key
#[derive(PartialEq, Eq, PartialOrd, Hash, Drop)]
struct A(u8);
=> 1:20: `key` is for a type that is compared and hashed
----
// nanoserde: json key
struct A(u8);
=> 1:20: `key` is for a type that is compared and hashed
----
// nanoserde: json key
#[derive(PartialEq, Eq, PartialOrd, Ord, Hash)]
struct A(u8, u16, u32, u64, bool);
=> 1:20: `key` is for structs of one to four parts: one of more is no key
----
// nanoserde: bin, key
#[derive(PartialEq, Eq, PartialOrd, Ord, Hash)]
struct A {
    a: u8,
}
=> 1:20: `key` is for structs whose parts have no names
----
#[derive(PartialEq, Eq)]
#[derive(PartialOrd, Ord, Hash)]
// nanoserde: key ron
enum A {
    B,
    C(u8),
}
=> 3:15: `key` is for enums whose variants have no content
----
// nanoserde: ron key
#[derive(PartialEq, Eq, PartialOrd, Ord, Hash)]
enum A {
    B,
    C { d: u8 },
}
=> 1:19: `key` is for enums whose variants have no content
----
// nanoserde: key
#[derive(PartialEq, Eq, PartialOrd, Ord, Hash)]
struct A(u8);
=> 1:15: `key` stands in a type with no formats
----
// nanoserde: json key, key
#[derive(PartialEq, Eq, PartialOrd, Ord, Hash)]
struct A(u8);
=> 1:25: `key` stands twice
----
// nanoserde: json
struct A {
    // nanoserde: key
    a: u8,
}
=> 3:19: `key` stands only above a struct or an enum"#;

/// A part is none that a key has.
pub(crate) const PARTS: &str = r#"// nanoserde: json key
#[derive(PartialEq, Eq, PartialOrd, Ord, Hash)]
struct A(Vec<u8>);
=> 3:10: `Vec` is in no key
----
// nanoserde: json key
#[derive(PartialEq, Eq, PartialOrd, Ord, Hash)]
struct A(u8, (String, Option<u8>));
=> 3:23: `Option` is in no key
----
// nanoserde: json key
#[derive(PartialEq, Eq, PartialOrd, Ord, Hash)]
struct A([u8; 2]);
=> 3:10: `[` is in no key
----
// nanoserde: json key
#[derive(PartialEq, Eq, PartialOrd, Ord, Hash)]
struct A(std::string::String);
=> 3:10: `std` is in no key
----
// nanoserde: json key
#[derive(PartialEq, Eq, PartialOrd, Ord, Hash)]
struct A(B);
// nanoserde: json key
#[derive(PartialEq, Eq, PartialOrd, Ord, Hash)]
struct B(u8);
=> 3:10: `B` is in no key
----
// nanoserde: json
#[derive(PartialEq, Eq, PartialOrd, Ord, Hash)]
struct B(u8);
// nanoserde: json key
#[derive(PartialEq, Eq, PartialOrd, Ord, Hash)]
struct A(B);
=> 6:10: `B` is in no key
----
// nanoserde: json key
#[derive(PartialEq, Eq, PartialOrd, Ord, Hash)]
struct B<T>(T);
// nanoserde: json key
#[derive(PartialEq, Eq, PartialOrd, Ord, Hash)]
struct A(B<u8>);
=> 6:10: `B` is in no key
----
// nanoserde: json key
#[derive(PartialEq, Eq, PartialOrd, Ord, Hash)]
struct A((u8, u8, u8, u8, u8), u8);
=> 3:10: `(` is in no key"#;
