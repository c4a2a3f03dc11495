//! Sources as they are written in Rust or for other crates, and what is said of each, as in
//! `faults`.

/// A bracket has no end, or an item has a form of Rust that is none here.
pub(crate) const FORMS: &str = r#"// nanoserde: json
struct A {
    a: u8,

// nanoserde: json
struct B {
    b: u8,
}
=> 2:10: `{` is closed by no `}`
----
struct A(u8, u16
=> 1:9: `(` is closed by no `)`
----
struct A {
    a: [u8; 2,
}
=> 2:8: `[` is closed by no `]`
----
#[derive(Debug
struct A {
    a: u8,
}
=> 1:9: `(` is closed by no `)`
----
struct A {
    a: u8,
}
}
=> 4:1: `}` closes no bracket
----
struct A {
    a: Vec<u8,
    b: u8,
}
=> 3:6: `:` stands where a comma or `>` is wanted
----
struct A {
    a: [u8; 2, 3],
}
=> 2:14: `,` stands where `]` is wanted
----
enum A {
    B = 1,
}
=> 2:7: `=` gives a variant a number
----
enum A {
    B(u8) = 1,
}
=> 2:11: `=` gives a variant a number
----
struct A<T = u8> {
    a: T,
}
=> 1:12: `=` stands where a comma or `>` is wanted
----
struct A {
    r#type: u8,
}
=> 2:5: `r` begins a raw name
----
struct A {
    a: r#B,
}
=> 2:8: `r` begins a raw name
----
enum A {
    r#B,
}
=> 2:5: `r` begins a raw name
----
// nanoserde: json
union A {
    a: u8,
}
=> 2:1: `union` is no type"#;

/// A comment is meant to be an attribute, and is none.
pub(crate) const COMMENTS: &str = r#"//nanoserde: json
struct A(u8);
=> 1:1: an attribute begins with `// nanoserde:`
----
//  nanoserde: json
struct A(u8);
=> 1:1: an attribute begins with `// nanoserde:`
----
// nanoserde json
struct A(u8);
=> 1:1: an attribute begins with `// nanoserde:`
----
// nanoserde json, ron
struct A(u8);
=> 1:1: an attribute begins with `// nanoserde:`
----
// Nanoserde: json
struct A(u8);
=> 1:1: an attribute begins with `// nanoserde:`
----
// nanoserde : json
struct A(u8);
=> 1:1: an attribute begins with `// nanoserde:`
----
/* nanoserde: json */
struct A(u8);
=> 1:1: an attribute begins with `// nanoserde:`
----
///nanoserde: json
struct A(u8);
=> 1:1: a doc comment is no attribute
----
// nanoserde: json
struct A {
    // nanoserde rename = "b"
    a: u8,
}
=> 3:5: an attribute begins with
----
// nanoserde:
struct A(u8);
=> 1:14: the end of the line stands where an attribute
----
// nanoserde json is read and written.
// Nanoserde: see the guide.
struct A(u8);
=> 4:1: no struct or enum has a line"#;

/// An attribute or a type is one of Rust or of another crate.
pub(crate) const OTHERS: &str = r#"#[derive(Serialize, SerJson)]
struct A(u8);
=> 1:21: `SerJson` is no macro here
----
// nanoserde: json
#[serde(rename_all = "camelCase")]
struct A {
    a: u8,
}
=> 2:3: `serde` is written as a comment
----
// nanoserde: json
struct A {
    #[serde(rename = "b")]
    a: u8,
}
=> 3:7: `serde` is written as a comment
----
// nanoserde: json
#[cfg(test)]
struct A {
    a: u8,
}
=> 2:3: `cfg` leaves out
----
// nanoserde: json
enum A {
    #[cfg(b)]
    B,
}
=> 3:7: `cfg` leaves out
----
// nanoserde: transparent
struct A(u8);
=> 1:15: `transparent` stands in a type with no formats
----
struct A {
    a: char,
}
=> 2:8: `char` is a type that has no format here: write `String`
----
struct A {
    a: Vec<isize>,
}
=> 2:12: `isize` is a type that has no format here: write `i64`
----
struct A {
    a: Rc<u8>,
}
=> 2:8: `Rc` is a type that has no format here
----
use std::rc::{Rc, Weak};
struct A {
    a: Option<Rc<u8>>,
}
=> 3:15: `Rc` is a type that has no format here
----
struct A {
    a: std::sync::Arc<u8>,
}
=> 2:19: `Arc` is a type that has no format here"#;
