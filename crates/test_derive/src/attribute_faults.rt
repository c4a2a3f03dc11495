//! Sources with an attribute at fault, and what is said of each, as in `faults`.

/// An attribute has no meaning where it stands.
pub(crate) const ATTRIBUTES: &str = r#"// nanoserde: bin jsn
struct A(u8);
=> 1:19: `jsn` is no attribute
----
// nanoserde: json
use a::b;
=> 1:15: `json` stands above no struct
----
// nanoserde: skip
struct A(u8);
=> 1:15: `skip` stands only above a field
----
// nanoserde: json
struct A(
    // nanoserde: default
    u8,
);
=> 3:19: `default` stands only above a field
----
// nanoserde: json
enum A {
    // nanoserde: default
    B,
}
=> 3:19: `default` stands only above a field
----
struct A {
    // nanoserde: skip
    a: u8,
}
=> 2:19: `skip` stands in a type with no
----
#[nserde(transparent)]
struct A(u8);
=> 1:3: `nserde` is written as a comment
----
/// nanoserde: json
struct A(u8);
=> 1:1: a doc comment is no attribute
----
// nanoserde: transparent bin
enum A {
    B,
}
=> 1:15: `transparent` is for a struct
----
// nanoserde: json
struct A {
    // nanoserde: renam = "x"
    a: u8,
}
=> 3:19: `renam` is no
----
// nanoserde: json
struct A {
    // nanoserde: rename =
    a: u8,
}
=> 3:27: the end of the line
----
// nanoserde: json
struct A {
    // nanoserde: rename = "x
    a: u8,
}
=> 3:28: this has no end
----
struct A {
    // nanoserde: rename = "x"
    a: u8,
}
=> 2:19: `rename` stands in a type with no
----
// nanoserde: ron
struct A {
    // nanoserde: rename = "a b"
    a: u8,
}
=> 3:30: this is in no name of RON
----
// nanoserde: json ron
struct A {
    // nanoserde: rename = "größe"
    a: u8,
}
=> 3:31: this is in no name of RON
----
// nanoserde: ron
struct A {
    // nanoserde: rename = "true"
    a: u8,
}
=> 3:28: `"true"` is a truth value
----
// nanoserde: json
struct A {
    // nanoserde: rename = "a\n"
    a: u8,
}
=> 3:30: this is in no name here
----
// nanoserde: json
struct A {
    // nanoserde: rename = "größe\"n"
    a: u8,
}
=> 3:34: this is in no name here
----
// nanoserde: json
enum A {
    // nanoserde: rename = "a\\b"
    B,
}
=> 3:30: this is in no name here
----
// nanoserde: json
struct A {
    // nanoserde: rename = "b"
    a: u8,
    b: u8,
}
=> 5:5: `b` stands twice
----
// nanoserde: json
struct A {
    a: u8, // nanoserde: rename = "b"
    c: u8,
}
=> 3:12: an attribute stands on a line of its own
----
// nanoserde: json
enum A {
    B, // nanoserde: rename = "b"
    C,
}
=> 3:8: an attribute stands on a line of its own
----
struct A { // nanoserde: json
    a: u8,
}
=> 1:12: an attribute stands on a line of its own"#;

/// A name has a control character, which no raw text has.
pub(crate) const CONTROL: &str = "// nanoserde: json
enum A {
    // nanoserde: rename = \"größe\tb\"
    B,
}
=> 3:34: this is in no name here: a name needs no escape in JSON";
