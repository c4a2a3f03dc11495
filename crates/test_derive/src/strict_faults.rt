//! Sources with `deny_unknown` or `allow_unknown` where it has no meaning, and what is said of each, as
//! in `faults`.

/// Fields of unknown names are denied where nothing is read in JSON, or of what is no struct with
/// named fields.
pub(crate) const DENIED: &str = r#"// nanoserde: ron deny_unknown
struct A {
    a: u8,
}
=> 1:19: `deny_unknown` is for JSON that is read: write `json` or `de_json` beside it
----
// nanoserde: bin ser_json de_ron
// nanoserde: deny_unknown
struct A {
    a: u8,
}
=> 2:15: `deny_unknown` is for JSON that is read
----
// nanoserde: bin deny_unknown
struct A;
=> 1:19: `deny_unknown` is for JSON that is read
----
// nanoserde: json deny_unknown
enum A {
    B { c: u8 },
}
=> 1:20: `deny_unknown` is for a struct with named fields
----
// nanoserde: json deny_unknown
struct A(u8, u8);
=> 1:20: `deny_unknown` is for a struct with named fields
----
// nanoserde: json transparent deny_unknown
struct A(u8);
=> 1:32: `deny_unknown` is for a struct with named fields
----
// nanoserde: json deny_unknown, deny_unknown
struct A {
    a: u8,
}
=> 1:34: `deny_unknown` stands twice
----
// nanoserde: deny_unknown
struct A {
    a: u8,
}
=> 1:15: `deny_unknown` stands in a type with no formats
----
// nanoserde: json
struct A {
    // nanoserde: deny_unknown
    a: u8,
}
=> 3:19: `deny_unknown` stands only above a struct
----
// nanoserde: json
enum A {
    // nanoserde: deny_unknown
    B { c: u8 },
}
=> 3:19: `deny_unknown` stands only above a struct
----
// nanoserde: json deny_unknown_fields
struct A {
    a: u8,
}
=> 1:20: `deny_unknown_fields` is no attribute: those of a type are bin, json, ron
----
// nanoserde: json deny_unknown = "a"
struct A {
    a: u8,
}
=> 1:33: `=` stands where an attribute is wanted
----
//nanoserde: deny_unknown json
struct A {
    a: u8,
}
=> 1:1: an attribute begins with
----
// nanoserde: json deny_unknown
struct A {
    a: Vec<A>,
}
=> 1:20: `deny_unknown` stands above a type that contains itself: write `bin`, `json`, `ron`"#;

/// Fields of unknown names are allowed where nothing is read in RON, or of what is no struct with
/// named fields.
pub(crate) const ALLOWED: &str = r#"// nanoserde: json allow_unknown
struct A {
    a: u8,
}
=> 1:20: `allow_unknown` is for RON that is read: write `ron` or `de_ron` beside it
----
// nanoserde: bin ser_ron de_json
// nanoserde: allow_unknown
struct A {
    a: u8,
}
=> 2:15: `allow_unknown` is for RON that is read
----
// nanoserde: bin allow_unknown
struct A;
=> 1:19: `allow_unknown` is for RON that is read
----
// nanoserde: ron allow_unknown
enum A {
    B { c: u8 },
}
=> 1:19: `allow_unknown` is for a struct with named fields: a variant with fields rejects those of other names
----
// nanoserde: ron allow_unknown
struct A(u8, u8);
=> 1:19: `allow_unknown` is for a struct with named fields
----
// nanoserde: ron transparent allow_unknown
struct A(u8);
=> 1:31: `allow_unknown` is for a struct with named fields
----
// nanoserde: ron allow_unknown, allow_unknown
struct A {
    a: u8,
}
=> 1:34: `allow_unknown` stands twice
----
// nanoserde: allow_unknown
struct A {
    a: u8,
}
=> 1:15: `allow_unknown` stands in a type with no formats
----
// nanoserde: ron
struct A {
    // nanoserde: allow_unknown
    a: u8,
}
=> 3:19: `allow_unknown` stands only above a struct
----
// nanoserde: ron
enum A {
    // nanoserde: allow_unknown
    B { c: u8 },
}
=> 3:19: `allow_unknown` stands only above a struct
----
// nanoserde: ron allow_unknown_fields
struct A {
    a: u8,
}
=> 1:19: `allow_unknown_fields` is no attribute: those of a type are bin, json, ron
----
// nanoserde: ron allow_unknown = "a"
struct A {
    a: u8,
}
=> 1:33: `=` stands where an attribute is wanted
----
//nanoserde: allow_unknown ron
struct A {
    a: u8,
}
=> 1:1: an attribute begins with
----
// nanoserde: json deny_unknown allow_unknown
struct A {
    a: u8,
}
=> 1:33: `allow_unknown` is for RON that is read
----
// nanoserde: ron deny_unknown allow_unknown
struct A {
    a: u8,
}
=> 1:19: `deny_unknown` is for JSON that is read
----
// nanoserde: json ron allow_unknown
struct A {
    a: Vec<A>,
}
=> 1:24: `allow_unknown` stands above a type that contains itself: write `bin`, `json`, `ron`"#;
