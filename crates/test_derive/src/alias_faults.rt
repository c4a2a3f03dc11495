//! Sources whose aliases are at fault, and what is said of each, as in `faults`.

/// An alias stands where it has no meaning, or is another name.
pub(crate) const ALIASES: &str = r#"// nanoserde: json, alias = "b"
struct A {
    a: u8,
}
=> 1:21: `alias` stands only above a field
----
// nanoserde: json
enum A {
    // nanoserde: alias = "c"
    B,
}
=> 3:19: `alias` stands only above a field
----
// nanoserde: json
struct A(
    // nanoserde: alias = "b"
    u8,
);
=> 3:19: `alias` stands only above a field
----
// nanoserde: json
struct A {
    // nanoserde: alias
    a: u8,
}
=> 3:24: the end of the line stands where `=`
----
// nanoserde: json
struct A {
    // nanoserde: alias = b
    a: u8,
}
=> 3:27: `b` stands where a text is wanted
----
struct A {
    // nanoserde: alias = "b"
    a: u8,
}
=> 2:19: `alias` stands in a type with no
----
// nanoserde: json
struct A {
    // nanoserde: alias = "a"
    a: u8,
}
=> 3:27: `"a"` stands twice
----
// nanoserde: json
struct A {
    // nanoserde: alias = "b", alias = "b"
    a: u8,
}
=> 3:40: `"b"` stands twice
----
// nanoserde: json
struct A {
    // nanoserde: alias = "b"
    a: u8,
    b: u8,
}
=> 5:5: `b` stands twice
----
// nanoserde: json
struct A {
    a: u8,
    // nanoserde: rename = "c"
    // nanoserde: alias = "a"
    b: u8,
}
=> 5:27: `"a"` stands twice
----
// nanoserde: ron
enum A {
    B {
        // nanoserde: alias = "c"
        a: u8,
        // nanoserde: alias = "c"
        b: u8,
    },
}
=> 6:31: `"c"` stands twice
----
// nanoserde: json, rename_all = "UPPERCASE"
struct A {
    // nanoserde: alias = "B"
    a: u8,
    b: u8,
}
=> 5:5: `b` stands twice
----
// nanoserde: json ron
struct A {
    // nanoserde: alias = "b c"
    a: u8,
}
=> 3:29: this is in no name of RON
----
// nanoserde: ron
struct A {
    // nanoserde: alias = "true"
    a: u8,
}
=> 3:27: `"true"` is a truth value in RON
----
// nanoserde: ron
struct A {
    // nanoserde: alias = ""
    a: u8,
}
=> 3:27: `""` begins with no letter
----
// nanoserde: json
struct A {
    // nanoserde: rename = "größe"
    a: u8,
    // nanoserde: alias = "größe"
    b: u8,
}
=> 5:27: `"größe"` stands twice
----
// nanoserde: json
struct A {
    // nanoserde: alias = "b\\c"
    a: u8,
}
=> 3:29: this is in no name here
----
// nanoserde: json
struct A {
    // nanoserde: skip, alias = "b"
    a: u8,
    c: u8,
}
=> 3:33: `"b"` is for a field that is read"#;
