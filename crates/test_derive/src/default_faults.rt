//! Sources with a default or a skipped field at fault, and what is said of each, as in `faults`.

/// A default is no value of its field.
pub(crate) const DEFAULTS: &str = r#"// nanoserde: json ron
struct A {
    // nanoserde: default = "256"
    a: u8,
}
=> 3:29: `"256"` is no number
----
// nanoserde: json ron
struct A {
    // nanoserde: default = "-1"
    a: u8,
}
=> 3:29: `"-1"` is no number
----
// nanoserde: json ron
struct A {
    // nanoserde: default = "-129"
    a: i8,
}
=> 3:29: `"-129"` is no number
----
// nanoserde: json ron
struct A {
    // nanoserde: default = "+1"
    a: i8,
}
=> 3:29: `"+1"` is no number
----
// nanoserde: json ron
struct A {
    // nanoserde: default = "01"
    a: u8,
}
=> 3:29: `"01"` is no number
----
// nanoserde: json ron
struct A {
    // nanoserde: default = "1"
    a: bool,
}
=> 3:29: `"1"` is no number
----
// nanoserde: json ron
struct A {
    // nanoserde: default = "yes"
    a: bool,
}
=> 3:29: `"yes"` is no value
----
// nanoserde: json ron
struct A {
    // nanoserde: default = "a b"
    a: u8,
}
=> 3:29: `"a b"` is no value
----
// nanoserde: json ron
struct A {
    // nanoserde: default = "b\n"
    a: String,
}
=> 3:31: this is in no default
----
// nanoserde: json
struct A {
    // nanoserde: default = "ä"
    a: String,
}
=> 3:30: this is in no default: a text is ASCII
----
// nanoserde: json ron
struct A {
    // nanoserde: default =
    a: u8,
}
=> 3:28: the end of the line
----
// nanoserde: json ron
struct A {
    // nanoserde: default default
    a: u8,
}
=> 3:27: `default` stands twice
----
// nanoserde: json
struct A<T> {
    // nanoserde: default
    a: T,
}
=> 3:19: `default` is for a field of a type that is known"#;

/// A skipped field has no default.
pub(crate) const SKIPPED: &str = r#"// nanoserde: json ron
struct A {
    // nanoserde: skip
    a: Box<u8>,
    b: u8,
}
=> 3:19: `skip` is for a field whose type has a default: a box has none, and no tuple
----
// nanoserde: json ron
struct A {
    // nanoserde: skip
    a: [String; 2],
    b: u8,
}
=> 3:19: `skip` is for a field whose type has a default
----
// nanoserde: json ron
struct A {
    // nanoserde: skip
    a: [Vec<u8>; 2],
    b: u8,
}
=> 3:19: `skip` is for a field whose type has a default
----
// nanoserde: json ron
enum A {
    B {
        // nanoserde: skip
        a: (String, u8),
        b: u8,
    },
}
=> 4:23: `skip` is for a field whose type has a default
----
// nanoserde: json ron
struct A {
    // nanoserde: skip
    a: Vec<Strng>,
    b: u8,
}
=> 4:12: `Strng` is no type that is known
----
// nanoserde: json ron
struct A {
    // nanoserde: skip
    a: Vec<u128>,
    b: u8,
}
=> 4:12: `u128` is a type that has bytes
----
// nanoserde: json ron
struct A {
    // nanoserde: skip, default = "b\n"
    a: String,
}
=> 3:37: this is in no default
----
// nanoserde: json ron
struct A {
    // nanoserde: skip, default = "b"
    a: u8,
}
=> 3:35: `"b"` is no value of the field's type, and no path of a type that stands for one
----
// nanoserde: json ron
struct A {
    // nanoserde: skip, default = "b::C"
    a: Box<Strng>,
}
=> 4:12: `Strng` is no type that is known
----
// nanoserde: json ron
struct A {
    // nanoserde: skip, default = "256"
    a: u8,
}
=> 3:35: `"256"` is no number of
----
// nanoserde: json ron
struct A {
    // nanoserde: skip skip
    a: u8,
}
=> 3:24: `skip` stands twice
----
// nanoserde: json
struct A<T> {
    // nanoserde: skip
    a: Option<T>,
    b: T,
}
=> 3:19: `skip` is for a field of a type that is known
----
// nanoserde: json
struct A<T> {
    // nanoserde: skip, default = "b::C"
    a: Vec<T>,
    b: T,
}
=> 3:19: `skip` is for a field of a type that is known"#;
