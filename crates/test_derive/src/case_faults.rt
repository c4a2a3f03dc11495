//! Sources with a case at fault, and what is said of each, as in `faults`.

/// A case is none, or the names of a type cannot be in it.
pub(crate) const CASES: &str = r#"// nanoserde: json, rename_all = "camelcase"
struct A {
    a: u8,
}
=> 1:34: `"camelcase"` is no case: those of names are lowercase, UPPERCASE
----
// nanoserde: json, rename_all
struct A {
    a: u8,
}
=> 1:31: the end of the line stands where `=` and a text are wanted
----
// nanoserde: json, rename_all(serialize = "camelCase")
struct A {
    a: u8,
}
=> 1:31: `(` stands where `=` and a text are wanted
----
// nanoserde: json, rename_all = "camelCase", rename_all = "camelCase"
struct A {
    a: u8,
}
=> 1:47: `rename_all` stands twice
----
// nanoserde: rename_all = "camelCase"
struct A {
    a: u8,
}
=> 1:15: `rename_all` stands in a type with no formats
----
// nanoserde: json, rename_all = "camelCase"
struct A(u8, u8);
=> 1:34: `"camelCase"` is for fields with names
----
// nanoserde: json, rename_all = "camelCase"
struct A;
=> 1:34: `"camelCase"` is for fields with names
----
// nanoserde: json
enum A {
    // nanoserde: rename_all = "camelCase"
    B { c: u8 },
}
=> 3:19: `rename_all` stands only above a struct
----
// nanoserde: json ron, rename_all = "kebab-case"
struct A {
    a: u8,
}
=> 1:38: `"kebab-case"` is for JSON alone
----
// nanoserde: json, ser_ron
// nanoserde: rename_all = "SCREAMING-KEBAB-CASE"
enum A {
    B,
}
=> 2:28: `"SCREAMING-KEBAB-CASE"` is for JSON alone
----
// nanoserde: json, rename_all = "camelCase"
struct A {
    a_b: u8,
    aB: u8,
}
=> 4:5: `aB` stands twice
----
// nanoserde: json, rename_all = "lowercase"
enum A {
    // nanoserde: rename = "c"
    B,
    C,
}
=> 5:5: `C` stands twice
----
// nanoserde: ron, rename_all = "lowercase"
enum A {
    True,
}
=> 3:5: `True` becomes a truth value
----
// nanoserde: ron, rename_all = "camelCase"
struct A {
    _1: u8,
}
=> 3:5: `_1` becomes a number
----
// nanoserde: json, rename_all = "PascalCase"
struct A {
    __: u8,
}
=> 3:5: `__` has no name left"#;
