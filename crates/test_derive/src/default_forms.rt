//! Sources with defaults and skipped fields, and lines that are written of each, as in `forms`.

/// A default stands in the row of its field: a number and a truth value as a type of the schema.
pub(crate) const DEFAULTED: &str = r#"// nanoserde: json
struct A {
    // nanoserde: default
    a: Option<u8>,
}
=>
type AFields = Defaulted<AName, Option<u8>, TypeDefault>;
----
use b::C;
// nanoserde: ron
struct A {
    // nanoserde: default = "C"
    a: u8,
}
=>
type AFields = Defaulted<AName, u8, C>;
----
// nanoserde: json
struct A {
    // nanoserde: default = "-5"
    a: i8,
}
=>
use nano_schema::{Borrowed, DefaultI8, Defaulted, FieldRefs, Label, Shape, StructSchema, Value};
=>
type AFields = Defaulted<AName, i8, DefaultI8<-5>>;
----
// nanoserde: json
struct A {
    // nanoserde: default = "true"
    a: bool,
    // nanoserde: default = "18446744073709551615"
    b: u64,
}
=>
type AFields = (
    Defaulted<ANames<0>, bool, DefaultBool<true>>,
    Defaulted<ANames<1>, u64, DefaultU64<18446744073709551615>>,
);
----
use crate::b::DefaultU8;
// nanoserde: json
struct A {
    // nanoserde: default = "7"
    a: u8,
}
=>
type AFields = Defaulted<AName, u8, nano_schema::DefaultU8<7>>;
----
// nanoserde: json
enum A {
    B {
        // nanoserde: default = "b"
        a: String,
    },
}
=>
/// The default of `a`.
pub struct ABADefault {}

impl DefaultOf<String> for ABADefault {
    ghost missing = { text (codes "b") };
=>
        String::from_str(alloc, "b")
=>
type ABParts = Defaulted<ABName, String, ABADefault>;
"#;

/// A number of 128 bits has a type of its own, as a text has.
pub(crate) const LARGEST: &str = r#"// nanoserde: bin
struct A {
    // nanoserde: default = "340282366920938463463374607431768211455"
    a: u128,
}
=>
/// The default of `a`.
pub struct AADefault {}

impl DefaultOf<u128> for AADefault {
    ghost missing = { whole 340282366920938463463374607431768211455 };

    fn default(_alloc: Global) -> Result<u128, AllocError> {
        Ok(340282366920938463463374607431768211455)
    }
}
=>
type AFields = Defaulted<AName, u128, AADefault>;
----
// nanoserde: bin
struct A {
    // nanoserde: default = "-5"
    a: i128,
    // nanoserde: default = "5"
    b: i128,
}
=>
    ghost missing = { number (neg_ℤ (pos 5)) };
=>
        Ok(-5)
=>
impl DefaultOf<i128> for ABDefault {
    ghost missing = { number (pos 5) };
=>
type AFields = (
    Defaulted<ANames<0>, i128, AADefault>,
    Defaulted<ANames<1>, i128, ABDefault>,
);
"#;

/// A skipped field whose default takes no memory is in no row.
pub(crate) const SKIPPED: &str = r#"// nanoserde: json
struct A {
    a: u8,
    // nanoserde: skip
    b: u8,
    // nanoserde: skip, default = "7"
    c: u8,
}
=>
    ghost view = { λ x. x.a };

    fn make(values: Self::Values) -> Self
        ensures seen { ⟦<A as StructSchema>⟧.view result ≡ values }
        ensures skipped { (⟦<u8 as std::default::Default>⟧.is_default result.b)
            × (result.c ≡ 7) }
    {
        let a = values;
=>
            a,
            b: std::default::Default::default(),
            c: 7,
=>
        &self.a
----
// nanoserde: json
enum A {
    B {
        // nanoserde: skip
        a: u8,
        b: u8,
    },
}
=>
      | B v0 v1 ↦ v1
=>
            Self::B { a: _, b } => {
=>
            a: std::default::Default::default(),
=>
        ensures seen { ⟦<A as EnumSchema>⟧.view result ≡ values }
        ensures skipped { elim result [
          | B v0 v1 ↦ ⟦<u8 as std::default::Default>⟧.is_default v0
        ] }
    {
        let b = values;
----
// nanoserde: json
struct A {
    a: u8,
    // nanoserde: skip, default = "b::C"
    b: u8,
}
=>
    fn make(values: Self::Values) -> Self {
"#;

/// A skipped field that may take memory, or that a type stands for, is in the row, and has no name
/// there.
pub(crate) const SKIPPED_IN_ROW: &str = r#"// nanoserde: json
struct A {
    a: u8,
    // nanoserde: skip
    b: String,
    // nanoserde: skip
    c: Vec<u8>,
    // nanoserde: skip, default = "x"
    d: String,
    // nanoserde: skip, default = "b::C"
    e: u8,
    // nanoserde: skip
    f: Option<Vec<u8>>,
}
=>
pub struct AName {}

impl Label for AName {
    ghost label = { codes "a" };
=>
/// The default of `d`.
pub struct ADDefault {}

impl DefaultOf<String> for ADDefault {
    ghost missing = { text (codes "x") };

    fn default(alloc: Global) -> Result<String, AllocError> {
        String::from_str(alloc, "x")
    }
}

type AFields = (
    (Required<AName, u8>, Skipped<String, TypeDefault>),
    (
        Skipped<Vec<u8>, TypeDefault>,
        (Skipped<String, ADDefault>, Skipped<u8, b::C>),
    ),
);
=>
    ghost view = { λ x. ((x.a, x.b), (x.c, (x.d, x.e))) };
=>
        let ((a, b), (c, (d, e))) = values;
=>
            e,
            f: std::default::Default::default(),
=>
        ((&self.a, &self.b), (&self.c, (&self.d, &self.e)))
----
// nanoserde: bin
struct A<T> {
    a: T,
    // nanoserde: skip
    b: String,
    // nanoserde: skip
    c: u8,
}
=>
type AFields<T> = (Required<AName, T>, Skipped<String, TypeDefault>);
=>
    ghost agrees = { seen_agrees (pair_agrees T.agrees (agreed {means =
        ⟦<String as Value>⟧.means} {legal = ⟦<String as Value>⟧.legal}))
=>
    ghost is_decodable = { (both_are_read T.is_decodable refl) };
----
// nanoserde: json
enum A {
    B {
        // nanoserde: skip
        a: Vec<u8>,
        b: u8,
    },
    C {
        // nanoserde: skip
        a: String,
    },
}
=>
type ABParts = (Skipped<Vec<u8>, TypeDefault>, Required<ABName, u8>);

type ACParts = Skipped<String, TypeDefault>;
=>
      | B v0 v1 ↦ First (v0, v1)
      | C v0 ↦ Later v0
=>
            Self::B { a, b } => {
"#;
