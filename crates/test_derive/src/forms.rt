//! Sources, and after each, parted by `=>`, lines that are written of it. A line of hyphens parts
//! them.

/// A struct of parts is a tuple.
pub(crate) const PARTS: &str = r#"// nanoserde: bin json ron
struct A(u8, u16);
=>
type AValues = (u8, u16);

type AFields = Tuple<AValues>;
=>
    ghost view = { λ x. (x.0, x.1) };
=>
        let (first, second) = values;
        A(first, second)
=>
        (&self.0, &self.1)
=>
        nano_bin_schema::write_record_bin::<Self, AFields>(self, alloc, output)
=>
            nano_json_schema::Part { of: &self.1 },
        );
=>
        SerRon::ser_ron(&parts, alloc, d, s)
=>
        nano_ron_schema::read_parts_ron::<Self, AValues>(alloc, state, input)
"#;

/// A generic type agrees as its parameters do, and names those alone that it has.
pub(crate) const GENERIC: &str = r#"// nanoserde: bin
struct A<T> {
    a: T,
    b: Option<T>,
}
=>
    type Values = <AFields<T> as Shape>::Values;
=>
    type Refs = <AFields<T> as Borrowed<'a>>::Refs;
=>
    ghost agrees = { seen_agrees (pair_agrees T.agrees (option_agrees T.agrees))
=>
    ghost is_decodable = { (both_are_read T.is_decodable T.is_decodable) };
----
// nanoserde: bin
struct A<T>(T);
=>
    ghost agrees = { seen_agrees T.agrees (λ x. x.0) };
----
// nanoserde: json
struct A<T>(T, u8);
=>
type AValues<T> = (T, u8);
----
// nanoserde: bin
enum A<T, U> {
    B(T, U),
    C(U, T),
    D(U),
    E,
}
=>
type ABParts<T, U> = (T, U);
=>
type ADParts<U> = U;
=>
type AVariants4 = Variant<ANames<3>, Unit>;
=>
type AValues3<U> = Either<U, AValues4>;
=>
type ARefs3<'a, U> = Either<&'a U, ARefs4<'a>>;
=>
    type Refs = ARefs<'a, T, U>;
=>
    ghost is_decodable = { (both_are_read (both_are_read T.is_decodable U.is_decodable)
----
// nanoserde: json
struct A<TheFirstOfThemAll, TheSecondOfThemAll, TheThirdOfThemAll>(
    TheFirstOfThemAll,
    TheSecondOfThemAll,
    TheThirdOfThemAll,
);
=>
impl<TheFirstOfThemAll: SerJson, TheSecondOfThemAll: SerJson, TheThirdOfThemAll: SerJson> SerJson
    for A<TheFirstOfThemAll, TheSecondOfThemAll, TheThirdOfThemAll> {
=>
impl<
    TheFirstOfThemAll: JsonCodec,
    TheSecondOfThemAll: JsonCodec,
    TheThirdOfThemAll: JsonCodec,
> JsonCodec for A<TheFirstOfThemAll, TheSecondOfThemAll, TheThirdOfThemAll> {
"#;

/// A ghost pair that is too long for a line has a line for each of its two.
pub(crate) const LARGE: &str = r#"// nanoserde: bin
struct A {
    the_first_of_them_all: u8,
    the_second_of_them_all: u8,
    the_third_of_them_all: u8,
    the_fourth_of_them_all: u8,
}
=>
    ghost view = { λ x. (
      (x.the_first_of_them_all, x.the_second_of_them_all),
      (x.the_third_of_them_all, x.the_fourth_of_them_all),
    ) };
"#;

/// Where no field is read and written, the row is that of nothing, and has no name of its own.
pub(crate) const EMPTY: &str = r#"// nanoserde: bin json ron
pub struct A;
=>
impl StructSchema for A {
    type Values = <Unit as Shape>::Values;

    ghost view = { λ x. tt };

    fn make(values: Self::Values) -> Self {
        let () = values;
        A {}
    }
}
=>
    type Refs = <Unit as Borrowed<'a>>::Refs;

    ghost values = { ⟦<Unit as Borrowed<'a>>⟧.values };
=>
        nano_bin_schema::write_record_bin::<Self, Unit>(self, alloc, output)
=>
        nano_bin_schema::read_record_bin::<Self, Unit>(alloc, offset, bytes)
    }
}

impl JsonCodec for A {
----
// nanoserde: json
struct Unit {}
=>
        nano_json_schema::read_record_json::<Self, nano_schema::Unit>(alloc, state, input)
----
// nanoserde: ron
struct A {
    // nanoserde: skip, default = "7"
    a: u8,
}
=>
        A { a: 7 }
----
// nanoserde: json
enum A<T> {
    B {},
    C(T),
    D {
        // nanoserde: skip
        a: u8,
    },
}
=>
type AVariants3 = Variant<ANames<2>, Struct<Unit>>;
=>
      | D v0 ↦ Later (Later tt)
=>
                return Self::B {};
=>
            Self::B {} => {
=>
            Self::D { a: _ } => {
"#;

/// A struct without bytes brings in what it cites.
pub(crate) const CITING: &str = r#"// nanoserde: json
struct A {
    a: u8,
}
=>
ghost use Rattle.std.specs.Prelude.{codes, refl};
----
// nanoserde: ron
struct A {
    a: u8,
}
=>
ghost use Rattle.std.specs.Prelude.{codes, refl};
"#;

/// What is passed over: where something is seen, attributes that serde reads, and types with the
/// names of others.
pub(crate) const PASSED: &str = r#"use crate::cell::RefCell;
#[cfg(test)]
use crate::b::C;

#[cfg(test)]
struct B(u8);

// nanoserde: json
#[derive(Serialize)]
#[serde(rename_all = "camelCase")]
pub(in crate::a) struct A {
    #[serde(default)]
    pub(in crate::a) a_b: RefCell,
    pub(super) c: Rc,
}

struct Rc(pub (u8, u8));
=>
    ghost label = { if I == 0 then codes "a_b" else codes "c" };
"#;
