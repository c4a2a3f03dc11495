//! Sources, and lines that are written of each, as in `forms`: names of fields, and of what the
//! module brings in.

/// Several names have one type, with the number of each; the module brings in the types and traits
/// that it says, and says functions and macros by their paths.
pub(crate) const NAMED: &str = r#"// nanoserde: json
struct A {
    a: u8,
    // nanoserde: rename = "c"
    b: Option<String>,
}
=>
//! Written by derive_files: how the types of the module above are encoded.

ghost use Rattle.std.specs.Prelude.{codes, ◌==◌, if◌then◌else◌, refl};
=>
use super::*;
use nano_json_schema::{
    DeJson, DeJsonState, JsonCodec, JsonResult, JsonShape, Place, SerJson, SerJsonState,
};
use nano_schema::{Borrowed, FieldRefs, Label, Optional, Required, Shape, StructSchema, Value};
use std::alloc::{AllocError, Global};
use std::str::Chars;

pub struct ANames<const I: usize> {}

impl<const I: usize> Label for ANames<I> {
    ghost label = { if I == 0 then codes "a" else codes "c" };

    fn text() -> &'static str {
        nano_schema::name_of!(I, 0 => "a", _ => "c")
    }
}
=>
        nano_schema::known_record::<Self, AFields>(self);
=>
        nano_json_schema::write_record_json::<Self, AFields>(self, alloc, d, s)
=>
type AFields = (Required<ANames<0>, u8>, Optional<ANames<1>, String>);
"#;

/// An alias is a further name of the type of names, and stands around its field.
pub(crate) const ALIASED: &str = r#"// nanoserde: json, rename_all = "camelCase"
struct A {
    // nanoserde: alias = "one"
    the_first: u8,
    // nanoserde: alias = "two"
    // nanoserde: default, alias = "two_2"
    #[doc(alias = "no")]
    second: Option<String>,
    // nanoserde: skip
    third: u8,
    // nanoserde: alias = "the old name of it"
    a_name_that_is_rather_long: HashMap<String, Vec<Option<String>>>,
}
use std::collections::HashMap;
=>
    ghost label = { if I == 0 then codes "theFirst" else if I == 1 then codes "one"
        else if I == 2 then codes "second" else if I == 3 then codes "two"
        else if I == 4 then codes "two_2" else if I == 5 then codes "aNameThatIsRatherLong"
        else codes "the old name of it" };
=>
        nano_schema::name_of!(I, 0 => "theFirst", 1 => "one", 2 => "second", 3 => "two",
            4 => "two_2", 5 => "aNameThatIsRatherLong", _ => "the old name of it")
=>
type AFields = (
    Aliased<ANames<1>, Required<ANames<0>, u8>>,
    (
        Aliased<ANames<4>, Aliased<ANames<3>, Defaulted<ANames<2>, Option<String>, TypeDefault>>>,
        Aliased<ANames<6>, Required<ANames<5>, HashMap<String, Vec<Option<String>>>>>,
    ),
);
----
// nanoserde: ron
struct B<A> {
    // nanoserde: alias = "old"
    new: Box<Vec<Option<(LinkedList<Vec<Vec<Vec<u8>>>>, (A, A, A))>>>,
}
use std::collections::LinkedList;
=>
pub struct BNames<const I: usize> {}
=>
type BFields<A> = Aliased<
    BNames<1>,
    Required<BNames<0>, Box<Vec<Option<(LinkedList<Vec<Vec<Vec<u8>>>>, (A, A, A))>>>>,
>;
"#;

/// A name beyond ASCII is the bytes of its UTF-8, one by one.
pub(crate) const BEYOND: &str = r#"// nanoserde: json
struct A {
    // nanoserde: rename = "größe"
    a: u8,
    b: u8,
    // nanoserde: alias = "名前"
    c: String,
}
=>
ghost use Rattle.std.specs.Prelude.{codes, ◌==◌, if◌then◌else◌, ◌∷◌, [], refl};
=>
    ghost label = { if I == 0 then (103 ∷ 114 ∷ 195 ∷ 182 ∷ 195 ∷ 159 ∷ 101 ∷ [])
        else if I == 1 then codes "b" else if I == 2 then codes "c"
        else (229 ∷ 144 ∷ 141 ∷ 229 ∷ 137 ∷ 141 ∷ []) };

    fn text() -> &'static str {
        nano_schema::name_of!(I, 0 => "größe", 1 => "b", 2 => "c", _ => "名前")
    }
----
// nanoserde: json
enum A {
    // nanoserde: rename = "größe"
    B,
}
=>
ghost use Rattle.std.specs.Prelude.{◌∷◌, [], refl};
=>
    ghost label = { (103 ∷ 114 ∷ 195 ∷ 182 ∷ 195 ∷ 159 ∷ 101 ∷ []) };

    fn text() -> &'static str {
        "größe"
    }
"#;

/// A call that is too long for a line has its arguments on a line of their own.
pub(crate) const LONG: &str = r#"// nanoserde: bin json ron
struct TheTypeWhoseNameIsSoLongThatCallsAreCut {
    a: u8,
}
=>
type TheTypeWhoseNameIsSoLongThatCallsAreCutFields = Required<
    TheTypeWhoseNameIsSoLongThatCallsAreCutName,
    u8,
>;
=>
        nano_bin_schema::write_record_bin::<Self, TheTypeWhoseNameIsSoLongThatCallsAreCutFields>(
            self, alloc, output,
        )
=>
        nano_json_schema::read_record_json::<Self, TheTypeWhoseNameIsSoLongThatCallsAreCutFields>(
            alloc, state, input,
        )
=>
        nano_json_schema::take_record_json::<Self, TheTypeWhoseNameIsSoLongThatCallsAreCutFields>(
            alloc, place, input, text,
        )
=>
        nano_ron_schema::write_record_ron::<Self, TheTypeWhoseNameIsSoLongThatCallsAreCutFields>(
            self, alloc, d, s,
        )
"#;

/// A struct that denies unknown names is strict in JSON alone.
pub(crate) const STRICT: &str =
    r#"// nanoserde: bin json ron, deny_unknown, rename_all = "camelCase"
struct A {
    the_first: u8,
}
=>
ghost use Rattle.nano_json_schema.specs.Structs.{strict_json_of};
=>
    ghost json = { strict_json_of ⟦<A as StructSchema>⟧.view ⟦<AFields as JsonShape>⟧.codec refl };
=>
pub struct AName {}

impl Label for AName {
    ghost label = { codes "theFirst" };

    fn text() -> &'static str {
        "theFirst"
    }
}
=>
        nano_json_schema::write_record_json::<Self, AFields>(self, alloc, d, s)
=>
        nano_json_schema::read_record_json_strict::<Self, AFields>(alloc, state, input)
=>
        nano_json_schema::take_record_json_strict::<Self, AFields>(alloc, place, input, text)
=>
    ghost ron = { ron_of ⟦<A as StructSchema>⟧.view ⟦<AFields as RonShape>⟧.codec refl };
=>
        nano_ron_schema::read_record_ron::<Self, AFields>(alloc, state, input)
----
// nanoserde: de_json deny_unknown
struct B<T> {
    a: Vec<Option<T>>,
}
// nanoserde: json
struct C {
    b: u8,
}
=>
        match nano_json_schema::read_record_json_strict::<Self, BFields<T>>(alloc, state, input) {
            Ok(value) => {
                means_as_json::<Self>(&value);
=>
        nano_json_schema::read_record_json::<Self, CFields>(alloc, state, input)
----
// nanoserde: json deny_unknown
struct D;
=>
        nano_json_schema::read_record_json_strict::<Self, Unit>(alloc, state, input)
"#;

/// A struct that allows unknown names skips them in RON, and is as any in JSON.
pub(crate) const OPEN: &str = r#"// nanoserde: bin json ron allow_unknown
struct A {
    first: u8,
}
=>
ghost use Rattle.nano_ron_schema.specs.Structs.{open_ron_of};
=>
    ghost json = { json_of ⟦<A as StructSchema>⟧.view ⟦<AFields as JsonShape>⟧.codec refl };
=>
        nano_json_schema::read_record_json::<Self, AFields>(alloc, state, input)
=>
    ghost ron = { open_ron_of ⟦<A as StructSchema>⟧.view ⟦<AFields as RonShape>⟧.codec refl };
=>
        nano_ron_schema::write_record_ron::<Self, AFields>(self, alloc, d, s)
=>
        nano_ron_schema::read_record_ron_open::<Self, AFields>(alloc, state, input)
----
// nanoserde: de_ron allow_unknown
struct B<T> {
    a: Vec<Option<T>>,
}
// nanoserde: ron
struct C {
    b: u8,
}
=>
        match nano_ron_schema::read_record_ron_open::<Self, BFields<T>>(alloc, state, input) {
            Ok(value) => {
                means_as_ron::<Self>(&value);
=>
        nano_ron_schema::read_record_ron::<Self, CFields>(alloc, state, input)
----
// nanoserde: json ron, deny_unknown, allow_unknown
struct D;
=>
        nano_json_schema::read_record_json_strict::<Self, Unit>(alloc, state, input)
=>
        nano_json_schema::take_record_json_strict::<Self, Unit>(alloc, place, input, text)
=>
        nano_ron_schema::read_record_ron_open::<Self, Unit>(alloc, state, input)
"#;

/// What has the name of something in the file is said by its path.
pub(crate) const CLASHING: &str = r#"use crate::a::*;
use std::alloc::Global;
// nanoserde: json
struct Label {
    a: Value,
    b: Shape,
}
// nanoserde: json
struct Json {
    // nanoserde: rename = "nano_schema::Required<"
    codec: u8,
    names: u8,
}
struct Shape(u8);
=>
impl<const I: usize> nano_schema::Label for LabelNames<I> {
=>
    Required<LabelNames<0>, Value>,
=>
impl nano_schema::Value for Label {
    ghost means = { λ x. ⟦<LabelFields as nano_schema::Shape>⟧.means
=>
    fn ser_json(
        &self,
        alloc: std::alloc::Global,
        d: usize,
        s: &mut SerJsonState,
    ) -> Result<(), AllocError> {
=>
    ghost label = { if I == 0 then codes "nano_schema::Required<" else codes "names" };
=>
        nano_schema::name_of!(I, 0 => "nano_schema::Required<", _ => "names")
----
// nanoserde: ron
enum Either {
    A(u8),
    B,
}
=>
type EitherValues = nano_schema::Either<u8, EitherValues2>;
=>
            nano_schema::Either::First(values) => {
=>
        use nano_schema::Either;

        match self {
"#;
