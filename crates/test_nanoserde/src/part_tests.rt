//! The calls by which the formats read and write the fields and the variants of a schema, and a
//! name. Each is made once, with what it returns. What they do for the types of programs is in the
//! tables of `conformance_run`.

ghost use Rattle.std.specs.Prelude.{codes};

use crate::plain_record_tests::first_place;
use crate::type_checks::{holds, is_made, is_so};
use nano_json_schema::{
    ReadContent as JsonContent, read_fields as read_json, take_fields, write_fields as write_json,
};
use nano_ron_schema::{
    Part, ReadContent as RonContent, RonChoices, read_fields as read_ron, read_variant_name,
    unknown_variant, write_fields as write_ron, write_fields_variant, write_unit_variant,
    write_variant,
};
use nano_schema::Label;
use nanoserde::records::{Choice, Item};
use nanoserde::{
    BinFields, BinRefs, DeBinErr, DeJsonState, DeRonState, DeRonTok, Either, FieldRefs, JsonFields,
    JsonRefs, JsonResult, Required, RonFields, RonRefs, RonResult, SerJsonState, SerRonState,
    Struct, StructSchema, Unit, Variant, VariantRefs,
};
use std::alloc::{AllocError, Global};
use std::str::Chars;

/// The name `value`.
#[derive(Drop)]
struct ValueName {}

impl Label for ValueName {
    ghost label = { codes "value" };

    fn text() -> &'static str {
        "value"
    }
}

/// The name `note`.
#[derive(Drop)]
struct NoteName {}

impl Label for NoteName {
    ghost label = { codes "note" };

    fn text() -> &'static str {
        "note"
    }
}

/// A field.
type Field = Required<ValueName, i32>;

/// Variants under the same names.
type Variants = (Variant<ValueName, Unit>, Variant<NoteName, Struct<Field>>);

/// Whether an item is made of its values, and seen as them.
fn is_item() -> bool {
    let item = Item::make((7, None));
    let (value, note) = item.as_refs();
    *value == 7 && note.is_none()
}

/// Whether the variant without content is made and seen as itself.
fn is_alone() -> bool {
    let made = <Choice as nanoserde::EnumSchema>::make(Either::First(()));
    match made.as_refs() {
        Either::First(()) => made == Choice::A,
        Either::Later(_content) => false,
    }
}

/// Whether exactly the variant without content stands alone, in both texts.
fn stand_alone() -> bool {
    let alone = <Unit as JsonContent>::stands_alone() && <Unit as RonContent>::stands_alone();
    let json = <Struct<Field> as JsonContent>::stands_alone();
    let ron = <Struct<Field> as RonContent>::stands_alone();
    let other = <Variants as RonChoices>::stands_alone(NoteName::text());
    let named = <Variants as RonChoices>::stands_alone(ValueName::text());
    alone && named && !json && !ron && !other
}

/// Whether the field is read from bytes, and none from fewer.
fn is_in_bytes(alloc: Global) -> Result<bool, DeBinErr> {
    let mut offset = 1;
    let value = <Field as BinFields>::read(alloc, &mut offset, &[9, 7, 0, 0, 0])?;
    let cut = <Field as BinFields>::read(alloc, &mut 2, &[9, 7, 0, 0, 0]);
    Ok(value == 7 && offset == 5 && cut.is_err())
}

/// Whether the field is written as bytes, after a byte.
fn is_written_in_bytes(alloc: Global) -> Result<bool, AllocError> {
    let mut output = vec![in alloc; 9u8]?;
    <Field as BinRefs>::write(&&7, alloc, &mut output)?;
    Ok(output.as_slice() == [9u8, 7, 0, 0, 0].as_slice())
}

/// Whether the field is taken where it stands plainly, and the last one of its name counts.
fn is_taken(alloc: Global) -> bool {
    let mut text = String::new(alloc);
    let mut slots = <Field as JsonFields>::empty();
    let (mut place, mut input) = first_place("7}");
    let taken = Field::take_field(
        "value", &mut slots, alloc, &mut place, &mut input, &mut text,
    );
    let known = taken == Some(true) && Field::whole(slots, alloc) == Some(7);
    let (mut place, mut input) = first_place("{\"value\":1,\n\"value\": 2 }]");
    let last = take_fields::<Field>(alloc, &mut place, &mut input, &mut text);
    let (mut other, mut rest) = first_place("{\"note\":1}");
    let unknown = take_fields::<Field>(alloc, &mut other, &mut rest, &mut text);
    known && last == Some(2) && place.cur == ']' && unknown.is_none()
}

#[test]
fn parts_and_bytes(rt: HostRuntime) {
    holds(&rt, is_item(), "an item");
    holds(&rt, is_alone(), "a variant");
    holds(&rt, stand_alone(), "variants");
    holds(&rt, is_in_bytes(rt.alloc()).unwrap_or(false), "bytes");
    is_so(&rt, is_written_in_bytes(rt.alloc()), "code");
    <Field as BinFields>::discard(7);
    holds(&rt, is_taken(rt.alloc()), "a field that stands plainly");
    <Field as JsonFields>::discard(Some(7));
    <Field as JsonFields>::discard_values(7);
    <Field as RonFields>::discard(Some(7));
    <Field as RonFields>::discard_values(7);
}

/// The field as JSON, alone and between brackets.
fn json_field(alloc: Global) -> Result<String, AllocError> {
    let mut state = SerJsonState {
        out: String::new(alloc),
    };
    let _first = <Field as JsonRefs>::append_fields(&&7, alloc, true, 1, &mut state)?;
    write_json::<Field>(&&7, alloc, 0, &mut state)?;
    Ok(state.out)
}

/// The field as RON, alone and between brackets.
fn ron_field(alloc: Global) -> Result<String, AllocError> {
    let mut state = SerRonState {
        out: String::new(alloc),
    };
    <Field as RonRefs>::append_fields(&&7, alloc, 1, &mut state)?;
    write_ron::<Field>(&&7, alloc, 0, &mut state)?;
    Ok(state.out)
}

/// Variants as RON: without content, with two parts, and with a field.
fn ron_variants(alloc: Global) -> Result<String, AllocError> {
    let mut state = SerRonState {
        out: String::new(alloc),
    };
    write_unit_variant("A", &mut state)?;
    write_variant(alloc, "B", &(1i32, Part { of: &true }), 0, &mut state)?;
    write_fields_variant::<Field>("C", &&2, alloc, 1, &mut state)?;
    Ok(state.out)
}

#[test]
fn fields_are_written(rt: HostRuntime) {
    let alloc = rt.alloc();
    is_made(&rt, json_field(alloc), "\"value\":7{\"value\":7}");
    let expected = "    value:7,\n(\n    value:7,\n)";
    is_made(&rt, ron_field(alloc), expected);
    let expected = "AB(1, true)C(\n        value:2,\n    )";
    is_made(&rt, ron_variants(alloc), expected);
}

/// The value of the field that a JSON text begins with.
fn json_value(alloc: Global, text: &str) -> JsonResult<i32> {
    let mut input = text.chars();
    let mut state = DeJsonState::new(alloc);
    state.next(&mut input);
    state.next_tok(alloc, &mut input)?;
    let name = state.as_string(alloc)?;
    state.next_colon(alloc, &mut input)?;
    let mut slots = <Field as JsonFields>::empty();
    let _is_known = <Field as JsonFields>::read_field(
        name.as_str(),
        &mut slots,
        alloc,
        &mut state,
        &mut input,
    )?;
    <Field as JsonFields>::values(slots, alloc, &state)
}

/// The value of the field of a JSON text.
fn json_struct(alloc: Global, text: &str) -> JsonResult<i32> {
    let mut input = text.chars();
    let mut state = DeJsonState::new(alloc);
    state.next(&mut input);
    state.next_tok(alloc, &mut input)?;
    read_json::<Field>(alloc, &mut state, &mut input)
}

/// Reads the field whose name is pending, and answers whether the name is its own.
fn read_field_of<F: RonFields>(
    slots: &mut F::Slots,
    alloc: Global,
    state: &mut DeRonState,
    input: &mut Chars<'_>,
) -> RonResult<bool> {
    match state.tok {
        DeRonTok::Ident => F::read_field(slots, alloc, state, input),
        _ => Err(state.err_token(alloc, "name")),
    }
}

/// The value of the field that a RON text begins with.
fn ron_value(alloc: Global, text: &str) -> RonResult<i32> {
    let mut input = text.chars();
    let mut state = DeRonState::new(alloc);
    state.next(&mut input);
    state.next_tok(alloc, &mut input)?;
    let mut slots = <Field as RonFields>::empty();
    let _is_known = read_field_of::<Field>(&mut slots, alloc, &mut state, &mut input)?;
    <Field as RonFields>::values(slots, alloc, &state)
}

/// The value of the field of a RON text.
fn ron_struct(alloc: Global, text: &str) -> RonResult<i32> {
    let mut input = text.chars();
    let mut state = DeRonState::new(alloc);
    state.next(&mut input);
    state.next_tok(alloc, &mut input)?;
    read_ron::<Field>(alloc, &mut state, &mut input)
}

/// The name of a variant that a RON text begins with.
fn ron_name(alloc: Global, text: &str) -> RonResult<String> {
    let mut input = text.chars();
    let mut state = DeRonState::new(alloc);
    state.next(&mut input);
    state.next_tok(alloc, &mut input)?;
    read_variant_name(alloc, &mut state, &mut input)
}

/// Whether a JSON text is rejected with this message.
fn is_json_error(read: JsonResult<i32>, msg: &str) -> bool {
    match read {
        Ok(_value) => false,
        Err(error) => error.msg.as_str() == msg,
    }
}

#[test]
fn json_fields_are_read(rt: HostRuntime) {
    let alloc = rt.alloc();
    let value = json_value(alloc, "\"value\":7}").ok();
    holds(&rt, value == Some(7), "a field");
    let is_missing = is_json_error(json_value(alloc, "\"z\":7}"), "Key not found value");
    holds(&rt, is_missing, "z");
    let value = json_struct(alloc, "{\"z\":1,\"value\":7}").ok();
    holds(&rt, value == Some(7), "{}");
}

/// Whether a RON text is rejected with this message.
fn is_ron_error<T: Drop>(read: RonResult<T>, msg: &str) -> bool {
    match read {
        Ok(_value) => false,
        Err(error) => error.msg.as_str() == msg,
    }
}

/// Whether a name is read.
fn is_name(read: RonResult<String>, name: &str) -> bool {
    match read {
        Ok(found) => found.as_str() == name,
        Err(_error) => false,
    }
}

#[test]
fn ron_fields_are_read(rt: HostRuntime) {
    let alloc = rt.alloc();
    let value = ron_value(alloc, "value:7)").ok();
    holds(&rt, value == Some(7), "a field");
    let is_missing = is_ron_error(ron_value(alloc, "z:7)"), "Key not found value");
    holds(&rt, is_missing, "z");
    let value = ron_struct(alloc, "(value:7)").ok();
    holds(&rt, value == Some(7), "()");
    holds(&rt, is_name(ron_name(alloc, "B (1"), "B"), "B");
    let expected = "Unexpected token Str expected Identifier ";
    let is_rejected = is_ron_error(ron_name(alloc, "\"B\"(1"), expected);
    holds(&rt, is_rejected, "\"B\"");
    let error = unknown_variant(alloc, &mut DeRonState::new(alloc), "D");
    holds(&rt, error.msg.as_str() == "Enum not defined D", "D");
}
