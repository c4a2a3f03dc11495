//! The calls by which rows of fields, variants and parts are read in JSON, where some hold values of
//! the type itself, and by which such parts are written. Each is made once, with what it returns.

ghost use Rattle.std.specs.Prelude.{codes, if◌then◌else◌, ◌==◌};

use crate::checks::holds;
use nano_json_nested::{
    DeJsonErr, DeJsonState, JsonContentWithin, JsonFieldsWithin, JsonPartsWithin, Levels, Other,
    SerJsonState, Within, write_pair_within,
};
use nano_json_schema::Part;
use nano_schema::{Label, Newtype, Required, Tuple};
use std::alloc::{AllocError, Global};
use std::str::Chars;
use test_nested_derived::Tree;

/// The names of the fields.
struct Names<const I: usize> {}

impl<const I: usize> Label for Names<I> {
    ghost label = { if I == 0 then codes "number"
        else codes "tree" };

    fn text() -> &'static str {
        match I {
            0 => "number",
            _ => "tree",
        }
    }
}

/// A number, and a tree.
type Fields = (
    Other<Required<Names<0>, u32>>,
    Within<Required<Names<1>, Tree>>,
);

/// A number, a tree, and a number.
type Parts = (
    Other<Newtype<u32>>,
    (Within<Newtype<Tree>>, Other<Newtype<u32>>),
);

/// The text as it is read, with its first token pending.
fn begun(alloc: Global, input: &mut Chars<'_>) -> Result<DeJsonState, DeJsonErr> {
    let mut state = DeJsonState::new(alloc);
    state.next(input);
    state.next_tok(alloc, input)?;
    Ok(state)
}

/// The values of the fields whose values, by their names, are these texts.
fn fields(alloc: Global, number: &str, tree: &str) -> Result<(u32, Tree), DeJsonErr> {
    let mut slots = <Fields as JsonFieldsWithin<Levels>>::empty();
    let mut input = number.chars();
    let mut state = begun(alloc, &mut input)?;
    let _is_known = <Fields as JsonFieldsWithin<Levels>>::read_field(
        Levels::most(),
        128,
        "number",
        &mut slots,
        alloc,
        &mut state,
        &mut input,
    )?;
    let mut input = tree.chars();
    let mut state = begun(alloc, &mut input)?;
    let _is_known = <Fields as JsonFieldsWithin<Levels>>::read_field(
        Levels::most(),
        128,
        "tree",
        &mut slots,
        alloc,
        &mut state,
        &mut input,
    )?;
    <Fields as JsonFieldsWithin<Levels>>::values(slots, alloc, &state)
}

/// The parts that the text has after an opening bracket.
fn parts(alloc: Global, text: &str) -> Result<(u32, (Tree, u32)), DeJsonErr> {
    let mut input = text.chars();
    let mut state = begun(alloc, &mut input)?;
    <Parts as JsonPartsWithin<Levels>>::read_parts(
        Levels::most(),
        128,
        alloc,
        &mut state,
        &mut input,
    )
}

fn are_fields(alloc: Global) -> bool {
    match fields(alloc, "7 ", r#"{"Leaf":[4]}"#) {
        Ok(values) => {
            let same = values == (7, Tree::Leaf(4));
            <Fields as JsonFieldsWithin<Levels>>::discard_values(values);
            same
        }
        Err(_error) => false,
    }
}

fn are_parts(alloc: Global) -> bool {
    match parts(alloc, r#"7,{"Leaf":[4]},8]"#) {
        Ok(values) => {
            let same = values.0 == 7 && values.1.0 == Tree::Leaf(4) && values.1.1 == 8;
            <Parts as JsonPartsWithin<Levels>>::discard_parts(values);
            same
        }
        Err(_error) => false,
    }
}

/// A variant of a number and a tree, as it is written.
fn written(alloc: Global) -> Result<String, AllocError> {
    let mut s = SerJsonState {
        out: String::new(alloc),
    };
    let number: u32 = 7;
    write_pair_within(
        alloc,
        "Both",
        &Part { of: &number },
        &Tree::Leaf(4),
        0,
        &mut s,
    )?;
    Ok(s.out)
}

fn is_written(alloc: Global) -> bool {
    match written(alloc) {
        Ok(text) => text.as_str() == r#"{"Both":[7,{"Leaf":[4]}]}"#,
        Err(_error) => false,
    }
}

#[test]
fn rows_are_read_within_levels(rt: HostRuntime) {
    let alloc = rt.alloc();
    holds(&rt, are_fields(alloc), "fields");
    holds(&rt, are_parts(alloc), "parts");
    let alone = <Tuple<Parts> as JsonContentWithin<Levels>>::stands_alone();
    holds(&rt, !alone, "parts that stand alone");
}

#[test]
fn a_pair_within_is_written(rt: HostRuntime) {
    let alloc = rt.alloc();
    holds(&rt, is_written(alloc), "a pair");
}
