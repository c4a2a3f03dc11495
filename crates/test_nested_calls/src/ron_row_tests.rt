//! The calls by which a row of fields, and a row of parts, are read from RON. Each is made once, with
//! what it returns.

ghost use Rattle.std.specs.Prelude.{codes, if◌then◌else◌, ◌==◌};

use crate::checks::holds;
use nano_ron::DeRonTok;
use nano_ron_nested::{
    DeRonErr, DeRonState, Levels, Other, RonDefaultWithin, RonFieldsWithin, RonPartWithin,
    RonPartsWithin, Within,
};
use nano_schema::{Label, Newtype, Required, TypeDefault};
use std::alloc::Global;
use std::str::Chars;
use test_nested_derived::Tree;

/// The names of the fields.
struct Names<const I: usize> {}

impl<const I: usize> Label for Names<I> {
    ghost label = { if I == 0 then codes "number"
        else codes "tree" };

    fn text() -> &'static str {
        match I {
            0 => "number",
            _ => "tree",
        }
    }
}

/// A number, and a tree.
type Fields = (
    Other<Required<Names<0>, u8>>,
    Within<Required<Names<1>, Tree>>,
);

/// A number, and a tree.
type Parts = (Other<Newtype<u8>>, Within<Newtype<Tree>>);

/// The text as it is read, with its first token pending.
fn begun(alloc: Global, input: &mut Chars<'_>) -> Result<DeRonState, DeRonErr> {
    let mut state = DeRonState::new(alloc);
    state.next(input);
    state.next_tok(alloc, input)?;
    Ok(state)
}

/// Reads the field with which the text begins, and answers whether it is one of the row.
fn read_field(
    alloc: Global,
    slots: &mut <Fields as RonFieldsWithin<Levels>>::Slots,
    text: &str,
) -> Result<bool, DeRonErr> {
    let mut input = text.chars();
    let mut state = begun(alloc, &mut input)?;
    match state.tok {
        DeRonTok::Ident => <Fields as RonFieldsWithin<Levels>>::read_field(
            Levels::most(),
            128,
            slots,
            alloc,
            &mut state,
            &mut input,
        ),
        _ => Ok(false),
    }
}

/// The values of the fields that these texts are.
fn fields(alloc: Global, first: &str, second: &str) -> Result<(u8, Tree), DeRonErr> {
    let mut slots = <Fields as RonFieldsWithin<Levels>>::empty();
    let _is_known = read_field(alloc, &mut slots, first)?;
    let _is_known = read_field(alloc, &mut slots, second)?;
    <Fields as RonFieldsWithin<Levels>>::values(slots, alloc, &DeRonState::new(alloc))
}

fn are_fields(alloc: Global) -> bool {
    match fields(alloc, "tree: Leaf(4))", "number: 7)") {
        Ok(values) => {
            let same = values == (7, Tree::Leaf(4));
            <Fields as RonFieldsWithin<Levels>>::discard_values(values);
            same
        }
        Err(_error) => false,
    }
}

/// The field is known, and can be dropped before the rest is read.
fn is_dropped(alloc: Global) -> bool {
    let mut slots = <Fields as RonFieldsWithin<Levels>>::empty();
    let known = read_field(alloc, &mut slots, "number: 7)");
    <Fields as RonFieldsWithin<Levels>>::discard(slots);
    known.unwrap_or(false)
}

/// The parts that the text has after an opening parenthesis.
fn parts(alloc: Global, text: &str) -> Result<(u8, Tree), DeRonErr> {
    let mut input = text.chars();
    let mut state = begun(alloc, &mut input)?;
    <Parts as RonPartsWithin<Levels>>::read_parts(
        Levels::most(),
        128,
        alloc,
        &mut state,
        &mut input,
    )
}

fn are_parts(alloc: Global) -> bool {
    match parts(alloc, "7, Leaf(4))") {
        Ok(values) => values == (7, Tree::Leaf(4)),
        Err(_error) => false,
    }
}

/// The part with which the text begins.
fn part(alloc: Global, text: &str) -> Result<Tree, DeRonErr> {
    let mut input = text.chars();
    let mut state = begun(alloc, &mut input)?;
    <Within<Newtype<Tree>> as RonPartWithin<Levels>>::read_part(
        Levels::most(),
        128,
        alloc,
        &mut state,
        &mut input,
    )
}

fn is_part(alloc: Global) -> bool {
    match part(alloc, "Leaf(4))") {
        Ok(tree) => {
            let same = tree == Tree::Leaf(4);
            <Within<Newtype<Tree>> as RonPartWithin<Levels>>::discard_part(tree);
            same
        }
        Err(_error) => false,
    }
}

/// The default of a list of trees is none of them.
fn is_default(alloc: Global) -> bool {
    match <TypeDefault as RonDefaultWithin<Vec<Tree>>>::default(alloc) {
        Ok(trees) => trees.is_empty(),
        Err(_error) => false,
    }
}

#[test]
fn rows_are_read_within_levels(rt: HostRuntime) {
    let alloc = rt.alloc();
    holds(&rt, are_fields(alloc), "fields");
    holds(&rt, is_dropped(alloc), "a field");
    holds(&rt, are_parts(alloc), "parts");
    holds(&rt, is_part(alloc), "a part");
    holds(&rt, is_default(alloc), "a default");
}
