//! The calls by which rows of fields, parts and variants are read from RON, where values of the
//! type itself stand in them.

use crate::checks::holds;
use nano_ron_nested::{
    DeRonErr, DeRonState, Levels, Other, RonChoicesWithin, SerRonState, Within, append_field,
    append_field_within, append_last, append_last_within, append_part, append_part_within,
    open_variant,
};
use nano_schema::{
    Defaulted, Either, Label, Newtype, Optional, Required, Struct, TypeDefault, Unit, Variant,
};
use std::alloc::{AllocError, Global};
use test_nested_derived::Tree;

/// The names of the variants, and of the fields.
struct Names<const I: usize> {}

impl<const I: usize> Label for Names<I> {
    ghost use Rattle.std.specs.Prelude.{codes, if◌then◌else◌, ◌==◌};

    ghost label = { if I == 0 then codes "Empty"
        else if I == 1 then codes "Pair"
        else if I == 2 then codes "Named"
        else if I == 3 then codes "number"
        else if I == 4 then codes "trees"
        else codes "tree" };

    fn text() -> &'static str {
        match I {
            0 => "Empty",
            1 => "Pair",
            2 => "Named",
            3 => "number",
            4 => "trees",
            _ => "tree",
        }
    }
}

/// A number, and a tree.
type Parts = (Other<Newtype<u8>>, Within<Newtype<Tree>>);

/// A tree, or none.
type TreeField = Within<Optional<Names<5>, Tree>>;

/// Trees, or none of them.
type TreesField = Within<Defaulted<Names<4>, Vec<Tree>, TypeDefault>>;

type Fields = (Other<Required<Names<3>, u8>>, (TreesField, TreeField));

type Variants = (
    Variant<Names<0>, Other<Unit>>,
    (Variant<Names<1>, Parts>, Variant<Names<2>, Struct<Fields>>),
);

type Values = Either<(), Either<(u8, Tree), (u8, (Vec<Tree>, Option<Tree>))>>;

/// What is said where a number stands in the place of a tree.
const NO_NAME: &str = "Unexpected token U64(8) expected Identifier ";

/// The content of the variant with this name, which is read from the text.
fn read(alloc: Global, name: &str, text: &str) -> Result<Values, DeRonErr> {
    let mut state = DeRonState::new(alloc);
    let mut input = text.chars();
    state.next(&mut input);
    state.next_tok(alloc, &mut input)?;
    let alone = <Variants as RonChoicesWithin<Levels>>::stands_alone(name);
    <Variants as RonChoicesWithin<Levels>>::read(
        Levels::most(),
        128,
        name,
        alone,
        alloc,
        &mut state,
        &mut input,
    )
}

/// The content is a number and a leaf.
fn is_pair(alloc: Global, text: &str) -> bool {
    match read(alloc, "Pair", text) {
        Ok(Either::Later(Either::First(pair))) => pair.0 == 7 && pair.1 == Tree::Leaf(4),
        _ => false,
    }
}

/// The content is a number with so many trees, and one more or none.
fn is_named(alloc: Global, text: &str, count: usize, more: bool) -> bool {
    match read(alloc, "Named", text) {
        Ok(Either::Later(Either::Later(fields))) => {
            let (number, (trees, tree)) = fields;
            number == 7 && trees.len() == count && tree.is_some() == more
        }
        _ => false,
    }
}

/// There is no such content, which is reported with these words.
fn is_wrong(alloc: Global, name: &str, text: &str, words: &str) -> bool {
    match read(alloc, name, text) {
        Ok(_values) => false,
        Err(error) => error.msg.as_str() == words,
    }
}

/// A pair of numbers as it is written.
fn written(alloc: Global) -> Result<String, AllocError> {
    let mut state = SerRonState {
        out: String::new(alloc),
    };
    open_variant("Pair", &mut state)?;
    append_part(alloc, &7u8, 0, &mut state)?;
    append_last(alloc, &8u8, 0, &mut state)?;
    Ok(state.out)
}

/// A pair of trees as it is written.
fn written_within(alloc: Global) -> Result<String, AllocError> {
    let mut state = SerRonState {
        out: String::new(alloc),
    };
    open_variant("Pair", &mut state)?;
    append_part_within(alloc, &Tree::Leaf(7), 0, &mut state)?;
    append_last_within(alloc, &Tree::Leaf(8), 0, &mut state)?;
    Ok(state.out)
}

/// A number and a tree, as fields that are written one below the other.
fn written_fields(alloc: Global) -> Result<String, AllocError> {
    let mut state = SerRonState {
        out: String::new(alloc),
    };
    append_field(alloc, "number", &7u8, 1, &mut state)?;
    append_field_within(alloc, "tree", &Tree::Leaf(4), 1, &mut state)?;
    Ok(state.out)
}

fn are_fields_written(alloc: Global) -> bool {
    match written_fields(alloc) {
        Ok(text) => text.as_str() == "    number:7,\n    tree:Leaf(4),\n",
        Err(_error) => false,
    }
}

fn is_written(alloc: Global) -> bool {
    match written(alloc) {
        Ok(text) => text.as_str() == "Pair(7, 8)",
        Err(_error) => false,
    }
}

fn is_written_within(alloc: Global) -> bool {
    match written_within(alloc) {
        Ok(text) => text.as_str() == "Pair(Leaf(7), Leaf(8))",
        Err(_error) => false,
    }
}

#[test]
fn parts_and_fields_are_read_within_levels(rt: HostRuntime) {
    let alloc = rt.alloc();
    holds(&rt, is_pair(alloc, "(7, Leaf(4))"), "a pair");
    holds(&rt, is_pair(alloc, "(7, Leaf(4),)"), "a comma at the end");
    holds(&rt, is_named(alloc, "(number: 7)", 0, false), "a default");
    holds(
        &rt,
        is_named(alloc, "(trees: [Leaf(1)], number: 7)", 1, false),
        "trees",
    );
    holds(
        &rt,
        is_named(alloc, "(tree: Node([]), number: 7,)", 0, true),
        "a tree",
    );
    holds(
        &rt,
        is_named(alloc, "(tree: None, number: 1, number: 7)", 0, false),
        "the last",
    );
    holds(&rt, is_wrong(alloc, "Pair", "(7, 8)", NO_NAME), "a number");
    holds(
        &rt,
        is_wrong(alloc, "Named", "(trees: [])", "Key not found number"),
        "no number",
    );
    holds(
        &rt,
        is_wrong(alloc, "Named", "(size: 1)", "Unexpected key size"),
        "a name",
    );
    holds(
        &rt,
        is_wrong(alloc, "Nil", "()", "Enum not defined Nil"),
        "a variant",
    );
    holds(&rt, is_written(alloc), "parts");
    holds(&rt, is_written_within(alloc), "parts that are trees");
    holds(&rt, are_fields_written(alloc), "fields");
}
