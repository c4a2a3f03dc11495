//! What a variant of a type that contains itself holds, or what such a struct has.

use crate::cycle::names_of;
use crate::missing::missing_of;
use crate::row::{Leaf, Row, row_of};
use crate::wrapped::part_of;
use derive_pen::Pen;
use derive_syntax::{
    Content, Cycle, Fault, Field, Type, Variant, field_name, nested_part, variant_name,
};

/// What a variant holds, or what a struct has.
#[derive(Drop)]
pub(crate) struct Held<'a> {
    /// The name of the variant, or nothing.
    pub(crate) name: String,
    /// What the prover calls the variant beside those of all types that contain each other, or
    /// nothing.
    pub(crate) constructor: String,
    /// What the variant is called in texts, or nothing.
    pub(crate) key: String,
    /// Whether it has named fields.
    pub(crate) has_fields: bool,
    /// What the parts are called in the program.
    pub(crate) called: Vec<String>,
    /// The parts.
    pub(crate) leaves: Vec<Leaf<'a>>,
    /// The parts together.
    pub(crate) row: Row,
}

/// What a struct has, whose fields are those of a value.
pub(crate) fn struct_held<'a>(
    pen: &Pen,
    cycle: &Cycle<'a>,
    (fields, value): (&[Field<'a>], &str),
) -> Result<Held<'a>, Fault> {
    let mut leaves = Vec::new(pen.alloc());
    let mut called = Vec::new(pen.alloc());
    for (i, field) in fields.iter().enumerate() {
        let called_so = field.name.text;
        let value = pen.two("{}.{}", value, called_so);
        pen.push(
            &mut leaves,
            leaf_of(pen, cycle, field.of, (i, value), Some(*field))?,
        );
        pen.push(&mut called, pen.copy(called_so));
    }
    let none = (pen.empty(), pen.empty(), pen.empty());
    held_of(pen, none, true, (called, leaves))
}

/// What a variant holds, which the prover calls so beside those of all types of a cycle.
pub(crate) fn variant_held<'a>(
    pen: &Pen,
    cycle: &Cycle<'a>,
    variant: &Variant<'a>,
    constructor: String,
) -> Result<Held<'a>, Fault> {
    let mut leaves = Vec::new(pen.alloc());
    let types = types_of(pen, &variant.content);
    for (i, of) in types.iter().enumerate() {
        let value = if types.len() == 1 {
            pen.copy("v")
        } else {
            pen.one("v{}", pen.number(i).as_str())
        };
        let field = field_at(&variant.content, i);
        pen.push(&mut leaves, leaf_of(pen, cycle, *of, (i, value), field)?);
    }
    let has_fields = matches!(variant.content, Content::Fields(_));
    let called = called_in(pen, &variant.content);
    let own = pen.copy(variant.name.text);
    let key = pen.whole(variant_name(pen.alloc(), variant, None));
    held_of(pen, (own, constructor, key), has_fields, (called, leaves))
}

/// The field of a variant at its place, if its fields have names.
fn field_at<'a>(content: &Content<'a>, i: usize) -> Option<Field<'a>> {
    match content {
        Content::Fields(fields) => fields.get(i).copied(),
        _ => None,
    }
}

/// Parts together, of a variant of this name, which is called so by the prover and in texts, or of
/// a struct.
fn held_of<'a>(
    pen: &Pen,
    (name, constructor, key): (String, String, String),
    has_fields: bool,
    (called, leaves): (Vec<String>, Vec<Leaf<'a>>),
) -> Result<Held<'a>, Fault> {
    Ok(Held {
        name,
        constructor,
        key,
        has_fields,
        called,
        row: row_of(pen, &leaves),
        leaves,
    })
}

/// A part of this type at its place, which may be a field with a name.
fn leaf_of<'a>(
    pen: &Pen,
    cycle: &Cycle<'a>,
    of: Type<'a>,
    (i, value): (usize, String),
    field: Option<Field<'a>>,
) -> Result<Leaf<'a>, Fault> {
    let nested = nested_part(pen.alloc(), cycle, of)?;
    let root = names_of(pen, cycle.root.text);
    let (key, missing) = match field {
        Some(field) => (
            Some(pen.whole(field_name(pen.alloc(), field, None))),
            missing_of(pen, field, &nested),
        ),
        None => (None, None),
    };
    Ok(Leaf {
        part: part_of(pen, &root, &nested),
        nested,
        key,
        missing,
        value,
        legal: pen.one("h{}", pen.number(i).as_str()),
    })
}

/// The types of what a variant holds.
fn types_of<'a>(pen: &Pen, content: &Content<'a>) -> Vec<Type<'a>> {
    let mut types = Vec::new(pen.alloc());
    match content {
        Content::Nothing => {}
        Content::Parts(parts) => {
            for part in parts {
                pen.push(&mut types, *part);
            }
        }
        Content::Fields(fields) => {
            for field in fields {
                pen.push(&mut types, field.of);
            }
        }
    }
    types
}

/// What a pattern calls the parts of a tuple variant.
const PARTS: [&str; 4] = ["first", "second", "third", "fourth"];

/// What the parts of a variant are called in the program.
fn called_in(pen: &Pen, content: &Content<'_>) -> Vec<String> {
    let mut called = Vec::new(pen.alloc());
    match content {
        Content::Nothing => {}
        Content::Parts(parts) => {
            for (part, _of) in PARTS.iter().zip(parts.iter()) {
                pen.push(&mut called, pen.copy(*part));
            }
        }
        Content::Fields(fields) => return field_names(pen, fields),
    }
    called
}

/// The names of fields.
fn field_names(pen: &Pen, fields: &[Field<'_>]) -> Vec<String> {
    let mut names = Vec::new(pen.alloc());
    for field in fields {
        pen.push(&mut names, pen.copy(field.name.text));
    }
    names
}

impl Held<'_> {
    /// The names of the parts in a ghost term, each after a space.
    pub(crate) fn values(&self, pen: &Pen) -> String {
        let mut text = pen.empty();
        for leaf in &self.leaves {
            pen.add(&mut text, " ");
            pen.add(&mut text, leaf.value.as_str());
        }
        text
    }
}
