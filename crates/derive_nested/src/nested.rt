//! A type that contains itself, as what is written says it.

use crate::cycle::{Members, constructor_of, members_of, names_of};
use crate::held::{Held, struct_held, variant_held};
use crate::parameters::{Format, first_of};
use crate::part::Names;
use crate::wrapped::{applied, at, atom};
use derive_pen::Pen;
use derive_syntax::{Attributes, Cycle, Definition, Fault, Holes, Shape, Source};

/// A type that contains itself.
#[derive(Drop)]
pub(crate) struct Nested<'a> {
    /// Its names.
    pub(crate) names: Names,
    /// The types that it contains and that contain it, with itself.
    pub(crate) members: Members,
    /// Whether it is an enum.
    pub(crate) is_enum: bool,
    /// How many levels are read.
    pub(crate) limit: &'a str,
    /// The function that reports more.
    pub(crate) too_deep: &'static str,
    /// What its variants hold, or what it has as a struct.
    pub(crate) contents: Vec<Held<'a>>,
    /// Its type parameters.
    pub(crate) parameters: Vec<Names>,
    /// Its first format.
    pub(crate) first: Format,
}

/// The cycle of a definition.
///
/// # Errors
///
/// The type does not contain itself, or an allocation fails.
fn cycle_of<'a>(
    pen: &Pen,
    source: &Source<'a>,
    definition: &Definition<'a>,
) -> Result<Cycle<'a>, Fault> {
    match source.cycle_of(pen.alloc(), definition)? {
        Some(cycle) => Ok(cycle),
        None => Err(definition.name.fault("does not contain itself")),
    }
}

/// What stands above the root of a cycle.
pub(crate) fn counted_in<'a>(source: &Source<'a>, cycle: &Cycle<'a>) -> Option<Attributes<'a>> {
    for definition in &source.definitions {
        if cycle.is_root(definition.name) {
            return Some(definition.attributes);
        }
    }
    None
}

/// A definition of a source as what is written says it. The fields of a struct are those of this
/// value.
pub(crate) fn nested_of<'a>(
    pen: &Pen,
    (source, definition): (&Source<'a>, &Definition<'a>),
    value: &str,
) -> Result<Nested<'a>, Fault> {
    let cycle = cycle_of(pen, source, definition)?;
    let contents = contents_of(pen, (source, definition), &cycle, value)?;
    let mut parameters = Vec::new(pen.alloc());
    for parameter in &cycle.parameters {
        pen.push(&mut parameters, names_of(pen, parameter.text));
    }
    let counted = counted_in(source, &cycle).unwrap_or(definition.attributes);
    let too_deep = match counted.levels {
        Some(_limit) => "too_many_levels",
        None => "too_deep",
    };
    Ok(Nested {
        names: names_of(pen, definition.name.text),
        members: members_of(pen, source, &cycle),
        is_enum: matches!(definition.shape, Shape::Variants(_)),
        limit: counted.level_limit(),
        too_deep,
        contents,
        parameters,
        first: first_of(counted),
    })
}

/// What the variants of a definition hold, or what it has as a struct whose fields are those of
/// this value.
fn contents_of<'a>(
    pen: &Pen,
    (source, definition): (&Source<'a>, &Definition<'a>),
    cycle: &Cycle<'a>,
    value: &str,
) -> Result<Vec<Held<'a>>, Fault> {
    let mut contents = Vec::new(pen.alloc());
    let variants = match &definition.shape {
        Shape::Fields(fields) => {
            pen.push(&mut contents, struct_held(pen, cycle, (fields, value))?);
            return Ok(contents);
        }
        Shape::Parts(_parts) => return Ok(contents),
        Shape::Variants(variants) => variants,
    };
    for variant in variants {
        let names = (definition.name.text, variant.name.text);
        let constructor = constructor_of(pen, source, cycle, names);
        let held = variant_held(pen, cycle, variant, constructor)?;
        pen.push(&mut contents, held);
    }
    Ok(contents)
}

impl Nested<'_> {
    /// The holes of templates in which its names stand, and how many levels are read.
    pub(crate) fn holes(&self, pen: &Pen) -> Holes {
        let mut holes = Holes::new(pen.alloc());
        holes.put("NAME", self.names.of.as_str());
        holes.put("SNAKE", self.names.snake.as_str());
        holes.put("LIMIT", self.limit);
        holes
    }

    /// The same, and those in which what speaks of all types stands that contain each other.
    pub(crate) fn all_holes(&self, pen: &Pen) -> Holes {
        let mut holes = self.holes(pen);
        self.members.put(pen, &mut holes);
        holes
    }

    /// The names of the type of whose values it is a layer: itself, or the root.
    pub(crate) fn root(&self) -> &Names {
        &self.members.root
    }

    /// Whether each way back to it leads through another type.
    pub(crate) fn is_around(&self) -> bool {
        self.names.of.as_str() != self.members.root.of.as_str()
    }

    /// What a value is seen as: what the variants hold, each of the first variant and the rest.
    /// The type itself is called so.
    pub(crate) fn seen(&self, pen: &Pen, itself: &str) -> String {
        let mut seen: Option<String> = None;
        let between = if self.contents.len() > 3 {
            "\n    "
        } else {
            " "
        };
        for held in self.contents.iter().rev() {
            let of = at(pen, held.row.part.of.as_str(), itself);
            seen = match seen {
                Some(rest) => Some(either(pen, of.as_str(), between, rest.as_str())),
                None => Some(of),
            };
        }
        seen.unwrap_or(pen.copy("Unit {0}"))
    }

    /// A value of the content of a variant at its place.
    pub(crate) fn at_place(&self, pen: &Pen, i: usize, value: &str) -> String {
        let count = self.contents.len();
        let is_last = i.saturating_add(1) == count;
        if count < 2 {
            return pen.copy(value);
        }
        let (depth, end) = if is_last {
            (i.saturating_sub(1), "Later")
        } else {
            (i, "First")
        };
        let mut path = pen.two("{} {}", end, value);
        for _later in 0..depth {
            path = pen.one("Later ({})", path.as_str());
        }
        path
    }
}

/// A type of values of one of two types, with this between them.
fn either(pen: &Pen, first: &str, between: &str, rest: &str) -> String {
    let first = applied(pen, "Either", first);
    let rest = atom(pen, rest);
    pen.three("{}{}{}", first.as_str(), between, rest.as_str())
}
