//! The types that contain each other, or the one that contains itself, as ghost terms that speak of
//! all of them.

use crate::part::Names;
use derive_pen::Pen;
use derive_syntax::{Case, Cycle, Definition, Holes, Shape, Source};

/// The types of a cycle.
#[derive(Drop)]
pub(crate) struct Members {
    /// Their names, in the order in which the prover has them.
    all: Vec<Names>,
    /// That of the root.
    pub(crate) root: Names,
}

/// The names of a type, by its name in the program.
pub(crate) fn names_of(pen: &Pen, name: &str) -> Names {
    Names {
        of: pen.copy(name),
        snake: snake_of(pen, name),
    }
}

/// The name of a type in snake case.
pub(crate) fn snake_of(pen: &Pen, name: &str) -> String {
    pen.whole(Case::Snake.of_variant(pen.alloc(), name))
}

/// The types of a cycle of a source.
pub(crate) fn members_of<'a>(pen: &Pen, source: &Source<'a>, cycle: &Cycle<'a>) -> Members {
    let mut all = Vec::new(pen.alloc());
    for are_enums in [true, false] {
        for name in sorted(pen, source, cycle, are_enums) {
            pen.push(&mut all, names_of(pen, name));
        }
    }
    Members {
        all,
        root: names_of(pen, cycle.root.text),
    }
}

/// The names of the enums of a cycle, or of its structs, ascending: so the prover has them, enums
/// first.
fn sorted<'a>(pen: &Pen, source: &Source<'a>, cycle: &Cycle<'a>, are_enums: bool) -> Vec<&'a str> {
    let mut names: Vec<&str> = Vec::new(pen.alloc());
    for definition in &source.definitions {
        let is_enum = matches!(definition.shape, Shape::Variants(_));
        if is_enum == are_enums && definition.name.is_among(&cycle.names) {
            pen.push(&mut names, definition.name.text);
        }
    }
    pen.sort(&mut names);
    names
}

/// What the prover calls a variant of an enum beside those of all types of a cycle: by its name, or
/// by that of the enum and its own where another enum has a variant of that name.
pub(crate) fn constructor_of<'a>(
    pen: &Pen,
    source: &Source<'a>,
    cycle: &Cycle<'a>,
    (of, variant): (&str, &str),
) -> String {
    for definition in &source.definitions {
        let is_other = definition.name.text != of && definition.name.is_among(&cycle.names);
        if is_other && has_variant(definition, variant) {
            return pen.two("{}::{}", of, variant);
        }
    }
    pen.copy(variant)
}

/// Whether a type is an enum with a variant of this name.
fn has_variant(definition: &Definition<'_>, name: &str) -> bool {
    let Shape::Variants(variants) = &definition.shape else {
        return false;
    };
    for variant in variants {
        if variant.name.text == name {
            return true;
        }
    }
    false
}

impl Members {
    /// Whether they are several.
    pub(crate) fn are_several(&self) -> bool {
        self.all.len() > 1
    }

    /// The name of the first: what is said of all of them stands in its module.
    pub(crate) fn first(&self) -> &str {
        match self.all.first() {
            Some(names) => names.of.as_str(),
            None => "",
        }
    }

    /// A text for each, after a space but the first: one for the root, and one for each other, with
    /// the holes `NAME` and `SNAKE` for its names.
    fn each(&self, pen: &Pen, root: &str, other: &str) -> String {
        let mut text = pen.empty();
        for names in &self.all {
            let is_root = names.of.as_str() == self.root.of.as_str();
            let mut holes = Holes::new(pen.alloc());
            holes.put("NAME", names.of.as_str());
            holes.put("SNAKE", names.snake.as_str());
            pen.add_between(&mut text, " ");
            let template = if is_root { root } else { other };
            pen.add(&mut text, pen.whole(holes.fill(template)).as_str());
        }
        text
    }

    /// Puts what speaks of all of them into holes.
    pub(crate) fn put(&self, pen: &Pen, holes: &mut Holes) {
        holes.put("ROOT", self.root.of.as_str());
        holes.put("BASE", self.root.snake.as_str());
        for (hole, root, other) in TERMS {
            holes.put(*hole, self.each(pen, *root, *other).as_str());
        }
    }
}

/// What speaks of all types: the hole, and a template for the root and for each other.
const TERMS: &[(&str, &str, &str)] = &[
    ("TYPES", "$NAME", "$NAME"),
    ("FUNCTOR", "X", "$NAME"),
    ("AS_MEANINGS", "Meaning", "Meaning"),
    ("AS_DEPTHS", "ℕ", "ℕ"),
    ("ALL_STEPS", "$SNAKE_means_step", "$SNAKE_means_step"),
    ("ALL_DEPTHS", "$SNAKE_depth_step", "$SNAKE_depth_step"),
    ("EACH_MEANS", "$SNAKE_means", "$SNAKE_means_folded"),
    ("EACH_DEPTH", "$SNAKE_depth", "$SNAKE_depth_folded"),
];
