//! What a value of a type means that is a layer around values of the root: it is said as the layers
//! of all formats say it, so that they agree by computing.

use crate::held::Held;
use crate::nested::Nested;
use crate::row::Leaf;
use crate::wrapped::{at, atom};
use derive_pen::Pen;

/// What a value means.
pub(crate) fn around_means(pen: &Pen, nested: &Nested<'_>) -> String {
    if nested.is_enum {
        return choice_means(pen, nested);
    }
    let mut said = pen.empty();
    for held in &nested.contents {
        pen.add(&mut said, held.row.part.means.as_str());
    }
    let mut holes = nested.all_holes(pen);
    holes.put("SAID", said.as_str());
    pen.whole(holes.fill(RECORD))
}

const RECORD: &str = "(λ (y : $NAME-F $TYPES). $SAID) (out-$NAME x)";

/// What a value of an enum means: what its content does, with the place of its variant.
fn choice_means(pen: &Pen, nested: &Nested<'_>) -> String {
    let mut means = pen.copy("nothing");
    for (i, held) in nested.contents.iter().enumerate().rev() {
        let own = variant_means(pen, nested, (held, i));
        means = if i.saturating_add(1) == nested.contents.len() {
            own
        } else {
            pen.two("(either_is {}\n    {})", own.as_str(), means.as_str())
        };
    }
    let snake = nested.names.snake.as_str();
    pen.two("{} ({}_view x)", means.as_str(), snake)
}

/// What the content of a variant at its place means, as a function of it.
fn variant_means(pen: &Pen, nested: &Nested<'_>, (held, i): (&Held<'_>, usize)) -> String {
    let of = at(pen, held.row.part.of.as_str(), nested.root().of.as_str());
    let said = row_means(pen, &held.leaves, "v");
    pen.three(
        "(λ (v : {}). tagged {} {})",
        of.as_str(),
        pen.number(i).as_str(),
        atom(pen, said.as_str()).as_str(),
    )
}

/// What nested pairs of parts mean, of which this is the value.
fn row_means(pen: &Pen, leaves: &[Leaf<'_>], value: &str) -> String {
    if let [leaf] = leaves {
        return at(pen, leaf.part.means.as_str(), value);
    }
    let (first, second) = leaves.split_at(leaves.len() / 2);
    if leaves.is_empty() {
        return pen.copy("nothing");
    }
    let first = row_means(pen, first, pen.one("{}.0", value).as_str());
    let second = row_means(pen, second, pen.one("{}.1", value).as_str());
    pen.two("paired ({}, {})", first.as_str(), second.as_str())
}
