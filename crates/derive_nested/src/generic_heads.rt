//! The definitions of a type with parameters that stand outside of a module: each takes what it
//! speaks of before all else.

use crate::generic::{Kind, name_of};
use crate::nested::Nested;
use crate::parameters::coded_by;
use crate::words::{Words, defined};
use derive_pen::Pen;

/// What a definition outside of the module takes before all else: in its type, and in each
/// equation.
fn taken(pen: &Pen, nested: &Nested<'_>, kind: &Kind) -> (String, String) {
    let types = nested.types(pen);
    let none = coded_by("");
    let given = nested.of_each(pen, "{$NAME}", none, " ");
    match kind {
        Kind::Content => (
            nested.of_each(pen, "Type 0 → ", none, ""),
            pen.one(" {}", types.as_str()),
        ),
        Kind::Shape => (
            pen.one("{{} : Type 0} → ", types.as_str()),
            pen.one(" {}", given.as_str()),
        ),
        Kind::Alone => (
            pen.one("({} : Type 0) → ", types.as_str()),
            pen.one(" {}", types.as_str()),
        ),
        Kind::Means => {
            let means = nested.of_each(pen, "($NAME → Meaning) → ", none, "");
            let names = nested.of_each(pen, "$SNAKE_means", none, " ");
            (
                pen.two("{{} : Type 0} → {}", types.as_str(), means.as_str()),
                pen.two(" {} {}", given.as_str(), names.as_str()),
            )
        }
        Kind::Legal => (
            nested.of_each(pen, "(Meaning → Type 0) → ", none, ""),
            pen.one(
                " {}",
                nested.of_each(pen, "$SNAKE_legal", none, " ").as_str(),
            ),
        ),
        _ => (pen.empty(), pen.empty()),
    }
}

/// A definition outside of the module: what it takes stands before all else, in its type, and in
/// each equation.
pub(crate) fn headed(
    pen: &Pen,
    nested: &Nested<'_>,
    words: &Words,
    (kind, block): (&Kind, &str),
) -> String {
    let (name, (of, given)) = (name_of(block), taken(pen, nested, kind));
    let mut text = pen.empty();
    for line in block.split('\n') {
        let rest = defined(line);
        let before = line.strip_suffix(rest).unwrap_or("");
        let line = match rest.strip_prefix(name) {
            Some(after) => match after.strip_prefix(" : ") {
                Some(type_of) => {
                    let type_of = seen_by(pen, nested, kind, type_of);
                    let type_of = words.reworded(pen, type_of.as_str());
                    pen.four("{}{} : {}{}", before, name, of.as_str(), type_of.as_str())
                }
                None => pen.three(
                    "{}{}{}",
                    name,
                    given.as_str(),
                    words.reworded(pen, after).as_str(),
                ),
            },
            None => words.reworded(pen, line),
        };
        pen.add(&mut text, line.as_str());
        pen.add(&mut text, "\n");
    }
    text
}

/// The type of a law: what a variant with no content is seen as, is said with the parameters.
fn seen_by(pen: &Pen, nested: &Nested<'_>, kind: &Kind, type_of: &str) -> String {
    let view = pen.one("{}_view ", nested.names.snake.as_str());
    match (kind, type_of.strip_prefix(view.as_str())) {
        (Kind::Alone, Some(rest)) => {
            let given = nested.of_each(pen, "{$NAME = $NAME}", coded_by(""), " ");
            pen.three("{}{} {}", view.as_str(), given.as_str(), rest)
        }
        _ => pen.copy(type_of),
    }
}
