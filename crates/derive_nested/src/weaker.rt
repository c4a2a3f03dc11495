//! That what is legal remains so for a type with parameters, where what is legal for these and for
//! the values of the type in it does: two formats of the type agree by it.

use crate::held::Held;
use crate::nested::Nested;
use crate::parameters::coded_by;
use derive_pen::Pen;
use derive_syntax::Holes;

/// That what is legal remains so.
pub(crate) fn weaker(pen: &Pen, nested: &Nested<'_>) -> String {
    let snake = nested.names.snake.as_str();
    let none = coded_by("");
    let sets = nested.of_each(pen, "P$NAME Q$NAME", none, " ");
    let each = nested.of_each(
        pen,
        "((m : Meaning) → P$NAME m → Q$NAME m)",
        none,
        "\n    → ",
    );
    let mut holes = Holes::new(pen.alloc());
    holes.put("SNAKE", snake);
    holes.put("SETS", sets.as_str());
    holes.put("EACH", each.as_str());
    holes.put("THESE", nested.of_each(pen, "P$NAME", none, " ").as_str());
    holes.put("THOSE", nested.of_each(pen, "Q$NAME", none, " ").as_str());
    let mut text = pen.whole(holes.fill(WEAKER));
    pen.add(&mut text, equations(pen, nested).as_str());
    text
}

const WEAKER: &str = "
pub $SNAKE_weaker : {$SETS : Meaning → Type 0}
    → $EACH
    → IsWeaker (^$SNAKE_step $THESE) (^$SNAKE_step $THOSE)
";

/// The equations of it: one for each variant, or that of the struct.
fn equations(pen: &Pen, nested: &Nested<'_>) -> String {
    let snake = nested.names.snake.as_str();
    let given = nested.of_each(pen, "$SNAKE", coded_by(""), " ");
    let head = pen.two("{}_weaker {} X Y x m", snake, given.as_str());
    match nested.contents.first() {
        Some(held) if !nested.is_enum => {
            let weaker = held.row.part.weaker.as_str();
            pen.two("{} h = ({}) m h\n", head.as_str(), weaker)
        }
        _ => variants(pen, nested, head.as_str()),
    }
}

/// The equations for the variants, each of which begins so, and the one for no further variant.
fn variants(pen: &Pen, nested: &Nested<'_>, head: &str) -> String {
    let mut text = pen.empty();
    let mut path = pen.empty();
    let mut end = pen.empty();
    for held in &nested.contents {
        let line = equation(pen, held, (head, path.as_str(), end.as_str()));
        pen.add(&mut text, line.as_str());
        pen.add(&mut path, "(inr ");
        pen.add(&mut end, ")");
    }
    let none = pen.three("{} {}h{} = absurd h\n", head, path.as_str(), end.as_str());
    pen.add(&mut text, none.as_str());
    text
}

/// The equation for a variant, to which this path leads.
fn equation(pen: &Pen, held: &Held<'_>, (head, path, end): (&str, &str, &str)) -> String {
    let mut holes = Holes::new(pen.alloc());
    holes.put("HEAD", head);
    holes.put("PATH", path);
    holes.put("END", end);
    holes.put("WEAKER", held.row.part.weaker.as_str());
    pen.whole(holes.fill(EQUATION))
}

const EQUATION: &str = "$HEAD $PATH(inl h)$END =
    $PATH(inl (record { part = h.part; has = ($WEAKER) h.part h.has; is = h.is }))$END
";
