//! The definitions of a type that contains itself that no format changes: what a value is seen as,
//! what it means, how deep it is, and which meanings are legal.

use crate::around::around_means;
use crate::held::Held;
use crate::nested::Nested;
use crate::weaker::weaker;
use crate::wrapped::{applied, atom};
use derive_pen::Pen;

/// The definitions of types that contain each other, or of one that contains itself, which have
/// several formats or one.
pub(crate) fn definitions(pen: &Pen, members: &[Nested<'_>], has_several: bool) -> String {
    let mut text = pen.empty();
    for nested in members {
        pen.add(&mut text, seen(pen, nested).as_str());
    }
    pen.add(&mut text, "\n-- ---- what it means, and how deep it is\n");
    for nested in members {
        pen.add(&mut text, meant(pen, nested).as_str());
    }
    for nested in root_first(pen, members) {
        pen.add(&mut text, folded(pen, nested).as_str());
    }
    for nested in members {
        if has_several {
            pen.add(&mut text, legal(pen, nested).as_str());
        }
        if has_several && nested.is_generic() {
            pen.add(&mut text, weaker(pen, nested).as_str());
        }
    }
    text
}

/// Types that contain each other, of which the root is the last, with the root before the others.
pub(crate) fn root_first<'s, 'a>(pen: &Pen, members: &'s [Nested<'a>]) -> Vec<&'s Nested<'a>> {
    let mut ordered = Vec::new(pen.alloc());
    if let Some((root, others)) = members.split_last() {
        pen.push(&mut ordered, root);
        for nested in others {
            pen.push(&mut ordered, nested);
        }
    }
    ordered
}

// ---- what a value is seen as

/// What a value is seen as.
fn seen(pen: &Pen, nested: &Nested<'_>) -> String {
    let head = pen.one("{}Content X", nested.names.of.as_str());
    let content = nested.seen(pen, "X");
    let content = equation(pen, head.as_str(), content.as_str());
    let mut values = Vec::new(pen.alloc());
    for (i, held) in nested.contents.iter().enumerate() {
        pen.push(
            &mut values,
            nested.at_place(pen, i, held.row.value.as_str()),
        );
    }
    let opened = cases(pen, nested, "opened", &values);
    let mut holes = nested.all_holes(pen);
    holes.put("CONTENT", content.as_str());
    holes.put("OPENED", opened.as_str());
    pen.whole(holes.fill(SEEN))
}

const SEEN: &str = "
-- ==== $NAME: what a value is seen as

abbrev pub $NAMEContent : Type 0 → Type 0
$CONTENT
abbrev pub $SNAKE_opened : {X : Type 0} → $NAME-F $FUNCTOR → $NAMEContent X
$OPENED
abbrev pub $SNAKE_view : $NAME → $NAMEContent $ROOT
$SNAKE_view x = $SNAKE_opened (out-$NAME x)
";

/// How many columns a line has.
const COLUMNS: usize = 100;

/// The line of a definition: what is defined, and the term; or two lines, where it is too long.
pub(crate) fn equation(pen: &Pen, head: &str, term: &str) -> String {
    let line = pen.two("{} = {}", head, term);
    if line.chars().count() <= COLUMNS {
        pen.one("{}\n", line.as_str())
    } else {
        pen.two("{} =\n    {}\n", head, term)
    }
}

/// A definition by cases, of which there is one for each variant or for the struct: the end of its
/// name, and the terms.
pub(crate) fn cases(pen: &Pen, nested: &Nested<'_>, end: &str, terms: &[String]) -> String {
    let mut text = pen.empty();
    for (held, term) in nested.contents.iter().zip(terms.iter()) {
        let pattern = pattern(pen, nested, held);
        let head = pen.three(
            "{}_{} {}",
            nested.names.snake.as_str(),
            end,
            pattern.as_str(),
        );
        pen.add(
            &mut text,
            equation(pen, head.as_str(), term.as_str()).as_str(),
        );
    }
    text
}

/// What stands for the values in a definition by cases.
fn pattern(pen: &Pen, nested: &Nested<'_>, held: &Held<'_>) -> String {
    if !nested.is_enum {
        return pen.copy("y");
    }
    let (name, values) = (nested.names.of.as_str(), held.values(pen));
    let value = pen.three(
        "{}-F.{}{}",
        name,
        held.constructor.as_str(),
        values.as_str(),
    );
    atom(pen, value.as_str())
}

// ---- what it means, and how deep it is

/// What a value means, and how deep it is, step by step. A type alone is folded beside each.
fn meant(pen: &Pen, nested: &Nested<'_>) -> String {
    let mut steps = Vec::new(pen.alloc());
    let mut depths = Vec::new(pen.alloc());
    for (i, held) in nested.contents.iter().enumerate() {
        pen.push(&mut steps, step(pen, nested, held, i));
        pen.push(&mut depths, pen.copy(held.row.part.depth.as_str()));
    }
    let steps = cases(pen, nested, "means_step", &steps);
    let depths = cases(pen, nested, "depth_step", &depths);
    let mut holes = nested.all_holes(pen);
    holes.put("STEPS", steps.as_str());
    holes.put("DEPTHS", depths.as_str());
    let is_alone = !nested.members.are_several();
    let mut text = pen.whole(holes.fill(MEANS_STEP));
    pen.add(
        &mut text,
        pen.whole(holes.fill(if is_alone { MEANS } else { "" }))
            .as_str(),
    );
    pen.add(&mut text, pen.whole(holes.fill(DEPTH_STEP)).as_str());
    pen.add(
        &mut text,
        pen.whole(holes.fill(if is_alone { DEPTH } else { "" }))
            .as_str(),
    );
    text
}

const MEANS_STEP: &str = "
abbrev pub $SNAKE_means_step : $NAME-F $AS_MEANINGS → Meaning
$STEPS";

const DEPTH_STEP: &str = "
abbrev pub $SNAKE_depth_step : $NAME-F $AS_DEPTHS → ℕ
$DEPTHS";

const MEANS: &str = "
abbrev pub $SNAKE_means : $NAME → Meaning
$SNAKE_means = fold-$NAME $AS_MEANINGS $ALL_STEPS
";

const DEPTH: &str = "
abbrev pub $SNAKE_depth : $NAME → ℕ
$SNAKE_depth = fold-$NAME $AS_DEPTHS $ALL_DEPTHS
";

/// What a value of a type means that is one of several, and how deep it is, by the steps of all.
fn folded(pen: &Pen, nested: &Nested<'_>) -> String {
    if !nested.members.are_several() {
        return pen.empty();
    }
    let mut holes = nested.all_holes(pen);
    if !nested.is_around() {
        let mut text = pen.whole(holes.fill(MEANS));
        pen.add(&mut text, pen.whole(holes.fill(DEPTH)).as_str());
        return text;
    }
    holes.put("SAID", around_means(pen, nested).as_str());
    pen.whole(holes.fill(FOLDED))
}

const FOLDED: &str = "
-- by the steps, and as the layer around `$ROOT` says it
abbrev pub $SNAKE_means_folded : $NAME → Meaning
$SNAKE_means_folded = fold-$NAME $AS_MEANINGS $ALL_STEPS

abbrev pub $SNAKE_depth_folded : $NAME → ℕ
$SNAKE_depth_folded = fold-$NAME $AS_DEPTHS $ALL_DEPTHS

abbrev pub $SNAKE_means : $NAME → Meaning
$SNAKE_means x =
    $SAID
";

/// What a value of a variant at its place means, or one of the struct.
fn step(pen: &Pen, nested: &Nested<'_>, held: &Held<'_>, i: usize) -> String {
    let step = held.row.part.step.as_str();
    if nested.is_enum {
        pen.two(
            "tagged {} {}",
            pen.number(i).as_str(),
            atom(pen, step).as_str(),
        )
    } else {
        pen.copy(step)
    }
}

// ---- which meanings are legal

/// Which meanings are legal, in every format.
fn legal(pen: &Pen, nested: &Nested<'_>) -> String {
    let snake = nested.names.snake.as_str();
    let head = pen.one("{}_step P", snake);
    let line = equation(pen, head.as_str(), legal_set(pen, nested).as_str());
    pen.two(
        "
-- ---- which meanings are legal, given those that are of the values in it

abbrev pub {}_step : LegalStep
{}",
        snake,
        line.as_str(),
    )
}

/// The set of the legal meanings.
fn legal_set(pen: &Pen, nested: &Nested<'_>) -> String {
    if nested.is_enum {
        return applied(pen, "LegalVariant", legal_variants(pen, nested).as_str());
    }
    match nested.contents.first() {
        Some(held) => pen.copy(held.row.part.legal.as_str()),
        None => pen.copy("LegalUnit"),
    }
}

/// The legal meanings of each variant, those of the first and then the rest.
fn legal_variants(pen: &Pen, nested: &Nested<'_>) -> String {
    if nested.contents.is_empty() {
        return pen.copy("LegalUnit");
    }
    let mut sets = pen.copy("no_variants");
    for held in nested.contents.iter().rev() {
        let variant = applied(pen, "variant", held.row.part.legal.as_str());
        sets = applied(pen, variant.as_str(), sets.as_str());
    }
    sets
}
