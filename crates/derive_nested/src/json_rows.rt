//! What is proved of named fields that are appended in JSON, one after the other.

use crate::held::Held;
use crate::nested::Nested;
use crate::text_codec::JSON;
use crate::text_fields::field_name;
use derive_pen::Pen;
use derive_syntax::Holder;

/// What is proved of fields that are appended.
#[derive(Drop)]
pub(crate) struct Appended {
    /// The fields.
    pub(crate) fields: String,
    /// What they append.
    pub(crate) ok: String,
    /// Whether none comes before the next.
    pub(crate) next: String,
}

/// What is proved of all fields of a struct or a variant, and the text after them, as a ghost term.
pub(crate) fn fields_proof(pen: &Pen, nested: &Nested<'_>, held: &Held<'_>) -> (Appended, String) {
    let count = held.leaves.len();
    let row = row_proof(pen, (nested, held), 0, count);
    (row, state_before(pen, held, count))
}

/// What is proved of the fields from one place up to another.
fn row_proof(pen: &Pen, of: (&Nested<'_>, &Held<'_>), from: usize, end: usize) -> Appended {
    let count = end.saturating_sub(from);
    if count < 2 {
        return field_proof(pen, of, from);
    }
    let middle = from.saturating_add(count / 2);
    let one = row_proof(pen, of, from, middle);
    let other = row_proof(pen, of, middle, end);
    let (nested, held) = of;
    let (first, next) = (first_at(pen, held, from), first_at(pen, held, middle));
    let last = first_at(pen, held, end);
    let before = state_before(pen, held, from);
    let between = state_before(pen, held, middle);
    let after = state_before(pen, held, end);
    let mut holes = nested.holes(pen);
    holes.put("FIRST", first.as_str());
    holes.put("SECOND", next.as_str());
    holes.put("LAST", last.as_str());
    holes.put("ONE_FIELDS", one.fields.as_str());
    holes.put("OTHER_FIELDS", other.fields.as_str());
    holes.put("ONE_OK", one.ok.as_str());
    holes.put("ONE_NEXT", one.next.as_str());
    holes.put("OTHER_OK", other.ok.as_str());
    holes.put("OTHER_NEXT", other.next.as_str());
    holes.put("BEFORE", before.as_str());
    holes.put("BETWEEN", between.as_str());
    holes.put("AFTER", after.as_str());
    Appended {
        fields: pen.two("({} ++ {})", one.fields.as_str(), other.fields.as_str()),
        ok: pen.whole(holes.fill(MORE_FIELDS)),
        next: pen.whole(holes.fill(NONE_SO_FAR)),
    }
}

const NONE_SO_FAR: &str = "none_so_far $FIRST $SECOND $LAST $ONE_FIELDS $OTHER_FIELDS
    ($ONE_NEXT) ($OTHER_NEXT)";

const MORE_FIELDS: &str = "more_fields (field_text json_fields inner) \
    $FIRST $SECOND $ONE_FIELDS $OTHER_FIELDS
    $BEFORE $BETWEEN $AFTER
    ($ONE_OK) ($ONE_NEXT) ($OTHER_OK)";

/// What is proved of the field at a place.
fn field_proof(pen: &Pen, (nested, held): (&Nested<'_>, &Held<'_>), i: usize) -> Appended {
    let step = step_of(pen, held, i);
    let called = match held.called.get(i) {
        Some(called) => called.as_str(),
        None => "",
    };
    let name = field_name(pen, nested, &JSON, (held, called));
    let fields = if nested.is_enum {
        pen.two("({} c.args.v{}.now)", name.as_str(), pen.number(i).as_str())
    } else {
        pen.one("({} x)", name.as_str())
    };
    Appended {
        fields,
        ok: pen.one("c.in_ok-{}.ensures.ok", step.as_str()),
        next: pen.one("c.in_ok-{}.ensures.next", step.as_str()),
    }
}

/// The text before the field at a place, as a ghost term.
fn state_before(pen: &Pen, held: &Held<'_>, i: usize) -> String {
    let Some(before) = i.checked_sub(1) else {
        return pen.copy("opened");
    };
    let name = call_of(held, before);
    let mut count: usize = 1;
    for earlier in 0..before {
        if call_of(held, earlier) == name {
            count = count.saturating_add(1);
        }
    }
    if count > 1 {
        return pen.two(
            "(string_bytes c.{}-{}.new.s.out)",
            name,
            pen.number(count).as_str(),
        );
    }
    pen.one("(string_bytes c.{}.new.s.out)", name)
}

/// The function that appends the field at a place.
fn call_of(held: &Held<'_>, i: usize) -> &'static str {
    match held.leaves.get(i) {
        Some(leaf) if !leaf.nested.is_within() => "append_fields",
        Some(leaf) if leaf.nested.holders.first() == Some(&Holder::Option) => {
            "append_optional_within"
        }
        _ => "append_required_within",
    }
}

/// The names of the steps that append the fields.
pub(crate) fn steps_of(pen: &Pen, held: &Held<'_>) -> Vec<String> {
    let mut steps = Vec::new(pen.alloc());
    for (i, _leaf) in held.leaves.iter().enumerate() {
        pen.push(&mut steps, step_of(pen, held, i));
    }
    steps
}

/// The name of the step that appends the field at a place.
fn step_of(pen: &Pen, held: &Held<'_>, i: usize) -> String {
    match held.called.get(i.saturating_add(1)) {
        Some(next) => pen.one("{}_is_first", next.as_str()),
        None => pen.copy(call_of(held, i)),
    }
}

/// Whether no field comes before the one at a place, as a ghost term.
fn first_at(pen: &Pen, held: &Held<'_>, i: usize) -> String {
    match held.called.get(i) {
        Some(name) if i > 0 => {
            pen.two(
                "c.in_ok-{}_is_first.{}_is_first",
                name.as_str(),
                name.as_str(),
            )
        }
        _ => pen.copy("true"),
    }
}
