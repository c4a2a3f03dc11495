//! What is proved of the calls that append a struct in RON, or a variant with named fields: the
//! fields one below the other.

use crate::held::Held;
use crate::nested::Nested;
use crate::ron_answers::WriterNames;
use derive_pen::Pen;
use derive_syntax::{Holder, Holes};

/// What is proved of what appends something.
#[derive(Drop)]
pub(crate) struct Written {
    /// The names of the definitions that the proof cites.
    pub(crate) cited: String,
    /// The proof, as lines.
    pub(crate) proof: String,
}

/// What is proved of what appends a struct.
pub(crate) fn struct_proof(
    pen: &Pen,
    nested: &Nested<'_>,
    (held, names): (&Held<'_>, &WriterNames),
) -> Written {
    let mut cited = cited_names(pen, names);
    let mut law = pen.empty();
    // What a type around the root is written as is seen by computing.
    if !nested.is_around() {
        let text = pen.one("{}_ron_text", nested.names.snake.as_str());
        pen.add(&mut cited, pen.one(", {}", text.as_str()).as_str());
        pen.add(
            &mut law,
            pen.one("rw ({} c.args.d x)\n    ", text.as_str()).as_str(),
        );
    }
    let fields = terms_of(pen, names, "x");
    let row = row_proof(pen, (held, &fields), 0, fields.len());
    let mut holes = Holes::new(pen.alloc());
    holes.put("ROW", row.ok.as_str());
    holes.put("LAW", law.as_str());
    holes.put("FIELDS", row.fields.as_str());
    holes.put("INSIDE", state_before(pen, held, fields.len()).as_str());
    Written {
        cited,
        proof: pen.whole(holes.fill(STRUCT_PROOF)),
    }
}

const STRUCT_PROOF: &str = "    let x = c.args.value.now in
    let inner = c.saturating_add-inner.result in
    let before = string_bytes c.args.s.now.out in
    let opened = string_bytes c.st_pre.new.self.out in
    let row =
    $ROW in
    $LAW(on_ok_weaker c.st_post.result
    (written_between c.args.d inner $FIELDS before opened
    $INSIDE (string_bytes c.st_post.new.self.out) c.saturating_add-inner.ensures
    c.in_ok-st_pre.ensures.ok row) c.st_post.ensures.ok)
";

/// What is proved of what appends a variant with named fields.
pub(crate) fn fields_proof(pen: &Pen, (held, names): (&Held<'_>, &WriterNames)) -> Written {
    let fields = terms_of(pen, names, "");
    let row = row_proof(pen, (held, &fields), 0, fields.len());
    let inside = state_before(pen, held, fields.len());
    let mut holes = Holes::new(pen.alloc());
    holes.put("ROW", row.ok.as_str());
    holes.put("KEY", held.key.as_str());
    holes.put("FIELDS", row.fields.as_str());
    holes.put("INSIDE", inside.as_str());
    Written {
        cited: cited_names(pen, names),
        proof: pen.whole(holes.fill(FIELDS_PROOF)),
    }
}

const FIELDS_PROOF: &str = "    let inner = c.saturating_add-inner.result in
    let before = string_bytes c.args.s.now.out in
    let named = string_bytes c.write_unit_variant.new.s.out in
    let opened = string_bytes c.st_pre.new.self.out in
    let after = string_bytes c.st_post.new.self.out in
    let row =
    $ROW in
    on_ok_weaker c.st_post.result
    (λ last. both_written before named after (chars (codes \"$KEY\"))
    (fields_text ron_fields c.args.d $FIELDS) c.in_ok-write_unit_variant.ensures.ok
    (written_between c.args.d inner $FIELDS named opened
    $INSIDE after c.saturating_add-inner.ensures c.in_ok-st_pre.ensures.ok row last))
    c.st_post.ensures.ok
";

/// The names of the definitions of what each field is written as.
fn cited_names(pen: &Pen, names: &WriterNames) -> String {
    let mut cited = pen.empty();
    for name in &names.fields {
        pen.add_between(&mut cited, ", ");
        pen.add(&mut cited, name.as_str());
    }
    cited
}

/// What each field is written as: of a struct that is called so, or of the arguments.
fn terms_of(pen: &Pen, names: &WriterNames, itself: &str) -> Vec<String> {
    let mut terms = Vec::new(pen.alloc());
    for (i, name) in names.fields.iter().enumerate() {
        let term = if itself.is_empty() {
            pen.two("({} c.args.v{}.now)", name.as_str(), pen.number(i).as_str())
        } else {
            pen.two("({} {})", name.as_str(), itself)
        };
        pen.push(&mut terms, term);
    }
    terms
}

/// What is proved of fields that are appended.
#[derive(Drop)]
struct Appended {
    /// The fields.
    fields: String,
    /// What they append.
    ok: String,
}

/// What is proved of the fields from one place up to another.
fn row_proof(
    pen: &Pen,
    (held, fields): (&Held<'_>, &[String]),
    from: usize,
    end: usize,
) -> Appended {
    let count = end.saturating_sub(from);
    if count < 2 {
        let call = call_at(pen, held, from);
        let field = match fields.get(from) {
            Some(field) => field.as_str(),
            None => "",
        };
        return Appended {
            fields: pen.copy(field),
            ok: pen.one("c.in_ok-{}.ensures.ok", call.as_str()),
        };
    }
    let middle = from.saturating_add(count / 2);
    let one = row_proof(pen, (held, fields), from, middle);
    let other = row_proof(pen, (held, fields), middle, end);
    let before = state_before(pen, held, from);
    let between = state_before(pen, held, middle);
    let after = state_before(pen, held, end);
    let mut holes = Holes::new(pen.alloc());
    holes.put("ONE_FIELDS", one.fields.as_str());
    holes.put("OTHER_FIELDS", other.fields.as_str());
    holes.put("ONE_OK", one.ok.as_str());
    holes.put("OTHER_OK", other.ok.as_str());
    holes.put("BEFORE", before.as_str());
    holes.put("BETWEEN", between.as_str());
    holes.put("AFTER", after.as_str());
    Appended {
        fields: pen.two("({} ++ {})", one.fields.as_str(), other.fields.as_str()),
        ok: pen.whole(holes.fill(MORE_LINES)),
    }
}

const MORE_LINES: &str = "more_lines inner (field_text ron_fields inner) \
    $ONE_FIELDS $OTHER_FIELDS
    $BEFORE $BETWEEN
    $AFTER ($ONE_OK) ($OTHER_OK)";

/// The text before the field at a place, as a ghost term.
fn state_before(pen: &Pen, held: &Held<'_>, i: usize) -> String {
    let Some(before) = i.checked_sub(1) else {
        return pen.copy("opened");
    };
    let call = call_at(pen, held, before);
    pen.one("(string_bytes c.{}.new.s.out)", call.as_str())
}

/// The names of the calls that append the fields.
pub(crate) fn calls_of(pen: &Pen, held: &Held<'_>) -> Vec<String> {
    let mut calls = Vec::new(pen.alloc());
    for (i, _leaf) in held.leaves.iter().enumerate() {
        pen.push(&mut calls, call_at(pen, held, i));
    }
    calls
}

/// The name of the call that appends the field at a place: from the second of a name on with its
/// number.
fn call_at(pen: &Pen, held: &Held<'_>, i: usize) -> String {
    let name = call_of(held, i);
    let mut count: usize = 1;
    for earlier in 0..i {
        if call_of(held, earlier) == name {
            count = count.saturating_add(1);
        }
    }
    if count > 1 {
        return pen.two("{}-{}", name, pen.number(count).as_str());
    }
    pen.copy(name)
}

/// The function that appends the field at a place.
fn call_of(held: &Held<'_>, i: usize) -> &'static str {
    let Some(leaf) = held.leaves.get(i) else {
        return "";
    };
    match (leaf.nested.holders.first(), leaf.nested.is_within()) {
        (Some(Holder::Option), true) => "append_optional_within",
        (Some(Holder::Option), false) => "append_optional",
        (_, true) => "append_required_within",
        (_, false) => "append_required",
    }
}
