//! What is proved of writers that end early: more comes after what was there. The search finds it
//! where few steps were taken; of later ones it is written here.

use crate::held::Held;
use crate::json_rows::steps_of;
use crate::nested::Nested;
use crate::ron_rows::calls_of;
use derive_pen::Pen;
use derive_syntax::Holes;

/// Of so many fields the search finds the steps of a type. With parameters it finds few.
fn found(nested: &Nested<'_>) -> usize {
    if nested.is_generic() { 1 } else { 5 }
}

/// Whether what writes a struct or a variant with named fields has steps that take an answer.
fn has_late_steps(members: &[Nested<'_>]) -> bool {
    for nested in members {
        for held in &nested.contents {
            if held.has_fields && held.leaves.len() > found(nested) {
                return true;
            }
        }
    }
    false
}

/// The lemmas that the answers for late steps cite, if there is such a step.
pub(crate) fn lemmas(members: &[Nested<'_>]) -> &'static str {
    if has_late_steps(members) { LEMMAS } else { "" }
}

const LEMMAS: &str = "\
use Rattle.std.proofs.Common.{◌≡◌, ◌∙◌, ℕ, List, [], Result, Ok, Err, OnErr, ap, append_assoc, append-nil, sym}
use Rattle.std.proofs.lemmas.Result.{on_err_weaker}

-- what was written before a failure, and what the failure left
more_after : (a b c x : List ℕ) → b ≡ a ++ x → (more : List ℕ) × (c ≡ b ++ more)
    → (more : List ℕ) × (c ≡ a ++ more)
more_after a b c x e m =
    (x ++ m.0, m.1 ∙ (ap (λ l. l ++ m.0) e ∙ append_assoc a x m.0))

-- nothing, where the last step left nothing
no_more : {a b : List ℕ} → b ≡ a → (more : List ℕ) × (b ≡ a ++ more)
no_more {a} {b} e = ([], e ∙ sym (append-nil a))

-- it is said of an error, whatever it is
of_error : {T E P : Type 0} (r : Result T E) → P → OnErr r P
of_error (Ok x) p = tt
of_error (Err e) p = p
";

/// The answers for the steps that fail late of a function of the writer of JSON, which appends the
/// fields of a struct or of a variant.
pub(crate) fn late_json_answers(
    pen: &Pen,
    nested: &Nested<'_>,
    held: &Held<'_>,
    append: &str,
) -> String {
    let function = pen.two("{}JsonWriter::{}", nested.names.of.as_str(), append);
    let steps = steps_of(pen, held);
    let function = (function.as_str(), found(nested));
    late_answers(pen, function, &["st_pre"], &steps)
}

/// The same of the writer of RON, which writes the name of a variant before its fields.
pub(crate) fn late_ron_answers(
    pen: &Pen,
    nested: &Nested<'_>,
    held: &Held<'_>,
    append: &str,
) -> String {
    let function = pen.two("{}RonWriter::{}", nested.names.of.as_str(), append);
    let calls = calls_of(pen, held);
    let before: &[&str] = if nested.is_enum {
        &["write_unit_variant", "st_pre"]
    } else {
        &["st_pre"]
    };
    let function = (function.as_str(), found(nested));
    late_answers(pen, function, before, &calls)
}

/// The answers for the steps of a function that fail late, of which the search finds so many: for
/// fields that are appended by these steps, after those that come before all fields, and for the
/// bracket after them.
fn late_answers(
    pen: &Pen,
    (function, found): (&str, usize),
    before: &[&str],
    fields: &[String],
) -> String {
    let mut answers = pen.empty();
    if fields.len() <= found {
        return answers;
    }
    let mut done = pen.empty();
    let mut closing = pen.empty();
    for step in before {
        pass(pen, *step, &mut done, &mut closing);
    }
    for (i, step) in fields.iter().enumerate() {
        if i >= found {
            let answer = late(pen, function, step.as_str(), (&done, &closing));
            pen.add(&mut answers, answer.as_str());
        }
        pass(pen, step.as_str(), &mut done, &mut closing);
    }
    let mut holes = Holes::new(pen.alloc());
    holes.put("FUNCTION", function);
    holes.put("DONE", done.as_str());
    holes.put("CLOSING", closing.as_str());
    pen.add(&mut answers, pen.whole(holes.fill(LAST)).as_str());
    answers
}

/// Adds a step to those that were taken, with the bracket that closes what is said of it.
fn pass(pen: &Pen, step: &str, done: &mut String, closing: &mut String) {
    let said = pen.one("(more_after _ _ _ _ c.in_ok-{}.ensures.ok\n    ", step);
    pen.add(done, said.as_str());
    pen.add(closing, ")");
}

/// The answer for a step that fails, after these.
fn late(pen: &Pen, function: &str, step: &str, (done, closing): (&String, &String)) -> String {
    let mut holes = Holes::new(pen.alloc());
    holes.put("FUNCTION", function);
    holes.put("STEP", step);
    holes.put("DONE", done.as_str());
    holes.put("CLOSING", closing.as_str());
    pen.whole(holes.fill(LATE))
}

const LATE: &str = "
pub $FUNCTION-returns-in_err-$STEP-clause-err :
    goal.$FUNCTION-returns-in_err-$STEP-clause-err
$FUNCTION-returns-in_err-$STEP-clause-err t c =
    of_error _ $DONEc.in_err-$STEP.ensures.err$CLOSING
";

const LAST: &str = "
pub $FUNCTION-returns-clause-err :
    goal.$FUNCTION-returns-clause-err
$FUNCTION-returns-clause-err t c =
    on_err_weaker c.st_post.result (λ same. $DONE(no_more same)$CLOSING) c.st_post.ensures.err
";
