//! The answers to what is to be proved of what writes each variant of an enum with parameters, and
//! variants of three parts in texts. The search finds those for other variants.

use crate::answers::{Answers, Goals, HEAD, Place, goals_of};
use crate::codec_laws::law_end;
use crate::generic_calls::{Writes, call_of, step_before, writes_of};
use crate::held::Held;
use crate::nested::Nested;
use derive_pen::Pen;
use derive_syntax::Holes;

/// The answers for what writes an enum, variant by variant, to goals whose names begin so, and the
/// names of the laws that they cite. There are none for a struct.
fn arms(pen: &Pen, nested: &Nested<'_>, writes: Writes, prefix: &str) -> (String, String) {
    let mut answers = pen.empty();
    let mut cited = pen.empty();
    let mut before: Vec<String> = Vec::new(pen.alloc());
    for held in &nested.contents {
        let call = call_of(pen, writes, held);
        if is_answered(nested, held, writes) {
            let law = law_of(pen, nested, held, writes);
            let arm = (
                law.as_str(),
                call.as_str(),
                is_among(&before, call.as_str()),
            );
            pen.add(
                &mut answers,
                arm_of(pen, held, (writes, prefix), arm).as_str(),
            );
            pen.add_between(&mut cited, ", ");
            pen.add(&mut cited, law.as_str());
        }
        pen.push(&mut before, call);
    }
    (answers, cited)
}

/// Whether what writes a variant has an answer: with parameters each, and else one of three parts
/// in texts, which the search does not always find.
fn is_answered(nested: &Nested<'_>, held: &Held<'_>, writes: Writes) -> bool {
    let is_long = writes.word != "Bin" && !held.has_fields && held.leaves.len() > 2;
    nested.is_enum && (nested.is_generic() || is_long)
}

/// The name of the law that says how a variant is written.
fn law_of(pen: &Pen, nested: &Nested<'_>, held: &Held<'_>, writes: Writes) -> String {
    let (snake, law) = (nested.names.snake.as_str(), writes.law.0);
    pen.three("{}_{}_{}", snake, law, law_end(pen, held).as_str())
}

/// Whether a call was made before.
fn is_among(calls: &[String], call: &str) -> bool {
    for other in calls {
        if other.as_str() == call {
            return true;
        }
    }
    false
}

/// The values of a variant, as what writes it calls them, each after a space.
fn values_of(pen: &Pen, held: &Held<'_>, writes: Writes) -> String {
    let mut text = pen.empty();
    for (i, called) in held.called.iter().enumerate() {
        let value = if held.has_fields && writes.word != "Bin" {
            pen.two(" c.in-{}.v{}", held.name.as_str(), pen.number(i).as_str())
        } else {
            pen.two(" c.in-{}.{}", held.name.as_str(), called.as_str())
        };
        pen.add(&mut text, value.as_str());
    }
    text
}

/// The answer for a variant, to a goal whose name begins so, by a law and a call.
fn arm_of(
    pen: &Pen,
    held: &Held<'_>,
    (writes, prefix): (Writes, &str),
    (law, call, is_later): (&str, &str, bool),
) -> String {
    let variant = held.name.as_str();
    let several = if writes.word == "Bin" {
        step_before(pen, held)
    } else {
        None
    };
    let (goal, proof) = match several {
        Some(step) => (
            pen.one("returns-in_ok-{}-clause-ok", step.as_str()),
            pen.copy("(search (rules, append_assoc))"),
        ),
        None => {
            let end = if is_later {
                pen.one("-in-{}", variant)
            } else {
                pen.empty()
            };
            (
                pen.one("returns-in-{}-clause-ok", variant),
                pen.two("c.{}{}.ensures.ok", call, end.as_str()),
            )
        }
    };
    let values = values_of(pen, held, writes);
    let mut holes = Holes::new(pen.alloc());
    holes.put("GOAL", pen.two("{}{}", prefix, goal.as_str()).as_str());
    holes.put("VARIANT", variant);
    holes.put("LAW", law);
    holes.put("GIVEN", writes.law.1);
    holes.put("VALUES", values.as_str());
    holes.put("PROOF", proof.as_str());
    pen.whole(holes.fill(ARM))
}

const ARM: &str = "
pub $GOAL : goal.$GOAL
$GOAL t c =
    rw (c.in-$VARIANT.is, $LAW$GIVEN$VALUES)
    $PROOF
";

/// The answers for what writes a type in the format of this name, in a file of their own or after
/// those that are there.
pub(crate) fn with_writer(
    pen: &Pen,
    nested: &Nested<'_>,
    (format, place): (&str, &Place<'_>),
    there: Option<Answers>,
) -> Option<Answers> {
    let (writes, name) = (writes_of(format), nested.names.of.as_str());
    let (word, method) = (writes.word, writes.method);
    let of = pen.two("{}Writes{}", name, word);
    let prefix = if there.is_some() || nested.members.are_several() {
        pen.two("{}::{}-", of.as_str(), method)
    } else {
        pen.empty()
    };
    let (answers, cited) = arms(pen, nested, writes, prefix.as_str());
    if answers.is_empty() {
        return there;
    }
    let mut laws = pen.copy(rules_for(answers.as_str()));
    pen.add(
        &mut laws,
        law_line(pen, place, word, cited.as_str()).as_str(),
    );
    if let Some(there) = there {
        return Some(more_answers(pen, there, laws.as_str(), answers.as_str()));
    }
    let of = (of.as_str(), method, format);
    let Goals { path, module, .. } = writer_goals(pen, nested, place, of);
    Some(Answers {
        path,
        text: pen.four(
            "{}\n{}use {} as goal\n{}",
            HEAD,
            laws.as_str(),
            module.as_str(),
            answers.as_str(),
        ),
    })
}

/// The answers that are there, and more after them, for which these lines bring in laws.
fn more_answers(pen: &Pen, there: Answers, laws: &str, answers: &str) -> Answers {
    let Answers { path, text } = there;
    let (head, rest) = text.as_str().split_once('\n').unwrap_or(("", ""));
    let text = pen.four("{}\n{}{}{}", head, laws, rest, answers);
    Answers { path, text }
}

/// The line that brings in what answers search with, if they search.
fn rules_for(answers: &str) -> &'static str {
    if answers.contains("(search ") {
        "use Rattle.std.proofs.Common.{append_assoc, rules}\n"
    } else {
        ""
    }
}

/// The line that brings in the laws that answers cite.
fn law_line(pen: &Pen, place: &Place<'_>, word: &str, cited: &str) -> String {
    let file = if word == "Bin" { "" } else { word };
    pen.four(
        "use Rattle.{}.proofs.{}{}CodecsLaws.{{}}\n",
        place.library,
        place.stem.as_str(),
        file,
        cited,
    )
}

/// The goals of what writes a type by this method in the format of this name: by themselves, or
/// with those of the types that it contains and that contain it.
fn writer_goals(
    pen: &Pen,
    nested: &Nested<'_>,
    place: &Place<'_>,
    (of, method, format): (&str, &str, &str),
) -> Goals {
    let Place { folder, goals, .. } = place;
    if nested.members.are_several() {
        let end = pen.one("_{}", format);
        return goals_of(pen, nested, place, (of, method, "write", end.as_str()));
    }
    Goals {
        path: pen.three("{}/{}/+{}/Answers.antt", folder.as_str(), of, method),
        module: pen.three("{}.{}.+{}.Goals", goals.as_str(), of, method),
        prefix: pen.empty(),
    }
}
