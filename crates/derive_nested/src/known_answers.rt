//! The answers to what is to be proved of the function that says that a value of an enum is legal:
//! in each variant it is so by the law of the variant, by what the calls for its parts give.

use crate::answers::{Answers, Goals, HEAD, Place, goals_of};
use crate::codec_laws::law_end;
use crate::definitions::equation;
use crate::held::Held;
use crate::imports::{Known, imports};
use crate::nested::Nested;
use crate::wrapped::atom;
use derive_pen::Pen;

/// The answers for that function of the enums among types that contain each other, or of one that
/// contains itself, by the laws beside the definitions of this name.
pub(crate) fn known_answers(
    pen: &Pen,
    members: &[Nested<'_>],
    place: &Place<'_>,
    file: &str,
) -> Option<Answers> {
    let mut cited = pen.empty();
    let mut answers = pen.empty();
    for nested in members {
        if nested.is_enum {
            let Goals { prefix, .. } = known_goals(pen, nested, place);
            append_answered(pen, nested, prefix.as_str(), (&mut cited, &mut answers));
        }
    }
    let (Some(nested), false) = (members.last(), answers.is_empty()) else {
        return None;
    };
    let Goals { path, module, .. } = known_goals(pen, nested, place);
    let mut holes = nested.holes(pen);
    holes.put("HEAD", HEAD);
    holes.put("LIBRARY", place.library);
    holes.put("FILE", file);
    holes.put("CITED", cited.as_str());
    let brought = imports(pen, answers.as_str(), &[&AGREED]);
    holes.put("BROUGHT", brought.as_str());
    holes.put("GOALS", module.as_str());
    holes.put("ANSWERS", answers.as_str());
    Some(Answers {
        path,
        text: pen.whole(holes.fill(KNOWN_ANSWERS)),
    })
}

/// The goals of that function of a type.
fn known_goals(pen: &Pen, nested: &Nested<'_>, place: &Place<'_>) -> Goals {
    let of = pen.one("{}Value", nested.names.of.as_str());
    goals_of(pen, nested, place, (of.as_str(), "known", "known", ""))
}

const KNOWN_ANSWERS: &str = "\
$HEAD
$BROUGHTuse Rattle.$LIBRARY.proofs.$FILELaws.{$CITED}
use $GOALS as goal
$ANSWERS";

/// By what a part with a parameter is legal.
pub(crate) const AGREED: [Known; 5] = [
    Known {
        module: "std.specs.Prelude",
        names: &["string_bytes", "string_cmp"],
    },
    Known {
        module: "std.specs.Ordering",
        names: &["nat_cmp", "int_cmp", "bool_cmp"],
    },
    Known {
        module: "nano_value.specs.Meaning",
        names: &[
            "truth",
            "number",
            "whole",
            "text",
            "LegalUnsigned",
            "LegalSigned",
            "LegalTruth",
            "LegalText",
        ],
    },
    Known {
        module: "nano_meaning.proofs.AgreesLaws",
        names: &[
            "agreed",
            "list_agrees",
            "option_agrees",
            "ordered_map_agrees",
            "seen_agrees",
        ],
    },
    Known {
        module: "nano_schema_levels.proofs.LegalLevelsLaws",
        names: &["legal_in_words"],
    },
];

/// Appends the names of the laws of the variants of an enum, and the answers by them.
fn append_answered(
    pen: &Pen,
    nested: &Nested<'_>,
    prefix: &str,
    (cited, answers): (&mut String, &mut String),
) {
    for (i, held) in nested.contents.iter().enumerate() {
        let law = pen.two(
            "{}_legal_{}",
            nested.names.snake.as_str(),
            law_end(pen, held).as_str(),
        );
        let before = if cited.is_empty() { "" } else { ", " };
        pen.add(cited, pen.two("{}{}", before, law.as_str()).as_str());
        pen.add(
            answers,
            answer(pen, held, i == 0, (prefix, law.as_str())).as_str(),
        );
    }
}

/// The answer for a variant, the first one or another, to a goal whose name begins so, by this law.
fn answer(pen: &Pen, held: &Held<'_>, is_first: bool, (prefix, law): (&str, &str)) -> String {
    let variant = held.name.as_str();
    let mut values = pen.empty();
    for name in &held.called {
        pen.add(
            &mut values,
            pen.two(" c.in-{}.{}", variant, name.as_str()).as_str(),
        );
    }
    let mut calls = pen.empty();
    for i in 0..held.leaves.len() {
        let call = call_at(pen, variant, is_first, i);
        pen.add(&mut calls, legal_by(pen, held, i, call.as_str()).as_str());
    }
    let used = atom(
        pen,
        pen.three("{}{}{}", law, values.as_str(), calls.as_str())
            .as_str(),
    );
    let goal = pen.two("{}returns-in-{}", prefix, variant);
    let head = pen.one("{} t c", goal.as_str());
    let term = pen.two("rw c.in-{}.is {}", variant, used.as_str());
    let answer = equation(pen, head.as_str(), term.as_str());
    pen.three(
        "
pub {} : goal.{}
{}",
        goal.as_str(),
        goal.as_str(),
        answer.as_str(),
    )
}

/// That a part of a variant at its place is legal, by a call, after a space.
fn legal_by(pen: &Pen, held: &Held<'_>, i: usize, call: &str) -> String {
    let variant = held.name.as_str();
    let (Some(leaf), Some(name)) = (held.leaves.get(i), held.called.get(i)) else {
        return pen.empty();
    };
    match &leaf.part.agrees {
        Some(agrees) => {
            let agrees = atom(pen, agrees.as_str());
            pen.four(
                " (legal_in_words {} c.in-{}.{} c.{}.ensures)",
                agrees.as_str(),
                variant,
                name.as_str(),
                call,
            )
        }
        None => pen.one(" c.{}.ensures", call),
    }
}

/// The name of a call for the part of a variant at this place. The first call of the function has
/// the name of what it calls; a later one has that of the variant after it, and a number from the
/// second on.
fn call_at(pen: &Pen, variant: &str, is_first: bool, i: usize) -> String {
    let number = if is_first { i } else { i.saturating_add(1) };
    match number {
        0 => pen.copy("known"),
        1 => pen.one("known-in-{}", variant),
        _ => pen.two("known-in-{}-{}", variant, pen.number(number).as_str()),
    }
}
