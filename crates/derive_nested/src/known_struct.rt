//! The answer to what is to be proved of the function that says that a value of a struct with
//! parameters is legal: it is so by the law of the struct, by what the calls for its fields give.

use crate::answers::{Answers, Goals, HEAD, Place, goals_of};
use crate::brought::declared_view;
use crate::imports::imports;
use crate::known_answers::AGREED;
use crate::nested::Nested;
use crate::wrapped::atom;
use derive_pen::Pen;

/// The answer for that function of a struct of a module, by the laws beside the definitions of this
/// name.
pub(crate) fn known_struct(
    pen: &Pen,
    module: &str,
    nested: &Nested<'_>,
    (place, file): (&Place<'_>, &str),
) -> Answers {
    let of = pen.one("{}Value", nested.names.of.as_str());
    let of = (of.as_str(), "known", "known", "");
    let Goals {
        path,
        module: goals,
        prefix: _prefix,
    } = goals_of(pen, nested, place, of);
    let calls = calls(pen, nested);
    let mut holes = nested.holes(pen);
    holes.put("HEAD", HEAD);
    holes.put("LIBRARY", place.library);
    holes.put("FILE", file);
    let brought = imports(pen, calls.as_str(), &[&AGREED]);
    holes.put("BROUGHT", brought.as_str());
    holes.put("VIEW", declared_view(pen, module, nested).as_str());
    holes.put("GOALS", goals.as_str());
    holes.put("CALLS", calls.as_str());
    Answers {
        path,
        text: pen.whole(holes.fill(KNOWN)),
    }
}

const KNOWN: &str = "\
$HEAD
$BROUGHT$VIEWuse Rattle.$LIBRARY.proofs.$FILELaws.{$SNAKE_legal}
use $GOALS as goal

pub returns : goal.returns
returns t c =
    let y = out-$NAME c.args.self.now in
    $SNAKE_legal c.args.self.now$CALLS
";

/// That each field is legal, after a line each.
fn calls(pen: &Pen, nested: &Nested<'_>) -> String {
    let mut text = pen.empty();
    for held in &nested.contents {
        for (i, leaf) in held.leaves.iter().enumerate() {
            let call = if i == 0 {
                pen.copy("known")
            } else {
                pen.one("known-{}", pen.number(i.saturating_add(1)).as_str())
            };
            let legal = match &leaf.part.agrees {
                Some(agrees) => {
                    let agrees = atom(pen, agrees.as_str());
                    pen.three(
                        "(legal_in_words {} {} c.{}.ensures)",
                        agrees.as_str(),
                        leaf.value.as_str(),
                        call.as_str(),
                    )
                }
                None => pen.one("c.{}.ensures", call.as_str()),
            };
            pen.add(&mut text, "\n    ");
            pen.add(&mut text, legal.as_str());
        }
    }
    text
}
