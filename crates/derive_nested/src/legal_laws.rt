//! That a value of a type that contains itself is legal where its parts are, by the codec of the
//! first format that the type has.

use crate::codec_laws::{Variant, binders, law_end, variant_at};
use crate::held::Held;
use crate::nested::Nested;
use crate::wrapped::{at, atom};
use derive_pen::Pen;

/// A codec that says what is legal, as ghost terms.
#[derive(Drop)]
pub(crate) struct Known {
    /// The codec.
    pub(crate) codec: String,
    /// That of the type itself, or of the root, in it.
    pub(crate) within: String,
    /// The law by which a value is legal, with what it is seen as and that this is legal.
    pub(crate) law: String,
}

/// That a struct is legal.
pub(crate) fn struct_legal(
    pen: &Pen,
    nested: &Nested<'_>,
    held: &Held<'_>,
    known: &Known,
) -> String {
    let Known { codec, within, law } = known;
    let premises = premises(pen, held, within.as_str());
    let (hypotheses, legal) = (hypotheses(pen, held), held.row.legal.as_str());
    let mut holes = nested.holes(pen);
    let by = if nested.is_around() {
        pen.empty()
    } else {
        pen.two(
            "{} x ({}_view x) refl\n    ",
            law.as_str(),
            nested.names.snake.as_str(),
        )
    };
    holes.put("PREMISES", premises.as_str());
    holes.put("CODEC", codec.as_str());
    holes.put("HYPOTHESES", hypotheses.as_str());
    holes.put("BY", by.as_str());
    holes.put("LEGAL", legal);
    pen.whole(holes.fill(STRUCT_LEGAL))
}

const STRUCT_LEGAL: &str = "
pub $SNAKE_legal : (x : $NAME)$PREMISES
    → $CODEC.encoding.legal ($SNAKE_means x)
$SNAKE_legal x$HYPOTHESES =
    $BY$LEGAL
";

/// That a variant at its place is legal.
pub(crate) fn variant_legal(
    pen: &Pen,
    nested: &Nested<'_>,
    (held, i): (&Held<'_>, usize),
    known: &Known,
) -> String {
    let Known { codec, within, law } = known;
    let (end, values) = (law_end(pen, held), held.values(pen));
    let Variant { value, seen, view } = variant_at(pen, nested, held, i);
    let (seen, view) = (atom(pen, seen.as_str()), atom(pen, view.as_str()));
    let parts = binders(pen, nested, held);
    let premises = premises(pen, held, within.as_str());
    let (hypotheses, legal) = (hypotheses(pen, held), legal_at(pen, held, i));
    let mut holes = nested.holes(pen);
    holes.put("END", end.as_str());
    holes.put("PARTS", parts.as_str());
    holes.put("PREMISES", premises.as_str());
    holes.put("CODEC", codec.as_str());
    holes.put("VALUE", value.as_str());
    holes.put("GIVEN", values.as_str());
    holes.put("HYPOTHESES", hypotheses.as_str());
    holes.put("LAW", law.as_str());
    holes.put("SEEN", seen.as_str());
    holes.put("VIEW", view.as_str());
    holes.put("LEGAL", legal.as_str());
    pen.whole(holes.fill(VARIANT_LEGAL))
}

const VARIANT_LEGAL: &str = "
pub $SNAKE_legal_$END : $PARTS$PREMISES$CODEC.encoding.legal ($SNAKE_means $VALUE)
$SNAKE_legal_$END$GIVEN$HYPOTHESES =
    $LAW $VALUE $SEEN $VIEW
    $LEGAL
";

/// That each part is legal, as arguments of a law.
fn premises(pen: &Pen, held: &Held<'_>, itself: &str) -> String {
    let mut text = pen.empty();
    for leaf in &held.leaves {
        let codec = at(pen, leaf.part.codec.as_str(), itself);
        let codec = atom(pen, codec.as_str());
        let means = at(pen, leaf.part.means.as_str(), leaf.value.as_str());
        let means = atom(pen, means.as_str());
        let premise = if held.name.is_empty() {
            pen.two(
                "\n    → {}.encoding.legal {}",
                codec.as_str(),
                means.as_str(),
            )
        } else {
            pen.two(
                "{}.encoding.legal {}\n    → ",
                codec.as_str(),
                means.as_str(),
            )
        };
        pen.add(&mut text, premise.as_str());
    }
    text
}

/// The names of those arguments, each after a space.
fn hypotheses(pen: &Pen, held: &Held<'_>) -> String {
    let mut text = pen.empty();
    for leaf in &held.leaves {
        pen.add(&mut text, " ");
        pen.add(&mut text, leaf.legal.as_str());
    }
    text
}

/// That the content of a variant at its place is legal.
fn legal_at(pen: &Pen, held: &Held<'_>, i: usize) -> String {
    let mut legal = pen.two(
        "(inl (record { part = {}; has = {}; is = refl }))",
        held.row.part.means.as_str(),
        held.row.legal.as_str(),
    );
    for _before in 0..i {
        legal = pen.one("(inr {})", legal.as_str());
    }
    legal
}
