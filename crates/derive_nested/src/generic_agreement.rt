//! That a format of a type with parameters agrees with the one before it, where their codecs do.

use crate::nested::Nested;
use crate::parameters::coded_by;
use crate::text_codec::TextTerms;
use derive_pen::Pen;
use derive_syntax::Holes;

/// That a format of texts agrees with the one of this name, which comes before it.
pub(crate) fn agreement(
    pen: &Pen,
    nested: &Nested<'_>,
    format: &TextTerms,
    before: &str,
) -> String {
    let mut holes = format.holes(pen, nested);
    put_taken(&mut holes, pen, nested, (before, format.name));
    let (first, own) = (coded_by(before), coded_by(format.name));
    let codec = match before {
        "bin" => "$SNAKE_codec",
        "json" => "$SNAKE_json",
        _ => "$SNAKE_ron",
    };
    let agrees = match before {
        "bin" => "bin_agrees $SNAKE_nested",
        "json" => "nested_agrees $SNAKE_json_nested",
        _ => "nested_agrees $SNAKE_ron_nested",
    };
    let limit = if before == "bin" { "" } else { " $LIMIT" };
    let codec = pen.whole(holes.fill(codec));
    let agrees = pen.whole(holes.fill(agrees));
    let limit = pen.whole(holes.fill(limit));
    let means = nested.of_each(pen, "$SNAKE_$FORMAT.canonical.means", first, " ");
    let legal = nested.of_each(pen, "$SNAKE_$FORMAT.encoding.legal", first, " ");
    let said = nested.of_each(pen, "$SNAKE_$FORMAT.canonical.means", own, " ");
    holes.put("CODEC", codec.as_str());
    holes.put("AGREES", agrees.as_str());
    holes.put("UNTIL", limit.as_str());
    holes.put("FIRST", means.as_str());
    holes.put("THERE", legal.as_str());
    holes.put("SAID", said.as_str());
    pen.whole(holes.fill(AGREEMENT))
}

const AGREEMENT: &str = "
pub $SNAKE_$INFIXagrees : $TAKEN
    → Agrees (^$SNAKE_means $FIRST) $CODEC.encoding.legal (^$SNAKE_means $SAID)
    $SNAKE_$SUFFIX.encoding.legal
$SNAKE_$INFIXagrees $GIVEN =
    agree_by_steps (^$SNAKE_weaker $ALLOWS) (^$SNAKE_weaker $BACK)
    ($AGREES (^$SNAKE_step $THERE) (λ f. refl)$UNTIL)
    (nested_agrees $SNAKE_$INFIXnested $SNAKE_step (λ f. refl) $LIMIT)
    (λ i. ^$SNAKE_means $PATHS)
";

const SAME: &str = "
    → ($NAME_same : Agrees $NAME_$FIRST.canonical.means $NAME_$FIRST.encoding.legal
    $NAME_$OWN.canonical.means $NAME_$OWN.encoding.legal)";

/// Puts what it takes: the codecs of the parameters in the format before, and that these agree.
fn put_taken(holes: &mut Holes, pen: &Pen, nested: &Nested<'_>, (before, own): (&str, &str)) {
    let first = coded_by(before);
    let mut taken = nested.of_each(pen, "($SNAKE_$FORMAT : $OF $NAME)", first, "\n    → ");
    for names in &nested.parameters {
        let mut same = Holes::new(pen.alloc());
        same.put("NAME", names.snake.as_str());
        same.put("FIRST", first.name);
        same.put("OWN", own);
        pen.add(&mut taken, pen.whole(same.fill(SAME)).as_str());
    }
    let codecs = nested.of_each(pen, "$SNAKE_$FORMAT", first, " ");
    let agree = nested.of_each(pen, "$SNAKE_same", first, " ");
    holes.put("TAKEN", taken.as_str());
    holes.put(
        "GIVEN",
        pen.two("{} {}", codecs.as_str(), agree.as_str()).as_str(),
    );
    let allows = nested.of_each(pen, "$SNAKE_same.allows", first, " ");
    let back = nested.of_each(pen, "$SNAKE_same.is_legal", first, " ");
    let paths = nested.of_each(pen, "($SNAKE_same.means_is i)", first, " ");
    holes.put("ALLOWS", allows.as_str());
    holes.put("BACK", back.as_str());
    holes.put("PATHS", paths.as_str());
}
