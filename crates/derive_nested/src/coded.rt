//! What a format adds to the definitions of a type that contains itself: that what a value means
//! and how deep it is are said by the format's layer, and the record of both.

use crate::cases::{Claim, Said, proof};
use crate::definitions::cases;
use crate::nested::Nested;
use derive_pen::Pen;

/// What differs between the formats, where the layer of a type is said.
#[derive(Clone, Copy)]
pub(crate) struct Coded {
    /// What stands in the names of definitions after that of the type.
    pub(crate) infix: &'static str,
    /// What stands between the name of a record of layers and that of the type.
    pub(crate) of: &'static str,
}

/// That what a value means and how deep it is are said by the layer, and the record of these, or the
/// layer around values of the root.
pub(crate) fn nested_record(pen: &Pen, nested: &Nested<'_>, format: Coded) -> String {
    let mut text = opened(pen, nested, format.infix);
    let record = if nested.is_around() { AROUND } else { RECORD };
    let mut holes = nested.all_holes(pen);
    holes.put("INFIX", format.infix);
    holes.put("OF", format.of);
    pen.add(&mut text, pen.whole(holes.fill(record)).as_str());
    text
}

/// That what a value means and how deep it is are said by the layer.
fn opened(pen: &Pen, nested: &Nested<'_>, infix: &str) -> String {
    let mut means = Vec::new(pen.alloc());
    let mut depths = Vec::new(pen.alloc());
    for (i, held) in nested.contents.iter().enumerate() {
        let said = Said::Means(i);
        pen.push(&mut means, proof(pen, nested, held, Claim { infix, said }));
        let said = Said::Depth;
        pen.push(&mut depths, proof(pen, nested, held, Claim { infix, said }));
    }
    let means = cases(
        pen,
        nested,
        pen.one("{}means_opened", infix).as_str(),
        &means,
    );
    let depths = cases(
        pen,
        nested,
        pen.one("{}depth_opened", infix).as_str(),
        &depths,
    );
    let mut holes = nested.all_holes(pen);
    holes.put("INFIX", infix);
    holes.put("MEANS", means.as_str());
    holes.put("DEPTHS", depths.as_str());
    pen.whole(holes.fill(OPENED))
}

const OPENED: &str = "
pub $SNAKE_$INFIXmeans_opened : (y : $NAME-F $TYPES)
    → $SNAKE_means_step (map-$NAME $TYPES $AS_MEANINGS $EACH_MEANS y)
    ≡ $SNAKE_$INFIXlayer.means $BASE_means ($SNAKE_opened y)
$MEANS
pub $SNAKE_$INFIXdepth_opened : (y : $NAME-F $TYPES)
    → $SNAKE_depth_step (map-$NAME $TYPES $AS_DEPTHS $EACH_DEPTH y)
    ≡ $SNAKE_$INFIXlayer.deep $BASE_depth ($SNAKE_opened y)
$DEPTHS";

const RECORD: &str = "
abbrev pub $SNAKE_$INFIXnested : Nested $OF$NAME
$SNAKE_$INFIXnested = record {
  Seen = $NAMEContent $NAME;
  layer = $SNAKE_$INFIXlayer;
  view = $SNAKE_view;
  means = $SNAKE_means;
  depth = $SNAKE_depth;
  means_is = λ x. fold_out-$NAME $AS_MEANINGS $ALL_STEPS x ∙ $SNAKE_$INFIXmeans_opened (out-$NAME x);
  depth_is = λ x. fold_out-$NAME $AS_DEPTHS $ALL_DEPTHS x ∙ $SNAKE_$INFIXdepth_opened (out-$NAME x);
}
";

const AROUND: &str = "
-- around values of `$ROOT`
abbrev pub $SNAKE_around : Layer $OF$ROOT $NAME
$SNAKE_around = seen_layer $SNAKE_view $SNAKE_$INFIXlayer

pub $SNAKE_means_is : (x : $NAME) → $SNAKE_means_folded x ≡ $SNAKE_means x
$SNAKE_means_is x =
    fold_out-$NAME $AS_MEANINGS $ALL_STEPS x ∙ $SNAKE_$INFIXmeans_opened (out-$NAME x)

pub $SNAKE_depth_is : (x : $NAME) → $SNAKE_depth_folded x ≡ $SNAKE_around.deep $BASE_depth x
$SNAKE_depth_is x =
    fold_out-$NAME $AS_DEPTHS $ALL_DEPTHS x ∙ $SNAKE_$INFIXdepth_opened (out-$NAME x)
";
