//! The codec of a type that contains itself as bytes: the layer around the values in it, and what
//! is encoded at all levels.

use crate::coded::{Coded, nested_record};
use crate::definitions::{equation, root_first};
use crate::nested::Nested;
use crate::parameters::coded_by;
use crate::row::layer_of;
use crate::wrapped::atom;
use derive_pen::Pen;

/// Bytes: their names are those of the type alone.
const BYTES: Coded = Coded { infix: "", of: "" };

/// The definitions for bytes of types that contain each other, or of one that contains itself.
pub(crate) fn bin_codecs(pen: &Pen, members: &[Nested<'_>]) -> String {
    let mut text = pen.empty();
    for nested in members {
        pen.add(&mut text, layer(pen, nested).as_str());
        pen.add(&mut text, nested_record(pen, nested, BYTES).as_str());
    }
    for nested in root_first(pen, members) {
        pen.add(&mut text, codec(pen, nested).as_str());
        pen.add(&mut text, read(pen, nested).as_str());
    }
    text
}

/// The layer around values of the type itself.
fn layer(pen: &Pen, nested: &Nested<'_>) -> String {
    let layer = layers(pen, nested);
    let mut holes = nested.all_holes(pen);
    if nested.is_enum {
        holes.put("LAYER", layer.as_str());
        return pen.whole(holes.fill(VARIANTS));
    }
    let head = pen.one("{}_layer", nested.names.snake.as_str());
    let line = equation(pen, head.as_str(), layer.as_str());
    holes.put("LAYER", line.as_str());
    pen.whole(holes.fill(FIELDS))
}

const VARIANTS: &str = "
-- ---- as bytes: the layer around the values in it, and the codec

abbrev pub $SNAKE_variants : ChoiceLayer $ROOT ($NAMEContent $ROOT)
$SNAKE_variants =
    $LAYER

abbrev pub $SNAKE_layer : Layer $ROOT ($NAMEContent $ROOT)
$SNAKE_layer = choice_layer $SNAKE_variants (λ f. lit≤ tt)
";

const FIELDS: &str = "
-- ---- as bytes: the layer around the values in it, and the codec

abbrev pub $SNAKE_layer : Layer $ROOT ($NAMEContent $ROOT)
$LAYER";

/// The layer of a struct, or those of the variants.
fn layers(pen: &Pen, nested: &Nested<'_>) -> String {
    let mut text: Option<String> = None;
    for held in nested.contents.iter().rev() {
        let layer = layer_of(pen, &held.row.part);
        let first = atom(pen, layer.as_str());
        text = match text {
            _ if !nested.is_enum => Some(layer),
            None => Some(pen.one("last_variant {}", first.as_str())),
            Some(rest) => Some(pen.two("next_variant {}\n    ({})", first.as_str(), rest.as_str())),
        };
    }
    match text {
        Some(text) => text,
        None => pen.copy("itself_layer"),
    }
}

/// The codec.
fn codec(pen: &Pen, nested: &Nested<'_>) -> String {
    let codec = if nested.is_around() { AROUND } else { CODEC };
    pen.whole(nested.all_holes(pen).fill(codec))
}

/// That a type with parameters is read, if these are.
fn read(pen: &Pen, nested: &Nested<'_>) -> String {
    if !nested.is_generic() {
        return pen.empty();
    }
    let bin = coded_by("bin");
    let premises = nested.of_each(pen, "$SNAKE_bin.is_decodable ≡ true → ", bin, "");
    let names = nested.of_each(pen, "$SNAKE_read", bin, " ");
    let each = nested.of_each(pen, "$SNAKE_read", bin, ", ");
    let mut holes = nested.holes(pen);
    holes.put("PREMISES", premises.as_str());
    holes.put("GIVEN", names.as_str());
    holes.put("EACH", each.as_str());
    pen.whole(holes.fill(READ))
}

const READ: &str = "
pub $SNAKE_is_read : $PREMISES$SNAKE_codec.is_decodable ≡ true
$SNAKE_is_read $GIVEN = rw ($EACH) refl
";

const CODEC: &str = "
abbrev pub $SNAKE_codec : Codec $NAME
$SNAKE_codec = nested_codec $SNAKE_nested
";

const AROUND: &str = "
abbrev pub $SNAKE_codec : Codec $NAME
$SNAKE_codec = $SNAKE_around.codec $BASE_codec
";
