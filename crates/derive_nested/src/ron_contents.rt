//! The variants with named fields of a type that contains itself, as RON writes them.

use crate::codec_laws::law_end;
use crate::held::Held;
use crate::nested::Nested;
use crate::text_codec::TextTerms;
use crate::text_laws::written;
use crate::wrapped::at;
use derive_pen::Pen;
use derive_syntax::Holes;

/// The definitions of the texts of such variants, by their level and their fields.
pub(crate) fn variant_texts(pen: &Pen, nested: &Nested<'_>, format: &TextTerms) -> String {
    let mut text = pen.empty();
    for held in &nested.contents {
        if nested.is_enum && held.has_fields {
            pen.add(&mut text, variant_text(pen, nested, format, held).as_str());
        }
    }
    text
}

/// The definition of the text of such a variant.
fn variant_text(pen: &Pen, nested: &Nested<'_>, format: &TextTerms, held: &Held<'_>) -> String {
    let (snake, infix) = (nested.names.snake.as_str(), format.coded.infix);
    let name = pen.three("{}_{}of_{}", snake, infix, law_end(pen, held).as_str());
    let mut types = pen.empty();
    for leaf in &held.leaves {
        let of = at(pen, leaf.part.of.as_str(), nested.root().of.as_str());
        pen.add(&mut types, pen.one(" → {}", of.as_str()).as_str());
    }
    let mut holes = Holes::new(pen.alloc());
    holes.put("OF", held.name.as_str());
    holes.put("NAME", name.as_str());
    holes.put("TYPES", types.as_str());
    holes.put("VALUES", held.values(pen).as_str());
    holes.put("WRITTEN", written(pen, nested, format, held).as_str());
    pen.whole(holes.fill(VARIANT_TEXT))
}

const VARIANT_TEXT: &str = "
-- a value of `$OF` as it is written
abbrev pub $NAME : ℕ$TYPES → List ℕ
$NAME d$VALUES =
    $WRITTEN
";
