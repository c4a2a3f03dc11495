//! What named fields are written as in a format of texts, and what is proved of several of them.

use crate::codec_laws::law_end;
use crate::held::Held;
use crate::nested::Nested;
use crate::text_codec::TextTerms;
use crate::text_layers::field_codec;
use crate::wrapped::at;
use derive_pen::Pen;
use derive_syntax::Holes;

/// The definitions of what each field of a struct or of a variant is written as.
pub(crate) fn field_definitions(
    pen: &Pen,
    nested: &Nested<'_>,
    format: &TextTerms,
    held: &Held<'_>,
) -> String {
    let itself = pen.two("{}_{}", nested.root().snake.as_str(), format.name);
    let mut text = pen.empty();
    for (leaf, called) in held.leaves.iter().zip(held.called.iter()) {
        let codec = field_codec(pen, leaf, itself.as_str());
        let defined = field_name(pen, nested, format, (held, called.as_str()));
        let (of, value) = if nested.is_enum {
            (
                at(pen, leaf.part.of.as_str(), nested.root().of.as_str()),
                "x",
            )
        } else {
            (pen.copy(nested.names.of.as_str()), leaf.value.as_str())
        };
        let mut holes = Holes::new(pen.alloc());
        holes.put("NAME", defined.as_str());
        holes.put("OF", of.as_str());
        holes.put("CODEC", codec.as_str());
        holes.put("VALUE", value);
        let definition = pen.whole(holes.fill(FIELD));
        pen.add(&mut text, definition.as_str());
    }
    text
}

const FIELD: &str = "
abbrev pub $NAME : $OF → List (WrittenField Token)
$NAME x =
    ($CODEC).canonical.fields $VALUE
";

/// The name of what a field is written as, which is called so.
pub(crate) fn field_name(
    pen: &Pen,
    nested: &Nested<'_>,
    format: &TextTerms,
    (held, called): (&Held<'_>, &str),
) -> String {
    let (snake, infix) = (nested.names.snake.as_str(), format.coded.infix);
    if nested.is_enum {
        let end = law_end(pen, held);
        return pen.four("{}_{}field_{}_{}", snake, infix, end.as_str(), called);
    }
    pen.three("{}_{}field_{}", snake, infix, called)
}

/// Whether a struct or a variant has so many named fields that the first half are several.
pub(crate) fn has_long_row(nested: &Nested<'_>) -> bool {
    for held in &nested.contents {
        if held.has_fields && held.leaves.len() > 3 {
            return true;
        }
    }
    false
}

/// Whether a variant has named fields.
pub(crate) fn has_contents(nested: &Nested<'_>) -> bool {
    for held in &nested.contents {
        if nested.is_enum && held.has_fields {
            return true;
        }
    }
    false
}
