//! What is proved of a type that contains itself in a format of texts: how each variant is written,
//! or the struct, and of the first format that a type has, when a value is legal.

use crate::codec_laws::{Variant, binders, law_end, variant_at};
use crate::held::Held;
use crate::legal_laws::{Known, struct_legal, variant_legal};
use crate::nested::Nested;
use crate::text_codec::TextTerms;
use crate::text_fields::field_definitions;
use crate::text_layers::content_name;
use crate::wrapped::{applied, at, atom};
use derive_pen::Pen;

/// The laws of a type, whose first format it is or not.
pub(crate) fn text_laws(
    pen: &Pen,
    nested: &Nested<'_>,
    format: &TextTerms,
    is_first: bool,
) -> String {
    let mut text = pen.one("\n-- ==== {}\n", nested.names.of.as_str());
    for (i, held) in nested.contents.iter().enumerate() {
        let law = if nested.is_enum {
            variant_law(pen, nested, format, (held, i))
        } else {
            struct_law(pen, nested, format, held)
        };
        if nested.is_enum && held.has_fields {
            pen.add(
                &mut text,
                field_definitions(pen, nested, format, held).as_str(),
            );
        }
        pen.add(&mut text, law.as_str());
        if is_first {
            pen.add(
                &mut text,
                legal_law(pen, nested, format, (held, i)).as_str(),
            );
        }
    }
    if nested.is_enum {
        pen.add(&mut text, texts(pen, nested, format).as_str());
    }
    text
}

/// That a variant at its place is legal, or the struct.
fn legal_law(
    pen: &Pen,
    nested: &Nested<'_>,
    format: &TextTerms,
    (held, i): (&Held<'_>, usize),
) -> String {
    let (snake, end, infix) = (nested.names.snake.as_str(), format.name, format.coded.infix);
    let law = if nested.is_around() {
        pen.one("layer_legal {}", layer_of(pen, nested, format).as_str())
    } else {
        pen.three("legal_seen {}_{}nested {}", snake, infix, nested.limit)
    };
    let known = Known {
        codec: pen.two("{}_{}", snake, end),
        within: pen.two("{}_{}", nested.root().snake.as_str(), end),
        law,
    };
    if nested.is_enum {
        variant_legal(pen, nested, (held, i), &known)
    } else {
        struct_legal(pen, nested, held, &known)
    }
}

/// How a type is seen that is around values of the root, its layer, and the codec of the root.
fn layer_of(pen: &Pen, nested: &Nested<'_>, format: &TextTerms) -> String {
    pen.whole(format.holes(pen, nested).fill(LAYER))
}

const LAYER: &str = "$SNAKE_view $SNAKE_$INFIXlayer $BASE_$SUFFIX";

/// The laws by which an enum is written, as a set.
fn texts(pen: &Pen, nested: &Nested<'_>, format: &TextTerms) -> String {
    let (snake, infix) = (nested.names.snake.as_str(), format.coded.infix);
    let mut names = pen.empty();
    for held in &nested.contents {
        pen.add_between(&mut names, ", ");
        let end = law_end(pen, held);
        pen.add(
            &mut names,
            pen.three("{}_{}text_{}", snake, infix, end.as_str())
                .as_str(),
        );
    }
    pen.three(
        "\npub ruleset {}_{}texts = ({})\n",
        snake,
        infix,
        names.as_str(),
    )
}

/// How a struct is written.
fn struct_law(pen: &Pen, nested: &Nested<'_>, format: &TextTerms, held: &Held<'_>) -> String {
    let parts = field_definitions(pen, nested, format, held);
    let mut holes = format.holes(pen, nested);
    let proof = pen.whole(holes.fill(if nested.is_around() { "refl" } else { TEXT }));
    holes.put("PARTS", parts.as_str());
    holes.put("STYLE", format.fields);
    holes.put("PROOF", proof.as_str());
    pen.whole(holes.fill(STRUCT_LAW))
}

const TEXT: &str = "text_seen $SNAKE_$INFIXnested $LIMIT d x ($SNAKE_view x) refl";

const STRUCT_LAW: &str = "$PARTS
abbrev pub $SNAKE_$INFIXwritten : $NAME → List (WrittenField Token)
$SNAKE_$INFIXwritten x =
    ($SNAKE_$INFIXfields.codec $BASE_$SUFFIX).canonical.fields ($SNAKE_view x)

pub $SNAKE_$INFIXtext : (d : ℕ) → (x : $NAME) → $SNAKE_$SUFFIX.canonical.text d x
    ≡ fields_text $STYLE d ($SNAKE_$INFIXwritten x)
$SNAKE_$INFIXtext d x = $PROOF
";

/// How a variant at its place is written.
fn variant_law(
    pen: &Pen,
    nested: &Nested<'_>,
    format: &TextTerms,
    (held, i): (&Held<'_>, usize),
) -> String {
    let Variant { value, seen, view } = variant_at(pen, nested, held, i);
    let mut holes = format.holes(pen, nested);
    holes.put("LAW", law_of(pen, nested, format).as_str());
    holes.put("END", law_end(pen, held).as_str());
    holes.put("PARTS", binders(pen, nested, held).as_str());
    holes.put("VALUE", value.as_str());
    holes.put("WRITTEN", written(pen, nested, format, held).as_str());
    holes.put("GIVEN", held.values(pen).as_str());
    holes.put("SEEN", atom(pen, seen.as_str()).as_str());
    holes.put("VIEW", atom(pen, view.as_str()).as_str());
    pen.whole(holes.fill(VARIANT_LAW))
}

/// What says how a value is written, by what it is seen as.
fn law_of(pen: &Pen, nested: &Nested<'_>, format: &TextTerms) -> String {
    if nested.is_around() {
        pen.one("layer_text {}", layer_of(pen, nested, format).as_str())
    } else {
        pen.whole(format.holes(pen, nested).fill(NESTED))
    }
}

const NESTED: &str = "text_seen $SNAKE_$INFIXnested $LIMIT";

const VARIANT_LAW: &str = "
pub $SNAKE_$INFIXtext_$END : (d : ℕ)
    → $PARTS$SNAKE_$SUFFIX.canonical.text d $VALUE
    ≡ $WRITTEN
$SNAKE_$INFIXtext_$END d$GIVEN =
    $LAW d $VALUE $SEEN $VIEW
";

/// The text of a variant.
pub(crate) fn written(
    pen: &Pen,
    nested: &Nested<'_>,
    format: &TextTerms,
    held: &Held<'_>,
) -> String {
    let snake = nested.names.snake.as_str();
    let itself = pen.two("{}_{}", nested.root().snake.as_str(), format.name);
    let (name, value) = (held.key.as_str(), held.row.value.as_str());
    if held.has_fields {
        let layer = content_name(pen, format, snake, held);
        return pen.four(
            "content_text (codes \"{}\") (({}.codec {}).canonical.text d {})",
            name,
            layer.as_str(),
            itself.as_str(),
            value,
        );
    }
    if held.leaves.is_empty() {
        return pen.two("{} (codes \"{}\")", format.alone, name);
    }
    pen.three(
        "content_text (codes \"{}\") (({}).canonical.text d {})",
        name,
        tuple_codec(pen, held, itself.as_str()).as_str(),
        tuple_of(pen, held).as_str(),
    )
}

/// The codec of the parts of a variant, where this is the codec of the type itself.
fn tuple_codec(pen: &Pen, held: &Held<'_>, itself: &str) -> String {
    let mut codec = pen.copy(match held.leaves.len() {
        1 => "single_codec",
        2 => "pair_codec",
        _ => "triple_codec",
    });
    for leaf in &held.leaves {
        let part = at(pen, leaf.part.codec.as_str(), itself);
        codec = applied(pen, codec.as_str(), part.as_str());
    }
    codec
}

/// The parts of a variant as one tuple.
fn tuple_of(pen: &Pen, held: &Held<'_>) -> String {
    if let [leaf] = held.leaves.as_slice() {
        return pen.copy(leaf.value.as_str());
    }
    let mut text = pen.empty();
    for leaf in &held.leaves {
        let before = if text.is_empty() { "(" } else { ", " };
        pen.add(&mut text, before);
        pen.add(&mut text, leaf.value.as_str());
    }
    pen.add(&mut text, ")");
    text
}
