//! The codec of a type that contains itself in a format of texts: the layer around the values in
//! it, and what is encoded at the levels that are read.

use crate::coded::{Coded, nested_record};
use crate::definitions::{equation, root_first};
use crate::generic_agreement::agreement;
use crate::nested::Nested;
use crate::others::Said;
use crate::ron_contents::variant_texts;
use crate::text_layers::{content_layers, layers};
use derive_pen::Pen;
use derive_syntax::Holes;

/// A format of texts, as ghost terms.
#[derive(Clone, Copy)]
pub(crate) struct TextTerms {
    /// Its name, with which the names of definitions end.
    pub(crate) name: &'static str,
    /// The same as the names of traits and files have it.
    pub(crate) word: &'static str,
    /// What its layers are named with.
    pub(crate) coded: Coded,
    /// What brings in the codec of another type.
    pub(crate) said: Said,
    /// The style of lists, and that its brackets are brackets.
    pub(crate) list: &'static str,
    /// The style of options.
    pub(crate) option: &'static str,
    /// The style of tuples, and that its brackets are brackets.
    pub(crate) tuple: &'static str,
    /// The style of fields.
    pub(crate) fields: &'static str,
    /// That names can be written.
    pub(crate) names: &'static str,
    /// The style of variants.
    pub(crate) variants: &'static str,
    /// That content can stand after the name of a variant.
    pub(crate) fits: &'static str,
    /// What makes the text of a variant without content of its name.
    pub(crate) alone: &'static str,
}

impl TextTerms {
    /// The holes of templates in which the names of a type and of the format stand.
    pub(crate) fn holes(&self, pen: &Pen, nested: &Nested<'_>) -> Holes {
        let mut holes = nested.all_holes(pen);
        holes.put("SUFFIX", self.name);
        holes.put("INFIX", self.coded.infix);
        holes
    }
}

/// JSON.
pub(crate) const JSON: TextTerms = TextTerms {
    name: "json",
    word: "Json",
    coded: Coded {
        infix: "json_",
        of: "json json_grammar ",
    },
    said: Said {
        by: "JsonCodec",
        called: "json",
    },
    list: "block_style block_brackets",
    option: "null_style",
    tuple: "tuple_style block_brackets",
    fields: "json_fields",
    names: "plain_names refl",
    variants: "json_variants",
    fits: "λ f x d. tt",
    alone: "written_text",
};

/// RON.
pub(crate) const RON: TextTerms = TextTerms {
    name: "ron",
    word: "Ron",
    coded: Coded {
        infix: "ron_",
        of: "ron ron_grammar ",
    },
    said: Said {
        by: "RonCodec",
        called: "ron",
    },
    list: "line_style block_brackets",
    option: "none_style",
    tuple: "tuple_style paren_brackets",
    fields: "ron_fields",
    names: "word_names refl",
    variants: "ron_variants",
    fits: "λ f x d. refl",
    alone: "chars",
};

/// The definitions for a format of texts of types that contain each other, or of one that contains
/// itself. Given is the format before it, of which what is legal is known: bytes, or another format
/// of texts.
pub(crate) fn text_codecs(
    pen: &Pen,
    members: &[Nested<'_>],
    format: &TextTerms,
    before: Option<&str>,
) -> String {
    let mut text = pen.empty();
    for nested in members {
        pen.add(&mut text, layer(pen, nested, format).as_str());
        pen.add(&mut text, nested_record(pen, nested, format.coded).as_str());
    }
    for nested in root_first(pen, members) {
        pen.add(&mut text, own_codecs(pen, nested, format, before).as_str());
    }
    text
}

/// The codecs of a type, and in RON the texts of its variants.
fn own_codecs(pen: &Pen, nested: &Nested<'_>, format: &TextTerms, before: Option<&str>) -> String {
    let mut text = if nested.is_around() {
        around(pen, nested, format)
    } else {
        codec(pen, nested, format, before)
    };
    if format.name == RON.name {
        pen.add(&mut text, variant_texts(pen, nested, format).as_str());
    }
    text
}

/// The codecs of a type that is a layer around values of the root.
fn around(pen: &Pen, nested: &Nested<'_>, format: &TextTerms) -> String {
    let mut holes = format.holes(pen, nested);
    let codec = pen.whole(holes.fill(if nested.is_enum { CHOICE } else { RECORD }));
    holes.put("CODED", codec.as_str());
    pen.whole(holes.fill(AROUND))
}

const AROUND: &str = "
-- `$NAME`, around values of at most so many levels, and around those that are read
abbrev pub $SNAKE_$INFIXat : ℕ → Codec $NAME
$SNAKE_$INFIXat levels = $SNAKE_around.codec ($BASE_$INFIXat levels)

abbrev pub $SNAKE_$SUFFIX : Codec $NAME
$SNAKE_$SUFFIX =$CODED
";

const RECORD: &str = " $SNAKE_around.codec $BASE_$SUFFIX";

// What encodes an enum is not the same by computing where something else is legal inside.
const CHOICE: &str = "
    choice_as $SNAKE_view $SNAKE_$INFIXvariants (λ f. refl) (λ f. refl) $BASE_$SUFFIX
    ($BASE_$INFIXat $LIMIT) refl";

/// The layer around values of the type itself.
fn layer(pen: &Pen, nested: &Nested<'_>, format: &TextTerms) -> String {
    let contents = content_layers(pen, nested, format);
    let layers = layers(pen, nested, format);
    let (kind, rows, made) = if nested.is_enum {
        ("variants", "VariantsLayer", "choice_layer")
    } else {
        ("fields", "FieldsLayer", "struct_layer")
    };
    let (style, names) = if nested.is_enum {
        (format.variants, "refl")
    } else {
        (format.fields, format.names)
    };
    let mut holes = format.holes(pen, nested);
    holes.put("OF", format.coded.of);
    holes.put("CONTENTS", contents.as_str());
    holes.put("LAYERS", layers.as_str());
    holes.put("KIND", kind);
    holes.put("ROWS", rows);
    holes.put("MADE", made);
    holes.put("STYLE", style);
    holes.put("WRITABLE", names);
    pen.whole(holes.fill(LAYER))
}

const LAYER: &str = "
-- ==== $NAME: the layer around the values in it
$CONTENTS
abbrev pub $SNAKE_$INFIX$KIND : $ROWS $STYLE $ROOT ($NAMEContent $ROOT)
$SNAKE_$INFIX$KIND =
    $LAYERS

abbrev pub $SNAKE_$INFIXlayer : Layer $OF$ROOT ($NAMEContent $ROOT)
$SNAKE_$INFIXlayer = $MADE $SNAKE_$INFIX$KIND (λ f. $WRITABLE) (λ f. refl)
";

/// The codec of the values of so many levels, and that of the values that are read.
fn codec(pen: &Pen, nested: &Nested<'_>, format: &TextTerms, before: Option<&str>) -> String {
    let mut holes = format.holes(pen, nested);
    let Some(before) = before else {
        return pen.whole(holes.fill(ALONE));
    };
    if nested.is_generic() {
        let mut text = pen.whole(holes.fill(ALONE));
        pen.add(&mut text, agreement(pen, nested, format, before).as_str());
        return text;
    }
    let (snake, limit) = (nested.names.snake.as_str(), nested.limit);
    let (codec, agrees) = if before == "bin" {
        (
            pen.one("{}_codec", snake),
            pen.two("bin_agrees {}_nested {}_step (λ f. refl)", snake, snake),
        )
    } else {
        (
            pen.two("{}_{}", snake, before),
            pen.four(
                "nested_agrees {}_{}_nested {}_step (λ f. refl) {}",
                snake,
                before,
                snake,
                limit,
            ),
        )
    };
    holes.put("CODEC", codec.as_str());
    holes.put("AGREES", agrees.as_str());
    pen.whole(holes.fill(LATER))
}

/// The codecs of a format that alone says what is legal, or does so before others.
const ALONE: &str = "
-- those of at most so many levels
abbrev pub $SNAKE_$INFIXat : ℕ → Codec $NAME
$SNAKE_$INFIXat = level $SNAKE_$INFIXnested

-- those that are read
abbrev pub $SNAKE_$SUFFIX : Codec $NAME
$SNAKE_$SUFFIX = limited $SNAKE_$INFIXnested $LIMIT
";

/// The codecs of a format that calls legal what the one before it does.
const LATER: &str = "
-- those of at most so many levels
abbrev pub $SNAKE_$INFIXat : ℕ → Codec $NAME
$SNAKE_$INFIXat = level $SNAKE_$INFIXnested

pub $SNAKE_$INFIXagrees : Agrees $SNAKE_means $CODEC.encoding.legal $SNAKE_means
    (limited $SNAKE_$INFIXnested $LIMIT).encoding.legal
$SNAKE_$INFIXagrees =
    agree_through ($AGREES)
    (nested_agrees $SNAKE_$INFIXnested $SNAKE_step (λ f. refl) $LIMIT)

-- those that are read, and what is legal in the words of the format before
abbrev pub $SNAKE_$SUFFIX : Codec $NAME
$SNAKE_$SUFFIX = legal_as (limited $SNAKE_$INFIXnested $LIMIT) $SNAKE_$INFIXagrees
";
