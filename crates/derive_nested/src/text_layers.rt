//! The layers of parts, fields and contents in a format of texts.

use crate::codec_laws::law_end;
use crate::cycle::snake_of;
use crate::held::Held;
use crate::maps::map_layer;
use crate::nested::Nested;
use crate::row::Leaf;
use crate::text_codec::TextTerms;
use crate::wrapped::{applied, applied_to_two, at, atom};
use derive_pen::Pen;
use derive_syntax::{Core, Holder, Holes};

/// The layer of the fields of a struct, or those of the variants.
pub(crate) fn layers(pen: &Pen, nested: &Nested<'_>, format: &TextTerms) -> String {
    match nested.contents.split_last() {
        Some((held, _)) if !nested.is_enum => row_layer(pen, format, &held.leaves),
        Some((held, before)) => {
            let last = variant(pen, nested, format, (held, "last", ""));
            variants(pen, nested, format, (before, last))
        }
        None => pen.copy("itself_layer"),
    }
}

/// The layers of the variants before others, and of these.
fn variants(
    pen: &Pen,
    nested: &Nested<'_>,
    format: &TextTerms,
    (before, last): (&[Held<'_>], String),
) -> String {
    let mut text = last;
    for held in before.iter().rev() {
        let rest = pen.one("\n    ({})", text.as_str());
        text = variant(pen, nested, format, (held, "next", rest.as_str()));
    }
    text
}

/// The layer of a variant, the last one or the next one with the rest.
fn variant(
    pen: &Pen,
    nested: &Nested<'_>,
    format: &TextTerms,
    (held, kind, rest): (&Held<'_>, &str, &str),
) -> String {
    let (style, name) = (format.variants, held.key.as_str());
    let snake = nested.names.snake.as_str();
    match content_layer(pen, format, snake, held) {
        None => pen.four("{}_unit {} (codes \"{}\"){}", kind, style, name, rest),
        Some(layer) => {
            let layer = atom(pen, layer.as_str());
            let of = pen.three("{}_variant {} (codes \"{}\")", kind, style, name);
            pen.four(
                "{} {} ({}){}",
                of.as_str(),
                layer.as_str(),
                format.fits,
                rest,
            )
        }
    }
}

/// The layer of what a variant holds, or nothing where its name stands alone. That of named fields
/// has a name.
fn content_layer(pen: &Pen, format: &TextTerms, snake: &str, held: &Held<'_>) -> Option<String> {
    if held.has_fields {
        return Some(content_name(pen, format, snake, held));
    }
    let made = match held.leaves.len() {
        0 => return None,
        1 => "single_layer",
        2 => "pair_layer",
        _ => "triple_layer",
    };
    let mut layer = pen.two("{} {}", made, format.tuple);
    for leaf in &held.leaves {
        let part = part_layer(pen, format, leaf, &leaf.nested.holders);
        pen.add(&mut layer, " ");
        pen.add(&mut layer, atom(pen, part.as_str()).as_str());
    }
    Some(layer)
}

/// The name of the layer of the named fields of a variant.
pub(crate) fn content_name(pen: &Pen, format: &TextTerms, snake: &str, held: &Held<'_>) -> String {
    let end = law_end(pen, held);
    pen.three("{}_{}content_{}", snake, format.coded.infix, end.as_str())
}

/// The layers of the named fields of the variants of an enum, each by its name.
pub(crate) fn content_layers(pen: &Pen, nested: &Nested<'_>, format: &TextTerms) -> String {
    let mut text = pen.empty();
    for held in &nested.contents {
        if nested.is_enum && held.has_fields {
            pen.add(&mut text, fields_layer(pen, nested, format, held).as_str());
        }
    }
    text
}

/// The layer of the named fields of a variant, by its name.
fn fields_layer(pen: &Pen, nested: &Nested<'_>, format: &TextTerms, held: &Held<'_>) -> String {
    let name = nested.root().of.as_str();
    let layer = content_name(pen, format, nested.names.snake.as_str(), held);
    let seen = at(pen, held.row.part.of.as_str(), name);
    let row = row_layer(pen, format, &held.leaves);
    let mut holes = Holes::new(pen.alloc());
    holes.put("LAYER", layer.as_str());
    holes.put("OF", format.coded.of);
    holes.put("NAME", name);
    holes.put("SEEN", atom(pen, seen.as_str()).as_str());
    holes.put("ROW", atom(pen, row.as_str()).as_str());
    holes.put("WRITABLE", format.names);
    pen.whole(holes.fill(FIELDS_LAYER))
}

const FIELDS_LAYER: &str = "
abbrev pub $LAYER : Layer $OF$NAME $SEEN
$LAYER =
    struct_layer $ROW (λ f. $WRITABLE) (λ f. refl)
";

/// The layer of fields: that of one, or of half of them and of the other half.
fn row_layer(pen: &Pen, format: &TextTerms, leaves: &[Leaf<'_>]) -> String {
    if let [leaf] = leaves {
        return field_layer(pen, format, leaf);
    }
    let (first, second) = leaves.split_at(leaves.len() / 2);
    if leaves.is_empty() {
        return pen.one("other_fields {} no_fields", format.fields);
    }
    let first = row_layer(pen, format, first);
    let second = row_layer(pen, format, second);
    applied_to_two(pen, "fields_pair_layer", first.as_str(), second.as_str())
}

/// The layer of a field, which may be missing if it is an option or has a default.
fn field_layer(pen: &Pen, format: &TextTerms, leaf: &Leaf<'_>) -> String {
    if let Some(missing) = &leaf.missing {
        return default_layer(pen, format, leaf, missing.as_str());
    }
    let key = match &leaf.key {
        Some(key) => key.as_str(),
        None => "",
    };
    let (kind, holders) = match leaf.nested.holders.split_first() {
        Some((Holder::Option, held)) => ("optional", held),
        _ => ("required", leaf.nested.holders.as_slice()),
    };
    let style = format.fields;
    if leaf.nested.is_within() {
        let part = part_layer(pen, format, leaf, holders);
        let part = atom(pen, part.as_str());
        return pen.four(
            "{}_layer {} (codes \"{}\") {}",
            kind,
            style,
            key,
            part.as_str(),
        );
    }
    let codec = field_codec(pen, leaf, "");
    pen.two("other_fields {} ({})", style, codec.as_str())
}

/// The layer of a field that means this where it is missing.
fn default_layer(pen: &Pen, format: &TextTerms, leaf: &Leaf<'_>, missing: &str) -> String {
    let key = match &leaf.key {
        Some(key) => key.as_str(),
        None => "",
    };
    let style = format.fields;
    if leaf.nested.is_within() {
        let part = part_layer(pen, format, leaf, &leaf.nested.holders);
        let part = atom(pen, part.as_str());
        return pen.four(
            "defaulted_layer {} (codes \"{}\") {} {}",
            style,
            key,
            part.as_str(),
            missing,
        );
    }
    let codec = atom(pen, leaf.part.codec.as_str());
    pen.four(
        "other_fields {} (defaulted_field (codes \"{}\") {} {})",
        style,
        key,
        codec.as_str(),
        missing,
    )
}

/// The codec of a field, where that of the type itself is this one.
pub(crate) fn field_codec(pen: &Pen, leaf: &Leaf<'_>, itself: &str) -> String {
    let key = match &leaf.key {
        Some(key) => key.as_str(),
        None => "",
    };
    let kind = match leaf.nested.holders.first() {
        Some(Holder::Option) => "optional",
        _ => "required",
    };
    let codec = at(pen, leaf.part.codec.as_str(), itself);
    let codec = held_codec(pen, codec.as_str(), kind);
    pen.three("{}_field (codes \"{}\") {}", kind, key, codec.as_str())
}

/// The codec of the value of a field of this kind, from that of the field's type.
fn held_codec(pen: &Pen, codec: &str, kind: &str) -> String {
    match codec.strip_prefix("option_codec ") {
        Some(held) if kind == "optional" => pen.copy(held),
        _ => atom(pen, codec),
    }
}

/// The layer of a part that stands in these holders.
fn part_layer(pen: &Pen, format: &TextTerms, leaf: &Leaf<'_>, holders: &[Holder<'_>]) -> String {
    if !leaf.nested.is_within() {
        return applied(pen, "other_layer", leaf.part.codec.as_str());
    }
    let mut layer = match leaf.nested.core {
        Core::Around(name) => pen.one("{}_around", snake_of(pen, name).as_str()),
        _ => pen.copy("itself_layer"),
    };
    for holder in holders.iter().rev() {
        let held = atom(pen, layer.as_str());
        layer = match *holder {
            Holder::BTreeMap(key) => map_layer(pen, key, held.as_str()),
            Holder::Box => pen.one("seen_layer (λ x. x.value) {}", held.as_str()),
            Holder::Option => pen.two("option_layer {} {}", format.option, held.as_str()),
            Holder::Vec => pen.two(
                "seen_layer (λ x. x.items) (list_layer {} {})",
                format.list,
                held.as_str(),
            ),
        };
    }
    layer
}
