//! What is said of an ordered map, from what is said of its keys and its values.

use crate::keys::{Keys, keys_of};
use crate::part::{Names, Part};
use crate::wrapped::{applied, at, atom, function, layered, seen_agreeing, steps};
use derive_pen::Pen;

/// What is said of a map from keys of a type of Rust's, by its name.
pub(crate) fn mapped(pen: &Pen, names: &Names, (key, part): (&str, &Part)) -> Part {
    let keys = keys_of(pen, key);
    let within = part.layer.is_some();
    let items = ("x.1", "$.entries");
    Part {
        of: mapped_type(pen, &keys, part.of.as_str()),
        deep: mapped_type(pen, &keys, part.deep.as_str()),
        codec: mapped_codec(pen, names, &keys, part),
        legal: mapped_legal(pen, &keys, part),
        layer: mapped_layer(pen, &keys, part),
        step: mapped_means(pen, &keys, part.step.as_str()),
        means: mapped_means(pen, &keys, part.means.as_str()),
        depth: mapped_depth(pen, &keys, part),
        is_cased: false,
        means_same: mapped_same(pen, &keys, part),
        depth_same: steps(pen, within, "list_depth _ _ _", items, &part.depth_same),
        weaker: mapped_weaker(pen, &keys, part),
        agrees: mapped_agrees(pen, &keys, &part.agrees),
    }
}

/// The type of a map to values of a type.
fn mapped_type(pen: &Pen, keys: &Keys, of: &str) -> String {
    let map = pen.one("BTreeMap {}", keys.of.as_str());
    applied(pen, map.as_str(), of)
}

/// Which meanings are legal for a map.
fn mapped_legal(pen: &Pen, keys: &Keys, part: &Part) -> String {
    let map = pen.one("LegalMap {}", keys.legal.as_str());
    applied(pen, map.as_str(), part.legal.as_str())
}

/// That what is legal for a map remains so, if that of its values does.
fn mapped_weaker(pen: &Pen, keys: &Keys, part: &Part) -> String {
    let map = pen.one("map_weaker _ _ _ _ (remains {})", keys.legal.as_str());
    applied(pen, map.as_str(), part.weaker.as_str())
}

/// That the codec of a map agrees with it, if that of its values does.
fn mapped_agrees(pen: &Pen, keys: &Keys, agrees: &Option<String>) -> Option<String> {
    let of = pen.two(
        "ordered_map_agrees (agreed {means = {}} {legal = {}}) ",
        keys.means.as_str(),
        keys.legal.as_str(),
    );
    let after = pen.one(" {}", keys.order.compare);
    let map = layered(pen, of.as_str(), agrees, after.as_str());
    seen_agreeing(pen, "", &map, "(λ x. x.entries)")
}

/// The codec of a map.
fn mapped_codec(pen: &Pen, names: &Names, keys: &Keys, part: &Part) -> String {
    let of = at(pen, part.of.as_str(), names.of.as_str());
    let of = atom(pen, of.as_str());
    let codec = atom(pen, part.codec.as_str());
    let codec = pen.four(
        "(ordered_map_codec {} {} {} {})",
        keys.order.meanings,
        keys.order.compare,
        keys.codec.as_str(),
        codec.as_str(),
    );
    pen.three(
        "codec_as (λ (x : BTreeMap {} {}). x.entries) {}",
        keys.of.as_str(),
        of.as_str(),
        codec.as_str(),
    )
}

/// As bytes the layer of a map, if its values are of the type itself.
fn mapped_layer(pen: &Pen, keys: &Keys, part: &Part) -> Option<String> {
    let before = pen.two(
        "seen_layer (λ x. x.entries) (ordered_map_layer {} {} refl ",
        keys.order.meanings,
        keys.codec.as_str(),
    );
    let after = pen.one(" {})", keys.order.compare);
    layered(pen, before.as_str(), &part.layer, after.as_str())
}

/// What a map means whose values mean this.
fn mapped_means(pen: &Pen, keys: &Keys, means: &str) -> String {
    let (compare, of) = (keys.order.compare, keys.means.as_str());
    let means = function(pen, means);
    pen.three(
        "ordered_map_means {} {} {} $.entries",
        compare,
        of,
        means.as_str(),
    )
}

/// How deep a map is, where the values of the type itself are depths.
fn mapped_depth(pen: &Pen, keys: &Keys, part: &Part) -> String {
    if part.layer.is_none() {
        return pen.copy("0");
    }
    let depth = at(pen, part.depth.as_str(), "x.1");
    pen.three(
        "greatest (map (λ (x : {} × {}). {}) $.entries)",
        keys.of.as_str(),
        part.deep.as_str(),
        depth.as_str(),
    )
}

/// That a map means the same step by step, if its values are of the type itself.
fn mapped_same(pen: &Pen, keys: &Keys, part: &Part) -> Option<String> {
    if part.layer.is_none() {
        return None;
    }
    let step = function(pen, part.step.as_str());
    let means = function(pen, part.means.as_str());
    let each = match &part.means_same {
        Some(proof) => {
            let proof = at(pen, proof.as_str(), "x.1");
            pen.one("λ x i. (x.0, ({}) i)", proof.as_str())
        }
        None => pen.copy("λ x. refl"),
    };
    let of = pen.two("map_means {} {}", keys.order.compare, keys.means.as_str());
    Some(pen.four(
        "{} {} _ {} ({}) $.entries",
        of.as_str(),
        step.as_str(),
        means.as_str(),
        each.as_str(),
    ))
}

/// The layer of a map in a format of texts, from keys of a type of Rust's by its name, around the
/// layer of its values.
pub(crate) fn map_layer(pen: &Pen, key: &str, layer: &str) -> String {
    let keys = keys_of(pen, key);
    let order = keys.order;
    let (meanings, compare) = (order.meanings, order.compare);
    let follows = pen.four(
        "follows_order {} {} {} {}",
        compare,
        keys.means.as_str(),
        meanings,
        order.follows,
    );
    let entries = pen.three("{} {} {}", meanings, keys.codec.as_str(), compare);
    pen.three(
        "seen_layer (λ x. x.entries) (ordered_map_layer curly_style curly_brackets entry_style \
        (λ h. h) {} ({}) {})",
        entries.as_str(),
        follows.as_str(),
        layer,
    )
}
