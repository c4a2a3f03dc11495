//! What is said of the fields of a struct, or of what a variant holds: nested pairs of its parts.

use crate::part::{Part, nothing_part};
use crate::wrapped::{applied_to_two, at, atom};
use derive_pen::Pen;
use derive_syntax::NestedPart;

/// A part at its place.
#[derive(Drop)]
pub(crate) struct Leaf<'a> {
    /// What its type is made of.
    pub(crate) nested: NestedPart<'a>,
    /// What it is called in texts, if it is a named field.
    pub(crate) key: Option<String>,
    /// What it means where it is missing, if it is a field with a default.
    pub(crate) missing: Option<String>,
    /// What is said of it.
    pub(crate) part: Part,
    /// Its value.
    pub(crate) value: String,
    /// That its value is legal.
    pub(crate) legal: String,
}

/// What is said of a row.
#[derive(Drop)]
pub(crate) struct Row {
    /// What is said of its parts together, with no holes but those of the type.
    pub(crate) part: Part,
    /// Its value.
    pub(crate) value: String,
    /// Its bytes; the hole is the codec of the type itself.
    pub(crate) written: String,
    /// That its value is legal.
    pub(crate) legal: String,
}

/// The leaves as nested pairs: half of them, and the other half.
pub(crate) fn row_of(pen: &Pen, leaves: &[Leaf<'_>]) -> Row {
    if let [leaf] = leaves {
        return row_of_one(pen, &leaf.part, leaf.value.as_str(), leaf.legal.as_str());
    }
    let (first, second) = leaves.split_at(leaves.len() / 2);
    if leaves.is_empty() {
        return row_of_one(pen, &nothing_part(pen), "(tt {0})", "refl");
    }
    let first = row_of(pen, first);
    let second = row_of(pen, second);
    both(pen, &first, &second)
}

/// A row of one part.
fn row_of_one(pen: &Pen, part: &Part, value: &str, legal: &str) -> Row {
    let codec = atom(pen, part.codec.as_str());
    Row {
        part: Part {
            of: pen.copy(part.of.as_str()),
            deep: pen.copy(part.deep.as_str()),
            codec: pen.copy(part.codec.as_str()),
            legal: pen.copy(part.legal.as_str()),
            layer: cloned(pen, &part.layer),
            step: at(pen, part.step.as_str(), value),
            means: at(pen, part.means.as_str(), value),
            depth: at(pen, part.depth.as_str(), value),
            is_cased: false,
            means_same: None,
            depth_same: None,
            weaker: pen.copy(part.weaker.as_str()),
            agrees: None,
        },
        value: pen.copy(value),
        written: pen.two("{}.canonical.written {}", codec.as_str(), value),
        legal: pen.copy(legal),
    }
}

/// A copy of a term, if there is one.
fn cloned(pen: &Pen, term: &Option<String>) -> Option<String> {
    match term {
        Some(term) => Some(pen.copy(term.as_str())),
        None => None,
    }
}

/// A pair of two rows.
fn both(pen: &Pen, first: &Row, second: &Row) -> Row {
    let (a, b) = (&first.part, &second.part);
    Row {
        part: both_parts(pen, a, b),
        value: pen.two("({}, {})", first.value.as_str(), second.value.as_str()),
        written: pen.two(
            "({}\n    ++ {})",
            first.written.as_str(),
            second.written.as_str(),
        ),
        legal: pen.four(
            "(record { part = ({}, {}); has = ({}, {}); is = refl })",
            a.means.as_str(),
            b.means.as_str(),
            first.legal.as_str(),
            second.legal.as_str(),
        ),
    }
}

/// What is said of a pair.
fn both_parts(pen: &Pen, a: &Part, b: &Part) -> Part {
    let weaker = "pair_weaker _ _ _ _";
    Part {
        of: both_types(pen, a, b),
        deep: pen.two("{} × {}", a.deep.as_str(), b.deep.as_str()),
        codec: applied_to_two(pen, "pair_codec", a.codec.as_str(), b.codec.as_str()),
        legal: applied_to_two(pen, "LegalPair", a.legal.as_str(), b.legal.as_str()),
        layer: both_layers(pen, a, b),
        step: pen.two("paired ({}, {})", a.step.as_str(), b.step.as_str()),
        means: pen.two("paired ({}, {})", a.means.as_str(), b.means.as_str()),
        depth: both_depths(pen, a, b),
        is_cased: false,
        means_same: None,
        depth_same: None,
        weaker: applied_to_two(pen, weaker, a.weaker.as_str(), b.weaker.as_str()),
        agrees: None,
    }
}

/// The type of a pair.
fn both_types(pen: &Pen, a: &Part, b: &Part) -> String {
    pen.two("{} × {}", factor(pen, a).as_str(), factor(pen, b).as_str())
}

/// A type as one of a pair.
fn factor(pen: &Pen, part: &Part) -> String {
    if part.of.contains(" × ") {
        pen.one("({})", part.of.as_str())
    } else {
        pen.copy(part.of.as_str())
    }
}

/// The layer of a part, which is the codec of one that holds no values of the type itself.
pub(crate) fn layer_of(pen: &Pen, part: &Part) -> String {
    match &part.layer {
        Some(layer) => pen.copy(layer.as_str()),
        None => {
            let codec = atom(pen, part.codec.as_str());
            pen.one("other_layer {}", codec.as_str())
        }
    }
}

/// The layer of a pair, if one of its two has a layer.
fn both_layers(pen: &Pen, a: &Part, b: &Part) -> Option<String> {
    let first = atom(pen, layer_of(pen, a).as_str());
    let second = atom(pen, layer_of(pen, b).as_str());
    match (a.layer.is_some(), b.layer.is_some()) {
        (false, false) => None,
        (false, true) => {
            let codec = atom(pen, a.codec.as_str());
            Some(pen.two("next_layer {} {}", codec.as_str(), second.as_str()))
        }
        _ => Some(pen.two("pair_layer {} {}", first.as_str(), second.as_str())),
    }
}

/// How deep a pair is, where the values of the type itself are depths.
fn both_depths(pen: &Pen, a: &Part, b: &Part) -> String {
    if a.layer.is_none() {
        return pen.copy(b.depth.as_str());
    }
    let first = atom(pen, a.depth.as_str());
    let second = atom(pen, b.depth.as_str());
    pen.two("max {} {}", first.as_str(), second.as_str())
}
