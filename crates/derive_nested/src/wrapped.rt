//! What is said of a box, an option, a list or a map of something, from what is said of that.

use crate::containers::container_part;
use crate::maps::mapped;
use crate::part::{Names, Part, core_part, nothing_part};
use derive_pen::Pen;
use derive_syntax::{Core, Holder, NestedPart};

/// What is said of a part.
pub(crate) fn part_of(pen: &Pen, names: &Names, nested: &NestedPart<'_>) -> Part {
    part_within(pen, names, nested, nested.depth)
}

/// What is said of a part in which collections stand in one another so deep at most.
fn part_within(pen: &Pen, names: &Names, nested: &NestedPart<'_>, depth: usize) -> Part {
    let mut parts = Vec::new(pen.alloc());
    for held in &nested.parts {
        if depth == 0 {
            return nothing_part(pen);
        }
        pen.push(&mut parts, part_within(pen, names, held, depth - 1));
    }
    let mut part = match nested.core {
        Core::Container(container) => container_part(pen, container, &parts),
        core => core_part(pen, names, core),
    };
    for holder in nested.holders.iter().rev() {
        part = match *holder {
            Holder::BTreeMap(key) => mapped(pen, names, (key, &part)),
            Holder::Box => boxed(pen, names, &part),
            Holder::Option => optional(pen, &part),
            Holder::Vec => listed(pen, names, &part),
        };
    }
    part
}

/// What is said of a box.
fn boxed(pen: &Pen, names: &Names, part: &Part) -> Part {
    let value = "$.value";
    Part {
        of: held_by(pen, "Box", part.of.as_str()),
        deep: held_by(pen, "Box", part.deep.as_str()),
        codec: boxed_codec(pen, names, part),
        legal: pen.copy(part.legal.as_str()),
        layer: layered(pen, "seen_layer (λ x. x.value) ", &part.layer, ""),
        step: at(pen, part.step.as_str(), value),
        means: at(pen, part.means.as_str(), value),
        depth: at(pen, part.depth.as_str(), value),
        is_cased: false,
        means_same: held_proof(pen, &part.means_same, value),
        depth_same: held_proof(pen, &part.depth_same, value),
        weaker: pen.copy(part.weaker.as_str()),
        agrees: seen_agreeing(pen, "", &part.agrees, "(λ x. x.value)"),
    }
}

/// The type of a box or a list of values of a type.
fn held_by(pen: &Pen, holder: &str, of: &str) -> String {
    pen.one("{} Global", applied(pen, holder, of).as_str())
}

/// The codec of a box.
fn boxed_codec(pen: &Pen, names: &Names, part: &Part) -> String {
    let of = at(pen, part.of.as_str(), names.of.as_str());
    let seen = pen.one(
        "codec_as (λ (x : {}). x.value)",
        held_by(pen, "Box", of.as_str()).as_str(),
    );
    applied(pen, seen.as_str(), part.codec.as_str())
}

/// A proof of a value, if there is one.
pub(crate) fn held_proof(pen: &Pen, proof: &Option<String>, value: &str) -> Option<String> {
    match proof {
        Some(proof) => Some(at(pen, proof.as_str(), value)),
        None => None,
    }
}

/// The proof for an option that has something, if there is one for that.
fn some_proof(pen: &Pen, proof: &Option<String>) -> Option<String> {
    match proof {
        Some(proof) => Some(pen.one("ap (λ m. optional (Some m)) ({})", proof.as_str())),
        None => None,
    }
}

/// That a codec agrees with values that are seen as others, if that of the others does: after what
/// says so of a collection of them.
pub(crate) fn seen_agreeing(
    pen: &Pen,
    of: &str,
    agrees: &Option<String>,
    view: &str,
) -> Option<String> {
    match layered(pen, of, agrees, "") {
        Some(agrees) => {
            let agrees = atom(pen, agrees.as_str());
            Some(pen.two("seen_agrees {} {}", agrees.as_str(), view))
        }
        None => None,
    }
}

/// What is said of an option.
fn optional(pen: &Pen, part: &Part) -> Part {
    Part {
        of: applied(pen, "Option", part.of.as_str()),
        deep: applied(pen, "Option", part.deep.as_str()),
        codec: applied(pen, "option_codec", part.codec.as_str()),
        legal: applied(pen, "LegalOption", part.legal.as_str()),
        layer: layered(pen, "option_layer ", &part.layer, ""),
        step: optional_means(pen, part.step.as_str()),
        means: optional_means(pen, part.means.as_str()),
        depth: optional_depth(pen, part),
        is_cased: part.layer.is_some(),
        means_same: some_proof(pen, &part.means_same),
        depth_same: held_proof(pen, &part.depth_same, "$"),
        weaker: applied(pen, "option_weaker _ _", part.weaker.as_str()),
        agrees: layered(pen, "option_agrees ", &part.agrees, ""),
    }
}

/// What an option means whose value means this.
fn optional_means(pen: &Pen, means: &str) -> String {
    pen.one("optional (option_map {} $)", function(pen, means).as_str())
}

/// How deep an option is, where the values of the type itself are depths.
fn optional_depth(pen: &Pen, part: &Part) -> String {
    if part.layer.is_none() {
        return pen.copy("0");
    }
    let depth = at(pen, part.depth.as_str(), "x");
    pen.one("held_depth (λ x. {}) $", depth.as_str())
}

/// An item of a list, and its items.
const ITEMS: (&str, &str) = ("x", "$.items");

/// What is said of a list.
fn listed(pen: &Pen, names: &Names, part: &Part) -> Part {
    let within = part.layer.is_some();
    let mapped = within && !is_itself(part);
    let (means_same, depth_same) = (&part.means_same, &part.depth_same);
    Part {
        of: held_by(pen, "Vec", part.of.as_str()),
        deep: held_by(pen, "Vec", part.deep.as_str()),
        codec: listed_codec(pen, names, part),
        legal: applied(pen, "LegalList", part.legal.as_str()),
        layer: listed_layer(pen, part),
        step: listed_step(pen, part),
        means: listed_means(pen, part.means.as_str()),
        depth: listed_depth(pen, part),
        is_cased: false,
        means_same: steps(pen, mapped, "list_means _ _ _", ITEMS, means_same),
        depth_same: steps(pen, within, "list_depth _ _ _", ITEMS, depth_same),
        weaker: applied(pen, "list_weaker _ _", part.weaker.as_str()),
        agrees: seen_agreeing(pen, "list_agrees ", &part.agrees, "(λ x. x.items)"),
    }
}

/// The codec of a list.
fn listed_codec(pen: &Pen, names: &Names, part: &Part) -> String {
    let of = at(pen, part.of.as_str(), names.of.as_str());
    pen.two(
        "codec_as (λ (x : {}). x.items) ({})",
        held_by(pen, "Vec", of.as_str()).as_str(),
        applied(pen, "list_codec", part.codec.as_str()).as_str(),
    )
}

/// As bytes the layer of a list, if its items are of the type itself.
fn listed_layer(pen: &Pen, part: &Part) -> Option<String> {
    let before = "seen_layer (λ x. x.items) (list_layer ";
    layered(pen, before, &part.layer, ")")
}

/// What a list means whose items mean this.
fn listed_means(pen: &Pen, means: &str) -> String {
    pen.one("listed (map {} $.items)", function(pen, means).as_str())
}

/// Whether a part is the type itself.
fn is_itself(part: &Part) -> bool {
    part.step.as_str() == "$" && part.means_same.is_none()
}

/// What a list means, where the values of the type itself are meanings.
fn listed_step(pen: &Pen, part: &Part) -> String {
    if is_itself(part) {
        return pen.copy("listed $.items");
    }
    listed_means(pen, part.step.as_str())
}

/// How deep a list is, where the values of the type itself are depths.
fn listed_depth(pen: &Pen, part: &Part) -> String {
    if part.layer.is_none() {
        return pen.copy("0");
    }
    let depth = at(pen, part.depth.as_str(), "x");
    pen.one("greatest (map (λ x. {}) $.items)", depth.as_str())
}

/// A layer with what stands before and after it, if there is one.
pub(crate) fn layered(
    pen: &Pen,
    before: &str,
    layer: &Option<String>,
    after: &str,
) -> Option<String> {
    match layer {
        Some(layer) => {
            let layer = atom(pen, layer.as_str());
            Some(pen.three("{}{}{}", before, layer.as_str(), after))
        }
        None => None,
    }
}

/// A proof by a lemma, of what is proved of what this takes of each item, if there is something to
/// prove.
pub(crate) fn steps(
    pen: &Pen,
    takes_proof: bool,
    lemma: &str,
    (item, items): (&str, &str),
    proof: &Option<String>,
) -> Option<String> {
    if !takes_proof {
        return None;
    }
    let each = match proof {
        Some(proof) => at(pen, proof.as_str(), item),
        None => pen.copy("refl"),
    };
    Some(pen.three("{} (λ x. {}) {}", lemma, each.as_str(), items))
}

/// A term with a value in its hole.
pub(crate) fn at(pen: &Pen, term: &str, value: &str) -> String {
    let mut text = pen.empty();
    for (i, part) in term.split('$').enumerate() {
        if i > 0 {
            pen.add(&mut text, value);
        }
        pen.add(&mut text, part);
    }
    text
}

/// A term as an argument: between brackets, if it has several words.
pub(crate) fn atom(pen: &Pen, term: &str) -> String {
    if term.contains(' ') {
        pen.one("({})", term)
    } else {
        pen.copy(term)
    }
}

/// A function with this argument.
pub(crate) fn applied(pen: &Pen, function: &str, argument: &str) -> String {
    pen.two("{} {}", function, atom(pen, argument).as_str())
}

/// A function with these two arguments.
pub(crate) fn applied_to_two(pen: &Pen, function: &str, first: &str, second: &str) -> String {
    let first = applied(pen, function, first);
    applied(pen, first.as_str(), second)
}

/// A term with a hole as a function of what stands in it.
pub(crate) fn function(pen: &Pen, term: &str) -> String {
    match term.strip_suffix(" $") {
        Some(name) if !name.contains(' ') => pen.copy(name),
        _ => pen.one("(λ x. {})", at(pen, term, "x").as_str()),
    }
}
