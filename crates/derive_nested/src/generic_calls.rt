//! The calls that write the variants of an enum, by which the goals of what writes it are named.

use crate::codec_laws::law_end;
use crate::held::Held;
use crate::row::Leaf;
use derive_pen::Pen;

/// What writes variants in a format.
#[derive(Clone, Copy)]
pub(crate) struct Writes {
    /// What stands in the name of its trait.
    pub(crate) word: &'static str,
    /// Its method.
    pub(crate) method: &'static str,
    /// What a law of it is called after the name of the type, and what it is given.
    pub(crate) law: (&'static str, &'static str),
}

const BYTES: Writes = Writes {
    word: "Bin",
    method: "write_bin",
    law: ("written", ""),
};

const JSON: Writes = Writes {
    word: "Json",
    method: "write_json",
    law: ("json_text", " c.args.d"),
};

const RON: Writes = Writes {
    word: "Ron",
    method: "write_ron",
    law: ("ron_text", " c.args.d"),
};

/// What writes variants in the format of this name.
pub(crate) fn writes_of(format: &str) -> Writes {
    match format {
        "json" => JSON,
        "ron" => RON,
        _ => BYTES,
    }
}

/// The call that writes a variant, or as bytes its first part.
pub(crate) fn call_of(pen: &Pen, writes: Writes, held: &Held<'_>) -> String {
    let is_within = match held.leaves.first() {
        Some(leaf) => leaf.nested.is_within(),
        None => false,
    };
    let call = match (writes.word, held.leaves.len(), is_within) {
        ("Bin", _, true) => "append_variant_within",
        ("Bin", _, false) => "append_variant",
        _ if held.has_fields => return pen.one("write_{}", law_end(pen, held).as_str()),
        (_, 0, _) => "write_unit_variant",
        (_, 1, true) => "write_variant_within",
        (_, 1, false) => "write_variant_other",
        (_, 2, _) => "write_pair_within",
        _ => "write_triple_within",
    };
    pen.copy(call)
}

/// The step of what writes a variant as bytes that comes before the last one, if it has several
/// parts: the call, with its number where the same call comes before it.
pub(crate) fn step_before(pen: &Pen, held: &Held<'_>) -> Option<String> {
    let [_first, between @ .., _last] = held.leaves.as_slice() else {
        return None;
    };
    let name = held.name.as_str();
    match between.last() {
        Some(leaf) => Some(call_again(pen, between, leaf.nested.is_within(), name)),
        None => Some(pen.two("{}-in-{}", call_of(pen, BYTES, held).as_str(), name)),
    }
}

/// The last call for those of some parts that hold values of the type itself, or for the others, in
/// a variant of this name.
fn call_again(pen: &Pen, leaves: &[Leaf<'_>], is_within: bool, name: &str) -> String {
    let call = if is_within {
        "append_part_within"
    } else {
        "append_part"
    };
    let count = count_of(leaves, is_within);
    if count < 2 {
        return pen.two("{}-in-{}", call, name);
    }
    pen.three("{}-in-{}-{}", call, name, pen.number(count).as_str())
}

/// How many of some parts hold values of the type itself, or how many do not.
fn count_of(leaves: &[Leaf<'_>], are_within: bool) -> usize {
    let mut count = 0usize;
    for leaf in leaves {
        if leaf.nested.is_within() == are_within {
            count = count.saturating_add(1);
        }
    }
    count
}
