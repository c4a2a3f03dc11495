//! What is said of a tuple, an array or another collection of values of other types, from what is
//! said of these. They hold no values of the type that contains itself.

use crate::keys::{Keys, keys_of};
use crate::part::{Part, nothing_part, other_part};
use crate::wrapped::{applied, at, atom, function};
use derive_pen::Pen;
use derive_syntax::Container;

/// What is said of a collection of these parts.
pub(crate) fn container_part(pen: &Pen, container: Container<'_>, parts: &[Part]) -> Part {
    match (container, parts) {
        (Container::BTreeSet(key), _) => ordered_set(pen, &keys_of(pen, key)),
        (Container::HashSet(key), _) => hashed_set(pen, &keys_of(pen, key)),
        (Container::Tuple, _) => tuple(pen, parts),
        (Container::Array(count), [part]) => array(pen, count, part),
        (Container::LinkedList, [part]) => linked_list(pen, part),
        (Container::HashMap(key), [part]) => hashed_map(pen, &keys_of(pen, key), part),
        _ => nothing_part(pen),
    }
}

/// What is said of an array of so many items.
fn array(pen: &Pen, count: &str, part: &Part) -> Part {
    let codec = atom(pen, part.codec.as_str());
    let legal = atom(pen, part.legal.as_str());
    items(
        pen,
        part,
        pen.two("array_codec {} {}", count, codec.as_str()).as_str(),
        pen.two("LegalArray {} {}", count, legal.as_str()).as_str(),
    )
}

/// What is said of a linked list.
fn linked_list(pen: &Pen, part: &Part) -> Part {
    let codec = atom(pen, part.codec.as_str());
    let legal = atom(pen, part.legal.as_str());
    items(
        pen,
        part,
        pen.one("linked_codec {}", codec.as_str()).as_str(),
        pen.one("LegalList {}", legal.as_str()).as_str(),
    )
}

/// What is said of items that are a list, with this codec, and of which these meanings are legal.
fn items(pen: &Pen, part: &Part, codec: &str, legal: &str) -> Part {
    let of = applied(pen, "List", part.of.as_str());
    let means = pen.one(
        "listed (map {} $)",
        function(pen, part.means.as_str()).as_str(),
    );
    other_part(pen, (of.as_str(), codec, means.as_str(), legal))
}

/// What hashed collections hash with.
const HASHER: &str = "(BuildHasherDefault FoldHasher)";

/// What is said of a hashed set.
fn hashed_set(pen: &Pen, keys: &Keys) -> Part {
    let Keys {
        codec,
        legal,
        means,
        order,
        ..
    } = keys;
    let of = pen.two("HashSet {} {}", keys.of.as_str(), HASHER);
    let codec = pen.three(
        "codec_as (λ (x : {}). x.keys) (set_codec {} {})",
        of.as_str(),
        order.meanings,
        codec.as_str(),
    );
    let means = pen.one("set_means (item_set {} $.keys)", means.as_str());
    let legal = pen.one("LegalSet {}", legal.as_str());
    other_part(
        pen,
        (of.as_str(), codec.as_str(), means.as_str(), legal.as_str()),
    )
}

/// What is said of an ordered set.
fn ordered_set(pen: &Pen, keys: &Keys) -> Part {
    let Keys {
        codec,
        legal,
        means,
        order,
        ..
    } = keys;
    let of = pen.one("BTreeSet {}", keys.of.as_str());
    let codec = pen.four(
        "codec_as (λ (x : {}). x.keys) (ordered_codec {} {} {})",
        of.as_str(),
        order.meanings,
        order.compare,
        codec.as_str(),
    );
    let means = pen.two("ordered_means {} {} $.keys", order.compare, means.as_str());
    let legal = pen.one("LegalSet {}", legal.as_str());
    other_part(
        pen,
        (of.as_str(), codec.as_str(), means.as_str(), legal.as_str()),
    )
}

/// What is said of a hashed map.
fn hashed_map(pen: &Pen, keys: &Keys, part: &Part) -> Part {
    let value = atom(pen, part.of.as_str());
    let value_codec = atom(pen, part.codec.as_str());
    let value_means = function(pen, part.means.as_str());
    let value_legal = atom(pen, part.legal.as_str());
    let of = pen.three("HashMap {} {} {}", keys.of.as_str(), value.as_str(), HASHER);
    let codec = pen.four(
        "codec_as (λ (x : {}). x.entries) (map_codec {} {} {})",
        of.as_str(),
        keys.order.meanings,
        keys.codec.as_str(),
        value_codec.as_str(),
    );
    let means = pen.two(
        "table_means (table_of {} {} $.entries)",
        keys.means.as_str(),
        value_means.as_str(),
    );
    let legal = pen.two("LegalMap {} {}", keys.legal.as_str(), value_legal.as_str());
    other_part(
        pen,
        (of.as_str(), codec.as_str(), means.as_str(), legal.as_str()),
    )
}

/// The places of the parts of a tuple in a value.
const PLACES: [&str; 4] = ["$.0", "$.1", "$.2", "$.3"];

/// What is said of a tuple.
fn tuple(pen: &Pen, parts: &[Part]) -> Part {
    let mut of = pen.empty();
    let mut codec = pen.copy(codec_of(parts.len()));
    let mut means = pen.empty();
    let mut legal = pen.empty();
    for (i, (part, place)) in parts.iter().zip(&PLACES).enumerate() {
        let is_last = i.saturating_add(1) == parts.len();
        pen.add(&mut of, if i == 0 { "" } else { " × " });
        pen.add(&mut of, atom(pen, part.of.as_str()).as_str());
        pen.add(&mut codec, " ");
        pen.add(&mut codec, atom(pen, part.codec.as_str()).as_str());
        let meant = at(pen, part.means.as_str(), *place);
        let set = atom(pen, part.legal.as_str());
        pen.add(
            &mut means,
            before(i, is_last, ("paired (", ", paired (", ", ")),
        );
        pen.add(&mut means, meant.as_str());
        pen.add(
            &mut legal,
            before(i, is_last, ("LegalPair ", " (LegalPair ", " ")),
        );
        pen.add(&mut legal, set.as_str());
    }
    for _closing in 1..parts.len() {
        pen.add(&mut means, ")");
    }
    for _closing in 2..parts.len() {
        pen.add(&mut legal, ")");
    }
    other_part(
        pen,
        (of.as_str(), codec.as_str(), means.as_str(), legal.as_str()),
    )
}

/// What makes the codec of a tuple of the codecs of so many parts.
fn codec_of(count: usize) -> &'static str {
    match count {
        2 => "pair_codec",
        3 => "triple_codec",
        _ => "quadruple_codec",
    }
}

/// What stands before a part of nested pairs at its place: the first, one in between, or the last.
fn before(
    i: usize,
    is_last: bool,
    texts: (&'static str, &'static str, &'static str),
) -> &'static str {
    match (i, is_last) {
        (0, _) => texts.0,
        (_, true) => texts.2,
        _ => texts.1,
    }
}
