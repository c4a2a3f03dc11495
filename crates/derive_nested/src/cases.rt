//! That what a value means, and how deep it is, are the same step by step as the layer says. Where
//! a part is an option of values of the type itself, it is proved where it has none and where it
//! has some.

use crate::held::Held;
use crate::nested::Nested;
use crate::row::Leaf;
use crate::wrapped::{atom, held_proof};
use derive_pen::Pen;
use derive_syntax::Holes;

/// What is proved of a value in a format, with whose infix the names of its definitions are made.
#[derive(Clone, Copy)]
pub(crate) struct Claim<'a> {
    /// The infix.
    pub(crate) infix: &'a str,
    /// What is proved.
    pub(crate) said: Said,
}

/// What is proved of a value.
#[derive(Clone, Copy)]
pub(crate) enum Said {
    /// What it means, as a value of the variant at this place.
    Means(usize),
    /// How deep it is.
    Depth,
}

/// A part in a case.
#[derive(Drop)]
struct Chosen {
    /// Its value.
    value: String,
    /// The proof of it, if it takes one.
    proof: Option<String>,
    /// Whether it holds values of the type itself.
    is_within: bool,
}

/// The proof for a variant or for the struct.
pub(crate) fn proof(pen: &Pen, nested: &Nested<'_>, held: &Held<'_>, claim: Claim<'_>) -> String {
    cased(pen, (nested, held), claim, &[], &held.leaves)
}

/// The proof where the first parts are chosen, for all cases of the rest.
fn cased(
    pen: &Pen,
    of: (&Nested<'_>, &Held<'_>),
    claim: Claim<'_>,
    chosen: &[Chosen],
    rest: &[Leaf<'_>],
) -> String {
    let Some((leaf, later)) = rest.split_first() else {
        return row_proof(pen, of, claim, chosen);
    };
    if !leaf.part.is_cased {
        let proof = leaf_proof(pen, leaf, claim, leaf.value.as_str());
        let more = with(pen, chosen, leaf, leaf.value.as_str(), proof);
        return cased(pen, of, claim, &more, later);
    }
    let more = with(pen, chosen, leaf, "None", None);
    let without = cased(pen, of, claim, &more, later);
    let some = pen.one("x{}", pen.number(chosen.len()).as_str());
    let more = with_some(pen, chosen, leaf, claim, some.as_str());
    let within = cased(pen, of, claim, &more, later);
    let motive = with(pen, chosen, leaf, "o", None);
    let stated = statement(pen, of, claim, (&motive, later));
    let cases = (without.as_str(), within.as_str());
    by_option(pen, leaf, stated.as_str(), some.as_str(), cases)
}

/// The chosen parts, and an option that has this.
fn with_some(
    pen: &Pen,
    chosen: &[Chosen],
    leaf: &Leaf<'_>,
    claim: Claim<'_>,
    some: &str,
) -> Vec<Chosen> {
    let proof = leaf_proof(pen, leaf, claim, some);
    with(
        pen,
        chosen,
        leaf,
        pen.one("(Some {})", some).as_str(),
        proof,
    )
}

/// The proof of what is stated of an option, where it has nothing and where it has this.
fn by_option(
    pen: &Pen,
    leaf: &Leaf<'_>,
    stated: &str,
    some: &str,
    (without, within): (&str, &str),
) -> String {
    let mut holes = Holes::new(pen.alloc());
    holes.put("STATED", stated);
    holes.put("WITHOUT", atom(pen, without).as_str());
    holes.put("SOME", some);
    holes.put("WITHIN", within);
    holes.put("OPTION", leaf.value.as_str());
    pen.whole(holes.fill(BY_OPTION))
}

const BY_OPTION: &str = "by_option (λ o. $STATED)
    $WITHOUT (λ $SOME. $WITHIN)
    $OPTION";

/// The proof of a part of this value.
fn leaf_proof(pen: &Pen, leaf: &Leaf<'_>, claim: Claim<'_>, value: &str) -> Option<String> {
    match claim.said {
        Said::Means(_place) => held_proof(pen, &leaf.part.means_same, value),
        Said::Depth => held_proof(pen, &leaf.part.depth_same, value),
    }
}

/// The chosen parts, and one more.
fn with(
    pen: &Pen,
    chosen: &[Chosen],
    leaf: &Leaf<'_>,
    value: &str,
    proof: Option<String>,
) -> Vec<Chosen> {
    let mut all = Vec::new(pen.alloc());
    for part in chosen {
        pen.push(
            &mut all,
            Chosen {
                value: pen.copy(part.value.as_str()),
                proof: held_proof(pen, &part.proof, "$"),
                is_within: part.is_within,
            },
        );
    }
    let value = pen.copy(value);
    let is_within = leaf.part.layer.is_some();
    pen.push(
        &mut all,
        Chosen {
            value,
            proof,
            is_within,
        },
    );
    all
}

/// What is proved of a value with these parts.
fn statement(
    pen: &Pen,
    (nested, held): (&Nested<'_>, &Held<'_>),
    claim: Claim<'_>,
    (chosen, later): (&[Chosen], &[Leaf<'_>]),
) -> String {
    let mut values = Vec::new(pen.alloc());
    for part in chosen {
        pen.push(&mut values, pen.copy(part.value.as_str()));
    }
    for leaf in later {
        pen.push(&mut values, pen.copy(leaf.value.as_str()));
    }
    let value = value_of(pen, nested, held, &values);
    let mut holes = nested.all_holes(pen);
    holes.put("INFIX", claim.infix);
    holes.put("VALUE", value.as_str());
    pen.whole(holes.fill(match claim.said {
        Said::Means(_place) => MEANS,
        Said::Depth => DEPTH,
    }))
}

const MEANS: &str = "$SNAKE_means_step (map-$NAME $TYPES $AS_MEANINGS $EACH_MEANS $VALUE)
    ≡ $SNAKE_$INFIXlayer.means $BASE_means ($SNAKE_opened {X = $ROOT} $VALUE)";

const DEPTH: &str = "$SNAKE_depth_step (map-$NAME $TYPES $AS_DEPTHS $EACH_DEPTH $VALUE)
    ≡ $SNAKE_$INFIXlayer.deep $BASE_depth ($SNAKE_opened {X = $ROOT} $VALUE)";

/// A value with these parts.
fn value_of(pen: &Pen, nested: &Nested<'_>, held: &Held<'_>, values: &[String]) -> String {
    let mut text = pen.empty();
    for (name, value) in held.called.iter().zip(values.iter()) {
        let part = if nested.is_enum {
            pen.one(" {}", value.as_str())
        } else {
            let between = if text.is_empty() { "" } else { ";" };
            pen.three("{} {} = {}", between, name.as_str(), value.as_str())
        };
        pen.add(&mut text, part.as_str());
    }
    if nested.is_enum {
        pen.three(
            "({}-F.{}{})",
            nested.names.of.as_str(),
            held.constructor.as_str(),
            text.as_str(),
        )
    } else {
        pen.one("(record {{} })", text.as_str())
    }
}

/// The proof for parts in one case.
fn row_proof(
    pen: &Pen,
    (nested, _held): (&Nested<'_>, &Held<'_>),
    claim: Claim<'_>,
    chosen: &[Chosen],
) -> String {
    let later = later_lemma(claim.infix);
    match (pairs_proof(pen, claim.said, later, chosen), claim.said) {
        (None, _) => pen.copy("refl"),
        (Some(proof), Said::Means(place)) if nested.is_enum => {
            pen.two(
                "ap (λ m. tagged {} m) {}",
                pen.number(place).as_str(),
                atom(pen, proof.as_str()).as_str(),
            )
        }
        (Some(proof), _) => proof,
    }
}

/// The lemma that what holds no values of the type itself makes nothing deeper, with an infix of a
/// format, or nothing where the layers say it by themselves, as those of bytes do.
fn later_lemma(infix: &str) -> &'static str {
    if infix.is_empty() { "" } else { "later_depth" }
}

/// The proof for nested pairs of parts, if it takes one. Given is the lemma for those that hold no
/// values of the type itself before others, or nothing.
fn pairs_proof(pen: &Pen, said: Said, later: &str, chosen: &[Chosen]) -> Option<String> {
    if let [part] = chosen {
        return held_proof(pen, &part.proof, "$");
    }
    let (first, second) = chosen.split_at(chosen.len() / 2);
    if chosen.is_empty() {
        return None;
    }
    let other = pairs_proof(pen, said, later, second);
    let lemma = match said {
        Said::Means(_place) => "pair_means",
        Said::Depth if are_within(first) => "pair_depth",
        Said::Depth if later.is_empty() || !are_there(second) => return other,
        Said::Depth => return Some(pen.two("{} {}", later, argument(pen, &other).as_str())),
    };
    let one = pairs_proof(pen, said, later, first);
    if one.is_none() && other.is_none() {
        return None;
    }
    let (one, other) = (argument(pen, &one), argument(pen, &other));
    Some(pen.three("{} {} {}", lemma, one.as_str(), other.as_str()))
}

/// Whether one of these parts holds values of the type itself.
fn are_within(chosen: &[Chosen]) -> bool {
    for part in chosen {
        if part.is_within {
            return true;
        }
    }
    false
}

/// Whether one of these parts holds values of the type itself in this case.
fn are_there(chosen: &[Chosen]) -> bool {
    for part in chosen {
        if part.is_within && part.value.as_str() != "None" {
            return true;
        }
    }
    false
}

/// A proof as an argument.
fn argument(pen: &Pen, proof: &Option<String>) -> String {
    match proof {
        Some(proof) => atom(pen, proof.as_str()),
        None => pen.copy("refl"),
    }
}
