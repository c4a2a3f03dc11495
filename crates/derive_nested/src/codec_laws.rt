//! What is proved of a type that contains itself: what each variant is seen as, and of bytes how a
//! value is written, and when it is legal.

use crate::cycle::snake_of;
use crate::held::Held;
use crate::legal_laws::{Known, struct_legal, variant_legal};
use crate::nested::Nested;
use crate::wrapped::{at, atom};
use derive_pen::Pen;

/// The laws of a type, which has bytes or not. The fields of a struct are those of `(out-NAME x)`.
pub(crate) fn codec_laws(pen: &Pen, nested: &Nested<'_>, has_bin: bool) -> String {
    let mut text = pen.one("\n-- ==== {}\n", nested.names.of.as_str());
    for (i, held) in nested.contents.iter().enumerate() {
        if nested.is_enum {
            pen.add(&mut text, view_law(pen, nested, held, i).as_str());
        }
        let law = match (nested.is_enum, has_bin) {
            (_, false) => pen.empty(),
            (true, true) => variant_laws(pen, nested, held, i),
            (false, true) => struct_laws(pen, nested, held),
        };
        pen.add(&mut text, law.as_str());
    }
    pen.add(&mut text, sets(pen, nested, has_bin).as_str());
    text
}

/// The laws by which an enum is made, and those by which a value is written as bytes, if it is.
fn sets(pen: &Pen, nested: &Nested<'_>, has_bin: bool) -> String {
    let snake = nested.names.snake.as_str();
    let mut text = pen.empty();
    if nested.is_enum {
        let names = named(pen, nested, "view");
        pen.add(
            &mut text,
            pen.two("\npub ruleset {}_views = ({})\n", snake, names.as_str())
                .as_str(),
        );
    }
    if has_bin {
        let names = named(pen, nested, "written");
        let set = pen.two(
            "\npub ruleset {}_written_laws = (append_assoc, {})\n",
            snake,
            names.as_str(),
        );
        pen.add(&mut text, set.as_str());
    }
    text
}

/// The names of the laws of a kind.
fn named(pen: &Pen, nested: &Nested<'_>, kind: &str) -> String {
    let snake = nested.names.snake.as_str();
    if !nested.is_enum {
        return pen.two("{}_{}", snake, kind);
    }
    let mut names = pen.empty();
    for held in &nested.contents {
        pen.add_between(&mut names, ", ");
        let end = law_end(pen, held);
        pen.add(
            &mut names,
            pen.three("{}_{}_{}", snake, kind, end.as_str()).as_str(),
        );
    }
    names
}

/// The end of the names of the laws of a variant.
pub(crate) fn law_end(pen: &Pen, held: &Held<'_>) -> String {
    snake_of(pen, held.name.as_str())
}

/// The laws of a struct.
fn struct_laws(pen: &Pen, nested: &Nested<'_>, held: &Held<'_>) -> String {
    let written = itself_at(pen, nested, held.row.written.as_str());
    let legal = struct_legal(pen, nested, held, &bytes(pen, nested));
    let proof = if nested.is_around() { "refl" } else { WRITTEN };
    let mut holes = nested.holes(pen);
    let proof = pen.whole(holes.fill(proof));
    holes.put("WRITTEN", written.as_str());
    holes.put("PROOF", proof.as_str());
    holes.put("LEGAL", legal.as_str());
    pen.whole(holes.fill(STRUCT_LAWS))
}

const WRITTEN: &str = "written_seen $SNAKE_nested x ($SNAKE_view x) refl";

const STRUCT_LAWS: &str = "
pub $SNAKE_written : (x : $NAME)
    → $SNAKE_codec.canonical.written x
    ≡ $WRITTEN
$SNAKE_written x = $PROOF
$LEGAL";

/// What a variant at its place is seen as.
fn view_law(pen: &Pen, nested: &Nested<'_>, held: &Held<'_>, i: usize) -> String {
    let Variant {
        value,
        seen,
        view,
        ..
    } = variant_at(pen, nested, held, i);
    let (end, parts) = (law_end(pen, held), binders(pen, nested, held));
    let mut holes = nested.holes(pen);
    holes.put("END", end.as_str());
    holes.put("PARTS", parts.as_str());
    holes.put("VALUE", value.as_str());
    holes.put("SEEN", seen.as_str());
    holes.put("VIEW", view.as_str());
    pen.whole(holes.fill(VIEW_LAW))
}

const VIEW_LAW: &str = "
pub $SNAKE_view_$END : $PARTS$SNAKE_view $VALUE ≡ $SEEN
$VIEW = search (rules, the_lemmas)
";

/// A value of a variant, as ghost terms.
#[derive(Drop)]
pub(crate) struct Variant {
    /// The value.
    pub(crate) value: String,
    /// What it is seen as.
    pub(crate) seen: String,
    /// The law that says so.
    pub(crate) view: String,
}

/// A value of a variant at its place.
pub(crate) fn variant_at(pen: &Pen, nested: &Nested<'_>, held: &Held<'_>, i: usize) -> Variant {
    let (name, snake) = (nested.names.of.as_str(), nested.names.snake.as_str());
    let (end, values) = (law_end(pen, held), held.values(pen));
    let value = pen.three("{}-{}{}", name, held.name.as_str(), values.as_str());
    Variant {
        value: atom(pen, value.as_str()),
        seen: nested.at_place(pen, i, held.row.value.as_str()),
        view: pen.three("{}_view_{}{}", snake, end.as_str(), values.as_str()),
    }
}

/// The laws of a variant at its place as bytes.
fn variant_laws(pen: &Pen, nested: &Nested<'_>, held: &Held<'_>, i: usize) -> String {
    let snake = nested.names.snake.as_str();
    let (end, values) = (law_end(pen, held), held.values(pen));
    let parts = binders(pen, nested, held);
    let Variant { value, seen, view } = variant_at(pen, nested, held, i);
    let law = if nested.is_around() {
        pen.one("layer_written {}", layer_of(pen, nested).as_str())
    } else {
        pen.one("written_seen {}_nested", snake)
    };
    let of = pen.four(
        "{} {} {} {}",
        law.as_str(),
        value.as_str(),
        atom(pen, seen.as_str()).as_str(),
        atom(pen, view.as_str()).as_str(),
    );
    let legal = variant_legal(pen, nested, (held, i), &bytes(pen, nested));
    let written = itself_at(pen, nested, held.row.written.as_str());
    let mut holes = nested.holes(pen);
    holes.put("END", end.as_str());
    holes.put("PARTS", parts.as_str());
    holes.put("VALUE", value.as_str());
    holes.put("PLACE", pen.one("{}", pen.number(i).as_str()).as_str());
    holes.put("WRITTEN", written.as_str());
    holes.put("GIVEN", values.as_str());
    holes.put("LAW", of.as_str());
    holes.put("LEGAL", legal.as_str());
    pen.whole(holes.fill(VARIANT_LAWS))
}

const VARIANT_LAWS: &str = "
pub $SNAKE_written_$END : $PARTS$SNAKE_codec.canonical.written $VALUE
    ≡ little_endian 2 $PLACE
    ++ $WRITTEN
$SNAKE_written_$END$GIVEN =
    $LAW
$LEGAL";

/// What bytes call legal.
fn bytes(pen: &Pen, nested: &Nested<'_>) -> Known {
    let snake = nested.names.snake.as_str();
    let law = if nested.is_around() {
        pen.one("layer_legal {}", layer_of(pen, nested).as_str())
    } else {
        pen.one("seen_legal {}_nested", snake)
    };
    Known {
        codec: pen.one("{}_codec", snake),
        within: pen.one("{}_codec", nested.root().snake.as_str()),
        law,
    }
}

/// How a type is seen that is around values of the root, its layer, and the codec of the root.
fn layer_of(pen: &Pen, nested: &Nested<'_>) -> String {
    let (snake, root) = (nested.names.snake.as_str(), nested.root().snake.as_str());
    pen.three("{}_view {}_layer {}_codec", snake, snake, root)
}

/// A term with the codec of the type itself in its hole.
fn itself_at(pen: &Pen, nested: &Nested<'_>, term: &str) -> String {
    let codec = pen.one("{}_codec", nested.root().snake.as_str());
    at(pen, term, codec.as_str())
}

/// The parts of a variant as arguments of a law.
pub(crate) fn binders(pen: &Pen, nested: &Nested<'_>, held: &Held<'_>) -> String {
    let mut text = pen.empty();
    for leaf in &held.leaves {
        let of = at(pen, leaf.part.of.as_str(), nested.root().of.as_str());
        pen.add(
            &mut text,
            pen.two("({} : {})\n    → ", leaf.value.as_str(), of.as_str())
                .as_str(),
        );
    }
    text
}
