//! What is said of a part of a type that contains itself, as ghost terms. Where a term speaks of
//! values of the type itself or of the part's value, it has a hole, which is a dollar sign.

use crate::cycle::snake_of;
use crate::wrapped::applied;
use derive_pen::Pen;
use derive_syntax::Core;

/// What is said of a part.
#[derive(Drop)]
pub(crate) struct Part {
    /// Its type; the hole is the type itself.
    pub(crate) of: String,
    /// Its type where the values of the type itself are depths.
    pub(crate) deep: String,
    /// Its codec; the hole is that of the type itself.
    pub(crate) codec: String,
    /// Which meanings are legal; the legal ones of the type itself are `P`.
    pub(crate) legal: String,
    /// As bytes its layer around the type itself. A part that holds no values of it has none.
    pub(crate) layer: Option<String>,
    /// What its value means, where the values of the type itself are meanings.
    pub(crate) step: String,
    /// What its value means.
    pub(crate) means: String,
    /// How deep its value is, where the values of the type itself are depths.
    pub(crate) depth: String,
    /// Whether it is an option of values of the type itself: what is said of it is proved where it
    /// has none, and where it has some. The proofs are of what it has.
    pub(crate) is_cased: bool,
    /// That both say the same of what its value means, if it takes a proof.
    pub(crate) means_same: Option<String>,
    /// That its depth is that of the layer, if it takes a proof.
    pub(crate) depth_same: Option<String>,
    /// That what is legal remains so, where what is legal for the type itself and for its
    /// parameters does.
    pub(crate) weaker: String,
    /// That its codec agrees with its values, if it has a parameter of the type.
    pub(crate) agrees: Option<String>,
}

/// The names of what is said of a type.
#[derive(Drop)]
pub(crate) struct Names {
    /// Its name.
    pub(crate) of: String,
    /// The same in snake case, with which the names of its definitions begin.
    pub(crate) snake: String,
}

/// The types of Rust's: the name, and as ghost terms the type, the codec, the meaning, and which
/// meanings are legal.
const PLAIN: &[(&str, &str, &str, &str, &str)] = &[
    ("bool", "Bool", "boolean_codec", "truth $", "LegalTruth"),
    ("u8", "ℕ", "u8_codec", "whole $", "LegalUnsigned 8"),
    ("u16", "ℕ", "u16_codec", "whole $", "LegalUnsigned 16"),
    ("u32", "ℕ", "u32_codec", "whole $", "LegalUnsigned 32"),
    ("u64", "ℕ", "u64_codec", "whole $", "LegalUnsigned 64"),
    (
        "u128",
        "ℕ",
        "unsigned_codec 16",
        "whole $",
        "LegalUnsigned 128",
    ),
    ("usize", "ℕ", "usize_codec", "whole $", "LegalUnsigned 64"),
    ("i8", "ℤ", "i8_codec", "number $", "LegalSigned w8"),
    ("i16", "ℤ", "i16_codec", "number $", "LegalSigned w16"),
    ("i32", "ℤ", "i32_codec", "number $", "LegalSigned w32"),
    ("i64", "ℤ", "i64_codec", "number $", "LegalSigned w64"),
    (
        "i128",
        "ℤ",
        "signed_codec w128 16 bits_fit_128",
        "number $",
        "LegalSigned w128",
    ),
    (
        "String",
        "String Global",
        "string_codec",
        "text (string_bytes $)",
        "LegalText",
    ),
    ("()", "Unit {0}", "unit_codec", "nothing", "LegalUnit"),
];

/// What is said of a part that stands in no other type.
pub(crate) fn core_part(pen: &Pen, names: &Names, core: Core<'_>) -> Part {
    match core {
        Core::Itself => itself(pen, names),
        Core::Around(name) => around(pen, name),
        Core::Plain(name) => plain_part(pen, name),
        Core::Other(name) => user_part(pen, name),
        Core::Parameter(name) => parameter_part(pen, name),
        Core::Container(_) => nothing_part(pen),
    }
}

/// What is said of another user-defined type, by what its impls say.
fn user_part(pen: &Pen, name: &str) -> Part {
    let snake = snake_of(pen, name);
    let codec = pen.one("{}_part", snake.as_str());
    let means = pen.one("{}_value.means $", snake.as_str());
    let legal = pen.one("{}_value.legal", snake.as_str());
    other_part(pen, (name, codec.as_str(), means.as_str(), legal.as_str()))
}

/// What is said of a type parameter, by the codec that it has.
fn parameter_part(pen: &Pen, name: &str) -> Part {
    let mut part = user_part(pen, name);
    let snake = snake_of(pen, name);
    part.agrees = Some(pen.one("{}_agrees", snake.as_str()));
    part.weaker = snake;
    part
}

/// What is said of a type that contains the type itself and stands in it: it is a layer around its
/// values, and its depth is counted already.
fn around(pen: &Pen, name: &str) -> Part {
    let snake = snake_of(pen, name);
    Part {
        of: pen.copy(name),
        deep: pen.copy("ℕ"),
        codec: pen.one("{}_around.codec $", snake.as_str()),
        legal: pen.one("{}_step P", snake.as_str()),
        layer: Some(pen.one("{}_around", snake.as_str())),
        step: pen.copy("$"),
        means: pen.one("{}_means $", snake.as_str()),
        depth: pen.copy("$"),
        is_cased: false,
        means_same: Some(pen.one("{}_means_is $", snake.as_str())),
        depth_same: Some(pen.one("{}_depth_is $", snake.as_str())),
        weaker: pen.empty(),
        agrees: None,
    }
}

/// What is said of the type itself.
fn itself(pen: &Pen, names: &Names) -> Part {
    let snake = names.snake.as_str();
    Part {
        of: pen.copy("$"),
        deep: pen.copy("ℕ"),
        codec: pen.copy("$"),
        legal: pen.copy("P"),
        layer: Some(pen.copy("itself_layer")),
        step: pen.copy("$"),
        means: pen.one("{}_means $", snake),
        depth: pen.copy("suc $"),
        is_cased: false,
        means_same: None,
        depth_same: None,
        weaker: pen.copy("x"),
        agrees: None,
    }
}

/// What is said of a type of Rust's.
pub(crate) fn plain_part(pen: &Pen, name: &str) -> Part {
    for (known, of, codec, means, legal) in PLAIN {
        if *known == name {
            return other_part(pen, (*of, *codec, *means, *legal));
        }
    }
    nothing_part(pen)
}

/// What is said of nothing.
pub(crate) fn nothing_part(pen: &Pen) -> Part {
    other_part(pen, ("Unit {0}", "unit_codec", "nothing", "LegalUnit"))
}

/// What is said of a type that holds no values of the type itself.
pub(crate) fn other_part(pen: &Pen, (of, codec, means, legal): (&str, &str, &str, &str)) -> Part {
    Part {
        of: pen.copy(of),
        deep: pen.copy(of),
        codec: pen.copy(codec),
        legal: pen.copy(legal),
        layer: None,
        step: pen.copy(means),
        means: pen.copy(means),
        depth: pen.copy("0"),
        is_cased: false,
        means_same: None,
        depth_same: None,
        weaker: applied(pen, "remains", legal),
        agrees: None,
    }
}
