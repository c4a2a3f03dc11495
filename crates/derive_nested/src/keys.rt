//! What is said of the keys of a map or a set.

use crate::part::plain_part;
use crate::wrapped::{atom, function};
use derive_pen::Pen;

/// What is said of the keys of a map or a set, as ghost terms.
#[derive(Drop)]
pub(crate) struct Keys {
    /// Their type.
    pub(crate) of: String,
    /// Their codec.
    pub(crate) codec: String,
    /// Which meanings are legal.
    pub(crate) legal: String,
    /// What they mean, as a function of them.
    pub(crate) means: String,
    /// How they are ordered.
    pub(crate) order: Order,
}

/// How keys are ordered, as ghost terms.
#[derive(Clone, Copy)]
pub(crate) struct Order {
    /// The order of their meanings.
    pub(crate) meanings: &'static str,
    /// How two of them compare.
    pub(crate) compare: &'static str,
    /// That they compare as their meanings do.
    pub(crate) follows: &'static str,
}

const TEXTS: Order = Order {
    meanings: "texts",
    compare: "string_cmp",
    follows: "(texts_follow (λ x. string_bytes x))",
};

const TRUTHS: Order = Order {
    meanings: "wholes",
    compare: "bool_cmp",
    follows: "truths_follow",
};

const SIGNED: Order = Order {
    meanings: "numbers",
    compare: "int_cmp",
    follows: "signed_follow",
};

const UNSIGNED: Order = Order {
    meanings: "wholes",
    compare: "nat_cmp",
    follows: "unsigned_follow",
};

/// How keys of a type of Rust's are ordered, by its name.
fn order_of(key: &str) -> Order {
    match key {
        "String" => TEXTS,
        "bool" => TRUTHS,
        "i8" | "i16" | "i32" | "i64" => SIGNED,
        _ => UNSIGNED,
    }
}

/// What is said of keys of a type of Rust's, by its name.
pub(crate) fn keys_of(pen: &Pen, key: &str) -> Keys {
    let part = plain_part(pen, key);
    Keys {
        of: atom(pen, part.of.as_str()),
        codec: atom(pen, part.codec.as_str()),
        legal: atom(pen, part.legal.as_str()),
        means: function(pen, part.means.as_str()),
        order: order_of(key),
    }
}
