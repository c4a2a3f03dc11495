//! The intended differences from the Rust crate, by the names that docs/DIFFERENCES.md gives them.

use conformance_types::{Outcome, place_of};

/// The names, as they stand in docs/DIFFERENCES.md.
const NAMES: &[&str] = &[
    "a text that is cut short",
    "a text that is not UTF-8",
    "counts",
    "i64_range",
    "whole_field",
    "a fault in a tuple",
    "a character between apostrophes",
    "/*/",
    "\"\"",
    "closing triple quotes",
    "a.b",
    "[[a]] on a key of another kind",
];

/// Whether an answer is what the Rust crate did, or differs from it by names that are known. Where
/// there is no word on the Rust crate, it is; where it stopped, or the word is no word, it is not.
pub(crate) fn is_named(rust_crate: &str, names: &str, outcome: &Outcome) -> bool {
    if !names.is_empty() {
        return are_known(names);
    }
    match rust_crate {
        "answered" => outcome.verdict() == "is",
        "rejected" => outcome.is_error(),
        "" => true,
        _ => false,
    }
}

/// Whether each of the names, parted by `; `, is known.
fn are_known(names: &str) -> bool {
    for name in names.split("; ") {
        if place_of(NAMES, name).is_none() {
            return false;
        }
    }
    true
}
