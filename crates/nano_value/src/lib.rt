//! What the values of a program mean, and which of them `==` distinguishes.
//!
//! The formats of this repository deal with meanings alone: a number, a text, nothing, or two
//! meanings. Two values are the same if they mean the same, whatever their capacity or the
//! order in which they are walked.
#![tactic(auto)]

mod bools;
mod boxes;
mod by_words;
mod collect;
mod exact_eq;
pub mod laws;
mod lists;
mod maps;
mod options;
mod ordered;
mod ordered_maps;
mod ordered_sets;
mod ranks;
mod sets;
mod signed;
mod texts;
mod tie;
mod tuples;
mod unsigned;
mod value;
mod words;

pub use collect::{Collect, CollectEntries};
pub use exact_eq::ExactEq;
pub use ordered::{entries_by_rank, entries_in_order, items_in_order};
pub use value::{Key, OrderedKey, Value};
