//! A setting: its schema, and then bytes, JSON and RON.

use std::collections::BTreeMap;

/// A setting, or settings by what they are called.
// nanoserde: bin json ron
#[derive(PartialEq, Debug, Drop)]
pub enum Setting {
    /// It is not set.
    Unset,
    /// A text.
    Text(String),
    /// How often each number is there.
    Counts(BTreeMap<i32, u64>),
    /// Settings by their names.
    Table(BTreeMap<String, Setting>),
    /// Settings in lists, by their numbers.
    Lists(BTreeMap<u16, Vec<Setting>>),
}

mod derived;
