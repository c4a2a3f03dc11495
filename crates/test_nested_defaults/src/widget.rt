//! A part of a window: a struct that contains itself, with defaults.

use std::collections::BTreeMap;

// nanoserde: bin json ron
/// A part of a window, which has others in it.
#[derive(PartialEq, Debug, Drop)]
pub struct Widget {
    /// What it is called.
    pub title: String,
    /// The key that opens it.
    // nanoserde: default = "none"
    pub shortcut: String,
    /// How wide it is.
    // nanoserde: default = "80"
    pub width: u16,
    /// Where it stands.
    // nanoserde: default = "-1"
    pub row: i32,
    /// Whether it can be opened.
    // nanoserde: default = "true"
    pub is_open: bool,
    /// What stands in it.
    // nanoserde: default
    pub entries: Vec<Widget>,
    /// Others, by their names.
    // nanoserde: default
    pub others: BTreeMap<String, Widget>,
}

mod derived;
