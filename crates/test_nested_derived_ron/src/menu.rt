//! A menu: its schema, and then bytes, JSON and RON.

use std::collections::BTreeMap;

/// A menu.
// nanoserde: bin json ron
#[derive(PartialEq, Debug, Drop)]
pub struct Menu {
    /// Its title.
    pub title: String,
    /// The menus that its entries open, by the names of the entries.
    pub entries: BTreeMap<String, Menu>,
}

mod derived;
