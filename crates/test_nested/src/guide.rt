//! A guide with its stops and the ways between them, which contain each other: their schemas, and
//! then JSON and RON.

use std::collections::BTreeMap;

/// A guide to places.
// nanoserde: json ron levels = "64"
#[derive(PartialEq, Debug, Drop)]
#[cycle(guide)]
pub struct Guide {
    /// Its name.
    pub name: String,
    /// Where it leads.
    pub stops: Vec<Stop>,
    /// The one to go on with, if there is one.
    pub next: Option<Box<Guide>>,
}

/// A place in a guide.
// nanoserde: json ron
#[derive(PartialEq, Debug, Drop)]
#[cycle(guide)]
pub struct Stop {
    /// What can be taken from here, by where it leads.
    pub ways: BTreeMap<String, Way>,
    /// The best of them, where that is known.
    pub best: Option<Way>,
}

/// A way to the places of another guide.
// nanoserde: json ron
#[derive(PartialEq, Debug, Drop)]
#[cycle(guide)]
pub struct Way {
    /// How long it takes.
    pub minutes: u16,
    /// The guide.
    pub guide: Box<Guide>,
}

mod derived;
