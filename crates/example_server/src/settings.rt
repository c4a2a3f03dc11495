//! The settings of a server, in JSON and RON.

use crate::mode::Mode;

// nanoserde: json ron
/// The settings of a server.
#[derive(PartialEq, Debug, Drop)]
pub struct Settings {
    /// Its name.
    pub name: String,
    /// The port on which it listens.
    pub port: u16,
    /// How many threads it has.
    // nanoserde: default = "4"
    pub workers: u16,
    /// Whether it prints each request.
    // nanoserde: default
    pub verbose: bool,
    /// What it is for.
    // nanoserde: default
    pub tags: Vec<String>,
    /// Who answers for it, if that is known.
    pub owner: Option<String>,
    /// How many requests it answers at a time.
    pub mode: Mode,
}

mod derived;
