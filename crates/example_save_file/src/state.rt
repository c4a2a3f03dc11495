//! What a game remembers: its schema, JSON and RON.

use std::collections::HashMap;

// nanoserde: json ron
/// What a game remembers.
#[derive(Debug, Drop)]
pub struct State {
    /// How much there is to spend.
    pub coins: u32,
    /// The best time of each level, by name.
    pub times: HashMap<String, u64>,
    /// Who plays, if that is known.
    pub player: Option<String>,
    /// Whether it has changed since it was saved, which no file says.
    // nanoserde: skip
    pub has_changed: bool,
}

mod derived;
