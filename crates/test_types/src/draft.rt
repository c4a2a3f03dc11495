//! Fields that are neither written nor read, and are made as defaults that take memory.

use std::collections::BTreeMap;

// nanoserde: bin json ron
/// A text that is being written.
#[derive(PartialEq, Debug, Drop)]
pub struct Draft {
    /// What it is about.
    pub title: String,
    /// What was looked up for it.
    // nanoserde: skip
    pub found: Vec<String>,
    /// What becomes of it.
    // nanoserde: skip, default = "open"
    pub state: String,
    /// Its words, by their numbers.
    pub words: Vec<u32>,
    /// Where each word stands.
    // nanoserde: skip
    pub places: BTreeMap<String, u32>,
    /// How often it was opened.
    // nanoserde: skip
    pub opened: u32,
}

// nanoserde: bin json ron
/// What is done to a draft.
#[derive(PartialEq, Debug, Drop)]
pub enum Edit {
    /// Nothing more.
    Close,
    /// Words are added.
    Add {
        /// The words.
        words: Vec<u32>,
        /// The words that were seen.
        // nanoserde: skip
        seen: Vec<u32>,
    },
}

mod derived;
