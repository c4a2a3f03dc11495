//! A thing that a player has.

/// A thing that a player has.
// nanoserde: bin json ron
#[derive(PartialEq, Debug, Drop)]
pub struct Item {
    /// What it is called.
    pub name: String,
    /// How many there are, if they are counted.
    pub count: Option<u32>,
}

mod derived;
