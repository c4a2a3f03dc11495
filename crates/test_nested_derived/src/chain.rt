//! A chain: its schema, and then bytes, JSON and RON.

/// A number, and what follows it.
// nanoserde: bin json ron
#[derive(PartialEq, Debug, Drop)]
pub struct Chain {
    /// The number.
    pub number: u32,
    /// The rest of the chain, if there is more.
    pub next: Option<Box<Chain>>,
}

mod derived;
