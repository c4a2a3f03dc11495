//! A generic struct of two parameters, with attributes.

// nanoserde: bin json ron
/// What two kinds of things make together.
#[derive(PartialEq, Debug, Drop)]
pub struct Tagged<A, B> {
    /// What it is.
    pub first: A,
    /// What else it is.
    // nanoserde: rename = "other"
    pub second: Option<B>,
    /// More of it.
    pub more: Vec<A>,
    /// How often it was asked for.
    // nanoserde: skip
    pub hits: u64,
    /// How often it counts.
    // nanoserde: default = "1"
    pub times: u32,
}

mod derived;
