//! A generic struct of one field, in bytes, in JSON and in RON.

// nanoserde: bin json ron
/// What holds something.
#[derive(PartialEq, Debug, Drop)]
pub struct Holder<T> {
    /// What it holds.
    pub x: T,
}

mod derived;
