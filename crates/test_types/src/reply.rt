//! A generic enum of two parameters: a variant of one part, of two, and of named fields.

// nanoserde: bin json ron
/// What becomes of a request.
#[derive(PartialEq, Debug, Drop)]
pub enum Reply<A, B> {
    /// What was asked for.
    Found(A),
    /// Why it failed, and after how many tries.
    Failed(B, u32),
    /// A part of what was asked for.
    Listed {
        /// The part.
        items: Vec<A>,
        /// Where to go on, unless it is the last part.
        next: Option<B>,
    },
}

mod derived;
