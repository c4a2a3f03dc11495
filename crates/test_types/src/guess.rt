//! An enum with a type parameter in most of its variants, as bytes.

/// What is known of a thing.
// nanoserde: bin
#[derive(PartialEq, Debug, Drop)]
pub enum Guess<T> {
    /// Nothing.
    Nothing,
    /// What it is.
    Is(T),
    /// What it may be.
    OneOf(Vec<T>),
    /// What it is, and how sure that is.
    Likely(T, u8),
    /// What it is between.
    Between {
        /// The least.
        least: T,
        /// The most, if there is one.
        most: Option<T>,
    },
    /// What it was, if that is known.
    Was(Option<T>),
    /// What it is at least.
    AtLeast(Box<T>),
    /// Two that it is not, and how sure that is.
    Neither(u8, T, T),
}

mod derived;
