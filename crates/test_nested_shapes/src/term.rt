//! Terms and their arguments, which are enums that contain each other.

/// A term.
// nanoserde: bin json ron
#[derive(PartialEq, Debug, Drop)]
#[cycle(term)]
pub enum Term {
    /// A number.
    Number(i64),
    /// What is called, and what it is given.
    Call(String, Vec<Argument>),
    /// A condition, what counts where it holds, and what counts where it does not.
    If(Box<Term>, Box<Term>, Box<Term>),
    /// A term that is evaluated so many times, and whether all values are collected.
    Repeat(u32, bool, Box<Term>),
}

/// What a call is given.
// nanoserde: bin json ron
#[derive(PartialEq, Debug, Drop)]
#[cycle(term)]
pub enum Argument {
    /// A term at its place.
    Plain(Term),
    /// A term by a name, which may be missing.
    Named {
        /// The name.
        name: String,
        /// The term.
        value: Option<Box<Term>>,
    },
    /// The arguments of the caller.
    Rest,
}

mod derived;
