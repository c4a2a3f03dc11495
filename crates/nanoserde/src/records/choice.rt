//! An enum with a variant of each shape: its schema, and then bytes, JSON and RON.

// nanoserde: bin json ron
/// One of three shapes.
#[derive(PartialEq, Debug, Drop)]
pub enum Choice {
    /// Without content.
    A,
    /// A number and a text.
    B(i32, String),
    /// A number and a text by their names.
    C {
        /// The number.
        a: i32,
        /// The text.
        b: String,
    },
}

mod derived;
