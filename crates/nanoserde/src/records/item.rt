//! A struct with a field that may be missing, in bytes, in JSON and in RON.

// nanoserde: bin json ron
/// A number with a note.
#[derive(PartialEq, Debug, Drop)]
pub struct Item {
    /// The number.
    pub value: i32,
    /// The note, if there is one.
    pub note: Option<String>,
}

mod derived;
