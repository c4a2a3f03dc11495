//! An enum with one part, three and four: its schema, and then bytes, JSON and RON.

// nanoserde: bin json ron
/// A signal to a crane.
#[derive(PartialEq, Debug, Drop)]
pub enum Signal {
    /// It waits for so many milliseconds.
    Wait(u64),
    /// It moves to a place.
    Move(u16, u16, u16),
    /// It takes a colour, and lights up or not.
    Light(u8, u8, u8, bool),
}

mod derived;
