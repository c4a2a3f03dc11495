//! An enum with a variant of each shape: its schema, and then bytes, JSON and RON.

// nanoserde: bin json ron
/// What a device does.
#[derive(PartialEq, Debug, Drop)]
pub enum Event {
    /// It stops.
    Stop,
    /// It moves by so many steps, under a name.
    Move(u32, String),
    /// It says something.
    Say {
        /// What.
        text: String,
        /// How often.
        times: u32,
    },
}

mod derived;
