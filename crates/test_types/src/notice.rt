//! Variants with another name, and fields of one with a default or without an encoding.

// nanoserde: bin json ron
/// What happens.
#[derive(PartialEq, Debug, Drop)]
pub enum Notice {
    /// Nothing more.
    // nanoserde: rename = "gone"
    Stop,
    /// It moves by so many steps, to a name.
    Move(i32, String),
    /// Something is said.
    // nanoserde: rename = "said"
    Say {
        /// What.
        text: String,
        /// How often.
        // nanoserde: default = "1"
        times: u32,
        /// When it was heard.
        // nanoserde: skip, default = "7"
        heard: u64,
    },
}

mod derived;
