//! Fields whose defaults are a number below zero and a boolean.

// nanoserde: bin json ron
/// A clock.
#[derive(PartialEq, Debug, Drop)]
pub struct Clock {
    /// How far it is off.
    // nanoserde: default = "-5"
    pub offset: i32,
    /// Whether it runs.
    // nanoserde: default = "true"
    pub running: bool,
}

mod derived;
