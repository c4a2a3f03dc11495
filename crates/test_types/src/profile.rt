//! Settings of which a later version may have more: unknown names are skipped in RON, as in JSON.

use crate::event::Event;

// nanoserde: bin json ron allow_unknown
/// How a device is set up, as a file of settings has it.
#[derive(PartialEq, Debug, Drop)]
pub struct Profile {
    /// What it is called.
    pub name: String,
    /// How loud it is.
    pub level: u8,
    /// What it does at first.
    pub mode: Event,
}

mod derived;
