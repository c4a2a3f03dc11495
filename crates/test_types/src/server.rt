//! A struct of five fields, with maps that have types of their own and a field that may be
//! missing: its schema, and then bytes, JSON and RON.

use crate::limits::Limits;
use crate::tags::Tags;

// nanoserde: bin json ron
/// A server.
#[derive(PartialEq, Debug, Drop)]
pub struct Server {
    /// Where it is.
    pub host: String,
    /// On which port.
    pub port: u16,
    /// What it is for, by kind.
    pub tags: Tags,
    /// How many requests, by user.
    pub limits: Limits,
    /// What else there is to say of it.
    pub note: Option<String>,
}

mod derived;
