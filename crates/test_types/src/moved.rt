//! Fields that were renamed: what was written under the earlier names is still read.

// nanoserde: bin json ron
/// A server, whose fields had other names.
#[derive(PartialEq, Debug, Drop)]
pub struct Moved {
    /// Where it is.
    // nanoserde: alias = "hostname"
    pub host: String,
    /// Who answers for it.
    // nanoserde: alias = "owner", alias = "admin"
    pub contact: Option<String>,
    /// On which port.
    // nanoserde: default = "8080", alias = "tcp_port"
    pub port: u16,
}

// nanoserde: bin json ron
/// What became of a server.
#[derive(PartialEq, Debug, Drop)]
pub enum Change {
    /// It runs.
    Started,
    /// It has another place.
    Renamed {
        /// Where it was.
        // nanoserde: alias = "old"
        from: String,
        /// Where it is.
        to: String,
    },
}

mod derived;
