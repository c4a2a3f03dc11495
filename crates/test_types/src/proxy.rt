//! Settings of which a mistyped name is an error.

// nanoserde: bin json ron deny_unknown
/// A proxy, as a file of settings has it.
#[derive(PartialEq, Debug, Drop)]
pub struct Proxy {
    /// Where it is.
    // nanoserde: alias = "hostname"
    pub host: String,
    /// On which port, if on another than the usual one.
    pub port: Option<u16>,
}

mod derived;
