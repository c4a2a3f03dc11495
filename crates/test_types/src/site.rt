//! Fields with another name, with a default or without an encoding, in a struct.

// nanoserde: bin json ron
/// What is served.
#[derive(PartialEq, Debug, Drop)]
pub struct Site {
    /// Where it is.
    pub host: String,
    /// On which port.
    // nanoserde: default = "8080"
    pub port: u16,
    /// What is shown first.
    // nanoserde: rename = "first", default = "index"
    pub page: String,
    /// What it is for.
    // nanoserde: default
    pub tags: std::vec::Vec<std::string::String>,
    /// How often it was asked for something.
    // nanoserde: skip
    pub hits: u64,
    /// Who answers for it.
    // nanoserde: default
    pub owner: Option<String>,
}

mod derived;
