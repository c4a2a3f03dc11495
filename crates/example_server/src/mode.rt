//! How many requests a server answers, in JSON and RON.

// nanoserde: json ron
/// How many requests a server answers at a time.
#[derive(PartialEq, Debug, Drop)]
pub enum Mode {
    /// None.
    Off,
    /// So many.
    Fixed(u32),
    /// As many as it can.
    Range {
        /// At least.
        least: u32,
        /// At most.
        most: u32,
    },
}

mod derived;
