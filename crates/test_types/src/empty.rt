//! Structs, and variants, of which nothing is read or written.

// nanoserde: bin json ron
/// That something is so.
#[derive(PartialEq, Debug, Drop)]
pub struct Marker;

// nanoserde: bin json ron
/// What has no fields yet.
#[derive(PartialEq, Debug, Drop)]
pub struct Empty {}

// nanoserde: bin json ron
/// What a program alone counts.
#[derive(PartialEq, Debug, Drop)]
pub struct Count {
    /// How often something was asked for.
    // nanoserde: skip, default = "1"
    pub hits: u64,
    /// How often it was there.
    // nanoserde: skip
    pub found: u64,
}

// nanoserde: bin json ron
/// What comes next.
#[derive(PartialEq, Debug, Drop)]
pub enum Step {
    /// Nothing, for now.
    Rest {},
    /// So many steps.
    Walk(u16),
    /// The end.
    Stop {
        /// After how many steps.
        // nanoserde: skip
        after: u64,
    },
}

// nanoserde: bin json ron
/// Where someone went.
#[derive(PartialEq, Debug, Drop)]
pub struct Trip {
    /// That it ended where it was meant to.
    pub there: Marker,
    /// That it was the first one, if it was.
    pub new: Option<Empty>,
    /// How it went.
    pub steps: Vec<Step>,
}

mod derived;
