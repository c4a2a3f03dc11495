//! Camps and routes, with another type of the same file among their parts.

/// What the sky is like.
// nanoserde: bin json ron
#[derive(PartialEq, Debug, Drop)]
pub enum Weather {
    /// Dry.
    Dry,
    /// Rain, so much.
    Rain(u8),
}

/// A camp with those around it.
// nanoserde: bin json ron
#[derive(PartialEq, Debug, Drop)]
pub struct Camp {
    /// The weather there.
    pub weather: Weather,
    /// The camps around it.
    pub camps: Vec<Camp>,
}

/// A way from camp to camp.
// nanoserde: bin json ron
#[derive(PartialEq, Debug, Drop)]
pub enum Route {
    /// It ends here.
    End,
    /// A step, and the rest.
    Step {
        /// The weather on the way.
        weather: Weather,
        /// The rest.
        rest: Box<Route>,
    },
}

mod derived;
