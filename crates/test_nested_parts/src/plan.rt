//! A plan, which contains itself and has parts that contain themselves.

use crate::scene::Scene;

/// What is to come.
// nanoserde: bin json ron
#[derive(PartialEq, Debug, Drop)]
pub enum Plan {
    /// Nothing.
    End,
    /// A scene, and then the rest.
    Go(Scene, Box<Plan>),
    /// One of several plans.
    Choose {
        /// The scene in which it is chosen, if it is one.
        at: Option<Scene>,
        /// The plans.
        plans: Vec<Plan>,
    },
}

mod derived;
