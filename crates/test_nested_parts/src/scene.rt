//! A scene, which has a part of another user-defined type.

use crate::mode::Mode;

/// A scene with those in it.
// nanoserde: bin json ron
#[derive(PartialEq, Debug, Drop)]
pub struct Scene {
    /// How hard it is.
    pub mode: Mode,
    /// The scenes in it.
    pub scenes: Vec<Scene>,
}

mod derived;
