//! How hard a scene is.

/// How hard a scene is.
// nanoserde: bin json ron
#[derive(PartialEq, Debug, Drop)]
pub enum Mode {
    /// Easy.
    Easy,
    /// Hard, with so many foes.
    Hard(u8),
}

mod derived;
