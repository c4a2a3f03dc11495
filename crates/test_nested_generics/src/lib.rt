//! User-defined types that contain themselves and have type parameters, whose impls, definitions and
//! proofs are written by `derive`.
#![tactic(auto)]

mod plan;
mod shelf;
mod tree;

pub use plan::Plan;
pub use shelf::Shelf;
pub use tree::Tree;
