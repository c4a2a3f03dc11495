//! User-defined types that contain themselves or each other: an outline as bytes, whose impls are
//! written by hand, and statements with their branches and guides with their stops, whose impls
//! `derive` writes.
#![tactic(auto)]

mod guide;
mod outline;
mod statement;

pub use guide::{Guide, Stop, Way};
pub use outline::Outline;
pub use statement::{Branch, Statement};
