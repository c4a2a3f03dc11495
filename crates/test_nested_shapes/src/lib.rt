//! User-defined types that contain themselves in further shapes, whose impls, definitions and proofs
//! are written by `derive`: enums that contain each other, as bytes, a variant of three parts, and
//! parts that are arrays, tuples, linked lists, sets and hashed maps.
#![tactic(auto)]

mod node;
mod term;

pub use node::{Node, Trail};
pub use term::{Argument, Term};
