//! User-defined types that contain themselves, whose impls, definitions and proofs are written by
//! `derive`.
#![tactic(auto)]

mod chain;
mod expression;
mod folder;
mod rule;
mod tree;

pub use chain::Chain;
pub use expression::Expression;
pub use folder::Folder;
pub use rule::Rule;
pub use tree::Tree;
