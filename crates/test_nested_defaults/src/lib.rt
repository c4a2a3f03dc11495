//! A user-defined type that contains itself and has defaults, whose impls, definitions and proofs are
//! written by `derive`; and the laws of each format, called of such types.
#![tactic(auto)]

mod widget;

pub use widget::Widget;
