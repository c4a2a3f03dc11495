//! A tuple struct of four parts, one of which is a tuple struct too.

use crate::point::Point;

// nanoserde: bin json ron
/// An entry of a list: its number, what it is, where it is, and whether it is done.
#[derive(PartialEq, Debug, Drop)]
pub struct Entry(pub u64, pub Option<String>, pub Point, pub bool);

mod derived;
