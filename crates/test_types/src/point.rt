//! A tuple struct of three parts: in every format it is their tuple.

// nanoserde: bin json ron
/// A point of a map, by its place and its name.
#[derive(PartialEq, Debug, Drop)]
pub struct Point(pub i32, pub i32, pub String);

mod derived;
