//! Tuple structs of more parts than a tuple has: five, and eight with a type parameter.

// nanoserde: bin json ron
/// A segment of a track: its number, its name, its limit, its heights, and whether it is open.
#[derive(PartialEq, Debug, Drop)]
pub struct Segment(pub u8, pub String, pub Option<u16>, pub Vec<i32>, pub bool);

// nanoserde: bin json ron
/// What eight cells hold.
#[derive(PartialEq, Debug, Drop)]
pub struct Cells<T>(
    pub T,
    pub Option<T>,
    pub Vec<T>,
    pub (T, u8),
    pub String,
    pub (),
    pub [i64; 1],
    pub Box<T>,
);

mod derived;
