//! A newtype and a tuple struct whose parameters have bounds, and stand deep in their parts.

// nanoserde: bin json ron
/// The best things of each group, as far as they are known, with their ranks.
#[derive(PartialEq, Debug, Drop)]
pub struct Best<T: Clone>(pub Vec<Option<Box<(T, u8)>>>);

// nanoserde: bin json ron
/// Things with their ranks, and the groups after one.
#[derive(PartialEq, Debug, Drop)]
pub struct Ranks<T, U>(pub Vec<(T, u8)>, pub Option<(U, Vec<Vec<T>>)>)
where
    U: Ord;

mod derived;
