//! A generic struct and a generic enum with bounds, whose fields are types in one another.

use std::collections::LinkedList;

// nanoserde: bin json ron
/// Things of a group, and others with their ranks.
#[derive(PartialEq, Debug, Drop)]
pub struct Ranked<T: Clone, U>
where
    U: Ord,
{
    /// The things, as far as they are known.
    pub things: Vec<Option<Box<T>>>,
    /// The others, each with its rank.
    pub others: LinkedList<(U, Box<T>)>,
    /// Where the group is.
    pub place: super::point::Point,
}

// nanoserde: bin json ron
/// What is asked for.
#[derive(PartialEq, Debug, Drop)]
pub enum Wanted<T: Clone> {
    /// One thing.
    One(Box<T>),
    /// Those between two, from a place on.
    Between(crate::point::Point, Vec<(T, u8, T)>),
    /// Those of a group, as far as they are known.
    Group {
        /// The things.
        things: Vec<Option<Box<T>>>,
        /// How many are wanted.
        count: u32,
    },
}

mod derived;
