//! A struct whose maps and set have user-defined types as keys. Each map and the set has a type of
//! its own, so that the check of the struct is short.

use crate::keys::{Role, Seat, UserId};
use std::collections::{BTreeMap, BTreeSet, HashMap};

// nanoserde: bin json ron
/// How often users came.
#[derive(PartialEq, Debug, Drop)]
pub struct Visits(pub BTreeMap<UserId, u32>);

// nanoserde: bin json ron
/// What is said to those of each role.
#[derive(PartialEq, Debug, Drop)]
pub struct Greetings(pub HashMap<Role, String>);

// nanoserde: bin json ron
/// Which seats are taken.
#[derive(PartialEq, Debug, Drop)]
pub struct Seats(pub BTreeSet<Seat>);

// nanoserde: bin json ron
/// A hall.
#[derive(PartialEq, Debug, Drop)]
pub struct Hall {
    /// How often users came.
    pub visits: Visits,
    /// What is said to those of each role.
    pub greetings: Greetings,
    /// Which seats are taken.
    pub taken: Seats,
}

mod derived;
