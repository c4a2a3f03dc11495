//! A quest, which has parts of user-defined types of two files: as they are, and within a list, an
//! option and a map.

use crate::item::Item;
use crate::mode::Mode;
use std::collections::BTreeMap;

/// What a player is to do.
// nanoserde: bin json ron
#[derive(PartialEq, Debug, Drop)]
pub enum Quest {
    /// To win a game that is so hard.
    Win(Mode),
    /// To do something with a thing.
    Bring(Item, Box<Quest>),
    /// To do several things.
    All {
        /// What is to be done.
        quests: Vec<Quest>,
        /// How hard it was the times before.
        modes: Vec<Mode>,
        /// How hard it is, if that is given.
        mode: Option<Mode>,
    },
    /// To have these things.
    Find(BTreeMap<String, Item>),
}

mod derived;
