//! A node of a scene, and a trail through scenes, whose parts are of many types.

use std::collections::{BTreeSet, HashMap, HashSet, LinkedList};

/// A node.
// nanoserde: bin json ron
#[derive(PartialEq, Debug, Drop)]
pub struct Node {
    /// What it is called.
    pub name: String,
    /// Where it stands.
    pub at: [i32; 3],
    /// Its width and its height.
    pub size: (u32, u32),
    /// What is said of it.
    pub tags: BTreeSet<String>,
    /// How much of each effect it has.
    pub effects: HashMap<String, u32>,
    /// The nodes in it.
    pub children: Vec<Node>,
}

/// A trail.
// nanoserde: bin json ron
#[derive(PartialEq, Debug, Drop)]
pub enum Trail {
    /// It ends.
    End,
    /// Places by their names with the time that each takes, the groups that may go there, and the
    /// rest.
    Through(LinkedList<(String, u8)>, HashSet<u16>, Box<Trail>),
}

mod derived;
