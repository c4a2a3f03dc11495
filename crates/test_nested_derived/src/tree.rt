//! A tree: its schema, and then bytes, JSON and RON.

/// A tree.
// nanoserde: bin json ron
#[derive(PartialEq, Debug, Drop)]
pub enum Tree {
    /// A number.
    Leaf(i32),
    /// Trees.
    Node(Vec<Tree>),
}

mod derived;
