//! A tree.

// nanoserde: bin json ron
/// A tree.
#[derive(PartialEq, Debug, Drop)]
pub enum Tree<T> {
    /// A value.
    Leaf(T),
    /// Trees.
    Node(Vec<Tree<T>>),
}

mod derived;
