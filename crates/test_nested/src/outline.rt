//! An outline: its schema, and then bytes.

use std::collections::LinkedList;

/// An outline.
#[derive(PartialEq, Debug, Drop)]
pub struct Outline {
    /// The sections, each after its heading.
    pub sections: Vec<(String, Outline)>,
    /// What is added at the end.
    pub notes: LinkedList<Outline>,
}

mod impls;
