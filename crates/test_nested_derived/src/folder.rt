//! A folder: its schema, and then bytes, JSON and RON.

/// A folder.
// nanoserde: bin json ron
#[derive(PartialEq, Debug, Drop)]
pub struct Folder {
    /// Its name.
    pub name: String,
    /// The folders in it.
    pub folders: Vec<Folder>,
}

mod derived;
