//! A comment: its schema, and then JSON and RON.

/// A comment with its answers.
// nanoserde: json ron
#[derive(PartialEq, Debug, Drop)]
pub struct Comment {
    /// Who wrote it.
    pub author: String,
    /// What it says.
    pub text: String,
    /// How many like it.
    pub votes: i32,
    /// Whether it is pinned, where that is known.
    pub pinned: Option<bool>,
    /// What it quotes.
    pub quoted: Option<Box<Comment>>,
    /// The answers.
    pub answers: Vec<Comment>,
}

mod derived;
