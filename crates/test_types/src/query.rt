//! A struct that is only read: it has its formats, and no writer.

// nanoserde: de_bin de_json
/// What somebody asks for.
#[derive(PartialEq, Debug, Drop)]
pub struct Query {
    /// Words that are looked for.
    pub words: String,
    /// How many answers are wanted at most.
    pub limit: Option<u32>,
}

mod derived;
