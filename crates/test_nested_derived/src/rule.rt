//! A rule: its schema, and then bytes, JSON and RON, down to five levels.

/// A rule.
// nanoserde: bin json ron, levels = "5"
#[derive(PartialEq, Debug, Drop)]
pub enum Rule {
    /// It holds always.
    Always,
    /// It holds from this number on.
    From(u8),
    /// One rule where another one holds, and perhaps a third one where it does not.
    When {
        /// What is asked first.
        condition: Box<Rule>,
        /// The rule where it holds.
        then: Box<Rule>,
        /// The rule where it does not, if there is one.
        otherwise: Option<Box<Rule>>,
    },
}

mod derived;
