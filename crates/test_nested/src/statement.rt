//! Statements and their branches, which contain each other: their schemas, and then bytes, JSON
//! and RON.

/// A statement.
// nanoserde: bin json ron
#[derive(PartialEq, Debug, Drop)]
#[cycle(statement)]
pub enum Statement {
    /// Gives a variable a value.
    Assign(String, i32),
    /// Statements, one after the other.
    Block(Vec<Statement>),
    /// A statement that is chosen.
    If(Box<Branch>),
}

/// A choice of statements.
// nanoserde: bin json ron
#[derive(PartialEq, Debug, Drop)]
#[cycle(statement)]
pub struct Branch {
    /// The statement where the condition holds.
    pub then: Statement,
    /// That where it does not, if there is one.
    pub otherwise: Option<Box<Statement>>,
}

mod derived;
