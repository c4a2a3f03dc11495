//! An expression: its schema, and then bytes, JSON and RON.

/// An expression.
// nanoserde: bin json ron
#[derive(PartialEq, Debug, Drop)]
pub enum Expression {
    /// A number.
    Number(i64),
    /// The opposite of an expression.
    Negated(Box<Expression>),
    /// The sum of two expressions.
    Sum(Box<Expression>, Box<Expression>),
}

mod derived;
