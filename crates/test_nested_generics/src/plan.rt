//! A plan.

// nanoserde: bin json ron
/// A plan.
#[derive(PartialEq, Debug, Drop)]
pub enum Plan<T> {
    /// Nothing.
    Nothing,
    /// A value.
    One(T),
    /// Values.
    Many(Vec<T>),
    /// Two parts.
    Both(Box<Plan<T>>, Option<T>),
    /// Named fields.
    Step {
        /// A value.
        item: T,
        /// Plans.
        next: Vec<Plan<T>>,
    },
}

mod derived;
