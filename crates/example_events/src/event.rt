//! An event of the log: its schema, and JSON.

// nanoserde: json
/// What happened to an account.
#[derive(Debug, Drop)]
pub enum Event {
    /// It was opened.
    Opened {
        /// The account.
        account: String,
    },
    /// Something was paid into it.
    PaidIn {
        /// The account.
        account: String,
        /// How much.
        cents: u64,
    },
    /// Something was paid out of it.
    PaidOut {
        /// The account.
        account: String,
        /// How much.
        cents: u64,
        /// What for, if that is known.
        note: Option<String>,
    },
}

mod derived;
