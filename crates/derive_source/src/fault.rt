//! What stops the generator, before its line and column are known.

use std::alloc::{AllocError, AllocFailed};

/// What stands where something is at fault.
#[derive(Clone, Copy)]
pub enum Subject {
    /// A token of so many bytes.
    Token(usize),
    /// The end of a line.
    EndOfLine,
    /// The end of what stands above `mod derived;`.
    End,
    /// Nothing that has a name.
    Nothing,
}

/// Why nothing was written.
#[derive(Drop)]
pub enum Fault {
    /// The source is at fault at this byte.
    At {
        /// The byte.
        offset: usize,
        /// What stands there.
        subject: Subject,
        /// What is wrong with it.
        words: &'static str,
    },
    /// An allocation failed.
    Memory,
}

impl Fault {
    /// A place at which something is missing or wrong.
    pub fn place(offset: usize, words: &'static str) -> Fault {
        Fault::At {
            offset,
            subject: Subject::Nothing,
            words,
        }
    }
}

impl From<AllocError> for Fault {
    fn from(_failed: AllocError) -> Self {
        Fault::Memory
    }
}

impl<T: Drop> From<AllocFailed<T>> for Fault {
    fn from(_failed: AllocFailed<T>) -> Self {
        Fault::Memory
    }
}
