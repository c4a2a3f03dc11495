//! The answers of calls, in one text.

use std::alloc::AllocError;

/// Appends an answer after those that are there.
pub(crate) fn append_answer(answers: &mut String, answer: &str) -> Result<(), AllocError> {
    if !answers.is_empty() {
        answers.push_str(" | ")?;
    }
    answers.push_str(answer)
}
