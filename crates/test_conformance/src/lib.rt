//! Tests of what the questions of `conformance` stand on, and no line of a table can make fail:
//! which error of bytes is too short and leaves the offset, and which type has the same entries in
//! the other order.
#![tactic(auto)]

#[cfg(test)]
mod question_tests;
