//! Tests of values one after the other in a text, over their public surface.
#![tactic(auto)]

#[cfg(test)]
mod checks;
#[cfg(test)]
mod value_tests;
