//! Tests of `nanoserde`, of user-defined types, of `test_types` and of the answers of `nano_show`
//! over their public surfaces: what the tables of `conformance_run` cannot say. They are a crate of
//! their own, so that they are proved beside them.
#![tactic(auto)]

#[cfg(test)]
mod alias_tests;
#[cfg(test)]
mod default_tests;
#[cfg(test)]
mod guess_tests;
#[cfg(test)]
mod law_tests;
#[cfg(test)]
mod part_tests;
#[cfg(test)]
mod plain_record_tests;
#[cfg(test)]
mod show_source;
#[cfg(test)]
mod show_tests;
#[cfg(test)]
mod skipped_tests;
#[cfg(test)]
mod type_checks;
