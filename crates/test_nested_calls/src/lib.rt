//! Tests of types that contain themselves or each other, over their public surface: what the tables
//! of `conformance_run` cannot say. They are a crate of their own, so that the types are proved
//! once and not once more with their tests.
#![tactic(auto)]

#[cfg(test)]
mod bin_checks;
#[cfg(test)]
mod bin_part_tests;
#[cfg(test)]
mod checks;
#[cfg(test)]
mod generic_tests;
#[cfg(test)]
mod guide_tests;
#[cfg(test)]
mod json_checks;
#[cfg(test)]
mod json_part_tests;
#[cfg(test)]
mod law_tests;
#[cfg(test)]
mod menu_tests;
#[cfg(test)]
mod ron_checks;
#[cfg(test)]
mod ron_part_tests;
#[cfg(test)]
mod ron_row_tests;
#[cfg(test)]
mod scene_tests;
#[cfg(test)]
mod statement_bin_tests;
#[cfg(test)]
mod statement_json_tests;
#[cfg(test)]
mod statement_ron_tests;
#[cfg(test)]
mod term_tests;
#[cfg(test)]
mod tree_bin_tests;
#[cfg(test)]
mod tree_json_tests;
#[cfg(test)]
mod tree_ron_tests;
#[cfg(test)]
mod widget_tests;
