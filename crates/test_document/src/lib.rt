//! Tests of documents of JSON over their public surface.
#![tactic(auto)]

#[cfg(test)]
mod access_tests;
#[cfg(test)]
mod bin_tests;
#[cfg(test)]
mod checks;
#[cfg(test)]
mod convert_tests;
#[cfg(test)]
mod decimal_tests;
#[cfg(test)]
mod document_tests;
#[cfg(test)]
mod indented_tests;
#[cfg(test)]
mod level_tests;
#[cfg(test)]
mod type_tests;
