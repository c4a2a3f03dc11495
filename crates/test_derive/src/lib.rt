//! Tests of `derive_text` and `derive_nested` over their public surfaces.
#![tactic(auto)]

#[cfg(test)]
mod alias_faults;
#[cfg(test)]
mod attribute_faults;
#[cfg(test)]
mod case_faults;
#[cfg(test)]
mod case_tests;
#[cfg(test)]
mod collection_faults;
#[cfg(test)]
mod cycle_faults;
#[cfg(test)]
mod cycle_forms;
#[cfg(test)]
mod default_faults;
#[cfg(test)]
mod default_forms;
#[cfg(test)]
mod ensured_forms;
#[cfg(test)]
mod fault_tests;
#[cfg(test)]
mod faults;
#[cfg(test)]
mod form_tests;
#[cfg(test)]
mod forms;
#[cfg(test)]
mod generic_forms;
#[cfg(test)]
mod key_faults;
#[cfg(test)]
mod key_forms;
#[cfg(test)]
mod mistakes;
#[cfg(test)]
mod mutation_tests;
#[cfg(test)]
mod named_forms;
#[cfg(test)]
mod nested_default_forms;
#[cfg(test)]
mod nested_faults;
#[cfg(test)]
mod nested_forms;
#[cfg(test)]
mod nested_generic_forms;
#[cfg(test)]
mod nested_shape_forms;
#[cfg(test)]
mod nested_tests;
#[cfg(test)]
mod outcome;
#[cfg(test)]
mod strict_faults;
#[cfg(test)]
mod wide_forms;
