//! What the values of a program mean, whatever their type and format: a number, a text, nothing, or
//! two meanings; which meanings are legal, which are those of maps and sets, and their order.
//!
//! Nearly all of it is definitions, which the contracts of all formats cite, and what is proved of
//! them. The types stand in `nano_value`.
#![tactic(auto)]

pub mod laws;
