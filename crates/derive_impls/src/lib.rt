//! Writes the impls of user-defined types that do not contain themselves, as text that `rt fmt`
//! leaves as it is; and what any impls are written with: sheets, names, layouts, rows of fields.
#![tactic(auto)]

mod agreement;
mod bounds;
pub mod chains;
mod choices;
mod codec;
mod codecs;
pub mod defaults;
mod ensured;
pub mod fields;
mod flat;
mod forms;
mod ghost_uses;
mod held;
mod key_names;
mod key_terms;
mod keys;
pub mod labels;
pub mod layout;
mod making;
mod means;
pub mod names;
mod parameters;
pub mod records;
pub mod rows;
mod seen;
pub mod sheet;
pub mod taking;
pub mod target;
mod transparent;
pub mod tuples;
pub mod types;
mod uses;
pub mod variants;
mod views;

pub use flat::append_flat;
