//! Writes the impls of user-defined types: reads the structs and enums of a file of Rattle that
//! ends in `mod derived;`, and writes the text of that module: how they are encoded.
#![tactic(auto)]

mod impls;
mod output;

pub use derive_syntax::{
    DeriveError, MARKER, MODULE_LINE, SourceFault, Written, derived_path, module_of, path_in_crate,
};
pub use impls::derive;
