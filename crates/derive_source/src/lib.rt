//! A source that ends in `mod derived;`, as a text: what stands above that line, the modules and
//! files that go with it, what is wrong with it, with line and column, and the cases of names.
#![tactic(auto)]

mod case;
mod derived;
mod error;
mod fault;
mod marker;
mod module;
mod place;

pub use case::Case;
pub use derived::{Writer, Written, derive_by};
pub use error::{DeriveError, SourceFault, error_of};
pub use fault::{Fault, Subject};
pub use marker::{MARKER, MODULE_LINE, text_above};
pub use module::{codecs_name, crate_of, derived_path, module_of, path_in_crate};
