//! The structs, enums and attributes of a file of Rattle that ends in `mod derived;`, the module of
//! the impls that are written, as far as the generator of impls reads them. What is asked of the
//! file as a text is passed on from `derive_source`.
#![tactic(auto)]

mod check;
mod comment;
mod containers;
mod cycle;
mod nested;
mod parse;
mod places;
mod scan;
mod state;
mod syntax;
mod template;
mod token;
mod types;
mod used;

pub use check::{Missing, check_source, field_name, missing_value, stands_in_row, variant_name};
pub use containers::Container;
pub use cycle::Cycle;
pub use derive_source::{
    Case, DeriveError, Fault, MARKER, MODULE_LINE, SourceFault, Subject, Writer, Written,
    codecs_name, crate_of, derive_by, derived_path, error_of, module_of, path_in_crate, text_above,
};
pub use nested::{Core, Holder, NestedPart, nested_part};
pub use parse::source_of;
pub use scan::tokens_of;
pub use syntax::{
    Attributes, Bound, Content, Definition, Directions, Field, Shape, Source, Type, Variant,
};
pub use template::Holes;
pub use token::{Token, TokenKind};
pub use types::{listed, tuple_parts};
