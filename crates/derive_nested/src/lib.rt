//! Writes the definitions and the proofs of user-defined types that contain themselves: what a
//! value of such a type means, how deep it is and how it is encoded in each format, and the answers
//! to what is to be proved of its impls.
#![tactic(auto)]

mod answers;
mod around;
mod bin_codec;
mod bodies;
mod brought;
mod cases;
mod cited;
mod codec_laws;
mod coded;
mod containers;
mod cycle;
mod definitions;
mod failed_steps;
mod files;
mod formats;
mod generic;
mod generic_agreement;
mod generic_answers;
mod generic_calls;
mod generic_goals;
mod generic_heads;
mod generic_readers;
mod held;
mod imports;
mod json_answers;
mod json_rows;
mod keys;
mod known_answers;
mod known_struct;
mod legal_laws;
mod maps;
mod missing;
mod nested;
mod others;
mod parameters;
mod part;
mod ron_answers;
mod ron_cited;
mod ron_contents;
mod ron_rows;
mod row;
mod text_answers;
mod text_cited;
mod text_codec;
mod text_fields;
mod text_laws;
mod text_layers;
mod weaker;
mod words;
mod wrapped;

pub use derive_syntax::{DeriveError, SourceFault};
pub use files::{Folder, NestedFile, nested_files};
