//! User-defined structs and enums in RON, from their schema. A struct is named fields between
//! parentheses, in any order where they are read, in declared order where they are written. An
//! enum is the name of a variant, and directly after it the content if it has one.
#![tactic(auto)]

mod aliased;
mod brackets;
mod choice;
mod choices;
mod contents;
mod defaulted;
mod defaults;
mod empty;
mod fields;
pub mod laws;
mod optional;
mod pairs;
mod part;
mod read;
mod record;
mod required;
mod skipped;
mod tuples;
mod unknown;
mod variant_writer;
mod variants;
mod wide;
mod writer;

pub use aliased::RonField;
pub use choice::{read_choice_ron, write_choice_ron};
pub use choices::{RonChoiceRefs, RonChoices, RonShapes};
pub use contents::{ReadContent, RonContent, WriteContent};
pub use defaulted::RonDefaultOf;
pub use fields::{RonFields, RonRefs, RonShape};
pub use nano_ron::{BothRon, DeRon, DeRonErr, DeRonState, RonCodec, SerRon, SerRonState};
pub use part::Part;
pub use read::read_fields;
pub use record::{read_parts_ron, read_record_ron, read_record_ron_open, write_record_ron};
pub use variant_writer::{write_fields_variant, write_unit_variant, write_variant};
pub use variants::{read_content, read_fields_content, read_variant_name, unknown_variant};
pub use wide::{RonParts, RonPartsRead, RonPartsRefs, read_tuple_ron, write_tuple_ron};
pub use writer::write_fields;

/// What a reader of RON answers.
pub type RonResult<T> = Result<T, DeRonErr>;
