//! User-defined structs and enums in JSON, from their schema. A struct is named fields between
//! braces, in any order where they are read, in declared order where they are written.
//! An enum is the name of a variant alone, or between braces a name with its content.
#![tactic(auto)]

mod aliased;
mod brackets;
mod choice;
mod choices;
mod contents;
mod defaulted;
mod defaults;
mod empty;
mod fields;
pub mod laws;
mod names;
mod optional;
mod pairs;
mod part;
mod plain;
mod read;
mod record;
mod required;
mod skipped;
mod tuples;
mod unknown;
mod variant_writer;
mod variants;
mod wide;
mod writer;

pub use aliased::JsonField;
pub use choice::{read_choice_json, write_choice_json};
pub use choices::{JsonChoiceRefs, JsonChoices, JsonShapes};
pub use contents::{JsonContent, ReadContent, WriteContent};
pub use defaulted::JsonDefaultOf;
pub use fields::{JsonFields, JsonRefs, JsonShape};
pub use nano_json::{BothJson, DeJson, DeJsonErr, DeJsonState, JsonCodec, SerJson, SerJsonState};
pub use nano_text::Place;
pub use part::Part;
pub use plain::take_fields;
pub use read::read_fields;
pub use record::{
    read_parts_json, read_record_json, read_record_json_strict, take_record_json,
    take_record_json_strict, write_record_json,
};
pub use variant_writer::{write_fields_variant, write_unit_variant, write_variant};
pub use variants::{
    VariantName, read_content, read_fields_content, read_variant_name, unknown_variant,
};
pub use wide::{JsonParts, JsonPartsRead, JsonPartsRefs, read_tuple_json, write_tuple_json};
pub use writer::write_fields;

/// What a reader of JSON answers.
pub type JsonResult<T> = Result<T, DeJsonErr>;
