//! Types that contain themselves, in JSON: how such a type is read through an environment, which
//! says how many levels may follow, and how it is written part by part.
#![tactic(auto)]

mod boxes;
mod brackets;
mod choice;
mod choices;
mod contents;
mod defaulted;
mod depth;
mod field_writer;
mod fields;
mod lists;
mod maps;
mod optional;
mod options;
mod other;
mod pairs;
mod parts;
mod read;
mod required;
mod traits;
mod variant_writer;

pub use choice::read_choice_json_within;
pub use choices::JsonChoicesWithin;
pub use contents::JsonContentWithin;
pub use defaulted::JsonDefaultWithin;
pub use depth::{no_levels, too_deep, too_many_levels};
pub use field_writer::{append_optional_within, append_required_within};
pub use fields::JsonFieldsWithin;
pub use nano_json::{
    BothJson, DeJson, DeJsonErr, DeJsonState, JsonCodec, SerJson, SerJsonState, rollback_on_error,
};
pub use nano_levels::{Levels, Other, Within};
pub use parts::JsonPartsWithin;
pub use read::read_record_json_within;
pub use traits::{NestedJson, ReadsJson, WritesJson};
pub use variant_writer::{
    write_pair_within, write_triple_within, write_variant_other, write_variant_within,
};
