//! Types that contain themselves, in RON: how such a type is read along a chain of levels, given how
//! many may follow, and how it is written part by part.
#![tactic(auto)]

mod boxes;
mod brackets;
mod choice;
mod choices;
mod contents;
mod defaulted;
mod depth;
mod field_writer;
mod fields;
mod lists;
mod maps;
mod optional;
mod options;
mod other;
mod pairs;
mod part_writer;
mod parts;
mod read;
mod required;
mod traits;
mod variant_writer;

pub use choice::read_choice_ron_within;
pub use choices::RonChoicesWithin;
pub use contents::RonContentWithin;
pub use defaulted::RonDefaultWithin;
pub use depth::{no_levels, too_deep, too_many_levels};
pub use field_writer::{
    append_field, append_field_within, append_optional, append_optional_within, append_required,
    append_required_within,
};
pub use fields::RonFieldsWithin;
pub use nano_levels::{Levels, Other, Within};
pub use nano_ron::{
    BothRon, DeRon, DeRonErr, DeRonState, RonCodec, SerRon, SerRonState, rollback_on_error,
};
pub use part_writer::{
    append_last, append_last_within, append_part, append_part_within, open_variant,
};
pub use parts::{RonPartWithin, RonPartsWithin};
pub use read::read_record_ron_within;
pub use traits::{NestedRon, ReadsRon, WritesRon};
pub use variant_writer::{
    write_pair_within, write_triple_within, write_variant_other, write_variant_within,
};
