//! Types that contain themselves, as bytes: how such a type is read through an environment, which
//! says how many levels may follow, and how it is written part by part.
#![tactic(auto)]

mod append;
mod boxes;
mod choice;
mod choices;
mod fields;
mod lists;
mod maps;
mod options;
mod ordered_maps;
mod record;
mod traits;
mod tuples;

pub use append::{append_part_within, append_variant, append_variant_within};
pub use choice::read_choice_within;
pub use choices::BinChoicesWithin;
pub use fields::BinFieldsWithin;
pub use nano_bin::{BinCodec, BothBin, DeBin, DeBinErr, SerBin};
pub use nano_bin_bytes::no_memory;
pub use nano_levels::{Levels, Other, Within};
pub use record::read_record_within;
pub use traits::{ReadsBin, WritesBin};
