//! User-defined structs and enums as bytes, from their schema. The fields of a struct stand one
//! after the other, in the order in which they are declared; a field that may be missing is an
//! `Option`. An enum is a tag of two bytes, which is the place of its variant, and the content
//! after it.
#![tactic(auto)]

mod choice;
mod choices;
mod contents;
mod fields;
mod record;
mod skipped;

pub use choice::{read_choice_bin, write_choice_bin};
pub use choices::{BinChoiceRefs, BinChoices, BinShapes};
pub use fields::{BinFields, BinRefs, BinShape};
pub use nano_bin::{BinCodec, BothBin, DeBin, DeBinErr, SerBin};
pub use record::{read_record_bin, write_record_bin};
