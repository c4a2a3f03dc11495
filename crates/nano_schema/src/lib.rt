//! User-defined structs and enums described once by a schema, for every format: the names and
//! types of the fields, the variants with their content, how a value is split into them, and
//! how it is made from them.
//!
//! A format reads and writes what the schema describes; the type's own impls are one term and
//! one call each.
#![tactic(auto)]

mod choice;
mod choices;
mod contents;
mod default_numbers;
mod defaults;
mod fields;
mod given;
mod labels;
mod record;

pub use choice::{EnumSchema, VariantRefs, known_variant};
pub use choices::{BorrowedChoices, Choices, Either, Variant};
pub use contents::{Newtype, Struct, Tuple, Unit};
pub use defaults::{DefaultOf, TypeDefault};
pub use fields::{Aliased, Borrowed, Defaulted, Optional, Required, Shape, Skipped};
pub use given::{
    DefaultBool, DefaultI8, DefaultI16, DefaultI32, DefaultI64, DefaultU8, DefaultU16, DefaultU32,
    DefaultU64, DefaultUsize,
};
pub use labels::Label;
pub use nano_value::{Key, OrderedKey, Value};
pub use record::{FieldRefs, StructSchema, known_record};
