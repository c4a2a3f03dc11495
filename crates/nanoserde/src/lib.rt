//! Typed values to bytes, JSON and RON and back, and a small TOML reader: the formats of this
//! repository in one crate.
//!
//! The traits, errors and states of each format are re-exported under their own names, and the
//! laws of each as a module; so is the schema of user-defined types. What joins the formats is
//! here: the normal form of an input, the bytes of a value that is in a text, and user-defined
//! types that have all three formats.
#![tactic(auto)]

mod convert;
pub mod defaults;
pub mod laws;
mod normal;
pub mod open;
pub mod parts;
pub mod records;
mod written;

pub use convert::{json_to_bin, ron_to_bin};
pub use nano_bin::{
    BinCodec, BothBin, DeBin, DeBinErr, DeBinKind, SerBin, append_part, laws as bin_laws,
};
pub use nano_bin_schema::{
    BinFields, BinRefs, BinShape, BinShapes, read_choice_bin, read_record_bin, write_choice_bin,
    write_record_bin,
};
pub use nano_json::{
    BothJson, DeJson, DeJsonErr, DeJsonState, DeJsonTok, JsonCodec, SerJson, SerJsonState,
    laws as json_laws,
};
pub use nano_json_schema::{
    JsonDefaultOf, JsonFields, JsonRefs, JsonResult, JsonShape, JsonShapes, Place,
    read_choice_json, read_parts_json, read_record_json, read_record_json_strict, take_record_json,
    take_record_json_strict, write_choice_json, write_record_json,
};
pub use nano_ron::{
    BothRon, DeRon, DeRonErr, DeRonState, DeRonTok, RonCodec, SerRon, SerRonState, laws as ron_laws,
};
pub use nano_ron_schema::{
    RonDefaultOf, RonFields, RonRefs, RonResult, RonShape, RonShapes, read_choice_ron,
    read_parts_ron, read_record_ron, write_choice_ron, write_record_ron,
};
pub use nano_schema::{
    Borrowed, BorrowedChoices, Choices, DefaultOf, Defaulted, Either, EnumSchema, FieldRefs, Label,
    Newtype, Optional, Required, Shape, Struct, StructSchema, Tuple, TypeDefault, Unit, Variant,
    VariantRefs, known_record, known_variant,
};
pub use nano_toml::{Toml, TomlErr, TomlParser, TomlTok, laws as toml_laws};
pub use nano_value::{
    ExactEq, Key, OrderedKey, Value, entries_by_rank, entries_in_order, items_in_order,
    laws as value_laws,
};
pub use normal::{normal_bin, normal_json, normal_ron};
