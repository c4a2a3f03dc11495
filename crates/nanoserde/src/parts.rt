//! Tuple structs of more than four parts: what reads and writes a row of parts in JSON and in RON.

pub use nano_json_schema::{
    JsonParts, JsonPartsRead, JsonPartsRefs, read_tuple_json, write_tuple_json,
};
pub use nano_ron_schema::{RonParts, RonPartsRead, RonPartsRefs, read_tuple_ron, write_tuple_ron};
