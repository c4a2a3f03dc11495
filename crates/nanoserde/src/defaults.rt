//! What a field that is missing, or that is not read, has in its place: numbers and booleans as
//! types, and the fields that are skipped.

pub use nano_schema::{
    DefaultBool, DefaultI8, DefaultI16, DefaultI32, DefaultI64, DefaultU8, DefaultU16, DefaultU32,
    DefaultU64, DefaultUsize, Skipped,
};
