//! The binary format of nanoserde: fixed-width little-endian numbers, lengths and counts as eight
//! bytes.
//!
//! A value is written by [`SerBin`] and read by [`DeBin`]; a type that has both is [`BothBin`], and
//! what it writes is read back at any offset, whatever bytes follow. The errors are those of
//! `nano_bin_bytes`, passed on.
#![tactic(auto)]

mod append;
mod bools;
mod boxes;
pub mod laws;
mod lists;
mod maps;
mod options;
mod ordered_maps;
mod read;
mod sets;
mod signed;
mod text_lists;
mod texts;
mod traits;
mod tuples;
mod unsigned;

pub use append::append_part;
pub use nano_bin_bytes::{DeBinErr, DeBinKind};
pub use traits::{BinCodec, BothBin, DeBin, SerBin};
