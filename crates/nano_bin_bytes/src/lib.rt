//! Bytes: numbers of a fixed width, why bytes are rejected, and which bytes encode which meaning.
//!
//! Its functions read and append bytes at an offset. `nano_bin` uses it to give types their
//! formats, and passes the errors on; the codecs of its types are made of the relations that stand
//! here, and of their laws.
#![tactic(auto)]

mod append;
mod error;
mod numbers;
mod read;
mod widths;

pub use append::{append_bytes, append_bytes_after};
pub use error::{
    DeBinErr, DeBinKind, as_value_error, no_memory, not_utf8, too_short, trailing_bytes,
};
pub use numbers::{append_number, append_run, read_number, read_run};
pub use read::{read_array, read_bytes, read_chunks, read_utf8, rest};
pub use widths::FixedWidth;
