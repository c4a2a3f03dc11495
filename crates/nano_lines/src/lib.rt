//! Lines of JSON: values one after the other in a stream, each written as a line.
//!
//! A line is the JSON of one value without a line feed in it, and then a line feed. Lines of
//! white space alone hold nothing and are passed over, and the last line may lack its line feed.
//! So a stream splits into lines in only one way, and a line that holds no value takes nothing
//! of the others:
//!
//!     {"name":"Ann","age":41}
//!     {"name":"Bob","age":7}
//!
//! [`put`] writes a value of any type that `nano_json` writes after those that were written, and
//! [`Lines`] takes them from a reader, one after the other, in memory that a limit bounds.
//! [`laws`] states that what was put is taken, and in order.
#![tactic(auto)]

mod buffer;
mod error;
pub mod laws;
mod line;
mod lines;
mod writer;

pub use error::Fault;
pub use lines::Lines;
pub use writer::put;
