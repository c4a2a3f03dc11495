//! Messages one after the other in a stream of bytes, each in a frame.
//!
//! A frame is the code of the message's code as a list of bytes: a count of eight bytes, the
//! lowest first, and then that many bytes, which are the message's code. So the end of a
//! message is known before it is read, whatever its type, and a stream splits into frames in
//! only one way. The number 258, as a `u16`, stands in a stream as
//!
//!     02 00 00 00 00 00 00 00   02 01
//!
//! [`put`] writes a message of any type that `nano_bin` writes after those that were written,
//! and [`Messages`] takes them from a reader, one after the other, in chunks of any size.
//! [`laws`] states that what was put is taken, and in order.
#![tactic(auto)]

mod error;
mod frames;
pub mod laws;
mod writer;

pub use error::Fault;
pub use frames::Messages;
pub use writer::put;
