//! What JSON and RON share: the place in a text, number lexemes and string lexemes; and where
//! they write, the digits of integers, characters with escapes, and truncating a text after a
//! failed write.
//!
//! A text ends before its first NUL. A [`Place`] has taken one character, its current one, and
//! a `Chars` holds those that follow: together they are the text that is still to be read.
#![tactic(auto)]

mod body;
mod capacity;
mod digits;
mod lanes;
pub mod laws;
mod number;
mod place;
mod rollback;
mod run;
mod space;
mod string;
mod triples;
mod whole;
mod written;

pub use body::{plain_string, plain_string_before};
pub use capacity::bytes_left;
pub use digits::{append_signed, append_unsigned};
pub use number::{Fault, Number, read_number, take_negative, take_unsigned};
pub use place::Place;
pub use rollback::rollback_on_error;
pub use space::is_space;
pub use string::read_string;
pub use written::{Escaping, append_characters};
