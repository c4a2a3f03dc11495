//! RON as the crate nanoserde reads and writes it: typed values to text and back. The tokens of a
//! text, a reader's state with its helpers and errors, and a writer's state are passed on.
#![tactic(auto)]

mod bools;
mod boxes;
mod error;
pub mod laws;
mod lists;
mod maps;
mod options;
mod ordered_maps;
mod parts;
mod sets;
mod signed;
mod slices;
mod texts;
mod traits;
mod tuples;
mod unsigned;

pub use error::{DeRonErr, DeRonState, DeRonTok, SerRonState};
pub use nano_ron_tokens::end_on_error;
pub use nano_text::rollback_on_error;
pub use traits::{BothRon, DeRon, RonCodec, SerRon};
