//! Texts of either form, JSON or RON, as the end of a file's name says: values read from the whole
//! of one and written, and what is wrong with a text, one of TOML too, shown where it stands.
#![tactic(auto)]

mod excerpt;
mod fault;
mod form;
mod rejection;

pub use fault::TextFault;
pub use form::Form;
pub use rejection::Rejection;
