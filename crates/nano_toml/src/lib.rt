//! Reads TOML: a small dialect, whose values are texts, booleans, whole numbers, decimals,
//! dates and arrays of these, and tables in arrays.
#![tactic(auto)]

mod arrays;
pub mod error;
mod fault;
pub mod laws;
mod named;
mod numbers;
mod parser;
mod place;
mod runs;
mod same;
mod state;
mod statements;
mod strings;
mod table;
mod token;
pub mod value;
mod words;

pub use error::TomlErr;
pub use parser::TomlParser;
pub use token::TomlTok;
pub use value::Toml;
