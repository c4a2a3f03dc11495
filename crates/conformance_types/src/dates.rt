//! The date of a key in a TOML text.

use crate::outcome::Outcome;
use nanoserde::{Toml, TomlParser};
use std::alloc::{AllocError, Global};

/// The date that stands at the key, or what the clone of the text's error prints. Out of memory has
/// a place and no words.
pub(crate) fn date_at(alloc: Global, key: &str, text: &str) -> Result<Outcome, AllocError> {
    match TomlParser::parse(alloc, text) {
        Ok(table) => match table.get(key) {
            Some(value) => date_of(alloc, value),
            None => Ok(Outcome::Unknown),
        },
        Err(error) => {
            let again = error.clone(alloc)?;
            let reported = format!(in alloc; "{again}")?;
            Ok(Outcome::Error(reported.into_bytes()))
        }
    }
}

/// The date, where the value is one.
fn date_of(alloc: Global, value: &Toml) -> Result<Outcome, AllocError> {
    match value {
        Toml::Date(_) => Ok(Outcome::Text(value.date(alloc)?.into_bytes())),
        _ => Ok(Outcome::Unknown),
    }
}
