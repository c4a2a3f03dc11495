//! What is asked of type parameters.

use crate::syntax::{Definition, Type};
use derive_source::Fault;

/// The traits by which each impl bounds the type parameters.
const OF_FORMATS: [&str; 12] = [
    "BinCodec",
    "SerBin",
    "DeBin",
    "BothBin",
    "JsonCodec",
    "SerJson",
    "DeJson",
    "BothJson",
    "RonCodec",
    "SerRon",
    "DeRon",
    "BothRon",
];

const IN_IMPLS: &str = "is a bound that each impl has where it needs it: leave it out of the type";

/// An error at a bound that is one of a format.
pub(crate) fn check_bounds<'a>(definition: &Definition<'a>) -> Result<(), Fault> {
    for bound in &definition.bounds {
        check_traits(&bound.traits)?;
    }
    Ok(())
}

/// An error at the first of these traits that is one of a format.
fn check_traits<'a>(traits: &[Type<'a>]) -> Result<(), Fault> {
    for of in traits {
        if let Some(token) = of.0.last() {
            if OF_FORMATS.contains(&token.text) {
                return Err(token.fault(IN_IMPLS));
            }
        }
    }
    Ok(())
}
