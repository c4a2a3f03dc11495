//! Types that contain themselves, in JSON and RON.

use crate::syntax::{Content, Definition, Shape};
use derive_source::Fault;

const PARTS: &str =
    "has more than three parts, which no variant has in JSON and RON of an enum that contains \
    itself: give them names";

const NO_FIELDS: &str =
    "has braces with nothing between them, which no variant has in JSON and RON of \
    an enum that contains itself: leave them out";

/// An error where a type that contains itself has a shape that is not written in JSON and RON.
pub(crate) fn check_nested_json<'a>(definition: &Definition<'a>) -> Result<(), Fault> {
    let Shape::Variants(variants) = &definition.shape else {
        return Ok(());
    };
    for variant in variants {
        match &variant.content {
            Content::Nothing => {}
            Content::Parts(parts) if parts.len() > 3 => return Err(variant.name.fault(PARTS)),
            Content::Parts(_parts) => {}
            Content::Fields(fields) if fields.is_empty() => {
                return Err(variant.name.fault(NO_FIELDS));
            }
            Content::Fields(_fields) => {}
        }
    }
    Ok(())
}
