//! Types that are called keys.

use crate::parse::KEY_TRAITS;
use crate::syntax::{Content, Definition, Shape, Variant};
use derive_source::Fault;

const TRAITS: &str = "is for a type that is compared and hashed: write `#[derive(PartialEq, Eq, \
    PartialOrd, Ord, Hash)]` above it, with what else it derives";

const FIELDS: &str = "is for structs whose parts have no names and for enums: a struct with named \
    fields is no key";

/// The most parts of a key.
const MOST_OF_KEY: usize = 4;

const PARTS: &str = "is for structs of one to four parts: one of more is no key";

const CONTENT: &str = "is for enums whose variants have no content: one with content is no key";

/// An error where a type is called a key that cannot be one, but for the types of its parts.
pub(crate) fn check_key<'a>(definition: &Definition<'a>) -> Result<(), Fault> {
    let Some(word) = definition.attributes.key else {
        return Ok(());
    };
    if definition.attributes.key_traits < KEY_TRAITS.len() {
        return Err(word.fault(TRAITS));
    }
    match &definition.shape {
        Shape::Parts(parts) if parts.len() > MOST_OF_KEY => Err(word.fault(PARTS)),
        Shape::Parts(_) => Ok(()),
        Shape::Fields(_) => Err(word.fault(FIELDS)),
        Shape::Variants(variants) if has_content(variants) => Err(word.fault(CONTENT)),
        Shape::Variants(_) => Ok(()),
    }
}

/// Whether one of the variants holds something.
fn has_content<'a>(variants: &[Variant<'a>]) -> bool {
    for variant in variants {
        match &variant.content {
            Content::Nothing => {}
            Content::Parts(_) | Content::Fields(_) => return true,
        }
    }
    false
}
