//! Defaults of fields of types that contain themselves.

use crate::check::defaults::{Missing, missing_value};
use crate::cycle::Cycle;
use crate::nested::{Core, Holder, nested_part};
use crate::syntax::Field;
use derive_source::Fault;
use std::alloc::Global;

const OF_OPTION: &str = "stands above an `Option` in a type that contains itself: such a field may \
    be missing without it";

const NO_DEFAULT: &str =
    "is in a type that contains itself for a number, `bool`, `()`, a `String`, \
    a `Vec` and a `BTreeMap`, and this is none of them";

const NO_PATH: &str = "is no number, boolean or text of the field's type, and a default in a type \
    that contains itself is one";

/// An error where a field cannot have the default that stands above it.
pub(crate) fn check_default<'a>(
    alloc: Global,
    cycle: &Cycle<'a>,
    field: Field<'a>,
) -> Result<(), Fault> {
    let Some(word) = field.attributes.default else {
        return Ok(());
    };
    if let (Missing::Path(_), Some(text)) = (missing_value(field), field.attributes.default_path) {
        return Err(text.fault(NO_PATH));
    }
    let part = nested_part(alloc, cycle, field.of)?;
    match (part.holders.first(), part.core) {
        (Some(Holder::Option), _) => Err(word.fault(OF_OPTION)),
        (Some(Holder::Vec | Holder::BTreeMap(_)), _) | (None, Core::Plain(_)) => Ok(()),
        _ => Err(word.fault(NO_DEFAULT)),
    }
}
