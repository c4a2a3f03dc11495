//! Enums that contain themselves, in JSON.

ghost use Rattle.nano_json.specs.Outcomes.{position};
ghost use Rattle.nano_json_schema.specs.Outcomes.{ReadsEnum};

use crate::choices::JsonChoicesWithin;
use nano_json::{DeJsonErr, DeJsonState};
use nano_json_schema::read_variant_name;
use std::alloc::Global;
use std::str::Chars;

/// Reads a variant of an enum that contains itself, where so many levels may follow: its name
/// alone, or between braces its name, a colon and the content. The token after it is pending
/// then, which may be the end. A name that no variant has is rejected with `Enum not defined
/// {name}`, once the token after it, or after its colon, is taken.
///
/// An error other than out of memory says that no variant is encoded there, with one more token
/// or the end after it. Every error leaves the state at the end of the text.
pub fn read_choice_json_within<L, V: JsonChoicesWithin<L>>(
    levels: &L,
    left: usize,
    alloc: Global,
    state: &mut DeJsonState,
    input: &mut Chars<'_>,
) -> Result<V::Values, DeJsonErr>
    ensures { ReadsEnum (V.encodes left) (V.means 0)
        (position state.old input.old) (position state.new input.new) result }
{
    let name = read_variant_name(alloc, state, input)?;
    match V::read(levels, left, &name, alloc, state, input) {
        Ok(values) => Ok(values),
        Err(error) => Err(error),
    }
}
