//! Enums that contain themselves, in RON.

ghost use Rattle.nano_ron.specs.Outcomes.{position};
ghost use Rattle.nano_ron_schema.specs.Outcomes.{ReadsEnum};

use crate::choices::RonChoicesWithin;
use nano_ron::{DeRonErr, DeRonState};
use nano_ron_schema::read_variant_name;
use std::alloc::Global;
use std::str::Chars;

/// Reads a variant of an enum that contains itself, where so many levels may follow: its name, and
/// directly after it the content if it has one. The token after it is pending then, which may be
/// the end. A name that no variant has is rejected with `Enum not defined {name}`, once the token
/// after it is taken.
///
/// An error other than out of memory says that no variant is encoded there, with one more token
/// or the end after it. Every error leaves the state at the end of the text.
pub fn read_choice_ron_within<L, V: RonChoicesWithin<L>>(
    levels: &L,
    left: usize,
    alloc: Global,
    state: &mut DeRonState,
    input: &mut Chars<'_>,
) -> Result<V::Values, DeRonErr>
    ensures { ReadsEnum (V.encodes left) (V.means 0)
        (position state.old input.old) (position state.new input.new) result }
{
    let name = read_variant_name(alloc, state, input)?;
    let alone = V::stands_alone(name.as_str());
    match V::read(levels, left, name.as_str(), alone, alloc, state, input) {
        Ok(values) => Ok(values),
        Err(error) => Err(error),
    }
}
