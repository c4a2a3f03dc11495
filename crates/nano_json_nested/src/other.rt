//! Another type, in the words of its codec.

ghost use Rattle.nano_json.specs.Outcomes.{position, ReadsOrEnds};

use nano_json::{DeJson, DeJsonErr, DeJsonState};
use std::alloc::Global;
use std::str::Chars;

/// Reads a value of another type. Its contract says what the value means as the codec does, so it
/// fits a type with parameters, whose codec knows nothing else of them.
pub(crate) fn read_other<T: DeJson>(
    alloc: Global,
    state: &mut DeJsonState,
    input: &mut Chars<'_>,
) -> Result<T, DeJsonErr>
    ensures { ReadsOrEnds T.json.encoding.encodes T.json.canonical.means
        (position state.old input.old) (position state.new input.new) result }
{
    T::de_json(alloc, state, input)
}
