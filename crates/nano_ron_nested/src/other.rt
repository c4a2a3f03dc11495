//! Another type, in the words of its codec.

ghost use Rattle.nano_ron.specs.Outcomes.{position, ReadsOrEnds};

use nano_ron::{DeRon, DeRonErr, DeRonState};
use std::alloc::Global;
use std::str::Chars;

/// Reads a value of another type. Its contract says what the value means as the codec does, so it
/// fits a type with parameters, whose codec knows nothing else of them.
pub(crate) fn read_other<T: DeRon>(
    alloc: Global,
    state: &mut DeRonState,
    input: &mut Chars<'_>,
) -> Result<T, DeRonErr>
    ensures { ReadsOrEnds T.ron.encoding.encodes T.ron.canonical.means
        (position state.old input.old) (position state.new input.new) result }
{
    T::de_ron(alloc, state, input)
}
