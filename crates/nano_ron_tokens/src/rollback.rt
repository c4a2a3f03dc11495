//! How readers leave the state on an error.

ghost use Rattle.nano_ron_tokens.specs.Outcomes.{EndsOnError};

use crate::error::DeRonErr;
use crate::state::DeRonState;

/// Hands on what was read, and leaves the state at the end of the text where nothing was: so a
/// reader of several tokens may stop anywhere. It takes no memory.
#[inline]
pub fn end_on_error<T>(state: &mut DeRonState, read: Result<T, DeRonErr>) -> Result<T, DeRonErr>
    ensures { EndsOnError state.old state.new read result }
{
    if read.is_err() {
        state.fail();
    }
    read
}
