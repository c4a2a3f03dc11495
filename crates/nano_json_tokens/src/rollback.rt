//! How readers leave the state on error.

ghost use Rattle.nano_json_tokens.specs.Outcomes.{EndsOnError};

use crate::error::DeJsonErr;
use crate::state::DeJsonState;

/// Hands on what was read, and leaves the state at the end of the text where nothing was: so a
/// reader of several tokens may stop anywhere. It takes no memory.
#[inline]
pub fn end_on_error<T>(state: &mut DeJsonState, read: Result<T, DeJsonErr>) -> Result<T, DeJsonErr>
    ensures { EndsOnError state.old state.new read result }
{
    if read.is_err() {
        state.fail();
    }
    read
}
