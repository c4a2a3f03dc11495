//! What a reader of fields does where a name is not known.

ghost use Rattle.std.specs.Prelude.{string_bytes};
ghost use Rattle.nano_ron.specs.Outcomes.{position};
ghost use Rattle.nano_ron.specs.State.{pending};
ghost use Rattle.nano_ron.specs.Token.{IsIdent};
ghost use Rattle.nano_ron_schema.specs.FieldCodecs.{AfterUnknown, passed_over, nothing_after};
ghost use Rattle.nano_ron_schema.specs.Outcomes.{TakesUnknown};

use nano_ron::{DeRonErr, DeRonState};
use std::alloc::Global;
use std::str::Chars;

/// What a reader does at a field whose name is not known.
pub(crate) trait Unknown {
    /// What may come after the name.
    ghost after: { AfterUnknown };

    /// Takes the pending name, a colon, and what comes after them.
    ///
    /// An error other than out of memory says that nothing stands there that may. The state may be
    /// at any position then.
    fn take(alloc: Global, state: &mut DeRonState, input: &mut Chars<'_>) -> Result<(), DeRonErr>
        requires { IsIdent (pending state.old) }
        ensures { TakesUnknown (string_bytes state.old.identbuf) after
            (position state.old input.old) (position state.new input.new) result };
}

/// The field is skipped, as it is in an open struct.
pub(crate) struct Skipped;

impl Unknown for Skipped {
    ghost after = { passed_over };

    fn take(alloc: Global, state: &mut DeRonState, input: &mut Chars<'_>) -> Result<(), DeRonErr> {
        state.next_colon(alloc, input)?;
        state.whole_field(alloc, input)
    }
}

/// The field is rejected by `Unexpected key {name}`.
pub(crate) struct Rejected;

impl Unknown for Rejected {
    ghost after = { nothing_after };

    #[inline(always)]
    fn take(alloc: Global, state: &mut DeRonState, _input: &mut Chars<'_>) -> Result<(), DeRonErr> {
        Err(state.err_exp(alloc, state.identbuf.as_str()))
    }
}
