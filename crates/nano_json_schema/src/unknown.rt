//! What a reader of fields does where a name is not known.

ghost use Rattle.nano_json.specs.Outcomes.{position};
ghost use Rattle.nano_json_schema.specs.FieldCodecs.{AfterUnknown, passed_over, nothing_after};
ghost use Rattle.nano_json_schema.specs.Outcomes.{TakesUnknown};

use nano_json::{DeJsonErr, DeJsonState};
use std::alloc::Global;
use std::str::Chars;

/// What a reader does at a field whose name is not known.
pub(crate) trait Unknown {
    /// What may come after the name.
    ghost after: { AfterUnknown };

    /// Takes what comes after this name and a colon, whose first token is pending.
    ///
    /// An error other than out of memory says that nothing stands there that may. The state may be
    /// at any position then.
    fn take(
        name: &str,
        alloc: Global,
        state: &mut DeJsonState,
        input: &mut Chars<'_>,
    ) -> Result<(), DeJsonErr>
        ensures { TakesUnknown after (position state.old input.old) (position state.new input.new)
            result };
}

/// The field is skipped.
pub(crate) struct Skipped;

impl Unknown for Skipped {
    ghost after = { passed_over };

    #[inline(always)]
    fn take(
        _name: &str,
        alloc: Global,
        state: &mut DeJsonState,
        input: &mut Chars<'_>,
    ) -> Result<(), DeJsonErr> {
        state.whole_field(alloc, input)
    }
}

/// The field is rejected by `Unexpected key {name}`, as it is in a strict struct.
pub(crate) struct Rejected;

impl Unknown for Rejected {
    ghost after = { nothing_after };

    #[inline(always)]
    fn take(
        name: &str,
        alloc: Global,
        state: &mut DeJsonState,
        _input: &mut Chars<'_>,
    ) -> Result<(), DeJsonErr> {
        Err(state.err_exp(alloc, name))
    }
}
