//! Named fields between braces.
//!
//! On an error, a reader here may leave the state at any position, unless it says where.

ghost use Rattle.std.specs.Prelude.{◌≡◌, [], None};
ghost use Rattle.nano_json.specs.Outcomes.{position, Reads, ReadsOrEnds};
ghost use Rattle.nano_json.specs.State.{pending};
ghost use Rattle.nano_json.specs.Token.{IsStr};
ghost use Rattle.nano_json_schema.specs.Reading.{EncodesFields, EncodesKnownFields};
ghost use Rattle.nano_json_schema.specs.Reading.{EncodesFieldsWith, name_bytes, TakesField};
ghost use Rattle.nano_json_schema.specs.Reading.{TakesColonAfter};
ghost use Rattle.nano_json_schema.specs.Outcomes.{HoldsFields, TakesValue};

use crate::fields::JsonFields;
use crate::names::{is_at_field, next_field, open_fields, take_name};
use crate::unknown::{Rejected, Skipped, Unknown};
use nano_json::{DeJsonErr, DeJsonState, end_on_error};
use std::alloc::Global;
use std::str::Chars;

/// Reads named fields between braces, in any order, with one comma between two and
/// optionally one after the last. A field whose name is not known is skipped. If a name is
/// repeated, the last value counts; each must be one of its type. The token after the closing
/// bracket is pending then, which may be the end.
///
/// An error other than out of memory says that no such fields stand there, with one more token
/// or the end after them. A missing field is reported by `Key not found {name}`, once the
/// closing bracket and the token after it are taken. Every error leaves the state at the end of
/// the text.
pub fn read_fields<F: JsonFields>(
    alloc: Global,
    state: &mut DeJsonState,
    input: &mut Chars<'_>,
) -> Result<F::Values, DeJsonErr>
    ensures { ReadsOrEnds (EncodesFields F.codec.struct.shape) F.codec.canonical.means
        (position state.old input.old) (position state.new input.new) result }
{
    let read = read_values::<F, Skipped>(alloc, state, input);
    end_on_error(state, read)
}

/// The same where each name must be known. A field of another name is rejected by
/// `Unexpected key {name}`, once its name, the colon, and the first token of what comes after them
/// are cut.
pub(crate) fn read_fields_strict<F: JsonFields>(
    alloc: Global,
    state: &mut DeJsonState,
    input: &mut Chars<'_>,
) -> Result<F::Values, DeJsonErr>
    ensures { ReadsOrEnds (EncodesKnownFields F.codec.struct.shape) F.codec.canonical.means
        (position state.old input.old) (position state.new input.new) result }
{
    let read = read_values::<F, Rejected>(alloc, state, input);
    end_on_error(state, read)
}

/// Reads named fields between braces.
fn read_values<F: JsonFields, U: Unknown>(
    alloc: Global,
    state: &mut DeJsonState,
    input: &mut Chars<'_>,
) -> Result<F::Values, DeJsonErr>
    ensures { Reads (EncodesFieldsWith U.after F.codec.struct.shape) F.codec.canonical.means
        (position state.old input.old) (position state.new input.new) result }
{
    let mut slots = F::empty();
    match read_list::<F, U>(&mut slots, alloc, state, input) {
        Ok(()) => F::values(slots, alloc, state),
        Err(error) => {
            F::discard(slots);
            Err(error)
        }
    }
}

/// Reads the fields between braces into the slots, in place of earlier ones of their names.
fn read_list<F: JsonFields, U: Unknown>(
    slots: &mut F::Slots,
    alloc: Global,
    state: &mut DeJsonState,
    input: &mut Chars<'_>,
) -> Result<(), DeJsonErr>
    requires { F.holds slots.old [] }
    ensures { HoldsFields F.codec.struct.shape (F.holds slots.new) U.after
        (position state.old input.old) (position state.new input.new) result }
{
    let mut moved = String::new(alloc);
    let mut name = open_fields(alloc, state, input)?;
    'fields: while is_at_field(name, state) {
        read_any::<F, U>(name, &mut moved, slots, alloc, state, input)?;
        name = next_field(alloc, state, input)?;
    }
    state.curly_close(alloc, input)
}

/// Reads a field, whose name is taken in place or pending, or takes what may come after it where the
/// name is not known.
fn read_any<F: JsonFields, U: Unknown>(
    name: Option<&str>,
    moved: &mut String,
    slots: &mut F::Slots,
    alloc: Global,
    state: &mut DeJsonState,
    input: &mut Chars<'_>,
) -> Result<(), DeJsonErr>
    requires { name ≡ None → IsStr (pending state.old) }
    ensures { TakesField (name_bytes name.entry)
        (position state.old input.old) (position state.new input.new)
        U.after F.codec.struct.shape (F.holds slots.old) (F.holds slots.new) result }
{
    let name = take_colon(name, moved, alloc, state, input)?;
    read_named::<F, U>(name, slots, alloc, state, input)
}

/// Takes the colon after the name of a field, which is taken in place or pending, and answers the
/// name.
#[inline(always)]
fn take_colon<'n>(
    name: Option<&'n str>,
    moved: &'n mut String,
    alloc: Global,
    state: &mut DeJsonState,
    input: &mut Chars<'_>,
) -> Result<&'n str, DeJsonErr>
    requires { name ≡ None → IsStr (pending state.old) }
    ensures { TakesColonAfter (name_bytes name.entry)
        (position state.old input.old) (position state.new input.new) result }
{
    match name {
        Some(name) => {
            state.colon(alloc, input)?;
            Ok(name)
        }
        None => {
            take_name(moved, alloc, state, input)?;
            Ok(moved.as_str())
        }
    }
}

/// Reads the value after this name, or takes what may come there where the name is not known.
fn read_named<F: JsonFields, U: Unknown>(
    name: &str,
    slots: &mut F::Slots,
    alloc: Global,
    state: &mut DeJsonState,
    input: &mut Chars<'_>,
) -> Result<(), DeJsonErr>
    ensures { TakesValue name.now F.codec.struct.shape (F.holds slots.old) (F.holds slots.new)
        U.after (position state.old input.old) (position state.new input.new) result }
{
    if F::read_field(name, slots, alloc, state, input)? {
        return Ok(());
    }
    U::take(name, alloc, state, input)
}
