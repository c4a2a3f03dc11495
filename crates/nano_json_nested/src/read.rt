//! Named fields between braces, of which some hold values of the type that has them.
//!
//! On an error, a reader here may leave the state at any position, unless it says where.

ghost use Rattle.std.specs.Prelude.{◌≡◌, ◌∷◌, [], None, string_bytes};
ghost use Rattle.nano_json.specs.Outcomes.{position, Reads, ReadsOrEnds};
ghost use Rattle.nano_json.specs.State.{pending};
ghost use Rattle.nano_json.specs.Token.{str, colon};
ghost use Rattle.nano_json_schema.specs.FieldCodecs.{passed_over};
ghost use Rattle.nano_json_schema.specs.Reading.{EncodesFields, TakesField, AKey};
ghost use Rattle.nano_json_schema.specs.Outcomes.{HoldsFields, TakesValue, TakesTokens, is_str};

use crate::fields::JsonFieldsWithin;
use nano_json::{DeJsonErr, DeJsonState, DeJsonTok, end_on_error};
use std::alloc::Global;
use std::str::Chars;

/// Reads the fields of a struct that contains itself, where so many levels may follow: between
/// braces, in any order, with one comma between two and optionally one after the last. A field
/// whose name is not known is skipped. If a name is repeated, the last value counts; each must be
/// one of its type. The token after the closing bracket is pending then, which may be the end.
///
/// An error other than out of memory says that no such fields stand there, with one more token
/// or the end after them. A missing field is reported by `Key not found {name}`, once the
/// closing bracket and the token after it are taken. Every error leaves the state at the end of
/// the text.
pub fn read_record_json_within<L, F: JsonFieldsWithin<L>>(
    levels: &L,
    left: usize,
    alloc: Global,
    state: &mut DeJsonState,
    input: &mut Chars<'_>,
) -> Result<F::Values, DeJsonErr>
    ensures { ReadsOrEnds (EncodesFields (F.codec left).struct.shape) F.means
        (position state.old input.old) (position state.new input.new) result }
{
    let read = read_values::<L, F>(levels, left, alloc, state, input);
    end_on_error(state, read)
}

/// Reads named fields between braces.
fn read_values<L, F: JsonFieldsWithin<L>>(
    levels: &L,
    left: usize,
    alloc: Global,
    state: &mut DeJsonState,
    input: &mut Chars<'_>,
) -> Result<F::Values, DeJsonErr>
    ensures { Reads (EncodesFields (F.codec left).struct.shape) F.means
        (position state.old input.old) (position state.new input.new) result }
{
    let mut slots = F::empty();
    match read_list::<L, F>(levels, left, &mut slots, alloc, state, input) {
        Ok(()) => F::values(slots, alloc, state),
        Err(error) => {
            F::discard(slots);
            Err(error)
        }
    }
}

/// Reads the fields between braces into the slots, in place of earlier ones of their names.
fn read_list<L, F: JsonFieldsWithin<L>>(
    levels: &L,
    left: usize,
    slots: &mut F::Slots,
    alloc: Global,
    state: &mut DeJsonState,
    input: &mut Chars<'_>,
) -> Result<(), DeJsonErr>
    requires { F.holds left slots.old [] }
    ensures { HoldsFields (F.codec left).struct.shape
        (F.holds left slots.new) passed_over
        (position state.old input.old) (position state.new input.new) result }
{
    state.curly_open(alloc, input)?;
    'fields: while is_name(state) {
        read_any::<L, F>(levels, left, slots, alloc, state, input)?;
        state.eat_comma_curly(alloc, input)?;
    }
    state.curly_close(alloc, input)
}

/// Reads a field, or skips it where its name is not known.
fn read_any<L, F: JsonFieldsWithin<L>>(
    levels: &L,
    left: usize,
    slots: &mut F::Slots,
    alloc: Global,
    state: &mut DeJsonState,
    input: &mut Chars<'_>,
) -> Result<(), DeJsonErr>
    ensures { TakesField None
        (position state.old input.old) (position state.new input.new)
        passed_over (F.codec left).struct.shape
        (F.holds left slots.old) (F.holds left slots.new) result }
{
    let name = take_name(alloc, state, input)?;
    read_named::<L, F>(levels, left, name.as_str(), slots, alloc, state, input)
}

/// Whether the name of a field is pending.
#[inline]
fn is_name(state: &DeJsonState) -> bool
    ensures { result ≡ is_str (pending state.now) }
{
    match state.tok {
        DeJsonTok::Str => true,
        _ => false,
    }
}

/// Takes a name and the colon after it.
fn take_name(
    alloc: Global,
    state: &mut DeJsonState,
    input: &mut Chars<'_>,
) -> Result<String, DeJsonErr>
    ensures { TakesTokens (λ name. str (string_bytes name) ∷ (colon ∷ [])) AKey
        (position state.old input.old) (position state.new input.new) result }
{
    let name = state.as_string(alloc)?;
    state.next_colon(alloc, input)?;
    Ok(name)
}

/// Reads the value after this name, or skips what stands there where the name is not known.
fn read_named<L, F: JsonFieldsWithin<L>>(
    levels: &L,
    left: usize,
    name: &str,
    slots: &mut F::Slots,
    alloc: Global,
    state: &mut DeJsonState,
    input: &mut Chars<'_>,
) -> Result<(), DeJsonErr>
    ensures { TakesValue name.now (F.codec left).struct.shape
        (F.holds left slots.old) (F.holds left slots.new) passed_over
        (position state.old input.old) (position state.new input.new) result }
{
    if F::read_field(levels, left, name, slots, alloc, state, input)? {
        return Ok(());
    }
    state.whole_field(alloc, input)
}
