//! Named fields between parentheses, of which some hold values of the type that has them.
//!
//! On an error, a reader here may leave the state at any position, unless it says where.

ghost use Rattle.std.specs.Prelude.{◌≡◌, [], string_bytes};
ghost use Rattle.nano_ron.specs.Outcomes.{position, Reads, ReadsOrEnds};
ghost use Rattle.nano_ron.specs.State.{pending};
ghost use Rattle.nano_ron.specs.Token.{IsIdent};
ghost use Rattle.nano_ron_schema.specs.FieldCodecs.{nothing_after};
ghost use Rattle.nano_ron_schema.specs.Reading.{EncodesFields, EncodesNamed};
ghost use Rattle.nano_ron_schema.specs.Outcomes.{HoldsFields, TakesField, is_ident};

use crate::fields::RonFieldsWithin;
use crate::traits::{NestedRon, ReadsRon};
use nano_ron::{DeRonErr, DeRonState, DeRonTok, end_on_error};
use std::alloc::Global;
use std::str::Chars;

/// Reads the fields of a struct that contains itself, where so many levels may follow: named fields
/// between parentheses, in any order, with one comma between two and optionally one after the last.
/// If a name comes again, the last value counts; each must be one of its type. The token after the
/// closing parenthesis is pending then, which may be the end.
///
/// An error other than out of memory says that no such fields are there, with one more token or
/// the end after them. A field whose name is not known is reported by `Unexpected key {name}`,
/// and a missing one by `Key not found {name}`, once the closing parenthesis and the token
/// after it are taken. Every error leaves the state at the end of the text.
pub fn read_record_ron_within<L, F: RonFieldsWithin<L>>(
    levels: &L,
    left: usize,
    alloc: Global,
    state: &mut DeRonState,
    input: &mut Chars<'_>,
) -> Result<F::Values, DeRonErr>
    ensures { ReadsOrEnds (EncodesFields (F.codec left).struct.shape) F.means
        (position state.old input.old) (position state.new input.new) result }
{
    let read = read_values::<L, F>(levels, left, alloc, state, input);
    end_on_error(state, read)
}

/// Reads named fields between parentheses.
fn read_values<L, F: RonFieldsWithin<L>>(
    levels: &L,
    left: usize,
    alloc: Global,
    state: &mut DeRonState,
    input: &mut Chars<'_>,
) -> Result<F::Values, DeRonErr>
    ensures { Reads (EncodesFields (F.codec left).struct.shape) F.means
        (position state.old input.old) (position state.new input.new) result }
{
    let mut slots = F::empty();
    match read_list::<L, F>(levels, left, &mut slots, alloc, state, input) {
        Ok(()) => F::values(slots, alloc, state),
        Err(error) => {
            F::discard(slots);
            Err(error)
        }
    }
}

/// Reads the fields between parentheses into the slots, in place of earlier ones of their names.
fn read_list<L, F: RonFieldsWithin<L>>(
    levels: &L,
    left: usize,
    slots: &mut F::Slots,
    alloc: Global,
    state: &mut DeRonState,
    input: &mut Chars<'_>,
) -> Result<(), DeRonErr>
    requires { F.holds left slots.old [] }
    ensures { HoldsFields (F.codec left).struct.shape
        (F.holds left slots.new) nothing_after
        (position state.old input.old) (position state.new input.new) result }
{
    state.paren_open(alloc, input)?;
    'fields: while is_name(state) {
        read_any::<L, F>(levels, left, slots, alloc, state, input)?;
        state.eat_comma_paren(alloc, input)?;
    }
    state.paren_close(alloc, input)
}

/// Reads the field whose name is pending. It is rejected if the name is not known. The name is
/// compared where it is in the state, before the next token is taken.
fn read_any<L, F: RonFieldsWithin<L>>(
    levels: &L,
    left: usize,
    slots: &mut F::Slots,
    alloc: Global,
    state: &mut DeRonState,
    input: &mut Chars<'_>,
) -> Result<(), DeRonErr>
    requires { IsIdent (pending state.old) }
    ensures { TakesField (string_bytes state.old.identbuf)
        (F.codec left).struct.shape
        (F.holds left slots.old) (F.holds left slots.new) nothing_after
        (position state.old input.old) (position state.new input.new) result }
{
    if F::read_field(levels, left, slots, alloc, state, input)? {
        return Ok(());
    }
    Err(state.err_exp(alloc, state.identbuf.as_str()))
}

/// Reads the pending name, a colon and a value that holds values of the type with the field.
pub(crate) fn read_named<T: NestedRon, L: ReadsRon<T>>(
    levels: &L,
    left: usize,
    alloc: Global,
    state: &mut DeRonState,
    input: &mut Chars<'_>,
) -> Result<T, DeRonErr>
    requires { IsIdent (pending state.old) }
    ensures { Reads (EncodesNamed (string_bytes state.old.identbuf)
        (T.at left).encoding.encodes) T.means
        (position state.old input.old) (position state.new input.new) result }
{
    state.next_colon(alloc, input)?;
    ReadsRon::<T>::read_ron(levels, left, alloc, state, input)
}

/// Whether a word is pending.
#[inline]
fn is_name(state: &DeRonState) -> bool
    ensures { result ≡ is_ident (pending state.now) }
{
    match state.tok {
        DeRonTok::Ident => true,
        _ => false,
    }
}
