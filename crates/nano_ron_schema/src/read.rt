//! Named fields between parentheses.
//!
//! On an error, a reader here may leave the state at any position, unless it says where.

ghost use Rattle.std.specs.Prelude.{◌≡◌, [], string_bytes};
ghost use Rattle.nano_ron.specs.Outcomes.{position, Reads, ReadsOrEnds};
ghost use Rattle.nano_ron.specs.State.{pending};
ghost use Rattle.nano_ron.specs.Token.{IsIdent};
ghost use Rattle.nano_ron_schema.specs.Reading.{EncodesFields, EncodesFieldsWith, EncodesNamed};
ghost use Rattle.nano_ron_schema.specs.Reading.{EncodesOpenFields};
ghost use Rattle.nano_ron_schema.specs.Outcomes.{HoldsFields, TakesField, is_ident};

use crate::fields::RonFields;
use crate::unknown::{Rejected, Skipped, Unknown};
use nano_ron::{DeRon, DeRonErr, DeRonState, DeRonTok, end_on_error};
use std::alloc::Global;
use std::str::Chars;

/// Reads named fields between parentheses, in any order, with one comma between two and
/// optionally one after the last. If a name comes again, the last value counts; each must be
/// one of its type. The token after the closing parenthesis is pending then, which may be the
/// end.
///
/// An error other than out of memory says that no such fields are there, with one more token or
/// the end after them. A field whose name is not known is reported by `Unexpected key {name}`,
/// and a missing one by `Key not found {name}`, once the closing parenthesis and the token
/// after it are taken. Every error leaves the state at the end of the text.
pub fn read_fields<F: RonFields>(
    alloc: Global,
    state: &mut DeRonState,
    input: &mut Chars<'_>,
) -> Result<F::Values, DeRonErr>
    ensures { ReadsOrEnds (EncodesFields F.codec.struct.shape) F.codec.canonical.means
        (position state.old input.old) (position state.new input.new) result }
{
    let read = read_values::<F, Rejected>(alloc, state, input);
    end_on_error(state, read)
}

/// The same where a field of another name is skipped: with a word, a string, a number, a character
/// or a truth value, with brackets and all between them, or with a word and such parentheses after
/// it.
pub(crate) fn read_fields_open<F: RonFields>(
    alloc: Global,
    state: &mut DeRonState,
    input: &mut Chars<'_>,
) -> Result<F::Values, DeRonErr>
    ensures { ReadsOrEnds (EncodesOpenFields F.codec.struct.shape) F.codec.canonical.means
        (position state.old input.old) (position state.new input.new) result }
{
    let read = read_values::<F, Skipped>(alloc, state, input);
    end_on_error(state, read)
}

/// Reads named fields between parentheses.
fn read_values<F: RonFields, U: Unknown>(
    alloc: Global,
    state: &mut DeRonState,
    input: &mut Chars<'_>,
) -> Result<F::Values, DeRonErr>
    ensures { Reads (EncodesFieldsWith U.after F.codec.struct.shape) F.codec.canonical.means
        (position state.old input.old) (position state.new input.new) result }
{
    let mut slots = F::empty();
    match read_list::<F, U>(&mut slots, alloc, state, input) {
        Ok(()) => F::values(slots, alloc, state),
        Err(error) => {
            F::discard(slots);
            Err(error)
        }
    }
}

/// Reads the fields between parentheses into the slots, in place of earlier ones of their names.
fn read_list<F: RonFields, U: Unknown>(
    slots: &mut F::Slots,
    alloc: Global,
    state: &mut DeRonState,
    input: &mut Chars<'_>,
) -> Result<(), DeRonErr>
    requires { F.holds slots.old [] }
    ensures { HoldsFields F.codec.struct.shape (F.holds slots.new) U.after
        (position state.old input.old) (position state.new input.new) result }
{
    state.paren_open(alloc, input)?;
    'fields: while is_name(state) {
        read_any::<F, U>(slots, alloc, state, input)?;
        state.eat_comma_paren(alloc, input)?;
    }
    state.paren_close(alloc, input)
}

/// Reads the field whose name is pending, or takes what may come after it where the name is not
/// known. The name is compared where it is in the state, before the next token is taken.
fn read_any<F: RonFields, U: Unknown>(
    slots: &mut F::Slots,
    alloc: Global,
    state: &mut DeRonState,
    input: &mut Chars<'_>,
) -> Result<(), DeRonErr>
    requires { IsIdent (pending state.old) }
    ensures { TakesField (string_bytes state.old.identbuf) F.codec.struct.shape
        (F.holds slots.old) (F.holds slots.new) U.after
        (position state.old input.old) (position state.new input.new) result }
{
    if F::read_field(slots, alloc, state, input)? {
        return Ok(());
    }
    U::take(alloc, state, input)
}

/// Reads the pending name, a colon and a value.
pub(crate) fn read_named<T: DeRon>(
    alloc: Global,
    state: &mut DeRonState,
    input: &mut Chars<'_>,
) -> Result<T, DeRonErr>
    requires { IsIdent (pending state.old) }
    ensures { Reads (EncodesNamed (string_bytes state.old.identbuf) T.ron.encoding.encodes) T.means
        (position state.old input.old) (position state.new input.new) result }
{
    state.next_colon(alloc, input)?;
    T::de_ron(alloc, state, input)
}

/// Whether a word is pending.
#[inline]
fn is_name(state: &DeRonState) -> bool
    ensures { result ≡ is_ident (pending state.now) }
{
    match state.tok {
        DeRonTok::Ident => true,
        _ => false,
    }
}
