//! The name of a field, taken in place where it can be, or pending.
//!
//! On an error, a reader here may leave the state at any position, unless it says where.

ghost use Rattle.std.specs.Prelude.{◌≡◌, ◌≢◌, [], ◌∷◌, true, false, None, string_bytes};
ghost use Rattle.std.specs.declared.str.Chars.{Chars};
ghost use Rattle.nano_grammar.specs.Tokens.{Leaves};
ghost use Rattle.nano_grammar.specs.Faults.{AreTokens};
ghost use Rattle.nano_json.specs.Outcomes.{position, NoneHere};
ghost use Rattle.nano_json.specs.State.{pending};
ghost use Rattle.nano_json.specs.Token.{IsStr};
ghost use Rattle.nano_json_tokens.specs.Cut.{Cut};
ghost use Rattle.nano_json_tokens.specs.Token.{str, colon, comma, curly_close, curly_open};
ghost use Rattle.nano_json_schema.specs.Reading.{ReachesName, GoesOn, TakesNameAfter};
ghost use Rattle.nano_json_schema.specs.Outcomes.{TakesTokens, is_str};

use nano_json::{DeJsonErr, DeJsonState, DeJsonTok};
use std::alloc::Global;
use std::mem;
use std::str::Chars;

/// Takes the opening bracket, and the name after it if it can be taken in place.
pub(crate) fn open_fields<'a>(
    alloc: Global,
    state: &mut DeJsonState,
    input: &mut Chars<'a>,
) -> Result<Option<&'a str>, DeJsonErr>
    ensures { ReachesName (λ start end. Leaves Cut (curly_open ∷ []) start end)
        (NoneHere (curly_open ∷ []) state.old input.old state.new input.new)
        (position state.old input.old) (position state.new input.new) result }
{
    let name = name_after(is_opening(state), state, input);
    if name.is_some() {
        return Ok(name);
    }
    state.curly_open(alloc, input)?;
    Ok(None)
}

/// Takes the comma after a field, and the name after it if it can be taken in place; or nothing
/// where the closing bracket is pending.
pub(crate) fn next_field<'a>(
    alloc: Global,
    state: &mut DeJsonState,
    input: &mut Chars<'a>,
) -> Result<Option<&'a str>, DeJsonErr>
    ensures { ReachesName GoesOn
        ((pending state.old ≢ curly_close)
        × NoneHere (comma ∷ []) state.old input.old state.new input.new)
        (position state.old input.old) (position state.new input.new) result }
{
    let name = name_after(is_comma(state), state, input);
    if name.is_some() {
        return Ok(name);
    }
    state.eat_comma_curly(alloc, input)?;
    Ok(None)
}

/// Takes the pending token and the name after it, if the token is the one before a name, and the
/// name can be taken in place. The colon after it is pending then.
#[inline(always)]
fn name_after<'a>(
    is_before_name: bool,
    state: &mut DeJsonState,
    input: &mut Chars<'a>,
) -> Option<&'a str>
    ensures { TakesNameAfter is_before_name state.old input.old state.new input.new result }
{
    if is_before_name {
        return state.next_name(input);
    }
    None
}

/// Takes the pending name and the colon after it, and moves the name to `name`.
pub(crate) fn take_name(
    name: &mut String,
    alloc: Global,
    state: &mut DeJsonState,
    input: &mut Chars<'_>,
) -> Result<(), DeJsonErr>
    requires { IsStr (pending state.old) }
    ensures { TakesTokens (λ _. str (string_bytes name.new) ∷ (colon ∷ []))
        (AreTokens (pending state.old ∷ (colon ∷ [])))
        (position state.old input.old) (position state.new input.new) result }
{
    state.next_tok(alloc, input)?;
    move_name(name, state);
    state.colon(alloc, input)
}

/// Moves the text of a string to `name`, if a colon is pending: so no pending token changes.
fn move_name(name: &mut String, state: &mut DeJsonState)
    ensures moved { pending state.old ≡ colon
        → string_bytes name.new ≡ string_bytes state.old.strbuf }
    ensures still { (i : Chars) → position state.new i ≡ position state.old i }
{
    match state.tok {
        DeJsonTok::Colon => mem::swap(name, &mut state.strbuf),
        _ => {}
    }
}

/// Whether a field begins here: its name was taken in place, or is pending.
#[inline]
pub(crate) fn is_at_field(name: Option<&str>, state: &DeJsonState) -> bool
    ensures yes { result ≡ true → name.entry ≡ None → is_str (pending state.now) ≡ true }
    ensures no { result ≡ false → (name.entry ≡ None) × (is_str (pending state.now) ≡ false) }
{
    match name {
        Some(_) => true,
        None => is_name(state),
    }
}

/// Whether a string is pending.
#[inline]
fn is_name(state: &DeJsonState) -> bool
    ensures { result ≡ is_str (pending state.now) }
{
    match state.tok {
        DeJsonTok::Str => true,
        _ => false,
    }
}

/// Whether an opening brace is pending.
#[inline]
fn is_opening(state: &DeJsonState) -> bool
    ensures { result ≡ true → pending state.now ≡ curly_open }
{
    match state.tok {
        DeJsonTok::CurlyOpen => true,
        _ => false,
    }
}

/// Whether a comma is pending.
#[inline]
fn is_comma(state: &DeJsonState) -> bool
    ensures { result ≡ true → pending state.now ≡ comma }
{
    match state.tok {
        DeJsonTok::Comma => true,
        _ => false,
    }
}
