//! The variants of enums, read: a name, with content directly after it or without.
//!
//! On an error, a reader here may leave the state at any position, unless it says where.

ghost use Rattle.std.specs.Prelude.{string_bytes};
ghost use Rattle.nano_ron.specs.Outcomes.{position, ReadsOrEnds};
ghost use Rattle.nano_ron.specs.State.{pending};
ghost use Rattle.nano_ron.specs.Token.{IsIdent};
ghost use Rattle.nano_ron_schema.specs.Reading.{EncodesFields, Closed, VariantBegins};
ghost use Rattle.nano_ron_schema.specs.Outcomes.{GivesWord, TakesTokens, TakesTokensOrEnds};
ghost use Rattle.nano_ron_schema.specs.Outcomes.{GivesUnknown};
ghost use Rattle.nano_ron_schema.specs.Variants.{named};

use crate::fields::RonFields;
use crate::read::read_fields;
use nano_ron::{DeRon, DeRonErr, DeRonState, DeRonTok, end_on_error};
use std::alloc::Global;
use std::str::Chars;

/// Takes the name that the value of an enum begins with. The token after it is pending then,
/// which is the first of the content if the variant has content.
///
/// If a token other than a word is pending, the error is
/// `Unexpected token {token} expected Identifier `. Every error leaves the state at the end of
/// the text.
pub fn read_variant_name(
    alloc: Global,
    state: &mut DeRonState,
    input: &mut Chars<'_>,
) -> Result<String, DeRonErr>
    ensures { TakesTokensOrEnds (λ name. named (string_bytes name))
        VariantBegins
        (position state.old input.old) (position state.new input.new) result }
{
    let read = read_name(alloc, state, input);
    end_on_error(state, read)
}

/// Takes the pending word.
fn read_name(
    alloc: Global,
    state: &mut DeRonState,
    input: &mut Chars<'_>,
) -> Result<String, DeRonErr>
    ensures { TakesTokens (λ name. named (string_bytes name))
        VariantBegins
        (position state.old input.old) (position state.new input.new) result }
{
    let name = pending_word(alloc, state)?;
    state.next_tok(alloc, input)?;
    Ok(name)
}

/// The text of the pending word.
fn pending_word(alloc: Global, state: &DeRonState) -> Result<String, DeRonErr>
    ensures { GivesWord state.now result }
{
    match state.tok {
        DeRonTok::Ident => copied_word(alloc, state),
        _ => Err(state.err_token(alloc, "Identifier")),
    }
}

/// The text of `identbuf`, where a word is pending.
fn copied_word(alloc: Global, state: &DeRonState) -> Result<String, DeRonErr>
    requires { IsIdent (pending state.now) }
    ensures { GivesWord state.now result }
{
    match String::from_str(alloc, state.identbuf.as_str()) {
        Ok(name) => Ok(name),
        Err(_rejected) => Err(state.err_memory(alloc)),
    }
}

/// Reads the content of a variant, where its name is taken.
///
/// An error other than out of memory says that no content is encoded there, with one more token or
/// the end after it. Every error leaves the state at the end of the text.
pub fn read_content<T: DeRon>(
    alloc: Global,
    state: &mut DeRonState,
    input: &mut Chars<'_>,
) -> Result<T, DeRonErr>
    ensures { ReadsOrEnds (Closed T.ron.encoding.encodes) T.means
        (position state.old input.old) (position state.new input.new) result }
{
    T::de_ron(alloc, state, input)
}

/// Reads named fields, as the content of a variant whose name is taken.
///
/// An error other than out of memory says that no such fields stand there, with one more token or
/// the end after them. Every error leaves the state at the end of the text.
pub fn read_fields_content<F: RonFields>(
    alloc: Global,
    state: &mut DeRonState,
    input: &mut Chars<'_>,
) -> Result<F::Values, DeRonErr>
    ensures { ReadsOrEnds (Closed (EncodesFields F.codec.struct.shape)) F.codec.canonical.means
        (position state.old input.old) (position state.new input.new) result }
{
    read_fields::<F>(alloc, state, input)
}

/// The error for a name that no variant has: `Enum not defined {name}`. It leaves the state at
/// the end of the text.
#[cold]
#[inline(never)]
pub fn unknown_variant(alloc: Global, state: &mut DeRonState, name: &str) -> DeRonErr
    ensures { GivesUnknown state.old state.new name.now result }
{
    let error = state.err_enum(alloc, name);
    state.fail();
    error
}
