//! The variants of enums, read: a name, and between braces a name with its content.
//!
//! On an error, a reader here may leave the state at any position, unless it says where.

ghost use Rattle.std.specs.Prelude.{◌∷◌, [], string_bytes};
ghost use Rattle.nano_grammar.specs.Faults.{AreTokens};
ghost use Rattle.nano_json.specs.Outcomes.{position, ReadsOrEnds};
ghost use Rattle.nano_json.specs.Token.{str, colon, curly_close};
ghost use Rattle.nano_json_schema.specs.Reading.{EncodesFields, Closed, name_tokens};
ghost use Rattle.nano_json_schema.specs.Reading.{VariantBegins, AloneName, OpenedName, AKey};
ghost use Rattle.nano_json_schema.specs.Outcomes.{TakesTokens, TakesTokensOrEnds, GivesUnknown};

use crate::fields::JsonFields;
use crate::read::read_fields;
use nano_json::{DeJson, DeJsonErr, DeJsonState, DeJsonTok, end_on_error};
use std::alloc::Global;
use std::str::Chars;

/// The name of a variant, and how it stood.
#[derive(Drop)]
pub enum VariantName {
    /// A name alone, as of a variant without content: `"Name"`.
    Unit(String),
    /// The name of a variant with content, which comes after it: `{"Name":`.
    Content(String),
}

/// Takes the name that the value of an enum begins with: a string, or `{`, a string and a
/// colon. The token after it is pending then, which is the first of the content.
///
/// Where a token other than a string or `{` is pending, it is rejected with
/// `Unexpected token {token} expected String or { `. Every error leaves the state at the end of
/// the text.
pub fn read_variant_name(
    alloc: Global,
    state: &mut DeJsonState,
    input: &mut Chars<'_>,
) -> Result<VariantName, DeJsonErr>
    ensures { TakesTokensOrEnds name_tokens VariantBegins
        (position state.old input.old) (position state.new input.new) result }
{
    let read = read_name(alloc, state, input);
    end_on_error(state, read)
}

/// Takes the name that the value of an enum begins with.
fn read_name(
    alloc: Global,
    state: &mut DeJsonState,
    input: &mut Chars<'_>,
) -> Result<VariantName, DeJsonErr>
    ensures { TakesTokens name_tokens VariantBegins
        (position state.old input.old) (position state.new input.new) result }
{
    match state.tok {
        DeJsonTok::Str => read_alone(alloc, state, input),
        DeJsonTok::CurlyOpen => read_opened(alloc, state, input),
        _ => Err(state.err_token(alloc, "String or {")),
    }
}

/// Takes the pending string.
fn read_alone(
    alloc: Global,
    state: &mut DeJsonState,
    input: &mut Chars<'_>,
) -> Result<VariantName, DeJsonErr>
    ensures { TakesTokens name_tokens AloneName
        (position state.old input.old) (position state.new input.new) result }
{
    let name = state.as_string(alloc)?;
    state.next_tok(alloc, input)?;
    Ok(VariantName::Unit(name))
}

/// Takes the pending `{`, a string and a colon.
fn read_opened(
    alloc: Global,
    state: &mut DeJsonState,
    input: &mut Chars<'_>,
) -> Result<VariantName, DeJsonErr>
    ensures { TakesTokens name_tokens OpenedName
        (position state.old input.old) (position state.new input.new) result }
{
    state.curly_open(alloc, input)?;
    let name = read_key(alloc, state, input)?;
    Ok(VariantName::Content(name))
}

/// Takes a string and a colon.
fn read_key(
    alloc: Global,
    state: &mut DeJsonState,
    input: &mut Chars<'_>,
) -> Result<String, DeJsonErr>
    ensures { TakesTokens (λ name. str (string_bytes name) ∷ (colon ∷ []))
        AKey
        (position state.old input.old) (position state.new input.new) result }
{
    if state.next_str().is_none() {
        return Err(state.err_token(alloc, "String"));
    }
    let name = state.as_string(alloc)?;
    state.next_colon(alloc, input)?;
    Ok(name)
}

/// Reads the content of a variant and the `}` after it, where its name is taken.
///
/// An error other than out of memory says that no content with a `}` after it is encoded there,
/// with one more token or the end after that. Every error leaves the state at the end of the
/// text.
pub fn read_content<T: DeJson>(
    alloc: Global,
    state: &mut DeJsonState,
    input: &mut Chars<'_>,
) -> Result<T, DeJsonErr>
    ensures { ReadsOrEnds (Closed T.json.encoding.encodes) T.means
        (position state.old input.old) (position state.new input.new) result }
{
    let content = T::de_json(alloc, state, input)?;
    close_content(alloc, state, input)?;
    Ok(content)
}

/// Reads named fields, as the content of a variant whose name is taken, and the `}` after them.
///
/// An error other than out of memory says that no such fields with a `}` after them stand
/// there, with one more token or the end after that. Every error leaves the state at the end of
/// the text.
pub fn read_fields_content<F: JsonFields>(
    alloc: Global,
    state: &mut DeJsonState,
    input: &mut Chars<'_>,
) -> Result<F::Values, DeJsonErr>
    ensures { ReadsOrEnds (Closed (EncodesFields F.codec.struct.shape)) F.codec.canonical.means
        (position state.old input.old) (position state.new input.new) result }
{
    let values = read_fields::<F>(alloc, state, input)?;
    match close_content(alloc, state, input) {
        Ok(()) => Ok(values),
        Err(error) => {
            F::discard_values(values);
            Err(error)
        }
    }
}

/// Takes the `}` after the content of a variant. Every error leaves the state at the end of the
/// text.
fn close_content(
    alloc: Global,
    state: &mut DeJsonState,
    input: &mut Chars<'_>,
) -> Result<(), DeJsonErr>
    ensures { TakesTokensOrEnds (λ _. curly_close ∷ [])
        (AreTokens (curly_close ∷ []))
        (position state.old input.old) (position state.new input.new) result }
{
    let closed = state.curly_close(alloc, input);
    end_on_error(state, closed)
}

/// The error for a name that no variant has: `Enum not defined {name}`. It leaves the state at
/// the end of the text.
#[cold]
#[inline(never)]
pub fn unknown_variant(alloc: Global, state: &mut DeJsonState, name: &str) -> DeJsonErr
    ensures { GivesUnknown state.old state.new name.now result }
{
    let error = state.err_enum(alloc, name);
    state.fail();
    error
}
