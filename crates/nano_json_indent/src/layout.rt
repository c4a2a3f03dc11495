//! The tokens of a text, written with indentation.

ghost use Rattle.std.specs.Prelude.{◌≡◌, ◌≢◌, List, OnOk, IfOk, string_bytes, encode_utf8_all};
ghost use Rattle.std.specs.Prelude.{true, false};
ghost use Rattle.nano_text.specs.Outcomes.{Appends};
ghost use Rattle.nano_json_tokens.specs.Token.{Token, end};
ghost use Rattle.nano_json_tokens.specs.State.{at, pending};
ghost use Rattle.nano_json_tokens.specs.Cut.{Cut};
ghost use Rattle.nano_document.specs.Indented.{line};
ghost use Rattle.nano_json_indent.specs.Layout.{AreTokensOf, gap, indented, token_text};

use crate::kind::Kind;
use nano_json::SerJson;
use nano_json_tokens::{DeJsonState, DeJsonTok, append_string};
use nano_text::append_unsigned;
use std::alloc::{AllocError, Global};
use std::str::Chars;

/// Returns the value as a text with indentation: each item and each field on a line of its own, two
/// spaces to a level. Between the brackets of an empty list or object is nothing.
///
/// # Errors
///
/// Out of memory alone.
///
/// # Examples
///
/// ```
/// let lines = serialize_json_indented(alloc, &ages)?;
/// ```
pub fn serialize_json_indented<T: SerJson>(alloc: Global, value: &T) -> Result<String, AllocError>
    ensures { IfOk result (λ text. string_bytes text
        ≡ encode_utf8_all (indented (T.json.canonical.tokens value.now))) }
{
    value.known();
    let text = value.serialize_json(alloc)?;
    indent(alloc, &text)
}

/// The tokens of a text, with indentation.
fn indent(alloc: Global, text: &str) -> Result<String, AllocError>
    ensures { (ts : List Token) → AreTokensOf text.now ts
        → IfOk result (λ out. string_bytes out ≡ encode_utf8_all (indented ts)) }
{
    let mut state = DeJsonState::new(alloc);
    let mut input = text.chars();
    state.next(&mut input);
    let mut out = String::new(alloc);
    let mut level = 0;
    let mut before = Kind::Start;
    take(alloc, &mut state, &mut input)?;
    'tokens: while !is_end(&state) {
        let kind = Kind::of(&state.tok);
        append_gap(&mut out, level, before, kind)?;
        append_token(&mut out, &state)?;
        level = kind.level_after(level);
        before = kind;
        take(alloc, &mut state, &mut input)?;
    }
    Ok(out)
}

/// Takes the next token of a text that has one.
fn take(alloc: Global, state: &mut DeJsonState, input: &mut Chars<'_>) -> Result<(), AllocError>
    ensures { OnOk result (Cut (at state.old input.old).text
        (pending state.new) (at state.new input.new).text) }
{
    match state.next_tok(alloc, input) {
        Ok(()) => Ok(()),
        Err(_) => Err(AllocError),
    }
}

/// Whether the end of the text is pending.
fn is_end(state: &DeJsonState) -> bool
    ensures ended { result ≡ true → pending state.now ≡ end }
    ensures more { result ≡ false → pending state.now ≢ end }
{
    match state.tok {
        DeJsonTok::Eof => true,
        _ => false,
    }
}

/// Appends what stands between two tokens, from the level after the first.
fn append_gap(out: &mut String, level: usize, before: Kind, kind: Kind) -> Result<(), AllocError>
    ensures { OnOk result (Appends out.old out.new (gap level before kind)) }
{
    match (before, kind) {
        (Kind::Start, _) | (_, Kind::Comma) | (_, Kind::Colon) => Ok(()),
        (Kind::Opening, Kind::Closing) => Ok(()),
        (_, Kind::Closing) => append_line(out, level.saturating_sub(1)),
        (Kind::Opening, _) | (Kind::Comma, _) => append_line(out, level),
        _ => out.push(' '),
    }
}

/// Appends the beginning of a line of a level.
fn append_line(out: &mut String, level: usize) -> Result<(), AllocError>
    ensures { OnOk result (Appends out.old out.new (line level)) }
{
    out.push('\n')?;
    for _level in 0..level {
        out.push_str("  ")?;
    }
    Ok(())
}

/// Appends the pending token.
fn append_token(out: &mut String, state: &DeJsonState) -> Result<(), AllocError>
    ensures { OnOk result (Appends out.old out.new (token_text (pending state.now))) }
{
    match state.tok {
        DeJsonTok::Str => append_string(out, &state.strbuf),
        DeJsonTok::U64(number) => append_unsigned(out, number),
        DeJsonTok::I64(number) => {
            out.push('-')?;
            append_unsigned(out, number.unsigned_abs())
        }
        DeJsonTok::F64 => out.push_str(&state.numbuf),
        DeJsonTok::Bool(truth) => out.push_str(if truth { "true" } else { "false" }),
        DeJsonTok::Null => out.push_str("null"),
        DeJsonTok::Colon => out.push(':'),
        DeJsonTok::Comma => out.push(','),
        DeJsonTok::BlockOpen => out.push('['),
        DeJsonTok::BlockClose => out.push(']'),
        DeJsonTok::CurlyOpen => out.push('{'),
        DeJsonTok::CurlyClose => out.push('}'),
        _ => Ok(()),
    }
}
