//! One line, read as a value.

ghost use Rattle.std.specs.Prelude.{◌≡◌, ◌↔◌, true, IfOk, IfErr, IsTrue, string_bytes};
ghost use Rattle.nano_text.specs.Characters.{is_space};
ghost use Rattle.nano_lines.specs.Faults.{IsOfStream};
ghost use Rattle.nano_lines.specs.Lines.{IsBlank};
ghost use Rattle.nano_lines.specs.Reads.{IsRead, IsRejected};

use crate::error::{Fault, no_memory};
use nano_json::DeJson;
use nano_json_tokens::DeJsonErr;
use std::alloc::Global;
use std::str;

/// What a line holds.
#[derive(Drop)]
pub(crate) enum Line<T> {
    /// White space alone.
    Blank,
    /// A value.
    Value(T),
    /// No value, for this reason; and its text.
    Bad(DeJsonErr, String),
    /// No text.
    NotUtf8,
}

/// What this line holds, which is the one of this number. It returns an error only if memory
/// ran out.
pub(crate) fn read_line<T: DeJson>(
    alloc: Global,
    bytes: &[u8],
    number: usize,
) -> Result<Line<T>, Fault>
    ensures ok { IfOk result (IsRead T.json.encoding.encodes T.means bytes.now number) }
    ensures err { IfErr result IsOfStream }
{
    if is_blank(bytes) {
        return Ok(Line::Blank);
    }
    let Ok(text) = str::from_utf8(bytes) else {
        return Ok(Line::NotUtf8);
    };
    match T::deserialize_json_whole(alloc, text) {
        Ok(value) => Ok(Line::Value(value)),
        Err(error) => Ok(Line::Bad(rejection(error, number)?, copied(alloc, text)?)),
    }
}

/// The error of a line, with the line's number; or out of memory.
fn rejection(error: DeJsonErr, number: usize) -> Result<DeJsonErr, Fault>
    ensures ok { IfOk result (IsRejected error number) }
    ensures err { IfErr result IsOfStream }
{
    if error.memory {
        return Err(no_memory());
    }
    Ok(DeJsonErr {
        line: number,
        ..error
    })
}

/// A copy of a line's text; or out of memory.
fn copied(alloc: Global, text: &str) -> Result<String, Fault>
    ensures ok { IfOk result (λ copy. string_bytes copy ≡ text.now) }
    ensures err { IfErr result IsOfStream }
{
    match String::from_str(alloc, text) {
        Ok(copy) => Ok(copy),
        Err(_full) => Err(no_memory()),
    }
}

/// Whether the bytes are white space alone.
fn is_blank(bytes: &[u8]) -> bool
    ensures { IsTrue result ↔ IsBlank bytes.now }
{
    'bytes: for byte in bytes {
        if !is_white_space(*byte) {
            return false;
        }
    }
    true
}

/// Whether JSON skips the byte.
fn is_white_space(byte: u8) -> bool
    ensures { result ≡ is_space byte }
{
    matches!(byte, b'\n' | b'\r' | b'\t' | b' ')
}
