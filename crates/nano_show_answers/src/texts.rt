//! The input as a text, and a text as the line that is written.

ghost use Rattle.std.specs.Prelude.{◌≡◌, IfOk, MatchResult, IsUtf8, string_bytes};
ghost use Rattle.nano_show_answers.specs.Answer.{IsFaultOf};
ghost use Rattle.nano_show_answers.specs.Listing.{line};

use crate::fault::ShowFault;
use std::alloc::{AllocError, Global};
use std::str;

/// The input as a text.
pub(crate) fn text(alloc: Global, input: &[u8]) -> Result<&str, ShowFault>
    ensures { MatchResult result
        (λ text. (text.now ≡ input.now) × IsUtf8 input.now)
        (IsFaultOf (IsUtf8 input.now → ⊥)) }
{
    match str::from_utf8(input) {
        Ok(text) => Ok(text),
        Err(_) => Err(ShowFault::Refused(String::from_str(alloc, "not UTF-8")?)),
    }
}

/// The text with a line feed after it, as bytes.
pub(crate) fn end_line(text: String) -> Result<Vec<u8>, AllocError>
    ensures { IfOk result (λ answer. answer.items ≡ line (string_bytes text)) }
{
    let mut bytes = text.into_bytes();
    bytes.push(b'\n')?;
    Ok(bytes)
}
