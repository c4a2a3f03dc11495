//! The line of the normal form of an input that is one value and nothing else.

ghost use Rattle.nano_show_answers.specs.Answer.{AnswersInput, IsTextLine, IsBytesLine};
ghost use Rattle.nano_show_answers.specs.Requests.{WholeBytes, WholeJson, WholeRon};

use crate::fault::ShowFault;
use crate::pairs::hex_line;
use crate::texts::{end_line, text};
use nanoserde::{BothBin, BothJson, BothRon, DeBinKind};
use std::alloc::Global;
use std::fmt::Display;

/// The normal form of the value that a whole JSON text is.
pub(crate) fn whole_json_line<T: BothJson>(
    alloc: Global,
    input: &[u8],
) -> Result<Vec<u8>, ShowFault>
    ensures { AnswersInput (IsTextLine (WholeJson T.means T.json)) input.now result }
{
    match T::deserialize_json_whole(alloc, text(alloc, input)?) {
        Ok(value) => Ok(end_line(value.serialize_json(alloc)?)?),
        Err(error) if error.memory => Err(ShowFault::Memory),
        Err(error) => Err(ShowFault::Refused(error.to_string(alloc)?)),
    }
}

/// The normal form of the value that a whole RON text is.
pub(crate) fn whole_ron_line<T: BothRon>(alloc: Global, input: &[u8]) -> Result<Vec<u8>, ShowFault>
    ensures { AnswersInput (IsTextLine (WholeRon T.means T.ron)) input.now result }
{
    match T::deserialize_ron_whole(alloc, text(alloc, input)?) {
        Ok(value) => Ok(end_line(value.serialize_ron(alloc)?)?),
        Err(error) if error.memory => Err(ShowFault::Memory),
        Err(error) => Err(ShowFault::Refused(error.to_string(alloc)?)),
    }
}

/// The normal form of the value that all the bytes are, in pairs.
pub(crate) fn whole_bin_line<T: BothBin>(alloc: Global, input: &[u8]) -> Result<Vec<u8>, ShowFault>
    ensures { AnswersInput (IsBytesLine (WholeBytes T.means T.bin)) input.now result }
{
    match T::deserialize_bin_whole(alloc, input) {
        Ok(value) => Ok(hex_line(alloc, &value.serialize_bin(alloc)?)?),
        Err(error) => match error.kind {
            DeBinKind::Memory => Err(ShowFault::Memory),
            _ => Err(ShowFault::Refused(error.to_string(alloc)?)),
        },
    }
}
