//! The line of a normal form.

ghost use Rattle.nanoserde.specs.Normal.{NormalBytes, NormalJson, NormalRon};
ghost use Rattle.nano_show_answers.specs.Answer.{AnswersInput, Answers, IsNormalLine, IsTextLine};
ghost use Rattle.nano_show_answers.specs.Answer.{IsBytesLine};
ghost use Rattle.nano_show_answers.specs.Requests.{normal_of_input};

use crate::fault::ShowFault;
use crate::pairs::hex_line;
use crate::shown::{Named, Show, Types};
use crate::texts::{end_line, text};
use crate::whole_inputs::{whole_bin_line, whole_json_line, whole_ron_line};
use crate::words::{Form, Kind};
use nanoserde::records::{Choice, Item};
use nanoserde::{BothBin, BothJson, BothRon, DeBinKind, normal_bin, normal_json, normal_ron};
use std::alloc::Global;
use std::collections::{BTreeMap, HashMap, HashSet};
use std::fmt::Display;

/// The normal form of the input of this type in this format, with a line feed after it.
pub(crate) fn normal_line(
    alloc: Global,
    form: Form,
    kind: Kind,
    input: &[u8],
) -> Result<Vec<u8>, ShowFault>
    ensures { AnswersInput (Answers ⟦<Types as Named>⟧.types (normal_of_input form kind))
        input.now result }
{
    match kind {
        Kind::U8 => line_of::<u8>(alloc, form, input),
        Kind::U32 => line_of::<u32>(alloc, form, input),
        Kind::U64 => line_of::<u64>(alloc, form, input),
        Kind::I32 => line_of::<i32>(alloc, form, input),
        Kind::I64 => line_of::<i64>(alloc, form, input),
        Kind::Bool => line_of::<bool>(alloc, form, input),
        Kind::Text => line_of::<String>(alloc, form, input),
        Kind::Bytes => line_of::<Vec<u8>>(alloc, form, input),
        Kind::Set => line_of::<HashSet<i32>>(alloc, form, input),
        Kind::Map => line_of::<HashMap<String, i32>>(alloc, form, input),
        Kind::Tree => line_of::<BTreeMap<String, i32>>(alloc, form, input),
        Kind::Item => line_of::<Item>(alloc, form, input),
        Kind::Choice => line_of::<Choice>(alloc, form, input),
    }
}

/// The line in each format.
fn line_of<T: BothBin + BothJson + BothRon>(
    alloc: Global,
    form: Form,
    input: &[u8],
) -> Result<Vec<u8>, ShowFault>
    ensures { AnswersInput (IsNormalLine form ⟦<T as Show>⟧.shown) input.now result }
{
    match form {
        Form::Json => json_line::<T>(alloc, input),
        Form::Ron => ron_line::<T>(alloc, input),
        Form::Bin => bin_line::<T>(alloc, input),
        Form::JsonWhole => whole_json_line::<T>(alloc, input),
        Form::RonWhole => whole_ron_line::<T>(alloc, input),
        Form::BinWhole => whole_bin_line::<T>(alloc, input),
    }
}

/// The normal form of the value that a JSON text begins with.
fn json_line<T: BothJson>(alloc: Global, input: &[u8]) -> Result<Vec<u8>, ShowFault>
    ensures { AnswersInput (IsTextLine (NormalJson T.means T.json)) input.now result }
{
    match normal_json::<T>(alloc, text(alloc, input)?) {
        Ok(normal) => Ok(end_line(normal)?),
        Err(error) if error.memory => Err(ShowFault::Memory),
        Err(error) => Err(ShowFault::Refused(error.to_string(alloc)?)),
    }
}

/// The normal form of the value that a RON text begins with.
fn ron_line<T: BothRon>(alloc: Global, input: &[u8]) -> Result<Vec<u8>, ShowFault>
    ensures { AnswersInput (IsTextLine (NormalRon T.means T.ron)) input.now result }
{
    match normal_ron::<T>(alloc, text(alloc, input)?) {
        Ok(normal) => Ok(end_line(normal)?),
        Err(error) if error.memory => Err(ShowFault::Memory),
        Err(error) => Err(ShowFault::Refused(error.to_string(alloc)?)),
    }
}

/// The normal form of the value that the bytes begin with, in pairs.
fn bin_line<T: BothBin>(alloc: Global, input: &[u8]) -> Result<Vec<u8>, ShowFault>
    ensures { AnswersInput (IsBytesLine (NormalBytes T.means T.bin)) input.now result }
{
    match normal_bin::<T>(alloc, input) {
        Ok(normal) => Ok(hex_line(alloc, &normal)?),
        Err(error) => match error.kind {
            DeBinKind::Memory => Err(ShowFault::Memory),
            _ => Err(ShowFault::Refused(error.to_string(alloc)?)),
        },
    }
}
