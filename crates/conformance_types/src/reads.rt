//! The outcome of an input as a value of one type, through the bounds of its formats. What a type
//! has of its own is one function for each way in and out: each is built once for each type.
//!
//! The bounds are a reader and a writer of each format. A bound that joins two, as `BothBin` does,
//! would be proved beside them for each type.

use crate::errors::{bin, code, json, json_code, not_a_text, ron, ron_code};
use crate::format::Format;
use crate::json_state::{json_begun, json_left, json_start};
use crate::outcome::Outcome;
use crate::ron_state::{ron_begun, ron_left, ron_start};
use nanoserde::{
    DeBin, DeBinErr, DeJson, DeJsonErr, DeJsonState, DeRon, DeRonErr, DeRonState, SerBin, SerJson,
    SerJsonState, SerRon, SerRonState, json_to_bin, normal_json, normal_ron, ron_to_bin,
};
use std::alloc::{AllocError, Global};
use std::str;

/// The outcome of an input in a format, of a type that has all three.
pub(crate) fn of_type<T: SerBin + DeBin + SerJson + DeJson + SerRon + DeRon>(
    alloc: Global,
    format: Format,
    input: &[u8],
) -> Result<Outcome, AllocError> {
    match format {
        Format::BinRon | Format::RonWrite => bytes_as_ron::<T>(alloc, format, input),
        Format::Ron | Format::RonWhole | Format::RonBin | Format::RonAgain | Format::RonState => {
            match str::from_utf8(input) {
                Ok(text) => of_ron::<T>(alloc, format, text),
                Err(_) => not_a_text(alloc),
            }
        }
        _ => of_bytes_and_json::<T>(alloc, format, input),
    }
}

/// The outcome of an input, of a type that has bytes and JSON.
pub(crate) fn of_bytes_and_json<T: SerBin + DeBin + SerJson + DeJson>(
    alloc: Global,
    format: Format,
    input: &[u8],
) -> Result<Outcome, AllocError> {
    match format {
        Format::Bin | Format::BinWhole | Format::BinAt => of_bytes::<T>(alloc, format, input),
        Format::BinJson | Format::JsonWrite => bytes_as_json::<T>(alloc, format, input),
        Format::JsonBin => match str::from_utf8(input) {
            Ok(text) => json_code(alloc, json_to_bin::<T>(alloc, text)),
            Err(_) => not_a_text(alloc),
        },
        _ => of_json_alone::<T>(alloc, format, input),
    }
}

/// The outcome of bytes.
pub(crate) fn of_bytes<T: SerBin + DeBin>(
    alloc: Global,
    format: Format,
    input: &[u8],
) -> Result<Outcome, AllocError> {
    if let Format::BinWhole = format {
        let read = code_of(alloc, T::deserialize_bin_whole(alloc, input))?;
        return bin(alloc, format, read, (0, 0));
    }
    let Some((start, bytes)) = split_offset(format, input) else {
        return Ok(Outcome::Unknown);
    };
    let mut offset = start;
    let read = code_of(alloc, T::de_bin(alloc, &mut offset, bytes))?;
    bin(alloc, format, read, (start, offset))
}

/// What is written of the value that was read, or the error.
fn code_of<T: SerBin + Drop>(
    alloc: Global,
    read: Result<T, DeBinErr>,
) -> Result<Result<Vec<u8>, DeBinErr>, AllocError> {
    match read {
        Ok(value) => Ok(Ok(value.serialize_bin(alloc)?)),
        Err(error) => Ok(Err(error)),
    }
}

/// The offset from which bytes are read, and the bytes: those after the space after it, where the
/// format has one.
fn split_offset(format: Format, input: &[u8]) -> Option<(usize, &[u8])> {
    match format {
        Format::Bin => Some((0, input)),
        Format::BinAt => offset_of(input),
        _ => None,
    }
}

/// The number that the bytes begin with, or the greatest where it is more, and those after the space
/// after it.
fn offset_of(input: &[u8]) -> Option<(usize, &[u8])> {
    let mut offset = 0usize;
    let mut rest = input;
    for byte in input {
        if let [_, after @ ..] = rest {
            rest = after;
        }
        match *byte {
            b' ' => return Some((offset, rest)),
            digit @ b'0'..=b'9' => {
                offset = offset
                    .saturating_mul(10)
                    .saturating_add(usize::from(digit - b'0'));
            }
            _ => return None,
        }
    }
    None
}

/// The JSON text of the value that bytes begin with: at level 0, or at the greatest.
fn bytes_as_json<T: DeBin + SerJson>(
    alloc: Global,
    format: Format,
    input: &[u8],
) -> Result<Outcome, AllocError> {
    let level = level_of(format);
    match T::deserialize_bin(alloc, input) {
        Ok(value) => {
            let mut state = SerJsonState {
                out: String::new(alloc),
            };
            value.ser_json(alloc, level, &mut state)?;
            Ok(Outcome::Text(state.out.into_bytes()))
        }
        Err(error) => code(alloc, error, 0),
    }
}

/// The RON text of the value that bytes begin with: at level 0, or at the greatest.
fn bytes_as_ron<T: DeBin + SerRon>(
    alloc: Global,
    format: Format,
    input: &[u8],
) -> Result<Outcome, AllocError> {
    let level = level_of(format);
    match T::deserialize_bin(alloc, input) {
        Ok(value) => {
            let mut state = SerRonState {
                out: String::new(alloc),
            };
            value.ser_ron(alloc, level, &mut state)?;
            Ok(Outcome::Text(state.out.into_bytes()))
        }
        Err(error) => code(alloc, error, 0),
    }
}

/// The level at which a format wants a text: the greatest where it asks what is written in a state.
fn level_of(format: Format) -> usize {
    match format {
        Format::JsonWrite | Format::RonWrite => usize::MAX,
        _ => 0,
    }
}

/// The outcome of an input, of a type that has JSON alone.
pub(crate) fn of_json_alone<T: SerJson + DeJson>(
    alloc: Global,
    format: Format,
    input: &[u8],
) -> Result<Outcome, AllocError> {
    match str::from_utf8(input) {
        Ok(text) => of_json::<T>(alloc, format, text),
        Err(_) => not_a_text(alloc),
    }
}

/// The outcome of a JSON text, in JSON.
fn of_json<T: SerJson + DeJson>(
    alloc: Global,
    format: Format,
    text: &str,
) -> Result<Outcome, AllocError> {
    match format {
        Format::Json => json(alloc, normal_json::<T>(alloc, text)),
        Format::JsonWhole => json(
            alloc,
            json_of(alloc, T::deserialize_json_whole(alloc, text)),
        ),
        Format::JsonAgain => json(alloc, json_again::<T>(alloc, text)),
        Format::JsonState => json_at::<T>(alloc, text),
        _ => Ok(Outcome::Unknown),
    }
}

/// What is written of the value that was read.
fn json_of<T: SerJson + Drop>(
    alloc: Global,
    read: Result<T, DeJsonErr>,
) -> Result<String, DeJsonErr> {
    match read {
        Ok(value) => match value.serialize_json(alloc) {
            Ok(text) => Ok(text),
            Err(_) => Err(DeJsonState::new(alloc).err_memory(alloc)),
        },
        Err(error) => Err(error),
    }
}

/// What is written of the value that is read second, whatever the first reading gave.
fn json_again<T: SerJson + DeJson>(alloc: Global, text: &str) -> Result<String, DeJsonErr> {
    let mut input = text.chars();
    let mut state = json_begun(alloc, &mut input);
    let _first = T::de_json(alloc, &mut state, &mut input);
    json_of(alloc, T::de_json(alloc, &mut state, &mut input))
}

/// What is read in a state, and the state afterwards.
fn json_at<T: SerJson + DeJson>(alloc: Global, text: &str) -> Result<Outcome, AllocError> {
    let mut state = DeJsonState::new(alloc);
    let Some(mut input) = json_start(&mut state, text)? else {
        return Ok(Outcome::Unknown);
    };
    let read = json_of(alloc, T::de_json(alloc, &mut state, &mut input));
    json_left(alloc, read, &state, &input)
}

/// The outcome of a RON text, in RON or in bytes.
fn of_ron<T: SerBin + DeBin + SerRon + DeRon>(
    alloc: Global,
    format: Format,
    text: &str,
) -> Result<Outcome, AllocError> {
    match format {
        Format::RonBin => ron_code(alloc, ron_to_bin::<T>(alloc, text)),
        Format::Ron => ron(alloc, normal_ron::<T>(alloc, text)),
        Format::RonWhole => ron(alloc, ron_of(alloc, T::deserialize_ron_whole(alloc, text))),
        Format::RonAgain => ron(alloc, ron_again::<T>(alloc, text)),
        Format::RonState => ron_at::<T>(alloc, text),
        _ => Ok(Outcome::Unknown),
    }
}

/// What is written of the value that was read.
fn ron_of<T: SerRon + Drop>(alloc: Global, read: Result<T, DeRonErr>) -> Result<String, DeRonErr> {
    match read {
        Ok(value) => match value.serialize_ron(alloc) {
            Ok(text) => Ok(text),
            Err(_) => Err(DeRonState::new(alloc).err_memory(alloc)),
        },
        Err(error) => Err(error),
    }
}

/// What is written of the value that is read second, whatever the first reading gave.
fn ron_again<T: SerRon + DeRon>(alloc: Global, text: &str) -> Result<String, DeRonErr> {
    let mut input = text.chars();
    let mut state = ron_begun(alloc, &mut input);
    let _first = T::de_ron(alloc, &mut state, &mut input);
    ron_of(alloc, T::de_ron(alloc, &mut state, &mut input))
}

/// What is read in a state, and the state afterwards.
fn ron_at<T: SerRon + DeRon>(alloc: Global, text: &str) -> Result<Outcome, AllocError> {
    let mut state = DeRonState::new(alloc);
    let Some(mut input) = ron_start(&mut state, text)? else {
        return Ok(Outcome::Unknown);
    };
    let read = ron_of(alloc, T::de_ron(alloc, &mut state, &mut input));
    ron_left(alloc, read, &state, &input)
}
