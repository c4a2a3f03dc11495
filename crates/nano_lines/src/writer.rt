//! Values written, each as a line.

ghost use Rattle.std.specs.Prelude.{IfOk, IfErr, OnOk};
ghost use Rattle.std.specs.Io.KnownBytes.{Appends};
ghost use Rattle.nano_lines.specs.Writes.{AppendsLine, IsLineText, PutFails, IsNotMade};
ghost use Rattle.nano_lines.specs.Writes.{WriteStops};

use crate::error::Fault;
use memchr::memchr;
use nano_json::SerJson;
use std::alloc::Global;
use std::io::{self, ErrorKind, Write};

/// Writes a value as a line, after those that were written: its normal form, and a line feed.
///
/// # Errors
///
/// `Feed` reports that the normal form has a line feed in it, which that of no type of this
/// library has, nor of a type with a derived writer; nothing is written then. `Stream` carries
/// the writer's error, or `WriteZero` for a write that takes nothing, or out of memory, or
/// `TimedOut` after 2^64 - 1 writes; a write that was interrupted is tried again. After it a
/// proper prefix of the line is written, and nothing else.
///
/// # Examples
///
/// ```
/// Ok(Some(entry)) => put(alloc, &entry, &mut output)?,
/// ```
pub fn put<T: SerJson, W: Write>(alloc: Global, value: &T, output: &mut W) -> Result<(), Fault>
    ensures ok { OnOk result (AppendsLine (T.json.canonical.text 0 value.now)
        (W.contents output.old) (W.contents output.new)) }
    ensures err { IfErr result (PutFails (T.json.canonical.text 0 value.now)
        (W.contents output.old) (W.contents output.new)) }
{
    let line = line_of_value(alloc, value)?;
    match write_whole(output, line.as_bytes()) {
        Ok(()) => Ok(()),
        Err(error) => Err(Fault::Stream(error)),
    }
}

/// The line of a value, with its line feed.
fn line_of_value<T: SerJson>(alloc: Global, value: &T) -> Result<String, Fault>
    ensures ok { IfOk result (IsLineText (T.json.canonical.text 0 value.now)) }
    ensures err { IfErr result (IsNotMade (T.json.canonical.text 0 value.now)) }
{
    let Ok(mut text) = value.serialize_json(alloc) else {
        return Err(Fault::Stream(ErrorKind::OutOfMemory.into()));
    };
    if memchr(b'\n', text.as_bytes()).is_some() {
        return Err(Fault::Feed);
    }
    match text.push('\n') {
        Ok(()) => Ok(text),
        Err(_full) => Err(Fault::Stream(ErrorKind::OutOfMemory.into())),
    }
}

/// Writes all of the bytes, in as many writes as it takes. After an error a proper prefix of them
/// was written.
fn write_whole<W: Write>(output: &mut W, bytes: &[u8]) -> io::Result<()>
    ensures ok { OnOk result
        (Appends (W.contents output.old) (W.contents output.new) bytes.now) }
    ensures err { IfErr result
        (WriteStops bytes.now (W.contents output.old) (W.contents output.new)) }
{
    let mut rest = bytes;

    // Each write may be interrupted anew, so the tries are counted.
    'writes: for _ in 0..u64::MAX {
        if rest.is_empty() {
            return Ok(());
        }
        match output.write(rest) {
            Ok(0) => return Err(ErrorKind::WriteZero.into()),
            Ok(count) => rest = &rest[count..],
            Err(error) => {
                if error.kind() != ErrorKind::Interrupted {
                    return Err(error);
                }
            }
        }
    }
    if rest.is_empty() {
        return Ok(());
    }
    Err(ErrorKind::TimedOut.into())
}
