//! Streams of messages: what is written, what is taken in chunks of each size, and what a fault
//! leaves.

use crate::checks::{holds, is_so};
use crate::frame_source::{Sink, Source};
use nano_bin_frames::{Fault, Messages, laws, put};
use std::alloc::{AllocError, Global};
use std::io::ErrorKind;

const TWO: &[u8] = b"\x04\0\0\0\0\0\0\0\x07\0\0\0\x04\0\0\0\0\0\0\0\x08\x01\0\0";

/// The kind of the fault with which a message is put, if it is not written whole.
fn fault_of(alloc: Global, message: u32, output: &mut Sink) -> Option<ErrorKind> {
    match put(alloc, &message, output) {
        Ok(()) => None,
        Err(error) => Some(error.kind()),
    }
}

/// Whether messages in their frames are the bytes, one after the other.
fn are_written(alloc: Global) -> Result<bool, AllocError> {
    let mut output = Sink::new(alloc, 100, 0, None)?;
    let faults = (
        fault_of(alloc, 7, &mut output),
        fault_of(alloc, 264, &mut output),
    );
    Ok(faults == (None, None) && output.taken.as_slice() == TWO)
}

/// How the frame of a message of 200 bytes begins: its count, and then the message.
const LONG: &[u8] = b"\xC8\0\0\0\0\0\0\0\xC0\0\0\0\0\0\0\0\x07\x07";

/// Whether a message of 200 bytes has its count before it, and is written whole.
fn is_long_written(alloc: Global) -> Result<bool, AllocError> {
    let message: Vec<u8> = vec![in alloc; 7; 192]?;
    let mut output = Sink::new(alloc, 100, 0, None)?;
    let is_put = put(alloc, &message, &mut output).is_ok();
    Ok(is_put && output.taken.len() == 208 && output.taken.starts_with(LONG))
}

/// How many calls of that writer there are, and how many bytes it takes.
fn counts(fails_at: usize, reported: Option<ErrorKind>) -> (usize, usize) {
    match reported {
        None => (7, 12),
        Some(_kind) => (fails_at, fails_at.saturating_sub(1).saturating_mul(2)),
    }
}

/// Whether a message over a writer that takes two bytes a call, and fails so at one of its calls,
/// is written up to that call, which is the last, and the fault is of this kind; or, where none
/// is reported, is written whole in seven calls.
fn is_written_up_to(
    alloc: Global,
    fails_at: usize,
    kind: Option<ErrorKind>,
    reported: Option<ErrorKind>,
) -> Result<bool, AllocError> {
    let mut output = Sink::new(alloc, 2, fails_at, kind)?;
    let is_reported = fault_of(alloc, 7, &mut output) == reported;
    let (calls, taken) = counts(fails_at, reported);
    let are_counted = output.calls == calls && output.taken.len() == taken;
    Ok(is_reported && are_counted && TWO.starts_with(output.taken.as_slice()))
}

/// How a writer fails, and the fault that is reported then.
const FAILURES: &[(Option<ErrorKind>, Option<ErrorKind>)] = &[
    (Some(ErrorKind::BrokenPipe), Some(ErrorKind::BrokenPipe)),
    (None, Some(ErrorKind::WriteZero)),
    (Some(ErrorKind::Interrupted), None),
];

/// Whether a message is written up to each call at which the writer fails so.
fn is_written_up_to_each(
    alloc: Global,
    kind: Option<ErrorKind>,
    reported: Option<ErrorKind>,
) -> Result<bool, AllocError> {
    for fails_at in 1..=6 {
        if !is_written_up_to(alloc, fails_at, kind, reported)? {
            return Ok(false);
        }
    }
    Ok(true)
}

#[test]
fn messages_are_written(rt: HostRuntime) {
    let alloc = rt.alloc();
    is_so(&rt, are_written(alloc), "two");
    is_so(&rt, is_long_written(alloc), "200 bytes");
    for (kind, reported) in FAILURES {
        let is_written = is_written_up_to_each(alloc, *kind, *reported);
        is_so(&rt, is_written, "a failure");
    }
}

#[test]
fn frame_laws(_rt: HostRuntime) {
    laws::what_was_put_is_taken(&7u32);
    laws::frames_give_their_messages(&[7u32, 8]);
    laws::puts_append_frames();
    laws::one_frame_at_most();
}

/// Bytes, the messages that are taken from them, and the fault that is reported then, if any.
type Row = (&'static [u8], &'static [u32], &'static str);

const CUT: &str = "the stream ends within a message";

const ROWS: &[Row] = &[
    (b"", &[], ""),
    (TWO, &[7, 264], ""),
    (b"\x04", &[], CUT),
    (b"\x04\0\0\0\0\0\0\0\x07\0\0", &[], CUT),
    (b"\x04\0\0\0\0\0\0\0\x07\0\0\0\0", &[7], CUT),
    (b"\xff\xff\xff\xff\xff\xff\xff\xff\x07", &[], CUT),
    (
        b"\x29\0\0\0\0\0\0\0 a code of forty bytes; one more is due.",
        &[],
        CUT,
    ),
    (
        b"\0\0\0\x80\0\0\0\0 in place of two billion bytes, these few ones",
        &[],
        CUT,
    ),
    (
        b"\x03\0\0\0\0\0\0\0\x07\0\0",
        &[],
        "no message in a frame: Bin deserialize error at:0 wanted:4 bytes but max size is 3",
    ),
    (
        b"\x05\0\0\0\0\0\0\0\x07\0\0\0\0",
        &[],
        "no message in a frame: Bin deserialize error at:4 wanted:0 bytes but max size is 5",
    ),
];

/// What a stream gave.
#[derive(Drop)]
struct Given {
    /// The messages.
    messages: Vec<u32>,
    /// How many faults there were, and the last of them in words.
    faults: usize,
    text: String,
}

/// Takes the messages of a stream, up to its end or the fault after so many.
fn taken(
    alloc: Global,
    source: Source<'static>,
    chunk: usize,
    most: usize,
) -> Result<Given, AllocError> {
    let mut stream = Messages::new(alloc, source, chunk)?;
    let mut given = Given {
        messages: Vec::new(alloc),
        faults: 0,
        text: String::new(alloc),
    };
    for _ in 0..4 {
        match stream.next::<u32>(alloc) {
            Ok(Some(message)) => given.messages.push(message)?,
            Ok(None) => return Ok(given),
            Err(fault) => {
                given.faults = given.faults.saturating_add(1);
                given.text = format!(in alloc; "{fault}")?;
            }
        }
        if given.faults > most {
            return Ok(given);
        }
    }
    Ok(given)
}

/// Whether a row is taken so in chunks of this size, by a reader that gives at most so many bytes
/// a call.
fn is_taken(alloc: Global, row: Row, most: usize, chunk: usize) -> Result<bool, AllocError> {
    let given = taken(alloc, Source::new(row.0, most, 0), chunk, 0)?;
    Ok(given.messages.as_slice() == row.1 && given.text.as_str() == row.2)
}

/// Whether the reader's fault at one of its calls is reported once, and all messages are still
/// taken.
fn failed_read_loses_nothing(alloc: Global, fails_at: usize) -> Result<bool, AllocError> {
    let given = taken(alloc, Source::new(TWO, 5, fails_at), 7, 1)?;
    Ok(given.messages.as_slice() == [7u32, 264].as_slice() && given.faults == 1)
}

/// Whether a row is taken so in chunks of each size, however many bytes the reader gives a call.
fn is_taken_in_each(alloc: Global, row: Row) -> Result<bool, AllocError> {
    for chunk in 0..14 {
        let is_taken = is_taken(alloc, row, 1, chunk)?
            && is_taken(alloc, row, 5, chunk)?
            && is_taken(alloc, row, 100, chunk)?;
        if !is_taken {
            return Ok(false);
        }
    }
    Ok(true)
}

#[test]
fn streams_are_taken_in_chunks(rt: HostRuntime) {
    for row in ROWS {
        is_so(&rt, is_taken_in_each(rt.alloc(), *row), row.2);
    }
}

/// Whether a frame that holds no `u32` is reported as bad, and then taken as a `u8`.
fn bad_frame_unchanged(alloc: Global) -> Result<bool, Fault> {
    let bytes = b"\x01\0\0\0\0\0\0\0\x07";
    let Ok(mut messages) = Messages::new(alloc, Source::new(bytes, 100, 0), 4) else {
        return Ok(false);
    };
    let Err(Fault::Bad(_)) = messages.next::<u32>(alloc) else {
        return Ok(false);
    };
    Ok(messages.next::<u8>(alloc)? == Some(7))
}

#[test]
fn streams_fail(rt: HostRuntime) {
    let alloc = rt.alloc();
    for fails_at in 1..=6 {
        is_so(&rt, failed_read_loses_nothing(alloc, fails_at), "a failure");
    }
    holds(&rt, bad_frame_unchanged(alloc).unwrap_or(false), "bad");
}
