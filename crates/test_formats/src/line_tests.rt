//! Streams of lines: what is written, what is taken with each limit, and what a fault leaves.

use crate::checks::{holds, is_so};
use crate::frame_source::{Sink, Source};
use nano_lines::{Fault, Lines, laws, put};
use std::alloc::{AllocError, Global};
use std::io::{self, ErrorKind, Read};

const TWO: &[u8] = b"[7,8]\n[]\n";

/// The kind of the fault with which a value is put, if it is not written whole.
fn fault_of(alloc: Global, value: &Vec<u8>, output: &mut Sink) -> Option<ErrorKind> {
    match put(alloc, value, output) {
        Ok(()) => None,
        Err(Fault::Stream(error)) => Some(error.kind()),
        Err(_other) => Some(ErrorKind::InvalidData),
    }
}

/// Whether two lists are written as the bytes, one after the other.
fn are_written(alloc: Global) -> Result<bool, AllocError> {
    let mut output = Sink::new(alloc, 100, 0, None)?;
    let faults = (
        fault_of(alloc, &vec![in alloc; 7, 8]?, &mut output),
        fault_of(alloc, &Vec::new(alloc), &mut output),
    );
    Ok(faults == (None, None) && output.taken.as_slice() == TWO)
}

/// Whether a list over a writer that takes two bytes a call, and fails so at one of its calls, is
/// written up to that call, which is the last, and the fault is of this kind; or, where none is
/// reported, is written whole in four calls.
fn is_written_up_to(
    alloc: Global,
    fails_at: usize,
    kind: Option<ErrorKind>,
    reported: Option<ErrorKind>,
) -> Result<bool, AllocError> {
    let mut output = Sink::new(alloc, 2, fails_at, kind)?;
    let is_reported = fault_of(alloc, &vec![in alloc; 7, 8]?, &mut output) == reported;
    let (calls, taken) = match reported {
        None => (4, 6),
        Some(_kind) => (fails_at, fails_at.saturating_sub(1).saturating_mul(2)),
    };
    let are_counted = output.calls == calls && output.taken.len() == taken;
    Ok(is_reported && are_counted && TWO.starts_with(output.taken.as_slice()))
}

/// How a writer fails, and the fault that is reported then.
const FAILURES: &[(Option<ErrorKind>, Option<ErrorKind>)] = &[
    (Some(ErrorKind::BrokenPipe), Some(ErrorKind::BrokenPipe)),
    (None, Some(ErrorKind::WriteZero)),
    (Some(ErrorKind::Interrupted), None),
];

/// Whether a list is written up to each call at which the writer fails so.
fn is_written_up_to_each(
    alloc: Global,
    kind: Option<ErrorKind>,
    reported: Option<ErrorKind>,
) -> Result<bool, AllocError> {
    for fails_at in 1..=3 {
        if !is_written_up_to(alloc, fails_at, kind, reported)? {
            return Ok(false);
        }
    }
    Ok(true)
}

#[test]
fn lines_are_written(rt: HostRuntime) {
    let alloc = rt.alloc();
    is_so(&rt, are_written(alloc), "two");
    for (kind, reported) in FAILURES {
        is_so(
            &rt,
            is_written_up_to_each(alloc, *kind, *reported),
            "a failure",
        );
    }
}

#[test]
fn line_laws(_rt: HostRuntime) {
    laws::what_was_put_is_taken(&7u32);
    laws::lines_give_their_values(&[7u32, 8]);
    laws::puts_append_lines();
    laws::one_list_at_most::<u32>();
    laws::a_blank_line_holds_none::<u32>();
}

/// Bytes, the limit, the values that are taken from them, and the faults that are reported.
type Row = (&'static [u8], usize, &'static [u32], &'static str);

const ROWS: &[Row] = &[
    (b"", 9, &[], ""),
    (b"7\n8\n", 9, &[7, 8], ""),
    (b"7\n8", 9, &[7, 8], ""),
    (b"\n \t\r\n7\r\n\n  8  \n \r\n\t", 9, &[7, 8], ""),
    (
        b"\x00\n7\n",
        9,
        &[7],
        "Json Deserialize error: Unexpected token Eof expected unsigned integer , line:1 col:2;",
    ),
    (
        b"7 8\n9\n",
        9,
        &[9],
        "Json Deserialize error: Cannot parse end , line:1 col:4;",
    ),
    (b"7\n\xff\n9", 9, &[7, 9], "line 2 is not UTF-8;"),
    (
        b"123456789\n1234567890\n3\n",
        9,
        &[123456789, 3],
        "line 2 is longer than the limit;",
    ),
    (
        b"1\n22\n",
        0,
        &[],
        "line 1 is longer than the limit;line 2 is longer than the limit;",
    ),
    (b"\n1234567890", 9, &[], "line 2 is longer than the limit;"),
    (
        b"          \n7\n",
        9,
        &[7],
        "line 1 is longer than the limit;",
    ),
    (b"123456789\r\n", 9, &[], "line 1 is longer than the limit;"),
];

/// What a stream gave.
#[derive(Drop)]
struct Given {
    /// The values.
    values: Vec<u32>,
    /// The faults in words, each with a semicolon after it.
    faults: String,
    /// How many faults of the stream there were.
    failures: usize,
}

/// Takes the values of a stream up to its end, past all faults.
fn taken(alloc: Global, source: Source<'static>, limit: usize) -> Result<Given, AllocError> {
    let mut lines = Lines::with_limit(alloc, source, limit)?;
    let mut given = Given {
        values: Vec::new(alloc),
        faults: String::new(alloc),
        failures: 0,
    };
    for _ in 0..100 {
        match lines.next::<u32>(alloc) {
            Ok(Some(value)) => given.values.push(value)?,
            Ok(None) => return Ok(given),
            Err(Fault::Stream(_error)) => given.failures = given.failures.saturating_add(1),
            Err(fault) => {
                let text = format!(in alloc; "{fault};")?;
                given.faults.push_str(text.as_str())?;
            }
        }
    }
    Ok(given)
}

/// Whether a row is taken so by a reader that gives at most so many bytes a call, and fails once,
/// at this call.
fn is_taken(alloc: Global, row: Row, most: usize, fails_at: usize) -> Result<bool, AllocError> {
    let given = taken(alloc, Source::new(row.0, most, fails_at), row.1)?;
    let are_same = given.values.as_slice() == row.2 && given.faults.as_str() == row.3;
    Ok(are_same && given.failures <= 1)
}

/// Whether a row is taken so, whatever the reader gives and wherever it fails.
fn is_taken_by_each(alloc: Global, row: Row) -> Result<bool, AllocError> {
    for fails_at in 0..30 {
        let is_taken = is_taken(alloc, row, 1, fails_at)?
            && is_taken(alloc, row, 5, fails_at)?
            && is_taken(alloc, row, 100, fails_at)?;
        if !is_taken {
            return Ok(false);
        }
    }
    Ok(true)
}

#[test]
fn lines_are_taken(rt: HostRuntime) {
    for row in ROWS {
        is_so(&rt, is_taken_by_each(rt.alloc(), *row), row.3);
    }
}

/// Whether a line that is longer than a read is passed over, and the next one is taken.
fn long_line_is_passed(alloc: Global) -> Result<bool, AllocError> {
    let mut text = String::new(alloc);
    for _ in 0..9000 {
        text.push('1')?;
    }
    text.push_str("\n7\n")?;
    let mut lines = Lines::with_limit(alloc, text.as_bytes(), 100)?;
    let is_long = match lines.next::<u32>(alloc) {
        Err(Fault::Long(number)) => number == 0,
        _other => false,
    };
    let is_next = match lines.next::<u32>(alloc) {
        Ok(Some(value)) => value == 7,
        _other => false,
    };
    Ok(is_long && is_next)
}

/// Whether lines of different types are taken without a limit.
fn types_are_taken(alloc: Global) -> Result<bool, AllocError> {
    let mut lines = Lines::new(alloc, TWO)?;
    let first = match lines.next::<Vec<u8>>(alloc) {
        Ok(Some(value)) => value.as_slice() == [7u8, 8].as_slice(),
        _other => false,
    };
    let second = match lines.next::<String>(alloc) {
        Err(Fault::Bad { error, line }) => error.line == 1 && line.as_str() == "[]",
        _other => false,
    };
    Ok(first && second)
}

#[test]
fn lines_fail(rt: HostRuntime) {
    let alloc = rt.alloc();
    is_so(&rt, long_line_is_passed(alloc), "a long line");
    is_so(&rt, types_are_taken(alloc), "types");
    holds(&rt, true, "lines");
}

/// A reader of so many lines, each of which holds 7.
#[derive(Drop)]
struct Sevens {
    left: u32,
}

impl Read for Sevens {
    fn read(&mut self, buf: &mut [u8]) -> io::Result<usize> {
        if self.left == 0 || buf.len() < 2 {
            return Ok(0);
        }
        self.left = self.left.saturating_sub(1);
        buf[..2].copy_from_slice(b"7\n");
        Ok(2)
    }
}

/// How many lines there are up to the end or a fault, if each of them holds 7.
fn count_of_sevens(alloc: Global, count: u32) -> Result<u32, AllocError> {
    let mut lines = Lines::with_limit(alloc, Sevens { left: count }, 1)?;
    let mut taken = 0u32;
    for _ in 0..=count {
        match lines.next::<u8>(alloc) {
            Ok(Some(7)) => taken = taken.saturating_add(1),
            _end => return Ok(taken),
        }
    }
    Ok(taken)
}

#[test]
fn a_million_lines(rt: HostRuntime) {
    let taken = count_of_sevens(rt.alloc(), 1_000_000);
    is_so(
        &rt,
        taken.map(|taken| taken == 1_000_000),
        "a million lines",
    );
}
