//! The log over streams that give and take a byte at a time, and fail at each of their calls.

use crate::log::{append, end_line, list, totals};
use std::alloc::Global;
use std::io::{self, Cursor, ErrorKind, Read, Write};

/// A log with a blank line, a line that holds no event, one that is no text, and no line feed at its
/// end.
const LOG: &[u8] = b"{\"Opened\":{\"account\":\"a\"}}\n \n{\"PaidIn\":7}\n\xff\n\
    {\"PaidOut\":{\"account\":\"a\",\"cents\":5}}";

/// What is shown of its damaged lines.
const SHOWN: &str = "l:3:12: Unexpected token U64(7) expected { \n{\"PaidIn\":7}\n           ^\n\
    l: line 4 is not UTF-8\n";

/// A stream that gives and takes one byte a call, and fails at one of its calls.
#[derive(Drop)]
struct Stream<'a> {
    rest: &'a [u8],
    taken: Vec<u8>,
    calls: usize,
    fails_at: usize,
}

impl<'a> Stream<'a> {
    /// It fails at no call where `fails_at` is 0.
    fn new(alloc: Global, rest: &'a [u8], fails_at: usize) -> Stream<'a> {
        Stream {
            rest,
            taken: Vec::new(alloc),
            calls: 0,
            fails_at,
        }
    }

    /// Counts a call.
    fn call(&mut self) -> io::Result<()> {
        self.calls = self.calls.saturating_add(1);
        if self.calls == self.fails_at {
            return Err(ErrorKind::BrokenPipe.into());
        }
        Ok(())
    }
}

impl Read for Stream<'_> {
    fn read(&mut self, buf: &mut [u8]) -> io::Result<usize> {
        self.call()?;
        let count = buf.len().min(self.rest.len()).min(1);
        buf[..count].copy_from_slice(&self.rest[..count]);
        self.rest = &self.rest[count..];
        Ok(count)
    }
}

impl Write for Stream<'_> {
    fn write(&mut self, buf: &[u8]) -> io::Result<usize> {
        self.call()?;
        let count = buf.len().min(1);
        self.taken.extend_from_slice(&buf[..count])?;
        Ok(count)
    }

    fn flush(&mut self) -> io::Result<()> {
        Ok(())
    }
}

/// What `list` and `totals` print in all, and what `append` puts at the end of a log.
const LISTED: &str = "Opened { account: \"a\" }\n\
    l:3:12: Unexpected token U64(7) expected { \n{\"PaidIn\":7}\n           ^\n\
    l: line 4 is not UTF-8\n\
    PaidOut { account: \"a\", cents: 5, note: None }\n";

const COUNTED: &str = "l:3:12: Unexpected token U64(7) expected { \n{\"PaidIn\":7}\n           ^\n\
    l: line 4 is not UTF-8\n\
    events: 2, of which 1 open an account\npaid in: 0\npaid out: 5\ndamaged lines: 2\n";

const APPENDED: &str = "{\"Opened\":{\"account\":\"a\"}}\n\
    {\"PaidOut\":{\"account\":\"a\",\"cents\":5}}\n";

/// Whether an answer is an error where a call failed, after a beginning of what is expected, and
/// otherwise tells of two damaged lines, after all of it.
fn is_right(answer: anyhow::Result<u64>, has_failed: bool, output: &[u8], expected: &str) -> bool {
    match answer {
        Ok(damaged) => !has_failed && damaged == 2 && output == expected.as_bytes(),
        Err(_error) => has_failed && expected.as_bytes().starts_with(output),
    }
}

/// Whether one of so many calls, from 1 on, is this one.
fn is_call(number: usize, calls: usize) -> bool {
    number != 0 && number <= calls
}

/// How often a log is read from.
fn reads() -> usize {
    LOG.len().saturating_add(2)
}

fn is_listed(alloc: Global, read: usize, write: usize) -> bool {
    let mut output = Stream::new(alloc, b"", write);
    let answer = list(alloc, Stream::new(alloc, LOG, read), "l", &mut output);
    let has_failed = is_call(read, reads()) || is_call(write, LISTED.len());
    is_right(answer, has_failed, output.taken.as_slice(), LISTED)
}

fn is_counted(alloc: Global, read: usize, write: usize) -> bool {
    let mut output = Stream::new(alloc, b"", write);
    let answer = totals(alloc, Stream::new(alloc, LOG, read), "l", &mut output);
    let has_failed = is_call(read, reads()) || is_call(write, COUNTED.len());
    is_right(answer, has_failed, output.taken.as_slice(), COUNTED)
}

fn is_appended(alloc: Global, read: usize, write: usize) -> bool {
    let mut log = Stream::new(alloc, b"", write);
    let mut output = Vec::new(alloc);
    let answer = append(
        alloc,
        Stream::new(alloc, LOG, read),
        "l",
        &mut log,
        &mut output,
    );
    let has_failed = is_call(read, reads()) || is_call(write, APPENDED.len());
    is_right(answer, has_failed, log.taken.as_slice(), APPENDED)
        && SHOWN.as_bytes().starts_with(output.as_slice())
}

#[test]
fn each_read_fails(rt: HostRuntime) {
    for read in 0..=LOG.len().saturating_add(3) {
        assert!(rt; is_listed(rt.alloc(), read, 0), "list, read {read}");
        assert!(rt; is_counted(rt.alloc(), read, 0), "totals, read {read}");
        assert!(rt; is_appended(rt.alloc(), read, 0), "append, read {read}");
    }
}

#[test]
fn each_write_fails(rt: HostRuntime) {
    for write in 0..=LISTED.len().saturating_add(1) {
        assert!(rt; is_listed(rt.alloc(), 0, write), "list, write {write}");
        assert!(rt; is_counted(rt.alloc(), 0, write), "totals, write {write}");
        assert!(rt; is_appended(rt.alloc(), 0, write), "append, write {write}");
    }
}

/// Logs, and what they are with their last line ended.
const ENDS: &[(&[u8], &[u8])] = &[
    (b"", b""),
    (b"a", b"a\n"),
    (b"a\n", b"a\n"),
    (b"a\nb", b"a\nb\n"),
];

/// Whether the last line of a log is ended so.
fn is_ended(alloc: Global, log: &[u8], expected: &[u8]) -> Result<bool, anyhow::Error> {
    let mut log = Cursor::new(log.to_vec(alloc)?);
    end_line(&mut log)?;
    Ok(log.get_ref().as_slice() == expected)
}

#[test]
fn last_line_is_ended(rt: HostRuntime) {
    for (log, expected) in ENDS {
        let is_so = is_ended(rt.alloc(), log, expected).is_ok_and(|is_so| is_so);
        assert!(rt; is_so, "a log of {} bytes", log.len());
    }
}
