//! The words of `nano_show` over readers and writers that fail at each of their calls in turn, or
//! are interrupted there; a listing that is nested deep; and the program's ends.

use crate::show_source::{Sink, Source};
use crate::type_checks::{is_made, is_so};
use nano_show_answers::{ShowFault, ending, run};
use std::alloc::{AllocError, Global};
use std::io::ErrorKind;

/// Words, their input, how many reads of a byte each they take, and what is written for them.
type Row = (&'static str, &'static [u8], usize, &'static str);

const ROWS: &[Row] = &[
    (
        "code u16s 1 2",
        b"",
        0,
        "02 00 00 00 00 00 00 00 01 00 02 00\n",
    ),
    ("code text a", b"", 0, "01 01 00 00 00 00 00 00 00 61\n"),
    ("json bytes", b"[1]", 4, "[1]\n"),
    ("json item", b"{\"value\":1}", 12, "{\"value\":1}\n"),
    ("ron set", b"[2,1]", 6, "[    1,    2]\n"),
    ("bin bool", &[9], 2, "01\n"),
    (
        "toml",
        b"b = [1] [[a]] c = \"\"",
        21,
        "\"a\" = tables 1\n\"a\"[0] \"c\" = \"\"\n\"b\" = [1]\n",
    ),
    (
        "json tree",
        b"{\"b\":1,\"a\":2,}",
        15,
        "{\"a\":2,\"b\":1}\n",
    ),
    ("json-whole map", b"{\"a\":1}", 8, "{\"a\":1}\n"),
    ("ron-whole choice", b"B(1,\"a\")", 9, "B(1, \"a\")\n"),
    (
        "bin-whole string",
        b"\x01\0\0\0\0\0\0\0a",
        10,
        "01 00 00 00 00 00 00 00 61\n",
    ),
];

/// The rows. The tests name no table themselves, since each function that does takes long to prove.
fn rows() -> &'static [Row] {
    ROWS
}

/// The words of a line.
fn words(alloc: Global, line: &str) -> Result<Vec<String>, AllocError> {
    let mut words = Vec::new(alloc);
    for word in line.split(' ') {
        words.push(String::from_str(alloc, word)?)?;
    }
    Ok(words)
}

/// What became of words: how they end, where they do not answer, and of their text.
#[derive(Drop)]
struct Outcome {
    status: u8,
    text: String,
    written: Vec<u8>,
    reads: usize,
    writes: usize,
}

/// What becomes of words over a reader and a writer.
fn ran(
    alloc: Global,
    line: &str,
    mut input: Source<'_>,
    mut output: Sink,
) -> Result<Outcome, AllocError> {
    let words = words(alloc, line)?;
    let (status, text) = match run(alloc, &words, &mut input, &mut output) {
        Ok(()) => (0, String::new(alloc)),
        Err(fault) => ended(alloc, &fault)?,
    };
    Ok(Outcome {
        status,
        text,
        written: output.taken,
        reads: input.calls,
        writes: output.calls,
    })
}

/// How a fault ends the program.
fn ended(alloc: Global, fault: &ShowFault) -> Result<(u8, String), AllocError> {
    let (status, text) = ending(fault);
    Ok((status, String::from_str(alloc, text)?))
}

impl Outcome {
    /// Whether it is the answer.
    fn is_answer(&self, answer: &str) -> bool {
        self.status == 0 && self.written.as_slice() == answer.as_bytes()
    }

    /// Whether the words ended with this text, after so many bytes of the answer.
    fn is_fault(&self, text: &str, answer: &str, count: usize) -> bool {
        let is_beginning = answer.as_bytes().starts_with(self.written.as_slice());
        self.status == 3
            && self.text.as_str() == text
            && is_beginning
            && self.written.len() == count
    }
}

/// Whether the words of a row, over a reader with such an error at one of its calls, are answered
/// where it was an interruption or none, and else end so: nothing is read after it, and nothing is
/// written.
fn is_read(alloc: Global, row: Row, fails_at: usize, kind: ErrorKind) -> Result<bool, AllocError> {
    let source = Source::new(row.1, fails_at, kind);
    let outcome = ran(alloc, row.0, source, Sink::new(alloc, 0, None)?)?;
    if fails_at == 0 || kind == ErrorKind::Interrupted {
        return Ok(outcome.is_answer(row.3));
    }
    let text = match kind {
        ErrorKind::OutOfMemory => "no memory",
        _ => "stream fault",
    };
    let are_calls = outcome.reads == fails_at && outcome.writes == 0;
    Ok(are_calls && outcome.is_fault(text, row.3, 0))
}

/// Whether the words of a row are answered so, whatever fault the reader has at each of its calls.
fn are_read(alloc: Global, row: Row) -> Result<bool, AllocError> {
    for fails_at in 0..=row.2 {
        let is_so = is_read(alloc, row, fails_at, ErrorKind::Other)?
            && is_read(alloc, row, fails_at, ErrorKind::Interrupted)?
            && is_read(alloc, row, fails_at, ErrorKind::OutOfMemory)?;
        if !is_so {
            return Ok(false);
        }
    }
    Ok(true)
}

#[test]
fn reads_that_fail_at_each_place(rt: HostRuntime) {
    for row in rows() {
        is_so(&rt, are_read(rt.alloc(), *row), row.0);
    }
}

/// Whether the words of a row, over a writer with such an error at one of its calls, or that takes
/// nothing there, are answered where it was an interruption or none, and else end so: that call is
/// the last, and what was taken before it is the answer's beginning.
fn is_written(
    alloc: Global,
    row: Row,
    fails_at: usize,
    kind: Option<ErrorKind>,
) -> Result<bool, AllocError> {
    let source = Source::new(row.1, 0, ErrorKind::Other);
    let outcome = ran(alloc, row.0, source, Sink::new(alloc, fails_at, kind)?)?;
    if fails_at == 0 || kind == Some(ErrorKind::Interrupted) {
        return Ok(outcome.is_answer(row.3));
    }
    let is_fault = outcome.is_fault("stream fault", row.3, fails_at.saturating_sub(1));
    Ok(is_fault && outcome.writes == fails_at)
}

/// Whether the words of a row are answered so, whatever fault the writer has at each of its calls.
fn are_written(alloc: Global, row: Row) -> Result<bool, AllocError> {
    for fails_at in 0..=row.3.len() {
        let is_so = is_written(alloc, row, fails_at, Some(ErrorKind::BrokenPipe))?
            && is_written(alloc, row, fails_at, Some(ErrorKind::Interrupted))?
            && is_written(alloc, row, fails_at, None)?;
        if !is_so {
            return Ok(false);
        }
    }
    Ok(true)
}

#[test]
fn writes_that_fail_at_each_place(rt: HostRuntime) {
    for row in rows() {
        is_so(&rt, are_written(rt.alloc(), *row), row.0);
    }
}

const DEPTH: usize = 100_000;

/// Whether a list is listed however deep it is nested: no depth takes stack.
fn is_listed(alloc: Global) -> Result<bool, AllocError> {
    let (open, close) = ("[".repeat(alloc, DEPTH)?, "]".repeat(alloc, DEPTH)?);
    let text = format!(in alloc; "a = {open}")?;
    let listing = format!(in alloc; "\"a\" = {open}{close}\n")?;
    let source = Source::new(text.as_bytes(), 0, ErrorKind::Other);
    let outcome = ran(alloc, "toml", source, Sink::new(alloc, 0, None)?)?;
    Ok(outcome.is_answer(listing.as_str()))
}

/// A fault in words, after the status and the text that it ends with.
fn shown(alloc: Global, fault: &ShowFault) -> Result<String, AllocError> {
    let (status, text) = ending(fault);
    format!(in alloc; "{status} {text}: {fault}")
}

const USAGE: &str = "2 usage: nano_show code u16s N.. | code text [WORD] | json TYPE | ron TYPE \
    | bin TYPE | toml | json-whole TYPE | ron-whole TYPE | bin-whole TYPE: \
    usage: nano_show code u16s N.. | code text [WORD] | json TYPE | ron TYPE \
    | bin TYPE | toml | json-whole TYPE | ron-whole TYPE | bin-whole TYPE";

/// A fault with a reason in words.
fn shown_reason(alloc: Global, reason: &str) -> Result<String, AllocError> {
    shown(alloc, &ShowFault::Refused(String::from_str(alloc, reason)?))
}

#[test]
fn endings_and_a_deep_list(rt: HostRuntime) {
    let alloc = rt.alloc();
    is_so(&rt, is_listed(alloc), "a deep list");
    is_made(&rt, shown(alloc, &ShowFault::Usage), USAGE);
    is_made(
        &rt,
        shown(alloc, &ShowFault::Memory),
        "3 no memory: no memory",
    );
    let expected = "3 stream fault: stream fault";
    is_made(&rt, shown(alloc, &ShowFault::Stream), expected);
    let expected = "1 not UTF-8: not UTF-8";
    is_made(&rt, shown_reason(alloc, "not UTF-8"), expected);
}
