//! The reader and the writer of the tests.

use std::alloc::{AllocError, Global};
use std::io::{self, ErrorKind, Read, Write};

/// A reader that gives a few bytes a call, and fails at one of its calls.
#[derive(Drop)]
pub(crate) struct Source<'a> {
    rest: &'a [u8],
    most: usize,
    calls: usize,
    fails_at: usize,
}

impl<'a> Source<'a> {
    /// It fails at no call where `fails_at` is 0.
    pub(crate) fn new(rest: &'a [u8], most: usize, fails_at: usize) -> Source<'a> {
        Source {
            rest,
            most,
            calls: 0,
            fails_at,
        }
    }
}

impl Read for Source<'_> {
    fn read(&mut self, buf: &mut [u8]) -> io::Result<usize> {
        self.calls = self.calls.saturating_add(1);
        if self.calls == self.fails_at {
            return Err(ErrorKind::TimedOut.into());
        }
        let count = buf.len().min(self.rest.len()).min(self.most);
        buf[..count].copy_from_slice(&self.rest[..count]);
        self.rest = &self.rest[count..];
        Ok(count)
    }
}

/// A writer that takes a few bytes a call, and at one of its calls fails with an error of
/// this kind or, without a kind, takes nothing.
#[derive(Drop)]
pub(crate) struct Sink {
    pub(crate) taken: Vec<u8>,
    most: usize,
    pub(crate) calls: usize,
    fails_at: usize,
    kind: Option<ErrorKind>,
}

impl Sink {
    /// It has capacity for each stream of these tests.
    pub(crate) fn new(
        alloc: Global,
        most: usize,
        fails_at: usize,
        kind: Option<ErrorKind>,
    ) -> Result<Sink, AllocError> {
        let taken = Vec::with_capacity(alloc, 256)?;
        Ok(Sink {
            taken,
            most,
            calls: 0,
            fails_at,
            kind,
        })
    }
}

impl Write for Sink {
    fn write(&mut self, buf: &[u8]) -> io::Result<usize> {
        self.calls = self.calls.saturating_add(1);
        if self.calls == self.fails_at {
            let Some(kind) = self.kind else {
                return Ok(0);
            };
            return Err(kind.into());
        }
        let count = buf.len().min(self.most);
        self.taken.extend_from_slice(&buf[..count])?;
        Ok(count)
    }

    fn flush(&mut self) -> io::Result<()> {
        Ok(())
    }
}
