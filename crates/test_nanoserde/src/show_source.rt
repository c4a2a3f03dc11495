//! A reader and a writer that are slow, and fail at one of their calls.

use std::alloc::{AllocError, Global};
use std::io;
use std::io::{ErrorKind, Read, Write};

/// A reader that gives one byte a call, and fails at one of its calls with an error of this kind.
#[derive(Drop)]
pub(crate) struct Source<'a> {
    rest: &'a [u8],
    pub(crate) calls: usize,
    fails_at: usize,
    kind: ErrorKind,
}

impl<'a> Source<'a> {
    /// It fails at no call where `fails_at` is 0.
    pub(crate) fn new(rest: &'a [u8], fails_at: usize, kind: ErrorKind) -> Source<'a> {
        Source {
            rest,
            calls: 0,
            fails_at,
            kind,
        }
    }
}

impl Read for Source<'_> {
    fn read(&mut self, buf: &mut [u8]) -> io::Result<usize> {
        self.calls = self.calls.saturating_add(1);
        if self.calls == self.fails_at {
            return Err(self.kind.into());
        }
        let count = buf.len().min(self.rest.len()).min(1);
        buf[..count].copy_from_slice(&self.rest[..count]);
        self.rest = &self.rest[count..];
        Ok(count)
    }
}

/// A writer that takes one byte a call, and at one of its calls fails with an error of this kind
/// or, without a kind, takes nothing.
#[derive(Drop)]
pub(crate) struct Sink {
    pub(crate) taken: Vec<u8>,
    pub(crate) calls: usize,
    fails_at: usize,
    kind: Option<ErrorKind>,
}

impl Sink {
    /// It has capacity for each line of these tests, and fails at no call where `fails_at` is 0.
    pub(crate) fn new(
        alloc: Global,
        fails_at: usize,
        kind: Option<ErrorKind>,
    ) -> Result<Sink, AllocError> {
        let taken = Vec::with_capacity(alloc, 64)?;
        Ok(Sink {
            taken,
            calls: 0,
            fails_at,
            kind,
        })
    }
}

impl Write for Sink {
    fn write(&mut self, buf: &[u8]) -> io::Result<usize> {
        self.calls = self.calls.saturating_add(1);
        if self.calls == self.fails_at {
            let Some(kind) = self.kind else {
                return Ok(0);
            };
            return Err(kind.into());
        }
        let count = buf.len().min(1);
        self.taken.extend_from_slice(&buf[..count])?;
        Ok(count)
    }

    fn flush(&mut self) -> io::Result<()> {
        Ok(())
    }
}
