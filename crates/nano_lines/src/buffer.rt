//! The bytes that were read from a stream and not yet taken.

ghost use Rattle.std.specs.Prelude.{◌≡◌, ◌≢◌, ◌≤◌, ◌<◌, ℕ, length, slice_index};

use memchr::memchr;
use std::alloc::{AllocError, Global};
use std::io::{self, Read};

/// How many bytes are read at a time, at most.
const CHUNK: usize = 8192;

/// Bytes, of which those from `offset` on are not yet taken. Of these no line feed stands before
/// `searched`, so none is looked at twice.
#[derive(Drop)]
pub(crate) struct Buffer {
    pub(crate) bytes: Vec<u8>,
    pub(crate) offset: usize,
    pub(crate) searched: usize,
    chunk: Vec<u8>,
    pub ghost begun: { offset ≤ searched },
    pub ghost within: { searched ≤ length bytes.items },
    pub ghost unbroken: { (k : ℕ) → offset ≤ k → k < searched → slice_index bytes.items k ≢ 10 },
    ghost capacity: { 0 < length chunk.items },
}

impl Buffer {
    ghost use Rattle.std.specs.Prelude.{IfSome, IfNone, IfOk, OnErr, [], drop, ◌+◌};
    ghost use Rattle.nano_lines.specs.Buffers.{unread, IsFeedAt};
    ghost use Rattle.nano_lines.specs.Lines.{HasNoFeed};
    ghost use Rattle.nano_lines.specs.Chunks.{ReadsAfter, ReadsNothing};

    /// One that holds nothing.
    pub(crate) fn new(alloc: Global) -> Result<Buffer, AllocError>
        ensures { IfOk result (λ buffer. unread buffer ≡ []) }
    {
        Ok(Buffer {
            bytes: Vec::new(alloc),
            offset: 0,
            searched: 0,
            chunk: vec![in alloc; 0; CHUNK]?,
        })
    }

    /// The place of the first line feed that is not yet taken.
    pub(crate) fn line_feed(&mut self) -> Option<usize>
        ensures some { IfSome result (IsFeedAt self.new) }
        ensures none { IfNone result (HasNoFeed (unread self.new)) }
        ensures bytes { self.new.bytes ≡ self.old.bytes }
        ensures offset { self.new.offset ≡ self.old.offset }
    {
        match memchr(b'\n', &self.bytes[self.searched..]) {
            Some(distance) => {
                self.searched += distance;
                Some(self.searched)
            }
            None => {
                self.searched = self.bytes.len();
                None
            }
        }
    }

    /// Takes the bytes up to this place and the one at it, or all where it is beyond them.
    pub(crate) fn take_past(&mut self, place: usize)
        ensures { unread self.new ≡ drop (place + 1) self.old.bytes.items }
    {
        let start = if place < self.bytes.len() {
            place + 1
        } else {
            self.bytes.len()
        };
        self.offset = start;
        self.searched = start;
    }

    /// Lets go of the bytes that were taken.
    pub(crate) fn forget(&mut self)
        ensures same { unread self.new ≡ unread self.old }
        ensures offset { self.new.offset ≡ 0 }
    {
        let start = self.offset;
        self.searched -= start;
        self.offset = 0;
        self.bytes.drain(..start);
    }

    /// Reads a chunk after the bytes that are there, and returns how many bytes arrived.
    pub(crate) fn read<R: Read>(&mut self, input: &mut R) -> io::Result<usize>
        ensures ok { IfOk result (ReadsAfter (R.remaining input.old) (R.remaining input.new)
            (unread self.old) (unread self.new)) }
        ensures err { OnErr result (ReadsNothing (R.remaining input.old) (R.remaining input.new)
            (unread self.old) (unread self.new)) }
    {
        self.bytes.reserve(self.chunk.len())?;
        let count = input.read(&mut self.chunk)?;
        self.bytes.extend_from_slice(&self.chunk[..count]).unwrap();
        Ok(count)
    }
}
