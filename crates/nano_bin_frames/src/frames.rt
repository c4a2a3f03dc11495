//! Messages of any type, each in a frame: the encoded message, as a length-prefixed byte list.

ghost use Rattle.std.specs.Prelude.{◌≡◌, ◌<◌, ◌≤◌, ◌↔◌, length, drop, max, Some, IfOk, IfErr};
ghost use Rattle.std.specs.Prelude.{IfSome, IfNone, OnErr, IsErrOf};
ghost use Rattle.std.specs.Io.KnownBytes.{Keeps};
ghost use Rattle.nano_bin_bytes.specs.Reading.{Decodes, DecodesToNothing};
ghost use Rattle.nano_bin_frames.specs.Frames.{IsOfStream, IsFaultOf, IsFrame, DecodesAfter};
ghost use Rattle.nano_bin_frames.specs.Frames.{ReadsNothing};

use crate::error::{Fault, no_memory, rejection};
use nano_bin::{DeBin, DeBinKind};
use std::alloc::{AllocError, Global};
use std::io::{self, ErrorKind, Read};

/// Messages read from a stream, one after the other, in chunks of any size.
#[derive(Drop)]
pub struct Messages<R> {
    input: R,
    chunk: Vec<u8>,
    bytes: Vec<u8>,
    offset: usize,
    ghost capacity: { 0 < length chunk.items },
    ghost within: { offset ≤ length bytes.items },
}

impl<R: Read> Messages<R> {
    ghost use Rattle.nano_bin_frames.specs.Left.{left, chunk_size};
    ghost use Rattle.nano_bin_frames.specs.Outcomes.{Answers, TakesNothing, ReadFails, Forgets};

    /// Those that the reader gives. At most `chunk` bytes are read at a time, and at least one.
    /// Nothing is read yet.
    pub fn new(alloc: Global, input: R, chunk: usize) -> Result<Messages<R>, AllocError>
    where
        R: Drop,
        ensures unread { IfOk result (λ messages.
            Keeps (R.remaining input) (left R.remaining messages)) }
        ensures size { IfOk result (λ messages. chunk_size messages ≡ max chunk 1) }
    {
        Ok(Messages {
            input,
            chunk: vec![in alloc; 0; chunk.max(1)]?,
            bytes: Vec::new(alloc),
            offset: 0,
        })
    }

    /// Takes the next message with its frame, or returns none where the stream is at its end.
    ///
    /// A frame's count reserves no memory before its bytes have arrived.
    ///
    /// # Errors
    ///
    /// `Cut` reports that bytes are left and no frame begins there, `Bad` that one does and its
    /// code is no message, and `Stream` that a read or an allocation failed. `Bad` carries the
    /// error of `deserialize_bin_whole` for the code. Neither a fault nor the end takes anything
    /// of what is left, so a call after it begins at the same place.
    ///
    /// # Examples
    ///
    /// ```
    /// let mut messages = Messages::new(alloc, rt.stdin(), chunk)?;
    /// // ..
    ///     match messages.next::<Message>(alloc) {
    ///         Ok(Some(message)) => writeln!(output, "{message:?}")?,
    ///         Ok(None) => break,
    /// ```
    pub fn next<T: DeBin>(&mut self, alloc: Global) -> Result<Option<T>, Fault>
        ensures ok { IfOk result
            (Answers R.remaining T.bin.encoding.encodes T.means self.old self.new) }
        ensures err { IfErr result
            (TakesNothing R.remaining T.bin.encoding.encodes self.old self.new) }
    {
        'reads: for _ in 0..u64::MAX {
            if let Some((code, end)) = self.frame(alloc)? {
                let message = message_of(alloc, &code)?;
                self.offset = end;
                return Ok(Some(message));
            }
            let count = self.fill()?;
            if count == 0 {
                self.ended()?;
                return Ok(None);
            }
        }
        // So many reads have not filled one frame. They lost nothing, and a later call goes on.
        Err(Fault::Stream(ErrorKind::Interrupted.into()))
    }

    /// The code in the frame that begins at the offset, and the place after the frame.
    fn frame(&self, alloc: Global) -> Result<Option<(Vec<u8>, usize)>, Fault>
        ensures some { IfOk result (λ found. IfSome found (λ f.
            Decodes IsFrame self.now.bytes.items self.now.offset f.0.items f.1)) }
        ensures none { IfOk result (λ found. IfNone found
            (DecodesToNothing IsFrame (drop self.now.offset self.now.bytes.items))) }
        ensures fault { IfErr result IsOfStream }
    {
        let mut end = self.offset;
        match Vec::de_bin(alloc, &mut end, &self.bytes) {
            Ok(code) => Ok(Some((code, end))),
            Err(error) => match error.kind {
                DeBinKind::Memory => Err(no_memory()),
                _ => Ok(None),
            },
        }
    }

    /// `Cut`, and nothing else, where bytes are left.
    fn ended(&self) -> Result<(), Fault>
        ensures cut { IsErrOf result Fault.Cut ↔ (self.now.offset < length self.now.bytes.items) }
        ensures only { IfErr result (λ fault. fault ≡ Fault.Cut) }
    {
        if self.offset < self.bytes.len() {
            return Err(Fault::Cut);
        }
        Ok(())
    }

    /// Reads a chunk after the bytes that are left, and returns how many bytes arrived.
    fn fill(&mut self) -> Result<usize, Fault>
        ensures ok { IfOk result (DecodesAfter
            (R.remaining self.old.input) (R.remaining self.new.input)
            (drop self.old.offset self.old.bytes.items)
            (drop self.new.offset self.new.bytes.items)) }
        ensures err { IfErr result (ReadFails R.remaining self.old self.new) }
        ensures size { chunk_size self.new ≡ chunk_size self.old }
    {
        self.forget();
        match read_after(&mut self.input, &mut self.chunk, &mut self.bytes) {
            Ok(count) => Ok(count),
            Err(error) => Err(Fault::Stream(error)),
        }
    }

    /// Lets go of the bytes before the offset.
    fn forget(&mut self)
        ensures { Forgets self.old self.new }
    {
        let end = self.offset;
        self.offset = 0;
        self.bytes.drain(..end);
    }
}

/// Reads a chunk after the bytes that are there, and returns how many bytes arrived.
fn read_after<R: Read>(input: &mut R, chunk: &mut [u8], bytes: &mut Vec<u8>) -> io::Result<usize>
    requires { 0 < length chunk.old }
    ensures ok { IfOk result (DecodesAfter (R.remaining input.old) (R.remaining input.new)
        bytes.old.items bytes.new.items) }
    ensures err { OnErr result (ReadsNothing (R.remaining input.old) (R.remaining input.new)
        bytes.old.items bytes.new.items) }
{
    bytes.reserve(chunk.len())?;
    let count = input.read(chunk)?;
    bytes.extend_from_slice(&chunk[..count]).unwrap();
    Ok(count)
}

/// The message whose code these bytes are.
fn message_of<T: DeBin>(alloc: Global, code: &[u8]) -> Result<T, Fault>
    ensures ok { IfOk result (λ message. T.bin.encoding.encodes code.now (T.means message)) }
    ensures err { IfErr result (IsFaultOf T.bin.encoding.encodes code.now) }
{
    match T::deserialize_bin_whole(alloc, code) {
        Ok(message) => Ok(message),
        Err(error) => Err(rejection(error, code)),
    }
}
