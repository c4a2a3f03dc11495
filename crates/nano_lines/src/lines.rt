//! Values of any type, each a line of JSON in a stream.

use crate::buffer::Buffer;
use crate::error::Fault;
use crate::line::{Line, read_line};
use nano_json::DeJson;
use std::alloc::{AllocError, Global};
use std::io::{ErrorKind, Read};

/// Values read from a stream of lines, one after the other.
#[derive(Drop)]
pub struct Lines<R> {
    input: R,
    limit: usize,
    buffer: Buffer,
    number: usize,
    long: bool,
}

impl<R: Read> Lines<R> {
    ghost use Rattle.std.specs.Prelude.{◌≡◌, ◌↔◌, ◌≤◌, ◌-◌, ◌⊎◌, true, false};
    ghost use Rattle.std.specs.Prelude.{IfOk, IfErr, IsTrue};
    ghost use Rattle.nano_lines.specs.Buffers.{unread};
    ghost use Rattle.nano_lines.specs.Lines.{HasNoFeed};
    ghost use Rattle.nano_lines.specs.Left.{IsAsNew, IsTooLong, IsWhole};
    ghost use Rattle.nano_lines.specs.Steps.{Finds, FindsNone, TakesLine, Reads, ReadFails};
    ghost use Rattle.nano_lines.specs.Steps.{Forgets, IsWithin, IsAtLast};
    ghost use Rattle.nano_lines.specs.Outcomes.{Answers, TakesFault};

    /// Those that the reader gives, whatever the length of a line. Nothing is read yet.
    pub fn new(alloc: Global, input: R) -> Result<Lines<R>, AllocError>
    where
        R: Drop,
        ensures { IfOk result (IsAsNew R.remaining input usize.MAX) }
    {
        Lines::with_limit(alloc, input, usize::MAX)
    }

    /// Those that the reader gives, where a line of more than `limit` bytes, without its line
    /// feed, is a fault. No more than `limit` bytes and one read are held at a time. Nothing is
    /// read yet.
    pub fn with_limit(alloc: Global, input: R, limit: usize) -> Result<Lines<R>, AllocError>
    where
        R: Drop,
        ensures { IfOk result (IsAsNew R.remaining input limit) }
    {
        Ok(Lines {
            input,
            limit,
            buffer: Buffer::new(alloc)?,
            number: 0,
            long: false,
        })
    }

    /// Takes the next line that is not blank, and returns its value, or none where the stream is
    /// at its end.
    ///
    /// A blank line is one of spaces, tabs and carriage returns alone. Each is passed over.
    ///
    /// # Errors
    ///
    /// `Bad` reports that the line holds no value of the type, `NotUtf8` that it is no text, and
    /// `Long` that it is longer than the limit: each takes that line, and no other. `Bad` carries
    /// the error of `deserialize_json_whole` for the line, with the line's number in the stream,
    /// and the line.
    /// `Stream` reports that a read or an allocation failed; it takes no line that is not blank,
    /// so a call after it goes on where this one stopped.
    ///
    /// # Examples
    ///
    /// ```
    /// let mut lines = Lines::with_limit(alloc, rt.stdin(), LIMIT)?;
    /// // ..
    ///     match lines.next::<(String, u8)>(alloc) {
    ///         Ok(Some(entry)) => put(alloc, &entry, &mut output)?,
    ///         Ok(None) => break,
    ///         Err(Fault::Stream(error)) => return Err(error.into()),
    ///         Err(fault) => writeln!(output, "{fault}")?,
    /// ```
    pub fn next<T: DeJson>(&mut self, alloc: Global) -> Result<Option<T>, Fault>
        ensures ok { IfOk result
            (Answers R.remaining self.old self.new T.json.encoding.encodes T.means) }
        ensures err { IfErr result
            (TakesFault R.remaining self.old self.new T.json.encoding.encodes) }
    {
        'lines: for _ in 0..u64::MAX {
            let Some(end) = self.line_end()? else {
                return Ok(None);
            };
            let number = self.number;
            let line = read_line(alloc, &self.buffer.bytes[self.buffer.offset..end], number)?;
            self.take_line(end);
            match line {
                Line::Blank => {}
                Line::Value(value) => return Ok(Some(value)),
                Line::Bad(error, text) => return Err(Fault::Bad { error, line: text }),
                Line::NotUtf8 => return Err(Fault::NotUtf8(number)),
            }
        }
        // So many lines were blank. A later call goes on after them.
        Err(Fault::Stream(ErrorKind::Interrupted.into()))
    }

    /// Reads up to the end of the next line, and returns its place in the buffer, or none where
    /// the stream is at its end. A line that is too long is taken.
    fn line_end(&mut self) -> Result<Option<usize>, Fault>
        ensures ok { IfOk result (Finds R.remaining self.old self.new) }
        ensures err { IfErr result (FindsNone R.remaining self.old self.new) }
    {
        'reads: for _ in 0..u64::MAX {
            if let Some(end) = self.buffer.line_feed() {
                self.pass_limit(end)?;
                return Ok(Some(end));
            }
            self.forget_long();
            if self.fill()? == 0 {
                return self.last_line();
            }
        }
        // So many reads have not filled one line. They lost nothing, and a later call goes on.
        Err(Fault::Stream(ErrorKind::Interrupted.into()))
    }

    /// The end of the last line, which has no line feed, or none where nothing is left.
    fn last_line(&mut self) -> Result<Option<usize>, Fault>
        requires { IsAtLast R.remaining self.old }
        ensures ok { IfOk result (Finds R.remaining self.old self.new) }
        ensures err { IfErr result (FindsNone R.remaining self.old self.new) }
    {
        let end = self.buffer.bytes.len();
        if self.buffer.offset == end && !self.long {
            return Ok(None);
        }
        self.pass_limit(end)?;
        Ok(Some(end))
    }

    /// Takes the line that ends there and reports it, if it is too long.
    fn pass_limit(&mut self, end: usize) -> Result<(), Fault>
        requires { IsWhole R.remaining self.old end }
        ensures ok { IfOk result (λ _. IsWithin self.old self.new end) }
        ensures err { IfErr result (FindsNone R.remaining self.old self.new) }
    {
        if !self.is_long(end) {
            return Ok(());
        }
        let number = self.number;
        self.take_line(end);
        Err(Fault::Long(number))
    }

    /// Whether the line that is read up to there is too long.
    fn is_long(&self, end: usize) -> bool
        ensures { IsTrue result ↔ IsTooLong self.now end }
    {
        self.long || end.saturating_sub(self.buffer.offset) > self.limit
    }

    /// Takes the line that ends there, with its line feed.
    fn take_line(&mut self, end: usize)
        requires { IsWhole R.remaining self.old end }
        ensures { TakesLine R.remaining self.old self.new end }
    {
        self.buffer.take_past(end);
        self.number = self.number.saturating_add(1);
        self.long = false;
    }

    /// Lets go of the bytes of a line that is too long, and remembers that it is.
    fn forget_long(&mut self)
        requires { HasNoFeed (unread self.old.buffer) }
        ensures { Forgets R.remaining self.old self.new }
    {
        let end = self.buffer.bytes.len();
        if self.is_long(end) {
            self.buffer.take_past(end);
            self.long = true;
        }
    }

    /// Reads a chunk after the bytes that are there, and returns how many bytes arrived.
    fn fill(&mut self) -> Result<usize, Fault>
        ensures ok { IfOk result (Reads R.remaining self.old self.new) }
        ensures err { IfErr result (ReadFails R.remaining self.old self.new) }
    {
        self.buffer.forget();
        match self.buffer.read(&mut self.input) {
            Ok(count) => Ok(count),
            Err(error) => Err(Fault::Stream(error)),
        }
    }
}
