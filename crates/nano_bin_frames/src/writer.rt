//! Messages written, each in a frame.

ghost use Rattle.std.specs.Prelude.{IfErr, OnOk};
ghost use Rattle.std.specs.Io.KnownBytes.{Appends};
ghost use Rattle.nano_bin_frames.specs.Frames.{frame_of, AppendsFrame, WriteStops};

use nano_bin::SerBin;
use nano_value::Value;
use std::alloc::Global;
use std::io::{self, ErrorKind, Write};

/// Writes a message, in its frame, after those that were written.
///
/// # Errors
///
/// The writer's error, or `WriteZero` for a write that takes nothing, or out of memory, or
/// `TimedOut` after 2^64 - 1 writes; a write that was interrupted is tried again. After an error a
/// proper prefix of the frame is written, and nothing else.
///
/// # Examples
///
/// ```
/// put(alloc, &sample(alloc, number)?, &mut output)?;
/// ```
pub fn put<T: SerBin, W: Write>(alloc: Global, message: &T, output: &mut W) -> io::Result<()>
    ensures ok { OnOk result (AppendsFrame (T.bin.canonical.written message.now)
        (W.contents output.old) (W.contents output.new)) }
    ensures err { IfErr result (WriteStops (frame_of (T.bin.canonical.written message.now))
        (W.contents output.old) (W.contents output.new)) }
{
    let code = message.serialize_bin(alloc)?;
    code.known();
    let frame = code.serialize_bin(alloc)?;
    write_whole(output, &frame)
}

/// Writes all of the bytes, in as many writes as it takes. After an error a proper prefix of them
/// was written.
fn write_whole<W: Write>(output: &mut W, bytes: &[u8]) -> io::Result<()>
    ensures ok { OnOk result
        (Appends (W.contents output.old) (W.contents output.new) bytes.now) }
    ensures err { IfErr result
        (WriteStops bytes.now (W.contents output.old) (W.contents output.new)) }
{
    let mut rest = bytes;

    // Each write may be interrupted anew, so the tries are counted.
    'writes: for _ in 0..u64::MAX {
        if rest.is_empty() {
            return Ok(());
        }
        match output.write(rest) {
            Ok(0) => return Err(ErrorKind::WriteZero.into()),
            Ok(count) => rest = &rest[count..],
            Err(error) => {
                if error.kind() != ErrorKind::Interrupted {
                    return Err(error);
                }
            }
        }
    }
    if rest.is_empty() {
        return Ok(());
    }
    Err(ErrorKind::TimedOut.into())
}
