//! What [`put`](crate::put) and [`Messages::next`](crate::Messages::next) promise together, each
//! the contract of a function.
//!
//! The laws speak of the outcomes that the two contracts name: a writer got a frame, a message was
//! taken, and what is left is cut, or holds no message, or is at its end. None of these functions
//! does anything.
ghost use Rattle.std.specs.Prelude.{◌≡◌, ◌++◌, ℕ, List, Some, map};
ghost use Rattle.nano_bin_frames.specs.Frames.{IsFrame, AppendsFrame};
ghost use Rattle.nano_bin_frames.specs.Outcomes.{AreFrames, AppendsFrames, AddsFrames, AreOneFrame};
ghost use Rattle.nano_bin_frames.specs.Outcomes.{BeginsWithMessage, GivesMessages};

use nano_bin::{DeBin, SerBin};
use nano_value::Value;

/// What one `put` appended is taken by one `next`, whatever follows: as a message that means
/// the same, with what follows left. It is reported neither as cut, nor as bad, nor as the end.
pub fn what_was_put_is_taken<T: SerBin + DeBin>(message: &T)
    ensures { (before frame rest : List ℕ)
        → AppendsFrame (T.bin.canonical.written message.now) (Some before) (Some (before ++ frame))
        → BeginsWithMessage T.bin.encoding.encodes (frame ++ rest) (T.means message.now) rest }
{
    message.known();
}

/// From frames of these messages, one after the other, what they mean is taken in their order,
/// and then the stream is at its end. On the way no `next` reports a fault of the bytes, nor
/// the end.
pub fn frames_give_their_messages<T: SerBin + DeBin>(messages: &[T])
    ensures { (stream : List ℕ) → AreFrames stream (map T.bin.canonical.written messages.now)
        → GivesMessages T.bin.encoding.encodes stream (map T.means messages.now) }
{
    messages.known();
}

/// What one `put` after the other appended is frames of those messages, one after the other.
pub fn puts_append_frames()
    ensures { (codes : List (List ℕ)) (before after : List ℕ)
        → AppendsFrames codes (Some before) (Some after) → AddsFrames codes before after }
{}

/// A stream begins with one frame at most, and that has one code.
pub fn one_frame_at_most()
    ensures { (frame other rest more code others : List ℕ) → IsFrame frame code
        → IsFrame other others → frame ++ rest ≡ other ++ more
        → AreOneFrame frame other rest more code others }
{}
