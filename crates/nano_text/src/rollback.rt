//! A text that is truncated after a failed write.

ghost use Rattle.std.specs.Prelude.{◌≡◌, OnOk, OnErr, take, string_bytes};
ghost use Rattle.std.specs.Str.{IsCharBoundary};
ghost use Rattle.nano_text.specs.Outcomes.{Unchanged};

use std::alloc::AllocError;

/// Returns how a write ended, and truncates the text to its first `start` bytes where it
/// failed: so a writer of several parts undoes those that it has written. It allocates no
/// memory.
///
/// `start` is the length that the text had before; it may not be inside a character.
pub fn rollback_on_error(
    out: &mut String,
    start: usize,
    written: Result<(), AllocError>,
) -> Result<(), AllocError>
    requires { IsCharBoundary (string_bytes out.old) start }
    ensures same { result ≡ written }
    ensures ok { OnOk result (Unchanged out.old out.new) }
    ensures err { OnErr result (string_bytes out.new ≡ take start (string_bytes out.old)) }
{
    if written.is_err() {
        out.truncate(start);
    }
    written
}
