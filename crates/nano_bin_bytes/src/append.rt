//! Appending bytes.

ghost use Rattle.std.specs.Prelude.{◌≡◌, ◌++◌, take, OnOk, OnErr};

use std::alloc::AllocError;

/// Appends bytes. If allocation fails, `output` is unchanged.
pub fn append_bytes(output: &mut Vec<u8>, bytes: &[u8]) -> Result<(), AllocError>
    ensures ok { OnOk result (output.new.items ≡ output.old.items ++ bytes.now) }
    ensures err { OnErr result (output.new.items ≡ output.old.items) }
{
    output.extend_from_slice(bytes)
}

/// Appends bytes after others that belong to the same value, which begins at byte `start` of
/// `output`. If allocation fails, `output` is cut back to its first `start` bytes.
pub fn append_bytes_after(
    bytes: &[u8],
    output: &mut Vec<u8>,
    start: usize,
) -> Result<(), AllocError>
    ensures ok { OnOk result (output.new.items ≡ output.old.items ++ bytes.now) }
    ensures err { OnErr result (output.new.items ≡ take start output.old.items) }
{
    let appended = output.extend_from_slice(bytes);
    if appended.is_err() {
        output.truncate(start);
    }
    appended
}
