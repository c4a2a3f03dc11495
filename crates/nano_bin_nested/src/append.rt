//! Writing one part after the other.

ghost use Rattle.std.specs.Prelude.{◌≡◌, ◌++◌, take, OnOk, OnErr};
ghost use Rattle.nano_bin_bytes.specs.Scalars.{little_endian};

use crate::traits::WritesBin;
use nano_bin::{SerBin, append_part};
use std::alloc::{AllocError, Global};

/// Appends the bytes of a part that holds values of the type itself. On an error, it truncates
/// `output` back to its first `start` bytes: so a writer of several parts undoes those that it has
/// written.
pub fn append_part_within<T: WritesBin>(
    alloc: Global,
    part: &T,
    output: &mut Vec<u8>,
    start: usize,
) -> Result<(), AllocError>
    ensures ok { OnOk result
        (output.new.items ≡ output.old.items ++ T.bin.canonical.written part.now) }
    ensures err { OnErr result (output.new.items ≡ take start output.old.items) }
{
    let written = part.write_bin(alloc, output);
    if written.is_err() {
        output.truncate(start);
    }
    written
}

/// Appends a tag, and content that holds no values of the enum. On an error, `output` is unchanged.
pub fn append_variant<T: SerBin>(
    alloc: Global,
    tag: u16,
    content: &T,
    output: &mut Vec<u8>,
) -> Result<(), AllocError>
    ensures ok { OnOk result (output.new.items ≡ output.old.items
        ++ (little_endian 2 tag ++ T.bin.canonical.written content.now)) }
    ensures err { OnErr result (output.new.items ≡ output.old.items) }
{
    let start = output.len();
    tag.ser_bin(alloc, output)?;
    append_part(alloc, content, output, start)
}

/// Appends a tag, and content that holds values of the enum. On an error, `output` is unchanged.
pub fn append_variant_within<T: WritesBin>(
    alloc: Global,
    tag: u16,
    content: &T,
    output: &mut Vec<u8>,
) -> Result<(), AllocError>
    ensures ok { OnOk result (output.new.items ≡ output.old.items
        ++ (little_endian 2 tag ++ T.bin.canonical.written content.now)) }
    ensures err { OnErr result (output.new.items ≡ output.old.items) }
{
    let start = output.len();
    tag.ser_bin(alloc, output)?;
    append_part_within(alloc, content, output, start)
}
