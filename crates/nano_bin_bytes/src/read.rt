//! Reading bytes from an offset on.

ghost use Rattle.std.specs.Prelude.{◌≡◌, ◌+◌, ◌*◌, ◌/◌, ◌<◌, map, length, drop, string_bytes, IfOk};
ghost use Rattle.std.specs.Prelude.{IfErr, OnOk};
ghost use Rattle.nano_value.specs.Meaning.{whole};
ghost use Rattle.nano_bin_bytes.specs.Reading.{Decodes, ReadsNoneWhereShort, ReadsNoStringOf};
ghost use Rattle.nano_bin_bytes.specs.Scalars.{EncodesUnsigned};
ghost use Rattle.nano_bin_bytes.specs.Containers.{EncodesCount, IsChunk, IsTextOf};

use crate::error::{DeBinErr, no_memory, not_utf8, too_short};
use std::alloc::Global;

/// The bytes from an offset on: none where it is past the end.
pub fn rest(bytes: &[u8], offset: usize) -> &[u8]
    ensures { result.now ≡ drop offset bytes.now }
{
    if offset <= bytes.len() {
        &bytes[offset..]
    } else {
        &bytes[bytes.len()..]
    }
}

/// Reads the next `N` bytes from `offset` on, and sets `offset` after them. It allocates
/// nothing.
///
/// Where fewer bytes are left, the error reports `offset` and `N`, and `offset` is unchanged.
pub fn read_array<const N: usize>(offset: &mut usize, bytes: &[u8]) -> Result<[u8; N], DeBinErr>
    ensures ok { IfOk result (λ read. Decodes (IsChunk N) bytes.now offset.old read offset.new) }
    ensures err { IfErr result
        (ReadsNoneWhereShort (IsChunk N) bytes.now offset.old offset.new offset.old N) }
{
    match rest(bytes, *offset).first_chunk::<N>() {
        Some(read) => {
            *offset += N;
            Ok(*read)
        }
        None => Err(too_short(*offset, N, bytes)),
    }
}

/// Reads `count` chunks of `N` bytes each from `offset` on, and sets `offset` after the last.
/// It allocates nothing.
///
/// Where fewer chunks are left, the error is that of the first chunk that is cut short, and
/// `offset` is unchanged.
pub fn read_chunks<'a, const N: usize>(
    count: usize,
    offset: &mut usize,
    bytes: &'a [u8],
) -> Result<&'a [[u8; N]], DeBinErr>
    requires { 0 < N }
    ensures ok { IfOk result (λ read.
        Decodes (EncodesCount count (IsChunk N)) bytes.now offset.old read.now offset.new) }
    ensures moved { OnOk result (offset.new ≡ offset.old + count * N) }
    ensures err { IfErr result
        (ReadsNoneWhereShort (EncodesCount count (IsChunk N)) bytes.now offset.old offset.new
        (offset.old + length (drop offset.old bytes.now) / N * N) N) }
{
    let (chunks, _) = rest(bytes, *offset).as_chunks::<N>();
    if chunks.len() < count {
        return Err(too_short(*offset + chunks.len() * N, N, bytes));
    }
    *offset += count * N;
    Ok(&chunks[..count])
}

/// Reads `count` bytes from `offset` on, and sets `offset` after them. It allocates nothing.
///
/// Where fewer bytes are left, the error is that of the first missing byte, and `offset` is
/// unchanged.
pub fn read_bytes<'a>(
    count: usize,
    offset: &mut usize,
    bytes: &'a [u8],
) -> Result<&'a [u8], DeBinErr>
    ensures ok { IfOk result (λ read.
        Decodes (EncodesCount count (EncodesUnsigned 1)) bytes.now offset.old
        (map whole read.now) offset.new) }
    ensures err { IfErr result
        (ReadsNoneWhereShort (EncodesCount count (EncodesUnsigned 1)) bytes.now offset.old
        offset.new (offset.old + length (drop offset.old bytes.now)) 1) }
{
    let rest = rest(bytes, *offset);
    if rest.len() < count {
        return Err(too_short(*offset + rest.len(), 1, bytes));
    }
    *offset += count;
    Ok(&rest[..count])
}

/// Reads `count` bytes of UTF-8 from `offset` on as a new text, and sets `offset` after them.
///
/// It fails where fewer bytes are left, where they are not UTF-8, and where allocation of the
/// text fails; every error leaves `offset` unchanged.
#[inline(always)]
pub fn read_utf8(
    alloc: Global,
    count: usize,
    offset: &mut usize,
    bytes: &[u8],
) -> Result<String, DeBinErr>
    ensures ok { IfOk result (λ text.
        Decodes (IsTextOf count) bytes.now offset.old (string_bytes text) offset.new) }
    ensures err { IfErr result (ReadsNoStringOf count bytes.now offset.old offset.new) }
{
    let rest = rest(bytes, *offset);
    if rest.len() < count {
        return Err(too_short(*offset, count, bytes));
    }
    let Ok(utf8) = str::from_utf8(&rest[..count]) else {
        return Err(not_utf8(*offset, count, bytes));
    };
    let Ok(text) = String::from_str(alloc, utf8) else {
        return Err(no_memory(*offset, bytes));
    };
    *offset += count;
    Ok(text)
}
