//! Many texts at a time: short ones are gathered and appended at once, so that most of them cost no
//! test of the capacity.

ghost use Rattle.std.specs.Prelude.{◌≡◌, ◌+◌, ◌≤◌, ◌<◌, ◌++◌, take, length, IfOk, OnOk, OnErr};
ghost use Rattle.std.specs.List.{flat_map};
ghost use Rattle.nano_bin_bytes.specs.Containers.{written_text, written_string};
ghost use Rattle.nano_bin.specs.ScalarCodecs.{AppendsSome, Gathers, PutsText};

use nano_bin_bytes::{FixedWidth, append_bytes_after};
use std::alloc::AllocError;

/// So many bytes are gathered before they are appended.
const BLOCK: usize = 1024;
/// From so many texts on, blocks cost less than a test of the capacity for each text.
const MANY: usize = 32;
/// So many bytes hold the length of a text.
const LENGTH: usize = 8;

/// Appends texts, one after the other. On error, `output` is unchanged.
pub(crate) fn append_texts(texts: &[String], output: &mut Vec<u8>) -> Result<(), AllocError>
    ensures ok { OnOk result
        (output.new.items ≡ output.old.items ++ flat_map written_string texts.now) }
    ensures err { OnErr result (output.new.items ≡ output.old.items) }
{
    if texts.len() < MANY {
        append_each(texts, output)
    } else {
        append_blocks(texts, output)
    }
}

/// Appends each text by itself. On error, `output` is unchanged.
fn append_each(texts: &[String], output: &mut Vec<u8>) -> Result<(), AllocError>
    ensures ok { OnOk result
        (output.new.items ≡ output.old.items ++ flat_map written_string texts.now) }
    ensures err { OnErr result (output.new.items ≡ output.old.items) }
{
    let start = output.len();
    for text in texts {
        append_text(text.as_bytes(), output, start)?;
    }
    Ok(())
}

/// Appends texts block by block, once the capacity is there for all of them. On error, `output`
/// is unchanged.
fn append_blocks(texts: &[String], output: &mut Vec<u8>) -> Result<(), AllocError>
    ensures ok { OnOk result
        (output.new.items ≡ output.old.items ++ flat_map written_string texts.now) }
    ensures err { OnErr result (output.new.items ≡ output.old.items) }
{
    let start = output.len();
    output.reserve(capacity_for(texts))?;
    let mut bytes = [0; BLOCK];
    let mut rest = texts;
    while !rest.is_empty() {
        let count = append_some(rest, &mut bytes, output, start)?;
        (_, rest) = rest.split_at(count);
    }
    Ok(())
}

/// How many bytes the texts take. It is for the capacity alone, so it may wrap.
fn capacity_for(texts: &[String]) -> usize {
    let mut capacity = texts.len().wrapping_mul(LENGTH);
    for text in texts {
        capacity = capacity.wrapping_add(text.len());
    }
    capacity
}

/// Appends the texts that fit into a block together, or the first alone where it is longer, and
/// returns how many. On error, it truncates `output` back to its first `start` bytes.
fn append_some(
    texts: &[String],
    bytes: &mut [u8; BLOCK],
    output: &mut Vec<u8>,
    start: usize,
) -> Result<usize, AllocError>
    requires { 0 < length texts.now × start ≤ length output.old.items }
    ensures ok { IfOk result (AppendsSome texts.now output.old.items output.new.items) }
    ensures err { OnErr result (output.new.items ≡ take start output.old.items) }
{
    let (count, end) = gather(texts, bytes);
    if count == 0 {
        append_text(texts[0].as_bytes(), output, start)?;
        return Ok(1);
    }
    append_bytes_after(&bytes[..end], output, start)?;
    Ok(count)
}

/// Puts texts from the first on into a block, as many as fit. Returns how many, and the place
/// after them.
fn gather(texts: &[String], bytes: &mut [u8; BLOCK]) -> (usize, usize)
    ensures { Gathers BLOCK texts.now result.0 bytes.new result.1 }
{
    let mut place = 0;
    for (count, text) in texts.iter().enumerate() {
        if BLOCK - place < LENGTH + text.len() {
            return (count, place);
        }
        place = put_text(text.as_bytes(), place, bytes);
    }
    (texts.len(), place)
}

/// Puts the length and the bytes of a text from `place` on, and returns the place after them.
#[inline(always)]
fn put_text(text: &[u8], place: usize, bytes: &mut [u8; BLOCK]) -> usize
    requires { place + 8 + length text.now ≤ BLOCK }
    ensures { PutsText text.now place bytes.old bytes.new result }
{
    let start = place + LENGTH;
    let end = start + text.len();
    bytes[place..start].copy_from_slice(&text.len().to_bytes());
    bytes[start..end].copy_from_slice(text);
    end
}

/// Appends the length and the bytes of a text. On error, it truncates `output` back to its first
/// `start` bytes.
#[inline(always)]
fn append_text(text: &[u8], output: &mut Vec<u8>, start: usize) -> Result<(), AllocError>
    requires { start ≤ length output.old.items }
    ensures ok { OnOk result (output.new.items ≡ output.old.items ++ written_text text.now) }
    ensures err { OnErr result (output.new.items ≡ take start output.old.items) }
{
    append_bytes_after(&text.len().to_bytes(), output, start)?;
    append_bytes_after(text, output, start)
}
