//! Numbers of a fixed width: their bytes, one number or many at a time.

ghost use Rattle.std.specs.Prelude.{◌≡◌, ◌+◌, ◌*◌, ◌/◌, ◌≤◌, ◌<◌, ◌++◌, map, take, length, IfOk};
ghost use Rattle.std.specs.Prelude.{IfErr, OnOk, OnErr};
ghost use Rattle.std.specs.List.{flat_map};
ghost use Rattle.nano_bin_bytes.specs.Reading.{Decodes, ReadsNoneWhereShort, ReadsNoRun};
ghost use Rattle.nano_bin_bytes.specs.Containers.{EncodesCount};

use crate::append::{append_bytes, append_bytes_after};
use crate::error::{DeBinErr, no_memory};
use crate::read::{read_array, read_chunks};
use crate::widths::FixedWidth;
use std::alloc::{AllocError, Global};

/// So many numbers are gathered before their bytes are appended.
const BLOCK: usize = 64;

/// Appends the `N` bytes of a number. If allocation fails, `output` is unchanged.
pub fn append_number<T: FixedWidth<N>, const N: usize>(
    number: &T,
    output: &mut Vec<u8>,
) -> Result<(), AllocError>
    requires { N ≤ 16 }
    ensures ok { OnOk result (output.new.items ≡ output.old.items ++ T.as_bytes number.now) }
    ensures err { OnErr result (output.new.items ≡ output.old.items) }
{
    append_bytes(output, &number.to_bytes())
}

/// Appends the `N` bytes of each number, one after the other. If allocation fails, `output` is
/// unchanged.
pub fn append_run<T: FixedWidth<N>, const N: usize>(
    numbers: &[T],
    output: &mut Vec<u8>,
) -> Result<(), AllocError>
    requires { N ≤ 16 }
    ensures ok { OnOk result
        (output.new.items ≡ output.old.items ++ flat_map T.as_bytes numbers.now) }
    ensures err { OnErr result (output.new.items ≡ output.old.items) }
{
    let start = output.len();
    let mut bytes = [[0; N]; BLOCK];
    let mut rest = numbers;
    while !rest.is_empty() {
        let (block, following) = rest.split_at(rest.len().min(BLOCK));
        gather(block, &mut bytes);
        append_bytes_after(bytes[..block.len()].as_flattened(), output, start)?;
        rest = following;
    }
    Ok(())
}

/// Puts the bytes of each number into the places from the first on.
fn gather<T: FixedWidth<N>, const N: usize>(numbers: &[T], bytes: &mut [[u8; N]])
    requires { length numbers.now ≤ length bytes.old }
    ensures { take (length numbers.now) bytes.new ≡ map T.as_bytes numbers.now }
{
    for (place, number) in numbers.iter().enumerate() {
        bytes[place] = number.to_bytes();
    }
}

/// Reads a number from the next `N` bytes, and sets `offset` after them. It allocates nothing,
/// and fails exactly where fewer bytes are left; then `offset` is unchanged.
pub fn read_number<T: FixedWidth<N>, const N: usize>(
    offset: &mut usize,
    bytes: &[u8],
) -> Result<T, DeBinErr>
    requires { N ≤ 16 }
    ensures ok { IfOk result (λ value.
        Decodes T.encodes bytes.now offset.old (T.means value) offset.new) }
    ensures err { IfErr result
        (ReadsNoneWhereShort T.encodes bytes.now offset.old offset.new offset.old N) }
{
    let read = read_array::<N>(offset, bytes)?;
    Ok(T::from_bytes(&read))
}

/// Reads `count` numbers of `N` bytes each, one after the other, and sets `offset` after the
/// last.
///
/// An error other than out of memory is that of the first number that is cut short. Every error
/// leaves `offset` unchanged.
pub fn read_run<T: FixedWidth<N>, const N: usize>(
    alloc: Global,
    count: usize,
    offset: &mut usize,
    bytes: &[u8],
) -> Result<Vec<T>, DeBinErr>
    requires { 0 < N × N ≤ 16 }
    ensures ok { IfOk result (λ numbers.
        Decodes (EncodesCount count T.encodes) bytes.now offset.old
        (map T.means numbers.items) offset.new) }
    ensures err { IfErr result
        (ReadsNoRun (EncodesCount count T.encodes) bytes.now offset.old offset.new count N) }
{
    let mut at = *offset;
    let chunks = read_chunks::<N>(count, &mut at, bytes)?;
    let Ok(numbers) = numbers_of(alloc, chunks) else {
        return Err(no_memory(at, bytes));
    };
    *offset = at;
    Ok(numbers)
}

/// The numbers of chunks of bytes.
fn numbers_of<T: FixedWidth<N>, const N: usize>(
    alloc: Global,
    chunks: &[[u8; N]],
) -> Result<Vec<T>, AllocError>
    requires { N ≤ 16 }
    ensures { IfOk result (λ numbers. numbers.items ≡ map T.of_bytes chunks.now) }
{
    chunks
        .iter()
        .map(
            |chunk: &[u8; N]| -> T
                ensures { result ≡ T.of_bytes chunk.now }
            { T::from_bytes(chunk) },
        )
        .collect(alloc)
}
