//! The calls of `nano_bin_bytes` that build user-defined types of a fixed width, the items of a
//! type, and the laws of `nano_bin`: each is made once, with its answer.

use crate::checks::{holds, is_made, is_so};
use nano_bin::{DeBin, SerBin, append_part, laws};
use nano_bin_bytes::{
    DeBinErr, DeBinKind, FixedWidth, append_bytes, append_bytes_after, append_number, append_run,
    as_value_error, no_memory, not_utf8, read_array, read_bytes, read_chunks, read_number,
    read_run, read_utf8, rest, too_short, trailing_bytes,
};
use std::alloc::{AllocError, Global};
use std::collections::{BTreeMap, BTreeSet, HashMap, HashSet};

/// What the calls append, one after the other.
const APPENDED: &[u8] = &[
    9, 1, 2, 3, 2, 1, 254, 255, 3, 0, 1, 7, 2, 1, 3, 0, 0, 1, 5, 1, 0, 2, 0,
];

/// Appends bytes, numbers, a part, items and a slice.
fn append(alloc: Global, output: &mut Vec<u8>) -> Result<(), AllocError> {
    append_bytes(output, &[1, 2])?;
    append_bytes_after(&[3], output, 1)?;
    append_number::<u16, 2>(&258, output)?;
    append_run::<i16, 2>(&[-2, 3], output)?;
    append_part(alloc, &Some(7u8), output, 1)?;
    u16::ser_bin_items(alloc, &[258, 3], output)?;
    Option::<u8>::ser_bin_items(alloc, &[None, Some(5)], output)?;
    (&[1u16, 2][..]).ser_bin(alloc, output)
}

/// Whether these are appended.
fn are_appended(alloc: Global) -> Result<bool, AllocError> {
    let mut output = vec![in alloc; 9u8]?;
    append(alloc, &mut output)?;
    Ok(output.as_slice() == APPENDED)
}

/// A byte, two numbers of two bytes, and a text of two characters.
const BYTES: &[u8] = &[9, 2, 1, 254, 255, 97, 195, 169];

const NUMBERS: &[i16] = &[258, -2];

/// Whether two bytes, a number and a text are read, one after the other.
fn parts_are_read(alloc: Global) -> Result<bool, DeBinErr> {
    let mut offset = 1;
    let array = read_array::<2>(&mut offset, BYTES)?;
    let number = read_number::<i16, 2>(&mut offset, BYTES)?;
    let text = read_utf8(alloc, 3, &mut offset, BYTES)?;
    Ok(array == [2, 1] && number == -2 && text.as_str() == "aé" && offset == 8)
}

/// Whether four bytes are read as chunks, and as bytes.
fn slices_are_read() -> Result<bool, DeBinErr> {
    let (mut one, mut two) = (1, 1);
    let chunks = read_chunks::<2>(2, &mut one, BYTES)?;
    let bytes = read_bytes(4, &mut two, BYTES)?;
    let are_bytes = chunks == [[2u8, 1], [254, 255]].as_slice()
        && bytes == [2u8, 1, 254, 255].as_slice();
    Ok(are_bytes && one == 5 && two == 5)
}

/// Whether four bytes are read as the numbers of a run, and of items.
fn runs_are_read(alloc: Global) -> Result<bool, DeBinErr> {
    let (mut one, mut two) = (1, 1);
    let run = read_run::<i16, 2>(alloc, 2, &mut one, BYTES)?;
    let items = i16::de_bin_items(alloc, 2, &mut two, BYTES)?;
    Ok(run.as_slice() == NUMBERS && items.as_slice() == NUMBERS && one == 5 && two == 5)
}

/// Whether items of a type that has no reader of many at once are read.
fn items_are_read(alloc: Global) -> Result<bool, DeBinErr> {
    let mut offset = 0;
    let read = Option::<u8>::de_bin_items(alloc, 2, &mut offset, &[1, 7, 0])?;
    Ok(read.as_slice() == [Some(7u8), None].as_slice() && offset == 3)
}

/// Whether values are read back by the laws of what was written.
fn are_back(alloc: Global) -> Result<bool, DeBinErr> {
    let mut offset = 1;
    let one = laws::read_back(alloc, &7u8, &mut offset, &[77, 7, 8, 2, 1])?;
    let two = laws::read_both_back(alloc, &8u8, &258u16, &mut offset, &[77, 7, 8, 2, 1])?;
    let whole = laws::read_back_whole(alloc, &258u16, &[2, 1])?;
    let mut place = 1;
    let equal = laws::read_back_equal(alloc, &7u8, &mut place, &[77, 7, 8])?;
    let places = offset == 5 && place == 2;
    Ok(one == 7 && two.0 == 8 && two.1 == 258 && whole == 258 && equal == 7 && places)
}

#[test]
fn bytes_are_appended_and_read(rt: HostRuntime) {
    let alloc = rt.alloc();
    is_so(&rt, are_appended(alloc), "appended");
    holds(&rt, parts_are_read(alloc).unwrap_or(false), "parts");
    holds(&rt, slices_are_read().unwrap_or(false), "slices");
    holds(&rt, runs_are_read(alloc).unwrap_or(false), "runs");
    holds(&rt, items_are_read(alloc).unwrap_or(false), "items");
    holds(&rt, are_back(alloc).unwrap_or(false), "back");
    let bytes = (-2i32).to_bytes();
    holds(&rt, bytes == [254, 255, 255, 255], "to_bytes");
    holds(&rt, i32::from_bytes(&bytes) == -2, "from_bytes");
    holds(&rt, rest(BYTES, 6) == [195u8, 169].as_slice(), "rest");
    holds(&rt, rest(BYTES, 9).is_empty(), "rest past the end");
}

/// Whether the error is of this kind, with these numbers.
fn is_error(error: DeBinErr, kind: DeBinKind, place: usize, wanted: usize, size: usize) -> bool {
    error.kind == kind && error.o == place && error.l == wanted && error.s == size
}

/// Whether an answer is an error of this kind over the eight bytes.
fn is_rejected<T: Drop>(
    read: Result<T, DeBinErr>,
    kind: DeBinKind,
    place: usize,
    wanted: usize,
) -> bool {
    match read {
        Ok(_value) => false,
        Err(error) => is_error(error, kind, place, wanted, 8),
    }
}

/// Whether each reader rejects these bytes in this way.
fn are_rejected(alloc: Global) -> bool {
    use DeBinKind::{NotUtf8, TooShort};
    is_rejected(read_array::<2>(&mut 7, BYTES), TooShort, 7, 2)
        && is_rejected(read_number::<i16, 2>(&mut 9, BYTES), TooShort, 9, 2)
        && is_rejected(read_chunks::<2>(2, &mut 5, BYTES), TooShort, 7, 2)
        && is_rejected(read_bytes(4, &mut 6, BYTES), TooShort, 8, 1)
        && is_rejected(read_run::<i16, 2>(alloc, 2, &mut 5, BYTES), TooShort, 7, 2)
        && is_rejected(read_utf8(alloc, 3, &mut 3, BYTES), NotUtf8, 3, 3)
        && is_rejected(read_utf8(alloc, 3, &mut 6, BYTES), TooShort, 6, 3)
}

/// Whether each call that makes an error makes this one.
fn are_made() -> bool {
    use DeBinKind::{Memory, NotUtf8, Own, TooShort, TrailingBytes};
    let short = too_short(3, 4, &[0; 5]);
    let trailing = trailing_bytes(3, &[0; 5]);
    is_error(no_memory(3, &[0; 5]), Memory, 3, 0, 5)
        && is_error(not_utf8(1, 2, &[0; 5]), NotUtf8, 1, 2, 5)
        && is_error(as_value_error(trailing), Own, 3, 0, 5)
        && is_error(as_value_error(short), TooShort, 3, 4, 5)
        && is_error(trailing, TrailingBytes, 3, 0, 5)
        && is_error(short, TooShort, 3, 4, 5)
}

/// An error in words, and a copy of it for whom looks into it.
fn shown(alloc: Global, error: &DeBinErr) -> Result<String, AllocError> {
    let again = error.clone()?;
    let kind = error.kind.clone()?;
    format!(in alloc; "{error}, {again:?}, {kind:?}")
}

#[test]
fn bytes_are_rejected(rt: HostRuntime) {
    holds(&rt, are_rejected(rt.alloc()), "a reader");
    holds(&rt, are_made(), "an error that is made");
    let expected = "Bin deserialize error at:8 wanted:3 bytes but max size is 10, \
        Bin deserialize error at:8 wanted:3 bytes but max size is 10, TooShort";
    let error = too_short(8, 3, &[0; 10]);
    is_made(&rt, shown(rt.alloc(), &error), expected);
}

#[test]
fn laws_are_called(rt: HostRuntime) {
    let alloc = rt.alloc();
    laws::same_bytes_same_meaning(&1u16, &1);
    laws::same_meaning_same_bytes(&1u16, &1);
    laws::same_items_same_bytes(&HashSet::<u16>::new(alloc), &BTreeSet::<u16>::new(alloc));
    laws::same_map_same_bytes(
        &HashMap::<i16, bool>::new(alloc),
        &BTreeMap::<i16, bool>::new(alloc),
    );
    laws::same_entries_same_bytes::<i16, bool>();
    laws::encoded_is_legal::<u16>();
    laws::one_encoding_one_value::<u16>();
    laws::no_encoding_begins_another::<u16>();
    laws::at_most_one_decodes::<u16>();
}
