//! An enum with a type parameter in most of its variants, as bytes.

use crate::type_checks::holds;
use nanoserde::{DeBin, SerBin};
use std::alloc::Global;
use test_types::Guess;

/// A guess of a byte of each shape.
const GUESSES: &[&[u8]] = &[
    &[0, 0],
    &[1, 0, 7],
    &[2, 0, 2, 0, 0, 0, 0, 0, 0, 0, 1, 2],
    &[3, 0, 7, 9],
    &[4, 0, 1, 1, 5],
    &[4, 0, 1, 0],
    &[5, 0, 1, 3],
    &[6, 0, 4],
    &[7, 0, 9, 1, 2],
];

/// All of the bytes are a guess, and are what is written of it.
fn is_code(alloc: Global, bytes: &[u8]) -> bool {
    let Ok(guess) = Guess::<u8>::deserialize_bin_whole(alloc, bytes) else {
        return false;
    };
    match guess.serialize_bin(alloc) {
        Ok(written) => written.as_slice() == bytes,
        Err(_error) => false,
    }
}

#[test]
fn guesses_are_read_and_written_back(rt: HostRuntime) {
    for code in GUESSES {
        holds(&rt, is_code(rt.alloc(), *code), "a guess");
    }
}
