//! How much may be left to read.

ghost use Rattle.std.specs.Prelude.{◌≡◌, ◌<◌, ◌^◌, length};
ghost use Rattle.std.specs.Str.Iter.{chars_rest};

use std::str::Chars;

/// How many bytes the characters still hold.
#[inline]
pub fn bytes_left(i: &Chars<'_>) -> usize
    ensures value { result ≡ length (chars_rest i.now) }
    ensures small { result < 2 ^ 63 }
{
    i.as_str().len()
}
