//! Bytes looked at sixteen at a time.

ghost use Rattle.std.specs.Prelude.{◌≡◌, ◌≢◌, ◌<◌, ◌≤◌, ◌+◌, ℕ, true, false, length, slice_index};
ghost use Rattle.std.specs.Prelude.{◌%◌, ◌^◌, count_by, count_ones, take, drop};
ghost use Rattle.nano_text.specs.Characters.{first_set};
ghost use Rattle.nano_text.specs.Place.{begins_character};
ghost use Rattle.nano_text.specs.Scan.{is_blank};
ghost use Rattle.nano_text.specs.String.{is_plain_in_line};

use std::simd::prelude::*;

/// How many bytes are looked at together.
pub(crate) const LANES: usize = 16;

/// The place of the lowest bit that is set, or how many lanes there are.
#[inline(always)]
fn first_set(mask: u64, lanes: usize) -> usize
    ensures { result ≡ first_set mask lanes }
{
    if mask == 0 {
        lanes
    } else {
        mask.trailing_zeros() as usize
    }
}

/// Those of sixteen bytes that stand for themselves in a string, and in its line, before the first
/// that does not.
#[derive(Clone, Copy)]
pub(crate) struct PlainLanes {
    /// How many bytes they are.
    pub(crate) len: usize,
    /// How many characters begin in them.
    pub(crate) columns: usize,
}

/// How many of the first lanes have their bits set.
#[inline(always)]
fn count_first(mask: u64, lanes: usize) -> usize
    requires { lanes ≤ 16 }
    ensures { result ≡ count_ones (mask % 2 ^ lanes) }
{
    (mask & ((1 << lanes) - 1)).count_ones() as usize
}

/// Looks at the sixteen bytes from a place on.
#[inline(always)]
pub(crate) fn plain_lanes(bytes: &[u8], from: usize) -> PlainLanes
    requires { from + 16 ≤ length bytes.now }
    ensures within { result.len ≤ 16 }
    ensures plain { (k : ℕ) → from ≤ k → k < from + result.len
        → is_plain_in_line (slice_index bytes.now k) ≡ true }
    ensures stops { result.len < 16
        → is_plain_in_line (slice_index bytes.now (from + result.len)) ≡ false }
    ensures columns { result.columns
        ≡ count_by begins_character (take result.len (drop from bytes.now)) }
{
    let lanes = u8x16::from_slice(&bytes[from..]);
    let is_control = lanes.simd_lt(u8x16::splat(b' '));
    let is_quote = lanes.simd_eq(u8x16::splat(b'"'));
    let is_backslash = lanes.simd_eq(u8x16::splat(b'\\'));
    let len = first_set((is_control | is_quote | is_backslash).to_bitmask(), LANES);
    let begins = lanes.simd_lt(u8x16::splat(0x80)) | lanes.simd_ge(u8x16::splat(0xC0));
    let columns = count_first(begins.to_bitmask(), len);
    PlainLanes { len, columns }
}

/// How many of the sixteen bytes from a place on are blanks before the first that is none.
#[inline(always)]
pub(crate) fn blank_lanes(bytes: &[u8], from: usize) -> usize
    requires { from + 16 ≤ length bytes.now }
    ensures within { result ≤ 16 }
    ensures blanks { (k : ℕ) → from ≤ k → k < from + result
        → is_blank (slice_index bytes.now k) ≡ true }
    ensures stops { result < 16 → is_blank (slice_index bytes.now (from + result)) ≡ false }
{
    let lanes = u8x16::from_slice(&bytes[from..]);
    first_set(lanes.simd_ne(u8x16::splat(b' ')).to_bitmask(), LANES)
}

/// How many of the bytes from a place on, up to the lanes, surely stand for themselves in a string,
/// and in its line: ASCII and beyond. DEL is left out, which may be written with an escape.
#[inline(always)]
fn unescaped_lanes<const N: usize>(bytes: &[u8], from: usize) -> usize
    requires { (from + N ≤ length bytes.now) × (N ≤ 64) }
    ensures within { result ≤ N }
    ensures plain { (k : ℕ) → from ≤ k → k < from + result
        → (is_plain_in_line (slice_index bytes.now k) ≡ true) × (slice_index bytes.now k ≢ 127) }
{
    let lanes = Simd::<u8, N>::from_slice(&bytes[from..]);
    let is_control = lanes.simd_lt(Simd::splat(b' ')) | lanes.simd_eq(Simd::splat(0x7F));
    let is_quote = lanes.simd_eq(Simd::splat(b'"'));
    let is_backslash = lanes.simd_eq(Simd::splat(b'\\'));
    first_set((is_control | is_quote | is_backslash).to_bitmask(), N)
}

/// Counts the first bytes that surely stand for themselves, so many in a turn. The last lanes end
/// where the bytes do, and may begin with bytes that are counted already.
#[inline(always)]
fn unescaped_by<const N: usize>(bytes: &[u8]) -> usize
    requires { (0 < N) × (N ≤ length bytes.now) × (N ≤ 64) }
    ensures within { result ≤ length bytes.now }
    ensures plain { (k : ℕ) → k < result
        → (is_plain_in_line (slice_index bytes.now k) ≡ true) × (slice_index bytes.now k ≢ 127) }
{
    let last = bytes.len() - N;
    let mut len = 0;
    'lanes: while len < last {
        let plain = unescaped_lanes::<N>(bytes, len);
        len += plain;
        if plain < N {
            return len;
        }
    }
    last + unescaped_lanes::<N>(bytes, last)
}

/// Counts the first bytes that surely stand for themselves in a string, and in its line, sixteen in
/// a turn, or fewer where there are not so many. More may follow.
pub(crate) fn unescaped_run(bytes: &[u8]) -> usize
    ensures within { result ≤ length bytes.now }
    ensures plain { (k : ℕ) → k < result
        → (is_plain_in_line (slice_index bytes.now k) ≡ true) × (slice_index bytes.now k ≢ 127) }
{
    if bytes.len() >= 16 {
        unescaped_by::<16>(bytes)
    } else if bytes.len() >= 8 {
        unescaped_by::<8>(bytes)
    } else if bytes.len() >= 4 {
        unescaped_by::<4>(bytes)
    } else {
        0
    }
}
