//! Why bytes are rejected.

ghost use Rattle.std.specs.Prelude.{◌≡◌};
ghost use Rattle.std.specs.Result.{IsOkAnd};
ghost use Rattle.nano_bin_bytes.specs.declared.error.DeBinKind.{DeBinKind};
ghost use Rattle.nano_bin_bytes.specs.Reading.{rejection, own_error};

use std::alloc::AllocError;
use std::error::Error;
use std::fmt;

/// Why bytes were rejected.
#[derive(Copy, PartialEq, Debug)]
pub enum DeBinKind {
    /// Fewer bytes are left than wanted: `o` is the place of the wanted bytes, `l` their number.
    TooShort,
    /// The bytes of a text are not UTF-8: `o` is its first byte, `l` its length.
    NotUtf8,
    /// A `usize`, a length or a count is over `usize::MAX`: `o` is its first byte, `l` is 8.
    TooLong,
    /// Allocation failed. This says nothing about the bytes: `o` is not before the offset that
    /// the reader began at, and `l` is 0.
    Memory,
    /// Made only by the reader of a user-defined type: that reader chooses `l`, and `o` from its
    /// offset on.
    Own,
    /// Bytes come after the value that was to take all of them: `o` is the place after its
    /// code, `l` is 0.
    TrailingBytes,
}

/// An error of a reader: where, how many bytes were wanted, how many there are in all, and why.
#[derive(Copy)]
pub struct DeBinErr {
    /// The place in the bytes.
    pub o: usize,
    /// How many bytes were wanted there.
    pub l: usize,
    /// The number of all bytes.
    pub s: usize,
    /// Why.
    pub kind: DeBinKind,
}

impl Clone for DeBinKind {
    /// The same, without memory.
    fn clone(&self) -> Result<DeBinKind, AllocError>
        ensures { IsOkAnd result (λ copy. copy ≡ self.now) }
    {
        Ok(*self)
    }
}

impl Clone for DeBinErr {
    /// The same fields, without memory.
    fn clone(&self) -> Result<DeBinErr, AllocError>
        ensures { IsOkAnd result (λ copy. copy ≡ self.now) }
    {
        Ok(*self)
    }
}

impl fmt::Display for DeBinErr {
    ghost use Rattle.std.specs.Prelude.{Some};
    ghost use Rattle.nano_bin_bytes.specs.Reading.{printed};

    ghost output = { λ e. Some (printed e) };

    fn fmt<W: fmt::Write>(&self, f: &mut fmt::Formatter<W>) -> fmt::Result {
        let offset = self.o;
        let wanted = self.l;
        let size = self.s;
        write!(
            f,
            "Bin deserialize error at:{offset} wanted:{wanted} bytes but max size is {size}"
        )
    }
}

impl fmt::Debug for DeBinErr {
    ghost use Rattle.std.specs.Prelude.{Some};
    ghost use Rattle.nano_bin_bytes.specs.Reading.{printed};

    ghost debug_output = { λ e. Some (printed e) };

    fn fmt<W: fmt::Write>(&self, f: &mut fmt::Formatter<W>) -> fmt::Result {
        write!(f, "{self}")
    }
}

impl Error for DeBinErr {}

/// The error where fewer bytes are left at the offset than wanted.
#[cold]
#[inline(never)]
pub fn too_short(offset: usize, wanted: usize, bytes: &[u8]) -> DeBinErr
    ensures { result ≡ rejection DeBinKind.TooShort offset wanted bytes.now }
{
    DeBinErr {
        o: offset,
        l: wanted,
        s: bytes.len(),
        kind: DeBinKind::TooShort,
    }
}

/// The error where allocation fails.
#[cold]
#[inline(never)]
pub fn no_memory(offset: usize, bytes: &[u8]) -> DeBinErr
    ensures { result ≡ rejection DeBinKind.Memory offset 0 bytes.now }
{
    DeBinErr {
        o: offset,
        l: 0,
        s: bytes.len(),
        kind: DeBinKind::Memory,
    }
}

/// The error where the code of a value ends at the offset, and bytes come after it.
#[cold]
#[inline(never)]
pub fn trailing_bytes(offset: usize, bytes: &[u8]) -> DeBinErr
    ensures { result ≡ rejection DeBinKind.TrailingBytes offset 0 bytes.now }
{
    DeBinErr {
        o: offset,
        l: 0,
        s: bytes.len(),
        kind: DeBinKind::TrailingBytes,
    }
}

/// The error of a value, where the bytes are to be one value and no more. `TrailingBytes` is
/// reserved for what comes after the value: if a reader of a user-defined type makes it, it is
/// passed on as `Own`.
#[cold]
#[inline(never)]
pub fn as_value_error(error: DeBinErr) -> DeBinErr
    ensures { result ≡ own_error error }
{
    match error.kind {
        DeBinKind::TrailingBytes => DeBinErr {
            kind: DeBinKind::Own,
            ..error
        },
        _ => error,
    }
}

/// The error where this many bytes of a text at the offset are not UTF-8.
#[cold]
#[inline(never)]
pub fn not_utf8(offset: usize, length: usize, bytes: &[u8]) -> DeBinErr
    ensures { result ≡ rejection DeBinKind.NotUtf8 offset length bytes.now }
{
    DeBinErr {
        o: offset,
        l: length,
        s: bytes.len(),
        kind: DeBinKind::NotUtf8,
    }
}
