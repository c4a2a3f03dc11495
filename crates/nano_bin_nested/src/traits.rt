//! What a type that contains itself is read by, and what it is written by.

use nano_bin::{BinCodec, DeBinErr};
use std::alloc::{AllocError, Global};

/// What reads values of a type from bytes: how many levels may follow.
pub trait ReadsBin<T: BinCodec> {
    ghost use Rattle.std.specs.Prelude.{IfOk, IfErr};
    ghost use Rattle.nano_bin_bytes.specs.Reading.{Decodes, ReadsNone};

    /// Reads the value that a prefix of the bytes from `offset` on encodes, and sets `offset` after
    /// that prefix.
    ///
    /// # Errors
    ///
    /// No prefix of those bytes encodes a value, or memory ran out, as it does where no more levels
    /// may follow (`DeBinKind::Memory`). Every error leaves `offset` unchanged.
    fn read_bin(&self, alloc: Global, offset: &mut usize, bytes: &[u8]) -> Result<T, DeBinErr>
        ensures ok { IfOk result (λ value.
            Decodes T.bin.encoding.encodes bytes.now offset.old (T.means value) offset.new) }
        ensures err { IfErr result
            (ReadsNone T.bin.encoding.encodes bytes.now offset.old offset.new) };
}

/// A value that is written as bytes by one method, through which a type may lead back to itself.
pub trait WritesBin: BinCodec {
    ghost use Rattle.std.specs.Prelude.{◌≡◌, ◌++◌, OnOk, OnErr};

    /// Appends the canonical encoding of the value to `output`.
    ///
    /// # Errors
    ///
    /// Out of memory alone, and then `output` is unchanged.
    fn write_bin(&self, alloc: Global, output: &mut Vec<u8>) -> Result<(), AllocError>
        ensures ok { OnOk result
            (output.new.items ≡ output.old.items ++ Self.bin.canonical.written self.now) }
        ensures err { OnErr result (output.new.items ≡ output.old.items) };
}
