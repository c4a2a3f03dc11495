//! The format of a type, its writer and its reader.

use nano_bin_bytes::{DeBinErr, as_value_error, no_memory, trailing_bytes};
use nano_value::Value;
use std::alloc::{AllocError, Global};

/// A type that has an encoding as bytes. A type that is only written has one too.
pub trait BinCodec: Value {
    ghost use Rattle.nano_value.specs.Meaning.{Agrees};
    ghost use Rattle.nano_bin_bytes.specs.Codec.{Codec};

    /// The canonical encoding of each value, and which bytes encode which meaning.
    ghost bin: { Codec Self };

    /// The format is of what the values mean, and of the meanings that are legal.
    ghost agrees: { Agrees Self.means Self.legal bin.canonical.means bin.encoding.legal };
}

/// A value that can be written as bytes.
pub trait SerBin: BinCodec {
    ghost use Rattle.std.specs.Prelude.{◌≡◌, ◌++◌, IfOk, OnOk, OnErr};
    ghost use Rattle.std.specs.List.{flat_map};

    /// Appends the canonical encoding of the value to `output`.
    ///
    /// # Errors
    ///
    /// Out of memory alone, and then `output` is unchanged.
    ///
    /// # Examples
    ///
    /// ```
    /// let mut code = vec![in alloc; 255]?;
    /// 7u16.ser_bin(alloc, &mut code)?;
    /// ```
    fn ser_bin(&self, alloc: Global, output: &mut Vec<u8>) -> Result<(), AllocError>
        ensures ok { OnOk result
            (output.new.items ≡ output.old.items ++ Self.bin.canonical.written self.now) }
        ensures err { OnErr result (output.new.items ≡ output.old.items) };

    /// Returns the canonical encoding of the value, as a new list of bytes.
    ///
    /// # Errors
    ///
    /// Out of memory alone.
    ///
    /// # Examples
    ///
    /// ```
    /// let code = vec![in alloc; 1u16, 2]?.serialize_bin(alloc)?;
    /// ```
    final fn serialize_bin(&self, alloc: Global) -> Result<Vec<u8>, AllocError>
        ensures { IfOk result (λ bytes. bytes.items ≡ Self.bin.canonical.written self.now) }
    {
        let mut output = Vec::new(alloc);
        self.ser_bin(alloc, &mut output)?;
        Ok(output)
    }

    /// Appends the canonical encoding of each item, one after the other. On error, `output` is
    /// unchanged.
    ///
    /// A type whose items lie in memory as they are written gives a body that copies them at
    /// once.
    fn ser_bin_items(alloc: Global, items: &[Self], output: &mut Vec<u8>) -> Result<(), AllocError>
        ensures ok { OnOk result
            (output.new.items ≡ output.old.items ++ flat_map Self.bin.canonical.written items.now) }
        ensures err { OnErr result (output.new.items ≡ output.old.items) }
    {
        let start = output.len();
        for item in items {
            let written = item.ser_bin(alloc, output);
            if written.is_err() {
                output.truncate(start);
                return written;
            }
        }
        Ok(())
    }
}

/// A value that can be read from bytes.
pub trait DeBin: BinCodec + Drop {
    ghost use Rattle.std.specs.Prelude.{◌≡◌, true, map, IfOk, IfErr};
    ghost use Rattle.nano_bin_bytes.specs.Reading.{DecodesTo, Decodes, Rejects, ReadsNone};
    ghost use Rattle.nano_bin_bytes.specs.Reading.{RejectsWhole, IsOfTrailing, NamesTrailing};
    ghost use Rattle.nano_bin_bytes.specs.Reading.{RejectsWithMore, RejectsWholeWithMore, IsReport};
    ghost use Rattle.nano_bin_bytes.specs.Containers.{EncodesCount};

    /// Reads the value that a prefix of the bytes from `offset` on encodes, and sets `offset`
    /// after that prefix.
    ///
    /// `offset` counts bytes from 0. An offset past the end leaves no bytes to read.
    ///
    /// # Errors
    ///
    /// No prefix of those bytes encodes a value, or memory ran out (`DeBinKind::Memory`). Every
    /// error leaves `offset` unchanged.
    ///
    /// More bytes can help where the kind is `TooShort`: those at hand are too few. Of an error
    /// of another kind they do not: but for `Memory`, no value is encoded there, whatever bytes
    /// follow.
    ///
    /// The error tells the number of all bytes, and a place that is not before `offset`: there
    /// fewer bytes are left than it wants (`TooShort`), or so many bytes are not UTF-8
    /// (`NotUtf8`). Out of memory wants no bytes.
    ///
    /// # Examples
    ///
    /// ```
    /// let mut offset = 1;
    /// let number = u16::de_bin(alloc, &mut offset, &code)?;
    /// ```
    fn de_bin(alloc: Global, offset: &mut usize, bytes: &[u8]) -> Result<Self, DeBinErr>
        ensures ok { IfOk result (λ value.
            Decodes Self.bin.encoding.encodes bytes.now offset.old (Self.means value) offset.new) }
        ensures err { IfErr result
            (ReadsNone Self.bin.encoding.encodes bytes.now offset.old offset.new) };

    /// Reads the value that a prefix of `d` encodes. More bytes may follow it.
    ///
    /// # Errors
    ///
    /// No prefix of `d` encodes a value, or memory ran out (`DeBinKind::Memory`). The error is
    /// that of `de_bin` at 0.
    ///
    /// # Examples
    ///
    /// ```
    /// let again = Vec::<u16>::deserialize_bin(alloc, &code)?;
    /// ```
    final fn deserialize_bin(alloc: Global, d: &[u8]) -> Result<Self, DeBinErr>
        ensures ok { IfOk result (λ value.
            DecodesTo Self.bin.encoding.encodes d.now (Self.means value)) }
        ensures err { IfErr result (Rejects Self.bin.encoding.encodes d.now) }
        ensures more { IfErr result (RejectsWithMore Self.bin.encoding.encodes d.now) }
        ensures report { IfErr result (IsReport d.now 0) }
    {
        let mut offset = 0;
        Self::de_bin(alloc, &mut offset, d)
    }

    /// Reads the value that all the bytes of `d` together encode.
    ///
    /// # Errors
    ///
    /// Where a prefix of them encodes a value, and bytes follow it, the error is
    /// `TrailingBytes`, with the place after that prefix and no bytes wanted there, or it is
    /// out of memory. Nothing else is rejected so. An error of this kind from the value's own
    /// reader is passed on as `Own`. Any other error except out of memory reports that no
    /// prefix of `d` encodes a value. Unless the kind is `TooShort` or `Memory`, no bytes after
    /// `d` make it the encoding of a value. Of each kind, the error tells what that of `de_bin`
    /// does.
    ///
    /// # Examples
    ///
    /// ```
    /// if let Err(error) = u16::deserialize_bin_whole(alloc, &code) {
    ///     println!(rt; "{error}")?;
    /// }
    /// ```
    final fn deserialize_bin_whole(alloc: Global, d: &[u8]) -> Result<Self, DeBinErr>
        ensures ok { IfOk result (λ value. Self.bin.encoding.encodes d.now (Self.means value)) }
        ensures err { IfErr result (RejectsWhole Self.bin.encoding.encodes d.now) }
        ensures more { IfErr result (RejectsWholeWithMore Self.bin.encoding.encodes d.now) }
        ensures report { IfErr result (IsReport d.now 0) }
        ensures trailing { IfErr result (IsOfTrailing Self.bin.encoding.encodes d.now) }
        ensures following { IfErr result (NamesTrailing Self.bin.encoding.encodes d.now) }
    {
        let mut end = 0;
        match Self::de_bin(alloc, &mut end, d) {
            Ok(value) => {
                if end < d.len() {
                    Err(trailing_bytes(end, d))
                } else {
                    Ok(value)
                }
            }
            Err(error) => Err(as_value_error(error)),
        }
    }

    /// Reads this many items, one after the other, and sets `offset` after the last. An error
    /// is that of the first item that cannot be read, and leaves `offset` unchanged. `count`
    /// reserves no memory.
    ///
    /// A type of a fixed width gives a body that reads the items at once.
    fn de_bin_items(
        alloc: Global,
        count: usize,
        offset: &mut usize,
        bytes: &[u8],
    ) -> Result<Vec<Self>, DeBinErr>
        ensures ok { IfOk result (λ items.
            Decodes (EncodesCount count Self.bin.encoding.encodes) bytes.now offset.old
            (map Self.means items.items) offset.new) }
        ensures err { IfErr result (ReadsNone (EncodesCount count Self.bin.encoding.encodes)
            bytes.now offset.old offset.new) }
    {
        let mut at = *offset;
        let mut items = Vec::new(alloc);
        for _ in 0..count {
            let item = Self::de_bin(alloc, &mut at, bytes)?;
            if items.push(item).is_err() {
                return Err(no_memory(at, bytes));
            }
        }
        *offset = at;
        Ok(items)
    }

    /// What is written is read back.
    ghost is_decodable: { Self.bin.is_decodable ≡ true };
}

/// A value that is read back from what is written. Each type with a writer and a reader is one.
pub trait BothBin: SerBin + DeBin {}

impl<T: SerBin + DeBin> BothBin for T {}
