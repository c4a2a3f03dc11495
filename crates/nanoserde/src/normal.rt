//! The normal form of an input: what is written of the value that it begins with.

ghost use Rattle.std.specs.Prelude.{IfOk, IfErr, string_bytes};
ghost use Rattle.nano_bin_bytes.specs.Reading.{Rejects};
ghost use Rattle.nano_json.specs.Readers.{RejectsText as RejectsJson};
ghost use Rattle.nano_ron.specs.Readers.{RejectsText as RejectsRon};
ghost use Rattle.nanoserde.specs.Normal.{NormalBytes, NormalJson, NormalRon};

use crate::written::{bin_written, json_written, ron_written};
use crate::{BothBin, BothJson, BothRon, DeBinErr, DeJsonErr, DeRonErr};
use std::alloc::Global;

/// The normal form of bytes: the canonical encoding of the value that they begin with. Bytes
/// that follow are not looked at.
///
/// # Errors
///
/// An error other than out of memory comes from the reader. It says that no prefix of `d`
/// encodes a value. If the writer runs out of memory, the error has `o` and `l` 0.
///
/// # Examples
///
/// ```
/// println!(rt; "{:?}", normal_bin::<Item>(alloc, &code)?)?;
/// ```
pub fn normal_bin<T: BothBin>(alloc: Global, d: &[u8]) -> Result<Vec<u8>, DeBinErr>
    ensures normal { IfOk result (λ bytes. NormalBytes T.means T.bin d.now bytes.items) }
    ensures rejected { IfErr result (Rejects T.bin.encoding.encodes d.now) }
{
    let value = T::deserialize_bin(alloc, d)?;
    bin_written(value.serialize_bin(alloc), d)
}

/// The normal form of a JSON text: the canonical text, at level 0, of the value that it begins
/// with.
///
/// # Errors
///
/// An error other than out of memory comes from the reader. It says that no value is encoded at
/// the beginning of the text, with one more token or the end after it. If the writer runs out
/// of memory, the error has line and column 0.
///
/// # Examples
///
/// ```
/// let normal = normal_json::<Item>(alloc, text)?;
/// ```
pub fn normal_json<T: BothJson>(alloc: Global, input: &str) -> Result<String, DeJsonErr>
    ensures normal { IfOk result (λ text. NormalJson T.means T.json input.now (string_bytes text)) }
    ensures rejected { IfErr result (RejectsJson T.json.encoding.encodes input.now) }
{
    let value = T::deserialize_json(alloc, input)?;
    json_written(alloc, value.serialize_json(alloc))
}

/// The normal form of a RON text: the canonical text, at level 0, of the value that it begins
/// with.
///
/// # Errors
///
/// An error other than out of memory comes from the reader. It says that no value is encoded at
/// the beginning of the text, with one more token or the end after it. If the writer runs out
/// of memory, the error has line and column 0.
///
/// # Examples
///
/// ```
/// let normal = normal_ron::<Choice>(alloc, "B(1, \"a\",) // two parts")?;
/// ```
pub fn normal_ron<T: BothRon>(alloc: Global, input: &str) -> Result<String, DeRonErr>
    ensures normal { IfOk result (λ text. NormalRon T.means T.ron input.now (string_bytes text)) }
    ensures rejected { IfErr result (RejectsRon T.ron.encoding.encodes input.now) }
{
    let value = T::deserialize_ron(alloc, input)?;
    ron_written(alloc, value.serialize_ron(alloc))
}
