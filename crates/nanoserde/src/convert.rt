//! From a text to the bytes of its value.

ghost use Rattle.std.specs.Prelude.{IfOk, IfErr};
ghost use Rattle.nano_json.specs.Readers.{RejectsText as RejectsJson};
ghost use Rattle.nano_ron.specs.Readers.{RejectsText as RejectsRon};
ghost use Rattle.nanoserde.specs.Normal.{JsonAsBytes, RonAsBytes};

use crate::written::{json_written, ron_written};
use crate::{BothBin, DeJson, DeJsonErr, DeRon, DeRonErr};
use std::alloc::Global;

/// The canonical encoding, as bytes, of the value that a JSON text begins with.
///
/// # Errors
///
/// An error other than out of memory comes from the reader. It says that no value is encoded at
/// the beginning of the text, with one more token or the end after it. If the writer runs out
/// of memory, the error has line and column 0.
///
/// # Examples
///
/// ```
/// let code = json_to_bin::<Item>(alloc, normal.as_str())?;
/// ```
pub fn json_to_bin<T: DeJson + BothBin>(alloc: Global, input: &str) -> Result<Vec<u8>, DeJsonErr>
    ensures written { IfOk result (λ bytes.
        JsonAsBytes T.means T.json T.bin input.now bytes.items) }
    ensures rejected { IfErr result (RejectsJson T.json.encoding.encodes input.now) }
{
    let value = T::deserialize_json(alloc, input)?;
    json_written(alloc, value.serialize_bin(alloc))
}

/// The canonical encoding, as bytes, of the value that a RON text begins with.
///
/// # Errors
///
/// An error other than out of memory comes from the reader. It says that no value is encoded at
/// the beginning of the text, with one more token or the end after it. If the writer runs out
/// of memory, the error has line and column 0.
///
/// # Examples
///
/// ```
/// ron_to_bin::<Choice>(alloc, normal.as_str())?
/// ```
pub fn ron_to_bin<T: DeRon + BothBin>(alloc: Global, input: &str) -> Result<Vec<u8>, DeRonErr>
    ensures written { IfOk result (λ bytes.
        RonAsBytes T.means T.ron T.bin input.now bytes.items) }
    ensures rejected { IfErr result (RejectsRon T.ron.encoding.encodes input.now) }
{
    let value = T::deserialize_ron(alloc, input)?;
    ron_written(alloc, value.serialize_bin(alloc))
}
