//! Records by key in a stream: the code of one map.

ghost use Rattle.std.specs.Prelude.{◌≡◌, IfOk, IfErr, IfSome, OnOk, string_bytes};
ghost use Rattle.std.specs.Io.KnownBytes.{Appends, Keeps};
ghost use Rattle.example_store.specs.Faults.{IsOfStream, OnRefused};
ghost use Rattle.example_store.specs.Rows.{Puts, Gets, HoldsNone};

use nano_bin::{BinCodec, BothBin, DeBin, DeBinErr, DeBinKind, SerBin};
use nano_value::Value;
use std::alloc::Global;
use std::collections::BTreeMap;
use std::io::{self, ErrorKind, Read, Write};
use thiserror::Error;

/// Why there is no answer.
#[derive(Debug, Drop, Error)]
pub enum Fault {
    /// The bytes are no store.
    #[error("no store: {0}")]
    Refused(DeBinErr),
    /// A read or a write failed, or an allocation failed.
    #[error("{0}")]
    Stream(io::Error),
}

/// Reads an input that is exactly one value. `Refused` says that it is none.
pub fn load<T: DeBin, R: Read>(alloc: Global, input: &mut R) -> Result<T, Fault>
    ensures value { IfOk result (λ value. IfSome (R.remaining input.old) (λ bytes.
        T.bin.encoding.encodes bytes (T.means value))) }
    ensures rejected { OnRefused result (HoldsNone T.bin.encoding (R.remaining input.old)) }
{
    let mut bytes = Vec::new(alloc);
    if let Err(error) = input.read_to_end(&mut bytes) {
        return Err(Fault::Stream(error));
    }
    match T::deserialize_bin_whole(alloc, &bytes) {
        Ok(value) => Ok(value),
        Err(error) => match error.kind {
            DeBinKind::Memory => Err(Fault::Stream(ErrorKind::OutOfMemory.into())),
            _ => Err(Fault::Refused(error)),
        },
    }
}

/// Writes the store of the input with this record under the key, and every other one as it was.
/// `Refused` says that the input is no store, and writes nothing. After another fault a prefix
/// of the new store may be written.
pub fn put<T: BothBin, R: Read, W: Write>(
    alloc: Global,
    key: String,
    item: T,
    input: &mut R,
    output: &mut W,
) -> Result<(), Fault>
    ensures put { OnOk result (Puts ⟦<BTreeMap<String, T> as BinCodec>⟧.bin
        ⟦<BTreeMap<String, T> as Value>⟧.means (R.remaining input.old) (string_bytes key) item
        (W.contents output.old) (W.contents output.new)) }
    ensures rejected { OnRefused result (HoldsNone ⟦<BTreeMap<String, T> as BinCodec>⟧.bin.encoding
        (R.remaining input.old)) }
    ensures unchanged { OnRefused result (Keeps (W.contents output.old) (W.contents output.new)) }
{
    let mut store = load::<BTreeMap<String, T>, R>(alloc, input)?;
    match store.insert(key, item) {
        Ok(_) => save(alloc, &store, output),
        Err(_) => Err(Fault::Stream(ErrorKind::OutOfMemory.into())),
    }
}

/// Writes a store.
fn save<T: SerBin, W: Write>(alloc: Global, store: &T, output: &mut W) -> Result<(), Fault>
    ensures ok { OnOk result (Appends (W.contents output.old) (W.contents output.new)
        (T.bin.canonical.written store.now)) }
    ensures fault { IfErr result IsOfStream }
{
    let Ok(code) = store.serialize_bin(alloc) else {
        return Err(Fault::Stream(ErrorKind::OutOfMemory.into()));
    };
    match output.write_all(&code) {
        Ok(()) => Ok(()),
        Err(error) => Err(Fault::Stream(error)),
    }
}

/// The record under the key in the store of the input, if there is one. `Refused` says that the
/// input is no store.
pub fn get<T: BothBin, R: Read>(alloc: Global, key: &str, input: &mut R) -> Result<Option<T>, Fault>
    ensures got { IfOk result (Gets ⟦<BTreeMap<String, T> as BinCodec>⟧.bin
        ⟦<BTreeMap<String, T> as Value>⟧.means (R.remaining input.old) key.now) }
    ensures rejected { OnRefused result (HoldsNone ⟦<BTreeMap<String, T> as BinCodec>⟧.bin.encoding
        (R.remaining input.old)) }
{
    let mut store = load::<BTreeMap<String, T>, R>(alloc, input)?;
    Ok(store.remove(key))
}
