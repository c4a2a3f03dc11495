//! The promises of the format, each the contract of a function.
//!
//! A caller in generic code that needs one of these facts calls the function; none of them does
//! anything else.
ghost use Rattle.std.specs.Prelude.{◌≡◌, ◌+◌, ◌++◌, ◌↔◌, ℕ, List, IfOk, IfErr, true};
ghost use Rattle.nano_value.specs.Meaning.{Meaning};
ghost use Rattle.nano_bin_bytes.specs.declared.error.DeBinKind.{DeBinKind};
ghost use Rattle.nano_bin_bytes.specs.Reading.{DecodesTo};
ghost use Rattle.nano_value.specs.Tables.{table_of};
ghost use Rattle.nano_bin_bytes.specs.Containers.{written_entries};
ghost use Rattle.nano_bin_bytes.specs.Promises.{StandsAt, ReadsBack, ReadsBothBack, FailsForMemory};
ghost use Rattle.nano_bin_bytes.specs.Promises.{OneValue, NoneBeginsAnother};

use crate::traits::{BinCodec, BothBin, DeBin, SerBin};
use nano_bin_bytes::DeBinErr;
use nano_value::{ExactEq, Key, Value};
use std::alloc::Global;
use std::collections::{BTreeMap, BTreeSet, HashMap, HashSet};
use std::hash::Hash;

/// Reads back what was written, at any offset where it stands and whatever bytes follow. The
/// value that is read means what the written one does, and the only error is out of memory.
pub fn read_back<T: BothBin>(
    alloc: Global,
    written: &T,
    offset: &mut usize,
    bytes: &[u8],
) -> Result<T, DeBinErr>
    ensures ok { IfOk result (λ read.
        StandsAt (T.bin.canonical.written written.now) bytes.now offset.old
        → ReadsBack (T.bin.canonical.written written.now) offset.old offset.new
        (T.means written.now) (T.means read)) }
    ensures err { IfErr result (FailsForMemory (T.bin.canonical.written written.now)
        bytes.now offset.old offset.new) }
{
    written.known();
    T::de_bin(alloc, offset, bytes)
}

/// Reads back what was written, where it is all of the bytes. The value that is read means what
/// the written one does, and the only error is out of memory.
pub fn read_back_whole<T: BothBin>(alloc: Global, written: &T, d: &[u8]) -> Result<T, DeBinErr>
    ensures same { IfOk result (λ read.
        d.now ≡ T.bin.canonical.written written.now → T.means read ≡ T.means written.now) }
    ensures memory { IfErr result (λ e.
        d.now ≡ T.bin.canonical.written written.now → e.kind ≡ DeBinKind.Memory) }
{
    written.known();
    T::deserialize_bin_whole(alloc, d)
}

/// Reads back what was written, as `read_back` does, where `==` of the type is exact. The value
/// that is read is equal to the written one by `==`, and the only error is out of memory.
pub fn read_back_equal<T: BothBin + ExactEq>(
    alloc: Global,
    written: &T,
    offset: &mut usize,
    bytes: &[u8],
) -> Result<T, DeBinErr>
    ensures equal { IfOk result (λ read.
        StandsAt (T.bin.canonical.written written.now) bytes.now offset.old
        → T.eq read written.now ≡ true) }
    ensures ok { IfOk result (λ read.
        StandsAt (T.bin.canonical.written written.now) bytes.now offset.old
        → ReadsBack (T.bin.canonical.written written.now) offset.old offset.new
        (T.means written.now) (T.means read)) }
    ensures err { IfErr result (FailsForMemory (T.bin.canonical.written written.now)
        bytes.now offset.old offset.new) }
{
    T::eq_agrees();
    read_back(alloc, written, offset, bytes)
}

/// Reads two values back whose encodings were placed one after the other.
pub fn read_both_back<A: BothBin, B: BothBin>(
    alloc: Global,
    first: &A,
    second: &B,
    offset: &mut usize,
    bytes: &[u8],
) -> Result<(A, B), DeBinErr>
    ensures ok { IfOk result (λ read.
        StandsAt (A.bin.canonical.written first.now ++ B.bin.canonical.written second.now)
        bytes.now offset.old
        → ReadsBothBack (A.bin.canonical.written first.now ++ B.bin.canonical.written second.now)
        offset.old offset.new
        (A.means first.now) (B.means second.now) (A.means read.0) (B.means read.1)) }
    ensures err { IfErr result (FailsForMemory
        (A.bin.canonical.written first.now ++ B.bin.canonical.written second.now)
        bytes.now offset.old offset.new) }
{
    let mut at = *offset;
    let one = read_back(alloc, first, &mut at, bytes)?;
    let other = read_back(alloc, second, &mut at, bytes)?;
    *offset = at;
    Ok((one, other))
}

/// What means the same is written as the same bytes, and what is written as the same bytes means
/// the same.
pub fn same_bytes_same_meaning<T: BothBin>(x: &T, y: &T)
    ensures { (T.bin.canonical.written x.now ≡ T.bin.canonical.written y.now)
        ↔ (T.means x.now ≡ T.means y.now) }
{
    x.known();
    y.known();
}

/// What means the same is written as the same bytes, also for types that are written alone.
pub fn same_meaning_same_bytes<T: SerBin>(x: &T, y: &T)
    ensures { T.means x.now ≡ T.means y.now
        → T.bin.canonical.written x.now ≡ T.bin.canonical.written y.now }
{}

/// Every encoded value is legal: each number in its type's range, each count a `usize`.
pub fn encoded_is_legal<T: DeBin>()
    ensures { (bytes : List ℕ) (m : Meaning) → T.bin.encoding.encodes bytes m → T.legal m }
{}

/// One encoding has one meaning.
pub fn one_encoding_one_value<T: DeBin>()
    ensures { OneValue T.bin.encoding.encodes }
{}

/// No encoding is a proper prefix of another.
pub fn no_encoding_begins_another<T: DeBin>()
    ensures { NoneBeginsAnother T.bin.encoding.encodes }
{}

/// At most one value decodes from a prefix of the bytes.
pub fn at_most_one_decodes<T: DeBin>()
    ensures { (bytes : List ℕ) (m n : Meaning) → DecodesTo T.bin.encoding.encodes bytes m
        → DecodesTo T.bin.encoding.encodes bytes n → m ≡ n }
{}

/// Entries of the same table are written as the same bytes, in whatever order they stand, so that
/// maps of both kinds with the same entries are.
pub fn same_entries_same_bytes<K: BinCodec + Key, V: BinCodec>()
    ensures { (entries others : List (K × V)) →
        table_of K.means V.means entries ≡ table_of K.means V.means others →
        written_entries K.order K.bin.canonical V.bin.canonical entries
        ≡ written_entries K.order K.bin.canonical V.bin.canonical others }
{}

/// A hashed and an ordered set of the same items are written as the same bytes. The same bytes
/// encode both, so each reads what the other wrote.
pub fn same_items_same_bytes<T: BinCodec + Key + Ord + Hash>(
    hashed: &HashSet<T>,
    ordered: &BTreeSet<T>,
)
    ensures written { ⟦<HashSet<T> as Value>⟧.means hashed.now
        ≡ ⟦<BTreeSet<T> as Value>⟧.means ordered.now →
        ⟦<HashSet<T> as BinCodec>⟧.bin.canonical.written hashed.now
        ≡ ⟦<BTreeSet<T> as BinCodec>⟧.bin.canonical.written ordered.now }
    ensures encodes { (bytes : List ℕ) (m : Meaning) →
        ⟦<HashSet<T> as BinCodec>⟧.bin.encoding.encodes bytes m
        ↔ ⟦<BTreeSet<T> as BinCodec>⟧.bin.encoding.encodes bytes m }
{}

/// A hash map and an ordered map of the same entries have the same canonical encoding. The same
/// bytes encode both, so each reads what the other wrote.
pub fn same_map_same_bytes<K: BinCodec + Key + Ord + Hash, V: BinCodec>(
    hashed: &HashMap<K, V>,
    ordered: &BTreeMap<K, V>,
)
    ensures written { table_of K.means V.means hashed.now.entries
        ≡ table_of K.means V.means ordered.now.entries
        → ⟦<HashMap<K, V> as BinCodec>⟧.bin.canonical.written hashed.now
        ≡ ⟦<BTreeMap<K, V> as BinCodec>⟧.bin.canonical.written ordered.now }
    ensures means { (table_of K.means V.means hashed.now.entries
        ≡ table_of K.means V.means ordered.now.entries)
        ↔ (⟦<HashMap<K, V> as Value>⟧.means hashed.now
        ≡ ⟦<BTreeMap<K, V> as Value>⟧.means ordered.now) }
    ensures encodes { (bytes : List ℕ) (m : Meaning) →
        ⟦<HashMap<K, V> as BinCodec>⟧.bin.encoding.encodes bytes m
        ↔ ⟦<BTreeMap<K, V> as BinCodec>⟧.bin.encoding.encodes bytes m }
{
    let _ordered = ordered.len();
}
