//! Laws of the definitions that the contracts cite: each function but those that read a value back
//! does nothing, and its contract is the law.
ghost use Rattle.std.specs.Prelude.{◌≡◌, ◌↔◌, ◌++◌, ℕ, List, true, MatchResult};
ghost use Rattle.nano_value.specs.Meaning.{Meaning};
ghost use Rattle.nano_value.specs.Sets.{item_set};
ghost use Rattle.nano_value.specs.Tables.{table_of};
ghost use Rattle.nano_json.specs.Cut.{Cut};
ghost use Rattle.nano_grammar.specs.Items.{OneValue};
ghost use Rattle.nano_json.specs.Readers.{EntriesDecideText, ItemsDecideText};
ghost use Rattle.nano_json.specs.Readers.{RejectedDecodesToNothing};
ghost use Rattle.nano_json.specs.Codec.{BeginsValue, StartsWith};
ghost use Rattle.nano_json.specs.Token.{Token, null, end};
ghost use Rattle.nano_grammar.specs.Tokens.{At, Cuts, DecodesTo, NoneBeginsAnother};
ghost use Rattle.nano_grammar.specs.Outcomes.{WholeDecodesTo};
ghost use Rattle.nano_json.specs.Written.{MayFollow};

use crate::traits::{BothJson, JsonCodec};
pub use nano_json_tokens::laws::{
    a_text_breaks_at_one_place, a_text_breaks_or_is_cut, a_text_is_cut_in_one_way,
    skipped_fields_are_apart, taken_tokens_begin_the_text, the_end_follows_white_space,
};
use nano_json_tokens::{DeJsonErr, DeJsonState};
use nano_value::{ExactEq, Key, Value};
use std::alloc::Global;
use std::collections::{BTreeMap, BTreeSet, HashMap, HashSet};
use std::hash::Hash;

/// Every encoded value is legal: each number in its type's range, each count a `usize`.
pub fn encoded_is_legal<T: JsonCodec>()
    ensures { (ts : List Token) (m : Meaning) → T.json.encoding.encodes ts m → T.legal m }
{}

/// One encoding has one meaning.
pub fn one_encoding_one_value<T: JsonCodec>()
    ensures { OneValue T.json.encoding.encodes }
{}

/// No encoding is a proper prefix of another.
pub fn no_encoding_begins_another<T: JsonCodec>()
    ensures { NoneBeginsAnother T.json.encoding.encodes }
{}

/// Every encoding has a first token, and it is no comma, colon, closing bracket, `Bof` or end.
pub fn each_encoding_begins_a_value<T: JsonCodec>()
    ensures { (ts : List Token) (m : Meaning) → T.json.encoding.encodes ts m → BeginsValue ts }
{}

/// At most one value decodes from a pending token and the text after it.
pub fn at_most_one_decodes<T: JsonCodec>()
    ensures { (start : At Token) (m n : Meaning) → DecodesTo Cut T.json.encoding.encodes start m
        → DecodesTo Cut T.json.encoding.encodes start n → m ≡ n }
{}

/// A whole input encodes at most one value.
pub fn at_most_one_decodes_whole<T: JsonCodec>()
    ensures { (bytes : List ℕ) (m n : Meaning)
        → WholeDecodesTo Cut T.json.encoding.encodes end bytes m
        → WholeDecodesTo Cut T.json.encoding.encodes end bytes n → m ≡ n }
{}

/// Where the error of a text says more than that memory ran out, no value decodes there.
pub fn a_rejected_text_decodes_to_nothing<T: JsonCodec>()
    ensures { RejectedDecodesToNothing T.json.encoding.encodes }
{}

/// The canonical text of a value at a level, with anything after it that may follow a value, is
/// cut into the canonical tokens, and leaves exactly what follows. A comma, a colon, a closing
/// bracket, white space and the end may follow.
pub fn written_text_is_cut_into_its_tokens<T: JsonCodec>(value: &T)
    ensures { (d : ℕ) (rest : List ℕ) → MayFollow rest → Cuts Cut
        (T.json.canonical.tokens value.now) (T.json.canonical.text d value.now ++ rest) rest }
{
    value.known();
}

/// What means the same is written as the same text at each level: so equal maps and equal sets are.
pub fn same_meaning_same_text<T: JsonCodec>(x: &T, y: &T)
    ensures { (d : ℕ) → T.means x.now ≡ T.means y.now
        → T.json.canonical.text d x.now ≡ T.json.canonical.text d y.now }
{}

/// The canonical tokens of a sound value encode it. A value is sound if nowhere inside it a
/// `Some` stands around what is written as `null`.
pub fn written_tokens_encode_a_sound_value<T: JsonCodec>(value: &T)
    ensures { T.json.sound value.now
        → T.json.encoding.encodes (T.json.canonical.tokens value.now) (T.means value.now) }
{
    value.known();
}

/// What has an encoding is sound.
pub fn encoded_is_sound<T: JsonCodec>(value: &T)
    ensures { (ts : List Token) → T.json.encoding.encodes ts (T.means value.now)
        → T.json.sound value.now }
{}

/// A value whose canonical tokens begin with `null` has only encodings that begin so.
pub fn null_stands_alone<T: JsonCodec>(value: &T)
    ensures { (ts : List Token) → StartsWith null (T.json.canonical.tokens value.now)
        → T.json.encoding.encodes ts (T.means value.now) → StartsWith null ts }
{}

/// Writes a value and reads it again. A sound value is read back as one that means the same,
/// and the only error is out of memory.
pub fn read_back<T: BothJson>(alloc: Global, written: &T) -> Result<T, DeJsonErr>
    ensures { MatchResult result
        (λ read. T.json.sound written.now → T.means read ≡ T.means written.now)
        (λ e. T.json.sound written.now → e.memory ≡ true) }
{
    written.known();
    written_tokens_encode_a_sound_value(written);
    match written.serialize_json(alloc) {
        Ok(text) => T::deserialize_json(alloc, text.as_str()),
        Err(_rejected) => Err(DeJsonState::new(alloc).err_memory(alloc)),
    }
}

/// Writes a value and reads it again as a whole input. A sound value is read back as one that
/// means the same, and the only error is out of memory.
pub fn read_back_whole<T: BothJson>(alloc: Global, written: &T) -> Result<T, DeJsonErr>
    ensures { MatchResult result
        (λ read. T.json.sound written.now → T.means read ≡ T.means written.now)
        (λ e. T.json.sound written.now → e.memory ≡ true) }
{
    written.known();
    written_tokens_encode_a_sound_value(written);
    match written.serialize_json(alloc) {
        Ok(text) => T::deserialize_json_whole(alloc, text.as_str()),
        Err(_rejected) => Err(DeJsonState::new(alloc).err_memory(alloc)),
    }
}

/// Writes a value and reads it again, where `==` of the type is exact. A sound value is read back
/// as one that is equal to it by `==`, and the only error is out of memory.
pub fn read_back_equal<T: BothJson + ExactEq>(alloc: Global, written: &T) -> Result<T, DeJsonErr>
    ensures { MatchResult result
        (λ read. T.json.sound written.now → T.eq read written.now ≡ true)
        (λ e. T.json.sound written.now → e.memory ≡ true) }
{
    T::eq_agrees();
    read_back(alloc, written)
}

/// A hashed and an ordered set of the same items are written as the same text at each level. The
/// same tokens encode both, so each reads what the other wrote.
pub fn equal_sets_equal_text<T: JsonCodec + Key + Ord + Hash>(
    hashed: &HashSet<T>,
    ordered: &BTreeSet<T>,
)
    ensures written { (d : ℕ) → item_set T.means hashed.now.keys ≡ item_set T.means ordered.now.keys
        → ⟦<HashSet<T> as JsonCodec>⟧.json.canonical.text d hashed.now
        ≡ ⟦<BTreeSet<T> as JsonCodec>⟧.json.canonical.text d ordered.now }
    ensures encodes { (ts : List Token) (m : Meaning) →
        ⟦<HashSet<T> as JsonCodec>⟧.json.encoding.encodes ts m
        ↔ ⟦<BTreeSet<T> as JsonCodec>⟧.json.encoding.encodes ts m }
{}

/// Items that make the same set, whatever holds them, are written as the same text as a set.
pub fn the_items_decide_the_text<T: JsonCodec + Key>()
    ensures { ItemsDecideText T.means T.order T.json }
{}

/// Entries that make the same table, whatever holds them, are written as the same text as a map.
pub fn the_entries_decide_the_text<K: JsonCodec + Key, V: JsonCodec>()
    ensures { EntriesDecideText K.means V.means K.order K.json V.json }
{}

/// A hash map and an ordered map of the same entries have the same canonical text at each
/// level. The same tokens encode both, so each reads what the other wrote.
pub fn equal_maps_equal_text<K: JsonCodec + Key + Ord + Hash, V: JsonCodec>(
    hashed: &HashMap<K, V>,
    ordered: &BTreeMap<K, V>,
)
    ensures written { (d : ℕ)
        → table_of K.means V.means hashed.now.entries ≡ table_of K.means V.means ordered.now.entries
        → ⟦<HashMap<K, V> as JsonCodec>⟧.json.canonical.text d hashed.now
        ≡ ⟦<BTreeMap<K, V> as JsonCodec>⟧.json.canonical.text d ordered.now }
    ensures means { (table_of K.means V.means hashed.now.entries
        ≡ table_of K.means V.means ordered.now.entries)
        ↔ (⟦<HashMap<K, V> as Value>⟧.means hashed.now
        ≡ ⟦<BTreeMap<K, V> as Value>⟧.means ordered.now) }
    ensures encodes { (ts : List Token) (m : Meaning) →
        ⟦<HashMap<K, V> as JsonCodec>⟧.json.encoding.encodes ts m
        ↔ ⟦<BTreeMap<K, V> as JsonCodec>⟧.json.encoding.encodes ts m }
{
    let _ordered = ordered.len();
}
