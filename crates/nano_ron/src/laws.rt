//! Laws of the definitions that the contracts cite: each function but those that read a value back
//! does nothing, and its contract is the law.
ghost use Rattle.std.specs.Prelude.{◌≡◌, ◌↔◌, ◌++◌, ℕ, List, true, MatchResult};
ghost use Rattle.nano_value.specs.Meaning.{Meaning};
ghost use Rattle.nano_value.specs.Sets.{item_set};
ghost use Rattle.nano_value.specs.Tables.{table_of};
ghost use Rattle.nano_ron.specs.Cut.{Cut, none};
ghost use Rattle.nano_grammar.specs.Items.{OneValue};
ghost use Rattle.nano_ron.specs.Readers.{EntriesDecideText, ItemsDecideText};
ghost use Rattle.nano_ron.specs.Readers.{RejectedDecodesToNothing};
ghost use Rattle.nano_ron.specs.Codec.{BeginsValue, StartsWith};
ghost use Rattle.nano_ron.specs.Token.{Token, end};
ghost use Rattle.nano_grammar.specs.Tokens.{At, Cuts, DecodesTo, NoneBeginsAnother};
ghost use Rattle.nano_grammar.specs.Outcomes.{WholeDecodesTo};
ghost use Rattle.nano_ron.specs.Written.{MayFollow};

use crate::traits::{BothRon, RonCodec};
pub use nano_ron_tokens::laws::{
    a_skipped_field_goes_on_with_a_parenthesis, a_text_breaks_at_one_place,
    a_text_breaks_or_is_cut, a_text_is_cut_in_one_way, gaps_are_skipped,
    taken_tokens_begin_the_text, the_end_follows_gaps,
};
use nano_ron_tokens::{DeRonErr, DeRonState};
use nano_value::{ExactEq, Key, Value};
use std::alloc::Global;
use std::collections::{BTreeMap, BTreeSet, HashMap, HashSet};
use std::hash::Hash;

/// Each encoded value is legal: each number is in its type's range, each count is a `usize`.
pub fn encoded_is_legal<T: RonCodec>()
    ensures { (ts : List Token) (m : Meaning) → T.ron.encoding.encodes ts m → T.legal m }
{}

/// One encoding has one meaning.
pub fn one_encoding_one_value<T: RonCodec>()
    ensures { OneValue T.ron.encoding.encodes }
{}

/// No encoding is a proper prefix of another.
pub fn no_encoding_begins_another<T: RonCodec>()
    ensures { NoneBeginsAnother T.ron.encoding.encodes }
{}

/// Every encoding has a first token, and it is no comma, colon, closing bracket, `Bof` or end.
pub fn each_encoding_begins_a_value<T: RonCodec>()
    ensures { (ts : List Token) (m : Meaning) → T.ron.encoding.encodes ts m → BeginsValue ts }
{}

/// A pending token and the text after it decode to at most one value.
pub fn at_most_one_decodes<T: RonCodec>()
    ensures { (start : At Token) (m n : Meaning) → DecodesTo Cut T.ron.encoding.encodes start m
        → DecodesTo Cut T.ron.encoding.encodes start n → m ≡ n }
{}

/// A whole input encodes at most one value.
pub fn at_most_one_decodes_whole<T: RonCodec>()
    ensures { (bytes : List ℕ) (m n : Meaning)
        → WholeDecodesTo Cut T.ron.encoding.encodes end bytes m
        → WholeDecodesTo Cut T.ron.encoding.encodes end bytes n → m ≡ n }
{}

/// Where the error of a text says more than that memory ran out, no value decodes there.
pub fn a_rejected_text_decodes_to_nothing<T: RonCodec>()
    ensures { RejectedDecodesToNothing T.ron.encoding.encodes }
{}

/// The canonical text of a value at a level, with anything after it that may follow a value,
/// splits into the canonical tokens, and leaves exactly what follows. A comma, a colon, a
/// closing bracket or parenthesis, white space and the end may follow.
pub fn written_text_is_cut_into_its_tokens<T: RonCodec>(value: &T)
    ensures { (d : ℕ) (rest : List ℕ) → MayFollow rest → Cuts Cut
        (T.ron.canonical.tokens value.now) (T.ron.canonical.text d value.now ++ rest) rest }
{
    value.known();
}

/// What means the same is written as the same text at each level: so equal maps and equal sets are.
pub fn same_meaning_same_text<T: RonCodec>(x: &T, y: &T)
    ensures { (d : ℕ) → T.means x.now ≡ T.means y.now
        → T.ron.canonical.text d x.now ≡ T.ron.canonical.text d y.now }
{}

/// The canonical tokens of a sound value encode it. A value is sound if nowhere inside it a
/// `Some` contains a value whose canonical text begins with the word `None`.
pub fn written_tokens_encode_a_sound_value<T: RonCodec>(value: &T)
    ensures { T.ron.sound value.now
        → T.ron.encoding.encodes (T.ron.canonical.tokens value.now) (T.means value.now) }
{
    value.known();
}

/// A value that has an encoding is sound.
pub fn encoded_is_sound<T: RonCodec>(value: &T)
    ensures { (ts : List Token) → T.ron.encoding.encodes ts (T.means value.now)
        → T.ron.sound value.now }
{}

/// If the canonical tokens of a value begin with `None`, then all its encodings begin so.
pub fn none_stands_alone<T: RonCodec>(value: &T)
    ensures { (ts : List Token) → StartsWith none (T.ron.canonical.tokens value.now)
        → T.ron.encoding.encodes ts (T.means value.now) → StartsWith none ts }
{}

/// Writes a value and reads it again. A sound value is read back as one that means the same,
/// and the only error is out of memory.
pub fn read_back<T: BothRon>(alloc: Global, written: &T) -> Result<T, DeRonErr>
    ensures { MatchResult result
        (λ read. T.ron.sound written.now → T.means read ≡ T.means written.now)
        (λ e. T.ron.sound written.now → e.memory ≡ true) }
{
    written.known();
    written_tokens_encode_a_sound_value(written);
    match written.serialize_ron(alloc) {
        Ok(text) => T::deserialize_ron(alloc, text.as_str()),
        Err(_rejected) => Err(DeRonState::new(alloc).err_memory(alloc)),
    }
}

/// Writes a value and reads it again as a whole input. A sound value is read back as one that
/// means the same, and the only error is out of memory.
pub fn read_back_whole<T: BothRon>(alloc: Global, written: &T) -> Result<T, DeRonErr>
    ensures { MatchResult result
        (λ read. T.ron.sound written.now → T.means read ≡ T.means written.now)
        (λ e. T.ron.sound written.now → e.memory ≡ true) }
{
    written.known();
    written_tokens_encode_a_sound_value(written);
    match written.serialize_ron(alloc) {
        Ok(text) => T::deserialize_ron_whole(alloc, text.as_str()),
        Err(_rejected) => Err(DeRonState::new(alloc).err_memory(alloc)),
    }
}

/// Writes a value and reads it again, where `==` of the type is exact. A sound value is read back
/// as one that is equal to it by `==`, and the only error is out of memory.
pub fn read_back_equal<T: BothRon + ExactEq>(alloc: Global, written: &T) -> Result<T, DeRonErr>
    ensures { MatchResult result
        (λ read. T.ron.sound written.now → T.eq read written.now ≡ true)
        (λ e. T.ron.sound written.now → e.memory ≡ true) }
{
    T::eq_agrees();
    read_back(alloc, written)
}

/// A hashed and an ordered set of the same items are written as the same text at each level. The
/// same tokens encode both, so each reads what the other wrote.
pub fn equal_sets_equal_text<T: RonCodec + Key + Ord + Hash>(
    hashed: &HashSet<T>,
    ordered: &BTreeSet<T>,
)
    ensures written { (d : ℕ) → item_set T.means hashed.now.keys ≡ item_set T.means ordered.now.keys
        → ⟦<HashSet<T> as RonCodec>⟧.ron.canonical.text d hashed.now
        ≡ ⟦<BTreeSet<T> as RonCodec>⟧.ron.canonical.text d ordered.now }
    ensures encodes { (ts : List Token) (m : Meaning) →
        ⟦<HashSet<T> as RonCodec>⟧.ron.encoding.encodes ts m
        ↔ ⟦<BTreeSet<T> as RonCodec>⟧.ron.encoding.encodes ts m }
{}

/// Items that make the same set, whatever holds them, are written as the same text as a set.
pub fn the_items_decide_the_text<T: RonCodec + Key>()
    ensures { ItemsDecideText T.means T.order T.ron }
{}

/// Entries that make the same table, whatever holds them, are written as the same text as a map.
pub fn the_entries_decide_the_text<K: RonCodec + Key, V: RonCodec>()
    ensures { EntriesDecideText K.means V.means K.order K.ron V.ron }
{}

/// A hashed and an ordered map of the same entries are written as the same text at each level,
/// and the same tokens encode both, so that each reads what the other wrote.
pub fn equal_maps_equal_text<K: RonCodec + Key + Ord + Hash, V: RonCodec>(
    hashed: &HashMap<K, V>,
    ordered: &BTreeMap<K, V>,
)
    ensures written { (d : ℕ)
        → table_of K.means V.means hashed.now.entries ≡ table_of K.means V.means ordered.now.entries
        → ⟦<HashMap<K, V> as RonCodec>⟧.ron.canonical.text d hashed.now
        ≡ ⟦<BTreeMap<K, V> as RonCodec>⟧.ron.canonical.text d ordered.now }
    ensures means { (table_of K.means V.means hashed.now.entries
        ≡ table_of K.means V.means ordered.now.entries)
        ↔ (⟦<HashMap<K, V> as Value>⟧.means hashed.now
        ≡ ⟦<BTreeMap<K, V> as Value>⟧.means ordered.now) }
    ensures encodes { (ts : List Token) (m : Meaning) →
        ⟦<HashMap<K, V> as RonCodec>⟧.ron.encoding.encodes ts m
        ↔ ⟦<BTreeMap<K, V> as RonCodec>⟧.ron.encoding.encodes ts m }
{
    let _ordered = ordered.len();
}
