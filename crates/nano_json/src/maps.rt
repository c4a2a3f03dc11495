//! Maps: keys with their values between braces. They are written in the order of the keys.
//!
//! On an error, a reader here may leave the state at any position, unless it says where.

ghost use Rattle.std.specs.Map.Iter.{deref_pair};
ghost use Rattle.std.specs.Prelude.{OnOk, OnErr, map};
ghost use Rattle.nano_value.specs.Meaning.{pair_map};
ghost use Rattle.nano_meaning.proofs.AgreesLaws.{seen_agrees, map_agrees};
ghost use Rattle.nano_json.specs.Codec.{codec_as};
ghost use Rattle.nano_json.specs.Lists.{in_list, EncodesAllEntries, EncodesEntry, written_entry};
ghost use Rattle.nano_json.specs.Lists.{written_entries};
ghost use Rattle.nano_json.specs.ContainerCodecs.{map_codec};
ghost use Rattle.nano_text.specs.Outcomes.{Appends, AppendsPart};
ghost use Rattle.nano_json.specs.Outcomes.{position, Reads};

use crate::lists::append_item;
use crate::traits::{DeJson, JsonCodec, SerJson};
use nano_json_tokens::{DeJsonErr, DeJsonState, SerJsonState, bytes_left, end_on_error};
use nano_text::rollback_on_error;
use nano_value::{CollectEntries, Key, OrderedKey, entries_by_rank};
use std::alloc::{AllocError, Global};
use std::collections::HashMap;
use std::hash::Hash;
use std::str::Chars;

impl<K: JsonCodec + Key + Hash, V: JsonCodec> JsonCodec for HashMap<K, V> {
    ghost json = { codec_as (λ x. x.entries) (map_codec K.order K.json V.json) };

    ghost agrees = { seen_agrees (map_agrees K.agrees V.agrees) (λ x. x.entries) };
}

/// Reads keys with their values between braces into a collection.
pub(crate) fn read_entries<K: DeJson, V: DeJson, C: CollectEntries<K, V>>(
    alloc: Global,
    state: &mut DeJsonState,
    input: &mut Chars<'_>,
) -> Result<C, DeJsonErr>
    ensures { Reads
        (EncodesAllEntries C.whole K.json.encoding.encodes V.json.encoding.encodes) C.means
        (position state.old input.old) (position state.new input.new) result }
{
    // A text has fewer than 2^63 bytes, so a `usize` counts its entries.
    let _capacity = bytes_left(input);
    let mut entries = C::empty(alloc);
    state.curly_open(alloc, input)?;
    'entries: while !state.is_curly_close() {
        let (key, value) = read_entry::<K, V>(alloc, state, input)?;
        let Ok(()) = entries.put(key, value) else {
            return Err(state.err_memory(alloc));
        };
        state.eat_comma_curly(alloc, input)?;
    }
    state.curly_close(alloc, input)?;
    Ok(entries)
}

/// Reads a key, a colon and a value.
pub(crate) fn read_entry<K: DeJson, V: DeJson>(
    alloc: Global,
    state: &mut DeJsonState,
    input: &mut Chars<'_>,
) -> Result<(K, V), DeJsonErr>
    ensures { Reads (EncodesEntry K.json.encoding.encodes V.json.encoding.encodes)
        (pair_map K.means V.means)
        (position state.old input.old) (position state.new input.new) result }
{
    let key = K::de_json(alloc, state, input)?;
    state.colon(alloc, input)?;
    let value = V::de_json(alloc, state, input)?;
    Ok((key, value))
}

impl<K: DeJson + Key + Hash, V: DeJson> DeJson for HashMap<K, V> {
    fn de_json(
        alloc: Global,
        state: &mut DeJsonState,
        input: &mut Chars<'_>,
    ) -> Result<HashMap<K, V>, DeJsonErr> {
        let read = read_entries::<K, V, HashMap<K, V>>(alloc, state, input);
        end_on_error(state, read)
    }
}

/// Appends a key, a colon and a value, after a comma unless they are the first. If allocation
/// fails, the text written so far remains.
pub(crate) fn append_entry<K: SerJson, V: SerJson>(
    alloc: Global,
    key: &K,
    value: &V,
    first: bool,
    d: usize,
    s: &mut SerJsonState,
) -> Result<(), AllocError>
    ensures ok { OnOk result (Appends s.old.out s.new.out (in_list first
        (written_entry (K.json.canonical.text d) (V.json.canonical.text d) (key.now, value.now)))) }
    ensures err { OnErr result (AppendsPart s.old.out s.new.out) }
{
    append_item(alloc, key, first, d, s)?;
    s.out.push(':')?;
    value.ser_json(alloc, d, s)
}

/// Appends entries between braces. If allocation fails, the text written so far
/// remains.
fn append_hash_map<K: SerJson, V: SerJson>(
    alloc: Global,
    entries: &[(&K, &V)],
    d: usize,
    s: &mut SerJsonState,
) -> Result<(), AllocError>
    ensures ok { OnOk result (Appends s.old.out s.new.out (written_entries
        (K.json.canonical.text d) (V.json.canonical.text d) (map deref_pair entries.now))) }
    ensures err { OnErr result (AppendsPart s.old.out s.new.out) }
{
    s.out.push('{')?;
    let mut first = true;
    for (key, value) in entries {
        append_entry(alloc, *key, *value, first, d, s)?;
        first = false;
    }
    s.out.push('}')
}

impl<K: SerJson + OrderedKey + Hash, V: SerJson> SerJson for HashMap<K, V> {
    fn ser_json(&self, alloc: Global, d: usize, s: &mut SerJsonState) -> Result<(), AllocError> {
        let start = s.out.len();
        let entries = entries_by_rank(alloc, self)?;
        let written = append_hash_map(alloc, &entries, d.saturating_add(1), s);
        rollback_on_error(&mut s.out, start, written)
    }
}
