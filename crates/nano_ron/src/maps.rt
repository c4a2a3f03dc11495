//! Maps: keys with their values between braces. They are written in the order of the keys,
//! each entry on a line of its own.

ghost use Rattle.std.specs.Map.Iter.{deref_pair};
ghost use Rattle.std.specs.Prelude.{OnOk, OnErr, map};
ghost use Rattle.nano_value.specs.Meaning.{pair_map};
ghost use Rattle.nano_meaning.proofs.AgreesLaws.{seen_agrees, map_agrees};
ghost use Rattle.nano_ron.specs.Codec.{codec_as};
ghost use Rattle.nano_ron.specs.Lists.{on_a_line, EncodesAllEntries, EncodesEntry, written_entry};
ghost use Rattle.nano_ron.specs.Lists.{written_entries};
ghost use Rattle.nano_ron.specs.ContainerCodecs.{map_codec};
ghost use Rattle.nano_text.specs.Place.{saturating_next};
ghost use Rattle.nano_text.specs.Outcomes.{Appends, AppendsPart};
ghost use Rattle.nano_ron.specs.Outcomes.{position, Reads};

use crate::traits::{DeRon, RonCodec, SerRon};
use nano_ron_tokens::{DeRonErr, DeRonState, SerRonState, end_on_error};
use nano_text::{bytes_left, rollback_on_error};
use nano_value::{CollectEntries, Key, OrderedKey, entries_by_rank};
use std::alloc::{AllocError, Global};
use std::collections::HashMap;
use std::hash::Hash;
use std::str::Chars;

impl<K: RonCodec + Key + Hash, V: RonCodec> RonCodec for HashMap<K, V> {
    ghost ron = { codec_as (λ x. x.entries) (map_codec K.order K.ron V.ron) };

    ghost agrees = { seen_agrees (map_agrees K.agrees V.agrees) (λ x. x.entries) };
}

/// Reads keys with their values between braces into a collection. On an error, the position
/// of the state is unspecified.
pub(crate) fn read_entries<K: DeRon, V: DeRon, C: CollectEntries<K, V>>(
    alloc: Global,
    state: &mut DeRonState,
    input: &mut Chars<'_>,
) -> Result<C, DeRonErr>
    ensures { Reads
        (EncodesAllEntries C.whole K.ron.encoding.encodes V.ron.encoding.encodes) C.means
        (position state.old input.old) (position state.new input.new) result }
{
    // A text has fewer than 2^63 bytes, so a `usize` counts its entries.
    let _capacity = bytes_left(input);
    let mut entries = C::empty(alloc);
    state.curly_open(alloc, input)?;
    'entries: while !state.is_curly_close() {
        let (key, value) = read_entry::<K, V>(alloc, state, input)?;
        let Ok(()) = entries.put(key, value) else {
            return Err(state.err_memory(alloc));
        };
        state.eat_comma_curly(alloc, input)?;
    }
    state.curly_close(alloc, input)?;
    Ok(entries)
}

/// Reads a key, a colon and a value. On an error, the position of the state is unspecified.
pub(crate) fn read_entry<K: DeRon, V: DeRon>(
    alloc: Global,
    state: &mut DeRonState,
    input: &mut Chars<'_>,
) -> Result<(K, V), DeRonErr>
    ensures { Reads (EncodesEntry K.ron.encoding.encodes V.ron.encoding.encodes)
        (pair_map K.means V.means)
        (position state.old input.old) (position state.new input.new) result }
{
    let key = K::de_ron(alloc, state, input)?;
    state.colon(alloc, input)?;
    let value = V::de_ron(alloc, state, input)?;
    Ok((key, value))
}

impl<K: DeRon + Key + Hash, V: DeRon> DeRon for HashMap<K, V> {
    fn de_ron(
        alloc: Global,
        state: &mut DeRonState,
        input: &mut Chars<'_>,
    ) -> Result<HashMap<K, V>, DeRonErr> {
        let read = read_entries::<K, V, HashMap<K, V>>(alloc, state, input);
        end_on_error(state, read)
    }
}

/// Appends an entry of a map at level `d`, on a line of its own: a key, a colon, a value and a
/// comma. If an allocation fails, what was written so far remains.
pub(crate) fn append_entry<K: SerRon, V: SerRon>(
    alloc: Global,
    key: &K,
    value: &V,
    d: usize,
    s: &mut SerRonState,
) -> Result<(), AllocError>
    ensures ok { OnOk result (Appends s.old.out s.new.out (on_a_line d (written_entry
        (K.ron.canonical.text (saturating_next d)) (V.ron.canonical.text (saturating_next d))
        (key.now, value.now)))) }
    ensures err { OnErr result (AppendsPart s.old.out s.new.out) }
{
    let inner = d.saturating_add(1);
    s.indent(inner)?;
    key.ser_ron(alloc, inner, s)?;
    s.out.push(':')?;
    value.ser_ron(alloc, inner, s)?;
    s.conl()
}

/// Appends entries between braces, each on a line of its own. If an allocation fails,
/// what was written so far remains.
fn append_hash_map<K: SerRon, V: SerRon>(
    alloc: Global,
    entries: &[(&K, &V)],
    d: usize,
    s: &mut SerRonState,
) -> Result<(), AllocError>
    ensures ok { OnOk result (Appends s.old.out s.new.out (written_entries d
        (K.ron.canonical.text (saturating_next d)) (V.ron.canonical.text (saturating_next d))
        (map deref_pair entries.now))) }
    ensures err { OnErr result (AppendsPart s.old.out s.new.out) }
{
    s.out.push_str("{\n")?;
    for (key, value) in entries {
        append_entry(alloc, *key, *value, d, s)?;
    }
    s.indent(d)?;
    s.out.push('}')
}

impl<K: SerRon + OrderedKey + Hash, V: SerRon> SerRon for HashMap<K, V> {
    fn ser_ron(&self, alloc: Global, d: usize, s: &mut SerRonState) -> Result<(), AllocError> {
        let start = s.out.len();
        let entries = entries_by_rank(alloc, self)?;
        let written = append_hash_map(alloc, &entries, d, s);
        rollback_on_error(&mut s.out, start, written)
    }
}
