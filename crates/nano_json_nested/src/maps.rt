//! Ordered maps whose values contain themselves: keys with their values between braces.
//!
//! On an error, a reader here may leave the state at any position, unless it says where.

ghost use Rattle.std.specs.Prelude.{List, ◌++◌, ◌∷◌, [], OnOk, OnErr};
ghost use Rattle.nano_value.specs.Meaning.{Meaning, pair_map};
ghost use Rattle.nano_value.specs.Ordered.{ordered_map_means};
ghost use Rattle.nano_value.specs.Collected.{HoldsOrderedTable};
ghost use Rattle.nano_text.specs.Outcomes.{Appends, AppendsPart};
ghost use Rattle.nano_json.specs.Codec.{codec_as};
ghost use Rattle.nano_json.specs.ContainerCodecs.{ordered_map_codec};
ghost use Rattle.nano_json.specs.Lists.{in_list, written_entry, written_entries, EncodesEntry};
ghost use Rattle.nano_json.specs.Outcomes.{position, Reads};

use crate::traits::{NestedJson, ReadsJson, WritesJson};
use nano_json::{
    DeJson, DeJsonErr, DeJsonState, JsonCodec, SerJson, SerJsonState, end_on_error,
    rollback_on_error,
};
use nano_json_tokens::bytes_left;
use nano_value::{Key, OrderedKey};
use std::alloc::{AllocError, Global};
use std::collections::BTreeMap;
use std::str::Chars;

impl<K: JsonCodec + Key + Ord, T: NestedJson> NestedJson for BTreeMap<K, T> {
    ghost means = { λ x. ordered_map_means K.cmp K.means T.means x.entries };

    ghost at = { λ levels.
        codec_as (λ x. x.entries) (ordered_map_codec K.order K.cmp K.json (T.at levels)) };
}

/// Puts a key with its value in, in place of an earlier value. If allocation fails, what is held is
/// not known.
fn put_entry<K: Key + Ord + Drop, T: NestedJson + Drop>(
    entries: &mut BTreeMap<K, T>,
    key: K,
    value: T,
) -> Result<(), AllocError>
    ensures { OnOk result ((held : List (Meaning × Meaning))
        → HoldsOrderedTable K.cmp K.means T.means entries.old.entries held
        → HoldsOrderedTable K.cmp K.means T.means entries.new.entries
        (held ++ (K.means key, T.means value) ∷ [])) }
{
    let _replaced = entries.insert(key, value)?;
    Ok(())
}

/// Reads a key, a colon and a value.
fn read_entry<K: DeJson, T: NestedJson + Drop, L: ReadsJson<T>>(
    levels: &L,
    left: usize,
    alloc: Global,
    state: &mut DeJsonState,
    input: &mut Chars<'_>,
) -> Result<(K, T), DeJsonErr>
    ensures { Reads
        (EncodesEntry K.json.encoding.encodes (T.at left).encoding.encodes)
        (pair_map K.means T.means)
        (position state.old input.old) (position state.new input.new) result }
{
    let key = K::de_json(alloc, state, input)?;
    state.colon(alloc, input)?;
    let value: T = ReadsJson::<T>::read_json(levels, left, alloc, state, input)?;
    Ok((key, value))
}

/// Reads keys with their values between braces.
fn read_entries<K: DeJson + Key + Ord, T: NestedJson + Drop, L: ReadsJson<T>>(
    levels: &L,
    left: usize,
    alloc: Global,
    state: &mut DeJsonState,
    input: &mut Chars<'_>,
) -> Result<BTreeMap<K, T>, DeJsonErr>
    ensures { Reads
        (ordered_map_codec K.order K.cmp K.json (T.at left)).encoding.encodes
        (λ x. ordered_map_means K.cmp K.means T.means x.entries)
        (position state.old input.old) (position state.new input.new) result }
{
    // A text has fewer than 2^63 bytes, so a `usize` counts its entries.
    let _capacity = bytes_left(input);
    let mut entries = BTreeMap::new(alloc);
    state.curly_open(alloc, input)?;
    'entries: while !state.is_curly_close() {
        let (key, value) = read_entry::<K, T, L>(levels, left, alloc, state, input)?;
        let Ok(()) = put_entry(&mut entries, key, value) else {
            return Err(state.err_memory(alloc));
        };
        state.eat_comma_curly(alloc, input)?;
    }
    state.curly_close(alloc, input)?;
    Ok(entries)
}

impl<K: DeJson + Key + Ord, T: NestedJson + Drop, L: ReadsJson<T>> ReadsJson<BTreeMap<K, T>> for L {
    fn read_json(
        &self,
        left: usize,
        alloc: Global,
        state: &mut DeJsonState,
        input: &mut Chars<'_>,
    ) -> Result<BTreeMap<K, T>, DeJsonErr> {
        let read = read_entries::<K, T, L>(self, left, alloc, state, input);
        end_on_error(state, read)
    }
}

/// Appends a key, a colon and a value, after a comma unless they are the first. If allocation
/// fails, the text written so far remains.
fn append_entry<K: SerJson, T: WritesJson>(
    alloc: Global,
    key: &K,
    value: &T,
    first: bool,
    d: usize,
    s: &mut SerJsonState,
) -> Result<(), AllocError>
    ensures ok { OnOk result (Appends s.old.out s.new.out (in_list first
        (written_entry (K.json.canonical.text d) (T.json.canonical.text d) (key.now, value.now)))) }
    ensures err { OnErr result (AppendsPart s.old.out s.new.out) }
{
    if !first {
        s.out.push(',')?;
    }
    key.ser_json(alloc, d, s)?;
    s.out.push(':')?;
    value.write_json(alloc, d, s)
}

/// Appends entries between braces. If allocation fails, the text written so far
/// remains.
fn append_entries<K: SerJson + Ord, T: WritesJson>(
    alloc: Global,
    entries: &BTreeMap<K, T>,
    d: usize,
    s: &mut SerJsonState,
) -> Result<(), AllocError>
    ensures ok { OnOk result (Appends s.old.out s.new.out (written_entries
        (K.json.canonical.text d) (T.json.canonical.text d) entries.now.entries)) }
    ensures err { OnErr result (AppendsPart s.old.out s.new.out) }
{
    s.out.push('{')?;
    let mut first = true;
    for (key, value) in entries {
        append_entry(alloc, key, value, first, d, s)?;
        first = false;
    }
    s.out.push('}')
}

impl<K: SerJson + OrderedKey, T: WritesJson> WritesJson for BTreeMap<K, T> {
    fn write_json(&self, alloc: Global, d: usize, s: &mut SerJsonState) -> Result<(), AllocError> {
        let start = s.out.len();
        let _count = self.len();
        let written = append_entries(alloc, self, d.saturating_add(1), s);
        rollback_on_error(&mut s.out, start, written)
    }
}
