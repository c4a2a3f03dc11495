//! Ordered maps whose values contain themselves: keys with their values between braces, each entry
//! on a line of its own.
//!
//! On an error, a reader here may leave the state at any position, unless it says where.

ghost use Rattle.std.specs.Prelude.{List, ◌++◌, ◌∷◌, [], OnOk, OnErr};
ghost use Rattle.nano_value.specs.Meaning.{Meaning, pair_map};
ghost use Rattle.nano_value.specs.Ordered.{ordered_map_means};
ghost use Rattle.nano_value.specs.Collected.{HoldsOrderedTable};
ghost use Rattle.nano_text.specs.Place.{saturating_next};
ghost use Rattle.nano_text.specs.Outcomes.{Appends, AppendsPart};
ghost use Rattle.nano_ron.specs.Codec.{codec_as};
ghost use Rattle.nano_ron.specs.ContainerCodecs.{ordered_map_codec};
ghost use Rattle.nano_ron.specs.Lists.{on_a_line, written_entry, written_entries, EncodesEntry};
ghost use Rattle.nano_ron.specs.Outcomes.{position, Reads};

use crate::traits::{NestedRon, ReadsRon, WritesRon};
use nano_ron::{
    DeRon, DeRonErr, DeRonState, RonCodec, SerRon, SerRonState, end_on_error, rollback_on_error,
};
use nano_text::bytes_left;
use nano_value::{Key, OrderedKey};
use std::alloc::{AllocError, Global};
use std::collections::BTreeMap;
use std::str::Chars;

impl<K: RonCodec + Key + Ord, T: NestedRon> NestedRon for BTreeMap<K, T> {
    ghost means = { λ x. ordered_map_means K.cmp K.means T.means x.entries };

    ghost at = { λ levels.
        codec_as (λ x. x.entries) (ordered_map_codec K.order K.cmp K.ron (T.at levels)) };
}

/// Puts a key with its value in, in place of an earlier value. If allocation fails, what is held is
/// not known.
fn put_entry<K: Key + Ord + Drop, T: NestedRon + Drop>(
    entries: &mut BTreeMap<K, T>,
    key: K,
    value: T,
) -> Result<(), AllocError>
    ensures { OnOk result ((held : List (Meaning × Meaning))
        → HoldsOrderedTable K.cmp K.means T.means entries.old.entries held
        → HoldsOrderedTable K.cmp K.means T.means entries.new.entries
        (held ++ (K.means key, T.means value) ∷ [])) }
{
    let _replaced = entries.insert(key, value)?;
    Ok(())
}

/// Reads a key, a colon and a value.
fn read_entry<K: DeRon, T: NestedRon + Drop, L: ReadsRon<T>>(
    levels: &L,
    left: usize,
    alloc: Global,
    state: &mut DeRonState,
    input: &mut Chars<'_>,
) -> Result<(K, T), DeRonErr>
    ensures { Reads (EncodesEntry K.ron.encoding.encodes (T.at left).encoding.encodes)
        (pair_map K.means T.means)
        (position state.old input.old) (position state.new input.new) result }
{
    let key = K::de_ron(alloc, state, input)?;
    state.colon(alloc, input)?;
    let value: T = ReadsRon::<T>::read_ron(levels, left, alloc, state, input)?;
    Ok((key, value))
}

/// Reads keys with their values between braces.
fn read_entries<K: DeRon + Key + Ord, T: NestedRon + Drop, L: ReadsRon<T>>(
    levels: &L,
    left: usize,
    alloc: Global,
    state: &mut DeRonState,
    input: &mut Chars<'_>,
) -> Result<BTreeMap<K, T>, DeRonErr>
    ensures { Reads
        (ordered_map_codec K.order K.cmp K.ron (T.at left)).encoding.encodes
        (λ x. ordered_map_means K.cmp K.means T.means x.entries)
        (position state.old input.old) (position state.new input.new) result }
{
    // A text has fewer than 2^63 bytes, so a `usize` counts its entries.
    let _capacity = bytes_left(input);
    let mut entries = BTreeMap::new(alloc);
    state.curly_open(alloc, input)?;
    'entries: while !state.is_curly_close() {
        let (key, value) = read_entry::<K, T, L>(levels, left, alloc, state, input)?;
        let Ok(()) = put_entry(&mut entries, key, value) else {
            return Err(state.err_memory(alloc));
        };
        state.eat_comma_curly(alloc, input)?;
    }
    state.curly_close(alloc, input)?;
    Ok(entries)
}

impl<K: DeRon + Key + Ord, T: NestedRon + Drop, L: ReadsRon<T>> ReadsRon<BTreeMap<K, T>> for L {
    fn read_ron(
        &self,
        left: usize,
        alloc: Global,
        state: &mut DeRonState,
        input: &mut Chars<'_>,
    ) -> Result<BTreeMap<K, T>, DeRonErr> {
        let read = read_entries::<K, T, L>(self, left, alloc, state, input);
        end_on_error(state, read)
    }
}

/// Appends an entry of a map at level `d`, on a line of its own: a key, a colon, a value and a
/// comma. If an allocation fails, what was written so far remains.
fn append_entry<K: SerRon, T: WritesRon>(
    alloc: Global,
    key: &K,
    value: &T,
    d: usize,
    s: &mut SerRonState,
) -> Result<(), AllocError>
    ensures ok { OnOk result (Appends s.old.out s.new.out (on_a_line d (written_entry
        (K.ron.canonical.text (saturating_next d)) (T.ron.canonical.text (saturating_next d))
        (key.now, value.now)))) }
    ensures err { OnErr result (AppendsPart s.old.out s.new.out) }
{
    let inner = d.saturating_add(1);
    s.indent(inner)?;
    key.ser_ron(alloc, inner, s)?;
    s.out.push(':')?;
    value.write_ron(alloc, inner, s)?;
    s.conl()
}

/// Appends entries between braces, each on a line of its own. If an allocation fails,
/// what was written so far remains.
fn append_btree_map<K: SerRon + Ord, T: WritesRon>(
    alloc: Global,
    entries: &BTreeMap<K, T>,
    d: usize,
    s: &mut SerRonState,
) -> Result<(), AllocError>
    ensures ok { OnOk result (Appends s.old.out s.new.out (written_entries d
        (K.ron.canonical.text (saturating_next d)) (T.ron.canonical.text (saturating_next d))
        entries.now.entries)) }
    ensures err { OnErr result (AppendsPart s.old.out s.new.out) }
{
    s.out.push_str("{\n")?;
    for (key, value) in entries {
        append_entry(alloc, key, value, d, s)?;
    }
    s.indent(d)?;
    s.out.push('}')
}

impl<K: SerRon + OrderedKey, T: WritesRon> WritesRon for BTreeMap<K, T> {
    fn write_ron(&self, alloc: Global, d: usize, s: &mut SerRonState) -> Result<(), AllocError> {
        let start = s.out.len();
        let _count = self.len();
        let written = append_btree_map(alloc, self, d, s);
        rollback_on_error(&mut s.out, start, written)
    }
}
