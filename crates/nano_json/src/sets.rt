//! Sets: items between square brackets, read in any order. They are written in order.

ghost use Rattle.std.specs.Map.Iter.{deref};
ghost use Rattle.std.specs.Prelude.{OnOk, OnErr, map};
ghost use Rattle.nano_meaning.proofs.AgreesLaws.{seen_agrees, set_agrees, ordered_agrees};
ghost use Rattle.nano_json.specs.Codec.{codec_as};
ghost use Rattle.nano_json.specs.Lists.{written_list};
ghost use Rattle.nano_text.specs.Outcomes.{Appends, AppendsPart};
ghost use Rattle.nano_json.specs.ContainerCodecs.{set_codec, ordered_codec};

use crate::lists::{append_item, read_list};
use crate::traits::{DeJson, JsonCodec, SerJson};
use nano_json_tokens::{DeJsonErr, DeJsonState, SerJsonState, end_on_error};
use nano_text::rollback_on_error;
use nano_value::{Key, OrderedKey, items_in_order};
use std::alloc::{AllocError, Global};
use std::collections::{BTreeSet, HashSet};
use std::hash::Hash;
use std::str::Chars;

impl<T: JsonCodec + Key + Hash> JsonCodec for HashSet<T> {
    ghost json = { codec_as (λ x. x.keys) (set_codec T.order T.json) };

    ghost agrees = { seen_agrees (set_agrees T.agrees) (λ x. x.keys) };
}

impl<T: DeJson + Key + Hash> DeJson for HashSet<T> {
    fn de_json(
        alloc: Global,
        state: &mut DeJsonState,
        input: &mut Chars<'_>,
    ) -> Result<HashSet<T>, DeJsonErr> {
        let read = read_list::<T, HashSet<T>>(alloc, state, input);
        end_on_error(state, read)
    }
}

/// Appends items between square brackets. If allocation fails, the text written so far remains.
fn append_hash_set<T: SerJson>(
    alloc: Global,
    items: &[&T],
    d: usize,
    s: &mut SerJsonState,
) -> Result<(), AllocError>
    ensures ok { OnOk result
        (Appends s.old.out s.new.out
        (written_list (T.json.canonical.text d) (map deref items.now))) }
    ensures err { OnErr result (AppendsPart s.old.out s.new.out) }
{
    s.out.push('[')?;
    let mut first = true;
    for item in items {
        append_item(alloc, *item, first, d, s)?;
        first = false;
    }
    s.out.push(']')
}

impl<T: SerJson + OrderedKey + Hash> SerJson for HashSet<T> {
    fn ser_json(&self, alloc: Global, d: usize, s: &mut SerJsonState) -> Result<(), AllocError> {
        let start = s.out.len();
        let items = items_in_order(alloc, self)?;
        let written = append_hash_set(alloc, &items, d.saturating_add(1), s);
        rollback_on_error(&mut s.out, start, written)
    }
}

impl<T: JsonCodec + Key + Ord> JsonCodec for BTreeSet<T> {
    ghost json = { codec_as (λ x. x.keys) (ordered_codec T.order T.cmp T.json) };

    ghost agrees = { seen_agrees (ordered_agrees T.agrees T.cmp) (λ x. x.keys) };
}

impl<T: DeJson + Key + Ord> DeJson for BTreeSet<T> {
    fn de_json(
        alloc: Global,
        state: &mut DeJsonState,
        input: &mut Chars<'_>,
    ) -> Result<BTreeSet<T>, DeJsonErr> {
        let read = read_list::<T, BTreeSet<T>>(alloc, state, input);
        end_on_error(state, read)
    }
}

/// Appends items between square brackets. If allocation fails, the text written so far remains.
fn append_btree_set<T: SerJson + Ord>(
    alloc: Global,
    items: &BTreeSet<T>,
    d: usize,
    s: &mut SerJsonState,
) -> Result<(), AllocError>
    ensures ok { OnOk result
        (Appends s.old.out s.new.out (written_list (T.json.canonical.text d) items.now.keys)) }
    ensures err { OnErr result (AppendsPart s.old.out s.new.out) }
{
    s.out.push('[')?;
    let mut first = true;
    for item in items {
        append_item(alloc, item, first, d, s)?;
        first = false;
    }
    s.out.push(']')
}

impl<T: SerJson + OrderedKey> SerJson for BTreeSet<T> {
    fn ser_json(&self, alloc: Global, d: usize, s: &mut SerJsonState) -> Result<(), AllocError> {
        let start = s.out.len();
        let _count = self.len();
        let written = append_btree_set(alloc, self, d.saturating_add(1), s);
        rollback_on_error(&mut s.out, start, written)
    }
}
