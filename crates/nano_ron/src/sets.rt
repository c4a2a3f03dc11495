//! Sets: items between square brackets, read in any order. They are written in order, each item
//! after an indent.

ghost use Rattle.std.specs.Map.Iter.{deref};
ghost use Rattle.std.specs.Prelude.{OnOk, OnErr, map};
ghost use Rattle.nano_meaning.proofs.AgreesLaws.{seen_agrees, set_agrees, ordered_agrees};
ghost use Rattle.nano_ron.specs.Codec.{codec_as};
ghost use Rattle.nano_ron.specs.Lists.{written_in};
ghost use Rattle.nano_ron_tokens.proofs.StylesLaws.{indent_style};
ghost use Rattle.nano_text.specs.Place.{saturating_next};
ghost use Rattle.nano_text.specs.Outcomes.{Appends, AppendsPart};
ghost use Rattle.nano_ron.specs.ContainerCodecs.{set_codec, ordered_codec};

use crate::lists::{append_indented, read_list};
use crate::traits::{DeRon, RonCodec, SerRon};
use nano_ron_tokens::{DeRonErr, DeRonState, SerRonState, end_on_error};
use nano_text::rollback_on_error;
use nano_value::{Key, OrderedKey, items_in_order};
use std::alloc::{AllocError, Global};
use std::collections::{BTreeSet, HashSet};
use std::hash::Hash;
use std::str::Chars;

impl<T: RonCodec + Key + Hash> RonCodec for HashSet<T> {
    ghost ron = { codec_as (λ x. x.keys) (set_codec T.order T.ron) };

    ghost agrees = { seen_agrees (set_agrees T.agrees) (λ x. x.keys) };
}

impl<T: DeRon + Key + Hash> DeRon for HashSet<T> {
    fn de_ron(
        alloc: Global,
        state: &mut DeRonState,
        input: &mut Chars<'_>,
    ) -> Result<HashSet<T>, DeRonErr> {
        let read = read_list::<T, HashSet<T>>(alloc, state, input);
        end_on_error(state, read)
    }
}

/// Appends items between square brackets, each after an indent. If an allocation fails, what
/// was written so far remains.
fn append_hash_set<T: SerRon>(
    alloc: Global,
    items: &[&T],
    d: usize,
    s: &mut SerRonState,
) -> Result<(), AllocError>
    ensures ok { OnOk result (Appends s.old.out s.new.out
        (written_in indent_style d (T.ron.canonical.text (saturating_next d))
        (map deref items.now))) }
    ensures err { OnErr result (AppendsPart s.old.out s.new.out) }
{
    s.out.push('[')?;
    let mut first = true;
    for item in items {
        append_indented(alloc, *item, first, d, s)?;
        first = false;
    }
    s.out.push(']')
}

impl<T: SerRon + OrderedKey + Hash> SerRon for HashSet<T> {
    fn ser_ron(&self, alloc: Global, d: usize, s: &mut SerRonState) -> Result<(), AllocError> {
        let start = s.out.len();
        let items = items_in_order(alloc, self)?;
        let written = append_hash_set(alloc, &items, d, s);
        rollback_on_error(&mut s.out, start, written)
    }
}

impl<T: RonCodec + Key + Ord> RonCodec for BTreeSet<T> {
    ghost ron = { codec_as (λ x. x.keys) (ordered_codec T.order T.cmp T.ron) };

    ghost agrees = { seen_agrees (ordered_agrees T.agrees T.cmp) (λ x. x.keys) };
}

impl<T: DeRon + Key + Ord> DeRon for BTreeSet<T> {
    fn de_ron(
        alloc: Global,
        state: &mut DeRonState,
        input: &mut Chars<'_>,
    ) -> Result<BTreeSet<T>, DeRonErr> {
        let read = read_list::<T, BTreeSet<T>>(alloc, state, input);
        end_on_error(state, read)
    }
}

/// Appends items between square brackets, each after an indent. If an allocation fails, what
/// was written so far remains.
fn append_btree_set<T: SerRon + Ord>(
    alloc: Global,
    items: &BTreeSet<T>,
    d: usize,
    s: &mut SerRonState,
) -> Result<(), AllocError>
    ensures ok { OnOk result (Appends s.old.out s.new.out
        (written_in indent_style d (T.ron.canonical.text (saturating_next d)) items.now.keys)) }
    ensures err { OnErr result (AppendsPart s.old.out s.new.out) }
{
    s.out.push('[')?;
    let mut first = true;
    for item in items {
        append_indented(alloc, item, first, d, s)?;
        first = false;
    }
    s.out.push(']')
}

impl<T: SerRon + OrderedKey> SerRon for BTreeSet<T> {
    fn ser_ron(&self, alloc: Global, d: usize, s: &mut SerRonState) -> Result<(), AllocError> {
        let start = s.out.len();
        let _count = self.len();
        let written = append_btree_set(alloc, self, d, s);
        rollback_on_error(&mut s.out, start, written)
    }
}
