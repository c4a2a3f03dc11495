//! Ordered maps: keys with their values between braces, each entry on a line of its own. A
//! hashed map of the same entries is written alike.

ghost use Rattle.std.specs.Prelude.{OnOk, OnErr};
ghost use Rattle.nano_meaning.proofs.AgreesLaws.{seen_agrees, ordered_map_agrees};
ghost use Rattle.nano_ron.specs.Codec.{codec_as};
ghost use Rattle.nano_ron.specs.Lists.{written_entries};
ghost use Rattle.nano_ron.specs.ContainerCodecs.{ordered_map_codec};
ghost use Rattle.nano_text.specs.Place.{saturating_next};
ghost use Rattle.nano_text.specs.Outcomes.{Appends, AppendsPart};

use crate::maps::{append_entry, read_entries};
use crate::traits::{DeRon, RonCodec, SerRon};
use nano_ron_tokens::{DeRonErr, DeRonState, SerRonState, end_on_error};
use nano_text::rollback_on_error;
use nano_value::{Key, OrderedKey};
use std::alloc::{AllocError, Global};
use std::collections::BTreeMap;
use std::str::Chars;

impl<K: RonCodec + Key + Ord, V: RonCodec> RonCodec for BTreeMap<K, V> {
    ghost ron = { codec_as (λ x. x.entries) (ordered_map_codec K.order K.cmp K.ron V.ron) };

    ghost agrees = { seen_agrees (ordered_map_agrees K.agrees V.agrees K.cmp) (λ x. x.entries) };
}

impl<K: DeRon + Key + Ord, V: DeRon> DeRon for BTreeMap<K, V> {
    fn de_ron(
        alloc: Global,
        state: &mut DeRonState,
        input: &mut Chars<'_>,
    ) -> Result<BTreeMap<K, V>, DeRonErr> {
        let read = read_entries::<K, V, BTreeMap<K, V>>(alloc, state, input);
        end_on_error(state, read)
    }
}

/// Appends entries between braces, each on a line of its own. If an allocation fails,
/// what was written so far remains.
fn append_btree_map<K: SerRon + Ord, V: SerRon>(
    alloc: Global,
    entries: &BTreeMap<K, V>,
    d: usize,
    s: &mut SerRonState,
) -> Result<(), AllocError>
    ensures ok { OnOk result (Appends s.old.out s.new.out (written_entries d
        (K.ron.canonical.text (saturating_next d)) (V.ron.canonical.text (saturating_next d))
        entries.now.entries)) }
    ensures err { OnErr result (AppendsPart s.old.out s.new.out) }
{
    s.out.push_str("{\n")?;
    for (key, value) in entries {
        append_entry(alloc, key, value, d, s)?;
    }
    s.indent(d)?;
    s.out.push('}')
}

impl<K: SerRon + OrderedKey, V: SerRon> SerRon for BTreeMap<K, V> {
    fn ser_ron(&self, alloc: Global, d: usize, s: &mut SerRonState) -> Result<(), AllocError> {
        let start = s.out.len();
        let _count = self.len();
        let written = append_btree_map(alloc, self, d, s);
        rollback_on_error(&mut s.out, start, written)
    }
}
