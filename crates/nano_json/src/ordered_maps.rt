//! Ordered maps: keys with their values between braces. A hashed map of the same entries is
//! written alike.

ghost use Rattle.std.specs.Prelude.{OnOk, OnErr};
ghost use Rattle.nano_meaning.proofs.AgreesLaws.{seen_agrees, ordered_map_agrees};
ghost use Rattle.nano_json.specs.Codec.{codec_as};
ghost use Rattle.nano_json.specs.Lists.{written_entries};
ghost use Rattle.nano_json.specs.ContainerCodecs.{ordered_map_codec};
ghost use Rattle.nano_text.specs.Outcomes.{Appends, AppendsPart};

use crate::maps::{append_entry, read_entries};
use crate::traits::{DeJson, JsonCodec, SerJson};
use nano_json_tokens::{DeJsonErr, DeJsonState, SerJsonState, end_on_error};
use nano_text::rollback_on_error;
use nano_value::{Key, OrderedKey};
use std::alloc::{AllocError, Global};
use std::collections::BTreeMap;
use std::str::Chars;

impl<K: JsonCodec + Key + Ord, V: JsonCodec> JsonCodec for BTreeMap<K, V> {
    ghost json = { codec_as (λ x. x.entries) (ordered_map_codec K.order K.cmp K.json V.json) };

    ghost agrees = { seen_agrees (ordered_map_agrees K.agrees V.agrees K.cmp) (λ x. x.entries) };
}

impl<K: DeJson + Key + Ord, V: DeJson> DeJson for BTreeMap<K, V> {
    fn de_json(
        alloc: Global,
        state: &mut DeJsonState,
        input: &mut Chars<'_>,
    ) -> Result<BTreeMap<K, V>, DeJsonErr> {
        let read = read_entries::<K, V, BTreeMap<K, V>>(alloc, state, input);
        end_on_error(state, read)
    }
}

/// Appends entries between braces. If allocation fails, the text written so far
/// remains.
fn append_btree_map<K: SerJson + Ord, V: SerJson>(
    alloc: Global,
    entries: &BTreeMap<K, V>,
    d: usize,
    s: &mut SerJsonState,
) -> Result<(), AllocError>
    ensures ok { OnOk result (Appends s.old.out s.new.out (written_entries
        (K.json.canonical.text d) (V.json.canonical.text d) entries.now.entries)) }
    ensures err { OnErr result (AppendsPart s.old.out s.new.out) }
{
    s.out.push('{')?;
    let mut first = true;
    for (key, value) in entries {
        append_entry(alloc, key, value, first, d, s)?;
        first = false;
    }
    s.out.push('}')
}

impl<K: SerJson + OrderedKey, V: SerJson> SerJson for BTreeMap<K, V> {
    fn ser_json(&self, alloc: Global, d: usize, s: &mut SerJsonState) -> Result<(), AllocError> {
        let start = s.out.len();
        let _count = self.len();
        let written = append_btree_map(alloc, self, d.saturating_add(1), s);
        rollback_on_error(&mut s.out, start, written)
    }
}
