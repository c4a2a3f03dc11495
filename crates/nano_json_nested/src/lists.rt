//! Vectors of values that contain themselves: items between square brackets.
//!
//! On an error, a reader here may leave the state at any position, unless it says where.

ghost use Rattle.std.specs.Prelude.{map, OnOk, OnErr};
ghost use Rattle.nano_value.specs.Meaning.{listed};
ghost use Rattle.nano_text.specs.Outcomes.{Appends, AppendsPart};
ghost use Rattle.nano_json.specs.Codec.{codec_as};
ghost use Rattle.nano_json.specs.ContainerCodecs.{list_codec};
ghost use Rattle.nano_json.specs.Lists.{in_list, written_list};
ghost use Rattle.nano_json.specs.Outcomes.{position, Reads};

use crate::traits::{NestedJson, ReadsJson, WritesJson};
use nano_json::{DeJsonErr, DeJsonState, SerJsonState, end_on_error, rollback_on_error};
use nano_json_tokens::bytes_left;
use std::alloc::{AllocError, Global};
use std::str::Chars;

impl<T: NestedJson> NestedJson for Vec<T> {
    ghost means = { λ x. listed (map T.means x.items) };

    ghost at = { λ levels. codec_as (λ x. x.items) (list_codec (T.at levels)) };
}

/// Reads items between square brackets.
fn read_items<T: NestedJson + Drop, L: ReadsJson<T>>(
    levels: &L,
    left: usize,
    alloc: Global,
    state: &mut DeJsonState,
    input: &mut Chars<'_>,
) -> Result<Vec<T>, DeJsonErr>
    ensures { Reads (list_codec (T.at left)).encoding.encodes
        (λ items. listed (map T.means items.items))
        (position state.old input.old) (position state.new input.new) result }
{
    // A text has fewer than 2^63 bytes, so a `usize` counts its items.
    let _capacity = bytes_left(input);
    let mut items = Vec::new(alloc);
    state.block_open(alloc, input)?;
    'items: while !state.is_block_close() {
        let item: T = ReadsJson::<T>::read_json(levels, left, alloc, state, input)?;
        let Ok(()) = items.push(item) else {
            return Err(state.err_memory(alloc));
        };
        state.eat_comma_block(alloc, input)?;
    }
    state.block_close(alloc, input)?;
    Ok(items)
}

impl<T: NestedJson + Drop, L: ReadsJson<T>> ReadsJson<Vec<T>> for L {
    fn read_json(
        &self,
        left: usize,
        alloc: Global,
        state: &mut DeJsonState,
        input: &mut Chars<'_>,
    ) -> Result<Vec<T>, DeJsonErr> {
        let read = read_items::<T, L>(self, left, alloc, state, input);
        end_on_error(state, read)
    }
}

/// Appends an item, after a comma unless it is the first. If allocation fails, the text written
/// so far remains.
fn append_item<T: WritesJson>(
    alloc: Global,
    item: &T,
    first: bool,
    d: usize,
    s: &mut SerJsonState,
) -> Result<(), AllocError>
    ensures ok { OnOk result
        (Appends s.old.out s.new.out (in_list first (T.json.canonical.text d item.now))) }
    ensures err { OnErr result (AppendsPart s.old.out s.new.out) }
{
    if !first {
        s.out.push(',')?;
    }
    item.write_json(alloc, d, s)
}

/// Appends items between square brackets. If allocation fails, the text written so far remains.
fn append_list<T: WritesJson>(
    alloc: Global,
    items: &Vec<T>,
    d: usize,
    s: &mut SerJsonState,
) -> Result<(), AllocError>
    ensures ok { OnOk result
        (Appends s.old.out s.new.out (written_list (T.json.canonical.text d) items.now.items)) }
    ensures err { OnErr result (AppendsPart s.old.out s.new.out) }
{
    s.out.push('[')?;
    let mut first = true;
    for item in items {
        append_item(alloc, item, first, d, s)?;
        first = false;
    }
    s.out.push(']')
}

impl<T: WritesJson> WritesJson for Vec<T> {
    fn write_json(&self, alloc: Global, d: usize, s: &mut SerJsonState) -> Result<(), AllocError> {
        let start = s.out.len();
        let written = append_list(alloc, self, d.saturating_add(1), s);
        rollback_on_error(&mut s.out, start, written)
    }
}
