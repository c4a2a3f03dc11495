//! Lists: items between square brackets. Vectors, linked lists, slices and arrays.
//!
//! On an error, a reader here may leave the state at any position, unless it says where.

ghost use Rattle.std.specs.Prelude.{◌≡◌, IfOk, OnOk, OnErr, map, length};
ghost use Rattle.nano_value.specs.Meaning.{listed};
ghost use Rattle.nano_meaning.proofs.AgreesLaws.{seen_agrees, list_agrees, array_agrees};
ghost use Rattle.nano_json.specs.Codec.{codec_as};
ghost use Rattle.nano_text.specs.Outcomes.{Appends, AppendsPart};
ghost use Rattle.nano_grammar.specs.ItemRuns.{PutItems};
ghost use Rattle.nano_json_tokens.specs.Cut.{Cut};
ghost use Rattle.nano_json_tokens.specs.Outcomes.{Moved, TakesItem, at_comma};
ghost use Rattle.nano_json_tokens.specs.Token.{comma};
ghost use Rattle.nano_json.specs.ContainerCodecs.{array_of, list_codec, array_codec};
ghost use Rattle.nano_json.specs.Lists.{in_list, written_list, EncodesAll};
ghost use Rattle.nano_json.specs.Outcomes.{position, Reads};

use crate::traits::{DeJson, JsonCodec, SerJson};
use nano_grammar::Attempts;
use nano_json_tokens::{
    DeJsonErr, DeJsonState, DeJsonTok, SerJsonState, bytes_left, end_on_error, take_directly,
};
use nano_text::{Place, rollback_on_error};
use nano_value::Collect;
use std::alloc::{AllocError, Global};
use std::collections::LinkedList;
use std::str::Chars;

impl<T: JsonCodec> JsonCodec for Vec<T> {
    ghost json = { codec_as (λ x. x.items) (list_codec T.json) };

    ghost agrees = { seen_agrees (list_agrees T.agrees) (λ x. x.items) };
}

/// Takes the item that stands plainly after a pending comma, and the comma after it. `None` takes
/// nothing.
#[inline(always)]
fn take_item<T: DeJson>(
    alloc: Global,
    place: &mut Place,
    input: &mut Chars<'_>,
    text: &mut String,
) -> Option<T>
    ensures { TakesItem T.json.encoding.encodes T.means
        (at_comma place.old input.old) (at_comma place.new input.new) result }
{
    let mut here = *place;
    let mut rest = input.as_str().chars();
    let item = T::de_json_plain(alloc, &mut here, &mut rest, text)?;
    if !take_directly(&mut here, &mut rest, ',') {
        return None;
    }
    *place = here;
    *input = rest;
    Some(item)
}

/// Puts the items that stand plainly after a pending comma into a collection, where it is time to
/// look for some. The comma after the last one is pending then.
#[inline(always)]
fn put_plain_items<T: DeJson, C: Collect<T>>(
    alloc: Global,
    state: &mut DeJsonState,
    input: &mut Chars<'_>,
    attempts: &mut Attempts,
    items: &mut C,
) -> Result<(), AllocError>
    ensures ok { OnOk result (PutItems Cut T.json.encoding.encodes comma C.holds
        (position state.old input.old) (position state.new input.new) items.old items.new) }
    ensures err { OnErr result (Moved state.old input.old state.new input.new) }
{
    let DeJsonTok::Comma = state.tok else {
        return Ok(());
    };
    if !attempts.is_due() {
        return Ok(());
    }
    // Copies, which remain in registers.
    let mut place = state.place();
    let mut rest = input.as_str().chars();
    let mut found = false;
    'items: while let Some(item) = take_item::<T>(alloc, &mut place, &mut rest, &mut state.strbuf) {
        found = true;
        if let Err(full) = items.put(item) {
            state.stand_at(place);
            *input = rest;
            return Err(full);
        }
    }
    attempts.note(found);
    state.stand_at(place);
    *input = rest;
    Ok(())
}

/// Reads items between square brackets into a collection.
pub(crate) fn read_list<T: DeJson, C: Collect<T>>(
    alloc: Global,
    state: &mut DeJsonState,
    input: &mut Chars<'_>,
) -> Result<C, DeJsonErr>
    ensures { Reads (EncodesAll C.whole T.json.encoding.encodes) C.means
        (position state.old input.old) (position state.new input.new) result }
{
    // A text has fewer than 2^63 bytes, so a `usize` counts its items.
    let _capacity = bytes_left(input);
    let mut items = C::empty(alloc);
    let mut attempts = Attempts::new();
    state.block_open(alloc, input)?;
    'items: while !state.is_block_close() {
        let item = T::de_json(alloc, state, input)?;
        let Ok(()) = items.put(item) else {
            return Err(state.err_memory(alloc));
        };
        let Ok(()) = put_plain_items(alloc, state, input, &mut attempts, &mut items) else {
            return Err(state.err_memory(alloc));
        };
        state.eat_comma_block(alloc, input)?;
    }
    state.block_close(alloc, input)?;
    Ok(items)
}

impl<T: DeJson> DeJson for Vec<T> {
    fn de_json(
        alloc: Global,
        state: &mut DeJsonState,
        input: &mut Chars<'_>,
    ) -> Result<Vec<T>, DeJsonErr> {
        let read = read_list::<T, Vec<T>>(alloc, state, input);
        end_on_error(state, read)
    }
}

/// Appends an item, after a comma unless it is the first. If allocation fails, the text written
/// so far remains.
pub(crate) fn append_item<T: SerJson>(
    alloc: Global,
    item: &T,
    first: bool,
    d: usize,
    s: &mut SerJsonState,
) -> Result<(), AllocError>
    ensures ok { OnOk result
        (Appends s.old.out s.new.out (in_list first (T.json.canonical.text d item.now))) }
    ensures err { OnErr result (AppendsPart s.old.out s.new.out) }
{
    if !first {
        s.out.push(',')?;
    }
    item.ser_json(alloc, d, s)
}

/// Appends items between square brackets. If allocation fails, the text written so far remains.
fn append_list<T: SerJson>(
    alloc: Global,
    items: &[T],
    d: usize,
    s: &mut SerJsonState,
) -> Result<(), AllocError>
    ensures ok { OnOk result
        (Appends s.old.out s.new.out (written_list (T.json.canonical.text d) items.now)) }
    ensures err { OnErr result (AppendsPart s.old.out s.new.out) }
{
    s.out.push('[')?;
    let mut first = true;
    for item in items {
        append_item(alloc, item, first, d, s)?;
        first = false;
    }
    s.out.push(']')
}

impl<T: SerJson> SerJson for Vec<T> {
    fn ser_json(&self, alloc: Global, d: usize, s: &mut SerJsonState) -> Result<(), AllocError> {
        let start = s.out.len();
        let written = append_list(alloc, self, d.saturating_add(1), s);
        rollback_on_error(&mut s.out, start, written)
    }
}

impl<T: JsonCodec> JsonCodec for LinkedList<T> {
    ghost json = { list_codec T.json };

    ghost agrees = { list_agrees T.agrees };
}

impl<T: DeJson> DeJson for LinkedList<T> {
    fn de_json(
        alloc: Global,
        state: &mut DeJsonState,
        input: &mut Chars<'_>,
    ) -> Result<LinkedList<T>, DeJsonErr> {
        let read = read_list::<T, LinkedList<T>>(alloc, state, input);
        end_on_error(state, read)
    }
}

/// Appends items between square brackets. If allocation fails, the text written so far remains.
fn append_linked_list<T: SerJson>(
    alloc: Global,
    items: &LinkedList<T>,
    d: usize,
    s: &mut SerJsonState,
) -> Result<(), AllocError>
    ensures ok { OnOk result
        (Appends s.old.out s.new.out (written_list (T.json.canonical.text d) items.now)) }
    ensures err { OnErr result (AppendsPart s.old.out s.new.out) }
{
    s.out.push('[')?;
    let mut first = true;
    for item in items {
        append_item(alloc, item, first, d, s)?;
        first = false;
    }
    s.out.push(']')
}

impl<T: SerJson> SerJson for LinkedList<T> {
    fn ser_json(&self, alloc: Global, d: usize, s: &mut SerJsonState) -> Result<(), AllocError> {
        let start = s.out.len();
        let written = append_linked_list(alloc, self, d.saturating_add(1), s);
        rollback_on_error(&mut s.out, start, written)
    }
}

impl<T: JsonCodec> JsonCodec for &[T] {
    ghost json = { codec_as (λ x. x.now) (list_codec T.json) };

    ghost agrees = { seen_agrees (list_agrees T.agrees) (λ x. x.now) };
}

impl<T: SerJson> SerJson for &[T] {
    fn ser_json(&self, alloc: Global, d: usize, s: &mut SerJsonState) -> Result<(), AllocError> {
        let start = s.out.len();
        let written = append_list(alloc, self, d.saturating_add(1), s);
        rollback_on_error(&mut s.out, start, written)
    }
}

impl<T: JsonCodec, const N: usize> JsonCodec for [T; N] {
    ghost json = { array_codec N T.json };

    ghost agrees = { array_agrees T.agrees N };
}

/// Reads `count` items between square brackets, and holds no more.
fn read_items<T: DeJson>(
    alloc: Global,
    state: &mut DeJsonState,
    input: &mut Chars<'_>,
    count: usize,
) -> Result<Vec<T>, DeJsonErr>
    ensures reads { Reads (array_of count T.json.encoding).encodes
        (λ items. listed (map T.means items.items))
        (position state.old input.old) (position state.new input.new) result }
    ensures count { IfOk result (λ items. length items.items ≡ count) }
{
    let mut items = Vec::new(alloc);
    state.block_open(alloc, input)?;
    for _index in 0..count {
        let item = T::de_json(alloc, state, input)?;
        if items.push(item).is_err() {
            return Err(state.err_memory(alloc));
        }
        state.eat_comma_block(alloc, input)?;
    }
    state.block_close(alloc, input)?;
    Ok(items)
}

/// Reads the items of an array.
fn read_array<T: DeJson, const N: usize>(
    alloc: Global,
    state: &mut DeJsonState,
    input: &mut Chars<'_>,
) -> Result<[T; N], DeJsonErr>
    ensures { Reads (array_of N T.json.encoding).encodes (λ items. listed (map T.means items))
        (position state.old input.old) (position state.new input.new) result }
{
    let items = read_items(alloc, state, input, N)?;
    match <[T; N]>::try_from(items) {
        Ok(items) => Ok(items),
        Err(_items) => unreachable!(),
    }
}

impl<T: DeJson, const N: usize> DeJson for [T; N] {
    /// Reads as many items and the closing bracket.
    fn de_json(
        alloc: Global,
        state: &mut DeJsonState,
        input: &mut Chars<'_>,
    ) -> Result<[T; N], DeJsonErr> {
        let read = read_array(alloc, state, input);
        end_on_error(state, read)
    }
}

impl<T: SerJson, const N: usize> SerJson for [T; N] {
    fn ser_json(&self, alloc: Global, d: usize, s: &mut SerJsonState) -> Result<(), AllocError> {
        let start = s.out.len();
        let written = append_list(alloc, self.as_slice(), d.saturating_add(1), s);
        rollback_on_error(&mut s.out, start, written)
    }
}
