//! Lists between square brackets: vectors and linked lists.

ghost use Rattle.std.specs.Prelude.{OnOk, OnErr};
ghost use Rattle.nano_text.specs.Place.{saturating_next};
ghost use Rattle.nano_meaning.proofs.AgreesLaws.{seen_agrees, list_agrees};
ghost use Rattle.nano_ron.specs.Codec.{codec_as};
ghost use Rattle.nano_text.specs.Outcomes.{Appends, AppendsPart};
ghost use Rattle.nano_grammar.specs.ItemRuns.{PutItems};
ghost use Rattle.nano_ron_tokens.specs.Cut.{Cut};
ghost use Rattle.nano_ron_tokens.specs.Outcomes.{Moved, TakesItem, at_comma};
ghost use Rattle.nano_ron_tokens.specs.Token.{comma};
ghost use Rattle.nano_ron.specs.Lists.{on_a_line, after_indent, written_in, EncodesAll};
ghost use Rattle.nano_ron.specs.ContainerCodecs.{vector_codec, linked_codec};
ghost use Rattle.nano_ron_tokens.proofs.StylesLaws.{line_style, indent_style};
ghost use Rattle.nano_ron.specs.Outcomes.{position, Reads};

use crate::traits::{DeRon, RonCodec, SerRon};
use nano_grammar::Attempts;
use nano_ron_tokens::{
    DeRonErr, DeRonState, DeRonTok, SerRonState, append_comma, end_on_error, take_directly,
};
use nano_text::{Place, bytes_left, rollback_on_error};
use nano_value::Collect;
use std::alloc::{AllocError, Global};
use std::collections::LinkedList;
use std::str::Chars;

impl<T: RonCodec> RonCodec for Vec<T> {
    ghost ron = { codec_as (λ x. x.items) (vector_codec T.ron) };

    ghost agrees = { seen_agrees (list_agrees T.agrees) (λ x. x.items) };
}

/// Takes the item that stands plainly after a pending comma, and the comma after it. `None` takes
/// nothing.
#[inline(always)]
fn take_item<T: DeRon>(
    alloc: Global,
    place: &mut Place,
    input: &mut Chars<'_>,
    text: &mut String,
) -> Option<T>
    ensures { TakesItem T.ron.encoding.encodes T.means
        (at_comma place.old input.old) (at_comma place.new input.new) result }
{
    let mut here = *place;
    let mut rest = input.as_str().chars();
    let item = T::de_ron_plain(alloc, &mut here, &mut rest, text)?;
    if !take_directly(&mut here, &mut rest, ',') {
        return None;
    }
    *place = here;
    *input = rest;
    Some(item)
}

/// Puts the items that stand plainly after a pending comma into a collection, where it is time to
/// look for some. The comma after the last one is pending then.
#[inline(always)]
fn put_plain_items<T: DeRon, C: Collect<T>>(
    alloc: Global,
    state: &mut DeRonState,
    input: &mut Chars<'_>,
    attempts: &mut Attempts,
    items: &mut C,
) -> Result<(), AllocError>
    ensures ok { OnOk result (PutItems Cut T.ron.encoding.encodes comma C.holds
        (position state.old input.old) (position state.new input.new) items.old items.new) }
    ensures err { OnErr result (Moved state.old input.old state.new input.new) }
{
    let DeRonTok::Comma = state.tok else {
        return Ok(());
    };
    if !attempts.is_due() {
        return Ok(());
    }
    // Copies, which remain in registers.
    let mut place = state.place();
    let mut rest = input.as_str().chars();
    let mut found = false;
    'items: while let Some(item) = take_item::<T>(alloc, &mut place, &mut rest, &mut state.strbuf) {
        found = true;
        if let Err(full) = items.put(item) {
            state.stand_at(place);
            *input = rest;
            return Err(full);
        }
    }
    attempts.note(found);
    state.stand_at(place);
    *input = rest;
    Ok(())
}

/// Reads items between square brackets into a collection. On an error, the position of the state is
/// unspecified.
pub(crate) fn read_list<T: DeRon, C: Collect<T>>(
    alloc: Global,
    state: &mut DeRonState,
    input: &mut Chars<'_>,
) -> Result<C, DeRonErr>
    ensures { Reads (EncodesAll C.whole T.ron.encoding.encodes) C.means
        (position state.old input.old) (position state.new input.new) result }
{
    // A text has fewer than 2^63 bytes, so a `usize` counts its items.
    let _capacity = bytes_left(input);
    let mut items = C::empty(alloc);
    let mut attempts = Attempts::new();
    state.block_open(alloc, input)?;
    'items: while !state.is_block_close() {
        let item = T::de_ron(alloc, state, input)?;
        let Ok(()) = items.put(item) else {
            return Err(state.err_memory(alloc));
        };
        let Ok(()) = put_plain_items(alloc, state, input, &mut attempts, &mut items) else {
            return Err(state.err_memory(alloc));
        };
        state.eat_comma_block(alloc, input)?;
    }
    state.block_close(alloc, input)?;
    Ok(items)
}

impl<T: DeRon> DeRon for Vec<T> {
    fn de_ron(
        alloc: Global,
        state: &mut DeRonState,
        input: &mut Chars<'_>,
    ) -> Result<Vec<T>, DeRonErr> {
        let read = read_list::<T, Vec<T>>(alloc, state, input);
        end_on_error(state, read)
    }
}

/// Appends an item of a list at level `d`, on a line of its own, with a comma after it. If an
/// allocation fails, what was written so far remains.
fn append_line<T: SerRon>(
    alloc: Global,
    item: &T,
    d: usize,
    s: &mut SerRonState,
) -> Result<(), AllocError>
    ensures ok { OnOk result (Appends s.old.out s.new.out
        (on_a_line d (T.ron.canonical.text (saturating_next d) item.now))) }
    ensures err { OnErr result (AppendsPart s.old.out s.new.out) }
{
    let inner = d.saturating_add(1);
    s.indent(inner)?;
    item.ser_ron(alloc, inner, s)?;
    s.conl()
}

/// Appends items between square brackets, each on a line of its own. If an allocation fails,
/// what was written so far remains.
fn append_vec<T: SerRon>(
    alloc: Global,
    items: &[T],
    d: usize,
    s: &mut SerRonState,
) -> Result<(), AllocError>
    ensures ok { OnOk result (Appends s.old.out s.new.out
        (written_in line_style d (T.ron.canonical.text (saturating_next d)) items.now)) }
    ensures err { OnErr result (AppendsPart s.old.out s.new.out) }
{
    s.out.push_str("[\n")?;
    for item in items {
        append_line(alloc, item, d, s)?;
    }
    s.indent(d)?;
    s.out.push(']')
}

impl<T: SerRon> SerRon for Vec<T> {
    fn ser_ron(&self, alloc: Global, d: usize, s: &mut SerRonState) -> Result<(), AllocError> {
        let start = s.out.len();
        let written = append_vec(alloc, self, d, s);
        rollback_on_error(&mut s.out, start, written)
    }
}

impl<T: RonCodec> RonCodec for LinkedList<T> {
    ghost ron = { linked_codec T.ron };

    ghost agrees = { list_agrees T.agrees };
}

impl<T: DeRon> DeRon for LinkedList<T> {
    fn de_ron(
        alloc: Global,
        state: &mut DeRonState,
        input: &mut Chars<'_>,
    ) -> Result<LinkedList<T>, DeRonErr> {
        let read = read_list::<T, LinkedList<T>>(alloc, state, input);
        end_on_error(state, read)
    }
}

/// Appends an item of a list at level `d` after an indent, and after a comma unless it is the
/// first. If an allocation fails, what was written so far remains.
pub(crate) fn append_indented<T: SerRon>(
    alloc: Global,
    item: &T,
    first: bool,
    d: usize,
    s: &mut SerRonState,
) -> Result<(), AllocError>
    ensures ok { OnOk result (Appends s.old.out s.new.out
        (after_indent d first (T.ron.canonical.text (saturating_next d) item.now))) }
    ensures err { OnErr result (AppendsPart s.old.out s.new.out) }
{
    append_comma(first, s)?;
    let inner = d.saturating_add(1);
    s.indent(inner)?;
    item.ser_ron(alloc, inner, s)
}

/// Appends items between square brackets, each after an indent. If an allocation fails, what
/// was written so far remains.
fn append_linked_list<T: SerRon>(
    alloc: Global,
    items: &LinkedList<T>,
    d: usize,
    s: &mut SerRonState,
) -> Result<(), AllocError>
    ensures ok { OnOk result (Appends s.old.out s.new.out
        (written_in indent_style d (T.ron.canonical.text (saturating_next d)) items.now)) }
    ensures err { OnErr result (AppendsPart s.old.out s.new.out) }
{
    s.out.push('[')?;
    let mut first = true;
    for item in items {
        append_indented(alloc, item, first, d, s)?;
        first = false;
    }
    s.out.push(']')
}

impl<T: SerRon> SerRon for LinkedList<T> {
    fn ser_ron(&self, alloc: Global, d: usize, s: &mut SerRonState) -> Result<(), AllocError> {
        let start = s.out.len();
        let written = append_linked_list(alloc, self, d, s);
        rollback_on_error(&mut s.out, start, written)
    }
}
