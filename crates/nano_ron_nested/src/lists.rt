//! Vectors of values that contain themselves: items between square brackets. They are written each
//! on a line of its own.
//!
//! On an error, a reader here may leave the state at any position, unless it says where.

ghost use Rattle.std.specs.Prelude.{map, OnOk, OnErr};
ghost use Rattle.nano_value.specs.Meaning.{listed};
ghost use Rattle.nano_text.specs.Place.{saturating_next};
ghost use Rattle.nano_text.specs.Outcomes.{Appends, AppendsPart};
ghost use Rattle.nano_ron.specs.Codec.{codec_as};
ghost use Rattle.nano_ron.specs.ContainerCodecs.{vector_codec};
ghost use Rattle.nano_ron.specs.Lists.{on_a_line, written_in};
ghost use Rattle.nano_ron_tokens.proofs.StylesLaws.{line_style};
ghost use Rattle.nano_ron.specs.Outcomes.{position, Reads};

use crate::traits::{NestedRon, ReadsRon, WritesRon};
use nano_ron::{DeRonErr, DeRonState, SerRonState, end_on_error, rollback_on_error};
use nano_text::bytes_left;
use std::alloc::{AllocError, Global};
use std::str::Chars;

impl<T: NestedRon> NestedRon for Vec<T> {
    ghost means = { λ x. listed (map T.means x.items) };

    ghost at = { λ levels. codec_as (λ x. x.items) (vector_codec (T.at levels)) };
}

/// Reads items between square brackets.
fn read_items<T: NestedRon + Drop, L: ReadsRon<T>>(
    levels: &L,
    left: usize,
    alloc: Global,
    state: &mut DeRonState,
    input: &mut Chars<'_>,
) -> Result<Vec<T>, DeRonErr>
    ensures { Reads (vector_codec (T.at left)).encoding.encodes
        (λ items. listed (map T.means items.items))
        (position state.old input.old) (position state.new input.new) result }
{
    // A text has fewer than 2^63 bytes, so a `usize` counts its items.
    let _capacity = bytes_left(input);
    let mut items = Vec::new(alloc);
    state.block_open(alloc, input)?;
    'items: while !state.is_block_close() {
        let item: T = ReadsRon::<T>::read_ron(levels, left, alloc, state, input)?;
        let Ok(()) = items.push(item) else {
            return Err(state.err_memory(alloc));
        };
        state.eat_comma_block(alloc, input)?;
    }
    state.block_close(alloc, input)?;
    Ok(items)
}

impl<T: NestedRon + Drop, L: ReadsRon<T>> ReadsRon<Vec<T>> for L {
    fn read_ron(
        &self,
        left: usize,
        alloc: Global,
        state: &mut DeRonState,
        input: &mut Chars<'_>,
    ) -> Result<Vec<T>, DeRonErr> {
        let read = read_items::<T, L>(self, left, alloc, state, input);
        end_on_error(state, read)
    }
}

/// Appends an item of a list at level `d`, on a line of its own, with a comma after it. If an
/// allocation fails, what was written so far remains.
fn append_line<T: WritesRon>(
    alloc: Global,
    item: &T,
    d: usize,
    s: &mut SerRonState,
) -> Result<(), AllocError>
    ensures ok { OnOk result (Appends s.old.out s.new.out
        (on_a_line d (T.ron.canonical.text (saturating_next d) item.now))) }
    ensures err { OnErr result (AppendsPart s.old.out s.new.out) }
{
    let inner = d.saturating_add(1);
    s.indent(inner)?;
    item.write_ron(alloc, inner, s)?;
    s.conl()
}

/// Appends items between square brackets, each on a line of its own. If an allocation fails,
/// what was written so far remains.
fn append_list<T: WritesRon>(
    alloc: Global,
    items: &Vec<T>,
    d: usize,
    s: &mut SerRonState,
) -> Result<(), AllocError>
    ensures ok { OnOk result (Appends s.old.out s.new.out
        (written_in line_style d (T.ron.canonical.text (saturating_next d)) items.now.items)) }
    ensures err { OnErr result (AppendsPart s.old.out s.new.out) }
{
    s.out.push_str("[\n")?;
    for item in items {
        append_line(alloc, item, d, s)?;
    }
    s.indent(d)?;
    s.out.push(']')
}

impl<T: WritesRon> WritesRon for Vec<T> {
    fn write_ron(&self, alloc: Global, d: usize, s: &mut SerRonState) -> Result<(), AllocError> {
        let start = s.out.len();
        let written = append_list(alloc, self, d, s);
        rollback_on_error(&mut s.out, start, written)
    }
}
