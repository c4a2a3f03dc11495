//! Lists between parentheses: slices and arrays.

ghost use Rattle.std.specs.Prelude.{◌≡◌, IfOk, OnOk, OnErr, map, length};
ghost use Rattle.nano_text.specs.Place.{saturating_next};
ghost use Rattle.nano_value.specs.Meaning.{listed};
ghost use Rattle.nano_meaning.proofs.AgreesLaws.{seen_agrees, list_agrees, array_agrees};
ghost use Rattle.nano_ron.specs.Codec.{codec_as};
ghost use Rattle.nano_text.specs.Outcomes.{Appends, AppendsPart};
ghost use Rattle.nano_ron.specs.ContainerCodecs.{array_of, slice_codec, array_codec};
ghost use Rattle.nano_ron.specs.Lists.{after_space, written_in};
ghost use Rattle.nano_ron_tokens.proofs.StylesLaws.{paren_style};
ghost use Rattle.nano_ron.specs.Outcomes.{position, Reads};

use crate::traits::{DeRon, RonCodec, SerRon};
use nano_ron_tokens::{DeRonErr, DeRonState, SerRonState, end_on_error};
use nano_text::rollback_on_error;
use std::alloc::{AllocError, Global};
use std::str::Chars;

impl<T: RonCodec> RonCodec for &[T] {
    ghost ron = { codec_as (λ x. x.now) (slice_codec T.ron) };

    ghost agrees = { seen_agrees (list_agrees T.agrees) (λ x. x.now) };
}

/// Appends an item, after a comma and a space unless it is the first. If an allocation fails,
/// what was written so far remains.
fn append_spaced<T: SerRon>(
    alloc: Global,
    item: &T,
    first: bool,
    d: usize,
    s: &mut SerRonState,
) -> Result<(), AllocError>
    ensures ok { OnOk result
        (Appends s.old.out s.new.out (after_space first (T.ron.canonical.text d item.now))) }
    ensures err { OnErr result (AppendsPart s.old.out s.new.out) }
{
    if !first {
        s.out.push_str(", ")?;
    }
    item.ser_ron(alloc, d, s)
}

/// Appends items between parentheses. If an allocation fails, what was written so far remains.
fn append_slice<T: SerRon>(
    alloc: Global,
    items: &[T],
    d: usize,
    s: &mut SerRonState,
) -> Result<(), AllocError>
    ensures ok { OnOk result (Appends s.old.out s.new.out
        (written_in paren_style d (T.ron.canonical.text (saturating_next d)) items.now)) }
    ensures err { OnErr result (AppendsPart s.old.out s.new.out) }
{
    s.out.push('(')?;
    let inner = d.saturating_add(1);
    let mut first = true;
    for item in items {
        append_spaced(alloc, item, first, inner, s)?;
        first = false;
    }
    s.out.push(')')
}

impl<T: SerRon> SerRon for &[T] {
    fn ser_ron(&self, alloc: Global, d: usize, s: &mut SerRonState) -> Result<(), AllocError> {
        let start = s.out.len();
        let written = append_slice(alloc, self, d, s);
        rollback_on_error(&mut s.out, start, written)
    }
}

impl<T: RonCodec, const N: usize> RonCodec for [T; N] {
    ghost ron = { array_codec N T.ron };

    ghost agrees = { array_agrees T.agrees N };
}

/// Reads `count` items between parentheses, and holds no more. On an error, the position of the
/// state is unspecified.
fn read_items<T: DeRon>(
    alloc: Global,
    state: &mut DeRonState,
    input: &mut Chars<'_>,
    count: usize,
) -> Result<Vec<T>, DeRonErr>
    ensures reads { Reads (array_of count T.ron.encoding).encodes
        (λ items. listed (map T.means items.items))
        (position state.old input.old) (position state.new input.new) result }
    ensures count { IfOk result (λ items. length items.items ≡ count) }
{
    let mut items = Vec::new(alloc);
    state.paren_open(alloc, input)?;
    for _index in 0..count {
        let item = T::de_ron(alloc, state, input)?;
        if items.push(item).is_err() {
            return Err(state.err_memory(alloc));
        }
        state.eat_comma_paren(alloc, input)?;
    }
    state.paren_close(alloc, input)?;
    Ok(items)
}

/// Reads the items of an array. On an error, the position of the state is unspecified.
fn read_array<T: DeRon, const N: usize>(
    alloc: Global,
    state: &mut DeRonState,
    input: &mut Chars<'_>,
) -> Result<[T; N], DeRonErr>
    ensures { Reads (array_of N T.ron.encoding).encodes (λ items. listed (map T.means items))
        (position state.old input.old) (position state.new input.new) result }
{
    let items = read_items(alloc, state, input, N)?;
    match <[T; N]>::try_from(items) {
        Ok(items) => Ok(items),
        Err(_items) => unreachable!(),
    }
}

impl<T: DeRon, const N: usize> DeRon for [T; N] {
    /// Reads as many items and the closing bracket.
    fn de_ron(
        alloc: Global,
        state: &mut DeRonState,
        input: &mut Chars<'_>,
    ) -> Result<[T; N], DeRonErr> {
        let read = read_array(alloc, state, input);
        end_on_error(state, read)
    }
}

impl<T: SerRon, const N: usize> SerRon for [T; N] {
    fn ser_ron(&self, alloc: Global, d: usize, s: &mut SerRonState) -> Result<(), AllocError> {
        let start = s.out.len();
        let written = append_slice(alloc, self.as_slice(), d, s);
        rollback_on_error(&mut s.out, start, written)
    }
}
