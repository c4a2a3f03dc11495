//! Boxes of values that contain themselves: each is encoded as its content.
//!
//! On an error, a reader here may leave the state at any position, unless it says where.

ghost use Rattle.nano_ron.specs.Codec.{codec_as};
ghost use Rattle.nano_ron.specs.Outcomes.{position, Reads};

use crate::traits::{NestedRon, ReadsRon, WritesRon};
use nano_ron::{DeRonErr, DeRonState, SerRonState, end_on_error};
use std::alloc::{AllocError, Global};
use std::str::Chars;

impl<T: NestedRon> NestedRon for Box<T> {
    ghost means = { λ x. T.means x.value };

    ghost at = { λ levels. codec_as (λ x. x.value) (T.at levels) };
}

/// Reads a value into a box.
fn read_box<T: NestedRon + Drop, L: ReadsRon<T>>(
    levels: &L,
    left: usize,
    alloc: Global,
    state: &mut DeRonState,
    input: &mut Chars<'_>,
) -> Result<Box<T>, DeRonErr>
    ensures { Reads (T.at left).encoding.encodes (λ x. T.means x.value)
        (position state.old input.old) (position state.new input.new) result }
{
    let value: T = ReadsRon::<T>::read_ron(levels, left, alloc, state, input)?;
    match Box::new(alloc, value) {
        Ok(value) => Ok(value),
        Err(_rejected) => Err(state.err_memory(alloc)),
    }
}

impl<T: NestedRon + Drop, L: ReadsRon<T>> ReadsRon<Box<T>> for L {
    fn read_ron(
        &self,
        left: usize,
        alloc: Global,
        state: &mut DeRonState,
        input: &mut Chars<'_>,
    ) -> Result<Box<T>, DeRonErr> {
        let read = read_box::<T, L>(self, left, alloc, state, input);
        end_on_error(state, read)
    }
}

impl<T: WritesRon> WritesRon for Box<T> {
    fn write_ron(&self, alloc: Global, d: usize, s: &mut SerRonState) -> Result<(), AllocError> {
        (**self).write_ron(alloc, d, s)
    }
}
