//! Boxes of values that contain themselves: each is encoded as its content.
//!
//! On an error, a reader here may leave the state at any position, unless it says where.

ghost use Rattle.nano_json.specs.Codec.{codec_as};
ghost use Rattle.nano_json.specs.Outcomes.{position, Reads};

use crate::traits::{NestedJson, ReadsJson, WritesJson};
use nano_json::{DeJsonErr, DeJsonState, SerJsonState, end_on_error};
use std::alloc::{AllocError, Global};
use std::str::Chars;

impl<T: NestedJson> NestedJson for Box<T> {
    ghost means = { λ x. T.means x.value };

    ghost at = { λ levels. codec_as (λ x. x.value) (T.at levels) };
}

/// Reads a value into a box.
fn read_box<T: NestedJson + Drop, L: ReadsJson<T>>(
    levels: &L,
    left: usize,
    alloc: Global,
    state: &mut DeJsonState,
    input: &mut Chars<'_>,
) -> Result<Box<T>, DeJsonErr>
    ensures { Reads (T.at left).encoding.encodes (λ x. T.means x.value)
        (position state.old input.old) (position state.new input.new) result }
{
    let value: T = ReadsJson::<T>::read_json(levels, left, alloc, state, input)?;
    match Box::new(alloc, value) {
        Ok(value) => Ok(value),
        Err(_rejected) => Err(state.err_memory(alloc)),
    }
}

impl<T: NestedJson + Drop, L: ReadsJson<T>> ReadsJson<Box<T>> for L {
    fn read_json(
        &self,
        left: usize,
        alloc: Global,
        state: &mut DeJsonState,
        input: &mut Chars<'_>,
    ) -> Result<Box<T>, DeJsonErr> {
        let read = read_box::<T, L>(self, left, alloc, state, input);
        end_on_error(state, read)
    }
}

impl<T: WritesJson> WritesJson for Box<T> {
    fn write_json(&self, alloc: Global, d: usize, s: &mut SerJsonState) -> Result<(), AllocError> {
        (**self).write_json(alloc, d, s)
    }
}
