//! Boxes: each is encoded as its content.

ghost use Rattle.nano_meaning.proofs.AgreesLaws.{seen_agrees};
ghost use Rattle.nano_ron.specs.Codec.{codec_as};
ghost use Rattle.nano_ron.specs.Outcomes.{position, Reads};

use crate::traits::{DeRon, RonCodec, SerRon};
use nano_ron_tokens::{DeRonErr, DeRonState, SerRonState, end_on_error};
use std::alloc::{AllocError, Global};
use std::str::Chars;

impl<T: RonCodec> RonCodec for Box<T> {
    ghost ron = { codec_as (λ x. x.value) T.ron };

    ghost agrees = { seen_agrees T.agrees (λ x. x.value) };
}

impl<T: SerRon> SerRon for Box<T> {
    fn ser_ron(&self, alloc: Global, d: usize, s: &mut SerRonState) -> Result<(), AllocError> {
        (**self).ser_ron(alloc, d, s)
    }
}

/// Reads a value into a box. On an error, the position of the state is unspecified.
fn read_box<T: DeRon>(
    alloc: Global,
    state: &mut DeRonState,
    input: &mut Chars<'_>,
) -> Result<Box<T>, DeRonErr>
    ensures { Reads T.ron.encoding.encodes (λ x. T.means x.value)
        (position state.old input.old) (position state.new input.new) result }
{
    let value = T::de_ron(alloc, state, input)?;
    match Box::new(alloc, value) {
        Ok(value) => Ok(value),
        Err(_rejected) => Err(state.err_memory(alloc)),
    }
}

impl<T: DeRon> DeRon for Box<T> {
    fn de_ron(
        alloc: Global,
        state: &mut DeRonState,
        input: &mut Chars<'_>,
    ) -> Result<Box<T>, DeRonErr> {
        let read = read_box(alloc, state, input);
        end_on_error(state, read)
    }
}
