//! Boxes: each is encoded as its content.
//!
//! On an error, a reader here may leave the state at any position, unless it says where.

ghost use Rattle.nano_meaning.proofs.AgreesLaws.{seen_agrees};
ghost use Rattle.nano_json.specs.Codec.{codec_as};
ghost use Rattle.nano_json.specs.Outcomes.{position, Reads};

use crate::traits::{DeJson, JsonCodec, SerJson};
use nano_json_tokens::{DeJsonErr, DeJsonState, SerJsonState, end_on_error};
use std::alloc::{AllocError, Global};
use std::str::Chars;

impl<T: JsonCodec> JsonCodec for Box<T> {
    ghost json = { codec_as (λ x. x.value) T.json };

    ghost agrees = { seen_agrees T.agrees (λ x. x.value) };
}

impl<T: SerJson> SerJson for Box<T> {
    fn ser_json(&self, alloc: Global, d: usize, s: &mut SerJsonState) -> Result<(), AllocError> {
        (**self).ser_json(alloc, d, s)
    }
}

/// Reads a value into a box.
fn read_box<T: DeJson>(
    alloc: Global,
    state: &mut DeJsonState,
    input: &mut Chars<'_>,
) -> Result<Box<T>, DeJsonErr>
    ensures { Reads T.json.encoding.encodes (λ x. T.means x.value)
        (position state.old input.old) (position state.new input.new) result }
{
    let value = T::de_json(alloc, state, input)?;
    match Box::new(alloc, value) {
        Ok(value) => Ok(value),
        Err(_rejected) => Err(state.err_memory(alloc)),
    }
}

impl<T: DeJson> DeJson for Box<T> {
    fn de_json(
        alloc: Global,
        state: &mut DeJsonState,
        input: &mut Chars<'_>,
    ) -> Result<Box<T>, DeJsonErr> {
        let read = read_box(alloc, state, input);
        end_on_error(state, read)
    }
}
