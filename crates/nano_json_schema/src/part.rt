//! A part of an own value, written where it stands.

ghost use Rattle.nano_meaning.proofs.AgreesLaws.{seen_agrees};
ghost use Rattle.nano_json.specs.Codec.{codec_as};

use nano_json::{JsonCodec, SerJson, SerJsonState};
use nano_value::Value;
use std::alloc::{AllocError, Global};

/// A part of an own value, by reference: it means, and is written as, what it refers to. So the
/// parts of a variant are written as a tuple with no clone of any.
#[derive(Drop)]
pub struct Part<'a, T> {
    /// The part.
    pub of: &'a T,
}

impl<T: Value> Value for Part<'_, T> {
    ghost means = { λ part. T.means part.of.now };

    ghost legal = { T.legal };

    fn known(&self) {
        self.of.known();
    }
}

impl<T: JsonCodec> JsonCodec for Part<'_, T> {
    ghost json = { codec_as (λ part. part.of.now) T.json };

    ghost agrees = { seen_agrees T.agrees (λ part. part.of.now) };
}

impl<T: SerJson> SerJson for Part<'_, T> {
    fn ser_json(&self, alloc: Global, d: usize, s: &mut SerJsonState) -> Result<(), AllocError> {
        self.of.ser_json(alloc, d, s)
    }
}
