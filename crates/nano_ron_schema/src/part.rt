//! A part of an own value, written where it stands.

ghost use Rattle.nano_meaning.proofs.AgreesLaws.{seen_agrees};
ghost use Rattle.nano_ron.specs.Codec.{codec_as};

use nano_ron::{RonCodec, SerRon, SerRonState};
use nano_value::Value;
use std::alloc::{AllocError, Global};

/// A part of an own value, by reference: it means, and is written as, what it refers to. So the
/// parts of a variant are written as a tuple with no clone of any.
#[derive(Drop)]
pub struct Part<'a, T> {
    /// The part.
    pub of: &'a T,
}

impl<T: Value> Value for Part<'_, T> {
    ghost means = { λ part. T.means part.of.now };

    ghost legal = { T.legal };

    fn known(&self) {
        self.of.known();
    }
}

impl<T: RonCodec> RonCodec for Part<'_, T> {
    ghost ron = { codec_as (λ part. part.of.now) T.ron };

    ghost agrees = { seen_agrees T.agrees (λ part. part.of.now) };
}

impl<T: SerRon> SerRon for Part<'_, T> {
    fn ser_ron(&self, alloc: Global, d: usize, s: &mut SerRonState) -> Result<(), AllocError> {
        self.of.ser_ron(alloc, d, s)
    }
}
