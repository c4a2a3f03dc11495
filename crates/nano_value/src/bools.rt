//! Booleans, and the unit.

ghost use Rattle.nano_value.specs.Meaning.{nothing, truth, LegalTruth, LegalUnit};
ghost use Rattle.nano_meaning.proofs.OrderLaws.{meanings, wholes, truths_follow, units_follow};
ghost use Rattle.nano_meaning.proofs.ExactLaws.{truths_tell, units_tell};

use crate::value::{Key, OrderedKey, Value};

impl Value for bool {
    ghost means = { truth };

    ghost legal = { LegalTruth };

    fn known(&self) {
        let _value = *self;
    }
}

impl Key for bool {
    ghost order = { wholes };

    ghost exact = { truths_tell };
}

impl Value for () {
    ghost means = { λ _. nothing };

    ghost legal = { LegalUnit };

    fn known(&self) {}
}

impl Key for () {
    ghost order = { meanings };

    ghost exact = { units_tell };
}

impl OrderedKey for bool {
    ghost follows = { truths_follow };
}

impl OrderedKey for () {
    ghost follows = { units_follow };
}
