//! Options: absent, or what the item means.

ghost use Rattle.std.specs.Option.{option_map};
ghost use Rattle.nano_value.specs.Meaning.{optional, LegalOption};
ghost use Rattle.nano_meaning.proofs.OrderLaws.{options, options_follow};
ghost use Rattle.nano_meaning.proofs.ExactLaws.{options_tell};

use crate::value::{Key, OrderedKey, Value};

impl<T: Value> Value for Option<T> {
    ghost means = { λ x. optional (option_map T.means x) };

    ghost legal = { LegalOption T.legal };

    #[tactic(auto, using(nano_meaning::proofs::MeaningLaws::some_is_legal, nano_meaning::proofs::MeaningLaws::none_is_legal))]
    fn known(&self) {
        if let Some(value) = self {
            value.known();
        }
    }
}

impl<T: Key> Key for Option<T> {
    ghost order = { options T.order };

    ghost exact = { options_tell T.means T.eq T.exact };
}

impl<T: OrderedKey> OrderedKey for Option<T> {
    ghost follows = { options_follow T.cmp T.means T.order T.follows };
}
