//! Tuples: a pair means the meanings of its parts, and a longer tuple its first part and the tuple
//! of the others.

ghost use Rattle.nano_value.specs.Meaning.{paired, pair_map, LegalPair};
ghost use Rattle.nano_meaning.proofs.OrderLaws.{pairs, pairs_follow, triples_follow};
ghost use Rattle.nano_meaning.proofs.OrderLaws.{quadruples_follow};
ghost use Rattle.nano_meaning.proofs.ExactLaws.{pairs_tell, triples_tell, quadruples_tell};

use crate::value::{Key, OrderedKey, Value};

impl<A: Value, B: Value> Value for (A, B) {
    ghost means = { λ x. paired (pair_map A.means B.means x) };

    ghost legal = { LegalPair A.legal B.legal };

    #[tactic(auto, using(nano_meaning::proofs::MeaningLaws::pair_is_legal))]
    fn known(&self) {
        self.0.known();
        self.1.known();
    }
}

impl<A: Key, B: Key> Key for (A, B) {
    ghost order = { pairs A.order B.order };

    ghost exact = { pairs_tell A.means A.eq B.means B.eq A.exact B.exact };
}

impl<A: Value, B: Value, C: Value> Value for (A, B, C) {
    ghost means = { λ x. paired (A.means x.0, paired (B.means x.1, C.means x.2)) };

    ghost legal = { LegalPair A.legal (LegalPair B.legal C.legal) };

    #[tactic(auto, using(nano_meaning::proofs::MeaningLaws::pair_is_legal))]
    fn known(&self) {
        self.0.known();
        self.1.known();
        self.2.known();
    }
}

impl<A: Key, B: Key, C: Key> Key for (A, B, C) {
    ghost order = { pairs A.order (pairs B.order C.order) };

    ghost exact = { triples_tell A.means A.eq B.means B.eq C.means C.eq A.exact B.exact C.exact };
}

impl<A: Value, B: Value, C: Value, D: Value> Value for (A, B, C, D) {
    ghost means = { λ x.
        paired (A.means x.0, paired (B.means x.1, paired (C.means x.2, D.means x.3))) };

    ghost legal = { LegalPair A.legal (LegalPair B.legal (LegalPair C.legal D.legal)) };

    #[tactic(auto, using(nano_meaning::proofs::MeaningLaws::pair_is_legal))]
    fn known(&self) {
        self.0.known();
        self.1.known();
        self.2.known();
        self.3.known();
    }
}

impl<A: Key, B: Key, C: Key, D: Key> Key for (A, B, C, D) {
    ghost order = { pairs A.order (pairs B.order (pairs C.order D.order)) };

    ghost exact = { quadruples_tell A.means A.eq B.means B.eq C.means C.eq D.means D.eq A.exact
        B.exact C.exact D.exact };
}

impl<A: OrderedKey, B: OrderedKey> OrderedKey for (A, B) {
    ghost follows = { pairs_follow A.cmp A.means A.order B.cmp B.means B.order A.follows
        B.follows };
}

impl<A: OrderedKey, B: OrderedKey, C: OrderedKey> OrderedKey for (A, B, C) {
    ghost follows = { triples_follow A.cmp A.means A.order B.cmp B.means B.order C.cmp C.means
        C.order A.follows B.follows C.follows };
}

impl<A: OrderedKey, B: OrderedKey, C: OrderedKey, D: OrderedKey> OrderedKey for (A, B, C, D) {
    ghost follows = { quadruples_follow A.cmp A.means A.order B.cmp B.means B.order C.cmp C.means
        C.order D.cmp D.means D.order A.follows B.follows C.follows D.follows };
}
