//! Fields and more fields, of which some may hold values of the type that has them.

ghost use Rattle.nano_value.specs.Meaning.{paired};
ghost use Rattle.nano_grammar.specs.Fields.{others};
ghost use Rattle.nano_json_schema.specs.FieldCodecs.{fields_pair};
ghost use Rattle.nano_grammar.proofs.FieldsLaws.{both_skip};

use crate::fields::JsonFieldsWithin;
use nano_json::{DeJsonErr, DeJsonState};
use std::alloc::Global;
use std::str::Chars;

impl<L, A: JsonFieldsWithin<L>, B: JsonFieldsWithin<L>> JsonFieldsWithin<L> for (A, B) {
    type Values = (A::Values, B::Values);

    type Slots = (A::Slots, B::Slots);

    ghost codec = { λ levels. fields_pair (A.codec levels) (B.codec levels) };

    ghost means = { λ values. paired (A.means values.0, B.means values.1) };

    ghost holds = { λ levels slots fs. A.holds levels slots.0 fs
        × B.holds levels slots.1 (others (A.codec levels).struct.shape.knows fs) };

    ghost skips = { λ levels slots fs f e h.
        both_skip (A.holds levels slots.0) (B.holds levels slots.1)
        (A.codec levels).struct.shape.knows (B.codec levels).struct.shape.knows fs f e
        (λ p. A.skips levels slots.0 fs f p h.0)
        (λ q. B.skips levels slots.1 (others (A.codec levels).struct.shape.knows fs) f q h.1) };

    fn empty() -> (A::Slots, B::Slots) {
        (A::empty(), B::empty())
    }

    fn read_field(
        levels: &L,
        left: usize,
        name: &str,
        slots: &mut (A::Slots, B::Slots),
        alloc: Global,
        state: &mut DeJsonState,
        input: &mut Chars<'_>,
    ) -> Result<bool, DeJsonErr> {
        if A::read_field(levels, left, name, &mut slots.0, alloc, state, input)? {
            return Ok(true);
        }
        B::read_field(levels, left, name, &mut slots.1, alloc, state, input)
    }

    fn values(
        slots: (A::Slots, B::Slots),
        alloc: Global,
        state: &DeJsonState,
    ) -> Result<(A::Values, B::Values), DeJsonErr> {
        let (first, second) = slots;
        match A::values(first, alloc, state) {
            Ok(values) => match B::values(second, alloc, state) {
                Ok(more) => Ok((values, more)),
                Err(error) => {
                    A::discard_values(values);
                    Err(error)
                }
            },
            Err(error) => {
                B::discard(second);
                Err(error)
            }
        }
    }

    fn discard(slots: (A::Slots, B::Slots)) {
        let (first, second) = slots;
        A::discard(first);
        B::discard(second);
    }

    fn discard_values(values: (A::Values, B::Values)) {
        let (first, second) = values;
        A::discard_values(first);
        B::discard_values(second);
    }
}
