//! Fields and more fields.

ghost use Rattle.nano_grammar.specs.Fields.{others};
ghost use Rattle.nano_json_schema.specs.FieldCodecs.{fields_pair};
ghost use Rattle.nano_grammar.proofs.FieldsLaws.{both_skip};

use crate::fields::{JsonFields, JsonRefs, JsonShape};
use nano_json::{DeJsonErr, DeJsonState, SerJsonState};
use nano_text::Place;
use std::alloc::{AllocError, Global};
use std::str::Chars;

impl<A: JsonShape, B: JsonShape> JsonShape for (A, B) {
    type Values = (A::Values, B::Values);

    ghost codec = { fields_pair A.codec B.codec };
}

impl<A: JsonFields, B: JsonFields> JsonFields for (A, B) {
    type Values = (A::Values, B::Values);

    type Slots = (A::Slots, B::Slots);

    ghost codec = { fields_pair A.codec B.codec };

    ghost holds = { λ slots fs. A.holds slots.0 fs
        × B.holds slots.1 (others A.codec.struct.shape.knows fs) };

    ghost skips = { λ slots fs f e h. both_skip (A.holds slots.0) (B.holds slots.1)
        A.codec.struct.shape.knows B.codec.struct.shape.knows fs f e
        (λ p. A.skips slots.0 fs f p h.0)
        (λ q. B.skips slots.1 (others A.codec.struct.shape.knows fs) f q h.1) };

    fn empty() -> (A::Slots, B::Slots) {
        (A::empty(), B::empty())
    }

    fn read_field(
        name: &str,
        slots: &mut (A::Slots, B::Slots),
        alloc: Global,
        state: &mut DeJsonState,
        input: &mut Chars<'_>,
    ) -> Result<bool, DeJsonErr> {
        if A::read_field(name, &mut slots.0, alloc, state, input)? {
            return Ok(true);
        }
        B::read_field(name, &mut slots.1, alloc, state, input)
    }

    #[inline(always)]
    fn take_field(
        name: &str,
        slots: &mut (A::Slots, B::Slots),
        alloc: Global,
        place: &mut Place,
        input: &mut Chars<'_>,
        text: &mut String,
    ) -> Option<bool> {
        if A::take_field(name, &mut slots.0, alloc, place, input, text)? {
            return Some(true);
        }
        B::take_field(name, &mut slots.1, alloc, place, input, text)
    }

    #[inline(always)]
    fn whole(slots: (A::Slots, B::Slots), alloc: Global) -> Option<(A::Values, B::Values)> {
        let (first, second) = slots;
        match A::whole(first, alloc) {
            Some(values) => match B::whole(second, alloc) {
                Some(more) => Some((values, more)),
                None => {
                    A::discard_values(values);
                    None
                }
            },
            None => {
                B::discard(second);
                None
            }
        }
    }

    fn values(
        slots: (A::Slots, B::Slots),
        alloc: Global,
        state: &DeJsonState,
    ) -> Result<(A::Values, B::Values), DeJsonErr> {
        let (first, second) = slots;
        match A::values(first, alloc, state) {
            Ok(values) => match B::values(second, alloc, state) {
                Ok(more) => Ok((values, more)),
                Err(error) => {
                    A::discard_values(values);
                    Err(error)
                }
            },
            Err(missing) => {
                B::discard(second);
                Err(missing)
            }
        }
    }

    fn discard(slots: (A::Slots, B::Slots)) {
        let (first, second) = slots;
        A::discard(first);
        B::discard(second);
    }

    fn discard_values(values: (A::Values, B::Values)) {
        let (first, second) = values;
        A::discard_values(first);
        B::discard_values(second);
    }
}

impl<'a, A: JsonRefs<'a>, B: JsonRefs<'a>> JsonRefs<'a> for (A, B) {
    type Values = (A::Values, B::Values);

    type Refs = (A::Refs, B::Refs);

    ghost values = { λ r. (A.values r.0, B.values r.1) };

    ghost codec = { fields_pair A.codec B.codec };

    fn append_fields(
        refs: &(A::Refs, B::Refs),
        alloc: Global,
        first: bool,
        d: usize,
        s: &mut SerJsonState,
    ) -> Result<bool, AllocError> {
        let still_first = A::append_fields(&refs.0, alloc, first, d, s)?;
        B::append_fields(&refs.1, alloc, still_first, d, s)
    }
}
