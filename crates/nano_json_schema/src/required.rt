//! A field that must be there.

ghost use Rattle.std.specs.Option.{option_map};
ghost use Rattle.nano_json_schema.specs.FieldCodecs.{required_field};
ghost use Rattle.nano_grammar.specs.Fields.{Holds};
ghost use Rattle.nano_grammar.proofs.FieldsLaws.{holds_skips};

use crate::fields::{JsonFields, JsonRefs, JsonShape};
use crate::writer::append_field;
use nano_json::{DeJson, DeJsonErr, DeJsonState, JsonCodec, SerJson, SerJsonState};
use nano_schema::{Label, Required};
use nano_text::Place;
use std::alloc::{AllocError, Global};
use std::str::Chars;

impl<N: Label, T: JsonCodec> JsonShape for Required<N, T> {
    type Values = T;

    ghost codec = { required_field N.label T.json };
}

impl<N: Label, T: DeJson> JsonFields for Required<N, T> {
    type Values = T;

    type Slots = Option<T>;

    ghost codec = { required_field N.label T.json };

    ghost holds = { λ slot.
        Holds N.label T.json.encoding.encodes (option_map T.json.canonical.means slot) };

    ghost skips = { λ slot. holds_skips N.label T.json.encoding.encodes
        (option_map T.json.canonical.means slot) };

    fn empty() -> Option<T> {
        None
    }

    fn read_field(
        name: &str,
        slots: &mut Option<T>,
        alloc: Global,
        state: &mut DeJsonState,
        input: &mut Chars<'_>,
    ) -> Result<bool, DeJsonErr> {
        if name != N::text() {
            return Ok(false);
        }
        let value = T::de_json(alloc, state, input)?;
        *slots = Some(value);
        Ok(true)
    }

    #[inline(always)]
    fn take_field(
        name: &str,
        slots: &mut Option<T>,
        alloc: Global,
        place: &mut Place,
        input: &mut Chars<'_>,
        text: &mut String,
    ) -> Option<bool> {
        if name == N::text() {
            *slots = Some(T::de_json_plain(alloc, place, input, text)?);
            return Some(true);
        }
        Some(false)
    }

    #[inline(always)]
    fn whole(slots: Option<T>, _alloc: Global) -> Option<T> {
        slots
    }

    fn values(slots: Option<T>, alloc: Global, state: &DeJsonState) -> Result<T, DeJsonErr> {
        match slots {
            Some(value) => Ok(value),
            None => Err(state.err_nf(alloc, N::text())),
        }
    }

    fn discard(_slots: Option<T>) {}

    fn discard_values(_values: T) {}
}

impl<'a, N: Label, T: SerJson + 'a> JsonRefs<'a> for Required<N, T> {
    type Values = T;

    type Refs = &'a T;

    ghost values = { λ r. r.now };

    ghost codec = { required_field N.label T.json };

    fn append_fields(
        refs: &&'a T,
        alloc: Global,
        first: bool,
        d: usize,
        s: &mut SerJsonState,
    ) -> Result<bool, AllocError> {
        append_field(alloc, N::text(), *refs, first, d, s)?;
        Ok(false)
    }
}
