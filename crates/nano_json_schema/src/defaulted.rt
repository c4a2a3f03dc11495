//! A field that has a default where it is missing.

ghost use Rattle.std.specs.Prelude.{IfSome};
ghost use Rattle.std.specs.Option.{option_map};
ghost use Rattle.nano_json_schema.specs.FieldCodecs.{defaulted_field};
ghost use Rattle.nano_json_schema.specs.Outcomes.{GivesDefault, IsDefault};
ghost use Rattle.nano_grammar.specs.Fields.{Holds};
ghost use Rattle.nano_grammar.proofs.FieldsLaws.{holds_skips};

use crate::fields::{JsonFields, JsonRefs, JsonShape};
use crate::writer::append_field;
use nano_json::{DeJson, DeJsonErr, DeJsonState, JsonCodec, SerJson, SerJsonState};
use nano_schema::{DefaultOf, Defaulted, Label};
use nano_text::Place;
use std::alloc::{AllocError, Global};
use std::str::Chars;

/// A default that is read back from JSON.
pub trait JsonDefaultOf<T: JsonCodec>: DefaultOf<T> {
    ghost use Rattle.nano_grammar.specs.Fields.{IsSoundDefault};

    /// It is sound: nowhere inside it a `Some` stands around what is written as an absent value.
    ghost is_sound: { IsSoundDefault T.json Self.DefaultOf.missing };
}

/// The default in the place of a field that is missing.
fn missing<T: DeJson, D: JsonDefaultOf<T>>(
    alloc: Global,
    state: &DeJsonState,
) -> Result<T, DeJsonErr>
    ensures { GivesDefault T.json.encoding.encodes T.json.canonical.means D.DefaultOf.missing
        state.now result }
{
    match default_value::<T, D>(alloc) {
        Some(default) => Ok(default),
        None => Err(state.err_memory(alloc)),
    }
}

/// The default, unless memory ran out.
fn default_value<T: DeJson, D: JsonDefaultOf<T>>(alloc: Global) -> Option<T>
    ensures { IfSome result (λ value. IsDefault T.json.encoding.encodes
        (T.json.canonical.means value) D.DefaultOf.missing) }
{
    match D::default(alloc) {
        Ok(value) => {
            value.known();
            Some(value)
        }
        Err(_error) => None,
    }
}

impl<N: Label, T: JsonCodec, D: JsonDefaultOf<T>> JsonShape for Defaulted<N, T, D> {
    type Values = T;

    ghost codec = { defaulted_field N.label T.json D.DefaultOf.missing };
}

impl<N: Label, T: DeJson, D: JsonDefaultOf<T>> JsonFields for Defaulted<N, T, D> {
    type Values = T;

    type Slots = Option<T>;

    ghost codec = { defaulted_field N.label T.json D.DefaultOf.missing };

    ghost holds = { λ slot.
        Holds N.label T.json.encoding.encodes (option_map T.json.canonical.means slot) };

    ghost skips = { λ slot. holds_skips N.label T.json.encoding.encodes
        (option_map T.json.canonical.means slot) };

    fn empty() -> Option<T> {
        None
    }

    fn read_field(
        name: &str,
        slots: &mut Option<T>,
        alloc: Global,
        state: &mut DeJsonState,
        input: &mut Chars<'_>,
    ) -> Result<bool, DeJsonErr> {
        if name != N::text() {
            return Ok(false);
        }
        let value = T::de_json(alloc, state, input)?;
        *slots = Some(value);
        Ok(true)
    }

    #[inline(always)]
    fn take_field(
        name: &str,
        slots: &mut Option<T>,
        alloc: Global,
        place: &mut Place,
        input: &mut Chars<'_>,
        text: &mut String,
    ) -> Option<bool> {
        if name == N::text() {
            *slots = Some(T::de_json_plain(alloc, place, input, text)?);
            return Some(true);
        }
        Some(false)
    }

    #[inline(always)]
    #[tactic(auto, using(nano_grammar::proofs::DefaultsLaws::meant_values))]
    fn whole(slots: Option<T>, alloc: Global) -> Option<T> {
        match slots {
            Some(value) => Some(value),
            None => default_value::<T, D>(alloc),
        }
    }

    #[tactic(auto, using(nano_grammar::proofs::DefaultsLaws::meant_values))]
    fn values(slots: Option<T>, alloc: Global, state: &DeJsonState) -> Result<T, DeJsonErr> {
        match slots {
            Some(value) => Ok(value),
            None => missing::<T, D>(alloc, state),
        }
    }

    fn discard(_slots: Option<T>) {}

    fn discard_values(_values: T) {}
}

impl<'a, N: Label, T: SerJson + 'a, D: JsonDefaultOf<T>> JsonRefs<'a> for Defaulted<N, T, D> {
    type Values = T;

    type Refs = &'a T;

    ghost values = { λ r. r.now };

    ghost codec = { defaulted_field N.label T.json D.DefaultOf.missing };

    fn append_fields(
        refs: &&'a T,
        alloc: Global,
        first: bool,
        d: usize,
        s: &mut SerJsonState,
    ) -> Result<bool, AllocError> {
        append_field(alloc, N::text(), *refs, first, d, s)?;
        Ok(false)
    }
}
