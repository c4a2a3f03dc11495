//! A field that may be missing.

ghost use Rattle.std.specs.Option.{option_map};
ghost use Rattle.nano_value.specs.Meaning.{optional};
ghost use Rattle.nano_grammar.proofs.StructLaws.{may_read};
ghost use Rattle.nano_json_schema.specs.FieldCodecs.{optional_field};
ghost use Rattle.nano_grammar.proofs.FieldsLaws.{optional_skips};

use crate::fields::{JsonFields, JsonRefs, JsonShape};
use crate::writer::append_field;
use nano_json::{DeJson, DeJsonErr, DeJsonState, JsonCodec, SerJson, SerJsonState};
use nano_schema::{Label, Optional};
use nano_text::Place;
use std::alloc::{AllocError, Global};
use std::str::Chars;

impl<N: Label, T: JsonCodec> JsonShape for Optional<N, T> {
    type Values = Option<T>;

    ghost codec = { optional_field N.label T.json };
}

impl<N: Label, T: DeJson> JsonFields for Optional<N, T> {
    type Values = Option<T>;

    type Slots = Option<T>;

    ghost codec = { optional_field N.label T.json };

    ghost holds = { λ slot fs. (may_read N.label T.json.encoding).shape.means fs
        (optional (option_map T.json.canonical.means slot)) };

    ghost skips = { λ slot. optional_skips N.label T.json.encoding
        (optional (option_map T.json.canonical.means slot)) };

    fn empty() -> Option<T> {
        None
    }

    fn read_field(
        name: &str,
        slots: &mut Option<T>,
        alloc: Global,
        state: &mut DeJsonState,
        input: &mut Chars<'_>,
    ) -> Result<bool, DeJsonErr> {
        if name != N::text() {
            return Ok(false);
        }
        let value = Option::<T>::de_json(alloc, state, input)?;
        *slots = value;
        Ok(true)
    }

    #[inline(always)]
    fn take_field(
        name: &str,
        slots: &mut Option<T>,
        alloc: Global,
        place: &mut Place,
        input: &mut Chars<'_>,
        text: &mut String,
    ) -> Option<bool> {
        if name == N::text() {
            *slots = Option::<T>::de_json_plain(alloc, place, input, text)?;
            return Some(true);
        }
        Some(false)
    }

    #[inline(always)]
    fn whole(slots: Option<T>, _alloc: Global) -> Option<Option<T>> {
        Some(slots)
    }

    fn values(
        slots: Option<T>,
        _alloc: Global,
        _state: &DeJsonState,
    ) -> Result<Option<T>, DeJsonErr> {
        Ok(slots)
    }

    fn discard(_slots: Option<T>) {}

    fn discard_values(_values: Option<T>) {}
}

impl<'a, N: Label, T: SerJson + 'a> JsonRefs<'a> for Optional<N, T> {
    type Values = Option<T>;

    type Refs = &'a Option<T>;

    ghost values = { λ r. r.now };

    ghost codec = { optional_field N.label T.json };

    fn append_fields(
        refs: &&'a Option<T>,
        alloc: Global,
        first: bool,
        d: usize,
        s: &mut SerJsonState,
    ) -> Result<bool, AllocError> {
        match *refs {
            Some(value) => {
                append_field(alloc, N::text(), value, first, d, s)?;
                Ok(false)
            }
            None => Ok(first),
        }
    }
}
