//! A field that is neither written nor read: it has no name, and is made as its default.

ghost use Rattle.std.specs.Prelude.{◌≡◌, IfOk, IfSome};
ghost use Rattle.nano_json_schema.specs.Outcomes.{GivesValues, GivesWhole};
ghost use Rattle.nano_json_schema.specs.FieldCodecs.{no_fields};

use crate::fields::{JsonFields, JsonRefs, JsonShape};
use nano_json::{DeJsonErr, DeJsonState, SerJsonState};
use nano_schema::{DefaultOf, Skipped};
use nano_text::Place;
use nano_value::Value;
use std::alloc::{AllocError, Global};
use std::str::Chars;

impl<T, D> JsonShape for Skipped<T, D> {
    type Values = T;

    ghost codec = { no_fields };
}

impl<T: Value + Drop, D: DefaultOf<T>> JsonFields for Skipped<T, D> {
    type Values = T;

    type Slots = ();

    ghost codec = { no_fields };

    ghost holds = { λ slots fs. Unit {0} };

    ghost skips = { λ slots fs f unknown held. tt };

    fn empty() {}

    fn read_field(
        _name: &str,
        _slots: &mut (),
        _alloc: Global,
        _state: &mut DeJsonState,
        _input: &mut Chars<'_>,
    ) -> Result<bool, DeJsonErr> {
        Ok(false)
    }

    #[inline(always)]
    fn take_field(
        _name: &str,
        _slots: &mut (),
        _alloc: Global,
        _place: &mut Place,
        _input: &mut Chars<'_>,
        _text: &mut String,
    ) -> Option<bool> {
        Some(false)
    }

    #[inline(always)]
    fn whole(_slots: (), alloc: Global) -> Option<T>
        ensures given { GivesWhole (no_fields {A = T}).struct.shape (λ fs. Unit {0})
            (no_fields {A = T}).canonical.means result }
        ensures made { IfSome result (λ value. T.means value ≡ D.missing) }
    {
        match D::default(alloc) {
            Ok(value) => Some(value),
            Err(_error) => None,
        }
    }

    fn values(_slots: (), alloc: Global, state: &DeJsonState) -> Result<T, DeJsonErr>
        ensures given { GivesValues (no_fields {A = T}).struct.shape (λ fs. Unit {0})
            (no_fields {A = T}).canonical.means state.now result }
        ensures made { IfOk result (λ value. T.means value ≡ D.missing) }
    {
        match D::default(alloc) {
            Ok(value) => Ok(value),
            Err(_error) => Err(state.err_memory(alloc)),
        }
    }

    fn discard(_slots: ()) {}

    fn discard_values(_values: T) {}
}

impl<'a, T: 'a, D> JsonRefs<'a> for Skipped<T, D> {
    type Values = T;

    type Refs = &'a T;

    ghost values = { λ r. r.now };

    ghost codec = { no_fields };

    fn append_fields(
        _refs: &&'a T,
        _alloc: Global,
        first: bool,
        _d: usize,
        _s: &mut SerJsonState,
    ) -> Result<bool, AllocError> {
        Ok(first)
    }
}
