//! A field that is neither written nor read: it has no name, and is made as its default.

ghost use Rattle.std.specs.Prelude.{◌≡◌, IfOk};
ghost use Rattle.nano_ron_schema.specs.Outcomes.{GivesValues};
ghost use Rattle.nano_ron_schema.specs.FieldCodecs.{no_fields};

use crate::fields::{RonFields, RonRefs, RonShape};
use nano_ron::{DeRonErr, DeRonState, SerRonState};
use nano_schema::{DefaultOf, Skipped};
use nano_value::Value;
use std::alloc::{AllocError, Global};
use std::str::Chars;

impl<T, D> RonShape for Skipped<T, D> {
    type Values = T;

    ghost codec = { no_fields };
}

impl<T: Value + Drop, D: DefaultOf<T>> RonFields for Skipped<T, D> {
    type Values = T;

    type Slots = ();

    ghost codec = { no_fields };

    ghost holds = { λ slots fs. Unit {0} };

    ghost skips = { λ slots fs f unknown held. tt };

    fn empty() {}

    fn read_field(
        _slots: &mut (),
        _alloc: Global,
        _state: &mut DeRonState,
        _input: &mut Chars<'_>,
    ) -> Result<bool, DeRonErr> {
        Ok(false)
    }

    fn values(_slots: (), alloc: Global, state: &DeRonState) -> Result<T, DeRonErr>
        ensures given { GivesValues (no_fields {A = T}).struct.shape (λ fs. Unit {0})
            (no_fields {A = T}).canonical.means state.now result }
        ensures made { IfOk result (λ value. T.means value ≡ D.missing) }
    {
        match D::default(alloc) {
            Ok(value) => Ok(value),
            Err(_error) => Err(state.err_memory(alloc)),
        }
    }

    fn discard(_slots: ()) {}

    fn discard_values(_values: T) {}
}

impl<'a, T: 'a, D> RonRefs<'a> for Skipped<T, D> {
    type Values = T;

    type Refs = &'a T;

    ghost values = { λ r. r.now };

    ghost codec = { no_fields };

    fn append_fields(
        _refs: &&'a T,
        _alloc: Global,
        _d: usize,
        _s: &mut SerRonState,
    ) -> Result<(), AllocError> {
        Ok(())
    }
}
