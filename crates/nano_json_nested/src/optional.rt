//! A field that may be missing, whose value holds values of the type that has the field.

ghost use Rattle.std.specs.Option.{option_map};
ghost use Rattle.nano_value.specs.Meaning.{optional};
ghost use Rattle.nano_grammar.proofs.StructLaws.{may_read};
ghost use Rattle.nano_json_schema.specs.FieldCodecs.{optional_field};
ghost use Rattle.nano_grammar.proofs.FieldsLaws.{optional_skips};

use crate::fields::JsonFieldsWithin;
use crate::traits::{NestedJson, ReadsJson};
use nano_json::{DeJsonErr, DeJsonState};
use nano_levels::Within;
use nano_schema::{Label, Optional};
use std::alloc::Global;
use std::str::Chars;

impl<N: Label, T: NestedJson + Drop, L: ReadsJson<T>> JsonFieldsWithin<L>
    for Within<Optional<N, T>> {
    type Values = Option<T>;

    type Slots = Option<T>;

    ghost codec = { λ levels. optional_field N.label (T.at levels) };

    ghost means = { λ x. optional (option_map T.means x) };

    ghost holds = { λ levels slot fs. (may_read N.label (T.at levels).encoding).shape.means fs
        (optional (option_map T.means slot)) };

    ghost skips = { λ levels slot. optional_skips N.label (T.at levels).encoding
        (optional (option_map T.means slot)) };

    fn empty() -> Option<T> {
        None
    }

    fn read_field(
        levels: &L,
        left: usize,
        name: &str,
        slots: &mut Option<T>,
        alloc: Global,
        state: &mut DeJsonState,
        input: &mut Chars<'_>,
    ) -> Result<bool, DeJsonErr> {
        if name != N::text() {
            return Ok(false);
        }
        let value: Option<T> = ReadsJson::<Option<T>>::read_json(
            levels, left, alloc, state, input,
        )?;
        *slots = value;
        Ok(true)
    }

    fn values(
        slots: Option<T>,
        _alloc: Global,
        _state: &DeJsonState,
    ) -> Result<Option<T>, DeJsonErr> {
        Ok(slots)
    }

    fn discard(_slots: Option<T>) {}

    fn discard_values(_values: Option<T>) {}
}
