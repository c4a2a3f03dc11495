//! A field that must be there, whose value holds values of the type that has the field.

ghost use Rattle.std.specs.Option.{option_map};
ghost use Rattle.nano_json_schema.specs.FieldCodecs.{required_field};
ghost use Rattle.nano_grammar.specs.Fields.{Holds};
ghost use Rattle.nano_grammar.proofs.FieldsLaws.{holds_skips};

use crate::fields::JsonFieldsWithin;
use crate::traits::{NestedJson, ReadsJson};
use nano_json::{DeJsonErr, DeJsonState};
use nano_levels::Within;
use nano_schema::{Label, Required};
use std::alloc::Global;
use std::str::Chars;

impl<N: Label, T: NestedJson + Drop, L: ReadsJson<T>> JsonFieldsWithin<L>
    for Within<Required<N, T>> {
    type Values = T;

    type Slots = Option<T>;

    ghost codec = { λ levels. required_field N.label (T.at levels) };

    ghost means = { T.means };

    ghost holds = { λ levels slot.
        Holds N.label (T.at levels).encoding.encodes (option_map T.means slot) };

    ghost skips = { λ levels slot. holds_skips N.label (T.at levels).encoding.encodes
        (option_map T.means slot) };

    fn empty() -> Option<T> {
        None
    }

    fn read_field(
        levels: &L,
        left: usize,
        name: &str,
        slots: &mut Option<T>,
        alloc: Global,
        state: &mut DeJsonState,
        input: &mut Chars<'_>,
    ) -> Result<bool, DeJsonErr> {
        if name != N::text() {
            return Ok(false);
        }
        let value: T = ReadsJson::<T>::read_json(levels, left, alloc, state, input)?;
        *slots = Some(value);
        Ok(true)
    }

    fn values(slots: Option<T>, alloc: Global, state: &DeJsonState) -> Result<T, DeJsonErr> {
        match slots {
            Some(value) => Ok(value),
            None => Err(state.err_nf(alloc, N::text())),
        }
    }

    fn discard(_slots: Option<T>) {}

    fn discard_values(_values: T) {}
}
