//! A field that has a default where it is missing, whose value holds values of the type that has
//! the field.

ghost use Rattle.std.specs.Prelude.{◌≡◌, ℕ, IfOk};
ghost use Rattle.std.specs.Option.{option_map};
ghost use Rattle.nano_value.specs.Meaning.{Meaning, nothing};
ghost use Rattle.nano_json_schema.specs.FieldCodecs.{defaulted_field};
ghost use Rattle.nano_json_schema.specs.Outcomes.{GivesDefault};
ghost use Rattle.nano_grammar.specs.Fields.{HasEncoding, Holds};
ghost use Rattle.nano_grammar.proofs.FieldsLaws.{holds_skips};
ghost use Rattle.nano_json_nested.specs.DefaultImpls.{no_item_is_encoded, no_items_are_encoded};
ghost use Rattle.nano_json_nested.specs.DefaultImpls.{no_entries_are_encoded};

use crate::fields::JsonFieldsWithin;
use crate::traits::{NestedJson, ReadsJson};
use nano_json::{DeJsonErr, DeJsonState, JsonCodec};
use nano_levels::Within;
use nano_schema::{Defaulted, Label, TypeDefault};
use nano_value::Key;
use std::alloc::{AllocError, Global};
use std::collections::BTreeMap;
use std::str::Chars;

/// The value of a field that is missing, which would hold values of the type that has the field.
pub trait JsonDefaultWithin<T: NestedJson> {
    /// What it means.
    ghost missing: { Meaning };

    /// The value.
    fn default(alloc: Global) -> Result<T, AllocError>
        ensures { IfOk result (λ value. T.means value ≡ missing) };

    /// It is encoded, however many levels may follow.
    ghost is_encoded: { (levels : ℕ) → HasEncoding (T.at levels).encoding.encodes missing };
}

impl<T: NestedJson> JsonDefaultWithin<Option<T>> for TypeDefault {
    ghost missing = { nothing };

    ghost is_encoded = { λ levels. no_item_is_encoded (T.at levels) };

    fn default(_alloc: Global) -> Result<Option<T>, AllocError> {
        Ok(None)
    }
}

impl<T: NestedJson> JsonDefaultWithin<Vec<T>> for TypeDefault {
    ghost missing = { nothing };

    ghost is_encoded = { λ levels. no_items_are_encoded (T.at levels) };

    fn default(alloc: Global) -> Result<Vec<T>, AllocError> {
        Ok(Vec::new(alloc))
    }
}

impl<K: JsonCodec + Key + Ord, T: NestedJson> JsonDefaultWithin<BTreeMap<K, T>> for TypeDefault {
    ghost missing = { nothing };

    ghost is_encoded = { λ levels. no_entries_are_encoded K.order K.cmp K.json (T.at levels) };

    fn default(alloc: Global) -> Result<BTreeMap<K, T>, AllocError> {
        Ok(BTreeMap::new(alloc))
    }
}

/// The default in the place of a field that is missing.
fn missing<T: NestedJson + Drop, D: JsonDefaultWithin<T>>(
    alloc: Global,
    state: &DeJsonState,
) -> Result<T, DeJsonErr>
    ensures { (levels : ℕ) → GivesDefault (T.at levels).encoding.encodes T.means D.missing
        state.now result }
{
    match D::default(alloc) {
        Ok(value) => Ok(value),
        Err(_error) => Err(state.err_memory(alloc)),
    }
}

impl<N: Label, T: NestedJson + Drop, D: JsonDefaultWithin<T>, L: ReadsJson<T>> JsonFieldsWithin<L>
    for Within<Defaulted<N, T, D>> {
    type Values = T;

    type Slots = Option<T>;

    ghost codec = { λ levels. defaulted_field N.label (T.at levels) D.missing };

    ghost means = { T.means };

    ghost holds = { λ levels slot.
        Holds N.label (T.at levels).encoding.encodes (option_map T.means slot) };

    ghost skips = { λ levels slot. holds_skips N.label (T.at levels).encoding.encodes
        (option_map T.means slot) };

    fn empty() -> Option<T> {
        None
    }

    fn read_field(
        levels: &L,
        left: usize,
        name: &str,
        slots: &mut Option<T>,
        alloc: Global,
        state: &mut DeJsonState,
        input: &mut Chars<'_>,
    ) -> Result<bool, DeJsonErr> {
        if name != N::text() {
            return Ok(false);
        }
        let value: T = ReadsJson::<T>::read_json(levels, left, alloc, state, input)?;
        *slots = Some(value);
        Ok(true)
    }

    fn values(slots: Option<T>, alloc: Global, state: &DeJsonState) -> Result<T, DeJsonErr> {
        match slots {
            Some(value) => Ok(value),
            None => missing::<T, D>(alloc, state),
        }
    }

    fn discard(_slots: Option<T>) {}

    fn discard_values(_values: T) {}
}
