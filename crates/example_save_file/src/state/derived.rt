//! Written by derive_files: how the types of the module above are encoded.

ghost use Rattle.std.specs.Prelude.{codes, ◌==◌, if◌then◌else◌, ◌≡◌, refl};
ghost use Rattle.nano_json_schema.specs.Structs.{json_of};
ghost use Rattle.nano_schema.specs.UserTypes.{agreed};
ghost use Rattle.nano_ron_schema.specs.Structs.{ron_of};

use super::*;
use nano_json_schema::{
    DeJson, DeJsonState, JsonCodec, JsonResult, JsonShape, Place, SerJson, SerJsonState,
};
use nano_ron_schema::{DeRon, DeRonState, RonCodec, RonResult, RonShape, SerRon, SerRonState};
use nano_schema::{Borrowed, FieldRefs, Label, Optional, Required, Shape, StructSchema, Value};
use std::alloc::{AllocError, Global};
use std::str::Chars;

pub struct StateNames<const I: usize> {}

impl<const I: usize> Label for StateNames<I> {
    ghost label = { if I == 0 then codes "coins" else if I == 1 then codes "times"
        else codes "player" };

    fn text() -> &'static str {
        nano_schema::name_of!(I, 0 => "coins", 1 => "times", _ => "player")
    }
}

type StateFields = (
    Required<StateNames<0>, u32>,
    (
        Required<StateNames<1>, HashMap<String, u64>>,
        Optional<StateNames<2>, String>,
    ),
);

impl StructSchema for State {
    type Values = <StateFields as Shape>::Values;

    ghost view = { λ x. (x.coins, (x.times, x.player)) };

    fn make(values: Self::Values) -> Self
        ensures seen { ⟦<State as StructSchema>⟧.view result ≡ values }
        ensures skipped { ⟦<bool as std::default::Default>⟧.is_default result.has_changed }
    {
        let (coins, (times, player)) = values;
        State {
            coins,
            times,
            player,
            has_changed: std::default::Default::default(),
        }
    }
}

impl<'a> FieldRefs<'a> for State {
    type Refs = <StateFields as Borrowed<'a>>::Refs;

    ghost values = { ⟦<StateFields as Borrowed<'a>>⟧.values };

    fn as_refs(&'a self) -> Self::Refs {
        (&self.coins, (&self.times, &self.player))
    }
}

impl Value for State {
    ghost means = { λ x. ⟦<StateFields as Shape>⟧.means (⟦<State as StructSchema>⟧.view x) };

    ghost legal = { ⟦<StateFields as Shape>⟧.legal };

    fn known(&self) {
        nano_schema::known_record::<Self, StateFields>(self);
    }
}

impl JsonCodec for State {
    ghost json = { json_of ⟦<State as StructSchema>⟧.view ⟦<StateFields as JsonShape>⟧.codec refl };

    ghost agrees = { agreed };
}

impl SerJson for State {
    fn ser_json(&self, alloc: Global, d: usize, s: &mut SerJsonState) -> Result<(), AllocError> {
        nano_json_schema::write_record_json::<Self, StateFields>(self, alloc, d, s)
    }
}

impl DeJson for State {
    fn de_json(alloc: Global, state: &mut DeJsonState, input: &mut Chars<'_>) -> JsonResult<Self> {
        nano_json_schema::read_record_json::<Self, StateFields>(alloc, state, input)
    }

    fn de_json_plain(
        alloc: Global,
        place: &mut Place,
        input: &mut Chars<'_>,
        text: &mut String,
    ) -> Option<Self> {
        nano_json_schema::take_record_json::<Self, StateFields>(alloc, place, input, text)
    }
}

impl RonCodec for State {
    ghost ron = { ron_of ⟦<State as StructSchema>⟧.view ⟦<StateFields as RonShape>⟧.codec refl };

    ghost agrees = { agreed };
}

impl SerRon for State {
    fn ser_ron(&self, alloc: Global, d: usize, s: &mut SerRonState) -> Result<(), AllocError> {
        nano_ron_schema::write_record_ron::<Self, StateFields>(self, alloc, d, s)
    }
}

impl DeRon for State {
    fn de_ron(alloc: Global, state: &mut DeRonState, input: &mut Chars<'_>) -> RonResult<Self> {
        nano_ron_schema::read_record_ron::<Self, StateFields>(alloc, state, input)
    }
}
