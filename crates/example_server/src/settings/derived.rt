//! Written by derive_files: how the types of the module above are encoded.

ghost use Rattle.std.specs.Prelude.{codes, ◌==◌, if◌then◌else◌, refl};
ghost use Rattle.nano_json_schema.specs.Structs.{json_of};
ghost use Rattle.nano_schema.specs.UserTypes.{agreed};
ghost use Rattle.nano_ron_schema.specs.Structs.{ron_of};

use super::*;
use nano_json_schema::{
    DeJson, DeJsonState, JsonCodec, JsonResult, JsonShape, Place, SerJson, SerJsonState,
};
use nano_ron_schema::{DeRon, DeRonState, RonCodec, RonResult, RonShape, SerRon, SerRonState};
use nano_schema::{
    Borrowed, DefaultU16, Defaulted, FieldRefs, Label, Optional, Required, Shape, StructSchema,
    TypeDefault, Value,
};
use std::alloc::{AllocError, Global};
use std::str::Chars;

pub struct SettingsNames<const I: usize> {}

impl<const I: usize> Label for SettingsNames<I> {
    ghost label = { if I == 0 then codes "name" else if I == 1 then codes "port"
        else if I == 2 then codes "workers" else if I == 3 then codes "verbose"
        else if I == 4 then codes "tags" else if I == 5 then codes "owner" else codes "mode" };

    fn text() -> &'static str {
        nano_schema::name_of!(I, 0 => "name", 1 => "port", 2 => "workers", 3 => "verbose",
            4 => "tags", 5 => "owner", _ => "mode")
    }
}

type SettingsFields = (
    (
        Required<SettingsNames<0>, String>,
        (
            Required<SettingsNames<1>, u16>,
            Defaulted<SettingsNames<2>, u16, DefaultU16<4>>,
        ),
    ),
    (
        (
            Defaulted<SettingsNames<3>, bool, TypeDefault>,
            Defaulted<SettingsNames<4>, Vec<String>, TypeDefault>,
        ),
        (
            Optional<SettingsNames<5>, String>,
            Required<SettingsNames<6>, Mode>,
        ),
    ),
);

impl StructSchema for Settings {
    type Values = <SettingsFields as Shape>::Values;

    ghost view = { λ x. ((x.name, (x.port, x.workers)), ((x.verbose, x.tags), (x.owner, x.mode))) };

    fn make(values: Self::Values) -> Self {
        let ((name, (port, workers)), ((verbose, tags), (owner, mode))) = values;
        Settings {
            name,
            port,
            workers,
            verbose,
            tags,
            owner,
            mode,
        }
    }
}

impl<'a> FieldRefs<'a> for Settings {
    type Refs = <SettingsFields as Borrowed<'a>>::Refs;

    ghost values = { ⟦<SettingsFields as Borrowed<'a>>⟧.values };

    fn as_refs(&'a self) -> Self::Refs {
        (
            (&self.name, (&self.port, &self.workers)),
            ((&self.verbose, &self.tags), (&self.owner, &self.mode)),
        )
    }
}

impl Value for Settings {
    ghost means = { λ x. ⟦<SettingsFields as Shape>⟧.means (⟦<Settings as StructSchema>⟧.view x) };

    ghost legal = { ⟦<SettingsFields as Shape>⟧.legal };

    fn known(&self) {
        nano_schema::known_record::<Self, SettingsFields>(self);
    }
}

impl JsonCodec for Settings {
    ghost json = { json_of ⟦<Settings as StructSchema>⟧.view
        ⟦<SettingsFields as JsonShape>⟧.codec refl };

    ghost agrees = { agreed };
}

impl SerJson for Settings {
    fn ser_json(&self, alloc: Global, d: usize, s: &mut SerJsonState) -> Result<(), AllocError> {
        nano_json_schema::write_record_json::<Self, SettingsFields>(self, alloc, d, s)
    }
}

impl DeJson for Settings {
    fn de_json(alloc: Global, state: &mut DeJsonState, input: &mut Chars<'_>) -> JsonResult<Self> {
        nano_json_schema::read_record_json::<Self, SettingsFields>(alloc, state, input)
    }

    fn de_json_plain(
        alloc: Global,
        place: &mut Place,
        input: &mut Chars<'_>,
        text: &mut String,
    ) -> Option<Self> {
        nano_json_schema::take_record_json::<Self, SettingsFields>(alloc, place, input, text)
    }
}

impl RonCodec for Settings {
    ghost ron = { ron_of ⟦<Settings as StructSchema>⟧.view ⟦<SettingsFields as RonShape>⟧.codec
        refl };

    ghost agrees = { agreed };
}

impl SerRon for Settings {
    fn ser_ron(&self, alloc: Global, d: usize, s: &mut SerRonState) -> Result<(), AllocError> {
        nano_ron_schema::write_record_ron::<Self, SettingsFields>(self, alloc, d, s)
    }
}

impl DeRon for Settings {
    fn de_ron(alloc: Global, state: &mut DeRonState, input: &mut Chars<'_>) -> RonResult<Self> {
        nano_ron_schema::read_record_ron::<Self, SettingsFields>(alloc, state, input)
    }
}
