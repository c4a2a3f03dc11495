//! Written by derive_files: how the types of the module above are encoded.

ghost use Rattle.std.specs.Prelude.{codes, ◌==◌, if◌then◌else◌, refl};
ghost use Rattle.nano_bin_schema.specs.Structs.{bin_of};
ghost use Rattle.nano_schema.specs.UserTypes.{agreed};
ghost use Rattle.nano_json_schema.specs.Structs.{json_of};
ghost use Rattle.nano_ron_schema.specs.Structs.{open_ron_of};

use super::*;
use nano_bin_schema::{BinCodec, BinShape, DeBin, DeBinErr, SerBin};
use nano_json_schema::{
    DeJson, DeJsonState, JsonCodec, JsonResult, JsonShape, Place, SerJson, SerJsonState,
};
use nano_ron_schema::{DeRon, DeRonState, RonCodec, RonResult, RonShape, SerRon, SerRonState};
use nano_schema::{Borrowed, FieldRefs, Label, Required, Shape, StructSchema, Value};
use std::alloc::{AllocError, Global};
use std::str::Chars;

pub struct ProfileNames<const I: usize> {}

impl<const I: usize> Label for ProfileNames<I> {
    ghost label = { if I == 0 then codes "name" else if I == 1 then codes "level"
        else codes "mode" };

    fn text() -> &'static str {
        nano_schema::name_of!(I, 0 => "name", 1 => "level", _ => "mode")
    }
}

type ProfileFields = (
    Required<ProfileNames<0>, String>,
    (
        Required<ProfileNames<1>, u8>,
        Required<ProfileNames<2>, Event>,
    ),
);

impl StructSchema for Profile {
    type Values = <ProfileFields as Shape>::Values;

    ghost view = { λ x. (x.name, (x.level, x.mode)) };

    fn make(values: Self::Values) -> Self {
        let (name, (level, mode)) = values;
        Profile { name, level, mode }
    }
}

impl<'a> FieldRefs<'a> for Profile {
    type Refs = <ProfileFields as Borrowed<'a>>::Refs;

    ghost values = { ⟦<ProfileFields as Borrowed<'a>>⟧.values };

    fn as_refs(&'a self) -> Self::Refs {
        (&self.name, (&self.level, &self.mode))
    }
}

impl Value for Profile {
    ghost means = { λ x. ⟦<ProfileFields as Shape>⟧.means (⟦<Profile as StructSchema>⟧.view x) };

    ghost legal = { ⟦<ProfileFields as Shape>⟧.legal };

    fn known(&self) {
        nano_schema::known_record::<Self, ProfileFields>(self);
    }
}

impl BinCodec for Profile {
    ghost bin = { bin_of ⟦<Profile as StructSchema>⟧.view ⟦<ProfileFields as BinShape>⟧.codec };

    ghost agrees = { agreed };
}

impl SerBin for Profile {
    fn ser_bin(&self, alloc: Global, output: &mut Vec<u8>) -> Result<(), AllocError> {
        nano_bin_schema::write_record_bin::<Self, ProfileFields>(self, alloc, output)
    }
}

impl DeBin for Profile {
    ghost is_decodable = { refl };

    fn de_bin(alloc: Global, offset: &mut usize, bytes: &[u8]) -> Result<Self, DeBinErr> {
        nano_bin_schema::read_record_bin::<Self, ProfileFields>(alloc, offset, bytes)
    }
}

impl JsonCodec for Profile {
    ghost json = { json_of ⟦<Profile as StructSchema>⟧.view ⟦<ProfileFields as JsonShape>⟧.codec
        refl };

    ghost agrees = { agreed };
}

impl SerJson for Profile {
    fn ser_json(&self, alloc: Global, d: usize, s: &mut SerJsonState) -> Result<(), AllocError> {
        nano_json_schema::write_record_json::<Self, ProfileFields>(self, alloc, d, s)
    }
}

impl DeJson for Profile {
    fn de_json(alloc: Global, state: &mut DeJsonState, input: &mut Chars<'_>) -> JsonResult<Self> {
        nano_json_schema::read_record_json::<Self, ProfileFields>(alloc, state, input)
    }

    fn de_json_plain(
        alloc: Global,
        place: &mut Place,
        input: &mut Chars<'_>,
        text: &mut String,
    ) -> Option<Self> {
        nano_json_schema::take_record_json::<Self, ProfileFields>(alloc, place, input, text)
    }
}

impl RonCodec for Profile {
    ghost ron = { open_ron_of ⟦<Profile as StructSchema>⟧.view
        ⟦<ProfileFields as RonShape>⟧.codec refl };

    ghost agrees = { agreed };
}

impl SerRon for Profile {
    fn ser_ron(&self, alloc: Global, d: usize, s: &mut SerRonState) -> Result<(), AllocError> {
        nano_ron_schema::write_record_ron::<Self, ProfileFields>(self, alloc, d, s)
    }
}

impl DeRon for Profile {
    fn de_ron(alloc: Global, state: &mut DeRonState, input: &mut Chars<'_>) -> RonResult<Self> {
        nano_ron_schema::read_record_ron_open::<Self, ProfileFields>(alloc, state, input)
    }
}
