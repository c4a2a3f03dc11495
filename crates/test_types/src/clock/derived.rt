//! Written by derive_files: how the types of the module above are encoded.

ghost use Rattle.std.specs.Prelude.{codes, ◌==◌, if◌then◌else◌, refl};
ghost use Rattle.nano_bin_schema.specs.Structs.{bin_of};
ghost use Rattle.nano_schema.specs.UserTypes.{agreed};
ghost use Rattle.nano_json_schema.specs.Structs.{json_of};
ghost use Rattle.nano_ron_schema.specs.Structs.{ron_of};

use super::*;
use nano_bin_schema::{BinCodec, BinShape, DeBin, DeBinErr, SerBin};
use nano_json_schema::{
    DeJson, DeJsonState, JsonCodec, JsonResult, JsonShape, Place, SerJson, SerJsonState,
};
use nano_ron_schema::{DeRon, DeRonState, RonCodec, RonResult, RonShape, SerRon, SerRonState};
use nano_schema::{
    Borrowed, DefaultBool, DefaultI32, Defaulted, FieldRefs, Label, Shape, StructSchema, Value,
};
use std::alloc::{AllocError, Global};
use std::str::Chars;

pub struct ClockNames<const I: usize> {}

impl<const I: usize> Label for ClockNames<I> {
    ghost label = { if I == 0 then codes "offset" else codes "running" };

    fn text() -> &'static str {
        nano_schema::name_of!(I, 0 => "offset", _ => "running")
    }
}

type ClockFields = (
    Defaulted<ClockNames<0>, i32, DefaultI32<-5>>,
    Defaulted<ClockNames<1>, bool, DefaultBool<true>>,
);

impl StructSchema for Clock {
    type Values = <ClockFields as Shape>::Values;

    ghost view = { λ x. (x.offset, x.running) };

    fn make(values: Self::Values) -> Self {
        let (offset, running) = values;
        Clock { offset, running }
    }
}

impl<'a> FieldRefs<'a> for Clock {
    type Refs = <ClockFields as Borrowed<'a>>::Refs;

    ghost values = { ⟦<ClockFields as Borrowed<'a>>⟧.values };

    fn as_refs(&'a self) -> Self::Refs {
        (&self.offset, &self.running)
    }
}

impl Value for Clock {
    ghost means = { λ x. ⟦<ClockFields as Shape>⟧.means (⟦<Clock as StructSchema>⟧.view x) };

    ghost legal = { ⟦<ClockFields as Shape>⟧.legal };

    fn known(&self) {
        nano_schema::known_record::<Self, ClockFields>(self);
    }
}

impl BinCodec for Clock {
    ghost bin = { bin_of ⟦<Clock as StructSchema>⟧.view ⟦<ClockFields as BinShape>⟧.codec };

    ghost agrees = { agreed };
}

impl SerBin for Clock {
    fn ser_bin(&self, alloc: Global, output: &mut Vec<u8>) -> Result<(), AllocError> {
        nano_bin_schema::write_record_bin::<Self, ClockFields>(self, alloc, output)
    }
}

impl DeBin for Clock {
    ghost is_decodable = { refl };

    fn de_bin(alloc: Global, offset: &mut usize, bytes: &[u8]) -> Result<Self, DeBinErr> {
        nano_bin_schema::read_record_bin::<Self, ClockFields>(alloc, offset, bytes)
    }
}

impl JsonCodec for Clock {
    ghost json = { json_of ⟦<Clock as StructSchema>⟧.view ⟦<ClockFields as JsonShape>⟧.codec refl };

    ghost agrees = { agreed };
}

impl SerJson for Clock {
    fn ser_json(&self, alloc: Global, d: usize, s: &mut SerJsonState) -> Result<(), AllocError> {
        nano_json_schema::write_record_json::<Self, ClockFields>(self, alloc, d, s)
    }
}

impl DeJson for Clock {
    fn de_json(alloc: Global, state: &mut DeJsonState, input: &mut Chars<'_>) -> JsonResult<Self> {
        nano_json_schema::read_record_json::<Self, ClockFields>(alloc, state, input)
    }

    fn de_json_plain(
        alloc: Global,
        place: &mut Place,
        input: &mut Chars<'_>,
        text: &mut String,
    ) -> Option<Self> {
        nano_json_schema::take_record_json::<Self, ClockFields>(alloc, place, input, text)
    }
}

impl RonCodec for Clock {
    ghost ron = { ron_of ⟦<Clock as StructSchema>⟧.view ⟦<ClockFields as RonShape>⟧.codec refl };

    ghost agrees = { agreed };
}

impl SerRon for Clock {
    fn ser_ron(&self, alloc: Global, d: usize, s: &mut SerRonState) -> Result<(), AllocError> {
        nano_ron_schema::write_record_ron::<Self, ClockFields>(self, alloc, d, s)
    }
}

impl DeRon for Clock {
    fn de_ron(alloc: Global, state: &mut DeRonState, input: &mut Chars<'_>) -> RonResult<Self> {
        nano_ron_schema::read_record_ron::<Self, ClockFields>(alloc, state, input)
    }
}
