//! Written by derive_files: how the types of the module above are encoded.

ghost use Rattle.std.specs.Prelude.{codes, refl};
ghost use Rattle.nano_bin_schema.specs.Structs.{bin_of};
ghost use Rattle.nano_schema.specs.UserTypes.{seen_agrees};
ghost use Rattle.nano_json_schema.specs.Structs.{json_of};
ghost use Rattle.nano_ron_schema.specs.Structs.{ron_of};

use super::*;
use nano_bin_schema::{BinCodec, BinShape, DeBin, DeBinErr, SerBin};
use nano_json_schema::{
    DeJson, DeJsonState, JsonCodec, JsonResult, JsonShape, Place, SerJson, SerJsonState,
};
use nano_ron_schema::{DeRon, DeRonState, RonCodec, RonResult, RonShape, SerRon, SerRonState};
use nano_schema::{Borrowed, FieldRefs, Label, Required, Shape, StructSchema, Value};
use std::alloc::{AllocError, Global};
use std::str::Chars;

pub struct HolderName {}

impl Label for HolderName {
    ghost label = { codes "x" };

    fn text() -> &'static str {
        "x"
    }
}

type HolderFields<T> = Required<HolderName, T>;

impl<T: Value> StructSchema for Holder<T> {
    type Values = <HolderFields<T> as Shape>::Values;

    ghost view = { λ x. x.x };

    fn make(values: Self::Values) -> Self {
        let x = values;
        Holder { x }
    }
}

impl<'a, T: Value + 'a> FieldRefs<'a> for Holder<T> {
    type Refs = <HolderFields<T> as Borrowed<'a>>::Refs;

    ghost values = { ⟦<HolderFields<T> as Borrowed<'a>>⟧.values };

    fn as_refs(&'a self) -> Self::Refs {
        &self.x
    }
}

impl<T: Value> Value for Holder<T> {
    ghost means = { λ x. ⟦<HolderFields<T> as Shape>⟧.means (⟦<Holder<T> as StructSchema>⟧.view
        x) };

    ghost legal = { ⟦<HolderFields<T> as Shape>⟧.legal };

    fn known(&self) {
        nano_schema::known_record::<Self, HolderFields<T>>(self);
    }
}

impl<T: BinCodec> BinCodec for Holder<T> {
    ghost bin = { bin_of ⟦<Holder<T> as StructSchema>⟧.view ⟦<HolderFields<T> as BinShape>⟧.codec };

    ghost agrees = { seen_agrees T.agrees ⟦<Holder<T> as StructSchema>⟧.view };
}

impl<T: SerBin> SerBin for Holder<T> {
    fn ser_bin(&self, alloc: Global, output: &mut Vec<u8>) -> Result<(), AllocError> {
        nano_bin_schema::write_record_bin::<Self, HolderFields<T>>(self, alloc, output)
    }
}

impl<T: DeBin> DeBin for Holder<T> {
    ghost is_decodable = { T.is_decodable };

    fn de_bin(alloc: Global, offset: &mut usize, bytes: &[u8]) -> Result<Self, DeBinErr> {
        nano_bin_schema::read_record_bin::<Self, HolderFields<T>>(alloc, offset, bytes)
    }
}

impl<T: JsonCodec> JsonCodec for Holder<T> {
    ghost json = { json_of ⟦<Holder<T> as StructSchema>⟧.view
        ⟦<HolderFields<T> as JsonShape>⟧.codec refl };

    ghost agrees = { seen_agrees T.agrees ⟦<Holder<T> as StructSchema>⟧.view };
}

impl<T: SerJson> SerJson for Holder<T> {
    fn ser_json(&self, alloc: Global, d: usize, s: &mut SerJsonState) -> Result<(), AllocError> {
        nano_json_schema::write_record_json::<Self, HolderFields<T>>(self, alloc, d, s)
    }
}

impl<T: DeJson> DeJson for Holder<T> {
    fn de_json(alloc: Global, state: &mut DeJsonState, input: &mut Chars<'_>) -> JsonResult<Self> {
        nano_json_schema::read_record_json::<Self, HolderFields<T>>(alloc, state, input)
    }

    fn de_json_plain(
        alloc: Global,
        place: &mut Place,
        input: &mut Chars<'_>,
        text: &mut String,
    ) -> Option<Self> {
        nano_json_schema::take_record_json::<Self, HolderFields<T>>(alloc, place, input, text)
    }
}

impl<T: RonCodec> RonCodec for Holder<T> {
    ghost ron = { ron_of ⟦<Holder<T> as StructSchema>⟧.view ⟦<HolderFields<T> as RonShape>⟧.codec
        refl };

    ghost agrees = { seen_agrees T.agrees ⟦<Holder<T> as StructSchema>⟧.view };
}

impl<T: SerRon> SerRon for Holder<T> {
    fn ser_ron(&self, alloc: Global, d: usize, s: &mut SerRonState) -> Result<(), AllocError> {
        nano_ron_schema::write_record_ron::<Self, HolderFields<T>>(self, alloc, d, s)
    }
}

impl<T: DeRon> DeRon for Holder<T> {
    fn de_ron(alloc: Global, state: &mut DeRonState, input: &mut Chars<'_>) -> RonResult<Self> {
        nano_ron_schema::read_record_ron::<Self, HolderFields<T>>(alloc, state, input)
    }
}
