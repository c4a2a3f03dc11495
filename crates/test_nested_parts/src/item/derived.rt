//! Written by derive_files: how the types of the module above are encoded.

ghost use Rattle.std.specs.Prelude.{codes, ◌==◌, if◌then◌else◌, refl};
ghost use Rattle.nano_bin_schema.specs.Structs.{bin_of};
ghost use Rattle.nano_schema.specs.UserTypes.{agreed};
ghost use Rattle.nano_json_schema.specs.Structs.{json_of};
ghost use Rattle.nano_ron_schema.specs.Structs.{ron_of};

use super::*;
use nano_bin_schema::{BinCodec, BinShape, DeBin, DeBinErr, SerBin};
use nano_json_schema::{
    DeJson, DeJsonState, JsonCodec, JsonResult, JsonShape, Place, SerJson, SerJsonState,
};
use nano_ron_schema::{DeRon, DeRonState, RonCodec, RonResult, RonShape, SerRon, SerRonState};
use nano_schema::{Borrowed, FieldRefs, Label, Optional, Required, Shape, StructSchema, Value};
use std::alloc::{AllocError, Global};
use std::str::Chars;

pub struct ItemNames<const I: usize> {}

impl<const I: usize> Label for ItemNames<I> {
    ghost label = { if I == 0 then codes "name" else codes "count" };

    fn text() -> &'static str {
        nano_schema::name_of!(I, 0 => "name", _ => "count")
    }
}

type ItemFields = (Required<ItemNames<0>, String>, Optional<ItemNames<1>, u32>);

impl StructSchema for Item {
    type Values = <ItemFields as Shape>::Values;

    ghost view = { λ x. (x.name, x.count) };

    fn make(values: Self::Values) -> Self {
        let (name, count) = values;
        Item { name, count }
    }
}

impl<'a> FieldRefs<'a> for Item {
    type Refs = <ItemFields as Borrowed<'a>>::Refs;

    ghost values = { ⟦<ItemFields as Borrowed<'a>>⟧.values };

    fn as_refs(&'a self) -> Self::Refs {
        (&self.name, &self.count)
    }
}

impl Value for Item {
    ghost means = { λ x. ⟦<ItemFields as Shape>⟧.means (⟦<Item as StructSchema>⟧.view x) };

    ghost legal = { ⟦<ItemFields as Shape>⟧.legal };

    fn known(&self) {
        nano_schema::known_record::<Self, ItemFields>(self);
    }
}

impl BinCodec for Item {
    ghost bin = { bin_of ⟦<Item as StructSchema>⟧.view ⟦<ItemFields as BinShape>⟧.codec };

    ghost agrees = { agreed };
}

impl SerBin for Item {
    fn ser_bin(&self, alloc: Global, output: &mut Vec<u8>) -> Result<(), AllocError> {
        nano_bin_schema::write_record_bin::<Self, ItemFields>(self, alloc, output)
    }
}

impl DeBin for Item {
    ghost is_decodable = { refl };

    fn de_bin(alloc: Global, offset: &mut usize, bytes: &[u8]) -> Result<Self, DeBinErr> {
        nano_bin_schema::read_record_bin::<Self, ItemFields>(alloc, offset, bytes)
    }
}

impl JsonCodec for Item {
    ghost json = { json_of ⟦<Item as StructSchema>⟧.view ⟦<ItemFields as JsonShape>⟧.codec refl };

    ghost agrees = { agreed };
}

impl SerJson for Item {
    fn ser_json(&self, alloc: Global, d: usize, s: &mut SerJsonState) -> Result<(), AllocError> {
        nano_json_schema::write_record_json::<Self, ItemFields>(self, alloc, d, s)
    }
}

impl DeJson for Item {
    fn de_json(alloc: Global, state: &mut DeJsonState, input: &mut Chars<'_>) -> JsonResult<Self> {
        nano_json_schema::read_record_json::<Self, ItemFields>(alloc, state, input)
    }

    fn de_json_plain(
        alloc: Global,
        place: &mut Place,
        input: &mut Chars<'_>,
        text: &mut String,
    ) -> Option<Self> {
        nano_json_schema::take_record_json::<Self, ItemFields>(alloc, place, input, text)
    }
}

impl RonCodec for Item {
    ghost ron = { ron_of ⟦<Item as StructSchema>⟧.view ⟦<ItemFields as RonShape>⟧.codec refl };

    ghost agrees = { agreed };
}

impl SerRon for Item {
    fn ser_ron(&self, alloc: Global, d: usize, s: &mut SerRonState) -> Result<(), AllocError> {
        nano_ron_schema::write_record_ron::<Self, ItemFields>(self, alloc, d, s)
    }
}

impl DeRon for Item {
    fn de_ron(alloc: Global, state: &mut DeRonState, input: &mut Chars<'_>) -> RonResult<Self> {
        nano_ron_schema::read_record_ron::<Self, ItemFields>(alloc, state, input)
    }
}
