//! Written by derive_files: how the types of the module above are encoded.

ghost use Rattle.nano_bin_schema.specs.Structs.{bin_of};
ghost use Rattle.nano_schema.specs.UserTypes.{agreed};
ghost use Rattle.std.specs.Prelude.{refl};
ghost use Rattle.nano_json_schema.specs.Structs.{codec_as as json_as};
ghost use Rattle.nano_ron_schema.specs.Structs.{codec_as as ron_as};

use super::*;
use nano_bin_schema::{BinCodec, BinShape, DeBin, DeBinErr, SerBin};
use nano_json_schema::{DeJson, DeJsonState, JsonCodec, JsonResult, SerJson, SerJsonState};
use nano_ron_schema::{DeRon, DeRonState, RonCodec, RonResult, SerRon, SerRonState};
use nano_schema::{Borrowed, FieldRefs, Shape, StructSchema, Tuple, Value};
use std::alloc::{AllocError, Global};
use std::str::Chars;

type PointValues = (i32, i32, String);

type PointFields = Tuple<PointValues>;

impl StructSchema for Point {
    type Values = PointValues;

    ghost view = { λ x. (x.0, x.1, x.2) };

    fn make(values: Self::Values) -> Self {
        let (first, second, third) = values;
        Point(first, second, third)
    }
}

impl<'a> FieldRefs<'a> for Point {
    type Refs = <PointFields as Borrowed<'a>>::Refs;

    ghost values = { ⟦<PointFields as Borrowed<'a>>⟧.values };

    fn as_refs(&'a self) -> Self::Refs {
        (&self.0, &self.1, &self.2)
    }
}

impl Value for Point {
    ghost means = { λ x. ⟦<PointFields as Shape>⟧.means (⟦<Point as StructSchema>⟧.view x) };

    ghost legal = { ⟦<PointFields as Shape>⟧.legal };

    fn known(&self) {
        nano_schema::known_record::<Self, PointFields>(self);
    }
}

impl BinCodec for Point {
    ghost bin = { bin_of ⟦<Point as StructSchema>⟧.view ⟦<PointFields as BinShape>⟧.codec };

    ghost agrees = { agreed };
}

impl SerBin for Point {
    fn ser_bin(&self, alloc: Global, output: &mut Vec<u8>) -> Result<(), AllocError> {
        nano_bin_schema::write_record_bin::<Self, PointFields>(self, alloc, output)
    }
}

impl DeBin for Point {
    ghost is_decodable = { refl };

    fn de_bin(alloc: Global, offset: &mut usize, bytes: &[u8]) -> Result<Self, DeBinErr> {
        nano_bin_schema::read_record_bin::<Self, PointFields>(alloc, offset, bytes)
    }
}

impl JsonCodec for Point {
    ghost json = { json_as ⟦<Point as StructSchema>⟧.view ⟦<PointValues as JsonCodec>⟧.json };

    ghost agrees = { agreed };
}

impl SerJson for Point {
    fn ser_json(&self, alloc: Global, d: usize, s: &mut SerJsonState) -> Result<(), AllocError> {
        let parts = (
            nano_json_schema::Part { of: &self.0 },
            nano_json_schema::Part { of: &self.1 },
            nano_json_schema::Part { of: &self.2 },
        );
        SerJson::ser_json(&parts, alloc, d, s)
    }
}

impl DeJson for Point {
    fn de_json(alloc: Global, state: &mut DeJsonState, input: &mut Chars<'_>) -> JsonResult<Self> {
        nano_json_schema::read_parts_json::<Self, PointValues>(alloc, state, input)
    }
}

impl RonCodec for Point {
    ghost ron = { ron_as ⟦<Point as StructSchema>⟧.view ⟦<PointValues as RonCodec>⟧.ron };

    ghost agrees = { agreed };
}

impl SerRon for Point {
    fn ser_ron(&self, alloc: Global, d: usize, s: &mut SerRonState) -> Result<(), AllocError> {
        let parts = (
            nano_ron_schema::Part { of: &self.0 },
            nano_ron_schema::Part { of: &self.1 },
            nano_ron_schema::Part { of: &self.2 },
        );
        SerRon::ser_ron(&parts, alloc, d, s)
    }
}

impl DeRon for Point {
    fn de_ron(alloc: Global, state: &mut DeRonState, input: &mut Chars<'_>) -> RonResult<Self> {
        nano_ron_schema::read_parts_ron::<Self, PointValues>(alloc, state, input)
    }
}
