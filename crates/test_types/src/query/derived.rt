//! Written by derive_files: how the types of the module above are encoded.

ghost use Rattle.std.specs.Prelude.{codes, ◌==◌, if◌then◌else◌, refl};
ghost use Rattle.nano_bin_schema.specs.Structs.{bin_of};
ghost use Rattle.nano_schema.specs.UserTypes.{agreed};
ghost use Rattle.nano_json_schema.specs.Structs.{json_of};

use super::*;
use nano_bin_schema::{BinCodec, BinShape, DeBin, DeBinErr};
use nano_json_schema::{DeJson, DeJsonState, JsonCodec, JsonResult, JsonShape, Place};
use nano_schema::{Borrowed, FieldRefs, Label, Optional, Required, Shape, StructSchema, Value};
use std::alloc::Global;
use std::str::Chars;

pub struct QueryNames<const I: usize> {}

impl<const I: usize> Label for QueryNames<I> {
    ghost label = { if I == 0 then codes "words" else codes "limit" };

    fn text() -> &'static str {
        nano_schema::name_of!(I, 0 => "words", _ => "limit")
    }
}

type QueryFields = (
    Required<QueryNames<0>, String>,
    Optional<QueryNames<1>, u32>,
);

impl StructSchema for Query {
    type Values = <QueryFields as Shape>::Values;

    ghost view = { λ x. (x.words, x.limit) };

    fn make(values: Self::Values) -> Self {
        let (words, limit) = values;
        Query { words, limit }
    }
}

impl<'a> FieldRefs<'a> for Query {
    type Refs = <QueryFields as Borrowed<'a>>::Refs;

    ghost values = { ⟦<QueryFields as Borrowed<'a>>⟧.values };

    fn as_refs(&'a self) -> Self::Refs {
        (&self.words, &self.limit)
    }
}

impl Value for Query {
    ghost means = { λ x. ⟦<QueryFields as Shape>⟧.means (⟦<Query as StructSchema>⟧.view x) };

    ghost legal = { ⟦<QueryFields as Shape>⟧.legal };

    fn known(&self) {
        nano_schema::known_record::<Self, QueryFields>(self);
    }
}

impl BinCodec for Query {
    ghost bin = { bin_of ⟦<Query as StructSchema>⟧.view ⟦<QueryFields as BinShape>⟧.codec };

    ghost agrees = { agreed };
}

impl DeBin for Query {
    ghost is_decodable = { refl };

    fn de_bin(alloc: Global, offset: &mut usize, bytes: &[u8]) -> Result<Self, DeBinErr> {
        nano_bin_schema::read_record_bin::<Self, QueryFields>(alloc, offset, bytes)
    }
}

impl JsonCodec for Query {
    ghost json = { json_of ⟦<Query as StructSchema>⟧.view ⟦<QueryFields as JsonShape>⟧.codec refl };

    ghost agrees = { agreed };
}

impl DeJson for Query {
    fn de_json(alloc: Global, state: &mut DeJsonState, input: &mut Chars<'_>) -> JsonResult<Self> {
        nano_json_schema::read_record_json::<Self, QueryFields>(alloc, state, input)
    }

    fn de_json_plain(
        alloc: Global,
        place: &mut Place,
        input: &mut Chars<'_>,
        text: &mut String,
    ) -> Option<Self> {
        nano_json_schema::take_record_json::<Self, QueryFields>(alloc, place, input, text)
    }
}
