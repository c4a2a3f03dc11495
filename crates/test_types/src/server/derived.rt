//! Written by derive_files: how the types of the module above are encoded.

ghost use Rattle.std.specs.Prelude.{codes, ◌==◌, if◌then◌else◌, refl};
ghost use Rattle.nano_bin_schema.specs.Structs.{bin_of};
ghost use Rattle.nano_schema.specs.UserTypes.{agreed};
ghost use Rattle.nano_json_schema.specs.Structs.{json_of};
ghost use Rattle.nano_ron_schema.specs.Structs.{ron_of};

use super::*;
use nano_bin_schema::{BinCodec, BinShape, DeBin, DeBinErr, SerBin};
use nano_json_schema::{
    DeJson, DeJsonState, JsonCodec, JsonResult, JsonShape, Place, SerJson, SerJsonState,
};
use nano_ron_schema::{DeRon, DeRonState, RonCodec, RonResult, RonShape, SerRon, SerRonState};
use nano_schema::{Borrowed, FieldRefs, Label, Optional, Required, Shape, StructSchema, Value};
use std::alloc::{AllocError, Global};
use std::str::Chars;

pub struct ServerNames<const I: usize> {}

impl<const I: usize> Label for ServerNames<I> {
    ghost label = { if I == 0 then codes "host" else if I == 1 then codes "port"
        else if I == 2 then codes "tags" else if I == 3 then codes "limits" else codes "note" };

    fn text() -> &'static str {
        nano_schema::name_of!(I, 0 => "host", 1 => "port", 2 => "tags", 3 => "limits",
            _ => "note")
    }
}

type ServerFields = (
    (
        Required<ServerNames<0>, String>,
        Required<ServerNames<1>, u16>,
    ),
    (
        Required<ServerNames<2>, Tags>,
        (
            Required<ServerNames<3>, Limits>,
            Optional<ServerNames<4>, String>,
        ),
    ),
);

impl StructSchema for Server {
    type Values = <ServerFields as Shape>::Values;

    ghost view = { λ x. ((x.host, x.port), (x.tags, (x.limits, x.note))) };

    fn make(values: Self::Values) -> Self {
        let ((host, port), (tags, (limits, note))) = values;
        Server {
            host,
            port,
            tags,
            limits,
            note,
        }
    }
}

impl<'a> FieldRefs<'a> for Server {
    type Refs = <ServerFields as Borrowed<'a>>::Refs;

    ghost values = { ⟦<ServerFields as Borrowed<'a>>⟧.values };

    fn as_refs(&'a self) -> Self::Refs {
        (
            (&self.host, &self.port),
            (&self.tags, (&self.limits, &self.note)),
        )
    }
}

impl Value for Server {
    ghost means = { λ x. ⟦<ServerFields as Shape>⟧.means (⟦<Server as StructSchema>⟧.view x) };

    ghost legal = { ⟦<ServerFields as Shape>⟧.legal };

    fn known(&self) {
        nano_schema::known_record::<Self, ServerFields>(self);
    }
}

impl BinCodec for Server {
    ghost bin = { bin_of ⟦<Server as StructSchema>⟧.view ⟦<ServerFields as BinShape>⟧.codec };

    ghost agrees = { agreed };
}

impl SerBin for Server {
    fn ser_bin(&self, alloc: Global, output: &mut Vec<u8>) -> Result<(), AllocError> {
        nano_bin_schema::write_record_bin::<Self, ServerFields>(self, alloc, output)
    }
}

impl DeBin for Server {
    ghost is_decodable = { refl };

    fn de_bin(alloc: Global, offset: &mut usize, bytes: &[u8]) -> Result<Self, DeBinErr> {
        nano_bin_schema::read_record_bin::<Self, ServerFields>(alloc, offset, bytes)
    }
}

impl JsonCodec for Server {
    ghost json = { json_of ⟦<Server as StructSchema>⟧.view ⟦<ServerFields as JsonShape>⟧.codec
        refl };

    ghost agrees = { agreed };
}

impl SerJson for Server {
    fn ser_json(&self, alloc: Global, d: usize, s: &mut SerJsonState) -> Result<(), AllocError> {
        nano_json_schema::write_record_json::<Self, ServerFields>(self, alloc, d, s)
    }
}

impl DeJson for Server {
    fn de_json(alloc: Global, state: &mut DeJsonState, input: &mut Chars<'_>) -> JsonResult<Self> {
        nano_json_schema::read_record_json::<Self, ServerFields>(alloc, state, input)
    }

    fn de_json_plain(
        alloc: Global,
        place: &mut Place,
        input: &mut Chars<'_>,
        text: &mut String,
    ) -> Option<Self> {
        nano_json_schema::take_record_json::<Self, ServerFields>(alloc, place, input, text)
    }
}

impl RonCodec for Server {
    ghost ron = { ron_of ⟦<Server as StructSchema>⟧.view ⟦<ServerFields as RonShape>⟧.codec refl };

    ghost agrees = { agreed };
}

impl SerRon for Server {
    fn ser_ron(&self, alloc: Global, d: usize, s: &mut SerRonState) -> Result<(), AllocError> {
        nano_ron_schema::write_record_ron::<Self, ServerFields>(self, alloc, d, s)
    }
}

impl DeRon for Server {
    fn de_ron(alloc: Global, state: &mut DeRonState, input: &mut Chars<'_>) -> RonResult<Self> {
        nano_ron_schema::read_record_ron::<Self, ServerFields>(alloc, state, input)
    }
}
