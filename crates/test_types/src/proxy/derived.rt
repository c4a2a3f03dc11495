//! Written by derive_files: how the types of the module above are encoded.

ghost use Rattle.std.specs.Prelude.{codes, ◌==◌, if◌then◌else◌, refl};
ghost use Rattle.nano_bin_schema.specs.Structs.{bin_of};
ghost use Rattle.nano_schema.specs.UserTypes.{agreed};
ghost use Rattle.nano_json_schema.specs.Structs.{strict_json_of};
ghost use Rattle.nano_ron_schema.specs.Structs.{ron_of};

use super::*;
use nano_bin_schema::{BinCodec, BinShape, DeBin, DeBinErr, SerBin};
use nano_json_schema::{
    DeJson, DeJsonState, JsonCodec, JsonResult, JsonShape, Place, SerJson, SerJsonState,
};
use nano_ron_schema::{DeRon, DeRonState, RonCodec, RonResult, RonShape, SerRon, SerRonState};
use nano_schema::{
    Aliased, Borrowed, FieldRefs, Label, Optional, Required, Shape, StructSchema, Value,
};
use std::alloc::{AllocError, Global};
use std::str::Chars;

pub struct ProxyNames<const I: usize> {}

impl<const I: usize> Label for ProxyNames<I> {
    ghost label = { if I == 0 then codes "host" else if I == 1 then codes "hostname"
        else codes "port" };

    fn text() -> &'static str {
        nano_schema::name_of!(I, 0 => "host", 1 => "hostname", _ => "port")
    }
}

type ProxyFields = (
    Aliased<ProxyNames<1>, Required<ProxyNames<0>, String>>,
    Optional<ProxyNames<2>, u16>,
);

impl StructSchema for Proxy {
    type Values = <ProxyFields as Shape>::Values;

    ghost view = { λ x. (x.host, x.port) };

    fn make(values: Self::Values) -> Self {
        let (host, port) = values;
        Proxy { host, port }
    }
}

impl<'a> FieldRefs<'a> for Proxy {
    type Refs = <ProxyFields as Borrowed<'a>>::Refs;

    ghost values = { ⟦<ProxyFields as Borrowed<'a>>⟧.values };

    fn as_refs(&'a self) -> Self::Refs {
        (&self.host, &self.port)
    }
}

impl Value for Proxy {
    ghost means = { λ x. ⟦<ProxyFields as Shape>⟧.means (⟦<Proxy as StructSchema>⟧.view x) };

    ghost legal = { ⟦<ProxyFields as Shape>⟧.legal };

    fn known(&self) {
        nano_schema::known_record::<Self, ProxyFields>(self);
    }
}

impl BinCodec for Proxy {
    ghost bin = { bin_of ⟦<Proxy as StructSchema>⟧.view ⟦<ProxyFields as BinShape>⟧.codec };

    ghost agrees = { agreed };
}

impl SerBin for Proxy {
    fn ser_bin(&self, alloc: Global, output: &mut Vec<u8>) -> Result<(), AllocError> {
        nano_bin_schema::write_record_bin::<Self, ProxyFields>(self, alloc, output)
    }
}

impl DeBin for Proxy {
    ghost is_decodable = { refl };

    fn de_bin(alloc: Global, offset: &mut usize, bytes: &[u8]) -> Result<Self, DeBinErr> {
        nano_bin_schema::read_record_bin::<Self, ProxyFields>(alloc, offset, bytes)
    }
}

impl JsonCodec for Proxy {
    ghost json = { strict_json_of ⟦<Proxy as StructSchema>⟧.view
        ⟦<ProxyFields as JsonShape>⟧.codec refl };

    ghost agrees = { agreed };
}

impl SerJson for Proxy {
    fn ser_json(&self, alloc: Global, d: usize, s: &mut SerJsonState) -> Result<(), AllocError> {
        nano_json_schema::write_record_json::<Self, ProxyFields>(self, alloc, d, s)
    }
}

impl DeJson for Proxy {
    fn de_json(alloc: Global, state: &mut DeJsonState, input: &mut Chars<'_>) -> JsonResult<Self> {
        nano_json_schema::read_record_json_strict::<Self, ProxyFields>(alloc, state, input)
    }

    fn de_json_plain(
        alloc: Global,
        place: &mut Place,
        input: &mut Chars<'_>,
        text: &mut String,
    ) -> Option<Self> {
        nano_json_schema::take_record_json_strict::<Self, ProxyFields>(alloc, place, input, text)
    }
}

impl RonCodec for Proxy {
    ghost ron = { ron_of ⟦<Proxy as StructSchema>⟧.view ⟦<ProxyFields as RonShape>⟧.codec refl };

    ghost agrees = { agreed };
}

impl SerRon for Proxy {
    fn ser_ron(&self, alloc: Global, d: usize, s: &mut SerRonState) -> Result<(), AllocError> {
        nano_ron_schema::write_record_ron::<Self, ProxyFields>(self, alloc, d, s)
    }
}

impl DeRon for Proxy {
    fn de_ron(alloc: Global, state: &mut DeRonState, input: &mut Chars<'_>) -> RonResult<Self> {
        nano_ron_schema::read_record_ron::<Self, ProxyFields>(alloc, state, input)
    }
}
