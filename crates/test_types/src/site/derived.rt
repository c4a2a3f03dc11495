//! Written by derive_files: how the types of the module above are encoded.

ghost use Rattle.std.specs.Prelude.{codes, ◌==◌, if◌then◌else◌, ◌≡◌, refl};
ghost use Rattle.nano_schema.specs.UserTypes.{text, agreed};
ghost use Rattle.nano_bin_schema.specs.Structs.{bin_of};
ghost use Rattle.nano_json_schema.specs.Structs.{json_of};
ghost use Rattle.nano_ron_schema.specs.Structs.{ron_of};

use super::*;
use nano_bin_schema::{BinCodec, BinShape, DeBin, DeBinErr, SerBin};
use nano_json_schema::{
    DeJson, DeJsonState, JsonCodec, JsonResult, JsonShape, Place, SerJson, SerJsonState,
};
use nano_ron_schema::{DeRon, DeRonState, RonCodec, RonResult, RonShape, SerRon, SerRonState};
use nano_schema::{
    Borrowed, DefaultOf, DefaultU16, Defaulted, FieldRefs, Label, Required, Shape, StructSchema,
    TypeDefault, Value,
};
use std::alloc::{AllocError, Global};
use std::str::Chars;

pub struct SiteNames<const I: usize> {}

impl<const I: usize> Label for SiteNames<I> {
    ghost label = { if I == 0 then codes "host" else if I == 1 then codes "port"
        else if I == 2 then codes "first" else if I == 3 then codes "tags" else codes "owner" };

    fn text() -> &'static str {
        nano_schema::name_of!(I, 0 => "host", 1 => "port", 2 => "first", 3 => "tags",
            _ => "owner")
    }
}

/// The default of `page`.
pub struct SitePageDefault {}

impl DefaultOf<String> for SitePageDefault {
    ghost missing = { text (codes "index") };

    fn default(alloc: Global) -> Result<String, AllocError> {
        String::from_str(alloc, "index")
    }
}

type SiteFields = (
    (
        Required<SiteNames<0>, String>,
        Defaulted<SiteNames<1>, u16, DefaultU16<8080>>,
    ),
    (
        Defaulted<SiteNames<2>, String, SitePageDefault>,
        (
            Defaulted<SiteNames<3>, std::vec::Vec<std::string::String>, TypeDefault>,
            Defaulted<SiteNames<4>, Option<String>, TypeDefault>,
        ),
    ),
);

impl StructSchema for Site {
    type Values = <SiteFields as Shape>::Values;

    ghost view = { λ x. ((x.host, x.port), (x.page, (x.tags, x.owner))) };

    fn make(values: Self::Values) -> Self
        ensures seen { ⟦<Site as StructSchema>⟧.view result ≡ values }
        ensures skipped { ⟦<u64 as std::default::Default>⟧.is_default result.hits }
    {
        let ((host, port), (page, (tags, owner))) = values;
        Site {
            host,
            port,
            page,
            tags,
            hits: std::default::Default::default(),
            owner,
        }
    }
}

impl<'a> FieldRefs<'a> for Site {
    type Refs = <SiteFields as Borrowed<'a>>::Refs;

    ghost values = { ⟦<SiteFields as Borrowed<'a>>⟧.values };

    fn as_refs(&'a self) -> Self::Refs {
        (
            (&self.host, &self.port),
            (&self.page, (&self.tags, &self.owner)),
        )
    }
}

impl Value for Site {
    ghost means = { λ x. ⟦<SiteFields as Shape>⟧.means (⟦<Site as StructSchema>⟧.view x) };

    ghost legal = { ⟦<SiteFields as Shape>⟧.legal };

    fn known(&self) {
        nano_schema::known_record::<Self, SiteFields>(self);
    }
}

impl BinCodec for Site {
    ghost bin = { bin_of ⟦<Site as StructSchema>⟧.view ⟦<SiteFields as BinShape>⟧.codec };

    ghost agrees = { agreed };
}

impl SerBin for Site {
    fn ser_bin(&self, alloc: Global, output: &mut Vec<u8>) -> Result<(), AllocError> {
        nano_bin_schema::write_record_bin::<Self, SiteFields>(self, alloc, output)
    }
}

impl DeBin for Site {
    ghost is_decodable = { refl };

    fn de_bin(alloc: Global, offset: &mut usize, bytes: &[u8]) -> Result<Self, DeBinErr> {
        nano_bin_schema::read_record_bin::<Self, SiteFields>(alloc, offset, bytes)
    }
}

impl JsonCodec for Site {
    ghost json = { json_of ⟦<Site as StructSchema>⟧.view ⟦<SiteFields as JsonShape>⟧.codec refl };

    ghost agrees = { agreed };
}

impl SerJson for Site {
    fn ser_json(&self, alloc: Global, d: usize, s: &mut SerJsonState) -> Result<(), AllocError> {
        nano_json_schema::write_record_json::<Self, SiteFields>(self, alloc, d, s)
    }
}

impl DeJson for Site {
    fn de_json(alloc: Global, state: &mut DeJsonState, input: &mut Chars<'_>) -> JsonResult<Self> {
        nano_json_schema::read_record_json::<Self, SiteFields>(alloc, state, input)
    }

    fn de_json_plain(
        alloc: Global,
        place: &mut Place,
        input: &mut Chars<'_>,
        text: &mut String,
    ) -> Option<Self> {
        nano_json_schema::take_record_json::<Self, SiteFields>(alloc, place, input, text)
    }
}

impl RonCodec for Site {
    ghost ron = { ron_of ⟦<Site as StructSchema>⟧.view ⟦<SiteFields as RonShape>⟧.codec refl };

    ghost agrees = { agreed };
}

impl SerRon for Site {
    fn ser_ron(&self, alloc: Global, d: usize, s: &mut SerRonState) -> Result<(), AllocError> {
        nano_ron_schema::write_record_ron::<Self, SiteFields>(self, alloc, d, s)
    }
}

impl DeRon for Site {
    fn de_ron(alloc: Global, state: &mut DeRonState, input: &mut Chars<'_>) -> RonResult<Self> {
        nano_ron_schema::read_record_ron::<Self, SiteFields>(alloc, state, input)
    }
}
