//! Written by derive_files: how the types of the module above are encoded.

ghost use Rattle.std.specs.Prelude.{codes, ◌==◌, if◌then◌else◌, refl};
ghost use Rattle.nano_bin_schema.specs.Structs.{bin_of};
ghost use Rattle.nano_schema.specs.UserTypes.{agreed, LegalVariant};
ghost use Rattle.nano_json_schema.specs.Structs.{json_of};
ghost use Rattle.nano_ron_schema.specs.Structs.{ron_of};
ghost use Rattle.nano_schema.specs.declared.choices.Either.TheVariants.{First, Later};
ghost use Rattle.nano_bin_schema.specs.Enums.{bin_choice};
ghost use Rattle.nano_json_schema.specs.Enums.{json_choice};
ghost use Rattle.nano_ron_schema.specs.Enums.{ron_choice};

use super::*;
use nano_bin_schema::{BinCodec, BinShape, BinShapes, DeBin, DeBinErr, SerBin};
use nano_json_schema::{
    DeJson, DeJsonState, JsonCodec, JsonResult, JsonShape, JsonShapes, Place, SerJson, SerJsonState,
};
use nano_ron_schema::{
    DeRon, DeRonState, RonCodec, RonResult, RonShape, RonShapes, SerRon, SerRonState,
};
use nano_schema::{
    Aliased, Borrowed, BorrowedChoices, Choices, DefaultU16, Defaulted, Either, EnumSchema,
    FieldRefs, Label, Optional, Required, Shape, Struct, StructSchema, Unit, Value, Variant,
    VariantRefs,
};
use std::alloc::{AllocError, Global};
use std::str::Chars;

pub struct MovedNames<const I: usize> {}

impl<const I: usize> Label for MovedNames<I> {
    ghost label = { if I == 0 then codes "host" else if I == 1 then codes "hostname"
        else if I == 2 then codes "contact" else if I == 3 then codes "owner"
        else if I == 4 then codes "admin" else if I == 5 then codes "port" else codes "tcp_port" };

    fn text() -> &'static str {
        nano_schema::name_of!(I, 0 => "host", 1 => "hostname", 2 => "contact", 3 => "owner",
            4 => "admin", 5 => "port", _ => "tcp_port")
    }
}

type MovedFields = (
    Aliased<MovedNames<1>, Required<MovedNames<0>, String>>,
    (
        Aliased<MovedNames<4>, Aliased<MovedNames<3>, Optional<MovedNames<2>, String>>>,
        Aliased<MovedNames<6>, Defaulted<MovedNames<5>, u16, DefaultU16<8080>>>,
    ),
);

impl StructSchema for Moved {
    type Values = <MovedFields as Shape>::Values;

    ghost view = { λ x. (x.host, (x.contact, x.port)) };

    fn make(values: Self::Values) -> Self {
        let (host, (contact, port)) = values;
        Moved {
            host,
            contact,
            port,
        }
    }
}

impl<'a> FieldRefs<'a> for Moved {
    type Refs = <MovedFields as Borrowed<'a>>::Refs;

    ghost values = { ⟦<MovedFields as Borrowed<'a>>⟧.values };

    fn as_refs(&'a self) -> Self::Refs {
        (&self.host, (&self.contact, &self.port))
    }
}

impl Value for Moved {
    ghost means = { λ x. ⟦<MovedFields as Shape>⟧.means (⟦<Moved as StructSchema>⟧.view x) };

    ghost legal = { ⟦<MovedFields as Shape>⟧.legal };

    fn known(&self) {
        nano_schema::known_record::<Self, MovedFields>(self);
    }
}

impl BinCodec for Moved {
    ghost bin = { bin_of ⟦<Moved as StructSchema>⟧.view ⟦<MovedFields as BinShape>⟧.codec };

    ghost agrees = { agreed };
}

impl SerBin for Moved {
    fn ser_bin(&self, alloc: Global, output: &mut Vec<u8>) -> Result<(), AllocError> {
        nano_bin_schema::write_record_bin::<Self, MovedFields>(self, alloc, output)
    }
}

impl DeBin for Moved {
    ghost is_decodable = { refl };

    fn de_bin(alloc: Global, offset: &mut usize, bytes: &[u8]) -> Result<Self, DeBinErr> {
        nano_bin_schema::read_record_bin::<Self, MovedFields>(alloc, offset, bytes)
    }
}

impl JsonCodec for Moved {
    ghost json = { json_of ⟦<Moved as StructSchema>⟧.view ⟦<MovedFields as JsonShape>⟧.codec refl };

    ghost agrees = { agreed };
}

impl SerJson for Moved {
    fn ser_json(&self, alloc: Global, d: usize, s: &mut SerJsonState) -> Result<(), AllocError> {
        nano_json_schema::write_record_json::<Self, MovedFields>(self, alloc, d, s)
    }
}

impl DeJson for Moved {
    fn de_json(alloc: Global, state: &mut DeJsonState, input: &mut Chars<'_>) -> JsonResult<Self> {
        nano_json_schema::read_record_json::<Self, MovedFields>(alloc, state, input)
    }

    fn de_json_plain(
        alloc: Global,
        place: &mut Place,
        input: &mut Chars<'_>,
        text: &mut String,
    ) -> Option<Self> {
        nano_json_schema::take_record_json::<Self, MovedFields>(alloc, place, input, text)
    }
}

impl RonCodec for Moved {
    ghost ron = { ron_of ⟦<Moved as StructSchema>⟧.view ⟦<MovedFields as RonShape>⟧.codec refl };

    ghost agrees = { agreed };
}

impl SerRon for Moved {
    fn ser_ron(&self, alloc: Global, d: usize, s: &mut SerRonState) -> Result<(), AllocError> {
        nano_ron_schema::write_record_ron::<Self, MovedFields>(self, alloc, d, s)
    }
}

impl DeRon for Moved {
    fn de_ron(alloc: Global, state: &mut DeRonState, input: &mut Chars<'_>) -> RonResult<Self> {
        nano_ron_schema::read_record_ron::<Self, MovedFields>(alloc, state, input)
    }
}

pub struct ChangeNames<const I: usize> {}

impl<const I: usize> Label for ChangeNames<I> {
    ghost label = { if I == 0 then codes "Started" else codes "Renamed" };

    fn text() -> &'static str {
        nano_schema::name_of!(I, 0 => "Started", _ => "Renamed")
    }
}

pub struct ChangeRenamedNames<const I: usize> {}

impl<const I: usize> Label for ChangeRenamedNames<I> {
    ghost label = { if I == 0 then codes "from" else if I == 1 then codes "old" else codes "to" };

    fn text() -> &'static str {
        nano_schema::name_of!(I, 0 => "from", 1 => "old", _ => "to")
    }
}

type ChangeRenamedParts = (
    Aliased<ChangeRenamedNames<1>, Required<ChangeRenamedNames<0>, String>>,
    Required<ChangeRenamedNames<2>, String>,
);

type ChangeVariants2 = Variant<ChangeNames<1>, Struct<ChangeRenamedParts>>;

type ChangeVariants = (Variant<ChangeNames<0>, Unit>, ChangeVariants2);

type ChangeValues2 = (String, String);

type ChangeValues = Either<(), ChangeValues2>;

type ChangeRefs2<'a> = (&'a String, &'a String);

type ChangeRefs<'a> = Either<(), ChangeRefs2<'a>>;

impl EnumSchema for Change {
    ghost use Rattle.test_types.specs.declared.moved.Change.TheVariants.{Started, Renamed};

    type Values = ChangeValues;

    ghost view = { λ x. elim x [
      | Started ↦ First tt
      | Renamed v0 v1 ↦ Later (v0, v1)
    ] };

    fn make(values: Self::Values) -> Self {
        let later = match values {
            Either::First(values) => {
                let () = values;
                return Self::Started;
            }
            Either::Later(later) => later,
        };
        let (from, to) = later;
        Self::Renamed { from, to }
    }
}

impl<'a> VariantRefs<'a> for Change {
    type Refs = ChangeRefs<'a>;

    ghost values = { ⟦<ChangeVariants as BorrowedChoices<'a>>⟧.values };

    fn as_refs(&'a self) -> Self::Refs {
        match self {
            Self::Started => {
                let refs = ();
                Either::First(refs)
            }
            Self::Renamed { from, to } => {
                let refs = (from, to);
                Either::Later(refs)
            }
        }
    }
}

impl Value for Change {
    ghost means = { λ x. ⟦<ChangeVariants as Choices>⟧.means 0 (⟦<Change as EnumSchema>⟧.view x) };

    ghost legal = { LegalVariant ⟦<ChangeVariants as Choices>⟧.legals };

    fn known(&self) {
        nano_schema::known_variant::<Self, ChangeVariants>(self);
    }
}

impl BinCodec for Change {
    ghost bin = { bin_choice ⟦<Change as EnumSchema>⟧.view ⟦<ChangeVariants as BinShapes>⟧.chosen
        refl };

    ghost agrees = { agreed };
}

impl SerBin for Change {
    fn ser_bin(&self, alloc: Global, output: &mut Vec<u8>) -> Result<(), AllocError> {
        nano_bin_schema::write_choice_bin::<Self, ChangeVariants>(self, alloc, output)
    }
}

impl DeBin for Change {
    ghost is_decodable = { refl };

    fn de_bin(alloc: Global, offset: &mut usize, bytes: &[u8]) -> Result<Self, DeBinErr> {
        nano_bin_schema::read_choice_bin::<Self, ChangeVariants>(alloc, offset, bytes)
    }
}

impl JsonCodec for Change {
    ghost json = { json_choice ⟦<Change as EnumSchema>⟧.view
        ⟦<ChangeVariants as JsonShapes>⟧.codec refl refl refl };

    ghost agrees = { agreed };
}

impl SerJson for Change {
    fn ser_json(&self, alloc: Global, d: usize, s: &mut SerJsonState) -> Result<(), AllocError> {
        nano_json_schema::write_choice_json::<Self, ChangeVariants>(self, alloc, d, s)
    }
}

impl DeJson for Change {
    fn de_json(alloc: Global, state: &mut DeJsonState, input: &mut Chars<'_>) -> JsonResult<Self> {
        nano_json_schema::read_choice_json::<Self, ChangeVariants>(alloc, state, input)
    }
}

impl RonCodec for Change {
    ghost ron = { ron_choice ⟦<Change as EnumSchema>⟧.view ⟦<ChangeVariants as RonShapes>⟧.codec
        refl refl refl };

    ghost agrees = { agreed };
}

impl SerRon for Change {
    fn ser_ron(&self, alloc: Global, d: usize, s: &mut SerRonState) -> Result<(), AllocError> {
        nano_ron_schema::write_choice_ron::<Self, ChangeVariants>(self, alloc, d, s)
    }
}

impl DeRon for Change {
    fn de_ron(alloc: Global, state: &mut DeRonState, input: &mut Chars<'_>) -> RonResult<Self> {
        nano_ron_schema::read_choice_ron::<Self, ChangeVariants>(alloc, state, input)
    }
}
