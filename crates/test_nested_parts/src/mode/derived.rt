//! Written by derive_files: how the types of the module above are encoded.

ghost use Rattle.std.specs.Prelude.{codes, ◌==◌, if◌then◌else◌, refl};
ghost use Rattle.nano_schema.specs.declared.choices.Either.TheVariants.{First, Later};
ghost use Rattle.nano_schema.specs.UserTypes.{LegalVariant, agreed};
ghost use Rattle.nano_bin_schema.specs.Enums.{bin_choice};
ghost use Rattle.nano_json_schema.specs.Enums.{json_choice};
ghost use Rattle.nano_ron_schema.specs.Enums.{ron_choice};

use super::*;
use nano_bin_schema::{BinCodec, BinShapes, DeBin, DeBinErr, SerBin};
use nano_json_schema::{
    DeJson, DeJsonState, JsonCodec, JsonResult, JsonShapes, SerJson, SerJsonState,
};
use nano_ron_schema::{DeRon, DeRonState, RonCodec, RonResult, RonShapes, SerRon, SerRonState};
use nano_schema::{
    BorrowedChoices, Choices, Either, EnumSchema, Label, Newtype, Unit, Value, Variant, VariantRefs,
};
use std::alloc::{AllocError, Global};
use std::str::Chars;

pub struct ModeNames<const I: usize> {}

impl<const I: usize> Label for ModeNames<I> {
    ghost label = { if I == 0 then codes "Easy" else codes "Hard" };

    fn text() -> &'static str {
        nano_schema::name_of!(I, 0 => "Easy", _ => "Hard")
    }
}

type ModeHardParts = u8;

type ModeVariants2 = Variant<ModeNames<1>, Newtype<ModeHardParts>>;

type ModeVariants = (Variant<ModeNames<0>, Unit>, ModeVariants2);

type ModeValues2 = u8;

type ModeValues = Either<(), ModeValues2>;

type ModeRefs2<'a> = &'a u8;

type ModeRefs<'a> = Either<(), ModeRefs2<'a>>;

impl EnumSchema for Mode {
    ghost use Rattle.test_nested_parts.specs.declared.mode.Mode.TheVariants.{Easy, Hard};

    type Values = ModeValues;

    ghost view = { λ x. elim x [
      | Easy ↦ First tt
      | Hard v0 ↦ Later v0
    ] };

    fn make(values: Self::Values) -> Self {
        let later = match values {
            Either::First(values) => {
                let () = values;
                return Self::Easy;
            }
            Either::Later(later) => later,
        };
        let first = later;
        Self::Hard(first)
    }
}

impl<'a> VariantRefs<'a> for Mode {
    type Refs = ModeRefs<'a>;

    ghost values = { ⟦<ModeVariants as BorrowedChoices<'a>>⟧.values };

    fn as_refs(&'a self) -> Self::Refs {
        match self {
            Self::Easy => {
                let refs = ();
                Either::First(refs)
            }
            Self::Hard(first) => {
                let refs = first;
                Either::Later(refs)
            }
        }
    }
}

impl Value for Mode {
    ghost means = { λ x. ⟦<ModeVariants as Choices>⟧.means 0 (⟦<Mode as EnumSchema>⟧.view x) };

    ghost legal = { LegalVariant ⟦<ModeVariants as Choices>⟧.legals };

    fn known(&self) {
        nano_schema::known_variant::<Self, ModeVariants>(self);
    }
}

impl BinCodec for Mode {
    ghost bin = { bin_choice ⟦<Mode as EnumSchema>⟧.view ⟦<ModeVariants as BinShapes>⟧.chosen
        refl };

    ghost agrees = { agreed };
}

impl SerBin for Mode {
    fn ser_bin(&self, alloc: Global, output: &mut Vec<u8>) -> Result<(), AllocError> {
        nano_bin_schema::write_choice_bin::<Self, ModeVariants>(self, alloc, output)
    }
}

impl DeBin for Mode {
    ghost is_decodable = { refl };

    fn de_bin(alloc: Global, offset: &mut usize, bytes: &[u8]) -> Result<Self, DeBinErr> {
        nano_bin_schema::read_choice_bin::<Self, ModeVariants>(alloc, offset, bytes)
    }
}

impl JsonCodec for Mode {
    ghost json = { json_choice ⟦<Mode as EnumSchema>⟧.view ⟦<ModeVariants as JsonShapes>⟧.codec
        refl refl refl };

    ghost agrees = { agreed };
}

impl SerJson for Mode {
    fn ser_json(&self, alloc: Global, d: usize, s: &mut SerJsonState) -> Result<(), AllocError> {
        nano_json_schema::write_choice_json::<Self, ModeVariants>(self, alloc, d, s)
    }
}

impl DeJson for Mode {
    fn de_json(alloc: Global, state: &mut DeJsonState, input: &mut Chars<'_>) -> JsonResult<Self> {
        nano_json_schema::read_choice_json::<Self, ModeVariants>(alloc, state, input)
    }
}

impl RonCodec for Mode {
    ghost ron = { ron_choice ⟦<Mode as EnumSchema>⟧.view ⟦<ModeVariants as RonShapes>⟧.codec refl
        refl refl };

    ghost agrees = { agreed };
}

impl SerRon for Mode {
    fn ser_ron(&self, alloc: Global, d: usize, s: &mut SerRonState) -> Result<(), AllocError> {
        nano_ron_schema::write_choice_ron::<Self, ModeVariants>(self, alloc, d, s)
    }
}

impl DeRon for Mode {
    fn de_ron(alloc: Global, state: &mut DeRonState, input: &mut Chars<'_>) -> RonResult<Self> {
        nano_ron_schema::read_choice_ron::<Self, ModeVariants>(alloc, state, input)
    }
}
