//! Written by derive_files: how the types of the module above are encoded.

ghost use Rattle.std.specs.Prelude.{codes, ◌==◌, if◌then◌else◌, refl};
ghost use Rattle.nano_schema.specs.declared.choices.Either.TheVariants.{First, Later};
ghost use Rattle.nano_schema.specs.UserTypes.{LegalVariant, agreed};
ghost use Rattle.nano_json_schema.specs.Enums.{json_choice};
ghost use Rattle.nano_ron_schema.specs.Enums.{ron_choice};

use super::*;
use nano_json_schema::{
    DeJson, DeJsonState, JsonCodec, JsonResult, JsonShapes, SerJson, SerJsonState,
};
use nano_ron_schema::{DeRon, DeRonState, RonCodec, RonResult, RonShapes, SerRon, SerRonState};
use nano_schema::{
    BorrowedChoices, Choices, Either, EnumSchema, Label, Newtype, Required, Struct, Unit, Value,
    Variant, VariantRefs,
};
use std::alloc::{AllocError, Global};
use std::str::Chars;

pub struct ModeNames<const I: usize> {}

impl<const I: usize> Label for ModeNames<I> {
    ghost label = { if I == 0 then codes "Off" else if I == 1 then codes "Fixed"
        else codes "Range" };

    fn text() -> &'static str {
        nano_schema::name_of!(I, 0 => "Off", 1 => "Fixed", _ => "Range")
    }
}

type ModeFixedParts = u32;

pub struct ModeRangeNames<const I: usize> {}

impl<const I: usize> Label for ModeRangeNames<I> {
    ghost label = { if I == 0 then codes "least" else codes "most" };

    fn text() -> &'static str {
        nano_schema::name_of!(I, 0 => "least", _ => "most")
    }
}

type ModeRangeParts = (
    Required<ModeRangeNames<0>, u32>,
    Required<ModeRangeNames<1>, u32>,
);

type ModeVariants3 = Variant<ModeNames<2>, Struct<ModeRangeParts>>;

type ModeVariants2 = (
    Variant<ModeNames<1>, Newtype<ModeFixedParts>>,
    ModeVariants3,
);

type ModeVariants = (Variant<ModeNames<0>, Unit>, ModeVariants2);

type ModeValues3 = (u32, u32);

type ModeValues2 = Either<u32, ModeValues3>;

type ModeValues = Either<(), ModeValues2>;

type ModeRefs3<'a> = (&'a u32, &'a u32);

type ModeRefs2<'a> = Either<&'a u32, ModeRefs3<'a>>;

type ModeRefs<'a> = Either<(), ModeRefs2<'a>>;

impl EnumSchema for Mode {
    ghost use Rattle.example_server.specs.declared.mode.Mode.TheVariants.{Off, Fixed, Range};

    type Values = ModeValues;

    ghost view = { λ x. elim x [
      | Off ↦ First tt
      | Fixed v0 ↦ Later (First v0)
      | Range v0 v1 ↦ Later (Later (v0, v1))
    ] };

    fn make(values: Self::Values) -> Self {
        let later = match values {
            Either::First(values) => {
                let () = values;
                return Self::Off;
            }
            Either::Later(later) => later,
        };
        let later = match later {
            Either::First(values) => {
                let first = values;
                return Self::Fixed(first);
            }
            Either::Later(later) => later,
        };
        let (least, most) = later;
        Self::Range { least, most }
    }
}

impl<'a> VariantRefs<'a> for Mode {
    type Refs = ModeRefs<'a>;

    ghost values = { ⟦<ModeVariants as BorrowedChoices<'a>>⟧.values };

    fn as_refs(&'a self) -> Self::Refs {
        match self {
            Self::Off => {
                let refs = ();
                Either::First(refs)
            }
            Self::Fixed(first) => {
                let refs = first;
                Either::Later(Either::First(refs))
            }
            Self::Range { least, most } => {
                let refs = (least, most);
                Either::Later(Either::Later(refs))
            }
        }
    }
}

impl Value for Mode {
    ghost means = { λ x. ⟦<ModeVariants as Choices>⟧.means 0 (⟦<Mode as EnumSchema>⟧.view x) };

    ghost legal = { LegalVariant ⟦<ModeVariants as Choices>⟧.legals };

    fn known(&self) {
        nano_schema::known_variant::<Self, ModeVariants>(self);
    }
}

impl JsonCodec for Mode {
    ghost json = { json_choice ⟦<Mode as EnumSchema>⟧.view ⟦<ModeVariants as JsonShapes>⟧.codec
        refl refl refl };

    ghost agrees = { agreed };
}

impl SerJson for Mode {
    fn ser_json(&self, alloc: Global, d: usize, s: &mut SerJsonState) -> Result<(), AllocError> {
        nano_json_schema::write_choice_json::<Self, ModeVariants>(self, alloc, d, s)
    }
}

impl DeJson for Mode {
    fn de_json(alloc: Global, state: &mut DeJsonState, input: &mut Chars<'_>) -> JsonResult<Self> {
        nano_json_schema::read_choice_json::<Self, ModeVariants>(alloc, state, input)
    }
}

impl RonCodec for Mode {
    ghost ron = { ron_choice ⟦<Mode as EnumSchema>⟧.view ⟦<ModeVariants as RonShapes>⟧.codec refl
        refl refl };

    ghost agrees = { agreed };
}

impl SerRon for Mode {
    fn ser_ron(&self, alloc: Global, d: usize, s: &mut SerRonState) -> Result<(), AllocError> {
        nano_ron_schema::write_choice_ron::<Self, ModeVariants>(self, alloc, d, s)
    }
}

impl DeRon for Mode {
    fn de_ron(alloc: Global, state: &mut DeRonState, input: &mut Chars<'_>) -> RonResult<Self> {
        nano_ron_schema::read_choice_ron::<Self, ModeVariants>(alloc, state, input)
    }
}
