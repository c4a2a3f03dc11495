//! Written by derive_files: how the types of the module above are encoded.

ghost use Rattle.std.specs.Prelude.{codes, ◌==◌, if◌then◌else◌, refl};
ghost use Rattle.nano_schema.specs.declared.choices.Either.TheVariants.{First, Later};
ghost use Rattle.nano_schema.specs.UserTypes.{LegalVariant, agreed};
ghost use Rattle.nano_bin_schema.specs.Enums.{bin_choice};
ghost use Rattle.nano_json_schema.specs.Enums.{json_choice};
ghost use Rattle.nano_ron_schema.specs.Enums.{ron_choice};

use super::*;
use nano_bin_schema::{BinCodec, BinShapes, DeBin, DeBinErr, SerBin};
use nano_json_schema::{
    DeJson, DeJsonState, JsonCodec, JsonResult, JsonShapes, SerJson, SerJsonState,
};
use nano_ron_schema::{DeRon, DeRonState, RonCodec, RonResult, RonShapes, SerRon, SerRonState};
use nano_schema::{
    BorrowedChoices, Choices, Either, EnumSchema, Label, Required, Struct, Tuple, Unit, Value,
    Variant, VariantRefs,
};
use std::alloc::{AllocError, Global};
use std::str::Chars;

pub struct ChoiceNames<const I: usize> {}

impl<const I: usize> Label for ChoiceNames<I> {
    ghost label = { if I == 0 then codes "A" else if I == 1 then codes "B" else codes "C" };

    fn text() -> &'static str {
        nano_schema::name_of!(I, 0 => "A", 1 => "B", _ => "C")
    }
}

type ChoiceBParts = (i32, String);

pub struct ChoiceCNames<const I: usize> {}

impl<const I: usize> Label for ChoiceCNames<I> {
    ghost label = { if I == 0 then codes "a" else codes "b" };

    fn text() -> &'static str {
        nano_schema::name_of!(I, 0 => "a", _ => "b")
    }
}

type ChoiceCParts = (
    Required<ChoiceCNames<0>, i32>,
    Required<ChoiceCNames<1>, String>,
);

type ChoiceVariants3 = Variant<ChoiceNames<2>, Struct<ChoiceCParts>>;

type ChoiceVariants2 = (
    Variant<ChoiceNames<1>, Tuple<ChoiceBParts>>,
    ChoiceVariants3,
);

type ChoiceVariants = (Variant<ChoiceNames<0>, Unit>, ChoiceVariants2);

type ChoiceValues3 = (i32, String);

type ChoiceValues2 = Either<(i32, String), ChoiceValues3>;

type ChoiceValues = Either<(), ChoiceValues2>;

type ChoiceRefs3<'a> = (&'a i32, &'a String);

type ChoiceRefs2<'a> = Either<(&'a i32, &'a String), ChoiceRefs3<'a>>;

type ChoiceRefs<'a> = Either<(), ChoiceRefs2<'a>>;

impl EnumSchema for Choice {
    ghost use Rattle.nanoserde.specs.declared.records.choice.Choice.TheVariants.{A, B, C};

    type Values = ChoiceValues;

    ghost view = { λ x. elim x [
      | A ↦ First tt
      | B v0 v1 ↦ Later (First (v0, v1))
      | C v0 v1 ↦ Later (Later (v0, v1))
    ] };

    fn make(values: Self::Values) -> Self {
        let later = match values {
            Either::First(values) => {
                let () = values;
                return Self::A;
            }
            Either::Later(later) => later,
        };
        let later = match later {
            Either::First(values) => {
                let (first, second) = values;
                return Self::B(first, second);
            }
            Either::Later(later) => later,
        };
        let (a, b) = later;
        Self::C { a, b }
    }
}

impl<'a> VariantRefs<'a> for Choice {
    type Refs = ChoiceRefs<'a>;

    ghost values = { ⟦<ChoiceVariants as BorrowedChoices<'a>>⟧.values };

    fn as_refs(&'a self) -> Self::Refs {
        match self {
            Self::A => {
                let refs = ();
                Either::First(refs)
            }
            Self::B(first, second) => {
                let refs = (first, second);
                Either::Later(Either::First(refs))
            }
            Self::C { a, b } => {
                let refs = (a, b);
                Either::Later(Either::Later(refs))
            }
        }
    }
}

impl Value for Choice {
    ghost means = { λ x. ⟦<ChoiceVariants as Choices>⟧.means 0 (⟦<Choice as EnumSchema>⟧.view x) };

    ghost legal = { LegalVariant ⟦<ChoiceVariants as Choices>⟧.legals };

    fn known(&self) {
        nano_schema::known_variant::<Self, ChoiceVariants>(self);
    }
}

impl BinCodec for Choice {
    ghost bin = { bin_choice ⟦<Choice as EnumSchema>⟧.view ⟦<ChoiceVariants as BinShapes>⟧.chosen
        refl };

    ghost agrees = { agreed };
}

impl SerBin for Choice {
    fn ser_bin(&self, alloc: Global, output: &mut Vec<u8>) -> Result<(), AllocError> {
        nano_bin_schema::write_choice_bin::<Self, ChoiceVariants>(self, alloc, output)
    }
}

impl DeBin for Choice {
    ghost is_decodable = { refl };

    fn de_bin(alloc: Global, offset: &mut usize, bytes: &[u8]) -> Result<Self, DeBinErr> {
        nano_bin_schema::read_choice_bin::<Self, ChoiceVariants>(alloc, offset, bytes)
    }
}

impl JsonCodec for Choice {
    ghost json = { json_choice ⟦<Choice as EnumSchema>⟧.view
        ⟦<ChoiceVariants as JsonShapes>⟧.codec refl refl refl };

    ghost agrees = { agreed };
}

impl SerJson for Choice {
    fn ser_json(&self, alloc: Global, d: usize, s: &mut SerJsonState) -> Result<(), AllocError> {
        nano_json_schema::write_choice_json::<Self, ChoiceVariants>(self, alloc, d, s)
    }
}

impl DeJson for Choice {
    fn de_json(alloc: Global, state: &mut DeJsonState, input: &mut Chars<'_>) -> JsonResult<Self> {
        nano_json_schema::read_choice_json::<Self, ChoiceVariants>(alloc, state, input)
    }
}

impl RonCodec for Choice {
    ghost ron = { ron_choice ⟦<Choice as EnumSchema>⟧.view ⟦<ChoiceVariants as RonShapes>⟧.codec
        refl refl refl };

    ghost agrees = { agreed };
}

impl SerRon for Choice {
    fn ser_ron(&self, alloc: Global, d: usize, s: &mut SerRonState) -> Result<(), AllocError> {
        nano_ron_schema::write_choice_ron::<Self, ChoiceVariants>(self, alloc, d, s)
    }
}

impl DeRon for Choice {
    fn de_ron(alloc: Global, state: &mut DeRonState, input: &mut Chars<'_>) -> RonResult<Self> {
        nano_ron_schema::read_choice_ron::<Self, ChoiceVariants>(alloc, state, input)
    }
}
