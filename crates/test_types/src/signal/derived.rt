//! Written by derive_files: how the types of the module above are encoded.

ghost use Rattle.std.specs.Prelude.{codes, ◌==◌, if◌then◌else◌, refl};
ghost use Rattle.nano_schema.specs.declared.choices.Either.TheVariants.{First, Later};
ghost use Rattle.nano_schema.specs.UserTypes.{LegalVariant, agreed};
ghost use Rattle.nano_bin_schema.specs.Enums.{bin_choice};
ghost use Rattle.nano_json_schema.specs.Enums.{json_choice};
ghost use Rattle.nano_ron_schema.specs.Enums.{ron_choice};

use super::*;
use nano_bin_schema::{BinCodec, BinShapes, DeBin, DeBinErr, SerBin};
use nano_json_schema::{
    DeJson, DeJsonState, JsonCodec, JsonResult, JsonShapes, SerJson, SerJsonState,
};
use nano_ron_schema::{DeRon, DeRonState, RonCodec, RonResult, RonShapes, SerRon, SerRonState};
use nano_schema::{
    BorrowedChoices, Choices, Either, EnumSchema, Label, Newtype, Tuple, Value, Variant,
    VariantRefs,
};
use std::alloc::{AllocError, Global};
use std::str::Chars;

pub struct SignalNames<const I: usize> {}

impl<const I: usize> Label for SignalNames<I> {
    ghost label = { if I == 0 then codes "Wait" else if I == 1 then codes "Move"
        else codes "Light" };

    fn text() -> &'static str {
        nano_schema::name_of!(I, 0 => "Wait", 1 => "Move", _ => "Light")
    }
}

type SignalWaitParts = u64;

type SignalMoveParts = (u16, u16, u16);

type SignalLightParts = (u8, u8, u8, bool);

type SignalVariants3 = Variant<SignalNames<2>, Tuple<SignalLightParts>>;

type SignalVariants2 = (
    Variant<SignalNames<1>, Tuple<SignalMoveParts>>,
    SignalVariants3,
);

type SignalVariants = (
    Variant<SignalNames<0>, Newtype<SignalWaitParts>>,
    SignalVariants2,
);

type SignalValues3 = (u8, u8, u8, bool);

type SignalValues2 = Either<(u16, u16, u16), SignalValues3>;

type SignalValues = Either<u64, SignalValues2>;

type SignalRefs3<'a> = (&'a u8, &'a u8, &'a u8, &'a bool);

type SignalRefs2<'a> = Either<(&'a u16, &'a u16, &'a u16), SignalRefs3<'a>>;

type SignalRefs<'a> = Either<&'a u64, SignalRefs2<'a>>;

impl EnumSchema for Signal {
    ghost use Rattle.test_types.specs.declared.signal.Signal.TheVariants.{Wait, Move, Light};

    type Values = SignalValues;

    ghost view = { λ x. elim x [
      | Wait v0 ↦ First v0
      | Move v0 v1 v2 ↦ Later (First (v0, v1, v2))
      | Light v0 v1 v2 v3 ↦ Later (Later (v0, v1, v2, v3))
    ] };

    fn make(values: Self::Values) -> Self {
        let later = match values {
            Either::First(values) => {
                let first = values;
                return Self::Wait(first);
            }
            Either::Later(later) => later,
        };
        let later = match later {
            Either::First(values) => {
                let (first, second, third) = values;
                return Self::Move(first, second, third);
            }
            Either::Later(later) => later,
        };
        let (first, second, third, fourth) = later;
        Self::Light(first, second, third, fourth)
    }
}

impl<'a> VariantRefs<'a> for Signal {
    type Refs = SignalRefs<'a>;

    ghost values = { ⟦<SignalVariants as BorrowedChoices<'a>>⟧.values };

    fn as_refs(&'a self) -> Self::Refs {
        match self {
            Self::Wait(first) => {
                let refs = first;
                Either::First(refs)
            }
            Self::Move(first, second, third) => {
                let refs = (first, second, third);
                Either::Later(Either::First(refs))
            }
            Self::Light(first, second, third, fourth) => {
                let refs = (first, second, third, fourth);
                Either::Later(Either::Later(refs))
            }
        }
    }
}

impl Value for Signal {
    ghost means = { λ x. ⟦<SignalVariants as Choices>⟧.means 0 (⟦<Signal as EnumSchema>⟧.view x) };

    ghost legal = { LegalVariant ⟦<SignalVariants as Choices>⟧.legals };

    fn known(&self) {
        nano_schema::known_variant::<Self, SignalVariants>(self);
    }
}

impl BinCodec for Signal {
    ghost bin = { bin_choice ⟦<Signal as EnumSchema>⟧.view ⟦<SignalVariants as BinShapes>⟧.chosen
        refl };

    ghost agrees = { agreed };
}

impl SerBin for Signal {
    fn ser_bin(&self, alloc: Global, output: &mut Vec<u8>) -> Result<(), AllocError> {
        nano_bin_schema::write_choice_bin::<Self, SignalVariants>(self, alloc, output)
    }
}

impl DeBin for Signal {
    ghost is_decodable = { refl };

    fn de_bin(alloc: Global, offset: &mut usize, bytes: &[u8]) -> Result<Self, DeBinErr> {
        nano_bin_schema::read_choice_bin::<Self, SignalVariants>(alloc, offset, bytes)
    }
}

impl JsonCodec for Signal {
    ghost json = { json_choice ⟦<Signal as EnumSchema>⟧.view
        ⟦<SignalVariants as JsonShapes>⟧.codec refl refl refl };

    ghost agrees = { agreed };
}

impl SerJson for Signal {
    fn ser_json(&self, alloc: Global, d: usize, s: &mut SerJsonState) -> Result<(), AllocError> {
        nano_json_schema::write_choice_json::<Self, SignalVariants>(self, alloc, d, s)
    }
}

impl DeJson for Signal {
    fn de_json(alloc: Global, state: &mut DeJsonState, input: &mut Chars<'_>) -> JsonResult<Self> {
        nano_json_schema::read_choice_json::<Self, SignalVariants>(alloc, state, input)
    }
}

impl RonCodec for Signal {
    ghost ron = { ron_choice ⟦<Signal as EnumSchema>⟧.view ⟦<SignalVariants as RonShapes>⟧.codec
        refl refl refl };

    ghost agrees = { agreed };
}

impl SerRon for Signal {
    fn ser_ron(&self, alloc: Global, d: usize, s: &mut SerRonState) -> Result<(), AllocError> {
        nano_ron_schema::write_choice_ron::<Self, SignalVariants>(self, alloc, d, s)
    }
}

impl DeRon for Signal {
    fn de_ron(alloc: Global, state: &mut DeRonState, input: &mut Chars<'_>) -> RonResult<Self> {
        nano_ron_schema::read_choice_ron::<Self, SignalVariants>(alloc, state, input)
    }
}
