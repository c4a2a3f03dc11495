//! Written by derive_files: how the types of the module above are encoded.

ghost use Rattle.std.specs.Prelude.{codes, ◌==◌, if◌then◌else◌, refl};
ghost use Rattle.nano_schema.specs.declared.choices.Either.TheVariants.{First, Later};
ghost use Rattle.nano_schema.specs.UserTypes.{LegalVariant, agreed};
ghost use Rattle.nano_bin_schema.specs.Enums.{bin_choice};
ghost use Rattle.nano_json_schema.specs.Enums.{json_choice};
ghost use Rattle.nano_ron_schema.specs.Enums.{ron_choice};

use super::*;
use nano_bin_schema::{BinCodec, BinShapes, DeBin, DeBinErr, SerBin};
use nano_json_schema::{
    DeJson, DeJsonState, JsonCodec, JsonResult, JsonShapes, SerJson, SerJsonState,
};
use nano_ron_schema::{DeRon, DeRonState, RonCodec, RonResult, RonShapes, SerRon, SerRonState};
use nano_schema::{
    BorrowedChoices, Choices, Either, EnumSchema, Label, Required, Struct, Tuple, Unit, Value,
    Variant, VariantRefs,
};
use std::alloc::{AllocError, Global};
use std::str::Chars;

pub struct EventNames<const I: usize> {}

impl<const I: usize> Label for EventNames<I> {
    ghost label = { if I == 0 then codes "Stop" else if I == 1 then codes "Move"
        else codes "Say" };

    fn text() -> &'static str {
        nano_schema::name_of!(I, 0 => "Stop", 1 => "Move", _ => "Say")
    }
}

type EventMoveParts = (u32, String);

pub struct EventSayNames<const I: usize> {}

impl<const I: usize> Label for EventSayNames<I> {
    ghost label = { if I == 0 then codes "text" else codes "times" };

    fn text() -> &'static str {
        nano_schema::name_of!(I, 0 => "text", _ => "times")
    }
}

type EventSayParts = (
    Required<EventSayNames<0>, String>,
    Required<EventSayNames<1>, u32>,
);

type EventVariants3 = Variant<EventNames<2>, Struct<EventSayParts>>;

type EventVariants2 = (
    Variant<EventNames<1>, Tuple<EventMoveParts>>,
    EventVariants3,
);

type EventVariants = (Variant<EventNames<0>, Unit>, EventVariants2);

type EventValues3 = (String, u32);

type EventValues2 = Either<(u32, String), EventValues3>;

type EventValues = Either<(), EventValues2>;

type EventRefs3<'a> = (&'a String, &'a u32);

type EventRefs2<'a> = Either<(&'a u32, &'a String), EventRefs3<'a>>;

type EventRefs<'a> = Either<(), EventRefs2<'a>>;

impl EnumSchema for Event {
    ghost use Rattle.test_types.specs.declared.event.Event.TheVariants.{Stop, Move, Say};

    type Values = EventValues;

    ghost view = { λ x. elim x [
      | Stop ↦ First tt
      | Move v0 v1 ↦ Later (First (v0, v1))
      | Say v0 v1 ↦ Later (Later (v0, v1))
    ] };

    fn make(values: Self::Values) -> Self {
        let later = match values {
            Either::First(values) => {
                let () = values;
                return Self::Stop;
            }
            Either::Later(later) => later,
        };
        let later = match later {
            Either::First(values) => {
                let (first, second) = values;
                return Self::Move(first, second);
            }
            Either::Later(later) => later,
        };
        let (text, times) = later;
        Self::Say { text, times }
    }
}

impl<'a> VariantRefs<'a> for Event {
    type Refs = EventRefs<'a>;

    ghost values = { ⟦<EventVariants as BorrowedChoices<'a>>⟧.values };

    fn as_refs(&'a self) -> Self::Refs {
        match self {
            Self::Stop => {
                let refs = ();
                Either::First(refs)
            }
            Self::Move(first, second) => {
                let refs = (first, second);
                Either::Later(Either::First(refs))
            }
            Self::Say { text, times } => {
                let refs = (text, times);
                Either::Later(Either::Later(refs))
            }
        }
    }
}

impl Value for Event {
    ghost means = { λ x. ⟦<EventVariants as Choices>⟧.means 0 (⟦<Event as EnumSchema>⟧.view x) };

    ghost legal = { LegalVariant ⟦<EventVariants as Choices>⟧.legals };

    fn known(&self) {
        nano_schema::known_variant::<Self, EventVariants>(self);
    }
}

impl BinCodec for Event {
    ghost bin = { bin_choice ⟦<Event as EnumSchema>⟧.view ⟦<EventVariants as BinShapes>⟧.chosen
        refl };

    ghost agrees = { agreed };
}

impl SerBin for Event {
    fn ser_bin(&self, alloc: Global, output: &mut Vec<u8>) -> Result<(), AllocError> {
        nano_bin_schema::write_choice_bin::<Self, EventVariants>(self, alloc, output)
    }
}

impl DeBin for Event {
    ghost is_decodable = { refl };

    fn de_bin(alloc: Global, offset: &mut usize, bytes: &[u8]) -> Result<Self, DeBinErr> {
        nano_bin_schema::read_choice_bin::<Self, EventVariants>(alloc, offset, bytes)
    }
}

impl JsonCodec for Event {
    ghost json = { json_choice ⟦<Event as EnumSchema>⟧.view ⟦<EventVariants as JsonShapes>⟧.codec
        refl refl refl };

    ghost agrees = { agreed };
}

impl SerJson for Event {
    fn ser_json(&self, alloc: Global, d: usize, s: &mut SerJsonState) -> Result<(), AllocError> {
        nano_json_schema::write_choice_json::<Self, EventVariants>(self, alloc, d, s)
    }
}

impl DeJson for Event {
    fn de_json(alloc: Global, state: &mut DeJsonState, input: &mut Chars<'_>) -> JsonResult<Self> {
        nano_json_schema::read_choice_json::<Self, EventVariants>(alloc, state, input)
    }
}

impl RonCodec for Event {
    ghost ron = { ron_choice ⟦<Event as EnumSchema>⟧.view ⟦<EventVariants as RonShapes>⟧.codec
        refl refl refl };

    ghost agrees = { agreed };
}

impl SerRon for Event {
    fn ser_ron(&self, alloc: Global, d: usize, s: &mut SerRonState) -> Result<(), AllocError> {
        nano_ron_schema::write_choice_ron::<Self, EventVariants>(self, alloc, d, s)
    }
}

impl DeRon for Event {
    fn de_ron(alloc: Global, state: &mut DeRonState, input: &mut Chars<'_>) -> RonResult<Self> {
        nano_ron_schema::read_choice_ron::<Self, EventVariants>(alloc, state, input)
    }
}
