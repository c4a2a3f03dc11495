//! Written by derive_files: how the types of the module above are encoded.

ghost use Rattle.std.specs.Prelude.{codes, ◌==◌, if◌then◌else◌, refl};
ghost use Rattle.nano_schema.specs.declared.choices.Either.TheVariants.{First, Later};
ghost use Rattle.nano_schema.specs.UserTypes.{LegalVariant, agreed};
ghost use Rattle.nano_json_schema.specs.Enums.{json_choice};

use super::*;
use nano_json_schema::{
    DeJson, DeJsonState, JsonCodec, JsonResult, JsonShapes, SerJson, SerJsonState,
};
use nano_schema::{
    BorrowedChoices, Choices, Either, EnumSchema, Label, Optional, Required, Struct, Value,
    Variant, VariantRefs,
};
use std::alloc::{AllocError, Global};
use std::str::Chars;

pub struct EventNames<const I: usize> {}

impl<const I: usize> Label for EventNames<I> {
    ghost label = { if I == 0 then codes "Opened" else if I == 1 then codes "PaidIn"
        else codes "PaidOut" };

    fn text() -> &'static str {
        nano_schema::name_of!(I, 0 => "Opened", 1 => "PaidIn", _ => "PaidOut")
    }
}

pub struct EventOpenedName {}

impl Label for EventOpenedName {
    ghost label = { codes "account" };

    fn text() -> &'static str {
        "account"
    }
}

type EventOpenedParts = Required<EventOpenedName, String>;

pub struct EventPaidInNames<const I: usize> {}

impl<const I: usize> Label for EventPaidInNames<I> {
    ghost label = { if I == 0 then codes "account" else codes "cents" };

    fn text() -> &'static str {
        nano_schema::name_of!(I, 0 => "account", _ => "cents")
    }
}

type EventPaidInParts = (
    Required<EventPaidInNames<0>, String>,
    Required<EventPaidInNames<1>, u64>,
);

pub struct EventPaidOutNames<const I: usize> {}

impl<const I: usize> Label for EventPaidOutNames<I> {
    ghost label = { if I == 0 then codes "account" else if I == 1 then codes "cents"
        else codes "note" };

    fn text() -> &'static str {
        nano_schema::name_of!(I, 0 => "account", 1 => "cents", _ => "note")
    }
}

type EventPaidOutParts = (
    Required<EventPaidOutNames<0>, String>,
    (
        Required<EventPaidOutNames<1>, u64>,
        Optional<EventPaidOutNames<2>, String>,
    ),
);

type EventVariants3 = Variant<EventNames<2>, Struct<EventPaidOutParts>>;

type EventVariants2 = (
    Variant<EventNames<1>, Struct<EventPaidInParts>>,
    EventVariants3,
);

type EventVariants = (
    Variant<EventNames<0>, Struct<EventOpenedParts>>,
    EventVariants2,
);

type EventValues3 = (String, (u64, Option<String>));

type EventValues2 = Either<(String, u64), EventValues3>;

type EventValues = Either<String, EventValues2>;

type EventRefs3<'a> = (&'a String, (&'a u64, &'a Option<String>));

type EventRefs2<'a> = Either<(&'a String, &'a u64), EventRefs3<'a>>;

type EventRefs<'a> = Either<&'a String, EventRefs2<'a>>;

impl EnumSchema for Event {
    ghost use Rattle.example_events.specs.declared.event.Event.TheVariants.{Opened, PaidIn};
    ghost use Rattle.example_events.specs.declared.event.Event.TheVariants.{PaidOut};

    type Values = EventValues;

    ghost view = { λ x. elim x [
      | Opened v0 ↦ First v0
      | PaidIn v0 v1 ↦ Later (First (v0, v1))
      | PaidOut v0 v1 v2 ↦ Later (Later (v0, (v1, v2)))
    ] };

    fn make(values: Self::Values) -> Self {
        let later = match values {
            Either::First(values) => {
                let account = values;
                return Self::Opened { account };
            }
            Either::Later(later) => later,
        };
        let later = match later {
            Either::First(values) => {
                let (account, cents) = values;
                return Self::PaidIn { account, cents };
            }
            Either::Later(later) => later,
        };
        let (account, (cents, note)) = later;
        Self::PaidOut {
            account,
            cents,
            note,
        }
    }
}

impl<'a> VariantRefs<'a> for Event {
    type Refs = EventRefs<'a>;

    ghost values = { ⟦<EventVariants as BorrowedChoices<'a>>⟧.values };

    fn as_refs(&'a self) -> Self::Refs {
        match self {
            Self::Opened { account } => {
                let refs = account;
                Either::First(refs)
            }
            Self::PaidIn { account, cents } => {
                let refs = (account, cents);
                Either::Later(Either::First(refs))
            }
            Self::PaidOut {
                account,
                cents,
                note,
            } => {
                let refs = (account, (cents, note));
                Either::Later(Either::Later(refs))
            }
        }
    }
}

impl Value for Event {
    ghost means = { λ x. ⟦<EventVariants as Choices>⟧.means 0 (⟦<Event as EnumSchema>⟧.view x) };

    ghost legal = { LegalVariant ⟦<EventVariants as Choices>⟧.legals };

    fn known(&self) {
        nano_schema::known_variant::<Self, EventVariants>(self);
    }
}

impl JsonCodec for Event {
    ghost json = { json_choice ⟦<Event as EnumSchema>⟧.view ⟦<EventVariants as JsonShapes>⟧.codec
        refl refl refl };

    ghost agrees = { agreed };
}

impl SerJson for Event {
    fn ser_json(&self, alloc: Global, d: usize, s: &mut SerJsonState) -> Result<(), AllocError> {
        nano_json_schema::write_choice_json::<Self, EventVariants>(self, alloc, d, s)
    }
}

impl DeJson for Event {
    fn de_json(alloc: Global, state: &mut DeJsonState, input: &mut Chars<'_>) -> JsonResult<Self> {
        nano_json_schema::read_choice_json::<Self, EventVariants>(alloc, state, input)
    }
}
