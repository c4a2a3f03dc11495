//! Written by derive_files: how the types of the module above are encoded.

ghost use Rattle.std.specs.Prelude.{codes, ◌==◌, if◌then◌else◌, refl};
ghost use Rattle.nano_schema.specs.declared.choices.Either.TheVariants.{First, Later};
ghost use Rattle.nano_schema.specs.UserTypes.{LegalVariant, agreed};
ghost use Rattle.nano_bin_schema.specs.Enums.{bin_choice};

use super::*;
use nano_bin_schema::{BinCodec, BinShapes, DeBin, DeBinErr, SerBin};
use nano_schema::{
    BorrowedChoices, Choices, Either, EnumSchema, Label, Required, Struct, Tuple, Unit, Value,
    Variant, VariantRefs,
};
use std::alloc::{AllocError, Global};

pub struct MessageNames<const I: usize> {}

impl<const I: usize> Label for MessageNames<I> {
    ghost label = { if I == 0 then codes "Leave" else if I == 1 then codes "Move"
        else codes "Say" };

    fn text() -> &'static str {
        nano_schema::name_of!(I, 0 => "Leave", 1 => "Move", _ => "Say")
    }
}

type MessageMoveParts = (u32, Vec<i16>);

pub struct MessageSayNames<const I: usize> {}

impl<const I: usize> Label for MessageSayNames<I> {
    ghost label = { if I == 0 then codes "text" else codes "to" };

    fn text() -> &'static str {
        nano_schema::name_of!(I, 0 => "text", _ => "to")
    }
}

type MessageSayParts = (
    Required<MessageSayNames<0>, String>,
    Required<MessageSayNames<1>, HashMap<String, u32>>,
);

type MessageVariants3 = Variant<MessageNames<2>, Struct<MessageSayParts>>;

type MessageVariants2 = (
    Variant<MessageNames<1>, Tuple<MessageMoveParts>>,
    MessageVariants3,
);

type MessageVariants = (Variant<MessageNames<0>, Unit>, MessageVariants2);

type MessageValues3 = (String, HashMap<String, u32>);

type MessageValues2 = Either<(u32, Vec<i16>), MessageValues3>;

type MessageValues = Either<(), MessageValues2>;

type MessageRefs3<'a> = (&'a String, &'a HashMap<String, u32>);

type MessageRefs2<'a> = Either<(&'a u32, &'a Vec<i16>), MessageRefs3<'a>>;

type MessageRefs<'a> = Either<(), MessageRefs2<'a>>;

impl EnumSchema for Message {
    ghost use Rattle.example_messages.specs.declared.message.Message.TheVariants.{Leave, Move, Say};

    type Values = MessageValues;

    ghost view = { λ x. elim x [
      | Leave ↦ First tt
      | Move v0 v1 ↦ Later (First (v0, v1))
      | Say v0 v1 ↦ Later (Later (v0, v1))
    ] };

    fn make(values: Self::Values) -> Self {
        let later = match values {
            Either::First(values) => {
                let () = values;
                return Self::Leave;
            }
            Either::Later(later) => later,
        };
        let later = match later {
            Either::First(values) => {
                let (first, second) = values;
                return Self::Move(first, second);
            }
            Either::Later(later) => later,
        };
        let (text, to) = later;
        Self::Say { text, to }
    }
}

impl<'a> VariantRefs<'a> for Message {
    type Refs = MessageRefs<'a>;

    ghost values = { ⟦<MessageVariants as BorrowedChoices<'a>>⟧.values };

    fn as_refs(&'a self) -> Self::Refs {
        match self {
            Self::Leave => {
                let refs = ();
                Either::First(refs)
            }
            Self::Move(first, second) => {
                let refs = (first, second);
                Either::Later(Either::First(refs))
            }
            Self::Say { text, to } => {
                let refs = (text, to);
                Either::Later(Either::Later(refs))
            }
        }
    }
}

impl Value for Message {
    ghost means = { λ x. ⟦<MessageVariants as Choices>⟧.means 0 (⟦<Message as EnumSchema>⟧.view
        x) };

    ghost legal = { LegalVariant ⟦<MessageVariants as Choices>⟧.legals };

    fn known(&self) {
        nano_schema::known_variant::<Self, MessageVariants>(self);
    }
}

impl BinCodec for Message {
    ghost bin = { bin_choice ⟦<Message as EnumSchema>⟧.view
        ⟦<MessageVariants as BinShapes>⟧.chosen refl };

    ghost agrees = { agreed };
}

impl SerBin for Message {
    fn ser_bin(&self, alloc: Global, output: &mut Vec<u8>) -> Result<(), AllocError> {
        nano_bin_schema::write_choice_bin::<Self, MessageVariants>(self, alloc, output)
    }
}

impl DeBin for Message {
    ghost is_decodable = { refl };

    fn de_bin(alloc: Global, offset: &mut usize, bytes: &[u8]) -> Result<Self, DeBinErr> {
        nano_bin_schema::read_choice_bin::<Self, MessageVariants>(alloc, offset, bytes)
    }
}
