//! Written by derive_files: how the types of the module above are encoded.

ghost use Rattle.std.specs.Prelude.{codes, ◌==◌, if◌then◌else◌, ⊤, ◌≡◌, refl};
ghost use Rattle.nano_schema.specs.declared.choices.Either.TheVariants.{First, Later};
ghost use Rattle.nano_schema.specs.UserTypes.{LegalVariant, agreed};
ghost use Rattle.nano_bin_schema.specs.Enums.{bin_choice};
ghost use Rattle.nano_json_schema.specs.Enums.{json_choice};
ghost use Rattle.nano_ron_schema.specs.Enums.{ron_choice};

use super::*;
use nano_bin_schema::{BinCodec, BinShapes, DeBin, DeBinErr, SerBin};
use nano_json_schema::{
    DeJson, DeJsonState, JsonCodec, JsonResult, JsonShapes, SerJson, SerJsonState,
};
use nano_ron_schema::{DeRon, DeRonState, RonCodec, RonResult, RonShapes, SerRon, SerRonState};
use nano_schema::{
    BorrowedChoices, Choices, DefaultU32, Defaulted, Either, EnumSchema, Label, Required, Struct,
    Tuple, Unit, Value, Variant, VariantRefs,
};
use std::alloc::{AllocError, Global};
use std::str::Chars;

pub struct NoticeNames<const I: usize> {}

impl<const I: usize> Label for NoticeNames<I> {
    ghost label = { if I == 0 then codes "gone" else if I == 1 then codes "Move"
        else codes "said" };

    fn text() -> &'static str {
        nano_schema::name_of!(I, 0 => "gone", 1 => "Move", _ => "said")
    }
}

type NoticeMoveParts = (i32, String);

pub struct NoticeSayNames<const I: usize> {}

impl<const I: usize> Label for NoticeSayNames<I> {
    ghost label = { if I == 0 then codes "text" else codes "times" };

    fn text() -> &'static str {
        nano_schema::name_of!(I, 0 => "text", _ => "times")
    }
}

type NoticeSayParts = (
    Required<NoticeSayNames<0>, String>,
    Defaulted<NoticeSayNames<1>, u32, DefaultU32<1>>,
);

type NoticeVariants3 = Variant<NoticeNames<2>, Struct<NoticeSayParts>>;

type NoticeVariants2 = (
    Variant<NoticeNames<1>, Tuple<NoticeMoveParts>>,
    NoticeVariants3,
);

type NoticeVariants = (Variant<NoticeNames<0>, Unit>, NoticeVariants2);

type NoticeValues3 = (String, u32);

type NoticeValues2 = Either<(i32, String), NoticeValues3>;

type NoticeValues = Either<(), NoticeValues2>;

type NoticeRefs3<'a> = (&'a String, &'a u32);

type NoticeRefs2<'a> = Either<(&'a i32, &'a String), NoticeRefs3<'a>>;

type NoticeRefs<'a> = Either<(), NoticeRefs2<'a>>;

impl EnumSchema for Notice {
    ghost use Rattle.test_types.specs.declared.notice.Notice.TheVariants.{Stop, Move, Say};

    type Values = NoticeValues;

    ghost view = { λ x. elim x [
      | Stop ↦ First tt
      | Move v0 v1 ↦ Later (First (v0, v1))
      | Say v0 v1 v2 ↦ Later (Later (v0, v1))
    ] };

    fn make(values: Self::Values) -> Self
        ensures seen { ⟦<Notice as EnumSchema>⟧.view result ≡ values }
        ensures skipped { elim result [
          | Say v0 v1 v2 ↦ v2 ≡ 7
          | _ ↦ ⊤
        ] }
    {
        let later = match values {
            Either::First(values) => {
                let () = values;
                return Self::Stop;
            }
            Either::Later(later) => later,
        };
        let later = match later {
            Either::First(values) => {
                let (first, second) = values;
                return Self::Move(first, second);
            }
            Either::Later(later) => later,
        };
        let (text, times) = later;
        Self::Say {
            text,
            times,
            heard: 7,
        }
    }
}

impl<'a> VariantRefs<'a> for Notice {
    type Refs = NoticeRefs<'a>;

    ghost values = { ⟦<NoticeVariants as BorrowedChoices<'a>>⟧.values };

    fn as_refs(&'a self) -> Self::Refs {
        match self {
            Self::Stop => {
                let refs = ();
                Either::First(refs)
            }
            Self::Move(first, second) => {
                let refs = (first, second);
                Either::Later(Either::First(refs))
            }
            Self::Say {
                text,
                times,
                heard: _,
            } => {
                let refs = (text, times);
                Either::Later(Either::Later(refs))
            }
        }
    }
}

impl Value for Notice {
    ghost means = { λ x. ⟦<NoticeVariants as Choices>⟧.means 0 (⟦<Notice as EnumSchema>⟧.view x) };

    ghost legal = { LegalVariant ⟦<NoticeVariants as Choices>⟧.legals };

    fn known(&self) {
        nano_schema::known_variant::<Self, NoticeVariants>(self);
    }
}

impl BinCodec for Notice {
    ghost bin = { bin_choice ⟦<Notice as EnumSchema>⟧.view ⟦<NoticeVariants as BinShapes>⟧.chosen
        refl };

    ghost agrees = { agreed };
}

impl SerBin for Notice {
    fn ser_bin(&self, alloc: Global, output: &mut Vec<u8>) -> Result<(), AllocError> {
        nano_bin_schema::write_choice_bin::<Self, NoticeVariants>(self, alloc, output)
    }
}

impl DeBin for Notice {
    ghost is_decodable = { refl };

    fn de_bin(alloc: Global, offset: &mut usize, bytes: &[u8]) -> Result<Self, DeBinErr> {
        nano_bin_schema::read_choice_bin::<Self, NoticeVariants>(alloc, offset, bytes)
    }
}

impl JsonCodec for Notice {
    ghost json = { json_choice ⟦<Notice as EnumSchema>⟧.view
        ⟦<NoticeVariants as JsonShapes>⟧.codec refl refl refl };

    ghost agrees = { agreed };
}

impl SerJson for Notice {
    fn ser_json(&self, alloc: Global, d: usize, s: &mut SerJsonState) -> Result<(), AllocError> {
        nano_json_schema::write_choice_json::<Self, NoticeVariants>(self, alloc, d, s)
    }
}

impl DeJson for Notice {
    fn de_json(alloc: Global, state: &mut DeJsonState, input: &mut Chars<'_>) -> JsonResult<Self> {
        nano_json_schema::read_choice_json::<Self, NoticeVariants>(alloc, state, input)
    }
}

impl RonCodec for Notice {
    ghost ron = { ron_choice ⟦<Notice as EnumSchema>⟧.view ⟦<NoticeVariants as RonShapes>⟧.codec
        refl refl refl };

    ghost agrees = { agreed };
}

impl SerRon for Notice {
    fn ser_ron(&self, alloc: Global, d: usize, s: &mut SerRonState) -> Result<(), AllocError> {
        nano_ron_schema::write_choice_ron::<Self, NoticeVariants>(self, alloc, d, s)
    }
}

impl DeRon for Notice {
    fn de_ron(alloc: Global, state: &mut DeRonState, input: &mut Chars<'_>) -> RonResult<Self> {
        nano_ron_schema::read_choice_ron::<Self, NoticeVariants>(alloc, state, input)
    }
}
