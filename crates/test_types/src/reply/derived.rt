//! Written by derive_files: how the types of the module above are encoded.

ghost use Rattle.std.specs.Prelude.{codes, ◌==◌, if◌then◌else◌, refl};
ghost use Rattle.nano_schema.specs.declared.choices.Either.TheVariants.{First, Later};
ghost use Rattle.nano_schema.specs.UserTypes.{LegalVariant, agreed, seen_agrees, pair_agrees};
ghost use Rattle.nano_schema.specs.UserTypes.{option_agrees, list_agrees, last_agrees, next_agrees};
ghost use Rattle.nano_schema.specs.UserTypes.{choice_agrees};
ghost use Rattle.nano_bin_schema.specs.Enums.{bin_choice};
ghost use Rattle.nano_bin_schema.specs.Structs.{both_are_read};
ghost use Rattle.nano_json_schema.specs.Enums.{json_choice};
ghost use Rattle.nano_ron_schema.specs.Enums.{ron_choice};

use super::*;
use nano_bin_schema::{BinCodec, BinShapes, DeBin, DeBinErr, SerBin};
use nano_json_schema::{
    DeJson, DeJsonState, JsonCodec, JsonResult, JsonShapes, SerJson, SerJsonState,
};
use nano_ron_schema::{DeRon, DeRonState, RonCodec, RonResult, RonShapes, SerRon, SerRonState};
use nano_schema::{
    BorrowedChoices, Choices, Either, EnumSchema, Label, Newtype, Optional, Required, Struct,
    Tuple, Value, Variant, VariantRefs,
};
use std::alloc::{AllocError, Global};
use std::str::Chars;

pub struct ReplyNames<const I: usize> {}

impl<const I: usize> Label for ReplyNames<I> {
    ghost label = { if I == 0 then codes "Found" else if I == 1 then codes "Failed"
        else codes "Listed" };

    fn text() -> &'static str {
        nano_schema::name_of!(I, 0 => "Found", 1 => "Failed", _ => "Listed")
    }
}

type ReplyFoundParts<A> = A;

type ReplyFailedParts<B> = (B, u32);

pub struct ReplyListedNames<const I: usize> {}

impl<const I: usize> Label for ReplyListedNames<I> {
    ghost label = { if I == 0 then codes "items" else codes "next" };

    fn text() -> &'static str {
        nano_schema::name_of!(I, 0 => "items", _ => "next")
    }
}

type ReplyListedParts<A, B> = (
    Required<ReplyListedNames<0>, Vec<A>>,
    Optional<ReplyListedNames<1>, B>,
);

type ReplyVariants3<A, B> = Variant<ReplyNames<2>, Struct<ReplyListedParts<A, B>>>;

type ReplyVariants2<A, B> = (
    Variant<ReplyNames<1>, Tuple<ReplyFailedParts<B>>>,
    ReplyVariants3<A, B>,
);

type ReplyVariants<A, B> = (
    Variant<ReplyNames<0>, Newtype<ReplyFoundParts<A>>>,
    ReplyVariants2<A, B>,
);

type ReplyValues3<A, B> = (Vec<A>, Option<B>);

type ReplyValues2<A, B> = Either<(B, u32), ReplyValues3<A, B>>;

type ReplyValues<A, B> = Either<A, ReplyValues2<A, B>>;

type ReplyRefs3<'a, A, B> = (&'a Vec<A>, &'a Option<B>);

type ReplyRefs2<'a, A, B> = Either<(&'a B, &'a u32), ReplyRefs3<'a, A, B>>;

type ReplyRefs<'a, A, B> = Either<&'a A, ReplyRefs2<'a, A, B>>;

impl<A: Value, B: Value> EnumSchema for Reply<A, B> {
    ghost use Rattle.test_types.specs.declared.reply.Reply.TheVariants.{Found, Failed, Listed};

    type Values = ReplyValues<A, B>;

    ghost view = { λ x. elim x [
      | Found v0 ↦ First v0
      | Failed v0 v1 ↦ Later (First (v0, v1))
      | Listed v0 v1 ↦ Later (Later (v0, v1))
    ] };

    fn make(values: Self::Values) -> Self {
        let later = match values {
            Either::First(values) => {
                let first = values;
                return Self::Found(first);
            }
            Either::Later(later) => later,
        };
        let later = match later {
            Either::First(values) => {
                let (first, second) = values;
                return Self::Failed(first, second);
            }
            Either::Later(later) => later,
        };
        let (items, next) = later;
        Self::Listed { items, next }
    }
}

impl<'a, A: Value + 'a, B: Value + 'a> VariantRefs<'a> for Reply<A, B> {
    type Refs = ReplyRefs<'a, A, B>;

    ghost values = { ⟦<ReplyVariants<A, B> as BorrowedChoices<'a>>⟧.values };

    fn as_refs(&'a self) -> Self::Refs {
        match self {
            Self::Found(first) => {
                let refs = first;
                Either::First(refs)
            }
            Self::Failed(first, second) => {
                let refs = (first, second);
                Either::Later(Either::First(refs))
            }
            Self::Listed { items, next } => {
                let refs = (items, next);
                Either::Later(Either::Later(refs))
            }
        }
    }
}

impl<A: Value, B: Value> Value for Reply<A, B> {
    ghost means = { λ x. ⟦<ReplyVariants<A, B> as Choices>⟧.means 0
        (⟦<Reply<A, B> as EnumSchema>⟧.view x) };

    ghost legal = { LegalVariant ⟦<ReplyVariants<A, B> as Choices>⟧.legals };

    fn known(&self) {
        nano_schema::known_variant::<Self, ReplyVariants<A, B>>(self);
    }
}

impl<A: BinCodec, B: BinCodec> BinCodec for Reply<A, B> {
    ghost bin = { bin_choice ⟦<Reply<A, B> as EnumSchema>⟧.view
        ⟦<ReplyVariants<A, B> as BinShapes>⟧.chosen refl };

    ghost agrees = { choice_agrees (next_agrees A.agrees (next_agrees (seen_agrees (pair_agrees
        B.agrees (agreed {means = ⟦<u32 as Value>⟧.means} {legal = ⟦<u32 as Value>⟧.legal})) (λ
        x. (x.0, x.1))) (last_agrees (pair_agrees (seen_agrees (list_agrees A.agrees) (λ x.
        x.items)) (option_agrees B.agrees))))) ⟦<Reply<A, B> as EnumSchema>⟧.view };
}

impl<A: SerBin, B: SerBin> SerBin for Reply<A, B> {
    fn ser_bin(&self, alloc: Global, output: &mut Vec<u8>) -> Result<(), AllocError> {
        nano_bin_schema::write_choice_bin::<Self, ReplyVariants<A, B>>(self, alloc, output)
    }
}

impl<A: DeBin, B: DeBin> DeBin for Reply<A, B> {
    ghost is_decodable = { (both_are_read A.is_decodable (both_are_read (both_are_read
        B.is_decodable refl) (both_are_read (both_are_read A.is_decodable B.is_decodable) refl))) };

    fn de_bin(alloc: Global, offset: &mut usize, bytes: &[u8]) -> Result<Self, DeBinErr> {
        nano_bin_schema::read_choice_bin::<Self, ReplyVariants<A, B>>(alloc, offset, bytes)
    }
}

impl<A: JsonCodec, B: JsonCodec> JsonCodec for Reply<A, B> {
    ghost json = { json_choice ⟦<Reply<A, B> as EnumSchema>⟧.view
        ⟦<ReplyVariants<A, B> as JsonShapes>⟧.codec refl refl refl };

    ghost agrees = { choice_agrees (next_agrees A.agrees (next_agrees (seen_agrees (pair_agrees
        B.agrees (agreed {means = ⟦<u32 as Value>⟧.means} {legal = ⟦<u32 as Value>⟧.legal})) (λ
        x. (x.0, x.1))) (last_agrees (pair_agrees (seen_agrees (list_agrees A.agrees) (λ x.
        x.items)) (option_agrees B.agrees))))) ⟦<Reply<A, B> as EnumSchema>⟧.view };
}

impl<A: SerJson, B: SerJson> SerJson for Reply<A, B> {
    fn ser_json(&self, alloc: Global, d: usize, s: &mut SerJsonState) -> Result<(), AllocError> {
        nano_json_schema::write_choice_json::<Self, ReplyVariants<A, B>>(self, alloc, d, s)
    }
}

impl<A: DeJson, B: DeJson> DeJson for Reply<A, B> {
    fn de_json(alloc: Global, state: &mut DeJsonState, input: &mut Chars<'_>) -> JsonResult<Self> {
        nano_json_schema::read_choice_json::<Self, ReplyVariants<A, B>>(alloc, state, input)
    }
}

impl<A: RonCodec, B: RonCodec> RonCodec for Reply<A, B> {
    ghost ron = { ron_choice ⟦<Reply<A, B> as EnumSchema>⟧.view
        ⟦<ReplyVariants<A, B> as RonShapes>⟧.codec refl refl refl };

    ghost agrees = { choice_agrees (next_agrees A.agrees (next_agrees (seen_agrees (pair_agrees
        B.agrees (agreed {means = ⟦<u32 as Value>⟧.means} {legal = ⟦<u32 as Value>⟧.legal})) (λ
        x. (x.0, x.1))) (last_agrees (pair_agrees (seen_agrees (list_agrees A.agrees) (λ x.
        x.items)) (option_agrees B.agrees))))) ⟦<Reply<A, B> as EnumSchema>⟧.view };
}

impl<A: SerRon, B: SerRon> SerRon for Reply<A, B> {
    fn ser_ron(&self, alloc: Global, d: usize, s: &mut SerRonState) -> Result<(), AllocError> {
        nano_ron_schema::write_choice_ron::<Self, ReplyVariants<A, B>>(self, alloc, d, s)
    }
}

impl<A: DeRon, B: DeRon> DeRon for Reply<A, B> {
    fn de_ron(alloc: Global, state: &mut DeRonState, input: &mut Chars<'_>) -> RonResult<Self> {
        nano_ron_schema::read_choice_ron::<Self, ReplyVariants<A, B>>(alloc, state, input)
    }
}
