//! Written by derive_files: how the types of the module above are encoded.

ghost use Rattle.std.specs.Prelude.{codes, ◌==◌, if◌then◌else◌, ◌≡◌, refl};
ghost use Rattle.nano_bin_schema.specs.Structs.{bin_of, both_are_read};
ghost use Rattle.nano_schema.specs.UserTypes.{agreed, seen_agrees, pair_agrees, option_agrees};
ghost use Rattle.nano_schema.specs.UserTypes.{list_agrees};
ghost use Rattle.nano_json_schema.specs.Structs.{json_of};
ghost use Rattle.nano_ron_schema.specs.Structs.{ron_of};

use super::*;
use nano_bin_schema::{BinCodec, BinShape, DeBin, DeBinErr, SerBin};
use nano_json_schema::{
    DeJson, DeJsonState, JsonCodec, JsonResult, JsonShape, Place, SerJson, SerJsonState,
};
use nano_ron_schema::{DeRon, DeRonState, RonCodec, RonResult, RonShape, SerRon, SerRonState};
use nano_schema::{
    Borrowed, DefaultU32, Defaulted, FieldRefs, Label, Optional, Required, Shape, StructSchema,
    Value,
};
use std::alloc::{AllocError, Global};
use std::str::Chars;

pub struct TaggedNames<const I: usize> {}

impl<const I: usize> Label for TaggedNames<I> {
    ghost label = { if I == 0 then codes "first" else if I == 1 then codes "other"
        else if I == 2 then codes "more" else codes "times" };

    fn text() -> &'static str {
        nano_schema::name_of!(I, 0 => "first", 1 => "other", 2 => "more", _ => "times")
    }
}

type TaggedFields<A, B> = (
    (Required<TaggedNames<0>, A>, Optional<TaggedNames<1>, B>),
    (
        Required<TaggedNames<2>, Vec<A>>,
        Defaulted<TaggedNames<3>, u32, DefaultU32<1>>,
    ),
);

impl<A: Value, B: Value> StructSchema for Tagged<A, B> {
    type Values = <TaggedFields<A, B> as Shape>::Values;

    ghost view = { λ x. ((x.first, x.second), (x.more, x.times)) };

    fn make(values: Self::Values) -> Self
        ensures seen { ⟦<Tagged<A, B> as StructSchema>⟧.view result ≡ values }
        ensures skipped { ⟦<u64 as std::default::Default>⟧.is_default result.hits }
    {
        let ((first, second), (more, times)) = values;
        Tagged {
            first,
            second,
            more,
            hits: std::default::Default::default(),
            times,
        }
    }
}

impl<'a, A: Value + 'a, B: Value + 'a> FieldRefs<'a> for Tagged<A, B> {
    type Refs = <TaggedFields<A, B> as Borrowed<'a>>::Refs;

    ghost values = { ⟦<TaggedFields<A, B> as Borrowed<'a>>⟧.values };

    fn as_refs(&'a self) -> Self::Refs {
        ((&self.first, &self.second), (&self.more, &self.times))
    }
}

impl<A: Value, B: Value> Value for Tagged<A, B> {
    ghost means = { λ x. ⟦<TaggedFields<A, B> as Shape>⟧.means
        (⟦<Tagged<A, B> as StructSchema>⟧.view x) };

    ghost legal = { ⟦<TaggedFields<A, B> as Shape>⟧.legal };

    fn known(&self) {
        nano_schema::known_record::<Self, TaggedFields<A, B>>(self);
    }
}

impl<A: BinCodec, B: BinCodec> BinCodec for Tagged<A, B> {
    ghost bin = { bin_of ⟦<Tagged<A, B> as StructSchema>⟧.view
        ⟦<TaggedFields<A, B> as BinShape>⟧.codec };

    ghost agrees = { seen_agrees (pair_agrees (pair_agrees A.agrees (option_agrees B.agrees))
        (pair_agrees (seen_agrees (list_agrees A.agrees) (λ x. x.items)) (agreed {means =
        ⟦<u32 as Value>⟧.means} {legal = ⟦<u32 as Value>⟧.legal})))
        ⟦<Tagged<A, B> as StructSchema>⟧.view };
}

impl<A: SerBin, B: SerBin> SerBin for Tagged<A, B> {
    fn ser_bin(&self, alloc: Global, output: &mut Vec<u8>) -> Result<(), AllocError> {
        nano_bin_schema::write_record_bin::<Self, TaggedFields<A, B>>(self, alloc, output)
    }
}

impl<A: DeBin, B: DeBin> DeBin for Tagged<A, B> {
    ghost is_decodable = { (both_are_read (both_are_read A.is_decodable B.is_decodable)
        (both_are_read A.is_decodable refl)) };

    fn de_bin(alloc: Global, offset: &mut usize, bytes: &[u8]) -> Result<Self, DeBinErr> {
        nano_bin_schema::read_record_bin::<Self, TaggedFields<A, B>>(alloc, offset, bytes)
    }
}

impl<A: JsonCodec, B: JsonCodec> JsonCodec for Tagged<A, B> {
    ghost json = { json_of ⟦<Tagged<A, B> as StructSchema>⟧.view
        ⟦<TaggedFields<A, B> as JsonShape>⟧.codec refl };

    ghost agrees = { seen_agrees (pair_agrees (pair_agrees A.agrees (option_agrees B.agrees))
        (pair_agrees (seen_agrees (list_agrees A.agrees) (λ x. x.items)) (agreed {means =
        ⟦<u32 as Value>⟧.means} {legal = ⟦<u32 as Value>⟧.legal})))
        ⟦<Tagged<A, B> as StructSchema>⟧.view };
}

impl<A: SerJson, B: SerJson> SerJson for Tagged<A, B> {
    fn ser_json(&self, alloc: Global, d: usize, s: &mut SerJsonState) -> Result<(), AllocError> {
        nano_json_schema::write_record_json::<Self, TaggedFields<A, B>>(self, alloc, d, s)
    }
}

impl<A: DeJson, B: DeJson> DeJson for Tagged<A, B> {
    fn de_json(alloc: Global, state: &mut DeJsonState, input: &mut Chars<'_>) -> JsonResult<Self> {
        nano_json_schema::read_record_json::<Self, TaggedFields<A, B>>(alloc, state, input)
    }

    fn de_json_plain(
        alloc: Global,
        place: &mut Place,
        input: &mut Chars<'_>,
        text: &mut String,
    ) -> Option<Self> {
        nano_json_schema::take_record_json::<Self, TaggedFields<A, B>>(alloc, place, input, text)
    }
}

impl<A: RonCodec, B: RonCodec> RonCodec for Tagged<A, B> {
    ghost ron = { ron_of ⟦<Tagged<A, B> as StructSchema>⟧.view
        ⟦<TaggedFields<A, B> as RonShape>⟧.codec refl };

    ghost agrees = { seen_agrees (pair_agrees (pair_agrees A.agrees (option_agrees B.agrees))
        (pair_agrees (seen_agrees (list_agrees A.agrees) (λ x. x.items)) (agreed {means =
        ⟦<u32 as Value>⟧.means} {legal = ⟦<u32 as Value>⟧.legal})))
        ⟦<Tagged<A, B> as StructSchema>⟧.view };
}

impl<A: SerRon, B: SerRon> SerRon for Tagged<A, B> {
    fn ser_ron(&self, alloc: Global, d: usize, s: &mut SerRonState) -> Result<(), AllocError> {
        nano_ron_schema::write_record_ron::<Self, TaggedFields<A, B>>(self, alloc, d, s)
    }
}

impl<A: DeRon, B: DeRon> DeRon for Tagged<A, B> {
    fn de_ron(alloc: Global, state: &mut DeRonState, input: &mut Chars<'_>) -> RonResult<Self> {
        nano_ron_schema::read_record_ron::<Self, TaggedFields<A, B>>(alloc, state, input)
    }
}
