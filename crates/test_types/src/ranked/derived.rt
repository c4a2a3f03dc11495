//! Written by derive_files: how the types of the module above are encoded.

ghost use Rattle.std.specs.Prelude.{codes, ◌==◌, if◌then◌else◌, refl, ◌≡◌};
ghost use Rattle.nano_bin_schema.specs.Structs.{bin_of, both_are_read};
ghost use Rattle.nano_schema.specs.UserTypes.{agreed, seen_agrees, pair_agrees, option_agrees};
ghost use Rattle.nano_schema.specs.UserTypes.{list_agrees, LegalVariant, last_agrees, next_agrees};
ghost use Rattle.nano_schema.specs.UserTypes.{choice_agrees};
ghost use Rattle.nano_json_schema.specs.Structs.{json_of};
ghost use Rattle.nano_ron_schema.specs.Structs.{ron_of};
ghost use Rattle.nano_schema.specs.declared.choices.Either.TheVariants.{First, Later};
ghost use Rattle.nano_bin_schema.specs.Enums.{bin_choice};
ghost use Rattle.nano_json_schema.specs.Enums.{json_choice};
ghost use Rattle.nano_ron_schema.specs.Enums.{ron_choice};

use super::*;
use nano_bin_schema::{BinCodec, BinShape, BinShapes, DeBin, DeBinErr, SerBin};
use nano_json_schema::{
    DeJson, DeJsonState, JsonCodec, JsonResult, JsonShape, JsonShapes, SerJson, SerJsonState,
};
use nano_ron_schema::{
    DeRon, DeRonState, RonCodec, RonResult, RonShape, RonShapes, SerRon, SerRonState,
};
use nano_schema::{
    Borrowed, BorrowedChoices, Choices, Either, EnumSchema, FieldRefs, Label, Newtype, Required,
    Shape, Struct, StructSchema, Tuple, Value, Variant, VariantRefs,
};
use std::alloc::{AllocError, Global};
use std::str::Chars;

pub struct RankedNames<const I: usize> {}

impl<const I: usize> Label for RankedNames<I> {
    ghost label = { if I == 0 then codes "things" else if I == 1 then codes "others"
        else codes "place" };

    fn text() -> &'static str {
        nano_schema::name_of!(I, 0 => "things", 1 => "others", _ => "place")
    }
}

type RankedFields<T, U> = (
    Required<RankedNames<0>, Vec<Option<Box<T>>>>,
    (
        Required<RankedNames<1>, LinkedList<(U, Box<T>)>>,
        Required<RankedNames<2>, super::super::point::Point>,
    ),
);

impl<T: Value, U: Value> StructSchema for Ranked<T, U>
where
    T: Clone,
    U: Ord,
{
    type Values = <RankedFields<T, U> as Shape>::Values;

    ghost view = { λ x. (x.things, (x.others, x.place)) };

    fn make(values: Self::Values) -> Self {
        let (things, (others, place)) = values;
        Ranked {
            things,
            others,
            place,
        }
    }
}

impl<'a, T: Value + 'a, U: Value + 'a> FieldRefs<'a> for Ranked<T, U>
where
    T: Clone,
    U: Ord,
{
    type Refs = <RankedFields<T, U> as Borrowed<'a>>::Refs;

    ghost values = { ⟦<RankedFields<T, U> as Borrowed<'a>>⟧.values };

    fn as_refs(&'a self) -> Self::Refs {
        (&self.things, (&self.others, &self.place))
    }
}

impl<T: Value, U: Value> Value for Ranked<T, U>
where
    T: Clone,
    U: Ord,
{
    ghost means = { λ x. ⟦<RankedFields<T, U> as Shape>⟧.means
        (⟦<Ranked<T, U> as StructSchema>⟧.view x) };

    ghost legal = { ⟦<RankedFields<T, U> as Shape>⟧.legal };

    fn known(&self) {
        nano_schema::known_record::<Self, RankedFields<T, U>>(self);
    }
}

impl<T: BinCodec, U: BinCodec> BinCodec for Ranked<T, U>
where
    T: Clone,
    U: Ord,
{
    ghost bin = { bin_of ⟦<Ranked<T, U> as StructSchema>⟧.view
        ⟦<RankedFields<T, U> as BinShape>⟧.codec };

    ghost agrees = { seen_agrees (pair_agrees (seen_agrees (list_agrees (option_agrees
        (seen_agrees T.agrees (λ x. x.value)))) (λ x. x.items)) (pair_agrees (list_agrees
        (seen_agrees (pair_agrees U.agrees (seen_agrees T.agrees (λ x. x.value))) (λ x.
        (x.0, x.1)))) (agreed {means = ⟦<super::super::point::Point as Value>⟧.means} {legal =
        ⟦<super::super::point::Point as Value>⟧.legal}))) ⟦<Ranked<T, U> as StructSchema>⟧.view };
}

impl<T: SerBin, U: SerBin> SerBin for Ranked<T, U>
where
    T: Clone,
    U: Ord,
{
    fn ser_bin(&self, alloc: Global, output: &mut Vec<u8>) -> Result<(), AllocError> {
        nano_bin_schema::write_record_bin::<Self, RankedFields<T, U>>(self, alloc, output)
    }
}

/// Does nothing. Its contract says that the codec is of what a value means.
fn means_as_bin<T: BinCodec>(value: &T)
    ensures { T.bin.canonical.means value.now ≡ T.means value.now }
{
    let _value = value;
}

impl<T: DeBin, U: DeBin> DeBin for Ranked<T, U>
where
    T: Clone,
    U: Ord,
{
    ghost is_decodable = { (both_are_read T.is_decodable (both_are_read (both_are_read
        U.is_decodable T.is_decodable) refl)) };

    fn de_bin(alloc: Global, offset: &mut usize, bytes: &[u8]) -> Result<Self, DeBinErr> {
        match nano_bin_schema::read_record_bin::<Self, RankedFields<T, U>>(alloc, offset, bytes) {
            Ok(value) => {
                means_as_bin::<Self>(&value);
                Ok(value)
            }
            Err(error) => Err(error),
        }
    }
}

impl<T: JsonCodec, U: JsonCodec> JsonCodec for Ranked<T, U>
where
    T: Clone,
    U: Ord,
{
    ghost json = { json_of ⟦<Ranked<T, U> as StructSchema>⟧.view
        ⟦<RankedFields<T, U> as JsonShape>⟧.codec refl };

    ghost agrees = { seen_agrees (pair_agrees (seen_agrees (list_agrees (option_agrees
        (seen_agrees T.agrees (λ x. x.value)))) (λ x. x.items)) (pair_agrees (list_agrees
        (seen_agrees (pair_agrees U.agrees (seen_agrees T.agrees (λ x. x.value))) (λ x.
        (x.0, x.1)))) (agreed {means = ⟦<super::super::point::Point as Value>⟧.means} {legal =
        ⟦<super::super::point::Point as Value>⟧.legal}))) ⟦<Ranked<T, U> as StructSchema>⟧.view };
}

impl<T: SerJson, U: SerJson> SerJson for Ranked<T, U>
where
    T: Clone,
    U: Ord,
{
    fn ser_json(&self, alloc: Global, d: usize, s: &mut SerJsonState) -> Result<(), AllocError> {
        nano_json_schema::write_record_json::<Self, RankedFields<T, U>>(self, alloc, d, s)
    }
}

/// Does nothing. Its contract says that the codec is of what a value means.
fn means_as_json<T: JsonCodec>(value: &T)
    ensures { T.json.canonical.means value.now ≡ T.means value.now }
{
    let _value = value;
}

impl<T: DeJson, U: DeJson> DeJson for Ranked<T, U>
where
    T: Clone,
    U: Ord,
{
    fn de_json(alloc: Global, state: &mut DeJsonState, input: &mut Chars<'_>) -> JsonResult<Self> {
        match nano_json_schema::read_record_json::<Self, RankedFields<T, U>>(alloc, state, input) {
            Ok(value) => {
                means_as_json::<Self>(&value);
                Ok(value)
            }
            Err(error) => Err(error),
        }
    }
}

impl<T: RonCodec, U: RonCodec> RonCodec for Ranked<T, U>
where
    T: Clone,
    U: Ord,
{
    ghost ron = { ron_of ⟦<Ranked<T, U> as StructSchema>⟧.view
        ⟦<RankedFields<T, U> as RonShape>⟧.codec refl };

    ghost agrees = { seen_agrees (pair_agrees (seen_agrees (list_agrees (option_agrees
        (seen_agrees T.agrees (λ x. x.value)))) (λ x. x.items)) (pair_agrees (list_agrees
        (seen_agrees (pair_agrees U.agrees (seen_agrees T.agrees (λ x. x.value))) (λ x.
        (x.0, x.1)))) (agreed {means = ⟦<super::super::point::Point as Value>⟧.means} {legal =
        ⟦<super::super::point::Point as Value>⟧.legal}))) ⟦<Ranked<T, U> as StructSchema>⟧.view };
}

impl<T: SerRon, U: SerRon> SerRon for Ranked<T, U>
where
    T: Clone,
    U: Ord,
{
    fn ser_ron(&self, alloc: Global, d: usize, s: &mut SerRonState) -> Result<(), AllocError> {
        nano_ron_schema::write_record_ron::<Self, RankedFields<T, U>>(self, alloc, d, s)
    }
}

/// Does nothing. Its contract says that the codec is of what a value means.
fn means_as_ron<T: RonCodec>(value: &T)
    ensures { T.ron.canonical.means value.now ≡ T.means value.now }
{
    let _value = value;
}

impl<T: DeRon, U: DeRon> DeRon for Ranked<T, U>
where
    T: Clone,
    U: Ord,
{
    fn de_ron(alloc: Global, state: &mut DeRonState, input: &mut Chars<'_>) -> RonResult<Self> {
        match nano_ron_schema::read_record_ron::<Self, RankedFields<T, U>>(alloc, state, input) {
            Ok(value) => {
                means_as_ron::<Self>(&value);
                Ok(value)
            }
            Err(error) => Err(error),
        }
    }
}

pub struct WantedNames<const I: usize> {}

impl<const I: usize> Label for WantedNames<I> {
    ghost label = { if I == 0 then codes "One" else if I == 1 then codes "Between"
        else codes "Group" };

    fn text() -> &'static str {
        nano_schema::name_of!(I, 0 => "One", 1 => "Between", _ => "Group")
    }
}

type WantedOneParts<T> = Box<T>;

type WantedBetweenParts<T> = (crate::point::Point, Vec<(T, u8, T)>);

pub struct WantedGroupNames<const I: usize> {}

impl<const I: usize> Label for WantedGroupNames<I> {
    ghost label = { if I == 0 then codes "things" else codes "count" };

    fn text() -> &'static str {
        nano_schema::name_of!(I, 0 => "things", _ => "count")
    }
}

type WantedGroupParts<T> = (
    Required<WantedGroupNames<0>, Vec<Option<Box<T>>>>,
    Required<WantedGroupNames<1>, u32>,
);

type WantedVariants3<T> = Variant<WantedNames<2>, Struct<WantedGroupParts<T>>>;

type WantedVariants2<T> = (
    Variant<WantedNames<1>, Tuple<WantedBetweenParts<T>>>,
    WantedVariants3<T>,
);

type WantedVariants<T> = (
    Variant<WantedNames<0>, Newtype<WantedOneParts<T>>>,
    WantedVariants2<T>,
);

type WantedValues3<T> = (Vec<Option<Box<T>>>, u32);

type WantedValues2<T> = Either<(crate::point::Point, Vec<(T, u8, T)>), WantedValues3<T>>;

type WantedValues<T> = Either<Box<T>, WantedValues2<T>>;

type WantedRefs3<'a, T> = (&'a Vec<Option<Box<T>>>, &'a u32);

type WantedRefs2<'a, T> = Either<
    (&'a crate::point::Point, &'a Vec<(T, u8, T)>),
    WantedRefs3<'a, T>,
>;

type WantedRefs<'a, T> = Either<&'a Box<T>, WantedRefs2<'a, T>>;

impl<T: Value> EnumSchema for Wanted<T>
where
    T: Clone,
{
    ghost use Rattle.test_types.specs.declared.ranked.Wanted.TheVariants.{One, Between, Group};

    type Values = WantedValues<T>;

    ghost view = { λ x. elim x [
      | One v0 ↦ First v0
      | Between v0 v1 ↦ Later (First (v0, v1))
      | Group v0 v1 ↦ Later (Later (v0, v1))
    ] };

    fn make(values: Self::Values) -> Self {
        let later = match values {
            Either::First(values) => {
                let first = values;
                return Self::One(first);
            }
            Either::Later(later) => later,
        };
        let later = match later {
            Either::First(values) => {
                let (first, second) = values;
                return Self::Between(first, second);
            }
            Either::Later(later) => later,
        };
        let (things, count) = later;
        Self::Group { things, count }
    }
}

impl<'a, T: Value + 'a> VariantRefs<'a> for Wanted<T>
where
    T: Clone,
{
    type Refs = WantedRefs<'a, T>;

    ghost values = { ⟦<WantedVariants<T> as BorrowedChoices<'a>>⟧.values };

    fn as_refs(&'a self) -> Self::Refs {
        match self {
            Self::One(first) => {
                let refs = first;
                Either::First(refs)
            }
            Self::Between(first, second) => {
                let refs = (first, second);
                Either::Later(Either::First(refs))
            }
            Self::Group { things, count } => {
                let refs = (things, count);
                Either::Later(Either::Later(refs))
            }
        }
    }
}

impl<T: Value> Value for Wanted<T>
where
    T: Clone,
{
    ghost means = { λ x. ⟦<WantedVariants<T> as Choices>⟧.means 0
        (⟦<Wanted<T> as EnumSchema>⟧.view x) };

    ghost legal = { LegalVariant ⟦<WantedVariants<T> as Choices>⟧.legals };

    fn known(&self) {
        nano_schema::known_variant::<Self, WantedVariants<T>>(self);
    }
}

impl<T: BinCodec> BinCodec for Wanted<T>
where
    T: Clone,
{
    ghost bin = { bin_choice ⟦<Wanted<T> as EnumSchema>⟧.view
        ⟦<WantedVariants<T> as BinShapes>⟧.chosen refl };

    ghost agrees = { choice_agrees (next_agrees (seen_agrees T.agrees (λ x. x.value))
        (next_agrees (seen_agrees (pair_agrees (agreed {means =
        ⟦<crate::point::Point as Value>⟧.means} {legal = ⟦<crate::point::Point as Value>⟧.legal})
        (seen_agrees (list_agrees (seen_agrees (pair_agrees T.agrees (pair_agrees (agreed {means
        = ⟦<u8 as Value>⟧.means} {legal = ⟦<u8 as Value>⟧.legal}) T.agrees)) (λ x.
        (x.0, (x.1, x.2))))) (λ x. x.items))) (λ x. (x.0, x.1))) (last_agrees (pair_agrees
        (seen_agrees (list_agrees (option_agrees (seen_agrees T.agrees (λ x. x.value)))) (λ x.
        x.items)) (agreed {means = ⟦<u32 as Value>⟧.means} {legal = ⟦<u32 as Value>⟧.legal})))))
        ⟦<Wanted<T> as EnumSchema>⟧.view };
}

impl<T: SerBin> SerBin for Wanted<T>
where
    T: Clone,
{
    fn ser_bin(&self, alloc: Global, output: &mut Vec<u8>) -> Result<(), AllocError> {
        nano_bin_schema::write_choice_bin::<Self, WantedVariants<T>>(self, alloc, output)
    }
}

impl<T: DeBin> DeBin for Wanted<T>
where
    T: Clone,
{
    ghost is_decodable = { (both_are_read T.is_decodable (both_are_read (both_are_read refl
        (both_are_read T.is_decodable (both_are_read refl T.is_decodable))) (both_are_read
        (both_are_read T.is_decodable refl) refl))) };

    fn de_bin(alloc: Global, offset: &mut usize, bytes: &[u8]) -> Result<Self, DeBinErr> {
        match nano_bin_schema::read_choice_bin::<Self, WantedVariants<T>>(alloc, offset, bytes) {
            Ok(value) => {
                means_as_bin::<Self>(&value);
                Ok(value)
            }
            Err(error) => Err(error),
        }
    }
}

impl<T: JsonCodec> JsonCodec for Wanted<T>
where
    T: Clone,
{
    ghost json = { json_choice ⟦<Wanted<T> as EnumSchema>⟧.view
        ⟦<WantedVariants<T> as JsonShapes>⟧.codec refl refl refl };

    ghost agrees = { choice_agrees (next_agrees (seen_agrees T.agrees (λ x. x.value))
        (next_agrees (seen_agrees (pair_agrees (agreed {means =
        ⟦<crate::point::Point as Value>⟧.means} {legal = ⟦<crate::point::Point as Value>⟧.legal})
        (seen_agrees (list_agrees (seen_agrees (pair_agrees T.agrees (pair_agrees (agreed {means
        = ⟦<u8 as Value>⟧.means} {legal = ⟦<u8 as Value>⟧.legal}) T.agrees)) (λ x.
        (x.0, (x.1, x.2))))) (λ x. x.items))) (λ x. (x.0, x.1))) (last_agrees (pair_agrees
        (seen_agrees (list_agrees (option_agrees (seen_agrees T.agrees (λ x. x.value)))) (λ x.
        x.items)) (agreed {means = ⟦<u32 as Value>⟧.means} {legal = ⟦<u32 as Value>⟧.legal})))))
        ⟦<Wanted<T> as EnumSchema>⟧.view };
}

impl<T: SerJson> SerJson for Wanted<T>
where
    T: Clone,
{
    fn ser_json(&self, alloc: Global, d: usize, s: &mut SerJsonState) -> Result<(), AllocError> {
        nano_json_schema::write_choice_json::<Self, WantedVariants<T>>(self, alloc, d, s)
    }
}

impl<T: DeJson> DeJson for Wanted<T>
where
    T: Clone,
{
    fn de_json(alloc: Global, state: &mut DeJsonState, input: &mut Chars<'_>) -> JsonResult<Self> {
        match nano_json_schema::read_choice_json::<Self, WantedVariants<T>>(alloc, state, input) {
            Ok(value) => {
                means_as_json::<Self>(&value);
                Ok(value)
            }
            Err(error) => Err(error),
        }
    }
}

impl<T: RonCodec> RonCodec for Wanted<T>
where
    T: Clone,
{
    ghost ron = { ron_choice ⟦<Wanted<T> as EnumSchema>⟧.view
        ⟦<WantedVariants<T> as RonShapes>⟧.codec refl refl refl };

    ghost agrees = { choice_agrees (next_agrees (seen_agrees T.agrees (λ x. x.value))
        (next_agrees (seen_agrees (pair_agrees (agreed {means =
        ⟦<crate::point::Point as Value>⟧.means} {legal = ⟦<crate::point::Point as Value>⟧.legal})
        (seen_agrees (list_agrees (seen_agrees (pair_agrees T.agrees (pair_agrees (agreed {means
        = ⟦<u8 as Value>⟧.means} {legal = ⟦<u8 as Value>⟧.legal}) T.agrees)) (λ x.
        (x.0, (x.1, x.2))))) (λ x. x.items))) (λ x. (x.0, x.1))) (last_agrees (pair_agrees
        (seen_agrees (list_agrees (option_agrees (seen_agrees T.agrees (λ x. x.value)))) (λ x.
        x.items)) (agreed {means = ⟦<u32 as Value>⟧.means} {legal = ⟦<u32 as Value>⟧.legal})))))
        ⟦<Wanted<T> as EnumSchema>⟧.view };
}

impl<T: SerRon> SerRon for Wanted<T>
where
    T: Clone,
{
    fn ser_ron(&self, alloc: Global, d: usize, s: &mut SerRonState) -> Result<(), AllocError> {
        nano_ron_schema::write_choice_ron::<Self, WantedVariants<T>>(self, alloc, d, s)
    }
}

impl<T: DeRon> DeRon for Wanted<T>
where
    T: Clone,
{
    fn de_ron(alloc: Global, state: &mut DeRonState, input: &mut Chars<'_>) -> RonResult<Self> {
        match nano_ron_schema::read_choice_ron::<Self, WantedVariants<T>>(alloc, state, input) {
            Ok(value) => {
                means_as_ron::<Self>(&value);
                Ok(value)
            }
            Err(error) => Err(error),
        }
    }
}
