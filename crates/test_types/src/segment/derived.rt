//! Written by derive_files: how the types of the module above are encoded.

ghost use Rattle.nano_bin_schema.specs.Structs.{bin_of, both_are_read};
ghost use Rattle.nano_schema.specs.UserTypes.{agreed, seen_agrees, pair_agrees, option_agrees};
ghost use Rattle.nano_schema.specs.UserTypes.{list_agrees};
ghost use Rattle.std.specs.Prelude.{refl, ◌≡◌};
ghost use Rattle.nano_json_schema.specs.Structs.{tuple_json_of};
ghost use Rattle.nano_ron_schema.specs.Structs.{tuple_ron_of};

use super::*;
use nano_bin_schema::{BinCodec, BinShape, DeBin, DeBinErr, SerBin};
use nano_json_schema::{
    DeJson, DeJsonState, JsonCodec, JsonParts, JsonResult, SerJson, SerJsonState,
};
use nano_ron_schema::{DeRon, DeRonState, RonCodec, RonParts, RonResult, SerRon, SerRonState};
use nano_schema::{Borrowed, FieldRefs, Newtype, Shape, StructSchema, Value};
use std::alloc::{AllocError, Global};
use std::str::Chars;

type SegmentFields = (
    Newtype<u8>,
    (
        Newtype<String>,
        (Newtype<Option<u16>>, (Newtype<Vec<i32>>, Newtype<bool>)),
    ),
);

impl StructSchema for Segment {
    type Values = <SegmentFields as Shape>::Values;

    ghost view = { λ x. (x.0, (x.1, (x.2, (x.3, x.4)))) };

    fn make(values: Self::Values) -> Self {
        let (first, (second, (third, (fourth, fifth)))) = values;
        Segment(first, second, third, fourth, fifth)
    }
}

impl<'a> FieldRefs<'a> for Segment {
    type Refs = <SegmentFields as Borrowed<'a>>::Refs;

    ghost values = { ⟦<SegmentFields as Borrowed<'a>>⟧.values };

    fn as_refs(&'a self) -> Self::Refs {
        (&self.0, (&self.1, (&self.2, (&self.3, &self.4))))
    }
}

impl Value for Segment {
    ghost means = { λ x. ⟦<SegmentFields as Shape>⟧.means (⟦<Segment as StructSchema>⟧.view x) };

    ghost legal = { ⟦<SegmentFields as Shape>⟧.legal };

    fn known(&self) {
        nano_schema::known_record::<Self, SegmentFields>(self);
    }
}

impl BinCodec for Segment {
    ghost bin = { bin_of ⟦<Segment as StructSchema>⟧.view ⟦<SegmentFields as BinShape>⟧.codec };

    ghost agrees = { agreed };
}

impl SerBin for Segment {
    fn ser_bin(&self, alloc: Global, output: &mut Vec<u8>) -> Result<(), AllocError> {
        nano_bin_schema::write_record_bin::<Self, SegmentFields>(self, alloc, output)
    }
}

impl DeBin for Segment {
    ghost is_decodable = { refl };

    fn de_bin(alloc: Global, offset: &mut usize, bytes: &[u8]) -> Result<Self, DeBinErr> {
        nano_bin_schema::read_record_bin::<Self, SegmentFields>(alloc, offset, bytes)
    }
}

impl JsonCodec for Segment {
    ghost json = { tuple_json_of ⟦<Segment as StructSchema>⟧.view
        ⟦<SegmentFields as JsonParts>⟧.codec };

    ghost agrees = { agreed };
}

impl SerJson for Segment {
    fn ser_json(&self, alloc: Global, d: usize, s: &mut SerJsonState) -> Result<(), AllocError> {
        nano_json_schema::write_tuple_json::<Self, SegmentFields>(self, alloc, d, s)
    }
}

impl DeJson for Segment {
    fn de_json(alloc: Global, state: &mut DeJsonState, input: &mut Chars<'_>) -> JsonResult<Self> {
        nano_json_schema::read_tuple_json::<Self, SegmentFields>(alloc, state, input)
    }
}

impl RonCodec for Segment {
    ghost ron = { tuple_ron_of ⟦<Segment as StructSchema>⟧.view
        ⟦<SegmentFields as RonParts>⟧.codec };

    ghost agrees = { agreed };
}

impl SerRon for Segment {
    fn ser_ron(&self, alloc: Global, d: usize, s: &mut SerRonState) -> Result<(), AllocError> {
        nano_ron_schema::write_tuple_ron::<Self, SegmentFields>(self, alloc, d, s)
    }
}

impl DeRon for Segment {
    fn de_ron(alloc: Global, state: &mut DeRonState, input: &mut Chars<'_>) -> RonResult<Self> {
        nano_ron_schema::read_tuple_ron::<Self, SegmentFields>(alloc, state, input)
    }
}

type CellsFields<T> = (
    Newtype<T>,
    (
        Newtype<Option<T>>,
        (
            Newtype<Vec<T>>,
            (
                Newtype<(T, u8)>,
                (
                    Newtype<String>,
                    (Newtype<()>, (Newtype<[i64; 1]>, Newtype<Box<T>>)),
                ),
            ),
        ),
    ),
);

impl<T: Value> StructSchema for Cells<T> {
    type Values = <CellsFields<T> as Shape>::Values;

    ghost view = { λ x. (x.0, (x.1, (x.2, (x.3, (x.4, (x.5, (x.6, x.7))))))) };

    fn make(values: Self::Values) -> Self {
        let (first, from_second) = values;
        let (second, from_third) = from_second;
        let (third, from_fourth) = from_third;
        let (fourth, from_fifth) = from_fourth;
        let (fifth, from_sixth) = from_fifth;
        let (sixth, from_seventh) = from_sixth;
        let (seventh, eighth) = from_seventh;
        Cells(first, second, third, fourth, fifth, sixth, seventh, eighth)
    }
}

impl<'a, T: Value + 'a> FieldRefs<'a> for Cells<T> {
    type Refs = <CellsFields<T> as Borrowed<'a>>::Refs;

    ghost values = { ⟦<CellsFields<T> as Borrowed<'a>>⟧.values };

    fn as_refs(&'a self) -> Self::Refs {
        (
            &self.0,
            (
                &self.1,
                (&self.2, (&self.3, (&self.4, (&self.5, (&self.6, &self.7))))),
            ),
        )
    }
}

impl<T: Value> Value for Cells<T> {
    ghost means = { λ x. ⟦<CellsFields<T> as Shape>⟧.means (⟦<Cells<T> as StructSchema>⟧.view x) };

    ghost legal = { ⟦<CellsFields<T> as Shape>⟧.legal };

    fn known(&self) {
        nano_schema::known_record::<Self, CellsFields<T>>(self);
    }
}

impl<T: BinCodec> BinCodec for Cells<T> {
    ghost bin = { bin_of ⟦<Cells<T> as StructSchema>⟧.view ⟦<CellsFields<T> as BinShape>⟧.codec };

    ghost agrees = { seen_agrees (pair_agrees T.agrees (pair_agrees (option_agrees T.agrees)
        (pair_agrees (seen_agrees (list_agrees T.agrees) (λ x. x.items)) (pair_agrees
        (seen_agrees (pair_agrees T.agrees (agreed {means = ⟦<u8 as Value>⟧.means} {legal =
        ⟦<u8 as Value>⟧.legal})) (λ x. (x.0, x.1))) (pair_agrees (agreed {means =
        ⟦<String as Value>⟧.means} {legal = ⟦<String as Value>⟧.legal}) (pair_agrees (agreed
        {means = ⟦<() as Value>⟧.means} {legal = ⟦<() as Value>⟧.legal}) (pair_agrees (agreed
        {means = ⟦<[i64; 1] as Value>⟧.means} {legal = ⟦<[i64; 1] as Value>⟧.legal}) (seen_agrees
        T.agrees (λ x. x.value))))))))) (λ x.
        (x.0, (x.1, (x.2, (x.3, (x.4, (x.5, (x.6, x.7)))))))) };
}

impl<T: SerBin> SerBin for Cells<T> {
    fn ser_bin(&self, alloc: Global, output: &mut Vec<u8>) -> Result<(), AllocError> {
        nano_bin_schema::write_record_bin::<Self, CellsFields<T>>(self, alloc, output)
    }
}

/// Does nothing. Its contract says that the codec is of what a value means.
fn means_as_bin<T: BinCodec>(value: &T)
    ensures { T.bin.canonical.means value.now ≡ T.means value.now }
{
    let _value = value;
}

impl<T: DeBin> DeBin for Cells<T> {
    ghost is_decodable = { (both_are_read T.is_decodable (both_are_read T.is_decodable
        (both_are_read T.is_decodable (both_are_read (both_are_read T.is_decodable refl)
        (both_are_read refl (both_are_read refl (both_are_read refl T.is_decodable))))))) };

    fn de_bin(alloc: Global, offset: &mut usize, bytes: &[u8]) -> Result<Self, DeBinErr> {
        match nano_bin_schema::read_record_bin::<Self, CellsFields<T>>(alloc, offset, bytes) {
            Ok(value) => {
                means_as_bin::<Self>(&value);
                Ok(value)
            }
            Err(error) => Err(error),
        }
    }
}

impl<T: JsonCodec> JsonCodec for Cells<T> {
    ghost json = { tuple_json_of ⟦<Cells<T> as StructSchema>⟧.view
        ⟦<CellsFields<T> as JsonParts>⟧.codec };

    ghost agrees = { seen_agrees (pair_agrees T.agrees (pair_agrees (option_agrees T.agrees)
        (pair_agrees (seen_agrees (list_agrees T.agrees) (λ x. x.items)) (pair_agrees
        (seen_agrees (pair_agrees T.agrees (agreed {means = ⟦<u8 as Value>⟧.means} {legal =
        ⟦<u8 as Value>⟧.legal})) (λ x. (x.0, x.1))) (pair_agrees (agreed {means =
        ⟦<String as Value>⟧.means} {legal = ⟦<String as Value>⟧.legal}) (pair_agrees (agreed
        {means = ⟦<() as Value>⟧.means} {legal = ⟦<() as Value>⟧.legal}) (pair_agrees (agreed
        {means = ⟦<[i64; 1] as Value>⟧.means} {legal = ⟦<[i64; 1] as Value>⟧.legal}) (seen_agrees
        T.agrees (λ x. x.value))))))))) (λ x.
        (x.0, (x.1, (x.2, (x.3, (x.4, (x.5, (x.6, x.7)))))))) };
}

impl<T: SerJson> SerJson for Cells<T> {
    fn ser_json(&self, alloc: Global, d: usize, s: &mut SerJsonState) -> Result<(), AllocError> {
        nano_json_schema::write_tuple_json::<Self, CellsFields<T>>(self, alloc, d, s)
    }
}

/// Does nothing. Its contract says that the codec is of what a value means.
fn means_as_json<T: JsonCodec>(value: &T)
    ensures { T.json.canonical.means value.now ≡ T.means value.now }
{
    let _value = value;
}

impl<T: DeJson> DeJson for Cells<T> {
    fn de_json(alloc: Global, state: &mut DeJsonState, input: &mut Chars<'_>) -> JsonResult<Self> {
        match nano_json_schema::read_tuple_json::<Self, CellsFields<T>>(alloc, state, input) {
            Ok(value) => {
                means_as_json::<Self>(&value);
                Ok(value)
            }
            Err(error) => Err(error),
        }
    }
}

impl<T: RonCodec> RonCodec for Cells<T> {
    ghost ron = { tuple_ron_of ⟦<Cells<T> as StructSchema>⟧.view
        ⟦<CellsFields<T> as RonParts>⟧.codec };

    ghost agrees = { seen_agrees (pair_agrees T.agrees (pair_agrees (option_agrees T.agrees)
        (pair_agrees (seen_agrees (list_agrees T.agrees) (λ x. x.items)) (pair_agrees
        (seen_agrees (pair_agrees T.agrees (agreed {means = ⟦<u8 as Value>⟧.means} {legal =
        ⟦<u8 as Value>⟧.legal})) (λ x. (x.0, x.1))) (pair_agrees (agreed {means =
        ⟦<String as Value>⟧.means} {legal = ⟦<String as Value>⟧.legal}) (pair_agrees (agreed
        {means = ⟦<() as Value>⟧.means} {legal = ⟦<() as Value>⟧.legal}) (pair_agrees (agreed
        {means = ⟦<[i64; 1] as Value>⟧.means} {legal = ⟦<[i64; 1] as Value>⟧.legal}) (seen_agrees
        T.agrees (λ x. x.value))))))))) (λ x.
        (x.0, (x.1, (x.2, (x.3, (x.4, (x.5, (x.6, x.7)))))))) };
}

impl<T: SerRon> SerRon for Cells<T> {
    fn ser_ron(&self, alloc: Global, d: usize, s: &mut SerRonState) -> Result<(), AllocError> {
        nano_ron_schema::write_tuple_ron::<Self, CellsFields<T>>(self, alloc, d, s)
    }
}

/// Does nothing. Its contract says that the codec is of what a value means.
fn means_as_ron<T: RonCodec>(value: &T)
    ensures { T.ron.canonical.means value.now ≡ T.means value.now }
{
    let _value = value;
}

impl<T: DeRon> DeRon for Cells<T> {
    fn de_ron(alloc: Global, state: &mut DeRonState, input: &mut Chars<'_>) -> RonResult<Self> {
        match nano_ron_schema::read_tuple_ron::<Self, CellsFields<T>>(alloc, state, input) {
            Ok(value) => {
                means_as_ron::<Self>(&value);
                Ok(value)
            }
            Err(error) => Err(error),
        }
    }
}
