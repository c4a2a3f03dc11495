//! Written by derive_files: how the types of the module above are encoded.

ghost use Rattle.nano_bin_schema.specs.Structs.{codec_as as bin_as, both_are_read, bin_of};
ghost use Rattle.nano_schema.specs.UserTypes.{agreed, seen_agrees, pair_agrees, option_agrees};
ghost use Rattle.nano_schema.specs.UserTypes.{list_agrees};
ghost use Rattle.std.specs.Prelude.{refl, ◌≡◌};
ghost use Rattle.nano_json_schema.specs.Structs.{codec_as as json_as};
ghost use Rattle.nano_ron_schema.specs.Structs.{codec_as as ron_as};

use super::*;
use nano_bin_schema::{BinCodec, BinShape, DeBin, DeBinErr, SerBin};
use nano_json_schema::{DeJson, DeJsonState, JsonCodec, JsonResult, SerJson, SerJsonState};
use nano_ron_schema::{DeRon, DeRonState, RonCodec, RonResult, SerRon, SerRonState};
use nano_schema::{Borrowed, FieldRefs, Shape, StructSchema, Tuple, Value};
use std::alloc::{AllocError, Global};
use std::str::Chars;

type BestFields<T> = Vec<Option<Box<(T, u8)>>>;

impl<T: Value> Value for Best<T>
where
    T: Clone,
{
    ghost means = { λ x. ⟦<BestFields<T> as Value>⟧.means x.0 };

    ghost legal = { ⟦<BestFields<T> as Value>⟧.legal };

    fn known(&self) {
        Value::known(&self.0);
    }
}

impl<T: BinCodec> BinCodec for Best<T>
where
    T: Clone,
{
    ghost bin = { bin_as (λ x. x.0) ⟦<BestFields<T> as BinCodec>⟧.bin };

    ghost agrees = { seen_agrees (seen_agrees (list_agrees (option_agrees (seen_agrees
        (seen_agrees (pair_agrees T.agrees (agreed {means = ⟦<u8 as Value>⟧.means} {legal =
        ⟦<u8 as Value>⟧.legal})) (λ x. (x.0, x.1))) (λ x. x.value)))) (λ x. x.items)) (λ x. x.0) };
}

impl<T: SerBin> SerBin for Best<T>
where
    T: Clone,
{
    fn ser_bin(&self, alloc: Global, output: &mut Vec<u8>) -> Result<(), AllocError> {
        SerBin::ser_bin(&self.0, alloc, output)
    }
}

impl<T: DeBin> DeBin for Best<T>
where
    T: Clone,
{
    ghost is_decodable = { (both_are_read T.is_decodable refl) };

    fn de_bin(alloc: Global, offset: &mut usize, bytes: &[u8]) -> Result<Self, DeBinErr> {
        match <BestFields<T> as DeBin>::de_bin(alloc, offset, bytes) {
            Ok(value) => Ok(Best(value)),
            Err(error) => Err(error),
        }
    }
}

impl<T: JsonCodec> JsonCodec for Best<T>
where
    T: Clone,
{
    ghost json = { json_as (λ x. x.0) ⟦<BestFields<T> as JsonCodec>⟧.json };

    ghost agrees = { seen_agrees (seen_agrees (list_agrees (option_agrees (seen_agrees
        (seen_agrees (pair_agrees T.agrees (agreed {means = ⟦<u8 as Value>⟧.means} {legal =
        ⟦<u8 as Value>⟧.legal})) (λ x. (x.0, x.1))) (λ x. x.value)))) (λ x. x.items)) (λ x. x.0) };
}

impl<T: SerJson> SerJson for Best<T>
where
    T: Clone,
{
    fn ser_json(&self, alloc: Global, d: usize, s: &mut SerJsonState) -> Result<(), AllocError> {
        SerJson::ser_json(&self.0, alloc, d, s)
    }
}

impl<T: DeJson> DeJson for Best<T>
where
    T: Clone,
{
    fn de_json(alloc: Global, state: &mut DeJsonState, input: &mut Chars<'_>) -> JsonResult<Self> {
        match <BestFields<T> as DeJson>::de_json(alloc, state, input) {
            Ok(value) => Ok(Best(value)),
            Err(error) => Err(error),
        }
    }
}

impl<T: RonCodec> RonCodec for Best<T>
where
    T: Clone,
{
    ghost ron = { ron_as (λ x. x.0) ⟦<BestFields<T> as RonCodec>⟧.ron };

    ghost agrees = { seen_agrees (seen_agrees (list_agrees (option_agrees (seen_agrees
        (seen_agrees (pair_agrees T.agrees (agreed {means = ⟦<u8 as Value>⟧.means} {legal =
        ⟦<u8 as Value>⟧.legal})) (λ x. (x.0, x.1))) (λ x. x.value)))) (λ x. x.items)) (λ x. x.0) };
}

impl<T: SerRon> SerRon for Best<T>
where
    T: Clone,
{
    fn ser_ron(&self, alloc: Global, d: usize, s: &mut SerRonState) -> Result<(), AllocError> {
        SerRon::ser_ron(&self.0, alloc, d, s)
    }
}

impl<T: DeRon> DeRon for Best<T>
where
    T: Clone,
{
    fn de_ron(alloc: Global, state: &mut DeRonState, input: &mut Chars<'_>) -> RonResult<Self> {
        match <BestFields<T> as DeRon>::de_ron(alloc, state, input) {
            Ok(value) => Ok(Best(value)),
            Err(error) => Err(error),
        }
    }
}

type RanksValues<T, U> = (Vec<(T, u8)>, Option<(U, Vec<Vec<T>>)>);

type RanksFields<T, U> = Tuple<RanksValues<T, U>>;

impl<T: Value, U: Value> StructSchema for Ranks<T, U>
where
    U: Ord,
{
    type Values = RanksValues<T, U>;

    ghost view = { λ x. (x.0, x.1) };

    fn make(values: Self::Values) -> Self {
        let (first, second) = values;
        Ranks(first, second)
    }
}

impl<'a, T: Value + 'a, U: Value + 'a> FieldRefs<'a> for Ranks<T, U>
where
    U: Ord,
{
    type Refs = <RanksFields<T, U> as Borrowed<'a>>::Refs;

    ghost values = { ⟦<RanksFields<T, U> as Borrowed<'a>>⟧.values };

    fn as_refs(&'a self) -> Self::Refs {
        (&self.0, &self.1)
    }
}

impl<T: Value, U: Value> Value for Ranks<T, U>
where
    U: Ord,
{
    ghost means = { λ x. ⟦<RanksFields<T, U> as Shape>⟧.means
        (⟦<Ranks<T, U> as StructSchema>⟧.view x) };

    ghost legal = { ⟦<RanksFields<T, U> as Shape>⟧.legal };

    fn known(&self) {
        nano_schema::known_record::<Self, RanksFields<T, U>>(self);
    }
}

impl<T: BinCodec, U: BinCodec> BinCodec for Ranks<T, U>
where
    U: Ord,
{
    ghost bin = { bin_of ⟦<Ranks<T, U> as StructSchema>⟧.view
        ⟦<RanksFields<T, U> as BinShape>⟧.codec };

    ghost agrees = { seen_agrees (pair_agrees (seen_agrees (list_agrees (seen_agrees (pair_agrees
        T.agrees (agreed {means = ⟦<u8 as Value>⟧.means} {legal = ⟦<u8 as Value>⟧.legal})) (λ x.
        (x.0, x.1)))) (λ x. x.items)) (option_agrees (seen_agrees (pair_agrees U.agrees
        (seen_agrees (list_agrees (seen_agrees (list_agrees T.agrees) (λ x. x.items))) (λ x.
        x.items))) (λ x. (x.0, x.1))))) (λ x. (x.0, x.1)) };
}

impl<T: SerBin, U: SerBin> SerBin for Ranks<T, U>
where
    U: Ord,
{
    fn ser_bin(&self, alloc: Global, output: &mut Vec<u8>) -> Result<(), AllocError> {
        nano_bin_schema::write_record_bin::<Self, RanksFields<T, U>>(self, alloc, output)
    }
}

/// Does nothing. Its contract says that the codec is of what a value means.
fn means_as_bin<T: BinCodec>(value: &T)
    ensures { T.bin.canonical.means value.now ≡ T.means value.now }
{
    let _value = value;
}

impl<T: DeBin, U: DeBin> DeBin for Ranks<T, U>
where
    U: Ord,
{
    ghost is_decodable = { (both_are_read (both_are_read T.is_decodable refl) (both_are_read
        U.is_decodable T.is_decodable)) };

    fn de_bin(alloc: Global, offset: &mut usize, bytes: &[u8]) -> Result<Self, DeBinErr> {
        match nano_bin_schema::read_record_bin::<Self, RanksFields<T, U>>(alloc, offset, bytes) {
            Ok(value) => {
                means_as_bin::<Self>(&value);
                Ok(value)
            }
            Err(error) => Err(error),
        }
    }
}

impl<T: JsonCodec, U: JsonCodec> JsonCodec for Ranks<T, U>
where
    U: Ord,
{
    ghost json = { json_as ⟦<Ranks<T, U> as StructSchema>⟧.view
        ⟦<RanksValues<T, U> as JsonCodec>⟧.json };

    ghost agrees = { seen_agrees (pair_agrees (seen_agrees (list_agrees (seen_agrees (pair_agrees
        T.agrees (agreed {means = ⟦<u8 as Value>⟧.means} {legal = ⟦<u8 as Value>⟧.legal})) (λ x.
        (x.0, x.1)))) (λ x. x.items)) (option_agrees (seen_agrees (pair_agrees U.agrees
        (seen_agrees (list_agrees (seen_agrees (list_agrees T.agrees) (λ x. x.items))) (λ x.
        x.items))) (λ x. (x.0, x.1))))) (λ x. (x.0, x.1)) };
}

impl<T: SerJson, U: SerJson> SerJson for Ranks<T, U>
where
    U: Ord,
{
    fn ser_json(&self, alloc: Global, d: usize, s: &mut SerJsonState) -> Result<(), AllocError> {
        let parts = (
            nano_json_schema::Part { of: &self.0 },
            nano_json_schema::Part { of: &self.1 },
        );
        SerJson::ser_json(&parts, alloc, d, s)
    }
}

impl<T: DeJson, U: DeJson> DeJson for Ranks<T, U>
where
    U: Ord,
{
    fn de_json(alloc: Global, state: &mut DeJsonState, input: &mut Chars<'_>) -> JsonResult<Self> {
        nano_json_schema::read_parts_json::<Self, RanksValues<T, U>>(alloc, state, input)
    }
}

impl<T: RonCodec, U: RonCodec> RonCodec for Ranks<T, U>
where
    U: Ord,
{
    ghost ron = { ron_as ⟦<Ranks<T, U> as StructSchema>⟧.view
        ⟦<RanksValues<T, U> as RonCodec>⟧.ron };

    ghost agrees = { seen_agrees (pair_agrees (seen_agrees (list_agrees (seen_agrees (pair_agrees
        T.agrees (agreed {means = ⟦<u8 as Value>⟧.means} {legal = ⟦<u8 as Value>⟧.legal})) (λ x.
        (x.0, x.1)))) (λ x. x.items)) (option_agrees (seen_agrees (pair_agrees U.agrees
        (seen_agrees (list_agrees (seen_agrees (list_agrees T.agrees) (λ x. x.items))) (λ x.
        x.items))) (λ x. (x.0, x.1))))) (λ x. (x.0, x.1)) };
}

impl<T: SerRon, U: SerRon> SerRon for Ranks<T, U>
where
    U: Ord,
{
    fn ser_ron(&self, alloc: Global, d: usize, s: &mut SerRonState) -> Result<(), AllocError> {
        let parts = (
            nano_ron_schema::Part { of: &self.0 },
            nano_ron_schema::Part { of: &self.1 },
        );
        SerRon::ser_ron(&parts, alloc, d, s)
    }
}

impl<T: DeRon, U: DeRon> DeRon for Ranks<T, U>
where
    U: Ord,
{
    fn de_ron(alloc: Global, state: &mut DeRonState, input: &mut Chars<'_>) -> RonResult<Self> {
        nano_ron_schema::read_parts_ron::<Self, RanksValues<T, U>>(alloc, state, input)
    }
}
