//! Written by derive_files: how the types of the module above are encoded.

ghost use Rattle.nano_bin_schema.specs.Structs.{bin_of};
ghost use Rattle.nano_schema.specs.UserTypes.{agreed, LegalVariant};
ghost use Rattle.std.specs.Prelude.{refl, ◌≡◌, codes, ◌==◌, if◌then◌else◌, ⊤};
ghost use Rattle.nano_json_schema.specs.Structs.{json_of};
ghost use Rattle.nano_ron_schema.specs.Structs.{ron_of};
ghost use Rattle.nano_schema.specs.declared.choices.Either.TheVariants.{First, Later};
ghost use Rattle.nano_bin_schema.specs.Enums.{bin_choice};
ghost use Rattle.nano_json_schema.specs.Enums.{json_choice};
ghost use Rattle.nano_ron_schema.specs.Enums.{ron_choice};

use super::*;
use nano_bin_schema::{BinCodec, BinShape, BinShapes, DeBin, DeBinErr, SerBin};
use nano_json_schema::{
    DeJson, DeJsonState, JsonCodec, JsonResult, JsonShape, JsonShapes, Place, SerJson, SerJsonState,
};
use nano_ron_schema::{
    DeRon, DeRonState, RonCodec, RonResult, RonShape, RonShapes, SerRon, SerRonState,
};
use nano_schema::{
    Borrowed, BorrowedChoices, Choices, Either, EnumSchema, FieldRefs, Label, Newtype, Optional,
    Required, Shape, Struct, StructSchema, Unit, Value, Variant, VariantRefs,
};
use std::alloc::{AllocError, Global};
use std::str::Chars;

impl StructSchema for Marker {
    type Values = <Unit as Shape>::Values;

    ghost view = { λ x. tt };

    fn make(values: Self::Values) -> Self {
        let () = values;
        Marker {}
    }
}

impl<'a> FieldRefs<'a> for Marker {
    type Refs = <Unit as Borrowed<'a>>::Refs;

    ghost values = { ⟦<Unit as Borrowed<'a>>⟧.values };

    fn as_refs(&'a self) -> Self::Refs {
        ()
    }
}

impl Value for Marker {
    ghost means = { λ x. ⟦<Unit as Shape>⟧.means (⟦<Marker as StructSchema>⟧.view x) };

    ghost legal = { ⟦<Unit as Shape>⟧.legal };

    fn known(&self) {
        nano_schema::known_record::<Self, Unit>(self);
    }
}

impl BinCodec for Marker {
    ghost bin = { bin_of ⟦<Marker as StructSchema>⟧.view ⟦<Unit as BinShape>⟧.codec };

    ghost agrees = { agreed };
}

impl SerBin for Marker {
    fn ser_bin(&self, alloc: Global, output: &mut Vec<u8>) -> Result<(), AllocError> {
        nano_bin_schema::write_record_bin::<Self, Unit>(self, alloc, output)
    }
}

impl DeBin for Marker {
    ghost is_decodable = { refl };

    fn de_bin(alloc: Global, offset: &mut usize, bytes: &[u8]) -> Result<Self, DeBinErr> {
        nano_bin_schema::read_record_bin::<Self, Unit>(alloc, offset, bytes)
    }
}

impl JsonCodec for Marker {
    ghost json = { json_of ⟦<Marker as StructSchema>⟧.view ⟦<Unit as JsonShape>⟧.codec refl };

    ghost agrees = { agreed };
}

impl SerJson for Marker {
    fn ser_json(&self, alloc: Global, d: usize, s: &mut SerJsonState) -> Result<(), AllocError> {
        nano_json_schema::write_record_json::<Self, Unit>(self, alloc, d, s)
    }
}

impl DeJson for Marker {
    fn de_json(alloc: Global, state: &mut DeJsonState, input: &mut Chars<'_>) -> JsonResult<Self> {
        nano_json_schema::read_record_json::<Self, Unit>(alloc, state, input)
    }

    fn de_json_plain(
        alloc: Global,
        place: &mut Place,
        input: &mut Chars<'_>,
        text: &mut String,
    ) -> Option<Self> {
        nano_json_schema::take_record_json::<Self, Unit>(alloc, place, input, text)
    }
}

impl RonCodec for Marker {
    ghost ron = { ron_of ⟦<Marker as StructSchema>⟧.view ⟦<Unit as RonShape>⟧.codec refl };

    ghost agrees = { agreed };
}

impl SerRon for Marker {
    fn ser_ron(&self, alloc: Global, d: usize, s: &mut SerRonState) -> Result<(), AllocError> {
        nano_ron_schema::write_record_ron::<Self, Unit>(self, alloc, d, s)
    }
}

impl DeRon for Marker {
    fn de_ron(alloc: Global, state: &mut DeRonState, input: &mut Chars<'_>) -> RonResult<Self> {
        nano_ron_schema::read_record_ron::<Self, Unit>(alloc, state, input)
    }
}

impl StructSchema for Empty {
    type Values = <Unit as Shape>::Values;

    ghost view = { λ x. tt };

    fn make(values: Self::Values) -> Self {
        let () = values;
        Empty {}
    }
}

impl<'a> FieldRefs<'a> for Empty {
    type Refs = <Unit as Borrowed<'a>>::Refs;

    ghost values = { ⟦<Unit as Borrowed<'a>>⟧.values };

    fn as_refs(&'a self) -> Self::Refs {
        ()
    }
}

impl Value for Empty {
    ghost means = { λ x. ⟦<Unit as Shape>⟧.means (⟦<Empty as StructSchema>⟧.view x) };

    ghost legal = { ⟦<Unit as Shape>⟧.legal };

    fn known(&self) {
        nano_schema::known_record::<Self, Unit>(self);
    }
}

impl BinCodec for Empty {
    ghost bin = { bin_of ⟦<Empty as StructSchema>⟧.view ⟦<Unit as BinShape>⟧.codec };

    ghost agrees = { agreed };
}

impl SerBin for Empty {
    fn ser_bin(&self, alloc: Global, output: &mut Vec<u8>) -> Result<(), AllocError> {
        nano_bin_schema::write_record_bin::<Self, Unit>(self, alloc, output)
    }
}

impl DeBin for Empty {
    ghost is_decodable = { refl };

    fn de_bin(alloc: Global, offset: &mut usize, bytes: &[u8]) -> Result<Self, DeBinErr> {
        nano_bin_schema::read_record_bin::<Self, Unit>(alloc, offset, bytes)
    }
}

impl JsonCodec for Empty {
    ghost json = { json_of ⟦<Empty as StructSchema>⟧.view ⟦<Unit as JsonShape>⟧.codec refl };

    ghost agrees = { agreed };
}

impl SerJson for Empty {
    fn ser_json(&self, alloc: Global, d: usize, s: &mut SerJsonState) -> Result<(), AllocError> {
        nano_json_schema::write_record_json::<Self, Unit>(self, alloc, d, s)
    }
}

impl DeJson for Empty {
    fn de_json(alloc: Global, state: &mut DeJsonState, input: &mut Chars<'_>) -> JsonResult<Self> {
        nano_json_schema::read_record_json::<Self, Unit>(alloc, state, input)
    }

    fn de_json_plain(
        alloc: Global,
        place: &mut Place,
        input: &mut Chars<'_>,
        text: &mut String,
    ) -> Option<Self> {
        nano_json_schema::take_record_json::<Self, Unit>(alloc, place, input, text)
    }
}

impl RonCodec for Empty {
    ghost ron = { ron_of ⟦<Empty as StructSchema>⟧.view ⟦<Unit as RonShape>⟧.codec refl };

    ghost agrees = { agreed };
}

impl SerRon for Empty {
    fn ser_ron(&self, alloc: Global, d: usize, s: &mut SerRonState) -> Result<(), AllocError> {
        nano_ron_schema::write_record_ron::<Self, Unit>(self, alloc, d, s)
    }
}

impl DeRon for Empty {
    fn de_ron(alloc: Global, state: &mut DeRonState, input: &mut Chars<'_>) -> RonResult<Self> {
        nano_ron_schema::read_record_ron::<Self, Unit>(alloc, state, input)
    }
}

impl StructSchema for Count {
    type Values = <Unit as Shape>::Values;

    ghost view = { λ x. tt };

    fn make(values: Self::Values) -> Self
        ensures seen { ⟦<Count as StructSchema>⟧.view result ≡ values }
        ensures skipped { (result.hits ≡ 1)
            × (⟦<u64 as std::default::Default>⟧.is_default result.found) }
    {
        let () = values;
        Count {
            hits: 1,
            found: std::default::Default::default(),
        }
    }
}

impl<'a> FieldRefs<'a> for Count {
    type Refs = <Unit as Borrowed<'a>>::Refs;

    ghost values = { ⟦<Unit as Borrowed<'a>>⟧.values };

    fn as_refs(&'a self) -> Self::Refs {
        ()
    }
}

impl Value for Count {
    ghost means = { λ x. ⟦<Unit as Shape>⟧.means (⟦<Count as StructSchema>⟧.view x) };

    ghost legal = { ⟦<Unit as Shape>⟧.legal };

    fn known(&self) {
        nano_schema::known_record::<Self, Unit>(self);
    }
}

impl BinCodec for Count {
    ghost bin = { bin_of ⟦<Count as StructSchema>⟧.view ⟦<Unit as BinShape>⟧.codec };

    ghost agrees = { agreed };
}

impl SerBin for Count {
    fn ser_bin(&self, alloc: Global, output: &mut Vec<u8>) -> Result<(), AllocError> {
        nano_bin_schema::write_record_bin::<Self, Unit>(self, alloc, output)
    }
}

impl DeBin for Count {
    ghost is_decodable = { refl };

    fn de_bin(alloc: Global, offset: &mut usize, bytes: &[u8]) -> Result<Self, DeBinErr> {
        nano_bin_schema::read_record_bin::<Self, Unit>(alloc, offset, bytes)
    }
}

impl JsonCodec for Count {
    ghost json = { json_of ⟦<Count as StructSchema>⟧.view ⟦<Unit as JsonShape>⟧.codec refl };

    ghost agrees = { agreed };
}

impl SerJson for Count {
    fn ser_json(&self, alloc: Global, d: usize, s: &mut SerJsonState) -> Result<(), AllocError> {
        nano_json_schema::write_record_json::<Self, Unit>(self, alloc, d, s)
    }
}

impl DeJson for Count {
    fn de_json(alloc: Global, state: &mut DeJsonState, input: &mut Chars<'_>) -> JsonResult<Self> {
        nano_json_schema::read_record_json::<Self, Unit>(alloc, state, input)
    }

    fn de_json_plain(
        alloc: Global,
        place: &mut Place,
        input: &mut Chars<'_>,
        text: &mut String,
    ) -> Option<Self> {
        nano_json_schema::take_record_json::<Self, Unit>(alloc, place, input, text)
    }
}

impl RonCodec for Count {
    ghost ron = { ron_of ⟦<Count as StructSchema>⟧.view ⟦<Unit as RonShape>⟧.codec refl };

    ghost agrees = { agreed };
}

impl SerRon for Count {
    fn ser_ron(&self, alloc: Global, d: usize, s: &mut SerRonState) -> Result<(), AllocError> {
        nano_ron_schema::write_record_ron::<Self, Unit>(self, alloc, d, s)
    }
}

impl DeRon for Count {
    fn de_ron(alloc: Global, state: &mut DeRonState, input: &mut Chars<'_>) -> RonResult<Self> {
        nano_ron_schema::read_record_ron::<Self, Unit>(alloc, state, input)
    }
}

pub struct StepNames<const I: usize> {}

impl<const I: usize> Label for StepNames<I> {
    ghost label = { if I == 0 then codes "Rest" else if I == 1 then codes "Walk"
        else codes "Stop" };

    fn text() -> &'static str {
        nano_schema::name_of!(I, 0 => "Rest", 1 => "Walk", _ => "Stop")
    }
}

type StepWalkParts = u16;

type StepVariants3 = Variant<StepNames<2>, Struct<Unit>>;

type StepVariants2 = (Variant<StepNames<1>, Newtype<StepWalkParts>>, StepVariants3);

type StepVariants = (Variant<StepNames<0>, Struct<Unit>>, StepVariants2);

type StepValues3 = ();

type StepValues2 = Either<u16, StepValues3>;

type StepValues = Either<(), StepValues2>;

type StepRefs3<'a> = ();

type StepRefs2<'a> = Either<&'a u16, StepRefs3<'a>>;

type StepRefs<'a> = Either<(), StepRefs2<'a>>;

impl EnumSchema for Step {
    ghost use Rattle.test_types.specs.declared.empty.Step.TheVariants.{Rest, Walk, Stop};

    type Values = StepValues;

    ghost view = { λ x. elim x [
      | Rest ↦ First tt
      | Walk v0 ↦ Later (First v0)
      | Stop v0 ↦ Later (Later tt)
    ] };

    fn make(values: Self::Values) -> Self
        ensures seen { ⟦<Step as EnumSchema>⟧.view result ≡ values }
        ensures skipped { elim result [
          | Stop v0 ↦ ⟦<u64 as std::default::Default>⟧.is_default v0
          | _ ↦ ⊤
        ] }
    {
        let later = match values {
            Either::First(values) => {
                let () = values;
                return Self::Rest {};
            }
            Either::Later(later) => later,
        };
        let later = match later {
            Either::First(values) => {
                let first = values;
                return Self::Walk(first);
            }
            Either::Later(later) => later,
        };
        let () = later;
        Self::Stop {
            after: std::default::Default::default(),
        }
    }
}

impl<'a> VariantRefs<'a> for Step {
    type Refs = StepRefs<'a>;

    ghost values = { ⟦<StepVariants as BorrowedChoices<'a>>⟧.values };

    fn as_refs(&'a self) -> Self::Refs {
        match self {
            Self::Rest {} => {
                let refs = ();
                Either::First(refs)
            }
            Self::Walk(first) => {
                let refs = first;
                Either::Later(Either::First(refs))
            }
            Self::Stop { after: _ } => {
                let refs = ();
                Either::Later(Either::Later(refs))
            }
        }
    }
}

impl Value for Step {
    ghost means = { λ x. ⟦<StepVariants as Choices>⟧.means 0 (⟦<Step as EnumSchema>⟧.view x) };

    ghost legal = { LegalVariant ⟦<StepVariants as Choices>⟧.legals };

    fn known(&self) {
        nano_schema::known_variant::<Self, StepVariants>(self);
    }
}

impl BinCodec for Step {
    ghost bin = { bin_choice ⟦<Step as EnumSchema>⟧.view ⟦<StepVariants as BinShapes>⟧.chosen
        refl };

    ghost agrees = { agreed };
}

impl SerBin for Step {
    fn ser_bin(&self, alloc: Global, output: &mut Vec<u8>) -> Result<(), AllocError> {
        nano_bin_schema::write_choice_bin::<Self, StepVariants>(self, alloc, output)
    }
}

impl DeBin for Step {
    ghost is_decodable = { refl };

    fn de_bin(alloc: Global, offset: &mut usize, bytes: &[u8]) -> Result<Self, DeBinErr> {
        nano_bin_schema::read_choice_bin::<Self, StepVariants>(alloc, offset, bytes)
    }
}

impl JsonCodec for Step {
    ghost json = { json_choice ⟦<Step as EnumSchema>⟧.view ⟦<StepVariants as JsonShapes>⟧.codec
        refl refl refl };

    ghost agrees = { agreed };
}

impl SerJson for Step {
    fn ser_json(&self, alloc: Global, d: usize, s: &mut SerJsonState) -> Result<(), AllocError> {
        nano_json_schema::write_choice_json::<Self, StepVariants>(self, alloc, d, s)
    }
}

impl DeJson for Step {
    fn de_json(alloc: Global, state: &mut DeJsonState, input: &mut Chars<'_>) -> JsonResult<Self> {
        nano_json_schema::read_choice_json::<Self, StepVariants>(alloc, state, input)
    }
}

impl RonCodec for Step {
    ghost ron = { ron_choice ⟦<Step as EnumSchema>⟧.view ⟦<StepVariants as RonShapes>⟧.codec refl
        refl refl };

    ghost agrees = { agreed };
}

impl SerRon for Step {
    fn ser_ron(&self, alloc: Global, d: usize, s: &mut SerRonState) -> Result<(), AllocError> {
        nano_ron_schema::write_choice_ron::<Self, StepVariants>(self, alloc, d, s)
    }
}

impl DeRon for Step {
    fn de_ron(alloc: Global, state: &mut DeRonState, input: &mut Chars<'_>) -> RonResult<Self> {
        nano_ron_schema::read_choice_ron::<Self, StepVariants>(alloc, state, input)
    }
}

pub struct TripNames<const I: usize> {}

impl<const I: usize> Label for TripNames<I> {
    ghost label = { if I == 0 then codes "there" else if I == 1 then codes "new"
        else codes "steps" };

    fn text() -> &'static str {
        nano_schema::name_of!(I, 0 => "there", 1 => "new", _ => "steps")
    }
}

type TripFields = (
    Required<TripNames<0>, Marker>,
    (
        Optional<TripNames<1>, Empty>,
        Required<TripNames<2>, Vec<Step>>,
    ),
);

impl StructSchema for Trip {
    type Values = <TripFields as Shape>::Values;

    ghost view = { λ x. (x.there, (x.new, x.steps)) };

    fn make(values: Self::Values) -> Self {
        let (there, (new, steps)) = values;
        Trip { there, new, steps }
    }
}

impl<'a> FieldRefs<'a> for Trip {
    type Refs = <TripFields as Borrowed<'a>>::Refs;

    ghost values = { ⟦<TripFields as Borrowed<'a>>⟧.values };

    fn as_refs(&'a self) -> Self::Refs {
        (&self.there, (&self.new, &self.steps))
    }
}

impl Value for Trip {
    ghost means = { λ x. ⟦<TripFields as Shape>⟧.means (⟦<Trip as StructSchema>⟧.view x) };

    ghost legal = { ⟦<TripFields as Shape>⟧.legal };

    fn known(&self) {
        nano_schema::known_record::<Self, TripFields>(self);
    }
}

impl BinCodec for Trip {
    ghost bin = { bin_of ⟦<Trip as StructSchema>⟧.view ⟦<TripFields as BinShape>⟧.codec };

    ghost agrees = { agreed };
}

impl SerBin for Trip {
    fn ser_bin(&self, alloc: Global, output: &mut Vec<u8>) -> Result<(), AllocError> {
        nano_bin_schema::write_record_bin::<Self, TripFields>(self, alloc, output)
    }
}

impl DeBin for Trip {
    ghost is_decodable = { refl };

    fn de_bin(alloc: Global, offset: &mut usize, bytes: &[u8]) -> Result<Self, DeBinErr> {
        nano_bin_schema::read_record_bin::<Self, TripFields>(alloc, offset, bytes)
    }
}

impl JsonCodec for Trip {
    ghost json = { json_of ⟦<Trip as StructSchema>⟧.view ⟦<TripFields as JsonShape>⟧.codec refl };

    ghost agrees = { agreed };
}

impl SerJson for Trip {
    fn ser_json(&self, alloc: Global, d: usize, s: &mut SerJsonState) -> Result<(), AllocError> {
        nano_json_schema::write_record_json::<Self, TripFields>(self, alloc, d, s)
    }
}

impl DeJson for Trip {
    fn de_json(alloc: Global, state: &mut DeJsonState, input: &mut Chars<'_>) -> JsonResult<Self> {
        nano_json_schema::read_record_json::<Self, TripFields>(alloc, state, input)
    }

    fn de_json_plain(
        alloc: Global,
        place: &mut Place,
        input: &mut Chars<'_>,
        text: &mut String,
    ) -> Option<Self> {
        nano_json_schema::take_record_json::<Self, TripFields>(alloc, place, input, text)
    }
}

impl RonCodec for Trip {
    ghost ron = { ron_of ⟦<Trip as StructSchema>⟧.view ⟦<TripFields as RonShape>⟧.codec refl };

    ghost agrees = { agreed };
}

impl SerRon for Trip {
    fn ser_ron(&self, alloc: Global, d: usize, s: &mut SerRonState) -> Result<(), AllocError> {
        nano_ron_schema::write_record_ron::<Self, TripFields>(self, alloc, d, s)
    }
}

impl DeRon for Trip {
    fn de_ron(alloc: Global, state: &mut DeRonState, input: &mut Chars<'_>) -> RonResult<Self> {
        nano_ron_schema::read_record_ron::<Self, TripFields>(alloc, state, input)
    }
}
