//! Written by derive_files: how the types of the module above are encoded.

ghost use Rattle.std.specs.Prelude.{codes, ◌==◌, if◌then◌else◌, ◌∷◌, [], refl};
ghost use Rattle.nano_bin_schema.specs.Structs.{bin_of};
ghost use Rattle.nano_schema.specs.UserTypes.{agreed, LegalVariant};
ghost use Rattle.nano_json_schema.specs.Structs.{json_of};
ghost use Rattle.nano_schema.specs.declared.choices.Either.TheVariants.{First, Later};
ghost use Rattle.nano_bin_schema.specs.Enums.{bin_choice};
ghost use Rattle.nano_json_schema.specs.Enums.{json_choice};

use super::*;
use nano_bin_schema::{BinCodec, BinShape, BinShapes, DeBin, DeBinErr, SerBin};
use nano_json_schema::{
    DeJson, DeJsonState, JsonCodec, JsonResult, JsonShape, JsonShapes, Place, SerJson, SerJsonState,
};
use nano_schema::{
    Aliased, Borrowed, BorrowedChoices, Choices, Either, EnumSchema, FieldRefs, Label, Newtype,
    Optional, Required, Shape, Struct, StructSchema, Unit, Value, Variant, VariantRefs,
};
use std::alloc::{AllocError, Global};
use std::str::Chars;

pub struct MeasuresNames<const I: usize> {}

impl<const I: usize> Label for MeasuresNames<I> {
    ghost label = { if I == 0 then (103 ∷ 114 ∷ 195 ∷ 182 ∷ 195 ∷ 159 ∷ 101 ∷ [])
        else if I == 1 then (233 ∷ 149 ∷ 183 ∷ 227 ∷ 129 ∷ 149 ∷ [])
        else if I == 2 then (108 ∷ 195 ∷ 164 ∷ 110 ∷ 103 ∷ 101 ∷ []) else codes "weight" };

    fn text() -> &'static str {
        nano_schema::name_of!(I, 0 => "größe", 1 => "長さ", 2 => "länge", _ => "weight")
    }
}

type MeasuresFields = (
    Required<MeasuresNames<0>, u32>,
    (
        Aliased<MeasuresNames<2>, Optional<MeasuresNames<1>, u32>>,
        Required<MeasuresNames<3>, u32>,
    ),
);

impl StructSchema for Measures {
    type Values = <MeasuresFields as Shape>::Values;

    ghost view = { λ x. (x.size, (x.length, x.weight)) };

    fn make(values: Self::Values) -> Self {
        let (size, (length, weight)) = values;
        Measures {
            size,
            length,
            weight,
        }
    }
}

impl<'a> FieldRefs<'a> for Measures {
    type Refs = <MeasuresFields as Borrowed<'a>>::Refs;

    ghost values = { ⟦<MeasuresFields as Borrowed<'a>>⟧.values };

    fn as_refs(&'a self) -> Self::Refs {
        (&self.size, (&self.length, &self.weight))
    }
}

impl Value for Measures {
    ghost means = { λ x. ⟦<MeasuresFields as Shape>⟧.means (⟦<Measures as StructSchema>⟧.view x) };

    ghost legal = { ⟦<MeasuresFields as Shape>⟧.legal };

    fn known(&self) {
        nano_schema::known_record::<Self, MeasuresFields>(self);
    }
}

impl BinCodec for Measures {
    ghost bin = { bin_of ⟦<Measures as StructSchema>⟧.view ⟦<MeasuresFields as BinShape>⟧.codec };

    ghost agrees = { agreed };
}

impl SerBin for Measures {
    fn ser_bin(&self, alloc: Global, output: &mut Vec<u8>) -> Result<(), AllocError> {
        nano_bin_schema::write_record_bin::<Self, MeasuresFields>(self, alloc, output)
    }
}

impl DeBin for Measures {
    ghost is_decodable = { refl };

    fn de_bin(alloc: Global, offset: &mut usize, bytes: &[u8]) -> Result<Self, DeBinErr> {
        nano_bin_schema::read_record_bin::<Self, MeasuresFields>(alloc, offset, bytes)
    }
}

impl JsonCodec for Measures {
    ghost json = { json_of ⟦<Measures as StructSchema>⟧.view
        ⟦<MeasuresFields as JsonShape>⟧.codec refl };

    ghost agrees = { agreed };
}

impl SerJson for Measures {
    fn ser_json(&self, alloc: Global, d: usize, s: &mut SerJsonState) -> Result<(), AllocError> {
        nano_json_schema::write_record_json::<Self, MeasuresFields>(self, alloc, d, s)
    }
}

impl DeJson for Measures {
    fn de_json(alloc: Global, state: &mut DeJsonState, input: &mut Chars<'_>) -> JsonResult<Self> {
        nano_json_schema::read_record_json::<Self, MeasuresFields>(alloc, state, input)
    }

    fn de_json_plain(
        alloc: Global,
        place: &mut Place,
        input: &mut Chars<'_>,
        text: &mut String,
    ) -> Option<Self> {
        nano_json_schema::take_record_json::<Self, MeasuresFields>(alloc, place, input, text)
    }
}

pub struct SkyNames<const I: usize> {}

impl<const I: usize> Label for SkyNames<I> {
    ghost label = { if I == 0 then (209 ∷ 143 ∷ 209 ∷ 129 ∷ 208 ∷ 189 ∷ 208 ∷ 190 ∷ [])
        else if I == 1 then (98 ∷ 101 ∷ 119 ∷ 195 ∷ 182 ∷ 108 ∷ 107 ∷ 116 ∷ []) else codes "Rain" };

    fn text() -> &'static str {
        nano_schema::name_of!(I, 0 => "ясно", 1 => "bewölkt", _ => "Rain")
    }
}

type SkyCloudedParts = u8;

pub struct SkyRainName {}

impl Label for SkyRainName {
    ghost label = { (104 ∷ 195 ∷ 182 ∷ 104 ∷ 101 ∷ []) };

    fn text() -> &'static str {
        "höhe"
    }
}

type SkyRainParts = Required<SkyRainName, u16>;

type SkyVariants3 = Variant<SkyNames<2>, Struct<SkyRainParts>>;

type SkyVariants2 = (Variant<SkyNames<1>, Newtype<SkyCloudedParts>>, SkyVariants3);

type SkyVariants = (Variant<SkyNames<0>, Unit>, SkyVariants2);

type SkyValues3 = u16;

type SkyValues2 = Either<u8, SkyValues3>;

type SkyValues = Either<(), SkyValues2>;

type SkyRefs3<'a> = &'a u16;

type SkyRefs2<'a> = Either<&'a u8, SkyRefs3<'a>>;

type SkyRefs<'a> = Either<(), SkyRefs2<'a>>;

impl EnumSchema for Sky {
    ghost use Rattle.test_types.specs.declared.measures.Sky.TheVariants.{Clear, Clouded, Rain};

    type Values = SkyValues;

    ghost view = { λ x. elim x [
      | Clear ↦ First tt
      | Clouded v0 ↦ Later (First v0)
      | Rain v0 ↦ Later (Later v0)
    ] };

    fn make(values: Self::Values) -> Self {
        let later = match values {
            Either::First(values) => {
                let () = values;
                return Self::Clear;
            }
            Either::Later(later) => later,
        };
        let later = match later {
            Either::First(values) => {
                let first = values;
                return Self::Clouded(first);
            }
            Either::Later(later) => later,
        };
        let depth = later;
        Self::Rain { depth }
    }
}

impl<'a> VariantRefs<'a> for Sky {
    type Refs = SkyRefs<'a>;

    ghost values = { ⟦<SkyVariants as BorrowedChoices<'a>>⟧.values };

    fn as_refs(&'a self) -> Self::Refs {
        match self {
            Self::Clear => {
                let refs = ();
                Either::First(refs)
            }
            Self::Clouded(first) => {
                let refs = first;
                Either::Later(Either::First(refs))
            }
            Self::Rain { depth } => {
                let refs = depth;
                Either::Later(Either::Later(refs))
            }
        }
    }
}

impl Value for Sky {
    ghost means = { λ x. ⟦<SkyVariants as Choices>⟧.means 0 (⟦<Sky as EnumSchema>⟧.view x) };

    ghost legal = { LegalVariant ⟦<SkyVariants as Choices>⟧.legals };

    fn known(&self) {
        nano_schema::known_variant::<Self, SkyVariants>(self);
    }
}

impl BinCodec for Sky {
    ghost bin = { bin_choice ⟦<Sky as EnumSchema>⟧.view ⟦<SkyVariants as BinShapes>⟧.chosen refl };

    ghost agrees = { agreed };
}

impl SerBin for Sky {
    fn ser_bin(&self, alloc: Global, output: &mut Vec<u8>) -> Result<(), AllocError> {
        nano_bin_schema::write_choice_bin::<Self, SkyVariants>(self, alloc, output)
    }
}

impl DeBin for Sky {
    ghost is_decodable = { refl };

    fn de_bin(alloc: Global, offset: &mut usize, bytes: &[u8]) -> Result<Self, DeBinErr> {
        nano_bin_schema::read_choice_bin::<Self, SkyVariants>(alloc, offset, bytes)
    }
}

impl JsonCodec for Sky {
    ghost json = { json_choice ⟦<Sky as EnumSchema>⟧.view ⟦<SkyVariants as JsonShapes>⟧.codec
        refl refl refl };

    ghost agrees = { agreed };
}

impl SerJson for Sky {
    fn ser_json(&self, alloc: Global, d: usize, s: &mut SerJsonState) -> Result<(), AllocError> {
        nano_json_schema::write_choice_json::<Self, SkyVariants>(self, alloc, d, s)
    }
}

impl DeJson for Sky {
    fn de_json(alloc: Global, state: &mut DeJsonState, input: &mut Chars<'_>) -> JsonResult<Self> {
        nano_json_schema::read_choice_json::<Self, SkyVariants>(alloc, state, input)
    }
}
