//! Written by derive_files: how the types of the module above are encoded.

ghost use Rattle.std.specs.Prelude.{codes, ◌==◌, if◌then◌else◌, ◌≡◌, refl};
ghost use Rattle.nano_schema.specs.UserTypes.{text, agreed, LegalVariant};
ghost use Rattle.nano_bin_schema.specs.Structs.{bin_of};
ghost use Rattle.nano_json_schema.specs.Structs.{json_of};
ghost use Rattle.nano_ron_schema.specs.Structs.{ron_of};
ghost use Rattle.nano_schema.specs.declared.choices.Either.TheVariants.{First, Later};
ghost use Rattle.nano_bin_schema.specs.Enums.{bin_choice};
ghost use Rattle.nano_json_schema.specs.Enums.{json_choice};
ghost use Rattle.nano_ron_schema.specs.Enums.{ron_choice};

use super::*;
use nano_bin_schema::{BinCodec, BinShape, BinShapes, DeBin, DeBinErr, SerBin};
use nano_json_schema::{
    DeJson, DeJsonState, JsonCodec, JsonResult, JsonShape, JsonShapes, Place, SerJson, SerJsonState,
};
use nano_ron_schema::{
    DeRon, DeRonState, RonCodec, RonResult, RonShape, RonShapes, SerRon, SerRonState,
};
use nano_schema::{
    Borrowed, BorrowedChoices, Choices, DefaultOf, Either, EnumSchema, FieldRefs, Label, Required,
    Shape, Skipped, Struct, StructSchema, TypeDefault, Unit, Value, Variant, VariantRefs,
};
use std::alloc::{AllocError, Global};
use std::str::Chars;

pub struct DraftNames<const I: usize> {}

impl<const I: usize> Label for DraftNames<I> {
    ghost label = { if I == 0 then codes "title" else codes "words" };

    fn text() -> &'static str {
        nano_schema::name_of!(I, 0 => "title", _ => "words")
    }
}

/// The default of `state`.
pub struct DraftStateDefault {}

impl DefaultOf<String> for DraftStateDefault {
    ghost missing = { text (codes "open") };

    fn default(alloc: Global) -> Result<String, AllocError> {
        String::from_str(alloc, "open")
    }
}

type DraftFields = (
    (
        Required<DraftNames<0>, String>,
        Skipped<Vec<String>, TypeDefault>,
    ),
    (
        Skipped<String, DraftStateDefault>,
        (
            Required<DraftNames<1>, Vec<u32>>,
            Skipped<BTreeMap<String, u32>, TypeDefault>,
        ),
    ),
);

impl StructSchema for Draft {
    type Values = <DraftFields as Shape>::Values;

    ghost view = { λ x. ((x.title, x.found), (x.state, (x.words, x.places))) };

    fn make(values: Self::Values) -> Self
        ensures seen { ⟦<Draft as StructSchema>⟧.view result ≡ values }
        ensures skipped { ⟦<u32 as std::default::Default>⟧.is_default result.opened }
    {
        let ((title, found), (state, (words, places))) = values;
        Draft {
            title,
            found,
            state,
            words,
            places,
            opened: std::default::Default::default(),
        }
    }
}

impl<'a> FieldRefs<'a> for Draft {
    type Refs = <DraftFields as Borrowed<'a>>::Refs;

    ghost values = { ⟦<DraftFields as Borrowed<'a>>⟧.values };

    fn as_refs(&'a self) -> Self::Refs {
        (
            (&self.title, &self.found),
            (&self.state, (&self.words, &self.places)),
        )
    }
}

impl Value for Draft {
    ghost means = { λ x. ⟦<DraftFields as Shape>⟧.means (⟦<Draft as StructSchema>⟧.view x) };

    ghost legal = { ⟦<DraftFields as Shape>⟧.legal };

    fn known(&self) {
        nano_schema::known_record::<Self, DraftFields>(self);
    }
}

impl BinCodec for Draft {
    ghost bin = { bin_of ⟦<Draft as StructSchema>⟧.view ⟦<DraftFields as BinShape>⟧.codec };

    ghost agrees = { agreed };
}

impl SerBin for Draft {
    fn ser_bin(&self, alloc: Global, output: &mut Vec<u8>) -> Result<(), AllocError> {
        nano_bin_schema::write_record_bin::<Self, DraftFields>(self, alloc, output)
    }
}

impl DeBin for Draft {
    ghost is_decodable = { refl };

    fn de_bin(alloc: Global, offset: &mut usize, bytes: &[u8]) -> Result<Self, DeBinErr> {
        nano_bin_schema::read_record_bin::<Self, DraftFields>(alloc, offset, bytes)
    }
}

impl JsonCodec for Draft {
    ghost json = { json_of ⟦<Draft as StructSchema>⟧.view ⟦<DraftFields as JsonShape>⟧.codec refl };

    ghost agrees = { agreed };
}

impl SerJson for Draft {
    fn ser_json(&self, alloc: Global, d: usize, s: &mut SerJsonState) -> Result<(), AllocError> {
        nano_json_schema::write_record_json::<Self, DraftFields>(self, alloc, d, s)
    }
}

impl DeJson for Draft {
    fn de_json(alloc: Global, state: &mut DeJsonState, input: &mut Chars<'_>) -> JsonResult<Self> {
        nano_json_schema::read_record_json::<Self, DraftFields>(alloc, state, input)
    }

    fn de_json_plain(
        alloc: Global,
        place: &mut Place,
        input: &mut Chars<'_>,
        text: &mut String,
    ) -> Option<Self> {
        nano_json_schema::take_record_json::<Self, DraftFields>(alloc, place, input, text)
    }
}

impl RonCodec for Draft {
    ghost ron = { ron_of ⟦<Draft as StructSchema>⟧.view ⟦<DraftFields as RonShape>⟧.codec refl };

    ghost agrees = { agreed };
}

impl SerRon for Draft {
    fn ser_ron(&self, alloc: Global, d: usize, s: &mut SerRonState) -> Result<(), AllocError> {
        nano_ron_schema::write_record_ron::<Self, DraftFields>(self, alloc, d, s)
    }
}

impl DeRon for Draft {
    fn de_ron(alloc: Global, state: &mut DeRonState, input: &mut Chars<'_>) -> RonResult<Self> {
        nano_ron_schema::read_record_ron::<Self, DraftFields>(alloc, state, input)
    }
}

pub struct EditNames<const I: usize> {}

impl<const I: usize> Label for EditNames<I> {
    ghost label = { if I == 0 then codes "Close" else codes "Add" };

    fn text() -> &'static str {
        nano_schema::name_of!(I, 0 => "Close", _ => "Add")
    }
}

pub struct EditAddName {}

impl Label for EditAddName {
    ghost label = { codes "words" };

    fn text() -> &'static str {
        "words"
    }
}

type EditAddParts = (
    Required<EditAddName, Vec<u32>>,
    Skipped<Vec<u32>, TypeDefault>,
);

type EditVariants2 = Variant<EditNames<1>, Struct<EditAddParts>>;

type EditVariants = (Variant<EditNames<0>, Unit>, EditVariants2);

type EditValues2 = (Vec<u32>, Vec<u32>);

type EditValues = Either<(), EditValues2>;

type EditRefs2<'a> = (&'a Vec<u32>, &'a Vec<u32>);

type EditRefs<'a> = Either<(), EditRefs2<'a>>;

impl EnumSchema for Edit {
    ghost use Rattle.test_types.specs.declared.draft.Edit.TheVariants.{Close, Add};

    type Values = EditValues;

    ghost view = { λ x. elim x [
      | Close ↦ First tt
      | Add v0 v1 ↦ Later (v0, v1)
    ] };

    fn make(values: Self::Values) -> Self {
        let later = match values {
            Either::First(values) => {
                let () = values;
                return Self::Close;
            }
            Either::Later(later) => later,
        };
        let (words, seen) = later;
        Self::Add { words, seen }
    }
}

impl<'a> VariantRefs<'a> for Edit {
    type Refs = EditRefs<'a>;

    ghost values = { ⟦<EditVariants as BorrowedChoices<'a>>⟧.values };

    fn as_refs(&'a self) -> Self::Refs {
        match self {
            Self::Close => {
                let refs = ();
                Either::First(refs)
            }
            Self::Add { words, seen } => {
                let refs = (words, seen);
                Either::Later(refs)
            }
        }
    }
}

impl Value for Edit {
    ghost means = { λ x. ⟦<EditVariants as Choices>⟧.means 0 (⟦<Edit as EnumSchema>⟧.view x) };

    ghost legal = { LegalVariant ⟦<EditVariants as Choices>⟧.legals };

    fn known(&self) {
        nano_schema::known_variant::<Self, EditVariants>(self);
    }
}

impl BinCodec for Edit {
    ghost bin = { bin_choice ⟦<Edit as EnumSchema>⟧.view ⟦<EditVariants as BinShapes>⟧.chosen
        refl };

    ghost agrees = { agreed };
}

impl SerBin for Edit {
    fn ser_bin(&self, alloc: Global, output: &mut Vec<u8>) -> Result<(), AllocError> {
        nano_bin_schema::write_choice_bin::<Self, EditVariants>(self, alloc, output)
    }
}

impl DeBin for Edit {
    ghost is_decodable = { refl };

    fn de_bin(alloc: Global, offset: &mut usize, bytes: &[u8]) -> Result<Self, DeBinErr> {
        nano_bin_schema::read_choice_bin::<Self, EditVariants>(alloc, offset, bytes)
    }
}

impl JsonCodec for Edit {
    ghost json = { json_choice ⟦<Edit as EnumSchema>⟧.view ⟦<EditVariants as JsonShapes>⟧.codec
        refl refl refl };

    ghost agrees = { agreed };
}

impl SerJson for Edit {
    fn ser_json(&self, alloc: Global, d: usize, s: &mut SerJsonState) -> Result<(), AllocError> {
        nano_json_schema::write_choice_json::<Self, EditVariants>(self, alloc, d, s)
    }
}

impl DeJson for Edit {
    fn de_json(alloc: Global, state: &mut DeJsonState, input: &mut Chars<'_>) -> JsonResult<Self> {
        nano_json_schema::read_choice_json::<Self, EditVariants>(alloc, state, input)
    }
}

impl RonCodec for Edit {
    ghost ron = { ron_choice ⟦<Edit as EnumSchema>⟧.view ⟦<EditVariants as RonShapes>⟧.codec refl
        refl refl };

    ghost agrees = { agreed };
}

impl SerRon for Edit {
    fn ser_ron(&self, alloc: Global, d: usize, s: &mut SerRonState) -> Result<(), AllocError> {
        nano_ron_schema::write_choice_ron::<Self, EditVariants>(self, alloc, d, s)
    }
}

impl DeRon for Edit {
    fn de_ron(alloc: Global, state: &mut DeRonState, input: &mut Chars<'_>) -> RonResult<Self> {
        nano_ron_schema::read_choice_ron::<Self, EditVariants>(alloc, state, input)
    }
}
