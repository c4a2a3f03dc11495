//! Written by derive_files: how the types of the module above are encoded.

ghost use Rattle.std.specs.Prelude.{codes, ◌==◌, if◌then◌else◌, refl};
ghost use Rattle.nano_bin_schema.specs.Structs.{bin_of};
ghost use Rattle.nano_schema.specs.UserTypes.{agreed, LegalVariant};
ghost use Rattle.nano_json_schema.specs.Structs.{json_of};
ghost use Rattle.nano_ron_schema.specs.Structs.{ron_of};
ghost use Rattle.nano_schema.specs.declared.choices.Either.TheVariants.{First, Later};
ghost use Rattle.nano_bin_schema.specs.Enums.{bin_choice};
ghost use Rattle.nano_json_schema.specs.Enums.{json_choice};
ghost use Rattle.nano_ron_schema.specs.Enums.{ron_choice};

use super::*;
use nano_bin_schema::{BinCodec, BinShape, BinShapes, DeBin, DeBinErr, SerBin};
use nano_json_schema::{
    DeJson, DeJsonState, JsonCodec, JsonResult, JsonShape, JsonShapes, Place, SerJson, SerJsonState,
};
use nano_ron_schema::{
    DeRon, DeRonState, RonCodec, RonResult, RonShape, RonShapes, SerRon, SerRonState,
};
use nano_schema::{
    Borrowed, BorrowedChoices, Choices, Either, EnumSchema, FieldRefs, Label, Newtype, Optional,
    Required, Shape, Struct, StructSchema, Tuple, Unit, Value, Variant, VariantRefs,
};
use std::alloc::{AllocError, Global};
use std::str::Chars;

pub struct StoryNames<const I: usize> {}

impl<const I: usize> Label for StoryNames<I> {
    ghost label = { if I == 0 then codes "title" else if I == 1 then codes "first"
        else if I == 2 then codes "quests" else if I == 3 then codes "scenes" else codes "ending" };

    fn text() -> &'static str {
        nano_schema::name_of!(I, 0 => "title", 1 => "first", 2 => "quests", 3 => "scenes",
            _ => "ending")
    }
}

type StoryFields = (
    (
        Required<StoryNames<0>, String>,
        Required<StoryNames<1>, Scene>,
    ),
    (
        Required<StoryNames<2>, Vec<Quest>>,
        (
            Required<StoryNames<3>, BTreeMap<String, Scene>>,
            Optional<StoryNames<4>, Ending>,
        ),
    ),
);

impl StructSchema for Story {
    type Values = <StoryFields as Shape>::Values;

    ghost view = { λ x. ((x.title, x.first), (x.quests, (x.scenes, x.ending))) };

    fn make(values: Self::Values) -> Self {
        let ((title, first), (quests, (scenes, ending))) = values;
        Story {
            title,
            first,
            quests,
            scenes,
            ending,
        }
    }
}

impl<'a> FieldRefs<'a> for Story {
    type Refs = <StoryFields as Borrowed<'a>>::Refs;

    ghost values = { ⟦<StoryFields as Borrowed<'a>>⟧.values };

    fn as_refs(&'a self) -> Self::Refs {
        (
            (&self.title, &self.first),
            (&self.quests, (&self.scenes, &self.ending)),
        )
    }
}

impl Value for Story {
    ghost means = { λ x. ⟦<StoryFields as Shape>⟧.means (⟦<Story as StructSchema>⟧.view x) };

    ghost legal = { ⟦<StoryFields as Shape>⟧.legal };

    fn known(&self) {
        nano_schema::known_record::<Self, StoryFields>(self);
    }
}

impl BinCodec for Story {
    ghost bin = { bin_of ⟦<Story as StructSchema>⟧.view ⟦<StoryFields as BinShape>⟧.codec };

    ghost agrees = { agreed };
}

impl SerBin for Story {
    fn ser_bin(&self, alloc: Global, output: &mut Vec<u8>) -> Result<(), AllocError> {
        nano_bin_schema::write_record_bin::<Self, StoryFields>(self, alloc, output)
    }
}

impl DeBin for Story {
    ghost is_decodable = { refl };

    fn de_bin(alloc: Global, offset: &mut usize, bytes: &[u8]) -> Result<Self, DeBinErr> {
        nano_bin_schema::read_record_bin::<Self, StoryFields>(alloc, offset, bytes)
    }
}

impl JsonCodec for Story {
    ghost json = { json_of ⟦<Story as StructSchema>⟧.view ⟦<StoryFields as JsonShape>⟧.codec refl };

    ghost agrees = { agreed };
}

impl SerJson for Story {
    fn ser_json(&self, alloc: Global, d: usize, s: &mut SerJsonState) -> Result<(), AllocError> {
        nano_json_schema::write_record_json::<Self, StoryFields>(self, alloc, d, s)
    }
}

impl DeJson for Story {
    fn de_json(alloc: Global, state: &mut DeJsonState, input: &mut Chars<'_>) -> JsonResult<Self> {
        nano_json_schema::read_record_json::<Self, StoryFields>(alloc, state, input)
    }

    fn de_json_plain(
        alloc: Global,
        place: &mut Place,
        input: &mut Chars<'_>,
        text: &mut String,
    ) -> Option<Self> {
        nano_json_schema::take_record_json::<Self, StoryFields>(alloc, place, input, text)
    }
}

impl RonCodec for Story {
    ghost ron = { ron_of ⟦<Story as StructSchema>⟧.view ⟦<StoryFields as RonShape>⟧.codec refl };

    ghost agrees = { agreed };
}

impl SerRon for Story {
    fn ser_ron(&self, alloc: Global, d: usize, s: &mut SerRonState) -> Result<(), AllocError> {
        nano_ron_schema::write_record_ron::<Self, StoryFields>(self, alloc, d, s)
    }
}

impl DeRon for Story {
    fn de_ron(alloc: Global, state: &mut DeRonState, input: &mut Chars<'_>) -> RonResult<Self> {
        nano_ron_schema::read_record_ron::<Self, StoryFields>(alloc, state, input)
    }
}

pub struct EndingNames<const I: usize> {}

impl<const I: usize> Label for EndingNames<I> {
    ghost label = { if I == 0 then codes "Open" else if I == 1 then codes "In"
        else if I == 2 then codes "Won" else codes "OneOf" };

    fn text() -> &'static str {
        nano_schema::name_of!(I, 0 => "Open", 1 => "In", 2 => "Won", _ => "OneOf")
    }
}

type EndingInParts = Scene;

type EndingWonParts = (Quest, Option<Scene>);

pub struct EndingOneOfName {}

impl Label for EndingOneOfName {
    ghost label = { codes "scenes" };

    fn text() -> &'static str {
        "scenes"
    }
}

type EndingOneOfParts = Required<EndingOneOfName, Vec<Scene>>;

type EndingVariants4 = Variant<EndingNames<3>, Struct<EndingOneOfParts>>;

type EndingVariants3 = (
    Variant<EndingNames<2>, Tuple<EndingWonParts>>,
    EndingVariants4,
);

type EndingVariants2 = (
    Variant<EndingNames<1>, Newtype<EndingInParts>>,
    EndingVariants3,
);

type EndingVariants = (Variant<EndingNames<0>, Unit>, EndingVariants2);

type EndingValues4 = Vec<Scene>;

type EndingValues3 = Either<(Quest, Option<Scene>), EndingValues4>;

type EndingValues2 = Either<Scene, EndingValues3>;

type EndingValues = Either<(), EndingValues2>;

type EndingRefs4<'a> = &'a Vec<Scene>;

type EndingRefs3<'a> = Either<(&'a Quest, &'a Option<Scene>), EndingRefs4<'a>>;

type EndingRefs2<'a> = Either<&'a Scene, EndingRefs3<'a>>;

type EndingRefs<'a> = Either<(), EndingRefs2<'a>>;

impl EnumSchema for Ending {
    ghost use Rattle.test_nested_parts.specs.declared.story.Ending.TheVariants.{Open, In, Won};
    ghost use Rattle.test_nested_parts.specs.declared.story.Ending.TheVariants.{OneOf};

    type Values = EndingValues;

    ghost view = { λ x. elim x [
      | Open ↦ First tt
      | In v0 ↦ Later (First v0)
      | Won v0 v1 ↦ Later (Later (First (v0, v1)))
      | OneOf v0 ↦ Later (Later (Later v0))
    ] };

    fn make(values: Self::Values) -> Self {
        let later = match values {
            Either::First(values) => {
                let () = values;
                return Self::Open;
            }
            Either::Later(later) => later,
        };
        let later = match later {
            Either::First(values) => {
                let first = values;
                return Self::In(first);
            }
            Either::Later(later) => later,
        };
        let later = match later {
            Either::First(values) => {
                let (first, second) = values;
                return Self::Won(first, second);
            }
            Either::Later(later) => later,
        };
        let scenes = later;
        Self::OneOf { scenes }
    }
}

impl<'a> VariantRefs<'a> for Ending {
    type Refs = EndingRefs<'a>;

    ghost values = { ⟦<EndingVariants as BorrowedChoices<'a>>⟧.values };

    fn as_refs(&'a self) -> Self::Refs {
        match self {
            Self::Open => {
                let refs = ();
                Either::First(refs)
            }
            Self::In(first) => {
                let refs = first;
                Either::Later(Either::First(refs))
            }
            Self::Won(first, second) => {
                let refs = (first, second);
                Either::Later(Either::Later(Either::First(refs)))
            }
            Self::OneOf { scenes } => {
                let refs = scenes;
                Either::Later(Either::Later(Either::Later(refs)))
            }
        }
    }
}

impl Value for Ending {
    ghost means = { λ x. ⟦<EndingVariants as Choices>⟧.means 0 (⟦<Ending as EnumSchema>⟧.view x) };

    ghost legal = { LegalVariant ⟦<EndingVariants as Choices>⟧.legals };

    fn known(&self) {
        nano_schema::known_variant::<Self, EndingVariants>(self);
    }
}

impl BinCodec for Ending {
    ghost bin = { bin_choice ⟦<Ending as EnumSchema>⟧.view ⟦<EndingVariants as BinShapes>⟧.chosen
        refl };

    ghost agrees = { agreed };
}

impl SerBin for Ending {
    fn ser_bin(&self, alloc: Global, output: &mut Vec<u8>) -> Result<(), AllocError> {
        nano_bin_schema::write_choice_bin::<Self, EndingVariants>(self, alloc, output)
    }
}

impl DeBin for Ending {
    ghost is_decodable = { refl };

    fn de_bin(alloc: Global, offset: &mut usize, bytes: &[u8]) -> Result<Self, DeBinErr> {
        nano_bin_schema::read_choice_bin::<Self, EndingVariants>(alloc, offset, bytes)
    }
}

impl JsonCodec for Ending {
    ghost json = { json_choice ⟦<Ending as EnumSchema>⟧.view
        ⟦<EndingVariants as JsonShapes>⟧.codec refl refl refl };

    ghost agrees = { agreed };
}

impl SerJson for Ending {
    fn ser_json(&self, alloc: Global, d: usize, s: &mut SerJsonState) -> Result<(), AllocError> {
        nano_json_schema::write_choice_json::<Self, EndingVariants>(self, alloc, d, s)
    }
}

impl DeJson for Ending {
    fn de_json(alloc: Global, state: &mut DeJsonState, input: &mut Chars<'_>) -> JsonResult<Self> {
        nano_json_schema::read_choice_json::<Self, EndingVariants>(alloc, state, input)
    }
}

impl RonCodec for Ending {
    ghost ron = { ron_choice ⟦<Ending as EnumSchema>⟧.view ⟦<EndingVariants as RonShapes>⟧.codec
        refl refl refl };

    ghost agrees = { agreed };
}

impl SerRon for Ending {
    fn ser_ron(&self, alloc: Global, d: usize, s: &mut SerRonState) -> Result<(), AllocError> {
        nano_ron_schema::write_choice_ron::<Self, EndingVariants>(self, alloc, d, s)
    }
}

impl DeRon for Ending {
    fn de_ron(alloc: Global, state: &mut DeRonState, input: &mut Chars<'_>) -> RonResult<Self> {
        nano_ron_schema::read_choice_ron::<Self, EndingVariants>(alloc, state, input)
    }
}
