//! Written by derive_files: how the types of the module above are encoded.

ghost use Rattle.std.specs.Prelude.{codes, ◌==◌, if◌then◌else◌, refl, OnOk, OnErr, ◌≡◌};
ghost use Rattle.nano_schema.specs.declared.choices.Either.TheVariants.{First, Later};
ghost use Rattle.nano_schema.specs.UserTypes.{LegalVariant, agreed};
ghost use Rattle.nano_bin_schema.specs.Enums.{bin_choice};
ghost use Rattle.nano_json_schema.specs.Enums.{json_choice};
ghost use Rattle.nano_ron_schema.specs.Enums.{ron_choice};
ghost use Rattle.nano_text.specs.Outcomes.{Appends, AppendsPart, Unchanged};
ghost use Rattle.nano_json_schema.specs.Variants.{content_text};

use super::*;
use nano_bin_nested::{
    ReadsBin, WritesBin, append_part_within, append_variant, no_memory, read_choice_within,
    read_record_within,
};
use nano_bin_schema::{BinCodec, BinShapes, DeBin, DeBinErr, SerBin};
use nano_json_nested::{
    NestedJson, ReadsJson, WritesJson, append_required_within, no_levels, read_choice_json_within,
    read_record_json_within, rollback_on_error, too_deep,
};
use nano_json_schema::{
    DeJson, DeJsonErr, DeJsonState, JsonCodec, JsonRefs, JsonResult, JsonShapes, SerJson,
    SerJsonState,
};
use nano_levels::{Levels, Other, Within};
use nano_ron_nested::{
    NestedRon, ReadsRon, WritesRon, append_required, read_choice_ron_within, read_record_ron_within,
};
use nano_ron_schema::{
    DeRon, DeRonErr, DeRonState, RonCodec, RonResult, RonShapes, SerRon, SerRonState,
};
use nano_schema::{
    BorrowedChoices, Choices, Either, EnumSchema, Label, Newtype, Required, Struct, StructSchema,
    Unit, Value, Variant, VariantRefs,
};
use std::alloc::{AllocError, Global};
use std::str::Chars;

pub struct WeatherNames<const I: usize> {}

impl<const I: usize> Label for WeatherNames<I> {
    ghost label = { if I == 0 then codes "Dry" else codes "Rain" };

    fn text() -> &'static str {
        nano_schema::name_of!(I, 0 => "Dry", _ => "Rain")
    }
}

type WeatherRainParts = u8;

type WeatherVariants2 = Variant<WeatherNames<1>, Newtype<WeatherRainParts>>;

type WeatherVariants = (Variant<WeatherNames<0>, Unit>, WeatherVariants2);

type WeatherValues2 = u8;

type WeatherValues = Either<(), WeatherValues2>;

type WeatherRefs2<'a> = &'a u8;

type WeatherRefs<'a> = Either<(), WeatherRefs2<'a>>;

impl EnumSchema for Weather {
    ghost use Rattle.test_nested_parts.specs.declared.camp.Weather.TheVariants.{Dry, Rain};

    type Values = WeatherValues;

    ghost view = { λ x. elim x [
      | Dry ↦ First tt
      | Rain v0 ↦ Later v0
    ] };

    fn make(values: Self::Values) -> Self {
        let later = match values {
            Either::First(values) => {
                let () = values;
                return Self::Dry;
            }
            Either::Later(later) => later,
        };
        let first = later;
        Self::Rain(first)
    }
}

impl<'a> VariantRefs<'a> for Weather {
    type Refs = WeatherRefs<'a>;

    ghost values = { ⟦<WeatherVariants as BorrowedChoices<'a>>⟧.values };

    fn as_refs(&'a self) -> Self::Refs {
        match self {
            Self::Dry => {
                let refs = ();
                Either::First(refs)
            }
            Self::Rain(first) => {
                let refs = first;
                Either::Later(refs)
            }
        }
    }
}

impl Value for Weather {
    ghost means = { λ x. ⟦<WeatherVariants as Choices>⟧.means 0 (⟦<Weather as EnumSchema>⟧.view
        x) };

    ghost legal = { LegalVariant ⟦<WeatherVariants as Choices>⟧.legals };

    fn known(&self) {
        nano_schema::known_variant::<Self, WeatherVariants>(self);
    }
}

impl BinCodec for Weather {
    ghost bin = { bin_choice ⟦<Weather as EnumSchema>⟧.view
        ⟦<WeatherVariants as BinShapes>⟧.chosen refl };

    ghost agrees = { agreed };
}

impl SerBin for Weather {
    fn ser_bin(&self, alloc: Global, output: &mut Vec<u8>) -> Result<(), AllocError> {
        nano_bin_schema::write_choice_bin::<Self, WeatherVariants>(self, alloc, output)
    }
}

impl DeBin for Weather {
    ghost is_decodable = { refl };

    fn de_bin(alloc: Global, offset: &mut usize, bytes: &[u8]) -> Result<Self, DeBinErr> {
        nano_bin_schema::read_choice_bin::<Self, WeatherVariants>(alloc, offset, bytes)
    }
}

impl JsonCodec for Weather {
    ghost json = { json_choice ⟦<Weather as EnumSchema>⟧.view
        ⟦<WeatherVariants as JsonShapes>⟧.codec refl refl refl };

    ghost agrees = { agreed };
}

impl SerJson for Weather {
    fn ser_json(&self, alloc: Global, d: usize, s: &mut SerJsonState) -> Result<(), AllocError> {
        nano_json_schema::write_choice_json::<Self, WeatherVariants>(self, alloc, d, s)
    }
}

impl DeJson for Weather {
    fn de_json(alloc: Global, state: &mut DeJsonState, input: &mut Chars<'_>) -> JsonResult<Self> {
        nano_json_schema::read_choice_json::<Self, WeatherVariants>(alloc, state, input)
    }
}

impl RonCodec for Weather {
    ghost ron = { ron_choice ⟦<Weather as EnumSchema>⟧.view
        ⟦<WeatherVariants as RonShapes>⟧.codec refl refl refl };

    ghost agrees = { agreed };
}

impl SerRon for Weather {
    fn ser_ron(&self, alloc: Global, d: usize, s: &mut SerRonState) -> Result<(), AllocError> {
        nano_ron_schema::write_choice_ron::<Self, WeatherVariants>(self, alloc, d, s)
    }
}

impl DeRon for Weather {
    fn de_ron(alloc: Global, state: &mut DeRonState, input: &mut Chars<'_>) -> RonResult<Self> {
        nano_ron_schema::read_choice_ron::<Self, WeatherVariants>(alloc, state, input)
    }
}

pub struct CampNames<const I: usize> {}

impl<const I: usize> Label for CampNames<I> {
    ghost label = { if I == 0 then codes "weather" else codes "camps" };

    fn text() -> &'static str {
        nano_schema::name_of!(I, 0 => "weather", _ => "camps")
    }
}

type CampFields = (
    Other<Required<CampNames<0>, Weather>>,
    Within<Required<CampNames<1>, Vec<Camp>>>,
);

impl StructSchema for Camp {
    ghost use Rattle.test_nested_parts.specs.CampCodecs.{camp_view};

    type Values = (Weather, Vec<Camp>);

    ghost view = { camp_view };

    fn make(values: Self::Values) -> Self {
        let (weather, camps) = values;
        Camp { weather, camps }
    }
}

impl Value for Camp {
    ghost use Rattle.test_nested_parts.specs.CampCodecs.{camp_means, camp_codec};

    ghost means = { camp_means };

    ghost legal = { camp_codec.encoding.legal };

    #[tactic(auto, using(crate::proofs::CampCodecsLaws::camp_legal))]
    fn known(&self) {
        Value::known(&self.weather);
        Value::known(&self.camps);
    }
}

// ---- bytes

impl BinCodec for Camp {
    ghost use Rattle.test_nested_parts.specs.CampCodecs.{camp_codec};

    ghost bin = { camp_codec };

    ghost agrees = { agreed };
}

impl WritesBin for Camp {
    #[tactic(auto, using(crate::proofs::CampCodecsLaws::camp_written_laws))]
    fn write_bin(&self, alloc: Global, output: &mut Vec<u8>) -> Result<(), AllocError> {
        let start = output.len();
        SerBin::ser_bin(&self.weather, alloc, output)?;
        append_part_within(alloc, &self.camps, output, start)
    }
}

impl SerBin for Camp {
    fn ser_bin(&self, alloc: Global, output: &mut Vec<u8>) -> Result<(), AllocError> {
        WritesBin::write_bin(self, alloc, output)
    }
}

impl ReadsBin<Camp> for Levels {
    #[cycle(read)]
    fn read_bin(&self, alloc: Global, offset: &mut usize, bytes: &[u8]) -> Result<Camp, DeBinErr> {
        let Levels::More(below) = self else {
            return Err(no_memory(*offset, bytes));
        };
        let Some(below) = below.first() else {
            return Err(no_memory(*offset, bytes));
        };
        read_record_within::<Levels, Camp, CampFields>(below, alloc, offset, bytes)
    }
}

impl DeBin for Camp {
    ghost is_decodable = { refl };

    fn de_bin(alloc: Global, offset: &mut usize, bytes: &[u8]) -> Result<Self, DeBinErr> {
        let levels = Levels::most();
        ReadsBin::<Self>::read_bin(levels, alloc, offset, bytes)
    }
}

// ---- JSON

impl JsonCodec for Camp {
    ghost use Rattle.test_nested_parts.specs.CampJsonCodecs.{camp_json};

    ghost json = { camp_json };

    ghost agrees = { agreed };
}

impl NestedJson for Camp {
    ghost use Rattle.test_nested_parts.specs.CampCodecs.{camp_means};
    ghost use Rattle.test_nested_parts.specs.CampJsonCodecs.{camp_json_at};

    ghost means = { camp_means };

    ghost at = { camp_json_at };
}

/// What writes `Camp` as JSON.
struct CampJsonWriter {}

impl CampJsonWriter {
    ghost use Rattle.test_nested_parts.specs.CampJsonCodecs.{camp_json};

    /// Appends the fields between braces. If the write fails, what was written so far is left.
    #[cycle(write_camp_json)]
    fn append_record(
        value: &Camp,
        alloc: Global,
        d: usize,
        s: &mut SerJsonState,
    ) -> Result<(), AllocError>
        ensures ok { OnOk result
            (Appends s.old.out s.new.out (camp_json.canonical.text d value.now)) }
        ensures err { OnErr result (AppendsPart s.old.out s.new.out) }
    {
        s.st_pre()?;
        let inner = d.saturating_add(1);
        let camps_is_first = Required::<CampNames<0>, Weather>::append_fields(
            &&value.weather,
            alloc,
            true,
            inner,
            s,
        )?;
        append_required_within(alloc, "camps", &value.camps, camps_is_first, inner, s)?;
        s.st_post(d)
    }
}

impl WritesJson for Camp {
    #[cycle(write_camp_json)]
    fn write_json(&self, alloc: Global, d: usize, s: &mut SerJsonState) -> Result<(), AllocError> {
        let start = s.out.len();
        let written = CampJsonWriter::append_record(self, alloc, d, s);
        rollback_on_error(&mut s.out, start, written)
    }
}

impl SerJson for Camp {
    fn ser_json(&self, alloc: Global, d: usize, s: &mut SerJsonState) -> Result<(), AllocError> {
        WritesJson::write_json(self, alloc, d, s)
    }
}

impl ReadsJson<Camp> for Levels {
    #[cycle(read)]
    fn read_json(
        &self,
        left: usize,
        alloc: Global,
        state: &mut DeJsonState,
        input: &mut Chars<'_>,
    ) -> Result<Camp, DeJsonErr> {
        if left == 0 {
            return Err(too_deep(alloc, state));
        }
        let Levels::More(below) = self else {
            return Err(no_levels(alloc, state));
        };
        let Some(below) = below.first() else {
            return Err(no_levels(alloc, state));
        };
        match read_record_json_within::<Levels, CampFields>(below, left - 1, alloc, state, input) {
            Ok(values) => Ok(Camp::make(values)),
            Err(error) => Err(error),
        }
    }
}

impl DeJson for Camp {
    fn de_json(
        alloc: Global,
        state: &mut DeJsonState,
        input: &mut Chars<'_>,
    ) -> Result<Self, DeJsonErr> {
        let levels = Levels::most();
        ReadsJson::<Self>::read_json(levels, 128, alloc, state, input)
    }
}

// ---- RON

impl RonCodec for Camp {
    ghost use Rattle.test_nested_parts.specs.CampRonCodecs.{camp_ron};

    ghost ron = { camp_ron };

    ghost agrees = { agreed };
}

impl NestedRon for Camp {
    ghost use Rattle.test_nested_parts.specs.CampCodecs.{camp_means};
    ghost use Rattle.test_nested_parts.specs.CampRonCodecs.{camp_ron_at};

    ghost means = { camp_means };

    ghost at = { camp_ron_at };
}

/// What writes `Camp` as RON.
struct CampRonWriter {}

impl CampRonWriter {
    ghost use Rattle.test_nested_parts.specs.CampRonCodecs.{camp_ron};

    /// Appends the fields between parentheses. If the write fails, what was written so far is left.
    #[cycle(write_camp_ron)]
    fn append_record(
        value: &Camp,
        alloc: Global,
        d: usize,
        s: &mut SerRonState,
    ) -> Result<(), AllocError>
        ensures ok { OnOk result
            (Appends s.old.out s.new.out (camp_ron.canonical.text d value.now)) }
        ensures err { OnErr result (AppendsPart s.old.out s.new.out) }
    {
        s.st_pre()?;
        let inner = d.saturating_add(1);
        append_required(alloc, "weather", &value.weather, inner, s)?;
        nano_ron_nested::append_required_within(alloc, "camps", &value.camps, inner, s)?;
        s.st_post(d)
    }
}

impl WritesRon for Camp {
    #[cycle(write_camp_ron)]
    fn write_ron(&self, alloc: Global, d: usize, s: &mut SerRonState) -> Result<(), AllocError> {
        let start = s.out.len();
        let written = CampRonWriter::append_record(self, alloc, d, s);
        nano_ron_nested::rollback_on_error(&mut s.out, start, written)
    }
}

impl SerRon for Camp {
    fn ser_ron(&self, alloc: Global, d: usize, s: &mut SerRonState) -> Result<(), AllocError> {
        WritesRon::write_ron(self, alloc, d, s)
    }
}

impl ReadsRon<Camp> for Levels {
    #[cycle(read)]
    fn read_ron(
        &self,
        left: usize,
        alloc: Global,
        state: &mut DeRonState,
        input: &mut Chars<'_>,
    ) -> Result<Camp, DeRonErr> {
        if left == 0 {
            return Err(nano_ron_nested::too_deep(alloc, state));
        }
        let Levels::More(below) = self else {
            return Err(nano_ron_nested::no_levels(alloc, state));
        };
        let Some(below) = below.first() else {
            return Err(nano_ron_nested::no_levels(alloc, state));
        };
        match read_record_ron_within::<Levels, CampFields>(below, left - 1, alloc, state, input) {
            Ok(values) => Ok(Camp::make(values)),
            Err(error) => Err(error),
        }
    }
}

impl DeRon for Camp {
    fn de_ron(
        alloc: Global,
        state: &mut DeRonState,
        input: &mut Chars<'_>,
    ) -> Result<Self, DeRonErr> {
        let levels = Levels::most();
        ReadsRon::<Self>::read_ron(levels, 128, alloc, state, input)
    }
}

pub struct RouteNames<const I: usize> {}

impl<const I: usize> Label for RouteNames<I> {
    ghost label = { if I == 0 then codes "End" else codes "Step" };

    fn text() -> &'static str {
        nano_schema::name_of!(I, 0 => "End", _ => "Step")
    }
}

pub struct RouteStepNames<const I: usize> {}

impl<const I: usize> Label for RouteStepNames<I> {
    ghost label = { if I == 0 then codes "weather" else codes "rest" };

    fn text() -> &'static str {
        nano_schema::name_of!(I, 0 => "weather", _ => "rest")
    }
}

type RouteStepParts = (
    Other<Required<RouteStepNames<0>, Weather>>,
    Within<Required<RouteStepNames<1>, Box<Route>>>,
);

type RouteVariants2 = Variant<RouteNames<1>, Struct<RouteStepParts>>;

type RouteVariants = (Variant<RouteNames<0>, Other<Unit>>, RouteVariants2);

type RouteValues2 = (Weather, Box<Route>);

type RouteValues = Either<(), RouteValues2>;

impl EnumSchema for Route {
    ghost use Rattle.test_nested_parts.specs.CampCodecs.{route_view};

    type Values = RouteValues;

    ghost view = { route_view };

    #[tactic(auto, using(crate::proofs::CampCodecsLaws::route_views))]
    fn make(values: Self::Values) -> Self {
        let later = match values {
            Either::First(values) => {
                let () = values;
                return Self::End;
            }
            Either::Later(later) => later,
        };
        let (weather, rest) = later;
        Self::Step { weather, rest }
    }
}

impl Value for Route {
    ghost use Rattle.test_nested_parts.specs.CampCodecs.{route_means, route_codec};

    ghost means = { route_means };

    ghost legal = { route_codec.encoding.legal };

    fn known(&self) {
        match self {
            Self::End => Value::known(&()),
            Self::Step { weather, rest } => {
                Value::known(weather);
                Value::known(rest);
            }
        }
    }
}

// ---- bytes

impl BinCodec for Route {
    ghost use Rattle.test_nested_parts.specs.CampCodecs.{route_codec};

    ghost bin = { route_codec };

    ghost agrees = { agreed };
}

impl WritesBin for Route {
    #[tactic(auto, using(crate::proofs::CampCodecsLaws::route_written_laws))]
    fn write_bin(&self, alloc: Global, output: &mut Vec<u8>) -> Result<(), AllocError> {
        let start = output.len();
        match self {
            Self::End => append_variant(alloc, 0, &(), output),
            Self::Step { weather, rest } => {
                append_variant(alloc, 1, weather, output)?;
                append_part_within(alloc, rest, output, start)
            }
        }
    }
}

impl SerBin for Route {
    fn ser_bin(&self, alloc: Global, output: &mut Vec<u8>) -> Result<(), AllocError> {
        WritesBin::write_bin(self, alloc, output)
    }
}

impl ReadsBin<Route> for Levels {
    #[cycle(read)]
    fn read_bin(&self, alloc: Global, offset: &mut usize, bytes: &[u8]) -> Result<Route, DeBinErr> {
        let Levels::More(below) = self else {
            return Err(no_memory(*offset, bytes));
        };
        let Some(below) = below.first() else {
            return Err(no_memory(*offset, bytes));
        };
        read_choice_within::<Levels, Route, RouteVariants>(below, alloc, offset, bytes)
    }
}

impl DeBin for Route {
    ghost is_decodable = { refl };

    fn de_bin(alloc: Global, offset: &mut usize, bytes: &[u8]) -> Result<Self, DeBinErr> {
        let levels = Levels::most();
        ReadsBin::<Self>::read_bin(levels, alloc, offset, bytes)
    }
}

// ---- JSON

impl JsonCodec for Route {
    ghost use Rattle.test_nested_parts.specs.CampJsonCodecs.{route_json};

    ghost json = { route_json };

    ghost agrees = { agreed };
}

impl NestedJson for Route {
    ghost use Rattle.test_nested_parts.specs.CampCodecs.{route_means};
    ghost use Rattle.test_nested_parts.specs.CampJsonCodecs.{route_json_at};

    ghost means = { route_means };

    ghost at = { route_json_at };
}

/// What writes the variants of `Route` with named fields as JSON.
struct RouteJsonWriter {}

impl RouteJsonWriter {
    ghost use Rattle.test_nested_parts.specs.declared.camp.Route.{Step as Route-Step};
    ghost use Rattle.test_nested_parts.specs.CampJsonCodecs.{route_json, route_json_content_step};

    /// Appends the fields of `Step`. If the write fails, what was written so far is left.
    #[cycle(write_route_json)]
    fn append_step_fields(
        value: &Route,
        v0: &Weather,
        v1: &Box<Route>,
        alloc: Global,
        d: usize,
        s: &mut SerJsonState,
    ) -> Result<(), AllocError>
        requires { value.now ≡ Route-Step v0.now v1.now }
        ensures ok { OnOk result (Appends s.old.out s.new.out
            ((route_json_content_step.codec route_json).canonical.text d (v0.now, v1.now))) }
        ensures err { OnErr result (AppendsPart s.old.out s.new.out) }
    {
        s.st_pre()?;
        let inner = d.saturating_add(1);
        let rest_is_first = Required::<RouteStepNames<0>, Weather>::append_fields(
            &v0, alloc, true, inner, s,
        )?;
        append_required_within(alloc, "rest", v1, rest_is_first, inner, s)?;
        s.st_post(d)
    }

    /// Appends `Step` with its fields. If the write fails, what was written so far is left.
    #[cycle(write_route_json)]
    fn append_step(
        value: &Route,
        v0: &Weather,
        v1: &Box<Route>,
        alloc: Global,
        d: usize,
        s: &mut SerJsonState,
    ) -> Result<(), AllocError>
        requires { value.now ≡ Route-Step v0.now v1.now }
        ensures ok { OnOk result (Appends s.old.out s.new.out
            (content_text (codes "Step")
            ((route_json_content_step.codec route_json).canonical.text d (v0.now, v1.now)))) }
        ensures err { OnErr result (AppendsPart s.old.out s.new.out) }
    {
        s.st_pre()?;
        "Step".ser_json(alloc, 0, s)?;
        s.out.push_str(":")?;
        Self::append_step_fields(value, v0, v1, alloc, d, s)?;
        s.st_post(d)
    }

    /// Appends `Step` with its fields. If the write fails, `s.out` is unchanged.
    #[cycle(write_route_json)]
    fn write_step(
        value: &Route,
        v0: &Weather,
        v1: &Box<Route>,
        alloc: Global,
        d: usize,
        s: &mut SerJsonState,
    ) -> Result<(), AllocError>
        requires { value.now ≡ Route-Step v0.now v1.now }
        ensures ok { OnOk result (Appends s.old.out s.new.out
            (content_text (codes "Step")
            ((route_json_content_step.codec route_json).canonical.text d (v0.now, v1.now)))) }
        ensures err { OnErr result (Unchanged s.old.out s.new.out) }
    {
        let start = s.out.len();
        let written = Self::append_step(value, v0, v1, alloc, d, s);
        rollback_on_error(&mut s.out, start, written)
    }
}

impl WritesJson for Route {
    #[cycle(write_route_json)]
    #[tactic(auto, using(crate::proofs::CampJsonCodecsLaws::route_json_texts))]
    fn write_json(&self, alloc: Global, d: usize, s: &mut SerJsonState) -> Result<(), AllocError> {
        match self {
            Self::End => nano_json_schema::write_unit_variant(alloc, "End", s),
            Self::Step {
                weather: v0,
                rest: v1,
            } => RouteJsonWriter::write_step(self, v0, v1, alloc, d, s),
        }
    }
}

impl SerJson for Route {
    fn ser_json(&self, alloc: Global, d: usize, s: &mut SerJsonState) -> Result<(), AllocError> {
        WritesJson::write_json(self, alloc, d, s)
    }
}

impl ReadsJson<Route> for Levels {
    #[cycle(read)]
    fn read_json(
        &self,
        left: usize,
        alloc: Global,
        state: &mut DeJsonState,
        input: &mut Chars<'_>,
    ) -> Result<Route, DeJsonErr> {
        if left == 0 {
            return Err(too_deep(alloc, state));
        }
        let Levels::More(below) = self else {
            return Err(no_levels(alloc, state));
        };
        let Some(below) = below.first() else {
            return Err(no_levels(alloc, state));
        };
        match read_choice_json_within::<Levels, RouteVariants>(
            below,
            left - 1,
            alloc,
            state,
            input,
        ) {
            Ok(values) => Ok(Route::make(values)),
            Err(error) => Err(error),
        }
    }
}

impl DeJson for Route {
    fn de_json(
        alloc: Global,
        state: &mut DeJsonState,
        input: &mut Chars<'_>,
    ) -> Result<Self, DeJsonErr> {
        let levels = Levels::most();
        ReadsJson::<Self>::read_json(levels, 128, alloc, state, input)
    }
}

// ---- RON

impl RonCodec for Route {
    ghost use Rattle.test_nested_parts.specs.CampRonCodecs.{route_ron};

    ghost ron = { route_ron };

    ghost agrees = { agreed };
}

impl NestedRon for Route {
    ghost use Rattle.test_nested_parts.specs.CampCodecs.{route_means};
    ghost use Rattle.test_nested_parts.specs.CampRonCodecs.{route_ron_at};

    ghost means = { route_means };

    ghost at = { route_ron_at };
}

/// What writes the variants of `Route` with named fields as RON.
struct RouteRonWriter {}

impl RouteRonWriter {
    ghost use Rattle.test_nested_parts.specs.declared.camp.Route.{Step as Route-Step};
    ghost use Rattle.test_nested_parts.specs.CampRonCodecs.{route_ron_of_step};

    /// Appends `Step`. If the write fails, what was written so far is left.
    #[cycle(write_route_ron)]
    fn append_step(
        value: &Route,
        v0: &Weather,
        v1: &Box<Route>,
        alloc: Global,
        d: usize,
        s: &mut SerRonState,
    ) -> Result<(), AllocError>
        requires { value.now ≡ Route-Step v0.now v1.now }
        ensures ok { OnOk result
            (Appends s.old.out s.new.out (route_ron_of_step d v0.now v1.now)) }
        ensures err { OnErr result (AppendsPart s.old.out s.new.out) }
    {
        nano_ron_schema::write_unit_variant("Step", s)?;
        s.st_pre()?;
        let inner = d.saturating_add(1);
        append_required(alloc, "weather", v0, inner, s)?;
        nano_ron_nested::append_required_within(alloc, "rest", v1, inner, s)?;
        s.st_post(d)
    }

    /// Appends `Step`. If the write fails, the text is unchanged.
    #[cycle(write_route_ron)]
    fn write_step(
        value: &Route,
        v0: &Weather,
        v1: &Box<Route>,
        alloc: Global,
        d: usize,
        s: &mut SerRonState,
    ) -> Result<(), AllocError>
        requires { value.now ≡ Route-Step v0.now v1.now }
        ensures ok { OnOk result
            (Appends s.old.out s.new.out (route_ron_of_step d v0.now v1.now)) }
        ensures err { OnErr result (Unchanged s.old.out s.new.out) }
    {
        let start = s.out.len();
        let written = Self::append_step(value, v0, v1, alloc, d, s);
        nano_ron_nested::rollback_on_error(&mut s.out, start, written)
    }
}

impl WritesRon for Route {
    #[cycle(write_route_ron)]
    #[tactic(auto, using(crate::proofs::CampRonCodecsLaws::route_ron_texts))]
    fn write_ron(&self, alloc: Global, d: usize, s: &mut SerRonState) -> Result<(), AllocError> {
        match self {
            Self::End => nano_ron_schema::write_unit_variant("End", s),
            Self::Step {
                weather: v0,
                rest: v1,
            } => RouteRonWriter::write_step(self, v0, v1, alloc, d, s),
        }
    }
}

impl SerRon for Route {
    fn ser_ron(&self, alloc: Global, d: usize, s: &mut SerRonState) -> Result<(), AllocError> {
        WritesRon::write_ron(self, alloc, d, s)
    }
}

impl ReadsRon<Route> for Levels {
    #[cycle(read)]
    fn read_ron(
        &self,
        left: usize,
        alloc: Global,
        state: &mut DeRonState,
        input: &mut Chars<'_>,
    ) -> Result<Route, DeRonErr> {
        if left == 0 {
            return Err(nano_ron_nested::too_deep(alloc, state));
        }
        let Levels::More(below) = self else {
            return Err(nano_ron_nested::no_levels(alloc, state));
        };
        let Some(below) = below.first() else {
            return Err(nano_ron_nested::no_levels(alloc, state));
        };
        match read_choice_ron_within::<Levels, RouteVariants>(
            below,
            left - 1,
            alloc,
            state,
            input,
        ) {
            Ok(values) => Ok(Route::make(values)),
            Err(error) => Err(error),
        }
    }
}

impl DeRon for Route {
    fn de_ron(
        alloc: Global,
        state: &mut DeRonState,
        input: &mut Chars<'_>,
    ) -> Result<Self, DeRonErr> {
        let levels = Levels::most();
        ReadsRon::<Self>::read_ron(levels, 128, alloc, state, input)
    }
}
