//! Written by derive_files: how the types of the module above are encoded.

ghost use Rattle.std.specs.Prelude.{codes, ◌==◌, if◌then◌else◌, OnOk, OnErr};
ghost use Rattle.nano_text.specs.Outcomes.{Appends, AppendsPart};
ghost use Rattle.nano_schema.specs.UserTypes.{agreed};

use super::*;
use nano_json_nested::{
    NestedJson, ReadsJson, WritesJson, append_optional_within, append_required_within, no_levels,
    read_record_json_within, rollback_on_error, too_many_levels,
};
use nano_json_schema::{
    DeJson, DeJsonErr, DeJsonState, JsonCodec, JsonRefs, SerJson, SerJsonState,
};
use nano_levels::{Levels, Other, Within};
use nano_ron_nested::{NestedRon, ReadsRon, WritesRon, append_required, read_record_ron_within};
use nano_ron_schema::{DeRon, DeRonErr, DeRonState, RonCodec, SerRon, SerRonState};
use nano_schema::{Label, Optional, Required, StructSchema, Value};
use std::alloc::{AllocError, Global};
use std::str::Chars;

pub struct GuideNames<const I: usize> {}

impl<const I: usize> Label for GuideNames<I> {
    ghost label = { if I == 0 then codes "name" else if I == 1 then codes "stops"
        else codes "next" };

    fn text() -> &'static str {
        nano_schema::name_of!(I, 0 => "name", 1 => "stops", _ => "next")
    }
}

type GuideFields = (
    Other<Required<GuideNames<0>, String>>,
    (
        Within<Required<GuideNames<1>, Vec<Stop>>>,
        Within<Optional<GuideNames<2>, Box<Guide>>>,
    ),
);

impl StructSchema for Guide {
    ghost use Rattle.test_nested.specs.GuideCodecs.{guide_view};

    type Values = (String, (Vec<Stop>, Option<Box<Guide>>));

    ghost view = { guide_view };

    fn make(values: Self::Values) -> Self {
        let (name, (stops, next)) = values;
        Guide { name, stops, next }
    }
}

impl Value for Guide {
    ghost use Rattle.test_nested.specs.GuideCodecs.{guide_means};
    ghost use Rattle.test_nested.specs.GuideJsonCodecs.{guide_json};

    ghost means = { guide_means };

    ghost legal = { guide_json.encoding.legal };

    #[tactic(auto, using(crate::proofs::GuideJsonCodecsLaws::guide_legal))]
    #[cycle(known_guide)]
    fn known(&self) {
        Value::known(&self.name);
        Value::known(&self.stops);
        Value::known(&self.next);
    }
}

// ---- JSON

impl JsonCodec for Guide {
    ghost use Rattle.test_nested.specs.GuideJsonCodecs.{guide_json};

    ghost json = { guide_json };

    ghost agrees = { agreed };
}

impl NestedJson for Guide {
    ghost use Rattle.test_nested.specs.GuideCodecs.{guide_means};
    ghost use Rattle.test_nested.specs.GuideJsonCodecs.{guide_json_at};

    ghost means = { guide_means };

    ghost at = { guide_json_at };
}

/// What writes `Guide` as JSON.
struct GuideJsonWriter {}

impl GuideJsonWriter {
    ghost use Rattle.test_nested.specs.GuideJsonCodecs.{guide_json};

    /// Appends the fields between braces. If the write fails, what was written so far is left.
    #[cycle(write_guide_json)]
    fn append_record(
        value: &Guide,
        alloc: Global,
        d: usize,
        s: &mut SerJsonState,
    ) -> Result<(), AllocError>
        ensures ok { OnOk result
            (Appends s.old.out s.new.out (guide_json.canonical.text d value.now)) }
        ensures err { OnErr result (AppendsPart s.old.out s.new.out) }
    {
        s.st_pre()?;
        let inner = d.saturating_add(1);
        let stops_is_first = Required::<GuideNames<0>, String>::append_fields(
            &&value.name,
            alloc,
            true,
            inner,
            s,
        )?;
        let next_is_first = append_required_within(
            alloc,
            "stops",
            &value.stops,
            stops_is_first,
            inner,
            s,
        )?;
        append_optional_within(alloc, "next", &value.next, next_is_first, inner, s)?;
        s.st_post(d)
    }
}

impl WritesJson for Guide {
    #[cycle(write_guide_json)]
    fn write_json(&self, alloc: Global, d: usize, s: &mut SerJsonState) -> Result<(), AllocError> {
        let start = s.out.len();
        let written = GuideJsonWriter::append_record(self, alloc, d, s);
        rollback_on_error(&mut s.out, start, written)
    }
}

impl SerJson for Guide {
    fn ser_json(&self, alloc: Global, d: usize, s: &mut SerJsonState) -> Result<(), AllocError> {
        WritesJson::write_json(self, alloc, d, s)
    }
}

impl ReadsJson<Guide> for Levels {
    #[cycle(read_guide_json)]
    fn read_json(
        &self,
        left: usize,
        alloc: Global,
        state: &mut DeJsonState,
        input: &mut Chars<'_>,
    ) -> Result<Guide, DeJsonErr> {
        if left == 0 {
            return Err(too_many_levels(alloc, 64, state));
        }
        let Levels::More(below) = self else {
            return Err(no_levels(alloc, state));
        };
        let Some(below) = below.first() else {
            return Err(no_levels(alloc, state));
        };
        match read_record_json_within::<Levels, GuideFields>(below, left - 1, alloc, state, input) {
            Ok(values) => Ok(Guide::make(values)),
            Err(error) => Err(error),
        }
    }
}

impl DeJson for Guide {
    fn de_json(
        alloc: Global,
        state: &mut DeJsonState,
        input: &mut Chars<'_>,
    ) -> Result<Self, DeJsonErr> {
        let levels = Levels::most();
        ReadsJson::<Self>::read_json(levels, 64, alloc, state, input)
    }
}

// ---- RON

impl RonCodec for Guide {
    ghost use Rattle.test_nested.specs.GuideRonCodecs.{guide_ron};

    ghost ron = { guide_ron };

    ghost agrees = { agreed };
}

impl NestedRon for Guide {
    ghost use Rattle.test_nested.specs.GuideCodecs.{guide_means};
    ghost use Rattle.test_nested.specs.GuideRonCodecs.{guide_ron_at};

    ghost means = { guide_means };

    ghost at = { guide_ron_at };
}

/// What writes `Guide` as RON.
struct GuideRonWriter {}

impl GuideRonWriter {
    ghost use Rattle.test_nested.specs.GuideRonCodecs.{guide_ron};

    /// Appends the fields between parentheses. If the write fails, what was written so far is left.
    #[cycle(write_guide_ron)]
    fn append_record(
        value: &Guide,
        alloc: Global,
        d: usize,
        s: &mut SerRonState,
    ) -> Result<(), AllocError>
        ensures ok { OnOk result
            (Appends s.old.out s.new.out (guide_ron.canonical.text d value.now)) }
        ensures err { OnErr result (AppendsPart s.old.out s.new.out) }
    {
        s.st_pre()?;
        let inner = d.saturating_add(1);
        append_required(alloc, "name", &value.name, inner, s)?;
        nano_ron_nested::append_required_within(alloc, "stops", &value.stops, inner, s)?;
        nano_ron_nested::append_optional_within(alloc, "next", &value.next, inner, s)?;
        s.st_post(d)
    }
}

impl WritesRon for Guide {
    #[cycle(write_guide_ron)]
    fn write_ron(&self, alloc: Global, d: usize, s: &mut SerRonState) -> Result<(), AllocError> {
        let start = s.out.len();
        let written = GuideRonWriter::append_record(self, alloc, d, s);
        nano_ron_nested::rollback_on_error(&mut s.out, start, written)
    }
}

impl SerRon for Guide {
    fn ser_ron(&self, alloc: Global, d: usize, s: &mut SerRonState) -> Result<(), AllocError> {
        WritesRon::write_ron(self, alloc, d, s)
    }
}

impl ReadsRon<Guide> for Levels {
    #[cycle(read_guide_ron)]
    fn read_ron(
        &self,
        left: usize,
        alloc: Global,
        state: &mut DeRonState,
        input: &mut Chars<'_>,
    ) -> Result<Guide, DeRonErr> {
        if left == 0 {
            return Err(nano_ron_nested::too_many_levels(alloc, 64, state));
        }
        let Levels::More(below) = self else {
            return Err(nano_ron_nested::no_levels(alloc, state));
        };
        let Some(below) = below.first() else {
            return Err(nano_ron_nested::no_levels(alloc, state));
        };
        match read_record_ron_within::<Levels, GuideFields>(below, left - 1, alloc, state, input) {
            Ok(values) => Ok(Guide::make(values)),
            Err(error) => Err(error),
        }
    }
}

impl DeRon for Guide {
    fn de_ron(
        alloc: Global,
        state: &mut DeRonState,
        input: &mut Chars<'_>,
    ) -> Result<Self, DeRonErr> {
        let levels = Levels::most();
        ReadsRon::<Self>::read_ron(levels, 64, alloc, state, input)
    }
}

pub struct StopNames<const I: usize> {}

impl<const I: usize> Label for StopNames<I> {
    ghost label = { if I == 0 then codes "ways" else codes "best" };

    fn text() -> &'static str {
        nano_schema::name_of!(I, 0 => "ways", _ => "best")
    }
}

type StopFields = (
    Within<Required<StopNames<0>, BTreeMap<String, Way>>>,
    Within<Optional<StopNames<1>, Way>>,
);

impl StructSchema for Stop {
    ghost use Rattle.test_nested.specs.GuideCodecs.{stop_view};

    type Values = (BTreeMap<String, Way>, Option<Way>);

    ghost view = { stop_view };

    fn make(values: Self::Values) -> Self {
        let (ways, best) = values;
        Stop { ways, best }
    }
}

impl Value for Stop {
    ghost use Rattle.test_nested.specs.GuideCodecs.{stop_means};
    ghost use Rattle.test_nested.specs.GuideJsonCodecs.{stop_json};

    ghost means = { stop_means };

    ghost legal = { stop_json.encoding.legal };

    #[tactic(auto, using(crate::proofs::GuideJsonCodecsLaws::stop_legal))]
    #[cycle(known_guide)]
    fn known(&self) {
        Value::known(&self.ways);
        Value::known(&self.best);
    }
}

// ---- JSON

impl JsonCodec for Stop {
    ghost use Rattle.test_nested.specs.GuideJsonCodecs.{stop_json};

    ghost json = { stop_json };

    ghost agrees = { agreed };
}

impl NestedJson for Stop {
    ghost use Rattle.test_nested.specs.GuideCodecs.{stop_means};
    ghost use Rattle.test_nested.specs.GuideJsonCodecs.{stop_json_at};

    ghost means = { stop_means };

    ghost at = { stop_json_at };
}

/// What writes `Stop` as JSON.
struct StopJsonWriter {}

impl StopJsonWriter {
    ghost use Rattle.test_nested.specs.GuideJsonCodecs.{stop_json};

    /// Appends the fields between braces. If the write fails, what was written so far is left.
    #[cycle(write_guide_json)]
    fn append_record(
        value: &Stop,
        alloc: Global,
        d: usize,
        s: &mut SerJsonState,
    ) -> Result<(), AllocError>
        ensures ok { OnOk result
            (Appends s.old.out s.new.out (stop_json.canonical.text d value.now)) }
        ensures err { OnErr result (AppendsPart s.old.out s.new.out) }
    {
        s.st_pre()?;
        let inner = d.saturating_add(1);
        let best_is_first = append_required_within(alloc, "ways", &value.ways, true, inner, s)?;
        append_optional_within(alloc, "best", &value.best, best_is_first, inner, s)?;
        s.st_post(d)
    }
}

impl WritesJson for Stop {
    #[cycle(write_guide_json)]
    fn write_json(&self, alloc: Global, d: usize, s: &mut SerJsonState) -> Result<(), AllocError> {
        let start = s.out.len();
        let written = StopJsonWriter::append_record(self, alloc, d, s);
        rollback_on_error(&mut s.out, start, written)
    }
}

impl SerJson for Stop {
    fn ser_json(&self, alloc: Global, d: usize, s: &mut SerJsonState) -> Result<(), AllocError> {
        WritesJson::write_json(self, alloc, d, s)
    }
}

impl ReadsJson<Stop> for Levels {
    #[cycle(read_guide_json)]
    fn read_json(
        &self,
        left: usize,
        alloc: Global,
        state: &mut DeJsonState,
        input: &mut Chars<'_>,
    ) -> Result<Stop, DeJsonErr> {
        match read_record_json_within::<Levels, StopFields>(self, left, alloc, state, input) {
            Ok(values) => Ok(Stop::make(values)),
            Err(error) => Err(error),
        }
    }
}

impl DeJson for Stop {
    fn de_json(
        alloc: Global,
        state: &mut DeJsonState,
        input: &mut Chars<'_>,
    ) -> Result<Self, DeJsonErr> {
        let levels = Levels::most();
        ReadsJson::<Self>::read_json(levels, 64, alloc, state, input)
    }
}

// ---- RON

impl RonCodec for Stop {
    ghost use Rattle.test_nested.specs.GuideRonCodecs.{stop_ron};

    ghost ron = { stop_ron };

    ghost agrees = { agreed };
}

impl NestedRon for Stop {
    ghost use Rattle.test_nested.specs.GuideCodecs.{stop_means};
    ghost use Rattle.test_nested.specs.GuideRonCodecs.{stop_ron_at};

    ghost means = { stop_means };

    ghost at = { stop_ron_at };
}

/// What writes `Stop` as RON.
struct StopRonWriter {}

impl StopRonWriter {
    ghost use Rattle.test_nested.specs.GuideRonCodecs.{stop_ron};

    /// Appends the fields between parentheses. If the write fails, what was written so far is left.
    #[cycle(write_guide_ron)]
    fn append_record(
        value: &Stop,
        alloc: Global,
        d: usize,
        s: &mut SerRonState,
    ) -> Result<(), AllocError>
        ensures ok { OnOk result
            (Appends s.old.out s.new.out (stop_ron.canonical.text d value.now)) }
        ensures err { OnErr result (AppendsPart s.old.out s.new.out) }
    {
        s.st_pre()?;
        let inner = d.saturating_add(1);
        nano_ron_nested::append_required_within(alloc, "ways", &value.ways, inner, s)?;
        nano_ron_nested::append_optional_within(alloc, "best", &value.best, inner, s)?;
        s.st_post(d)
    }
}

impl WritesRon for Stop {
    #[cycle(write_guide_ron)]
    fn write_ron(&self, alloc: Global, d: usize, s: &mut SerRonState) -> Result<(), AllocError> {
        let start = s.out.len();
        let written = StopRonWriter::append_record(self, alloc, d, s);
        nano_ron_nested::rollback_on_error(&mut s.out, start, written)
    }
}

impl SerRon for Stop {
    fn ser_ron(&self, alloc: Global, d: usize, s: &mut SerRonState) -> Result<(), AllocError> {
        WritesRon::write_ron(self, alloc, d, s)
    }
}

impl ReadsRon<Stop> for Levels {
    #[cycle(read_guide_ron)]
    fn read_ron(
        &self,
        left: usize,
        alloc: Global,
        state: &mut DeRonState,
        input: &mut Chars<'_>,
    ) -> Result<Stop, DeRonErr> {
        match read_record_ron_within::<Levels, StopFields>(self, left, alloc, state, input) {
            Ok(values) => Ok(Stop::make(values)),
            Err(error) => Err(error),
        }
    }
}

impl DeRon for Stop {
    fn de_ron(
        alloc: Global,
        state: &mut DeRonState,
        input: &mut Chars<'_>,
    ) -> Result<Self, DeRonErr> {
        let levels = Levels::most();
        ReadsRon::<Self>::read_ron(levels, 64, alloc, state, input)
    }
}

pub struct WayNames<const I: usize> {}

impl<const I: usize> Label for WayNames<I> {
    ghost label = { if I == 0 then codes "minutes" else codes "guide" };

    fn text() -> &'static str {
        nano_schema::name_of!(I, 0 => "minutes", _ => "guide")
    }
}

type WayFields = (
    Other<Required<WayNames<0>, u16>>,
    Within<Required<WayNames<1>, Box<Guide>>>,
);

impl StructSchema for Way {
    ghost use Rattle.test_nested.specs.GuideCodecs.{way_view};

    type Values = (u16, Box<Guide>);

    ghost view = { way_view };

    fn make(values: Self::Values) -> Self {
        let (minutes, guide) = values;
        Way { minutes, guide }
    }
}

impl Value for Way {
    ghost use Rattle.test_nested.specs.GuideCodecs.{way_means};
    ghost use Rattle.test_nested.specs.GuideJsonCodecs.{way_json};

    ghost means = { way_means };

    ghost legal = { way_json.encoding.legal };

    #[tactic(auto, using(crate::proofs::GuideJsonCodecsLaws::way_legal))]
    #[cycle(known_guide)]
    fn known(&self) {
        Value::known(&self.minutes);
        Value::known(&self.guide);
    }
}

// ---- JSON

impl JsonCodec for Way {
    ghost use Rattle.test_nested.specs.GuideJsonCodecs.{way_json};

    ghost json = { way_json };

    ghost agrees = { agreed };
}

impl NestedJson for Way {
    ghost use Rattle.test_nested.specs.GuideCodecs.{way_means};
    ghost use Rattle.test_nested.specs.GuideJsonCodecs.{way_json_at};

    ghost means = { way_means };

    ghost at = { way_json_at };
}

/// What writes `Way` as JSON.
struct WayJsonWriter {}

impl WayJsonWriter {
    ghost use Rattle.test_nested.specs.GuideJsonCodecs.{way_json};

    /// Appends the fields between braces. If the write fails, what was written so far is left.
    #[cycle(write_guide_json)]
    fn append_record(
        value: &Way,
        alloc: Global,
        d: usize,
        s: &mut SerJsonState,
    ) -> Result<(), AllocError>
        ensures ok { OnOk result
            (Appends s.old.out s.new.out (way_json.canonical.text d value.now)) }
        ensures err { OnErr result (AppendsPart s.old.out s.new.out) }
    {
        s.st_pre()?;
        let inner = d.saturating_add(1);
        let guide_is_first = Required::<WayNames<0>, u16>::append_fields(
            &&value.minutes,
            alloc,
            true,
            inner,
            s,
        )?;
        append_required_within(alloc, "guide", &value.guide, guide_is_first, inner, s)?;
        s.st_post(d)
    }
}

impl WritesJson for Way {
    #[cycle(write_guide_json)]
    fn write_json(&self, alloc: Global, d: usize, s: &mut SerJsonState) -> Result<(), AllocError> {
        let start = s.out.len();
        let written = WayJsonWriter::append_record(self, alloc, d, s);
        rollback_on_error(&mut s.out, start, written)
    }
}

impl SerJson for Way {
    fn ser_json(&self, alloc: Global, d: usize, s: &mut SerJsonState) -> Result<(), AllocError> {
        WritesJson::write_json(self, alloc, d, s)
    }
}

impl ReadsJson<Way> for Levels {
    #[cycle(read_guide_json)]
    fn read_json(
        &self,
        left: usize,
        alloc: Global,
        state: &mut DeJsonState,
        input: &mut Chars<'_>,
    ) -> Result<Way, DeJsonErr> {
        match read_record_json_within::<Levels, WayFields>(self, left, alloc, state, input) {
            Ok(values) => Ok(Way::make(values)),
            Err(error) => Err(error),
        }
    }
}

impl DeJson for Way {
    fn de_json(
        alloc: Global,
        state: &mut DeJsonState,
        input: &mut Chars<'_>,
    ) -> Result<Self, DeJsonErr> {
        let levels = Levels::most();
        ReadsJson::<Self>::read_json(levels, 64, alloc, state, input)
    }
}

// ---- RON

impl RonCodec for Way {
    ghost use Rattle.test_nested.specs.GuideRonCodecs.{way_ron};

    ghost ron = { way_ron };

    ghost agrees = { agreed };
}

impl NestedRon for Way {
    ghost use Rattle.test_nested.specs.GuideCodecs.{way_means};
    ghost use Rattle.test_nested.specs.GuideRonCodecs.{way_ron_at};

    ghost means = { way_means };

    ghost at = { way_ron_at };
}

/// What writes `Way` as RON.
struct WayRonWriter {}

impl WayRonWriter {
    ghost use Rattle.test_nested.specs.GuideRonCodecs.{way_ron};

    /// Appends the fields between parentheses. If the write fails, what was written so far is left.
    #[cycle(write_guide_ron)]
    fn append_record(
        value: &Way,
        alloc: Global,
        d: usize,
        s: &mut SerRonState,
    ) -> Result<(), AllocError>
        ensures ok { OnOk result
            (Appends s.old.out s.new.out (way_ron.canonical.text d value.now)) }
        ensures err { OnErr result (AppendsPart s.old.out s.new.out) }
    {
        s.st_pre()?;
        let inner = d.saturating_add(1);
        append_required(alloc, "minutes", &value.minutes, inner, s)?;
        nano_ron_nested::append_required_within(alloc, "guide", &value.guide, inner, s)?;
        s.st_post(d)
    }
}

impl WritesRon for Way {
    #[cycle(write_guide_ron)]
    fn write_ron(&self, alloc: Global, d: usize, s: &mut SerRonState) -> Result<(), AllocError> {
        let start = s.out.len();
        let written = WayRonWriter::append_record(self, alloc, d, s);
        nano_ron_nested::rollback_on_error(&mut s.out, start, written)
    }
}

impl SerRon for Way {
    fn ser_ron(&self, alloc: Global, d: usize, s: &mut SerRonState) -> Result<(), AllocError> {
        WritesRon::write_ron(self, alloc, d, s)
    }
}

impl ReadsRon<Way> for Levels {
    #[cycle(read_guide_ron)]
    fn read_ron(
        &self,
        left: usize,
        alloc: Global,
        state: &mut DeRonState,
        input: &mut Chars<'_>,
    ) -> Result<Way, DeRonErr> {
        match read_record_ron_within::<Levels, WayFields>(self, left, alloc, state, input) {
            Ok(values) => Ok(Way::make(values)),
            Err(error) => Err(error),
        }
    }
}

impl DeRon for Way {
    fn de_ron(
        alloc: Global,
        state: &mut DeRonState,
        input: &mut Chars<'_>,
    ) -> Result<Self, DeRonErr> {
        let levels = Levels::most();
        ReadsRon::<Self>::read_ron(levels, 64, alloc, state, input)
    }
}
