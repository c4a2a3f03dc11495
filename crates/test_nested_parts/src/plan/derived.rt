//! Written by derive_files: how the types of the module above are encoded.

ghost use Rattle.std.specs.Prelude.{codes, ◌==◌, if◌then◌else◌, refl, OnOk, OnErr, ◌≡◌};
ghost use Rattle.nano_schema.specs.UserTypes.{agreed};
ghost use Rattle.nano_text.specs.Outcomes.{Appends, AppendsPart, Unchanged};
ghost use Rattle.nano_json_schema.specs.Variants.{content_text};

use super::*;
use nano_bin_nested::{
    ReadsBin, WritesBin, append_part_within, append_variant, no_memory, read_choice_within,
};
use nano_bin_schema::{BinCodec, DeBin, DeBinErr, SerBin};
use nano_json_nested::{
    NestedJson, ReadsJson, WritesJson, append_required_within, no_levels, read_choice_json_within,
    rollback_on_error, too_deep, write_pair_within,
};
use nano_json_schema::{
    DeJson, DeJsonErr, DeJsonState, JsonCodec, JsonRefs, SerJson, SerJsonState,
};
use nano_levels::{Levels, Other, Within};
use nano_ron_nested::{NestedRon, ReadsRon, WritesRon, append_optional, read_choice_ron_within};
use nano_ron_schema::{DeRon, DeRonErr, DeRonState, RonCodec, SerRon, SerRonState};
use nano_schema::{
    Either, EnumSchema, Label, Newtype, Optional, Required, Struct, Tuple, Unit, Value, Variant,
};
use std::alloc::{AllocError, Global};
use std::str::Chars;

pub struct PlanNames<const I: usize> {}

impl<const I: usize> Label for PlanNames<I> {
    ghost label = { if I == 0 then codes "End" else if I == 1 then codes "Go"
        else codes "Choose" };

    fn text() -> &'static str {
        nano_schema::name_of!(I, 0 => "End", 1 => "Go", _ => "Choose")
    }
}

type PlanGoParts = (Other<Newtype<Scene>>, Within<Newtype<Box<Plan>>>);

pub struct PlanChooseNames<const I: usize> {}

impl<const I: usize> Label for PlanChooseNames<I> {
    ghost label = { if I == 0 then codes "at" else codes "plans" };

    fn text() -> &'static str {
        nano_schema::name_of!(I, 0 => "at", _ => "plans")
    }
}

type PlanChooseParts = (
    Other<Optional<PlanChooseNames<0>, Scene>>,
    Within<Required<PlanChooseNames<1>, Vec<Plan>>>,
);

type PlanVariants3 = Variant<PlanNames<2>, Struct<PlanChooseParts>>;

type PlanVariants2 = (Variant<PlanNames<1>, PlanGoParts>, PlanVariants3);

type PlanVariants = (Variant<PlanNames<0>, Other<Unit>>, PlanVariants2);

type PlanValues3 = (Option<Scene>, Vec<Plan>);

type PlanValues2 = Either<(Scene, Box<Plan>), PlanValues3>;

type PlanValues = Either<(), PlanValues2>;

impl EnumSchema for Plan {
    ghost use Rattle.test_nested_parts.specs.PlanCodecs.{plan_view};

    type Values = PlanValues;

    ghost view = { plan_view };

    #[tactic(auto, using(crate::proofs::PlanCodecsLaws::plan_views))]
    fn make(values: Self::Values) -> Self {
        let later = match values {
            Either::First(values) => {
                let () = values;
                return Self::End;
            }
            Either::Later(later) => later,
        };
        let later = match later {
            Either::First(values) => {
                let (first, second) = values;
                return Self::Go(first, second);
            }
            Either::Later(later) => later,
        };
        let (at, plans) = later;
        Self::Choose { at, plans }
    }
}

impl Value for Plan {
    ghost use Rattle.test_nested_parts.specs.PlanCodecs.{plan_means, plan_codec};

    ghost means = { plan_means };

    ghost legal = { plan_codec.encoding.legal };

    fn known(&self) {
        match self {
            Self::End => Value::known(&()),
            Self::Go(first, second) => {
                Value::known(first);
                Value::known(second);
            }
            Self::Choose { at, plans } => {
                Value::known(at);
                Value::known(plans);
            }
        }
    }
}

// ---- bytes

impl BinCodec for Plan {
    ghost use Rattle.test_nested_parts.specs.PlanCodecs.{plan_codec};

    ghost bin = { plan_codec };

    ghost agrees = { agreed };
}

impl WritesBin for Plan {
    #[tactic(auto, using(crate::proofs::PlanCodecsLaws::plan_written_laws))]
    fn write_bin(&self, alloc: Global, output: &mut Vec<u8>) -> Result<(), AllocError> {
        let start = output.len();
        match self {
            Self::End => append_variant(alloc, 0, &(), output),
            Self::Go(first, second) => {
                append_variant(alloc, 1, first, output)?;
                append_part_within(alloc, second, output, start)
            }
            Self::Choose { at, plans } => {
                append_variant(alloc, 2, at, output)?;
                append_part_within(alloc, plans, output, start)
            }
        }
    }
}

impl SerBin for Plan {
    fn ser_bin(&self, alloc: Global, output: &mut Vec<u8>) -> Result<(), AllocError> {
        WritesBin::write_bin(self, alloc, output)
    }
}

impl ReadsBin<Plan> for Levels {
    #[cycle(read)]
    fn read_bin(&self, alloc: Global, offset: &mut usize, bytes: &[u8]) -> Result<Plan, DeBinErr> {
        let Levels::More(below) = self else {
            return Err(no_memory(*offset, bytes));
        };
        let Some(below) = below.first() else {
            return Err(no_memory(*offset, bytes));
        };
        read_choice_within::<Levels, Plan, PlanVariants>(below, alloc, offset, bytes)
    }
}

impl DeBin for Plan {
    ghost is_decodable = { refl };

    fn de_bin(alloc: Global, offset: &mut usize, bytes: &[u8]) -> Result<Self, DeBinErr> {
        let levels = Levels::most();
        ReadsBin::<Self>::read_bin(levels, alloc, offset, bytes)
    }
}

// ---- JSON

impl JsonCodec for Plan {
    ghost use Rattle.test_nested_parts.specs.PlanJsonCodecs.{plan_json};

    ghost json = { plan_json };

    ghost agrees = { agreed };
}

impl NestedJson for Plan {
    ghost use Rattle.test_nested_parts.specs.PlanCodecs.{plan_means};
    ghost use Rattle.test_nested_parts.specs.PlanJsonCodecs.{plan_json_at};

    ghost means = { plan_means };

    ghost at = { plan_json_at };
}

type PlanJsonVariants3 = Variant<PlanNames<2>, Struct<PlanChooseParts>>;

type PlanJsonVariants2 = (Variant<PlanNames<1>, Tuple<PlanGoParts>>, PlanJsonVariants3);

type PlanJsonVariants = (Variant<PlanNames<0>, Other<Unit>>, PlanJsonVariants2);

/// What writes the variants of `Plan` with named fields as JSON.
struct PlanJsonWriter {}

impl PlanJsonWriter {
    ghost use Rattle.test_nested_parts.specs.declared.plan.Plan.{Choose as Plan-Choose};
    ghost use Rattle.test_nested_parts.specs.PlanJsonCodecs.{plan_json, plan_json_content_choose};

    /// Appends the fields of `Choose`. If the write fails, what was written so far is left.
    #[cycle(write_plan_json)]
    fn append_choose_fields(
        value: &Plan,
        v0: &Option<Scene>,
        v1: &Vec<Plan>,
        alloc: Global,
        d: usize,
        s: &mut SerJsonState,
    ) -> Result<(), AllocError>
        requires { value.now ≡ Plan-Choose v0.now v1.now }
        ensures ok { OnOk result (Appends s.old.out s.new.out
            ((plan_json_content_choose.codec plan_json).canonical.text d (v0.now, v1.now))) }
        ensures err { OnErr result (AppendsPart s.old.out s.new.out) }
    {
        s.st_pre()?;
        let inner = d.saturating_add(1);
        let plans_is_first = Optional::<PlanChooseNames<0>, Scene>::append_fields(
            &v0, alloc, true, inner, s,
        )?;
        append_required_within(alloc, "plans", v1, plans_is_first, inner, s)?;
        s.st_post(d)
    }

    /// Appends `Choose` with its fields. If the write fails, what was written so far is left.
    #[cycle(write_plan_json)]
    fn append_choose(
        value: &Plan,
        v0: &Option<Scene>,
        v1: &Vec<Plan>,
        alloc: Global,
        d: usize,
        s: &mut SerJsonState,
    ) -> Result<(), AllocError>
        requires { value.now ≡ Plan-Choose v0.now v1.now }
        ensures ok { OnOk result (Appends s.old.out s.new.out
            (content_text (codes "Choose")
            ((plan_json_content_choose.codec plan_json).canonical.text d (v0.now, v1.now)))) }
        ensures err { OnErr result (AppendsPart s.old.out s.new.out) }
    {
        s.st_pre()?;
        "Choose".ser_json(alloc, 0, s)?;
        s.out.push_str(":")?;
        Self::append_choose_fields(value, v0, v1, alloc, d, s)?;
        s.st_post(d)
    }

    /// Appends `Choose` with its fields. If the write fails, `s.out` is unchanged.
    #[cycle(write_plan_json)]
    fn write_choose(
        value: &Plan,
        v0: &Option<Scene>,
        v1: &Vec<Plan>,
        alloc: Global,
        d: usize,
        s: &mut SerJsonState,
    ) -> Result<(), AllocError>
        requires { value.now ≡ Plan-Choose v0.now v1.now }
        ensures ok { OnOk result (Appends s.old.out s.new.out
            (content_text (codes "Choose")
            ((plan_json_content_choose.codec plan_json).canonical.text d (v0.now, v1.now)))) }
        ensures err { OnErr result (Unchanged s.old.out s.new.out) }
    {
        let start = s.out.len();
        let written = Self::append_choose(value, v0, v1, alloc, d, s);
        rollback_on_error(&mut s.out, start, written)
    }
}

impl WritesJson for Plan {
    #[cycle(write_plan_json)]
    #[tactic(auto, using(crate::proofs::PlanJsonCodecsLaws::plan_json_texts))]
    fn write_json(&self, alloc: Global, d: usize, s: &mut SerJsonState) -> Result<(), AllocError> {
        match self {
            Self::End => nano_json_schema::write_unit_variant(alloc, "End", s),
            Self::Go(first, second) => {
                let first = &nano_json_schema::Part { of: first };
                write_pair_within(alloc, "Go", first, second, d, s)
            }
            Self::Choose { at: v0, plans: v1 } => {
                PlanJsonWriter::write_choose(self, v0, v1, alloc, d, s)
            }
        }
    }
}

impl SerJson for Plan {
    fn ser_json(&self, alloc: Global, d: usize, s: &mut SerJsonState) -> Result<(), AllocError> {
        WritesJson::write_json(self, alloc, d, s)
    }
}

impl ReadsJson<Plan> for Levels {
    #[cycle(read)]
    fn read_json(
        &self,
        left: usize,
        alloc: Global,
        state: &mut DeJsonState,
        input: &mut Chars<'_>,
    ) -> Result<Plan, DeJsonErr> {
        if left == 0 {
            return Err(too_deep(alloc, state));
        }
        let Levels::More(below) = self else {
            return Err(no_levels(alloc, state));
        };
        let Some(below) = below.first() else {
            return Err(no_levels(alloc, state));
        };
        match read_choice_json_within::<Levels, PlanJsonVariants>(
            below,
            left - 1,
            alloc,
            state,
            input,
        ) {
            Ok(values) => Ok(Plan::make(values)),
            Err(error) => Err(error),
        }
    }
}

impl DeJson for Plan {
    fn de_json(
        alloc: Global,
        state: &mut DeJsonState,
        input: &mut Chars<'_>,
    ) -> Result<Self, DeJsonErr> {
        let levels = Levels::most();
        ReadsJson::<Self>::read_json(levels, 128, alloc, state, input)
    }
}

// ---- RON

impl RonCodec for Plan {
    ghost use Rattle.test_nested_parts.specs.PlanRonCodecs.{plan_ron};

    ghost ron = { plan_ron };

    ghost agrees = { agreed };
}

impl NestedRon for Plan {
    ghost use Rattle.test_nested_parts.specs.PlanCodecs.{plan_means};
    ghost use Rattle.test_nested_parts.specs.PlanRonCodecs.{plan_ron_at};

    ghost means = { plan_means };

    ghost at = { plan_ron_at };
}

/// What writes the variants of `Plan` with named fields as RON.
struct PlanRonWriter {}

impl PlanRonWriter {
    ghost use Rattle.test_nested_parts.specs.declared.plan.Plan.{Choose as Plan-Choose};
    ghost use Rattle.test_nested_parts.specs.PlanRonCodecs.{plan_ron_of_choose};

    /// Appends `Choose`. If the write fails, what was written so far is left.
    #[cycle(write_plan_ron)]
    fn append_choose(
        value: &Plan,
        v0: &Option<Scene>,
        v1: &Vec<Plan>,
        alloc: Global,
        d: usize,
        s: &mut SerRonState,
    ) -> Result<(), AllocError>
        requires { value.now ≡ Plan-Choose v0.now v1.now }
        ensures ok { OnOk result
            (Appends s.old.out s.new.out (plan_ron_of_choose d v0.now v1.now)) }
        ensures err { OnErr result (AppendsPart s.old.out s.new.out) }
    {
        nano_ron_schema::write_unit_variant("Choose", s)?;
        s.st_pre()?;
        let inner = d.saturating_add(1);
        append_optional(alloc, "at", v0, inner, s)?;
        nano_ron_nested::append_required_within(alloc, "plans", v1, inner, s)?;
        s.st_post(d)
    }

    /// Appends `Choose`. If the write fails, the text is unchanged.
    #[cycle(write_plan_ron)]
    fn write_choose(
        value: &Plan,
        v0: &Option<Scene>,
        v1: &Vec<Plan>,
        alloc: Global,
        d: usize,
        s: &mut SerRonState,
    ) -> Result<(), AllocError>
        requires { value.now ≡ Plan-Choose v0.now v1.now }
        ensures ok { OnOk result
            (Appends s.old.out s.new.out (plan_ron_of_choose d v0.now v1.now)) }
        ensures err { OnErr result (Unchanged s.old.out s.new.out) }
    {
        let start = s.out.len();
        let written = Self::append_choose(value, v0, v1, alloc, d, s);
        nano_ron_nested::rollback_on_error(&mut s.out, start, written)
    }
}

impl WritesRon for Plan {
    #[cycle(write_plan_ron)]
    #[tactic(auto, using(crate::proofs::PlanRonCodecsLaws::plan_ron_texts))]
    fn write_ron(&self, alloc: Global, d: usize, s: &mut SerRonState) -> Result<(), AllocError> {
        match self {
            Self::End => nano_ron_schema::write_unit_variant("End", s),
            Self::Go(first, second) => {
                let first = &nano_ron_schema::Part { of: first };
                nano_ron_nested::write_pair_within(alloc, "Go", first, second, d, s)
            }
            Self::Choose { at: v0, plans: v1 } => {
                PlanRonWriter::write_choose(self, v0, v1, alloc, d, s)
            }
        }
    }
}

impl SerRon for Plan {
    fn ser_ron(&self, alloc: Global, d: usize, s: &mut SerRonState) -> Result<(), AllocError> {
        WritesRon::write_ron(self, alloc, d, s)
    }
}

impl ReadsRon<Plan> for Levels {
    #[cycle(read)]
    fn read_ron(
        &self,
        left: usize,
        alloc: Global,
        state: &mut DeRonState,
        input: &mut Chars<'_>,
    ) -> Result<Plan, DeRonErr> {
        if left == 0 {
            return Err(nano_ron_nested::too_deep(alloc, state));
        }
        let Levels::More(below) = self else {
            return Err(nano_ron_nested::no_levels(alloc, state));
        };
        let Some(below) = below.first() else {
            return Err(nano_ron_nested::no_levels(alloc, state));
        };
        match read_choice_ron_within::<Levels, PlanVariants>(below, left - 1, alloc, state, input) {
            Ok(values) => Ok(Plan::make(values)),
            Err(error) => Err(error),
        }
    }
}

impl DeRon for Plan {
    fn de_ron(
        alloc: Global,
        state: &mut DeRonState,
        input: &mut Chars<'_>,
    ) -> Result<Self, DeRonErr> {
        let levels = Levels::most();
        ReadsRon::<Self>::read_ron(levels, 128, alloc, state, input)
    }
}
