//! Written by derive_files: how the types of the module above are encoded.

ghost use Rattle.std.specs.Prelude.{codes, ◌==◌, if◌then◌else◌, OnOk, OnErr, ◌≡◌};
ghost use Rattle.nano_schema.specs.UserTypes.{agreed};
ghost use Rattle.nano_schema_levels.proofs.LegalLevelsLaws.{between};
ghost use Rattle.nano_text.specs.Outcomes.{Appends, AppendsPart, Unchanged};
ghost use Rattle.nano_json_schema.specs.Variants.{content_text};

use super::*;
use nano_bin_nested::{
    ReadsBin, WritesBin, append_part_within, append_variant, append_variant_within, no_memory,
    read_choice_within,
};
use nano_bin_schema::{BinCodec, DeBin, DeBinErr, SerBin};
use nano_json_nested::{
    NestedJson, ReadsJson, WritesJson, append_required_within, no_levels, read_choice_json_within,
    rollback_on_error, too_deep, write_pair_within, write_variant_other,
};
use nano_json_schema::{
    DeJson, DeJsonErr, DeJsonState, JsonCodec, JsonRefs, SerJson, SerJsonState,
};
use nano_levels::{Levels, Other, Within};
use nano_ron_nested::{NestedRon, ReadsRon, WritesRon, append_required, read_choice_ron_within};
use nano_ron_schema::{DeRon, DeRonErr, DeRonState, RonCodec, SerRon, SerRonState};
use nano_schema::{
    Either, EnumSchema, Label, Newtype, Required, Struct, Tuple, Unit, Value, Variant,
};
use std::alloc::{AllocError, Global};
use std::str::Chars;

pub struct PlanNames<const I: usize> {}

impl<const I: usize> Label for PlanNames<I> {
    ghost label = { if I == 0 then codes "Nothing" else if I == 1 then codes "One"
        else if I == 2 then codes "Many" else if I == 3 then codes "Both" else codes "Step" };

    fn text() -> &'static str {
        nano_schema::name_of!(I, 0 => "Nothing", 1 => "One", 2 => "Many", 3 => "Both",
            _ => "Step")
    }
}

type PlanBothParts<T> = (Within<Newtype<Box<Plan<T>>>>, Other<Newtype<Option<T>>>);

pub struct PlanStepNames<const I: usize> {}

impl<const I: usize> Label for PlanStepNames<I> {
    ghost label = { if I == 0 then codes "item" else codes "next" };

    fn text() -> &'static str {
        nano_schema::name_of!(I, 0 => "item", _ => "next")
    }
}

type PlanStepParts<T> = (
    Other<Required<PlanStepNames<0>, T>>,
    Within<Required<PlanStepNames<1>, Vec<Plan<T>>>>,
);

type PlanVariants5<T> = Variant<PlanNames<4>, Struct<PlanStepParts<T>>>;

type PlanVariants4<T> = (Variant<PlanNames<3>, PlanBothParts<T>>, PlanVariants5<T>);

type PlanVariants3<T> = (
    Variant<PlanNames<2>, Other<Newtype<Vec<T>>>>,
    PlanVariants4<T>,
);

type PlanVariants2<T> = (Variant<PlanNames<1>, Other<Newtype<T>>>, PlanVariants3<T>);

type PlanVariants<T> = (Variant<PlanNames<0>, Other<Unit>>, PlanVariants2<T>);

type PlanValues5<T> = (T, Vec<Plan<T>>);

type PlanValues4<T> = Either<(Box<Plan<T>>, Option<T>), PlanValues5<T>>;

type PlanValues3<T> = Either<Vec<T>, PlanValues4<T>>;

type PlanValues2<T> = Either<T, PlanValues3<T>>;

type PlanValues<T> = Either<(), PlanValues2<T>>;

impl<T> EnumSchema for Plan<T> {
    ghost use Rattle.test_nested_generics.specs.PlanCodecs.{plan_view};

    type Values = PlanValues<T>;

    ghost view = { plan_view };

    #[tactic(auto, using(crate::proofs::PlanCodecsLaws::plan_views))]
    fn make(values: Self::Values) -> Self {
        let later = match values {
            Either::First(values) => {
                let () = values;
                return Self::Nothing;
            }
            Either::Later(later) => later,
        };
        let later = match later {
            Either::First(values) => {
                let first = values;
                return Self::One(first);
            }
            Either::Later(later) => later,
        };
        let later = match later {
            Either::First(values) => {
                let first = values;
                return Self::Many(first);
            }
            Either::Later(later) => later,
        };
        let later = match later {
            Either::First(values) => {
                let (first, second) = values;
                return Self::Both(first, second);
            }
            Either::Later(later) => later,
        };
        let (item, next) = later;
        Self::Step { item, next }
    }
}

impl<T: BinCodec> Value for Plan<T> {
    ghost use Rattle.test_nested_generics.specs.PlanCodecs.{plan_means, plan_codec};

    ghost means = { plan_means T.bin.canonical.means };

    ghost legal = { (plan_codec T.bin).encoding.legal };

    fn known(&self) {
        match self {
            Self::Nothing => Value::known(&()),
            Self::One(first) => Value::known(first),
            Self::Many(first) => Value::known(first),
            Self::Both(first, second) => {
                Value::known(first);
                Value::known(second);
            }
            Self::Step { item, next } => {
                Value::known(item);
                Value::known(next);
            }
        }
    }
}

// ---- bytes

impl<T: BinCodec> BinCodec for Plan<T> {
    ghost use Rattle.test_nested_generics.specs.PlanCodecs.{plan_codec};

    ghost bin = { plan_codec T.bin };

    ghost agrees = { agreed };
}

impl<T: SerBin> WritesBin for Plan<T> {
    #[tactic(auto, using(crate::proofs::PlanCodecsLaws::plan_written_laws))]
    fn write_bin(&self, alloc: Global, output: &mut Vec<u8>) -> Result<(), AllocError> {
        let start = output.len();
        match self {
            Self::Nothing => append_variant(alloc, 0, &(), output),
            Self::One(first) => append_variant(alloc, 1, first, output),
            Self::Many(first) => append_variant(alloc, 2, first, output),
            Self::Both(first, second) => {
                append_variant_within(alloc, 3, first, output)?;
                nano_bin::append_part(alloc, second, output, start)
            }
            Self::Step { item, next } => {
                append_variant(alloc, 4, item, output)?;
                append_part_within(alloc, next, output, start)
            }
        }
    }
}

impl<T: SerBin> SerBin for Plan<T> {
    fn ser_bin(&self, alloc: Global, output: &mut Vec<u8>) -> Result<(), AllocError> {
        WritesBin::write_bin(self, alloc, output)
    }
}

impl<T: DeBin> ReadsBin<Plan<T>> for Levels {
    #[cycle(read)]
    fn read_bin(
        &self,
        alloc: Global,
        offset: &mut usize,
        bytes: &[u8],
    ) -> Result<Plan<T>, DeBinErr> {
        let Levels::More(below) = self else {
            return Err(no_memory(*offset, bytes));
        };
        let Some(below) = below.first() else {
            return Err(no_memory(*offset, bytes));
        };
        read_choice_within::<Levels, Plan<T>, PlanVariants<T>>(below, alloc, offset, bytes)
    }
}

impl<T: DeBin> DeBin for Plan<T> {
    ghost use Rattle.test_nested_generics.specs.PlanCodecs.{plan_is_read};

    ghost is_decodable = { plan_is_read T.bin T.is_decodable };

    fn de_bin(alloc: Global, offset: &mut usize, bytes: &[u8]) -> Result<Self, DeBinErr> {
        let levels = Levels::most();
        ReadsBin::<Self>::read_bin(levels, alloc, offset, bytes)
    }
}

// ---- JSON

impl<T: BinCodec + JsonCodec> JsonCodec for Plan<T> {
    ghost use Rattle.test_nested_generics.specs.PlanJsonCodecs.{plan_json, plan_json_agrees};

    ghost json = { plan_json T.json };

    ghost agrees = { plan_json_agrees T.json T.bin (between T.BinCodec.agrees T.JsonCodec.agrees) };
}

impl<T: JsonCodec> NestedJson for Plan<T> {
    ghost use Rattle.test_nested_generics.specs.PlanCodecs.{plan_means};
    ghost use Rattle.test_nested_generics.specs.PlanJsonCodecs.{plan_json_at};

    ghost means = { plan_means T.json.canonical.means };

    ghost at = { plan_json_at T.json };
}

type PlanJsonVariants5<T> = Variant<PlanNames<4>, Struct<PlanStepParts<T>>>;

type PlanJsonVariants4<T> = (
    Variant<PlanNames<3>, Tuple<PlanBothParts<T>>>,
    PlanJsonVariants5<T>,
);

type PlanJsonVariants3<T> = (
    Variant<PlanNames<2>, Other<Newtype<Vec<T>>>>,
    PlanJsonVariants4<T>,
);

type PlanJsonVariants2<T> = (
    Variant<PlanNames<1>, Other<Newtype<T>>>,
    PlanJsonVariants3<T>,
);

type PlanJsonVariants<T> = (Variant<PlanNames<0>, Other<Unit>>, PlanJsonVariants2<T>);

/// What writes the variants of `Plan` with named fields as JSON.
struct PlanJsonWriter {}

impl PlanJsonWriter {
    ghost use Rattle.test_nested_generics.specs.declared.plan.Plan.{Step as Plan-Step};
    ghost use Rattle.test_nested_generics.specs.PlanJsonCodecs.{plan_json, plan_json_content_step};

    /// Appends the fields of `Step`. If the write fails, what was written so far is left.
    #[cycle(write_plan_json)]
    fn append_step_fields<T: BinCodec + SerJson>(
        value: &Plan<T>,
        v0: &T,
        v1: &Vec<Plan<T>>,
        alloc: Global,
        d: usize,
        s: &mut SerJsonState,
    ) -> Result<(), AllocError>
        requires { value.now ≡ Plan-Step v0.now v1.now }
        ensures ok { OnOk result (Appends s.old.out s.new.out
            (((plan_json_content_step T.json).codec (plan_json T.json)).canonical.text d (v0.now, v1.now))) }
        ensures err { OnErr result (AppendsPart s.old.out s.new.out) }
    {
        s.st_pre()?;
        let inner = d.saturating_add(1);
        let next_is_first = Required::<PlanStepNames<0>, T>::append_fields(
            &v0, alloc, true, inner, s,
        )?;
        append_required_within(alloc, "next", v1, next_is_first, inner, s)?;
        s.st_post(d)
    }

    /// Appends `Step` with its fields. If the write fails, what was written so far is left.
    #[cycle(write_plan_json)]
    fn append_step<T: BinCodec + SerJson>(
        value: &Plan<T>,
        v0: &T,
        v1: &Vec<Plan<T>>,
        alloc: Global,
        d: usize,
        s: &mut SerJsonState,
    ) -> Result<(), AllocError>
        requires { value.now ≡ Plan-Step v0.now v1.now }
        ensures ok { OnOk result (Appends s.old.out s.new.out
            (content_text (codes "Step")
            (((plan_json_content_step T.json).codec (plan_json T.json)).canonical.text d (v0.now, v1.now)))) }
        ensures err { OnErr result (AppendsPart s.old.out s.new.out) }
    {
        s.st_pre()?;
        "Step".ser_json(alloc, 0, s)?;
        s.out.push_str(":")?;
        Self::append_step_fields(value, v0, v1, alloc, d, s)?;
        s.st_post(d)
    }

    /// Appends `Step` with its fields. If the write fails, `s.out` is unchanged.
    #[cycle(write_plan_json)]
    fn write_step<T: BinCodec + SerJson>(
        value: &Plan<T>,
        v0: &T,
        v1: &Vec<Plan<T>>,
        alloc: Global,
        d: usize,
        s: &mut SerJsonState,
    ) -> Result<(), AllocError>
        requires { value.now ≡ Plan-Step v0.now v1.now }
        ensures ok { OnOk result (Appends s.old.out s.new.out
            (content_text (codes "Step")
            (((plan_json_content_step T.json).codec (plan_json T.json)).canonical.text d (v0.now, v1.now)))) }
        ensures err { OnErr result (Unchanged s.old.out s.new.out) }
    {
        let start = s.out.len();
        let written = Self::append_step(value, v0, v1, alloc, d, s);
        rollback_on_error(&mut s.out, start, written)
    }
}

impl<T: BinCodec + SerJson> WritesJson for Plan<T> {
    #[cycle(write_plan_json)]
    #[tactic(auto, using(crate::proofs::PlanJsonCodecsLaws::plan_json_texts))]
    fn write_json(&self, alloc: Global, d: usize, s: &mut SerJsonState) -> Result<(), AllocError> {
        match self {
            Self::Nothing => nano_json_schema::write_unit_variant(alloc, "Nothing", s),
            Self::One(first) => write_variant_other(alloc, "One", first, d, s),
            Self::Many(first) => write_variant_other(alloc, "Many", first, d, s),
            Self::Both(first, second) => {
                let second = &nano_json_schema::Part { of: second };
                write_pair_within(alloc, "Both", first, second, d, s)
            }
            Self::Step { item: v0, next: v1 } => {
                PlanJsonWriter::write_step(self, v0, v1, alloc, d, s)
            }
        }
    }
}

impl<T: BinCodec + SerJson> SerJson for Plan<T> {
    fn ser_json(&self, alloc: Global, d: usize, s: &mut SerJsonState) -> Result<(), AllocError> {
        WritesJson::write_json(self, alloc, d, s)
    }
}

impl<T: DeJson> ReadsJson<Plan<T>> for Levels {
    #[cycle(read)]
    fn read_json(
        &self,
        left: usize,
        alloc: Global,
        state: &mut DeJsonState,
        input: &mut Chars<'_>,
    ) -> Result<Plan<T>, DeJsonErr> {
        if left == 0 {
            return Err(too_deep(alloc, state));
        }
        let Levels::More(below) = self else {
            return Err(no_levels(alloc, state));
        };
        let Some(below) = below.first() else {
            return Err(no_levels(alloc, state));
        };
        match read_choice_json_within::<Levels, PlanJsonVariants<T>>(
            below,
            left - 1,
            alloc,
            state,
            input,
        ) {
            Ok(values) => Ok(Plan::make(values)),
            Err(error) => Err(error),
        }
    }
}

impl<T: BinCodec + DeJson> DeJson for Plan<T> {
    fn de_json(
        alloc: Global,
        state: &mut DeJsonState,
        input: &mut Chars<'_>,
    ) -> Result<Self, DeJsonErr> {
        let levels = Levels::most();
        ReadsJson::<Self>::read_json(levels, 128, alloc, state, input)
    }
}

// ---- RON

impl<T: BinCodec + RonCodec> RonCodec for Plan<T> {
    ghost use Rattle.test_nested_generics.specs.PlanRonCodecs.{plan_ron, plan_ron_agrees};

    ghost ron = { plan_ron T.ron };

    ghost agrees = { plan_ron_agrees T.ron T.bin (between T.BinCodec.agrees T.RonCodec.agrees) };
}

impl<T: RonCodec> NestedRon for Plan<T> {
    ghost use Rattle.test_nested_generics.specs.PlanCodecs.{plan_means};
    ghost use Rattle.test_nested_generics.specs.PlanRonCodecs.{plan_ron_at};

    ghost means = { plan_means T.ron.canonical.means };

    ghost at = { plan_ron_at T.ron };
}

/// What writes the variants of `Plan` with named fields as RON.
struct PlanRonWriter {}

impl PlanRonWriter {
    ghost use Rattle.test_nested_generics.specs.declared.plan.Plan.{Step as Plan-Step};
    ghost use Rattle.test_nested_generics.specs.PlanRonCodecs.{plan_ron_of_step};

    /// Appends `Step`. If the write fails, what was written so far is left.
    #[cycle(write_plan_ron)]
    fn append_step<T: BinCodec + SerRon>(
        value: &Plan<T>,
        v0: &T,
        v1: &Vec<Plan<T>>,
        alloc: Global,
        d: usize,
        s: &mut SerRonState,
    ) -> Result<(), AllocError>
        requires { value.now ≡ Plan-Step v0.now v1.now }
        ensures ok { OnOk result
            (Appends s.old.out s.new.out (plan_ron_of_step T.ron d v0.now v1.now)) }
        ensures err { OnErr result (AppendsPart s.old.out s.new.out) }
    {
        nano_ron_schema::write_unit_variant("Step", s)?;
        s.st_pre()?;
        let inner = d.saturating_add(1);
        append_required(alloc, "item", v0, inner, s)?;
        nano_ron_nested::append_required_within(alloc, "next", v1, inner, s)?;
        s.st_post(d)
    }

    /// Appends `Step`. If the write fails, the text is unchanged.
    #[cycle(write_plan_ron)]
    fn write_step<T: BinCodec + SerRon>(
        value: &Plan<T>,
        v0: &T,
        v1: &Vec<Plan<T>>,
        alloc: Global,
        d: usize,
        s: &mut SerRonState,
    ) -> Result<(), AllocError>
        requires { value.now ≡ Plan-Step v0.now v1.now }
        ensures ok { OnOk result
            (Appends s.old.out s.new.out (plan_ron_of_step T.ron d v0.now v1.now)) }
        ensures err { OnErr result (Unchanged s.old.out s.new.out) }
    {
        let start = s.out.len();
        let written = Self::append_step(value, v0, v1, alloc, d, s);
        nano_ron_nested::rollback_on_error(&mut s.out, start, written)
    }
}

impl<T: BinCodec + SerRon> WritesRon for Plan<T> {
    #[cycle(write_plan_ron)]
    #[tactic(auto, using(crate::proofs::PlanRonCodecsLaws::plan_ron_texts))]
    fn write_ron(&self, alloc: Global, d: usize, s: &mut SerRonState) -> Result<(), AllocError> {
        match self {
            Self::Nothing => nano_ron_schema::write_unit_variant("Nothing", s),
            Self::One(first) => nano_ron_nested::write_variant_other(alloc, "One", first, d, s),
            Self::Many(first) => nano_ron_nested::write_variant_other(alloc, "Many", first, d, s),
            Self::Both(first, second) => {
                let second = &nano_ron_schema::Part { of: second };
                nano_ron_nested::write_pair_within(alloc, "Both", first, second, d, s)
            }
            Self::Step { item: v0, next: v1 } => {
                PlanRonWriter::write_step(self, v0, v1, alloc, d, s)
            }
        }
    }
}

impl<T: BinCodec + SerRon> SerRon for Plan<T> {
    fn ser_ron(&self, alloc: Global, d: usize, s: &mut SerRonState) -> Result<(), AllocError> {
        WritesRon::write_ron(self, alloc, d, s)
    }
}

impl<T: DeRon> ReadsRon<Plan<T>> for Levels {
    #[cycle(read)]
    fn read_ron(
        &self,
        left: usize,
        alloc: Global,
        state: &mut DeRonState,
        input: &mut Chars<'_>,
    ) -> Result<Plan<T>, DeRonErr> {
        if left == 0 {
            return Err(nano_ron_nested::too_deep(alloc, state));
        }
        let Levels::More(below) = self else {
            return Err(nano_ron_nested::no_levels(alloc, state));
        };
        let Some(below) = below.first() else {
            return Err(nano_ron_nested::no_levels(alloc, state));
        };
        match read_choice_ron_within::<Levels, PlanVariants<T>>(
            below,
            left - 1,
            alloc,
            state,
            input,
        ) {
            Ok(values) => Ok(Plan::make(values)),
            Err(error) => Err(error),
        }
    }
}

impl<T: BinCodec + DeRon> DeRon for Plan<T> {
    fn de_ron(
        alloc: Global,
        state: &mut DeRonState,
        input: &mut Chars<'_>,
    ) -> Result<Self, DeRonErr> {
        let levels = Levels::most();
        ReadsRon::<Self>::read_ron(levels, 128, alloc, state, input)
    }
}
