//! Written by derive_files: how the types of the module above are encoded.

ghost use Rattle.std.specs.Prelude.{codes, ◌==◌, if◌then◌else◌, refl, OnOk, OnErr, ◌≡◌};
ghost use Rattle.nano_schema.specs.UserTypes.{agreed};
ghost use Rattle.nano_text.specs.Outcomes.{Appends, AppendsPart, Unchanged};
ghost use Rattle.nano_json_schema.specs.Variants.{content_text};

use super::*;
use nano_bin_nested::{
    ReadsBin, WritesBin, append_part_within, append_variant, append_variant_within, no_memory,
    read_choice_within,
};
use nano_bin_schema::{BinCodec, DeBin, DeBinErr, SerBin};
use nano_json_nested::{
    NestedJson, ReadsJson, WritesJson, append_optional_within, append_required_within, no_levels,
    read_choice_json_within, rollback_on_error, too_many_levels, write_variant_other,
};
use nano_json_schema::{DeJson, DeJsonErr, DeJsonState, JsonCodec, SerJson, SerJsonState};
use nano_levels::{Levels, Other, Within};
use nano_ron_nested::{NestedRon, ReadsRon, WritesRon, read_choice_ron_within};
use nano_ron_schema::{DeRon, DeRonErr, DeRonState, RonCodec, SerRon, SerRonState};
use nano_schema::{
    Either, EnumSchema, Label, Newtype, Optional, Required, Struct, Unit, Value, Variant,
};
use std::alloc::{AllocError, Global};
use std::str::Chars;

pub struct RuleNames<const I: usize> {}

impl<const I: usize> Label for RuleNames<I> {
    ghost label = { if I == 0 then codes "Always" else if I == 1 then codes "From"
        else codes "When" };

    fn text() -> &'static str {
        nano_schema::name_of!(I, 0 => "Always", 1 => "From", _ => "When")
    }
}

pub struct RuleWhenNames<const I: usize> {}

impl<const I: usize> Label for RuleWhenNames<I> {
    ghost label = { if I == 0 then codes "condition" else if I == 1 then codes "then"
        else codes "otherwise" };

    fn text() -> &'static str {
        nano_schema::name_of!(I, 0 => "condition", 1 => "then", _ => "otherwise")
    }
}

type RuleWhenParts = (
    Within<Required<RuleWhenNames<0>, Box<Rule>>>,
    (
        Within<Required<RuleWhenNames<1>, Box<Rule>>>,
        Within<Optional<RuleWhenNames<2>, Box<Rule>>>,
    ),
);

type RuleVariants3 = Variant<RuleNames<2>, Struct<RuleWhenParts>>;

type RuleVariants2 = (Variant<RuleNames<1>, Other<Newtype<u8>>>, RuleVariants3);

type RuleVariants = (Variant<RuleNames<0>, Other<Unit>>, RuleVariants2);

type RuleValues3 = (Box<Rule>, (Box<Rule>, Option<Box<Rule>>));

type RuleValues2 = Either<u8, RuleValues3>;

type RuleValues = Either<(), RuleValues2>;

impl EnumSchema for Rule {
    ghost use Rattle.test_nested_derived.specs.RuleCodecs.{rule_view};

    type Values = RuleValues;

    ghost view = { rule_view };

    #[tactic(auto, using(crate::proofs::RuleCodecsLaws::rule_views))]
    fn make(values: Self::Values) -> Self {
        let later = match values {
            Either::First(values) => {
                let () = values;
                return Self::Always;
            }
            Either::Later(later) => later,
        };
        let later = match later {
            Either::First(values) => {
                let first = values;
                return Self::From(first);
            }
            Either::Later(later) => later,
        };
        let (condition, (then, otherwise)) = later;
        Self::When {
            condition,
            then,
            otherwise,
        }
    }
}

impl Value for Rule {
    ghost use Rattle.test_nested_derived.specs.RuleCodecs.{rule_means, rule_codec};

    ghost means = { rule_means };

    ghost legal = { rule_codec.encoding.legal };

    fn known(&self) {
        match self {
            Self::Always => Value::known(&()),
            Self::From(first) => Value::known(first),
            Self::When {
                condition,
                then,
                otherwise,
            } => {
                Value::known(condition);
                Value::known(then);
                Value::known(otherwise);
            }
        }
    }
}

// ---- bytes

impl BinCodec for Rule {
    ghost use Rattle.test_nested_derived.specs.RuleCodecs.{rule_codec};

    ghost bin = { rule_codec };

    ghost agrees = { agreed };
}

impl WritesBin for Rule {
    #[tactic(auto, using(crate::proofs::RuleCodecsLaws::rule_written_laws))]
    fn write_bin(&self, alloc: Global, output: &mut Vec<u8>) -> Result<(), AllocError> {
        let start = output.len();
        match self {
            Self::Always => append_variant(alloc, 0, &(), output),
            Self::From(first) => append_variant(alloc, 1, first, output),
            Self::When {
                condition,
                then,
                otherwise,
            } => {
                append_variant_within(alloc, 2, condition, output)?;
                append_part_within(alloc, then, output, start)?;
                append_part_within(alloc, otherwise, output, start)
            }
        }
    }
}

impl SerBin for Rule {
    fn ser_bin(&self, alloc: Global, output: &mut Vec<u8>) -> Result<(), AllocError> {
        WritesBin::write_bin(self, alloc, output)
    }
}

impl ReadsBin<Rule> for Levels {
    #[cycle(read)]
    fn read_bin(&self, alloc: Global, offset: &mut usize, bytes: &[u8]) -> Result<Rule, DeBinErr> {
        let Levels::More(below) = self else {
            return Err(no_memory(*offset, bytes));
        };
        let Some(below) = below.first() else {
            return Err(no_memory(*offset, bytes));
        };
        read_choice_within::<Levels, Rule, RuleVariants>(below, alloc, offset, bytes)
    }
}

impl DeBin for Rule {
    ghost is_decodable = { refl };

    fn de_bin(alloc: Global, offset: &mut usize, bytes: &[u8]) -> Result<Self, DeBinErr> {
        let levels = Levels::at_most(5);
        ReadsBin::<Self>::read_bin(levels, alloc, offset, bytes)
    }
}

// ---- JSON

impl JsonCodec for Rule {
    ghost use Rattle.test_nested_derived.specs.RuleJsonCodecs.{rule_json};

    ghost json = { rule_json };

    ghost agrees = { agreed };
}

impl NestedJson for Rule {
    ghost use Rattle.test_nested_derived.specs.RuleCodecs.{rule_means};
    ghost use Rattle.test_nested_derived.specs.RuleJsonCodecs.{rule_json_at};

    ghost means = { rule_means };

    ghost at = { rule_json_at };
}

/// What writes the variants of `Rule` with named fields as JSON.
struct RuleJsonWriter {}

impl RuleJsonWriter {
    ghost use Rattle.test_nested_derived.specs.declared.rule.Rule.{When as Rule-When};
    ghost use Rattle.test_nested_derived.specs.RuleJsonCodecs.{rule_json, rule_json_content_when};

    /// Appends the fields of `When`. If the write fails, what was written so far is left.
    #[cycle(write_rule_json)]
    fn append_when_fields(
        value: &Rule,
        v0: &Box<Rule>,
        v1: &Box<Rule>,
        v2: &Option<Box<Rule>>,
        alloc: Global,
        d: usize,
        s: &mut SerJsonState,
    ) -> Result<(), AllocError>
        requires { value.now ≡ Rule-When v0.now v1.now v2.now }
        ensures ok { OnOk result (Appends s.old.out s.new.out
            ((rule_json_content_when.codec rule_json).canonical.text d (v0.now, (v1.now, v2.now)))) }
        ensures err { OnErr result (AppendsPart s.old.out s.new.out) }
    {
        s.st_pre()?;
        let inner = d.saturating_add(1);
        let then_is_first = append_required_within(alloc, "condition", v0, true, inner, s)?;
        let otherwise_is_first = append_required_within(
            alloc,
            "then",
            v1,
            then_is_first,
            inner,
            s,
        )?;
        append_optional_within(alloc, "otherwise", v2, otherwise_is_first, inner, s)?;
        s.st_post(d)
    }

    /// Appends `When` with its fields. If the write fails, what was written so far is left.
    #[cycle(write_rule_json)]
    fn append_when(
        value: &Rule,
        v0: &Box<Rule>,
        v1: &Box<Rule>,
        v2: &Option<Box<Rule>>,
        alloc: Global,
        d: usize,
        s: &mut SerJsonState,
    ) -> Result<(), AllocError>
        requires { value.now ≡ Rule-When v0.now v1.now v2.now }
        ensures ok { OnOk result (Appends s.old.out s.new.out
            (content_text (codes "When")
            ((rule_json_content_when.codec rule_json).canonical.text d (v0.now, (v1.now, v2.now))))) }
        ensures err { OnErr result (AppendsPart s.old.out s.new.out) }
    {
        s.st_pre()?;
        "When".ser_json(alloc, 0, s)?;
        s.out.push_str(":")?;
        Self::append_when_fields(value, v0, v1, v2, alloc, d, s)?;
        s.st_post(d)
    }

    /// Appends `When` with its fields. If the write fails, `s.out` is unchanged.
    #[cycle(write_rule_json)]
    fn write_when(
        value: &Rule,
        v0: &Box<Rule>,
        v1: &Box<Rule>,
        v2: &Option<Box<Rule>>,
        alloc: Global,
        d: usize,
        s: &mut SerJsonState,
    ) -> Result<(), AllocError>
        requires { value.now ≡ Rule-When v0.now v1.now v2.now }
        ensures ok { OnOk result (Appends s.old.out s.new.out
            (content_text (codes "When")
            ((rule_json_content_when.codec rule_json).canonical.text d (v0.now, (v1.now, v2.now))))) }
        ensures err { OnErr result (Unchanged s.old.out s.new.out) }
    {
        let start = s.out.len();
        let written = Self::append_when(value, v0, v1, v2, alloc, d, s);
        rollback_on_error(&mut s.out, start, written)
    }
}

impl WritesJson for Rule {
    #[cycle(write_rule_json)]
    #[tactic(auto, using(crate::proofs::RuleJsonCodecsLaws::rule_json_texts))]
    fn write_json(&self, alloc: Global, d: usize, s: &mut SerJsonState) -> Result<(), AllocError> {
        match self {
            Self::Always => nano_json_schema::write_unit_variant(alloc, "Always", s),
            Self::From(first) => write_variant_other(alloc, "From", first, d, s),
            Self::When {
                condition: v0,
                then: v1,
                otherwise: v2,
            } => RuleJsonWriter::write_when(self, v0, v1, v2, alloc, d, s),
        }
    }
}

impl SerJson for Rule {
    fn ser_json(&self, alloc: Global, d: usize, s: &mut SerJsonState) -> Result<(), AllocError> {
        WritesJson::write_json(self, alloc, d, s)
    }
}

impl ReadsJson<Rule> for Levels {
    #[cycle(read)]
    fn read_json(
        &self,
        left: usize,
        alloc: Global,
        state: &mut DeJsonState,
        input: &mut Chars<'_>,
    ) -> Result<Rule, DeJsonErr> {
        if left == 0 {
            return Err(too_many_levels(alloc, 5, state));
        }
        let Levels::More(below) = self else {
            return Err(no_levels(alloc, state));
        };
        let Some(below) = below.first() else {
            return Err(no_levels(alloc, state));
        };
        match read_choice_json_within::<Levels, RuleVariants>(
            below,
            left - 1,
            alloc,
            state,
            input,
        ) {
            Ok(values) => Ok(Rule::make(values)),
            Err(error) => Err(error),
        }
    }
}

impl DeJson for Rule {
    fn de_json(
        alloc: Global,
        state: &mut DeJsonState,
        input: &mut Chars<'_>,
    ) -> Result<Self, DeJsonErr> {
        let levels = Levels::most();
        ReadsJson::<Self>::read_json(levels, 5, alloc, state, input)
    }
}

// ---- RON

impl RonCodec for Rule {
    ghost use Rattle.test_nested_derived.specs.RuleRonCodecs.{rule_ron};

    ghost ron = { rule_ron };

    ghost agrees = { agreed };
}

impl NestedRon for Rule {
    ghost use Rattle.test_nested_derived.specs.RuleCodecs.{rule_means};
    ghost use Rattle.test_nested_derived.specs.RuleRonCodecs.{rule_ron_at};

    ghost means = { rule_means };

    ghost at = { rule_ron_at };
}

/// What writes the variants of `Rule` with named fields as RON.
struct RuleRonWriter {}

impl RuleRonWriter {
    ghost use Rattle.test_nested_derived.specs.declared.rule.Rule.{When as Rule-When};
    ghost use Rattle.test_nested_derived.specs.RuleRonCodecs.{rule_ron_of_when};

    /// Appends `When`. If the write fails, what was written so far is left.
    #[cycle(write_rule_ron)]
    fn append_when(
        value: &Rule,
        v0: &Box<Rule>,
        v1: &Box<Rule>,
        v2: &Option<Box<Rule>>,
        alloc: Global,
        d: usize,
        s: &mut SerRonState,
    ) -> Result<(), AllocError>
        requires { value.now ≡ Rule-When v0.now v1.now v2.now }
        ensures ok { OnOk result
            (Appends s.old.out s.new.out (rule_ron_of_when d v0.now v1.now v2.now)) }
        ensures err { OnErr result (AppendsPart s.old.out s.new.out) }
    {
        nano_ron_schema::write_unit_variant("When", s)?;
        s.st_pre()?;
        let inner = d.saturating_add(1);
        nano_ron_nested::append_required_within(alloc, "condition", v0, inner, s)?;
        nano_ron_nested::append_required_within(alloc, "then", v1, inner, s)?;
        nano_ron_nested::append_optional_within(alloc, "otherwise", v2, inner, s)?;
        s.st_post(d)
    }

    /// Appends `When`. If the write fails, the text is unchanged.
    #[cycle(write_rule_ron)]
    fn write_when(
        value: &Rule,
        v0: &Box<Rule>,
        v1: &Box<Rule>,
        v2: &Option<Box<Rule>>,
        alloc: Global,
        d: usize,
        s: &mut SerRonState,
    ) -> Result<(), AllocError>
        requires { value.now ≡ Rule-When v0.now v1.now v2.now }
        ensures ok { OnOk result
            (Appends s.old.out s.new.out (rule_ron_of_when d v0.now v1.now v2.now)) }
        ensures err { OnErr result (Unchanged s.old.out s.new.out) }
    {
        let start = s.out.len();
        let written = Self::append_when(value, v0, v1, v2, alloc, d, s);
        nano_ron_nested::rollback_on_error(&mut s.out, start, written)
    }
}

impl WritesRon for Rule {
    #[cycle(write_rule_ron)]
    #[tactic(auto, using(crate::proofs::RuleRonCodecsLaws::rule_ron_texts))]
    fn write_ron(&self, alloc: Global, d: usize, s: &mut SerRonState) -> Result<(), AllocError> {
        match self {
            Self::Always => nano_ron_schema::write_unit_variant("Always", s),
            Self::From(first) => nano_ron_nested::write_variant_other(alloc, "From", first, d, s),
            Self::When {
                condition: v0,
                then: v1,
                otherwise: v2,
            } => RuleRonWriter::write_when(self, v0, v1, v2, alloc, d, s),
        }
    }
}

impl SerRon for Rule {
    fn ser_ron(&self, alloc: Global, d: usize, s: &mut SerRonState) -> Result<(), AllocError> {
        WritesRon::write_ron(self, alloc, d, s)
    }
}

impl ReadsRon<Rule> for Levels {
    #[cycle(read)]
    fn read_ron(
        &self,
        left: usize,
        alloc: Global,
        state: &mut DeRonState,
        input: &mut Chars<'_>,
    ) -> Result<Rule, DeRonErr> {
        if left == 0 {
            return Err(nano_ron_nested::too_many_levels(alloc, 5, state));
        }
        let Levels::More(below) = self else {
            return Err(nano_ron_nested::no_levels(alloc, state));
        };
        let Some(below) = below.first() else {
            return Err(nano_ron_nested::no_levels(alloc, state));
        };
        match read_choice_ron_within::<Levels, RuleVariants>(below, left - 1, alloc, state, input) {
            Ok(values) => Ok(Rule::make(values)),
            Err(error) => Err(error),
        }
    }
}

impl DeRon for Rule {
    fn de_ron(
        alloc: Global,
        state: &mut DeRonState,
        input: &mut Chars<'_>,
    ) -> Result<Self, DeRonErr> {
        let levels = Levels::most();
        ReadsRon::<Self>::read_ron(levels, 5, alloc, state, input)
    }
}
