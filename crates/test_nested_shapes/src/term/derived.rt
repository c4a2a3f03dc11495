//! Written by derive_files: how the types of the module above are encoded.

ghost use Rattle.std.specs.Prelude.{codes, ◌==◌, if◌then◌else◌, refl, OnOk, OnErr, ◌≡◌};
ghost use Rattle.nano_schema.specs.UserTypes.{agreed};
ghost use Rattle.nano_text.specs.Outcomes.{Appends, AppendsPart, Unchanged};
ghost use Rattle.nano_json_schema.specs.Variants.{content_text};

use super::*;
use nano_bin_nested::{
    ReadsBin, WritesBin, append_part_within, append_variant, append_variant_within, no_memory,
    read_choice_within,
};
use nano_bin_schema::{BinCodec, DeBin, DeBinErr, SerBin};
use nano_json_nested::{
    NestedJson, ReadsJson, WritesJson, append_optional_within, no_levels, read_choice_json_within,
    rollback_on_error, too_deep, write_pair_within, write_triple_within, write_variant_other,
    write_variant_within,
};
use nano_json_schema::{
    DeJson, DeJsonErr, DeJsonState, JsonCodec, JsonRefs, SerJson, SerJsonState,
};
use nano_levels::{Levels, Other, Within};
use nano_ron_nested::{NestedRon, ReadsRon, WritesRon, append_required, read_choice_ron_within};
use nano_ron_schema::{DeRon, DeRonErr, DeRonState, RonCodec, SerRon, SerRonState};
use nano_schema::{
    Either, EnumSchema, Label, Newtype, Optional, Required, Struct, Tuple, Unit, Value, Variant,
};
use std::alloc::{AllocError, Global};
use std::str::Chars;

pub struct TermNames<const I: usize> {}

impl<const I: usize> Label for TermNames<I> {
    ghost label = { if I == 0 then codes "Number" else if I == 1 then codes "Call"
        else if I == 2 then codes "If" else codes "Repeat" };

    fn text() -> &'static str {
        nano_schema::name_of!(I, 0 => "Number", 1 => "Call", 2 => "If", _ => "Repeat")
    }
}

type TermCallParts = (Other<Newtype<String>>, Within<Newtype<Vec<Argument>>>);

type TermIfParts = (
    Within<Newtype<Box<Term>>>,
    (Within<Newtype<Box<Term>>>, Within<Newtype<Box<Term>>>),
);

type TermRepeatParts = (
    Other<Newtype<u32>>,
    (Other<Newtype<bool>>, Within<Newtype<Box<Term>>>),
);

type TermVariants4 = Variant<TermNames<3>, TermRepeatParts>;

type TermVariants3 = (Variant<TermNames<2>, TermIfParts>, TermVariants4);

type TermVariants2 = (Variant<TermNames<1>, TermCallParts>, TermVariants3);

type TermVariants = (Variant<TermNames<0>, Other<Newtype<i64>>>, TermVariants2);

type TermValues4 = (u32, (bool, Box<Term>));

type TermValues3 = Either<(Box<Term>, (Box<Term>, Box<Term>)), TermValues4>;

type TermValues2 = Either<(String, Vec<Argument>), TermValues3>;

type TermValues = Either<i64, TermValues2>;

impl EnumSchema for Term {
    ghost use Rattle.test_nested_shapes.specs.TermCodecs.{term_view};

    type Values = TermValues;

    ghost view = { term_view };

    #[tactic(auto, using(crate::proofs::TermCodecsLaws::term_views))]
    fn make(values: Self::Values) -> Self {
        let later = match values {
            Either::First(values) => {
                let first = values;
                return Self::Number(first);
            }
            Either::Later(later) => later,
        };
        let later = match later {
            Either::First(values) => {
                let (first, second) = values;
                return Self::Call(first, second);
            }
            Either::Later(later) => later,
        };
        let later = match later {
            Either::First(values) => {
                let (first, (second, third)) = values;
                return Self::If(first, second, third);
            }
            Either::Later(later) => later,
        };
        let (first, (second, third)) = later;
        Self::Repeat(first, second, third)
    }
}

impl Value for Term {
    ghost use Rattle.test_nested_shapes.specs.TermCodecs.{term_means, term_codec};

    ghost means = { term_means };

    ghost legal = { term_codec.encoding.legal };

    #[cycle(known_term)]
    fn known(&self) {
        match self {
            Self::Number(first) => Value::known(first),
            Self::Call(first, second) => {
                Value::known(first);
                Value::known(second);
            }
            Self::If(first, second, third) => {
                Value::known(first);
                Value::known(second);
                Value::known(third);
            }
            Self::Repeat(first, second, third) => {
                Value::known(first);
                Value::known(second);
                Value::known(third);
            }
        }
    }
}

// ---- bytes

impl BinCodec for Term {
    ghost use Rattle.test_nested_shapes.specs.TermCodecs.{term_codec};

    ghost bin = { term_codec };

    ghost agrees = { agreed };
}

impl WritesBin for Term {
    #[tactic(auto, using(crate::proofs::TermCodecsLaws::term_written_laws))]
    #[cycle(write_term_bin)]
    fn write_bin(&self, alloc: Global, output: &mut Vec<u8>) -> Result<(), AllocError> {
        let start = output.len();
        match self {
            Self::Number(first) => append_variant(alloc, 0, first, output),
            Self::Call(first, second) => {
                append_variant(alloc, 1, first, output)?;
                append_part_within(alloc, second, output, start)
            }
            Self::If(first, second, third) => {
                append_variant_within(alloc, 2, first, output)?;
                append_part_within(alloc, second, output, start)?;
                append_part_within(alloc, third, output, start)
            }
            Self::Repeat(first, second, third) => {
                append_variant(alloc, 3, first, output)?;
                nano_bin::append_part(alloc, second, output, start)?;
                append_part_within(alloc, third, output, start)
            }
        }
    }
}

impl SerBin for Term {
    fn ser_bin(&self, alloc: Global, output: &mut Vec<u8>) -> Result<(), AllocError> {
        WritesBin::write_bin(self, alloc, output)
    }
}

impl ReadsBin<Term> for Levels {
    #[cycle(read_term_bin)]
    fn read_bin(&self, alloc: Global, offset: &mut usize, bytes: &[u8]) -> Result<Term, DeBinErr> {
        let Levels::More(below) = self else {
            return Err(no_memory(*offset, bytes));
        };
        let Some(below) = below.first() else {
            return Err(no_memory(*offset, bytes));
        };
        read_choice_within::<Levels, Term, TermVariants>(below, alloc, offset, bytes)
    }
}

impl DeBin for Term {
    ghost is_decodable = { refl };

    fn de_bin(alloc: Global, offset: &mut usize, bytes: &[u8]) -> Result<Self, DeBinErr> {
        let levels = Levels::most();
        ReadsBin::<Self>::read_bin(levels, alloc, offset, bytes)
    }
}

// ---- JSON

impl JsonCodec for Term {
    ghost use Rattle.test_nested_shapes.specs.TermJsonCodecs.{term_json};

    ghost json = { term_json };

    ghost agrees = { agreed };
}

impl NestedJson for Term {
    ghost use Rattle.test_nested_shapes.specs.TermCodecs.{term_means};
    ghost use Rattle.test_nested_shapes.specs.TermJsonCodecs.{term_json_at};

    ghost means = { term_means };

    ghost at = { term_json_at };
}

type TermJsonVariants4 = Variant<TermNames<3>, Tuple<TermRepeatParts>>;

type TermJsonVariants3 = (Variant<TermNames<2>, Tuple<TermIfParts>>, TermJsonVariants4);

type TermJsonVariants2 = (
    Variant<TermNames<1>, Tuple<TermCallParts>>,
    TermJsonVariants3,
);

type TermJsonVariants = (
    Variant<TermNames<0>, Other<Newtype<i64>>>,
    TermJsonVariants2,
);

impl WritesJson for Term {
    #[cycle(write_term_json)]
    #[tactic(auto, using(crate::proofs::TermJsonCodecsLaws::term_json_texts))]
    fn write_json(&self, alloc: Global, d: usize, s: &mut SerJsonState) -> Result<(), AllocError> {
        match self {
            Self::Number(first) => write_variant_other(alloc, "Number", first, d, s),
            Self::Call(first, second) => {
                let first = &nano_json_schema::Part { of: first };
                write_pair_within(alloc, "Call", first, second, d, s)
            }
            Self::If(first, second, third) => {
                write_triple_within(alloc, "If", first, second, third, d, s)
            }
            Self::Repeat(first, second, third) => {
                let first = &nano_json_schema::Part { of: first };
                let second = &nano_json_schema::Part { of: second };
                write_triple_within(alloc, "Repeat", first, second, third, d, s)
            }
        }
    }
}

impl SerJson for Term {
    fn ser_json(&self, alloc: Global, d: usize, s: &mut SerJsonState) -> Result<(), AllocError> {
        WritesJson::write_json(self, alloc, d, s)
    }
}

impl ReadsJson<Term> for Levels {
    #[cycle(read_term_json)]
    fn read_json(
        &self,
        left: usize,
        alloc: Global,
        state: &mut DeJsonState,
        input: &mut Chars<'_>,
    ) -> Result<Term, DeJsonErr> {
        if left == 0 {
            return Err(too_deep(alloc, state));
        }
        let Levels::More(below) = self else {
            return Err(no_levels(alloc, state));
        };
        let Some(below) = below.first() else {
            return Err(no_levels(alloc, state));
        };
        match read_choice_json_within::<Levels, TermJsonVariants>(
            below,
            left - 1,
            alloc,
            state,
            input,
        ) {
            Ok(values) => Ok(Term::make(values)),
            Err(error) => Err(error),
        }
    }
}

impl DeJson for Term {
    fn de_json(
        alloc: Global,
        state: &mut DeJsonState,
        input: &mut Chars<'_>,
    ) -> Result<Self, DeJsonErr> {
        let levels = Levels::most();
        ReadsJson::<Self>::read_json(levels, 128, alloc, state, input)
    }
}

// ---- RON

impl RonCodec for Term {
    ghost use Rattle.test_nested_shapes.specs.TermRonCodecs.{term_ron};

    ghost ron = { term_ron };

    ghost agrees = { agreed };
}

impl NestedRon for Term {
    ghost use Rattle.test_nested_shapes.specs.TermCodecs.{term_means};
    ghost use Rattle.test_nested_shapes.specs.TermRonCodecs.{term_ron_at};

    ghost means = { term_means };

    ghost at = { term_ron_at };
}

impl WritesRon for Term {
    #[cycle(write_term_ron)]
    #[tactic(auto, using(crate::proofs::TermRonCodecsLaws::term_ron_texts))]
    fn write_ron(&self, alloc: Global, d: usize, s: &mut SerRonState) -> Result<(), AllocError> {
        match self {
            Self::Number(first) => {
                nano_ron_nested::write_variant_other(alloc, "Number", first, d, s)
            }
            Self::Call(first, second) => {
                let first = &nano_ron_schema::Part { of: first };
                nano_ron_nested::write_pair_within(alloc, "Call", first, second, d, s)
            }
            Self::If(first, second, third) => {
                nano_ron_nested::write_triple_within(alloc, "If", first, second, third, d, s)
            }
            Self::Repeat(first, second, third) => {
                let first = &nano_ron_schema::Part { of: first };
                let second = &nano_ron_schema::Part { of: second };
                nano_ron_nested::write_triple_within(alloc, "Repeat", first, second, third, d, s)
            }
        }
    }
}

impl SerRon for Term {
    fn ser_ron(&self, alloc: Global, d: usize, s: &mut SerRonState) -> Result<(), AllocError> {
        WritesRon::write_ron(self, alloc, d, s)
    }
}

impl ReadsRon<Term> for Levels {
    #[cycle(read_term_ron)]
    fn read_ron(
        &self,
        left: usize,
        alloc: Global,
        state: &mut DeRonState,
        input: &mut Chars<'_>,
    ) -> Result<Term, DeRonErr> {
        if left == 0 {
            return Err(nano_ron_nested::too_deep(alloc, state));
        }
        let Levels::More(below) = self else {
            return Err(nano_ron_nested::no_levels(alloc, state));
        };
        let Some(below) = below.first() else {
            return Err(nano_ron_nested::no_levels(alloc, state));
        };
        match read_choice_ron_within::<Levels, TermVariants>(below, left - 1, alloc, state, input) {
            Ok(values) => Ok(Term::make(values)),
            Err(error) => Err(error),
        }
    }
}

impl DeRon for Term {
    fn de_ron(
        alloc: Global,
        state: &mut DeRonState,
        input: &mut Chars<'_>,
    ) -> Result<Self, DeRonErr> {
        let levels = Levels::most();
        ReadsRon::<Self>::read_ron(levels, 128, alloc, state, input)
    }
}

pub struct ArgumentNames<const I: usize> {}

impl<const I: usize> Label for ArgumentNames<I> {
    ghost label = { if I == 0 then codes "Plain" else if I == 1 then codes "Named"
        else codes "Rest" };

    fn text() -> &'static str {
        nano_schema::name_of!(I, 0 => "Plain", 1 => "Named", _ => "Rest")
    }
}

pub struct ArgumentNamedNames<const I: usize> {}

impl<const I: usize> Label for ArgumentNamedNames<I> {
    ghost label = { if I == 0 then codes "name" else codes "value" };

    fn text() -> &'static str {
        nano_schema::name_of!(I, 0 => "name", _ => "value")
    }
}

type ArgumentNamedParts = (
    Other<Required<ArgumentNamedNames<0>, String>>,
    Within<Optional<ArgumentNamedNames<1>, Box<Term>>>,
);

type ArgumentVariants3 = Variant<ArgumentNames<2>, Other<Unit>>;

type ArgumentVariants2 = (
    Variant<ArgumentNames<1>, Struct<ArgumentNamedParts>>,
    ArgumentVariants3,
);

type ArgumentVariants = (
    Variant<ArgumentNames<0>, Within<Newtype<Term>>>,
    ArgumentVariants2,
);

type ArgumentValues3 = ();

type ArgumentValues2 = Either<(String, Option<Box<Term>>), ArgumentValues3>;

type ArgumentValues = Either<Term, ArgumentValues2>;

impl EnumSchema for Argument {
    ghost use Rattle.test_nested_shapes.specs.TermCodecs.{argument_view};

    type Values = ArgumentValues;

    ghost view = { argument_view };

    #[tactic(auto, using(crate::proofs::TermCodecsLaws::argument_views))]
    fn make(values: Self::Values) -> Self {
        let later = match values {
            Either::First(values) => {
                let first = values;
                return Self::Plain(first);
            }
            Either::Later(later) => later,
        };
        let later = match later {
            Either::First(values) => {
                let (name, value) = values;
                return Self::Named { name, value };
            }
            Either::Later(later) => later,
        };
        let () = later;
        Self::Rest
    }
}

impl Value for Argument {
    ghost use Rattle.test_nested_shapes.specs.TermCodecs.{argument_means, argument_codec};

    ghost means = { argument_means };

    ghost legal = { argument_codec.encoding.legal };

    #[cycle(known_term)]
    fn known(&self) {
        match self {
            Self::Plain(first) => Value::known(first),
            Self::Named { name, value } => {
                Value::known(name);
                Value::known(value);
            }
            Self::Rest => Value::known(&()),
        }
    }
}

// ---- bytes

impl BinCodec for Argument {
    ghost use Rattle.test_nested_shapes.specs.TermCodecs.{argument_codec};

    ghost bin = { argument_codec };

    ghost agrees = { agreed };
}

impl WritesBin for Argument {
    #[tactic(auto, using(crate::proofs::TermCodecsLaws::argument_written_laws))]
    #[cycle(write_term_bin)]
    fn write_bin(&self, alloc: Global, output: &mut Vec<u8>) -> Result<(), AllocError> {
        let start = output.len();
        match self {
            Self::Plain(first) => append_variant_within(alloc, 0, first, output),
            Self::Named { name, value } => {
                append_variant(alloc, 1, name, output)?;
                append_part_within(alloc, value, output, start)
            }
            Self::Rest => append_variant(alloc, 2, &(), output),
        }
    }
}

impl SerBin for Argument {
    fn ser_bin(&self, alloc: Global, output: &mut Vec<u8>) -> Result<(), AllocError> {
        WritesBin::write_bin(self, alloc, output)
    }
}

impl ReadsBin<Argument> for Levels {
    #[cycle(read_term_bin)]
    fn read_bin(
        &self,
        alloc: Global,
        offset: &mut usize,
        bytes: &[u8],
    ) -> Result<Argument, DeBinErr> {
        read_choice_within::<Levels, Argument, ArgumentVariants>(self, alloc, offset, bytes)
    }
}

impl DeBin for Argument {
    ghost is_decodable = { refl };

    fn de_bin(alloc: Global, offset: &mut usize, bytes: &[u8]) -> Result<Self, DeBinErr> {
        let levels = Levels::most();
        ReadsBin::<Self>::read_bin(levels, alloc, offset, bytes)
    }
}

// ---- JSON

impl JsonCodec for Argument {
    ghost use Rattle.test_nested_shapes.specs.TermJsonCodecs.{argument_json};

    ghost json = { argument_json };

    ghost agrees = { agreed };
}

impl NestedJson for Argument {
    ghost use Rattle.test_nested_shapes.specs.TermCodecs.{argument_means};
    ghost use Rattle.test_nested_shapes.specs.TermJsonCodecs.{argument_json_at};

    ghost means = { argument_means };

    ghost at = { argument_json_at };
}

/// What writes the variants of `Argument` with named fields as JSON.
struct ArgumentJsonWriter {}

impl ArgumentJsonWriter {
    ghost use Rattle.test_nested_shapes.specs.declared.term.Argument.{Named as Argument-Named};
    ghost use Rattle.test_nested_shapes.specs.TermJsonCodecs.{term_json, argument_json_content_named};

    /// Appends the fields of `Named`. If the write fails, what was written so far is left.
    #[cycle(write_term_json)]
    fn append_named_fields(
        value: &Argument,
        v0: &String,
        v1: &Option<Box<Term>>,
        alloc: Global,
        d: usize,
        s: &mut SerJsonState,
    ) -> Result<(), AllocError>
        requires { value.now ≡ Argument-Named v0.now v1.now }
        ensures ok { OnOk result (Appends s.old.out s.new.out
            ((argument_json_content_named.codec term_json).canonical.text d (v0.now, v1.now))) }
        ensures err { OnErr result (AppendsPart s.old.out s.new.out) }
    {
        s.st_pre()?;
        let inner = d.saturating_add(1);
        let value_is_first = Required::<ArgumentNamedNames<0>, String>::append_fields(
            &v0, alloc, true, inner, s,
        )?;
        append_optional_within(alloc, "value", v1, value_is_first, inner, s)?;
        s.st_post(d)
    }

    /// Appends `Named` with its fields. If the write fails, what was written so far is left.
    #[cycle(write_term_json)]
    fn append_named(
        value: &Argument,
        v0: &String,
        v1: &Option<Box<Term>>,
        alloc: Global,
        d: usize,
        s: &mut SerJsonState,
    ) -> Result<(), AllocError>
        requires { value.now ≡ Argument-Named v0.now v1.now }
        ensures ok { OnOk result (Appends s.old.out s.new.out
            (content_text (codes "Named")
            ((argument_json_content_named.codec term_json).canonical.text d (v0.now, v1.now)))) }
        ensures err { OnErr result (AppendsPart s.old.out s.new.out) }
    {
        s.st_pre()?;
        "Named".ser_json(alloc, 0, s)?;
        s.out.push_str(":")?;
        Self::append_named_fields(value, v0, v1, alloc, d, s)?;
        s.st_post(d)
    }

    /// Appends `Named` with its fields. If the write fails, `s.out` is unchanged.
    #[cycle(write_term_json)]
    fn write_named(
        value: &Argument,
        v0: &String,
        v1: &Option<Box<Term>>,
        alloc: Global,
        d: usize,
        s: &mut SerJsonState,
    ) -> Result<(), AllocError>
        requires { value.now ≡ Argument-Named v0.now v1.now }
        ensures ok { OnOk result (Appends s.old.out s.new.out
            (content_text (codes "Named")
            ((argument_json_content_named.codec term_json).canonical.text d (v0.now, v1.now)))) }
        ensures err { OnErr result (Unchanged s.old.out s.new.out) }
    {
        let start = s.out.len();
        let written = Self::append_named(value, v0, v1, alloc, d, s);
        rollback_on_error(&mut s.out, start, written)
    }
}

impl WritesJson for Argument {
    #[cycle(write_term_json)]
    #[tactic(auto, using(crate::proofs::TermJsonCodecsLaws::argument_json_texts))]
    fn write_json(&self, alloc: Global, d: usize, s: &mut SerJsonState) -> Result<(), AllocError> {
        match self {
            Self::Plain(first) => write_variant_within(alloc, "Plain", first, d, s),
            Self::Named {
                name: v0,
                value: v1,
            } => ArgumentJsonWriter::write_named(self, v0, v1, alloc, d, s),
            Self::Rest => nano_json_schema::write_unit_variant(alloc, "Rest", s),
        }
    }
}

impl SerJson for Argument {
    fn ser_json(&self, alloc: Global, d: usize, s: &mut SerJsonState) -> Result<(), AllocError> {
        WritesJson::write_json(self, alloc, d, s)
    }
}

impl ReadsJson<Argument> for Levels {
    #[cycle(read_term_json)]
    fn read_json(
        &self,
        left: usize,
        alloc: Global,
        state: &mut DeJsonState,
        input: &mut Chars<'_>,
    ) -> Result<Argument, DeJsonErr> {
        match read_choice_json_within::<Levels, ArgumentVariants>(self, left, alloc, state, input) {
            Ok(values) => Ok(Argument::make(values)),
            Err(error) => Err(error),
        }
    }
}

impl DeJson for Argument {
    fn de_json(
        alloc: Global,
        state: &mut DeJsonState,
        input: &mut Chars<'_>,
    ) -> Result<Self, DeJsonErr> {
        let levels = Levels::most();
        ReadsJson::<Self>::read_json(levels, 128, alloc, state, input)
    }
}

// ---- RON

impl RonCodec for Argument {
    ghost use Rattle.test_nested_shapes.specs.TermRonCodecs.{argument_ron};

    ghost ron = { argument_ron };

    ghost agrees = { agreed };
}

impl NestedRon for Argument {
    ghost use Rattle.test_nested_shapes.specs.TermCodecs.{argument_means};
    ghost use Rattle.test_nested_shapes.specs.TermRonCodecs.{argument_ron_at};

    ghost means = { argument_means };

    ghost at = { argument_ron_at };
}

/// What writes the variants of `Argument` with named fields as RON.
struct ArgumentRonWriter {}

impl ArgumentRonWriter {
    ghost use Rattle.test_nested_shapes.specs.declared.term.Argument.{Named as Argument-Named};
    ghost use Rattle.test_nested_shapes.specs.TermRonCodecs.{argument_ron_of_named};

    /// Appends `Named`. If the write fails, what was written so far is left.
    #[cycle(write_term_ron)]
    fn append_named(
        value: &Argument,
        v0: &String,
        v1: &Option<Box<Term>>,
        alloc: Global,
        d: usize,
        s: &mut SerRonState,
    ) -> Result<(), AllocError>
        requires { value.now ≡ Argument-Named v0.now v1.now }
        ensures ok { OnOk result
            (Appends s.old.out s.new.out (argument_ron_of_named d v0.now v1.now)) }
        ensures err { OnErr result (AppendsPart s.old.out s.new.out) }
    {
        nano_ron_schema::write_unit_variant("Named", s)?;
        s.st_pre()?;
        let inner = d.saturating_add(1);
        append_required(alloc, "name", v0, inner, s)?;
        nano_ron_nested::append_optional_within(alloc, "value", v1, inner, s)?;
        s.st_post(d)
    }

    /// Appends `Named`. If the write fails, the text is unchanged.
    #[cycle(write_term_ron)]
    fn write_named(
        value: &Argument,
        v0: &String,
        v1: &Option<Box<Term>>,
        alloc: Global,
        d: usize,
        s: &mut SerRonState,
    ) -> Result<(), AllocError>
        requires { value.now ≡ Argument-Named v0.now v1.now }
        ensures ok { OnOk result
            (Appends s.old.out s.new.out (argument_ron_of_named d v0.now v1.now)) }
        ensures err { OnErr result (Unchanged s.old.out s.new.out) }
    {
        let start = s.out.len();
        let written = Self::append_named(value, v0, v1, alloc, d, s);
        nano_ron_nested::rollback_on_error(&mut s.out, start, written)
    }
}

impl WritesRon for Argument {
    #[cycle(write_term_ron)]
    #[tactic(auto, using(crate::proofs::TermRonCodecsLaws::argument_ron_texts))]
    fn write_ron(&self, alloc: Global, d: usize, s: &mut SerRonState) -> Result<(), AllocError> {
        match self {
            Self::Plain(first) => {
                nano_ron_nested::write_variant_within(alloc, "Plain", first, d, s)
            }
            Self::Named {
                name: v0,
                value: v1,
            } => ArgumentRonWriter::write_named(self, v0, v1, alloc, d, s),
            Self::Rest => nano_ron_schema::write_unit_variant("Rest", s),
        }
    }
}

impl SerRon for Argument {
    fn ser_ron(&self, alloc: Global, d: usize, s: &mut SerRonState) -> Result<(), AllocError> {
        WritesRon::write_ron(self, alloc, d, s)
    }
}

impl ReadsRon<Argument> for Levels {
    #[cycle(read_term_ron)]
    fn read_ron(
        &self,
        left: usize,
        alloc: Global,
        state: &mut DeRonState,
        input: &mut Chars<'_>,
    ) -> Result<Argument, DeRonErr> {
        match read_choice_ron_within::<Levels, ArgumentVariants>(self, left, alloc, state, input) {
            Ok(values) => Ok(Argument::make(values)),
            Err(error) => Err(error),
        }
    }
}

impl DeRon for Argument {
    fn de_ron(
        alloc: Global,
        state: &mut DeRonState,
        input: &mut Chars<'_>,
    ) -> Result<Self, DeRonErr> {
        let levels = Levels::most();
        ReadsRon::<Self>::read_ron(levels, 128, alloc, state, input)
    }
}
