//! Written by derive_files: how the types of the module above are encoded.

ghost use Rattle.std.specs.Prelude.{codes, ◌==◌, if◌then◌else◌, OnOk, OnErr, ◌≡◌};
ghost use Rattle.nano_schema.specs.UserTypes.{agreed};
ghost use Rattle.nano_text.specs.Outcomes.{Appends, AppendsPart, Unchanged};
ghost use Rattle.nano_json_schema.specs.Variants.{content_text};

use super::*;
use nano_json_nested::{
    NestedJson, ReadsJson, WritesJson, append_optional_within, no_levels, read_choice_json_within,
    rollback_on_error, too_deep, write_pair_within, write_variant_within,
};
use nano_json_schema::{
    DeJson, DeJsonErr, DeJsonState, JsonCodec, JsonRefs, SerJson, SerJsonState,
};
use nano_levels::{Levels, Other, Within};
use nano_ron_nested::{NestedRon, ReadsRon, WritesRon, append_required, read_choice_ron_within};
use nano_ron_schema::{DeRon, DeRonErr, DeRonState, RonCodec, SerRon, SerRonState};
use nano_schema::{
    Either, EnumSchema, Label, Newtype, Optional, Required, Struct, Tuple, Unit, Value, Variant,
};
use std::alloc::{AllocError, Global};
use std::str::Chars;

pub struct FilterNames<const I: usize> {}

impl<const I: usize> Label for FilterNames<I> {
    ghost label = { if I == 0 then codes "Any" else if I == 1 then codes "Not"
        else if I == 2 then codes "AtLeast" else codes "Has" };

    fn text() -> &'static str {
        nano_schema::name_of!(I, 0 => "Any", 1 => "Not", 2 => "AtLeast", _ => "Has")
    }
}

type FilterAtLeastParts = (Other<Newtype<u8>>, Within<Newtype<Vec<Filter>>>);

pub struct FilterHasNames<const I: usize> {}

impl<const I: usize> Label for FilterHasNames<I> {
    ghost label = { if I == 0 then codes "field" else codes "and" };

    fn text() -> &'static str {
        nano_schema::name_of!(I, 0 => "field", _ => "and")
    }
}

type FilterHasParts = (
    Other<Required<FilterHasNames<0>, String>>,
    Within<Optional<FilterHasNames<1>, Box<Filter>>>,
);

type FilterVariants4 = Variant<FilterNames<3>, Struct<FilterHasParts>>;

type FilterVariants3 = (Variant<FilterNames<2>, FilterAtLeastParts>, FilterVariants4);

type FilterVariants2 = (
    Variant<FilterNames<1>, Within<Newtype<Box<Filter>>>>,
    FilterVariants3,
);

type FilterVariants = (Variant<FilterNames<0>, Other<Unit>>, FilterVariants2);

type FilterValues4 = (String, Option<Box<Filter>>);

type FilterValues3 = Either<(u8, Vec<Filter>), FilterValues4>;

type FilterValues2 = Either<Box<Filter>, FilterValues3>;

type FilterValues = Either<(), FilterValues2>;

impl EnumSchema for Filter {
    ghost use Rattle.test_nested_derived_ron.specs.FilterCodecs.{filter_view};

    type Values = FilterValues;

    ghost view = { filter_view };

    #[tactic(auto, using(crate::proofs::FilterCodecsLaws::filter_views))]
    fn make(values: Self::Values) -> Self {
        let later = match values {
            Either::First(values) => {
                let () = values;
                return Self::Any;
            }
            Either::Later(later) => later,
        };
        let later = match later {
            Either::First(values) => {
                let first = values;
                return Self::Not(first);
            }
            Either::Later(later) => later,
        };
        let later = match later {
            Either::First(values) => {
                let (first, second) = values;
                return Self::AtLeast(first, second);
            }
            Either::Later(later) => later,
        };
        let (field, and) = later;
        Self::Has { field, and }
    }
}

impl Value for Filter {
    ghost use Rattle.test_nested_derived_ron.specs.FilterCodecs.{filter_means};
    ghost use Rattle.test_nested_derived_ron.specs.FilterJsonCodecs.{filter_json};

    ghost means = { filter_means };

    ghost legal = { filter_json.encoding.legal };

    fn known(&self) {
        match self {
            Self::Any => Value::known(&()),
            Self::Not(first) => Value::known(first),
            Self::AtLeast(first, second) => {
                Value::known(first);
                Value::known(second);
            }
            Self::Has { field, and } => {
                Value::known(field);
                Value::known(and);
            }
        }
    }
}

// ---- JSON

impl JsonCodec for Filter {
    ghost use Rattle.test_nested_derived_ron.specs.FilterJsonCodecs.{filter_json};

    ghost json = { filter_json };

    ghost agrees = { agreed };
}

impl NestedJson for Filter {
    ghost use Rattle.test_nested_derived_ron.specs.FilterCodecs.{filter_means};
    ghost use Rattle.test_nested_derived_ron.specs.FilterJsonCodecs.{filter_json_at};

    ghost means = { filter_means };

    ghost at = { filter_json_at };
}

type FilterJsonVariants4 = Variant<FilterNames<3>, Struct<FilterHasParts>>;

type FilterJsonVariants3 = (
    Variant<FilterNames<2>, Tuple<FilterAtLeastParts>>,
    FilterJsonVariants4,
);

type FilterJsonVariants2 = (
    Variant<FilterNames<1>, Within<Newtype<Box<Filter>>>>,
    FilterJsonVariants3,
);

type FilterJsonVariants = (Variant<FilterNames<0>, Other<Unit>>, FilterJsonVariants2);

/// What writes the variants of `Filter` with named fields as JSON.
struct FilterJsonWriter {}

impl FilterJsonWriter {
    ghost use Rattle.test_nested_derived_ron.specs.declared.filter.Filter.{Has as Filter-Has};
    ghost use Rattle.test_nested_derived_ron.specs.FilterJsonCodecs.{filter_json, filter_json_content_has};

    /// Appends the fields of `Has`. If the write fails, what was written so far is left.
    #[cycle(write_filter_json)]
    fn append_has_fields(
        value: &Filter,
        v0: &String,
        v1: &Option<Box<Filter>>,
        alloc: Global,
        d: usize,
        s: &mut SerJsonState,
    ) -> Result<(), AllocError>
        requires { value.now ≡ Filter-Has v0.now v1.now }
        ensures ok { OnOk result (Appends s.old.out s.new.out
            ((filter_json_content_has.codec filter_json).canonical.text d (v0.now, v1.now))) }
        ensures err { OnErr result (AppendsPart s.old.out s.new.out) }
    {
        s.st_pre()?;
        let inner = d.saturating_add(1);
        let and_is_first = Required::<FilterHasNames<0>, String>::append_fields(
            &v0, alloc, true, inner, s,
        )?;
        append_optional_within(alloc, "and", v1, and_is_first, inner, s)?;
        s.st_post(d)
    }

    /// Appends `Has` with its fields. If the write fails, what was written so far is left.
    #[cycle(write_filter_json)]
    fn append_has(
        value: &Filter,
        v0: &String,
        v1: &Option<Box<Filter>>,
        alloc: Global,
        d: usize,
        s: &mut SerJsonState,
    ) -> Result<(), AllocError>
        requires { value.now ≡ Filter-Has v0.now v1.now }
        ensures ok { OnOk result (Appends s.old.out s.new.out
            (content_text (codes "Has")
            ((filter_json_content_has.codec filter_json).canonical.text d (v0.now, v1.now)))) }
        ensures err { OnErr result (AppendsPart s.old.out s.new.out) }
    {
        s.st_pre()?;
        "Has".ser_json(alloc, 0, s)?;
        s.out.push_str(":")?;
        Self::append_has_fields(value, v0, v1, alloc, d, s)?;
        s.st_post(d)
    }

    /// Appends `Has` with its fields. If the write fails, `s.out` is unchanged.
    #[cycle(write_filter_json)]
    fn write_has(
        value: &Filter,
        v0: &String,
        v1: &Option<Box<Filter>>,
        alloc: Global,
        d: usize,
        s: &mut SerJsonState,
    ) -> Result<(), AllocError>
        requires { value.now ≡ Filter-Has v0.now v1.now }
        ensures ok { OnOk result (Appends s.old.out s.new.out
            (content_text (codes "Has")
            ((filter_json_content_has.codec filter_json).canonical.text d (v0.now, v1.now)))) }
        ensures err { OnErr result (Unchanged s.old.out s.new.out) }
    {
        let start = s.out.len();
        let written = Self::append_has(value, v0, v1, alloc, d, s);
        rollback_on_error(&mut s.out, start, written)
    }
}

impl WritesJson for Filter {
    #[cycle(write_filter_json)]
    #[tactic(auto, using(crate::proofs::FilterJsonCodecsLaws::filter_json_texts))]
    fn write_json(&self, alloc: Global, d: usize, s: &mut SerJsonState) -> Result<(), AllocError> {
        match self {
            Self::Any => nano_json_schema::write_unit_variant(alloc, "Any", s),
            Self::Not(first) => write_variant_within(alloc, "Not", first, d, s),
            Self::AtLeast(first, second) => {
                let first = &nano_json_schema::Part { of: first };
                write_pair_within(alloc, "AtLeast", first, second, d, s)
            }
            Self::Has { field: v0, and: v1 } => {
                FilterJsonWriter::write_has(self, v0, v1, alloc, d, s)
            }
        }
    }
}

impl SerJson for Filter {
    fn ser_json(&self, alloc: Global, d: usize, s: &mut SerJsonState) -> Result<(), AllocError> {
        WritesJson::write_json(self, alloc, d, s)
    }
}

impl ReadsJson<Filter> for Levels {
    #[cycle(read)]
    fn read_json(
        &self,
        left: usize,
        alloc: Global,
        state: &mut DeJsonState,
        input: &mut Chars<'_>,
    ) -> Result<Filter, DeJsonErr> {
        if left == 0 {
            return Err(too_deep(alloc, state));
        }
        let Levels::More(below) = self else {
            return Err(no_levels(alloc, state));
        };
        let Some(below) = below.first() else {
            return Err(no_levels(alloc, state));
        };
        match read_choice_json_within::<Levels, FilterJsonVariants>(
            below,
            left - 1,
            alloc,
            state,
            input,
        ) {
            Ok(values) => Ok(Filter::make(values)),
            Err(error) => Err(error),
        }
    }
}

impl DeJson for Filter {
    fn de_json(
        alloc: Global,
        state: &mut DeJsonState,
        input: &mut Chars<'_>,
    ) -> Result<Self, DeJsonErr> {
        let levels = Levels::most();
        ReadsJson::<Self>::read_json(levels, 128, alloc, state, input)
    }
}

// ---- RON

impl RonCodec for Filter {
    ghost use Rattle.test_nested_derived_ron.specs.FilterRonCodecs.{filter_ron};

    ghost ron = { filter_ron };

    ghost agrees = { agreed };
}

impl NestedRon for Filter {
    ghost use Rattle.test_nested_derived_ron.specs.FilterCodecs.{filter_means};
    ghost use Rattle.test_nested_derived_ron.specs.FilterRonCodecs.{filter_ron_at};

    ghost means = { filter_means };

    ghost at = { filter_ron_at };
}

/// What writes the variants of `Filter` with named fields as RON.
struct FilterRonWriter {}

impl FilterRonWriter {
    ghost use Rattle.test_nested_derived_ron.specs.declared.filter.Filter.{Has as Filter-Has};
    ghost use Rattle.test_nested_derived_ron.specs.FilterRonCodecs.{filter_ron_of_has};

    /// Appends `Has`. If the write fails, what was written so far is left.
    #[cycle(write_filter_ron)]
    fn append_has(
        value: &Filter,
        v0: &String,
        v1: &Option<Box<Filter>>,
        alloc: Global,
        d: usize,
        s: &mut SerRonState,
    ) -> Result<(), AllocError>
        requires { value.now ≡ Filter-Has v0.now v1.now }
        ensures ok { OnOk result
            (Appends s.old.out s.new.out (filter_ron_of_has d v0.now v1.now)) }
        ensures err { OnErr result (AppendsPart s.old.out s.new.out) }
    {
        nano_ron_schema::write_unit_variant("Has", s)?;
        s.st_pre()?;
        let inner = d.saturating_add(1);
        append_required(alloc, "field", v0, inner, s)?;
        nano_ron_nested::append_optional_within(alloc, "and", v1, inner, s)?;
        s.st_post(d)
    }

    /// Appends `Has`. If the write fails, the text is unchanged.
    #[cycle(write_filter_ron)]
    fn write_has(
        value: &Filter,
        v0: &String,
        v1: &Option<Box<Filter>>,
        alloc: Global,
        d: usize,
        s: &mut SerRonState,
    ) -> Result<(), AllocError>
        requires { value.now ≡ Filter-Has v0.now v1.now }
        ensures ok { OnOk result
            (Appends s.old.out s.new.out (filter_ron_of_has d v0.now v1.now)) }
        ensures err { OnErr result (Unchanged s.old.out s.new.out) }
    {
        let start = s.out.len();
        let written = Self::append_has(value, v0, v1, alloc, d, s);
        nano_ron_nested::rollback_on_error(&mut s.out, start, written)
    }
}

impl WritesRon for Filter {
    #[cycle(write_filter_ron)]
    #[tactic(auto, using(crate::proofs::FilterRonCodecsLaws::filter_ron_texts))]
    fn write_ron(&self, alloc: Global, d: usize, s: &mut SerRonState) -> Result<(), AllocError> {
        match self {
            Self::Any => nano_ron_schema::write_unit_variant("Any", s),
            Self::Not(first) => nano_ron_nested::write_variant_within(alloc, "Not", first, d, s),
            Self::AtLeast(first, second) => {
                let first = &nano_ron_schema::Part { of: first };
                nano_ron_nested::write_pair_within(alloc, "AtLeast", first, second, d, s)
            }
            Self::Has { field: v0, and: v1 } => {
                FilterRonWriter::write_has(self, v0, v1, alloc, d, s)
            }
        }
    }
}

impl SerRon for Filter {
    fn ser_ron(&self, alloc: Global, d: usize, s: &mut SerRonState) -> Result<(), AllocError> {
        WritesRon::write_ron(self, alloc, d, s)
    }
}

impl ReadsRon<Filter> for Levels {
    #[cycle(read)]
    fn read_ron(
        &self,
        left: usize,
        alloc: Global,
        state: &mut DeRonState,
        input: &mut Chars<'_>,
    ) -> Result<Filter, DeRonErr> {
        if left == 0 {
            return Err(nano_ron_nested::too_deep(alloc, state));
        }
        let Levels::More(below) = self else {
            return Err(nano_ron_nested::no_levels(alloc, state));
        };
        let Some(below) = below.first() else {
            return Err(nano_ron_nested::no_levels(alloc, state));
        };
        match read_choice_ron_within::<Levels, FilterVariants>(
            below,
            left - 1,
            alloc,
            state,
            input,
        ) {
            Ok(values) => Ok(Filter::make(values)),
            Err(error) => Err(error),
        }
    }
}

impl DeRon for Filter {
    fn de_ron(
        alloc: Global,
        state: &mut DeRonState,
        input: &mut Chars<'_>,
    ) -> Result<Self, DeRonErr> {
        let levels = Levels::most();
        ReadsRon::<Self>::read_ron(levels, 128, alloc, state, input)
    }
}
