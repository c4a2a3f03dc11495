//! Written by derive_files: how the types of the module above are encoded.

ghost use Rattle.std.specs.Prelude.{codes, ◌==◌, if◌then◌else◌, refl};
ghost use Rattle.nano_schema.specs.UserTypes.{agreed};

use super::*;
use nano_bin_nested::{
    ReadsBin, WritesBin, append_part_within, append_variant, append_variant_within, no_memory,
    read_choice_within,
};
use nano_bin_schema::{BinCodec, DeBin, DeBinErr, SerBin};
use nano_json_nested::{
    NestedJson, ReadsJson, WritesJson, no_levels, read_choice_json_within, too_deep,
    write_pair_within, write_variant_other, write_variant_within,
};
use nano_json_schema::{DeJson, DeJsonErr, DeJsonState, JsonCodec, SerJson, SerJsonState};
use nano_levels::{Levels, Other, Within};
use nano_ron_nested::{NestedRon, ReadsRon, WritesRon, read_choice_ron_within};
use nano_ron_schema::{DeRon, DeRonErr, DeRonState, RonCodec, SerRon, SerRonState};
use nano_schema::{Either, EnumSchema, Label, Newtype, Tuple, Value, Variant};
use std::alloc::{AllocError, Global};
use std::str::Chars;

pub struct ExpressionNames<const I: usize> {}

impl<const I: usize> Label for ExpressionNames<I> {
    ghost label = { if I == 0 then codes "Number" else if I == 1 then codes "Negated"
        else codes "Sum" };

    fn text() -> &'static str {
        nano_schema::name_of!(I, 0 => "Number", 1 => "Negated", _ => "Sum")
    }
}

type ExpressionSumParts = (
    Within<Newtype<Box<Expression>>>,
    Within<Newtype<Box<Expression>>>,
);

type ExpressionVariants3 = Variant<ExpressionNames<2>, ExpressionSumParts>;

type ExpressionVariants2 = (
    Variant<ExpressionNames<1>, Within<Newtype<Box<Expression>>>>,
    ExpressionVariants3,
);

type ExpressionVariants = (
    Variant<ExpressionNames<0>, Other<Newtype<i64>>>,
    ExpressionVariants2,
);

type ExpressionValues3 = (Box<Expression>, Box<Expression>);

type ExpressionValues2 = Either<Box<Expression>, ExpressionValues3>;

type ExpressionValues = Either<i64, ExpressionValues2>;

impl EnumSchema for Expression {
    ghost use Rattle.test_nested_derived.specs.ExpressionCodecs.{expression_view};

    type Values = ExpressionValues;

    ghost view = { expression_view };

    #[tactic(auto, using(crate::proofs::ExpressionCodecsLaws::expression_views))]
    fn make(values: Self::Values) -> Self {
        let later = match values {
            Either::First(values) => {
                let first = values;
                return Self::Number(first);
            }
            Either::Later(later) => later,
        };
        let later = match later {
            Either::First(values) => {
                let first = values;
                return Self::Negated(first);
            }
            Either::Later(later) => later,
        };
        let (first, second) = later;
        Self::Sum(first, second)
    }
}

impl Value for Expression {
    ghost use Rattle.test_nested_derived.specs.ExpressionCodecs.{expression_means, expression_codec};

    ghost means = { expression_means };

    ghost legal = { expression_codec.encoding.legal };

    fn known(&self) {
        match self {
            Self::Number(first) => Value::known(first),
            Self::Negated(first) => Value::known(first),
            Self::Sum(first, second) => {
                Value::known(first);
                Value::known(second);
            }
        }
    }
}

// ---- bytes

impl BinCodec for Expression {
    ghost use Rattle.test_nested_derived.specs.ExpressionCodecs.{expression_codec};

    ghost bin = { expression_codec };

    ghost agrees = { agreed };
}

impl WritesBin for Expression {
    #[tactic(auto, using(crate::proofs::ExpressionCodecsLaws::expression_written_laws))]
    fn write_bin(&self, alloc: Global, output: &mut Vec<u8>) -> Result<(), AllocError> {
        let start = output.len();
        match self {
            Self::Number(first) => append_variant(alloc, 0, first, output),
            Self::Negated(first) => append_variant_within(alloc, 1, first, output),
            Self::Sum(first, second) => {
                append_variant_within(alloc, 2, first, output)?;
                append_part_within(alloc, second, output, start)
            }
        }
    }
}

impl SerBin for Expression {
    fn ser_bin(&self, alloc: Global, output: &mut Vec<u8>) -> Result<(), AllocError> {
        WritesBin::write_bin(self, alloc, output)
    }
}

impl ReadsBin<Expression> for Levels {
    #[cycle(read)]
    fn read_bin(
        &self,
        alloc: Global,
        offset: &mut usize,
        bytes: &[u8],
    ) -> Result<Expression, DeBinErr> {
        let Levels::More(below) = self else {
            return Err(no_memory(*offset, bytes));
        };
        let Some(below) = below.first() else {
            return Err(no_memory(*offset, bytes));
        };
        read_choice_within::<Levels, Expression, ExpressionVariants>(below, alloc, offset, bytes)
    }
}

impl DeBin for Expression {
    ghost is_decodable = { refl };

    fn de_bin(alloc: Global, offset: &mut usize, bytes: &[u8]) -> Result<Self, DeBinErr> {
        let levels = Levels::most();
        ReadsBin::<Self>::read_bin(levels, alloc, offset, bytes)
    }
}

// ---- JSON

impl JsonCodec for Expression {
    ghost use Rattle.test_nested_derived.specs.ExpressionJsonCodecs.{expression_json};

    ghost json = { expression_json };

    ghost agrees = { agreed };
}

impl NestedJson for Expression {
    ghost use Rattle.test_nested_derived.specs.ExpressionCodecs.{expression_means};
    ghost use Rattle.test_nested_derived.specs.ExpressionJsonCodecs.{expression_json_at};

    ghost means = { expression_means };

    ghost at = { expression_json_at };
}

type ExpressionJsonVariants3 = Variant<ExpressionNames<2>, Tuple<ExpressionSumParts>>;

type ExpressionJsonVariants2 = (
    Variant<ExpressionNames<1>, Within<Newtype<Box<Expression>>>>,
    ExpressionJsonVariants3,
);

type ExpressionJsonVariants = (
    Variant<ExpressionNames<0>, Other<Newtype<i64>>>,
    ExpressionJsonVariants2,
);

impl WritesJson for Expression {
    #[tactic(auto, using(crate::proofs::ExpressionJsonCodecsLaws::expression_json_texts))]
    fn write_json(&self, alloc: Global, d: usize, s: &mut SerJsonState) -> Result<(), AllocError> {
        match self {
            Self::Number(first) => write_variant_other(alloc, "Number", first, d, s),
            Self::Negated(first) => write_variant_within(alloc, "Negated", first, d, s),
            Self::Sum(first, second) => write_pair_within(alloc, "Sum", first, second, d, s),
        }
    }
}

impl SerJson for Expression {
    fn ser_json(&self, alloc: Global, d: usize, s: &mut SerJsonState) -> Result<(), AllocError> {
        WritesJson::write_json(self, alloc, d, s)
    }
}

impl ReadsJson<Expression> for Levels {
    #[cycle(read)]
    fn read_json(
        &self,
        left: usize,
        alloc: Global,
        state: &mut DeJsonState,
        input: &mut Chars<'_>,
    ) -> Result<Expression, DeJsonErr> {
        if left == 0 {
            return Err(too_deep(alloc, state));
        }
        let Levels::More(below) = self else {
            return Err(no_levels(alloc, state));
        };
        let Some(below) = below.first() else {
            return Err(no_levels(alloc, state));
        };
        match read_choice_json_within::<Levels, ExpressionJsonVariants>(
            below,
            left - 1,
            alloc,
            state,
            input,
        ) {
            Ok(values) => Ok(Expression::make(values)),
            Err(error) => Err(error),
        }
    }
}

impl DeJson for Expression {
    fn de_json(
        alloc: Global,
        state: &mut DeJsonState,
        input: &mut Chars<'_>,
    ) -> Result<Self, DeJsonErr> {
        let levels = Levels::most();
        ReadsJson::<Self>::read_json(levels, 128, alloc, state, input)
    }
}

// ---- RON

impl RonCodec for Expression {
    ghost use Rattle.test_nested_derived.specs.ExpressionRonCodecs.{expression_ron};

    ghost ron = { expression_ron };

    ghost agrees = { agreed };
}

impl NestedRon for Expression {
    ghost use Rattle.test_nested_derived.specs.ExpressionCodecs.{expression_means};
    ghost use Rattle.test_nested_derived.specs.ExpressionRonCodecs.{expression_ron_at};

    ghost means = { expression_means };

    ghost at = { expression_ron_at };
}

impl WritesRon for Expression {
    #[tactic(auto, using(crate::proofs::ExpressionRonCodecsLaws::expression_ron_texts))]
    fn write_ron(&self, alloc: Global, d: usize, s: &mut SerRonState) -> Result<(), AllocError> {
        match self {
            Self::Number(first) => {
                nano_ron_nested::write_variant_other(alloc, "Number", first, d, s)
            }
            Self::Negated(first) => {
                nano_ron_nested::write_variant_within(alloc, "Negated", first, d, s)
            }
            Self::Sum(first, second) => {
                nano_ron_nested::write_pair_within(alloc, "Sum", first, second, d, s)
            }
        }
    }
}

impl SerRon for Expression {
    fn ser_ron(&self, alloc: Global, d: usize, s: &mut SerRonState) -> Result<(), AllocError> {
        WritesRon::write_ron(self, alloc, d, s)
    }
}

impl ReadsRon<Expression> for Levels {
    #[cycle(read)]
    fn read_ron(
        &self,
        left: usize,
        alloc: Global,
        state: &mut DeRonState,
        input: &mut Chars<'_>,
    ) -> Result<Expression, DeRonErr> {
        if left == 0 {
            return Err(nano_ron_nested::too_deep(alloc, state));
        }
        let Levels::More(below) = self else {
            return Err(nano_ron_nested::no_levels(alloc, state));
        };
        let Some(below) = below.first() else {
            return Err(nano_ron_nested::no_levels(alloc, state));
        };
        match read_choice_ron_within::<Levels, ExpressionVariants>(
            below,
            left - 1,
            alloc,
            state,
            input,
        ) {
            Ok(values) => Ok(Expression::make(values)),
            Err(error) => Err(error),
        }
    }
}

impl DeRon for Expression {
    fn de_ron(
        alloc: Global,
        state: &mut DeRonState,
        input: &mut Chars<'_>,
    ) -> Result<Self, DeRonErr> {
        let levels = Levels::most();
        ReadsRon::<Self>::read_ron(levels, 128, alloc, state, input)
    }
}
