//! Written by derive_files: how the types of the module above are encoded.

ghost use Rattle.std.specs.Prelude.{codes, ◌==◌, if◌then◌else◌, refl, OnOk, OnErr};
ghost use Rattle.nano_schema.specs.UserTypes.{agreed};
ghost use Rattle.nano_text.specs.Outcomes.{Appends, AppendsPart};

use super::*;
use nano_bin_nested::{
    ReadsBin, WritesBin, append_part_within, append_variant, append_variant_within, no_memory,
    read_choice_within, read_record_within,
};
use nano_bin_schema::{BinCodec, DeBin, DeBinErr, SerBin};
use nano_json_nested::{
    NestedJson, ReadsJson, WritesJson, append_optional_within, append_required_within, no_levels,
    read_choice_json_within, read_record_json_within, rollback_on_error, too_deep,
    write_pair_within, write_variant_within,
};
use nano_json_schema::{DeJson, DeJsonErr, DeJsonState, JsonCodec, SerJson, SerJsonState};
use nano_levels::{Levels, Other, Within};
use nano_ron_nested::{
    NestedRon, ReadsRon, WritesRon, read_choice_ron_within, read_record_ron_within,
};
use nano_ron_schema::{DeRon, DeRonErr, DeRonState, RonCodec, SerRon, SerRonState};
use nano_schema::{
    Either, EnumSchema, Label, Newtype, Optional, Required, StructSchema, Tuple, Value, Variant,
};
use std::alloc::{AllocError, Global};
use std::str::Chars;

pub struct StatementNames<const I: usize> {}

impl<const I: usize> Label for StatementNames<I> {
    ghost label = { if I == 0 then codes "Assign" else if I == 1 then codes "Block"
        else codes "If" };

    fn text() -> &'static str {
        nano_schema::name_of!(I, 0 => "Assign", 1 => "Block", _ => "If")
    }
}

type StatementAssignParts = (Other<Newtype<String>>, Other<Newtype<i32>>);

type StatementVariants3 = Variant<StatementNames<2>, Within<Newtype<Box<Branch>>>>;

type StatementVariants2 = (
    Variant<StatementNames<1>, Within<Newtype<Vec<Statement>>>>,
    StatementVariants3,
);

type StatementVariants = (
    Variant<StatementNames<0>, StatementAssignParts>,
    StatementVariants2,
);

type StatementValues3 = Box<Branch>;

type StatementValues2 = Either<Vec<Statement>, StatementValues3>;

type StatementValues = Either<(String, i32), StatementValues2>;

impl EnumSchema for Statement {
    ghost use Rattle.test_nested.specs.StatementCodecs.{statement_view};

    type Values = StatementValues;

    ghost view = { statement_view };

    #[tactic(auto, using(crate::proofs::StatementCodecsLaws::statement_views))]
    fn make(values: Self::Values) -> Self {
        let later = match values {
            Either::First(values) => {
                let (first, second) = values;
                return Self::Assign(first, second);
            }
            Either::Later(later) => later,
        };
        let later = match later {
            Either::First(values) => {
                let first = values;
                return Self::Block(first);
            }
            Either::Later(later) => later,
        };
        let first = later;
        Self::If(first)
    }
}

impl Value for Statement {
    ghost use Rattle.test_nested.specs.StatementCodecs.{statement_means, statement_codec};

    ghost means = { statement_means };

    ghost legal = { statement_codec.encoding.legal };

    #[cycle(known_statement)]
    fn known(&self) {
        match self {
            Self::Assign(first, second) => {
                Value::known(first);
                Value::known(second);
            }
            Self::Block(first) => Value::known(first),
            Self::If(first) => Value::known(first),
        }
    }
}

// ---- bytes

impl BinCodec for Statement {
    ghost use Rattle.test_nested.specs.StatementCodecs.{statement_codec};

    ghost bin = { statement_codec };

    ghost agrees = { agreed };
}

impl WritesBin for Statement {
    #[tactic(auto, using(crate::proofs::StatementCodecsLaws::statement_written_laws))]
    #[cycle(write_statement_bin)]
    fn write_bin(&self, alloc: Global, output: &mut Vec<u8>) -> Result<(), AllocError> {
        let start = output.len();
        match self {
            Self::Assign(first, second) => {
                append_variant(alloc, 0, first, output)?;
                nano_bin::append_part(alloc, second, output, start)
            }
            Self::Block(first) => append_variant_within(alloc, 1, first, output),
            Self::If(first) => append_variant_within(alloc, 2, first, output),
        }
    }
}

impl SerBin for Statement {
    fn ser_bin(&self, alloc: Global, output: &mut Vec<u8>) -> Result<(), AllocError> {
        WritesBin::write_bin(self, alloc, output)
    }
}

impl ReadsBin<Statement> for Levels {
    #[cycle(read_statement_bin)]
    fn read_bin(
        &self,
        alloc: Global,
        offset: &mut usize,
        bytes: &[u8],
    ) -> Result<Statement, DeBinErr> {
        let Levels::More(below) = self else {
            return Err(no_memory(*offset, bytes));
        };
        let Some(below) = below.first() else {
            return Err(no_memory(*offset, bytes));
        };
        read_choice_within::<Levels, Statement, StatementVariants>(below, alloc, offset, bytes)
    }
}

impl DeBin for Statement {
    ghost is_decodable = { refl };

    fn de_bin(alloc: Global, offset: &mut usize, bytes: &[u8]) -> Result<Self, DeBinErr> {
        let levels = Levels::most();
        ReadsBin::<Self>::read_bin(levels, alloc, offset, bytes)
    }
}

// ---- JSON

impl JsonCodec for Statement {
    ghost use Rattle.test_nested.specs.StatementJsonCodecs.{statement_json};

    ghost json = { statement_json };

    ghost agrees = { agreed };
}

impl NestedJson for Statement {
    ghost use Rattle.test_nested.specs.StatementCodecs.{statement_means};
    ghost use Rattle.test_nested.specs.StatementJsonCodecs.{statement_json_at};

    ghost means = { statement_means };

    ghost at = { statement_json_at };
}

type StatementJsonVariants3 = Variant<StatementNames<2>, Within<Newtype<Box<Branch>>>>;

type StatementJsonVariants2 = (
    Variant<StatementNames<1>, Within<Newtype<Vec<Statement>>>>,
    StatementJsonVariants3,
);

type StatementJsonVariants = (
    Variant<StatementNames<0>, Tuple<StatementAssignParts>>,
    StatementJsonVariants2,
);

impl WritesJson for Statement {
    #[cycle(write_statement_json)]
    #[tactic(auto, using(crate::proofs::StatementJsonCodecsLaws::statement_json_texts))]
    fn write_json(&self, alloc: Global, d: usize, s: &mut SerJsonState) -> Result<(), AllocError> {
        match self {
            Self::Assign(first, second) => {
                let first = &nano_json_schema::Part { of: first };
                let second = &nano_json_schema::Part { of: second };
                write_pair_within(alloc, "Assign", first, second, d, s)
            }
            Self::Block(first) => write_variant_within(alloc, "Block", first, d, s),
            Self::If(first) => write_variant_within(alloc, "If", first, d, s),
        }
    }
}

impl SerJson for Statement {
    fn ser_json(&self, alloc: Global, d: usize, s: &mut SerJsonState) -> Result<(), AllocError> {
        WritesJson::write_json(self, alloc, d, s)
    }
}

impl ReadsJson<Statement> for Levels {
    #[cycle(read_statement_json)]
    fn read_json(
        &self,
        left: usize,
        alloc: Global,
        state: &mut DeJsonState,
        input: &mut Chars<'_>,
    ) -> Result<Statement, DeJsonErr> {
        if left == 0 {
            return Err(too_deep(alloc, state));
        }
        let Levels::More(below) = self else {
            return Err(no_levels(alloc, state));
        };
        let Some(below) = below.first() else {
            return Err(no_levels(alloc, state));
        };
        match read_choice_json_within::<Levels, StatementJsonVariants>(
            below,
            left - 1,
            alloc,
            state,
            input,
        ) {
            Ok(values) => Ok(Statement::make(values)),
            Err(error) => Err(error),
        }
    }
}

impl DeJson for Statement {
    fn de_json(
        alloc: Global,
        state: &mut DeJsonState,
        input: &mut Chars<'_>,
    ) -> Result<Self, DeJsonErr> {
        let levels = Levels::most();
        ReadsJson::<Self>::read_json(levels, 128, alloc, state, input)
    }
}

// ---- RON

impl RonCodec for Statement {
    ghost use Rattle.test_nested.specs.StatementRonCodecs.{statement_ron};

    ghost ron = { statement_ron };

    ghost agrees = { agreed };
}

impl NestedRon for Statement {
    ghost use Rattle.test_nested.specs.StatementCodecs.{statement_means};
    ghost use Rattle.test_nested.specs.StatementRonCodecs.{statement_ron_at};

    ghost means = { statement_means };

    ghost at = { statement_ron_at };
}

impl WritesRon for Statement {
    #[cycle(write_statement_ron)]
    #[tactic(auto, using(crate::proofs::StatementRonCodecsLaws::statement_ron_texts))]
    fn write_ron(&self, alloc: Global, d: usize, s: &mut SerRonState) -> Result<(), AllocError> {
        match self {
            Self::Assign(first, second) => {
                let first = &nano_ron_schema::Part { of: first };
                let second = &nano_ron_schema::Part { of: second };
                nano_ron_nested::write_pair_within(alloc, "Assign", first, second, d, s)
            }
            Self::Block(first) => {
                nano_ron_nested::write_variant_within(alloc, "Block", first, d, s)
            }
            Self::If(first) => nano_ron_nested::write_variant_within(alloc, "If", first, d, s),
        }
    }
}

impl SerRon for Statement {
    fn ser_ron(&self, alloc: Global, d: usize, s: &mut SerRonState) -> Result<(), AllocError> {
        WritesRon::write_ron(self, alloc, d, s)
    }
}

impl ReadsRon<Statement> for Levels {
    #[cycle(read_statement_ron)]
    fn read_ron(
        &self,
        left: usize,
        alloc: Global,
        state: &mut DeRonState,
        input: &mut Chars<'_>,
    ) -> Result<Statement, DeRonErr> {
        if left == 0 {
            return Err(nano_ron_nested::too_deep(alloc, state));
        }
        let Levels::More(below) = self else {
            return Err(nano_ron_nested::no_levels(alloc, state));
        };
        let Some(below) = below.first() else {
            return Err(nano_ron_nested::no_levels(alloc, state));
        };
        match read_choice_ron_within::<Levels, StatementVariants>(
            below,
            left - 1,
            alloc,
            state,
            input,
        ) {
            Ok(values) => Ok(Statement::make(values)),
            Err(error) => Err(error),
        }
    }
}

impl DeRon for Statement {
    fn de_ron(
        alloc: Global,
        state: &mut DeRonState,
        input: &mut Chars<'_>,
    ) -> Result<Self, DeRonErr> {
        let levels = Levels::most();
        ReadsRon::<Self>::read_ron(levels, 128, alloc, state, input)
    }
}

pub struct BranchNames<const I: usize> {}

impl<const I: usize> Label for BranchNames<I> {
    ghost label = { if I == 0 then codes "then" else codes "otherwise" };

    fn text() -> &'static str {
        nano_schema::name_of!(I, 0 => "then", _ => "otherwise")
    }
}

type BranchFields = (
    Within<Required<BranchNames<0>, Statement>>,
    Within<Optional<BranchNames<1>, Box<Statement>>>,
);

impl StructSchema for Branch {
    ghost use Rattle.test_nested.specs.StatementCodecs.{branch_view};

    type Values = (Statement, Option<Box<Statement>>);

    ghost view = { branch_view };

    fn make(values: Self::Values) -> Self {
        let (then, otherwise) = values;
        Branch { then, otherwise }
    }
}

impl Value for Branch {
    ghost use Rattle.test_nested.specs.StatementCodecs.{branch_means, branch_codec};

    ghost means = { branch_means };

    ghost legal = { branch_codec.encoding.legal };

    #[tactic(auto, using(crate::proofs::StatementCodecsLaws::branch_legal))]
    #[cycle(known_statement)]
    fn known(&self) {
        Value::known(&self.then);
        Value::known(&self.otherwise);
    }
}

// ---- bytes

impl BinCodec for Branch {
    ghost use Rattle.test_nested.specs.StatementCodecs.{branch_codec};

    ghost bin = { branch_codec };

    ghost agrees = { agreed };
}

impl WritesBin for Branch {
    #[tactic(auto, using(crate::proofs::StatementCodecsLaws::branch_written_laws))]
    #[cycle(write_statement_bin)]
    fn write_bin(&self, alloc: Global, output: &mut Vec<u8>) -> Result<(), AllocError> {
        let start = output.len();
        WritesBin::write_bin(&self.then, alloc, output)?;
        append_part_within(alloc, &self.otherwise, output, start)
    }
}

impl SerBin for Branch {
    fn ser_bin(&self, alloc: Global, output: &mut Vec<u8>) -> Result<(), AllocError> {
        WritesBin::write_bin(self, alloc, output)
    }
}

impl ReadsBin<Branch> for Levels {
    #[cycle(read_statement_bin)]
    fn read_bin(
        &self,
        alloc: Global,
        offset: &mut usize,
        bytes: &[u8],
    ) -> Result<Branch, DeBinErr> {
        read_record_within::<Levels, Branch, BranchFields>(self, alloc, offset, bytes)
    }
}

impl DeBin for Branch {
    ghost is_decodable = { refl };

    fn de_bin(alloc: Global, offset: &mut usize, bytes: &[u8]) -> Result<Self, DeBinErr> {
        let levels = Levels::most();
        ReadsBin::<Self>::read_bin(levels, alloc, offset, bytes)
    }
}

// ---- JSON

impl JsonCodec for Branch {
    ghost use Rattle.test_nested.specs.StatementJsonCodecs.{branch_json};

    ghost json = { branch_json };

    ghost agrees = { agreed };
}

impl NestedJson for Branch {
    ghost use Rattle.test_nested.specs.StatementCodecs.{branch_means};
    ghost use Rattle.test_nested.specs.StatementJsonCodecs.{branch_json_at};

    ghost means = { branch_means };

    ghost at = { branch_json_at };
}

/// What writes `Branch` as JSON.
struct BranchJsonWriter {}

impl BranchJsonWriter {
    ghost use Rattle.test_nested.specs.StatementJsonCodecs.{branch_json};

    /// Appends the fields between braces. If the write fails, what was written so far is left.
    #[cycle(write_statement_json)]
    fn append_record(
        value: &Branch,
        alloc: Global,
        d: usize,
        s: &mut SerJsonState,
    ) -> Result<(), AllocError>
        ensures ok { OnOk result
            (Appends s.old.out s.new.out (branch_json.canonical.text d value.now)) }
        ensures err { OnErr result (AppendsPart s.old.out s.new.out) }
    {
        s.st_pre()?;
        let inner = d.saturating_add(1);
        let otherwise_is_first = append_required_within(
            alloc,
            "then",
            &value.then,
            true,
            inner,
            s,
        )?;
        append_optional_within(
            alloc,
            "otherwise",
            &value.otherwise,
            otherwise_is_first,
            inner,
            s,
        )?;
        s.st_post(d)
    }
}

impl WritesJson for Branch {
    #[cycle(write_statement_json)]
    fn write_json(&self, alloc: Global, d: usize, s: &mut SerJsonState) -> Result<(), AllocError> {
        let start = s.out.len();
        let written = BranchJsonWriter::append_record(self, alloc, d, s);
        rollback_on_error(&mut s.out, start, written)
    }
}

impl SerJson for Branch {
    fn ser_json(&self, alloc: Global, d: usize, s: &mut SerJsonState) -> Result<(), AllocError> {
        WritesJson::write_json(self, alloc, d, s)
    }
}

impl ReadsJson<Branch> for Levels {
    #[cycle(read_statement_json)]
    fn read_json(
        &self,
        left: usize,
        alloc: Global,
        state: &mut DeJsonState,
        input: &mut Chars<'_>,
    ) -> Result<Branch, DeJsonErr> {
        match read_record_json_within::<Levels, BranchFields>(self, left, alloc, state, input) {
            Ok(values) => Ok(Branch::make(values)),
            Err(error) => Err(error),
        }
    }
}

impl DeJson for Branch {
    fn de_json(
        alloc: Global,
        state: &mut DeJsonState,
        input: &mut Chars<'_>,
    ) -> Result<Self, DeJsonErr> {
        let levels = Levels::most();
        ReadsJson::<Self>::read_json(levels, 128, alloc, state, input)
    }
}

// ---- RON

impl RonCodec for Branch {
    ghost use Rattle.test_nested.specs.StatementRonCodecs.{branch_ron};

    ghost ron = { branch_ron };

    ghost agrees = { agreed };
}

impl NestedRon for Branch {
    ghost use Rattle.test_nested.specs.StatementCodecs.{branch_means};
    ghost use Rattle.test_nested.specs.StatementRonCodecs.{branch_ron_at};

    ghost means = { branch_means };

    ghost at = { branch_ron_at };
}

/// What writes `Branch` as RON.
struct BranchRonWriter {}

impl BranchRonWriter {
    ghost use Rattle.test_nested.specs.StatementRonCodecs.{branch_ron};

    /// Appends the fields between parentheses. If the write fails, what was written so far is left.
    #[cycle(write_statement_ron)]
    fn append_record(
        value: &Branch,
        alloc: Global,
        d: usize,
        s: &mut SerRonState,
    ) -> Result<(), AllocError>
        ensures ok { OnOk result
            (Appends s.old.out s.new.out (branch_ron.canonical.text d value.now)) }
        ensures err { OnErr result (AppendsPart s.old.out s.new.out) }
    {
        s.st_pre()?;
        let inner = d.saturating_add(1);
        nano_ron_nested::append_required_within(alloc, "then", &value.then, inner, s)?;
        nano_ron_nested::append_optional_within(alloc, "otherwise", &value.otherwise, inner, s)?;
        s.st_post(d)
    }
}

impl WritesRon for Branch {
    #[cycle(write_statement_ron)]
    fn write_ron(&self, alloc: Global, d: usize, s: &mut SerRonState) -> Result<(), AllocError> {
        let start = s.out.len();
        let written = BranchRonWriter::append_record(self, alloc, d, s);
        nano_ron_nested::rollback_on_error(&mut s.out, start, written)
    }
}

impl SerRon for Branch {
    fn ser_ron(&self, alloc: Global, d: usize, s: &mut SerRonState) -> Result<(), AllocError> {
        WritesRon::write_ron(self, alloc, d, s)
    }
}

impl ReadsRon<Branch> for Levels {
    #[cycle(read_statement_ron)]
    fn read_ron(
        &self,
        left: usize,
        alloc: Global,
        state: &mut DeRonState,
        input: &mut Chars<'_>,
    ) -> Result<Branch, DeRonErr> {
        match read_record_ron_within::<Levels, BranchFields>(self, left, alloc, state, input) {
            Ok(values) => Ok(Branch::make(values)),
            Err(error) => Err(error),
        }
    }
}

impl DeRon for Branch {
    fn de_ron(
        alloc: Global,
        state: &mut DeRonState,
        input: &mut Chars<'_>,
    ) -> Result<Self, DeRonErr> {
        let levels = Levels::most();
        ReadsRon::<Self>::read_ron(levels, 128, alloc, state, input)
    }
}
