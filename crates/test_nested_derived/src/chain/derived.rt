//! Written by derive_files: how the types of the module above are encoded.

ghost use Rattle.std.specs.Prelude.{codes, ◌==◌, if◌then◌else◌, refl, OnOk, OnErr};
ghost use Rattle.nano_schema.specs.UserTypes.{agreed};
ghost use Rattle.nano_text.specs.Outcomes.{Appends, AppendsPart};

use super::*;
use nano_bin_nested::{ReadsBin, WritesBin, append_part_within, no_memory, read_record_within};
use nano_bin_schema::{BinCodec, DeBin, DeBinErr, SerBin};
use nano_json_nested::{
    NestedJson, ReadsJson, WritesJson, append_optional_within, no_levels, read_record_json_within,
    rollback_on_error, too_deep,
};
use nano_json_schema::{
    DeJson, DeJsonErr, DeJsonState, JsonCodec, JsonRefs, SerJson, SerJsonState,
};
use nano_levels::{Levels, Other, Within};
use nano_ron_nested::{NestedRon, ReadsRon, WritesRon, append_required, read_record_ron_within};
use nano_ron_schema::{DeRon, DeRonErr, DeRonState, RonCodec, SerRon, SerRonState};
use nano_schema::{Label, Optional, Required, StructSchema, Value};
use std::alloc::{AllocError, Global};
use std::str::Chars;

pub struct ChainNames<const I: usize> {}

impl<const I: usize> Label for ChainNames<I> {
    ghost label = { if I == 0 then codes "number" else codes "next" };

    fn text() -> &'static str {
        nano_schema::name_of!(I, 0 => "number", _ => "next")
    }
}

type ChainFields = (
    Other<Required<ChainNames<0>, u32>>,
    Within<Optional<ChainNames<1>, Box<Chain>>>,
);

impl StructSchema for Chain {
    ghost use Rattle.test_nested_derived.specs.ChainCodecs.{chain_view};

    type Values = (u32, Option<Box<Chain>>);

    ghost view = { chain_view };

    fn make(values: Self::Values) -> Self {
        let (number, next) = values;
        Chain { number, next }
    }
}

impl Value for Chain {
    ghost use Rattle.test_nested_derived.specs.ChainCodecs.{chain_means, chain_codec};

    ghost means = { chain_means };

    ghost legal = { chain_codec.encoding.legal };

    #[tactic(auto, using(crate::proofs::ChainCodecsLaws::chain_legal))]
    fn known(&self) {
        Value::known(&self.number);
        Value::known(&self.next);
    }
}

// ---- bytes

impl BinCodec for Chain {
    ghost use Rattle.test_nested_derived.specs.ChainCodecs.{chain_codec};

    ghost bin = { chain_codec };

    ghost agrees = { agreed };
}

impl WritesBin for Chain {
    #[tactic(auto, using(crate::proofs::ChainCodecsLaws::chain_written_laws))]
    fn write_bin(&self, alloc: Global, output: &mut Vec<u8>) -> Result<(), AllocError> {
        let start = output.len();
        SerBin::ser_bin(&self.number, alloc, output)?;
        append_part_within(alloc, &self.next, output, start)
    }
}

impl SerBin for Chain {
    fn ser_bin(&self, alloc: Global, output: &mut Vec<u8>) -> Result<(), AllocError> {
        WritesBin::write_bin(self, alloc, output)
    }
}

impl ReadsBin<Chain> for Levels {
    #[cycle(read)]
    fn read_bin(&self, alloc: Global, offset: &mut usize, bytes: &[u8]) -> Result<Chain, DeBinErr> {
        let Levels::More(below) = self else {
            return Err(no_memory(*offset, bytes));
        };
        let Some(below) = below.first() else {
            return Err(no_memory(*offset, bytes));
        };
        read_record_within::<Levels, Chain, ChainFields>(below, alloc, offset, bytes)
    }
}

impl DeBin for Chain {
    ghost is_decodable = { refl };

    fn de_bin(alloc: Global, offset: &mut usize, bytes: &[u8]) -> Result<Self, DeBinErr> {
        let levels = Levels::most();
        ReadsBin::<Self>::read_bin(levels, alloc, offset, bytes)
    }
}

// ---- JSON

impl JsonCodec for Chain {
    ghost use Rattle.test_nested_derived.specs.ChainJsonCodecs.{chain_json};

    ghost json = { chain_json };

    ghost agrees = { agreed };
}

impl NestedJson for Chain {
    ghost use Rattle.test_nested_derived.specs.ChainCodecs.{chain_means};
    ghost use Rattle.test_nested_derived.specs.ChainJsonCodecs.{chain_json_at};

    ghost means = { chain_means };

    ghost at = { chain_json_at };
}

/// What writes `Chain` as JSON.
struct ChainJsonWriter {}

impl ChainJsonWriter {
    ghost use Rattle.test_nested_derived.specs.ChainJsonCodecs.{chain_json};

    /// Appends the fields between braces. If the write fails, what was written so far is left.
    #[cycle(write_chain_json)]
    fn append_record(
        value: &Chain,
        alloc: Global,
        d: usize,
        s: &mut SerJsonState,
    ) -> Result<(), AllocError>
        ensures ok { OnOk result
            (Appends s.old.out s.new.out (chain_json.canonical.text d value.now)) }
        ensures err { OnErr result (AppendsPart s.old.out s.new.out) }
    {
        s.st_pre()?;
        let inner = d.saturating_add(1);
        let next_is_first = Required::<ChainNames<0>, u32>::append_fields(
            &&value.number,
            alloc,
            true,
            inner,
            s,
        )?;
        append_optional_within(alloc, "next", &value.next, next_is_first, inner, s)?;
        s.st_post(d)
    }
}

impl WritesJson for Chain {
    #[cycle(write_chain_json)]
    fn write_json(&self, alloc: Global, d: usize, s: &mut SerJsonState) -> Result<(), AllocError> {
        let start = s.out.len();
        let written = ChainJsonWriter::append_record(self, alloc, d, s);
        rollback_on_error(&mut s.out, start, written)
    }
}

impl SerJson for Chain {
    fn ser_json(&self, alloc: Global, d: usize, s: &mut SerJsonState) -> Result<(), AllocError> {
        WritesJson::write_json(self, alloc, d, s)
    }
}

impl ReadsJson<Chain> for Levels {
    #[cycle(read)]
    fn read_json(
        &self,
        left: usize,
        alloc: Global,
        state: &mut DeJsonState,
        input: &mut Chars<'_>,
    ) -> Result<Chain, DeJsonErr> {
        if left == 0 {
            return Err(too_deep(alloc, state));
        }
        let Levels::More(below) = self else {
            return Err(no_levels(alloc, state));
        };
        let Some(below) = below.first() else {
            return Err(no_levels(alloc, state));
        };
        match read_record_json_within::<Levels, ChainFields>(below, left - 1, alloc, state, input) {
            Ok(values) => Ok(Chain::make(values)),
            Err(error) => Err(error),
        }
    }
}

impl DeJson for Chain {
    fn de_json(
        alloc: Global,
        state: &mut DeJsonState,
        input: &mut Chars<'_>,
    ) -> Result<Self, DeJsonErr> {
        let levels = Levels::most();
        ReadsJson::<Self>::read_json(levels, 128, alloc, state, input)
    }
}

// ---- RON

impl RonCodec for Chain {
    ghost use Rattle.test_nested_derived.specs.ChainRonCodecs.{chain_ron};

    ghost ron = { chain_ron };

    ghost agrees = { agreed };
}

impl NestedRon for Chain {
    ghost use Rattle.test_nested_derived.specs.ChainCodecs.{chain_means};
    ghost use Rattle.test_nested_derived.specs.ChainRonCodecs.{chain_ron_at};

    ghost means = { chain_means };

    ghost at = { chain_ron_at };
}

/// What writes `Chain` as RON.
struct ChainRonWriter {}

impl ChainRonWriter {
    ghost use Rattle.test_nested_derived.specs.ChainRonCodecs.{chain_ron};

    /// Appends the fields between parentheses. If the write fails, what was written so far is left.
    #[cycle(write_chain_ron)]
    fn append_record(
        value: &Chain,
        alloc: Global,
        d: usize,
        s: &mut SerRonState,
    ) -> Result<(), AllocError>
        ensures ok { OnOk result
            (Appends s.old.out s.new.out (chain_ron.canonical.text d value.now)) }
        ensures err { OnErr result (AppendsPart s.old.out s.new.out) }
    {
        s.st_pre()?;
        let inner = d.saturating_add(1);
        append_required(alloc, "number", &value.number, inner, s)?;
        nano_ron_nested::append_optional_within(alloc, "next", &value.next, inner, s)?;
        s.st_post(d)
    }
}

impl WritesRon for Chain {
    #[cycle(write_chain_ron)]
    fn write_ron(&self, alloc: Global, d: usize, s: &mut SerRonState) -> Result<(), AllocError> {
        let start = s.out.len();
        let written = ChainRonWriter::append_record(self, alloc, d, s);
        nano_ron_nested::rollback_on_error(&mut s.out, start, written)
    }
}

impl SerRon for Chain {
    fn ser_ron(&self, alloc: Global, d: usize, s: &mut SerRonState) -> Result<(), AllocError> {
        WritesRon::write_ron(self, alloc, d, s)
    }
}

impl ReadsRon<Chain> for Levels {
    #[cycle(read)]
    fn read_ron(
        &self,
        left: usize,
        alloc: Global,
        state: &mut DeRonState,
        input: &mut Chars<'_>,
    ) -> Result<Chain, DeRonErr> {
        if left == 0 {
            return Err(nano_ron_nested::too_deep(alloc, state));
        }
        let Levels::More(below) = self else {
            return Err(nano_ron_nested::no_levels(alloc, state));
        };
        let Some(below) = below.first() else {
            return Err(nano_ron_nested::no_levels(alloc, state));
        };
        match read_record_ron_within::<Levels, ChainFields>(below, left - 1, alloc, state, input) {
            Ok(values) => Ok(Chain::make(values)),
            Err(error) => Err(error),
        }
    }
}

impl DeRon for Chain {
    fn de_ron(
        alloc: Global,
        state: &mut DeRonState,
        input: &mut Chars<'_>,
    ) -> Result<Self, DeRonErr> {
        let levels = Levels::most();
        ReadsRon::<Self>::read_ron(levels, 128, alloc, state, input)
    }
}
