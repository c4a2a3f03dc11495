//! Written by derive_files: how the types of the module above are encoded.

ghost use Rattle.std.specs.Prelude.{codes, ◌==◌, if◌then◌else◌, refl, OnOk, OnErr};
ghost use Rattle.nano_schema.specs.UserTypes.{agreed};
ghost use Rattle.nano_text.specs.Outcomes.{Appends, AppendsPart};

use super::*;
use nano_bin_nested::{ReadsBin, WritesBin, append_part_within, no_memory, read_record_within};
use nano_bin_schema::{BinCodec, DeBin, DeBinErr, SerBin};
use nano_json_nested::{
    NestedJson, ReadsJson, WritesJson, append_required_within, no_levels, read_record_json_within,
    rollback_on_error, too_deep,
};
use nano_json_schema::{
    DeJson, DeJsonErr, DeJsonState, JsonCodec, JsonRefs, SerJson, SerJsonState,
};
use nano_levels::{Levels, Other, Within};
use nano_ron_nested::{NestedRon, ReadsRon, WritesRon, append_required, read_record_ron_within};
use nano_ron_schema::{DeRon, DeRonErr, DeRonState, RonCodec, SerRon, SerRonState};
use nano_schema::{Label, Required, StructSchema, Value};
use std::alloc::{AllocError, Global};
use std::str::Chars;

pub struct FolderNames<const I: usize> {}

impl<const I: usize> Label for FolderNames<I> {
    ghost label = { if I == 0 then codes "name" else codes "folders" };

    fn text() -> &'static str {
        nano_schema::name_of!(I, 0 => "name", _ => "folders")
    }
}

type FolderFields = (
    Other<Required<FolderNames<0>, String>>,
    Within<Required<FolderNames<1>, Vec<Folder>>>,
);

impl StructSchema for Folder {
    ghost use Rattle.test_nested_derived.specs.FolderCodecs.{folder_view};

    type Values = (String, Vec<Folder>);

    ghost view = { folder_view };

    fn make(values: Self::Values) -> Self {
        let (name, folders) = values;
        Folder { name, folders }
    }
}

impl Value for Folder {
    ghost use Rattle.test_nested_derived.specs.FolderCodecs.{folder_means, folder_codec};

    ghost means = { folder_means };

    ghost legal = { folder_codec.encoding.legal };

    #[tactic(auto, using(crate::proofs::FolderCodecsLaws::folder_legal))]
    fn known(&self) {
        Value::known(&self.name);
        Value::known(&self.folders);
    }
}

// ---- bytes

impl BinCodec for Folder {
    ghost use Rattle.test_nested_derived.specs.FolderCodecs.{folder_codec};

    ghost bin = { folder_codec };

    ghost agrees = { agreed };
}

impl WritesBin for Folder {
    #[tactic(auto, using(crate::proofs::FolderCodecsLaws::folder_written_laws))]
    fn write_bin(&self, alloc: Global, output: &mut Vec<u8>) -> Result<(), AllocError> {
        let start = output.len();
        SerBin::ser_bin(&self.name, alloc, output)?;
        append_part_within(alloc, &self.folders, output, start)
    }
}

impl SerBin for Folder {
    fn ser_bin(&self, alloc: Global, output: &mut Vec<u8>) -> Result<(), AllocError> {
        WritesBin::write_bin(self, alloc, output)
    }
}

impl ReadsBin<Folder> for Levels {
    #[cycle(read)]
    fn read_bin(
        &self,
        alloc: Global,
        offset: &mut usize,
        bytes: &[u8],
    ) -> Result<Folder, DeBinErr> {
        let Levels::More(below) = self else {
            return Err(no_memory(*offset, bytes));
        };
        let Some(below) = below.first() else {
            return Err(no_memory(*offset, bytes));
        };
        read_record_within::<Levels, Folder, FolderFields>(below, alloc, offset, bytes)
    }
}

impl DeBin for Folder {
    ghost is_decodable = { refl };

    fn de_bin(alloc: Global, offset: &mut usize, bytes: &[u8]) -> Result<Self, DeBinErr> {
        let levels = Levels::most();
        ReadsBin::<Self>::read_bin(levels, alloc, offset, bytes)
    }
}

// ---- JSON

impl JsonCodec for Folder {
    ghost use Rattle.test_nested_derived.specs.FolderJsonCodecs.{folder_json};

    ghost json = { folder_json };

    ghost agrees = { agreed };
}

impl NestedJson for Folder {
    ghost use Rattle.test_nested_derived.specs.FolderCodecs.{folder_means};
    ghost use Rattle.test_nested_derived.specs.FolderJsonCodecs.{folder_json_at};

    ghost means = { folder_means };

    ghost at = { folder_json_at };
}

/// What writes `Folder` as JSON.
struct FolderJsonWriter {}

impl FolderJsonWriter {
    ghost use Rattle.test_nested_derived.specs.FolderJsonCodecs.{folder_json};

    /// Appends the fields between braces. If the write fails, what was written so far is left.
    #[cycle(write_folder_json)]
    fn append_record(
        value: &Folder,
        alloc: Global,
        d: usize,
        s: &mut SerJsonState,
    ) -> Result<(), AllocError>
        ensures ok { OnOk result
            (Appends s.old.out s.new.out (folder_json.canonical.text d value.now)) }
        ensures err { OnErr result (AppendsPart s.old.out s.new.out) }
    {
        s.st_pre()?;
        let inner = d.saturating_add(1);
        let folders_is_first = Required::<FolderNames<0>, String>::append_fields(
            &&value.name,
            alloc,
            true,
            inner,
            s,
        )?;
        append_required_within(alloc, "folders", &value.folders, folders_is_first, inner, s)?;
        s.st_post(d)
    }
}

impl WritesJson for Folder {
    #[cycle(write_folder_json)]
    fn write_json(&self, alloc: Global, d: usize, s: &mut SerJsonState) -> Result<(), AllocError> {
        let start = s.out.len();
        let written = FolderJsonWriter::append_record(self, alloc, d, s);
        rollback_on_error(&mut s.out, start, written)
    }
}

impl SerJson for Folder {
    fn ser_json(&self, alloc: Global, d: usize, s: &mut SerJsonState) -> Result<(), AllocError> {
        WritesJson::write_json(self, alloc, d, s)
    }
}

impl ReadsJson<Folder> for Levels {
    #[cycle(read)]
    fn read_json(
        &self,
        left: usize,
        alloc: Global,
        state: &mut DeJsonState,
        input: &mut Chars<'_>,
    ) -> Result<Folder, DeJsonErr> {
        if left == 0 {
            return Err(too_deep(alloc, state));
        }
        let Levels::More(below) = self else {
            return Err(no_levels(alloc, state));
        };
        let Some(below) = below.first() else {
            return Err(no_levels(alloc, state));
        };
        match read_record_json_within::<Levels, FolderFields>(
            below,
            left - 1,
            alloc,
            state,
            input,
        ) {
            Ok(values) => Ok(Folder::make(values)),
            Err(error) => Err(error),
        }
    }
}

impl DeJson for Folder {
    fn de_json(
        alloc: Global,
        state: &mut DeJsonState,
        input: &mut Chars<'_>,
    ) -> Result<Self, DeJsonErr> {
        let levels = Levels::most();
        ReadsJson::<Self>::read_json(levels, 128, alloc, state, input)
    }
}

// ---- RON

impl RonCodec for Folder {
    ghost use Rattle.test_nested_derived.specs.FolderRonCodecs.{folder_ron};

    ghost ron = { folder_ron };

    ghost agrees = { agreed };
}

impl NestedRon for Folder {
    ghost use Rattle.test_nested_derived.specs.FolderCodecs.{folder_means};
    ghost use Rattle.test_nested_derived.specs.FolderRonCodecs.{folder_ron_at};

    ghost means = { folder_means };

    ghost at = { folder_ron_at };
}

/// What writes `Folder` as RON.
struct FolderRonWriter {}

impl FolderRonWriter {
    ghost use Rattle.test_nested_derived.specs.FolderRonCodecs.{folder_ron};

    /// Appends the fields between parentheses. If the write fails, what was written so far is left.
    #[cycle(write_folder_ron)]
    fn append_record(
        value: &Folder,
        alloc: Global,
        d: usize,
        s: &mut SerRonState,
    ) -> Result<(), AllocError>
        ensures ok { OnOk result
            (Appends s.old.out s.new.out (folder_ron.canonical.text d value.now)) }
        ensures err { OnErr result (AppendsPart s.old.out s.new.out) }
    {
        s.st_pre()?;
        let inner = d.saturating_add(1);
        append_required(alloc, "name", &value.name, inner, s)?;
        nano_ron_nested::append_required_within(alloc, "folders", &value.folders, inner, s)?;
        s.st_post(d)
    }
}

impl WritesRon for Folder {
    #[cycle(write_folder_ron)]
    fn write_ron(&self, alloc: Global, d: usize, s: &mut SerRonState) -> Result<(), AllocError> {
        let start = s.out.len();
        let written = FolderRonWriter::append_record(self, alloc, d, s);
        nano_ron_nested::rollback_on_error(&mut s.out, start, written)
    }
}

impl SerRon for Folder {
    fn ser_ron(&self, alloc: Global, d: usize, s: &mut SerRonState) -> Result<(), AllocError> {
        WritesRon::write_ron(self, alloc, d, s)
    }
}

impl ReadsRon<Folder> for Levels {
    #[cycle(read)]
    fn read_ron(
        &self,
        left: usize,
        alloc: Global,
        state: &mut DeRonState,
        input: &mut Chars<'_>,
    ) -> Result<Folder, DeRonErr> {
        if left == 0 {
            return Err(nano_ron_nested::too_deep(alloc, state));
        }
        let Levels::More(below) = self else {
            return Err(nano_ron_nested::no_levels(alloc, state));
        };
        let Some(below) = below.first() else {
            return Err(nano_ron_nested::no_levels(alloc, state));
        };
        match read_record_ron_within::<Levels, FolderFields>(below, left - 1, alloc, state, input) {
            Ok(values) => Ok(Folder::make(values)),
            Err(error) => Err(error),
        }
    }
}

impl DeRon for Folder {
    fn de_ron(
        alloc: Global,
        state: &mut DeRonState,
        input: &mut Chars<'_>,
    ) -> Result<Self, DeRonErr> {
        let levels = Levels::most();
        ReadsRon::<Self>::read_ron(levels, 128, alloc, state, input)
    }
}
