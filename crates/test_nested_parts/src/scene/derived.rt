//! Written by derive_files: how the types of the module above are encoded.

ghost use Rattle.std.specs.Prelude.{codes, ◌==◌, if◌then◌else◌, refl, OnOk, OnErr};
ghost use Rattle.nano_schema.specs.UserTypes.{agreed};
ghost use Rattle.nano_text.specs.Outcomes.{Appends, AppendsPart};

use super::*;
use nano_bin_nested::{ReadsBin, WritesBin, append_part_within, no_memory, read_record_within};
use nano_bin_schema::{BinCodec, DeBin, DeBinErr, SerBin};
use nano_json_nested::{
    NestedJson, ReadsJson, WritesJson, append_required_within, no_levels, read_record_json_within,
    rollback_on_error, too_deep,
};
use nano_json_schema::{
    DeJson, DeJsonErr, DeJsonState, JsonCodec, JsonRefs, SerJson, SerJsonState,
};
use nano_levels::{Levels, Other, Within};
use nano_ron_nested::{NestedRon, ReadsRon, WritesRon, append_required, read_record_ron_within};
use nano_ron_schema::{DeRon, DeRonErr, DeRonState, RonCodec, SerRon, SerRonState};
use nano_schema::{Label, Required, StructSchema, Value};
use std::alloc::{AllocError, Global};
use std::str::Chars;

pub struct SceneNames<const I: usize> {}

impl<const I: usize> Label for SceneNames<I> {
    ghost label = { if I == 0 then codes "mode" else codes "scenes" };

    fn text() -> &'static str {
        nano_schema::name_of!(I, 0 => "mode", _ => "scenes")
    }
}

type SceneFields = (
    Other<Required<SceneNames<0>, Mode>>,
    Within<Required<SceneNames<1>, Vec<Scene>>>,
);

impl StructSchema for Scene {
    ghost use Rattle.test_nested_parts.specs.SceneCodecs.{scene_view};

    type Values = (Mode, Vec<Scene>);

    ghost view = { scene_view };

    fn make(values: Self::Values) -> Self {
        let (mode, scenes) = values;
        Scene { mode, scenes }
    }
}

impl Value for Scene {
    ghost use Rattle.test_nested_parts.specs.SceneCodecs.{scene_means, scene_codec};

    ghost means = { scene_means };

    ghost legal = { scene_codec.encoding.legal };

    #[tactic(auto, using(crate::proofs::SceneCodecsLaws::scene_legal))]
    fn known(&self) {
        Value::known(&self.mode);
        Value::known(&self.scenes);
    }
}

// ---- bytes

impl BinCodec for Scene {
    ghost use Rattle.test_nested_parts.specs.SceneCodecs.{scene_codec};

    ghost bin = { scene_codec };

    ghost agrees = { agreed };
}

impl WritesBin for Scene {
    #[tactic(auto, using(crate::proofs::SceneCodecsLaws::scene_written_laws))]
    fn write_bin(&self, alloc: Global, output: &mut Vec<u8>) -> Result<(), AllocError> {
        let start = output.len();
        SerBin::ser_bin(&self.mode, alloc, output)?;
        append_part_within(alloc, &self.scenes, output, start)
    }
}

impl SerBin for Scene {
    fn ser_bin(&self, alloc: Global, output: &mut Vec<u8>) -> Result<(), AllocError> {
        WritesBin::write_bin(self, alloc, output)
    }
}

impl ReadsBin<Scene> for Levels {
    #[cycle(read)]
    fn read_bin(&self, alloc: Global, offset: &mut usize, bytes: &[u8]) -> Result<Scene, DeBinErr> {
        let Levels::More(below) = self else {
            return Err(no_memory(*offset, bytes));
        };
        let Some(below) = below.first() else {
            return Err(no_memory(*offset, bytes));
        };
        read_record_within::<Levels, Scene, SceneFields>(below, alloc, offset, bytes)
    }
}

impl DeBin for Scene {
    ghost is_decodable = { refl };

    fn de_bin(alloc: Global, offset: &mut usize, bytes: &[u8]) -> Result<Self, DeBinErr> {
        let levels = Levels::most();
        ReadsBin::<Self>::read_bin(levels, alloc, offset, bytes)
    }
}

// ---- JSON

impl JsonCodec for Scene {
    ghost use Rattle.test_nested_parts.specs.SceneJsonCodecs.{scene_json};

    ghost json = { scene_json };

    ghost agrees = { agreed };
}

impl NestedJson for Scene {
    ghost use Rattle.test_nested_parts.specs.SceneCodecs.{scene_means};
    ghost use Rattle.test_nested_parts.specs.SceneJsonCodecs.{scene_json_at};

    ghost means = { scene_means };

    ghost at = { scene_json_at };
}

/// What writes `Scene` as JSON.
struct SceneJsonWriter {}

impl SceneJsonWriter {
    ghost use Rattle.test_nested_parts.specs.SceneJsonCodecs.{scene_json};

    /// Appends the fields between braces. If the write fails, what was written so far is left.
    #[cycle(write_scene_json)]
    fn append_record(
        value: &Scene,
        alloc: Global,
        d: usize,
        s: &mut SerJsonState,
    ) -> Result<(), AllocError>
        ensures ok { OnOk result
            (Appends s.old.out s.new.out (scene_json.canonical.text d value.now)) }
        ensures err { OnErr result (AppendsPart s.old.out s.new.out) }
    {
        s.st_pre()?;
        let inner = d.saturating_add(1);
        let scenes_is_first = Required::<SceneNames<0>, Mode>::append_fields(
            &&value.mode,
            alloc,
            true,
            inner,
            s,
        )?;
        append_required_within(alloc, "scenes", &value.scenes, scenes_is_first, inner, s)?;
        s.st_post(d)
    }
}

impl WritesJson for Scene {
    #[cycle(write_scene_json)]
    fn write_json(&self, alloc: Global, d: usize, s: &mut SerJsonState) -> Result<(), AllocError> {
        let start = s.out.len();
        let written = SceneJsonWriter::append_record(self, alloc, d, s);
        rollback_on_error(&mut s.out, start, written)
    }
}

impl SerJson for Scene {
    fn ser_json(&self, alloc: Global, d: usize, s: &mut SerJsonState) -> Result<(), AllocError> {
        WritesJson::write_json(self, alloc, d, s)
    }
}

impl ReadsJson<Scene> for Levels {
    #[cycle(read)]
    fn read_json(
        &self,
        left: usize,
        alloc: Global,
        state: &mut DeJsonState,
        input: &mut Chars<'_>,
    ) -> Result<Scene, DeJsonErr> {
        if left == 0 {
            return Err(too_deep(alloc, state));
        }
        let Levels::More(below) = self else {
            return Err(no_levels(alloc, state));
        };
        let Some(below) = below.first() else {
            return Err(no_levels(alloc, state));
        };
        match read_record_json_within::<Levels, SceneFields>(below, left - 1, alloc, state, input) {
            Ok(values) => Ok(Scene::make(values)),
            Err(error) => Err(error),
        }
    }
}

impl DeJson for Scene {
    fn de_json(
        alloc: Global,
        state: &mut DeJsonState,
        input: &mut Chars<'_>,
    ) -> Result<Self, DeJsonErr> {
        let levels = Levels::most();
        ReadsJson::<Self>::read_json(levels, 128, alloc, state, input)
    }
}

// ---- RON

impl RonCodec for Scene {
    ghost use Rattle.test_nested_parts.specs.SceneRonCodecs.{scene_ron};

    ghost ron = { scene_ron };

    ghost agrees = { agreed };
}

impl NestedRon for Scene {
    ghost use Rattle.test_nested_parts.specs.SceneCodecs.{scene_means};
    ghost use Rattle.test_nested_parts.specs.SceneRonCodecs.{scene_ron_at};

    ghost means = { scene_means };

    ghost at = { scene_ron_at };
}

/// What writes `Scene` as RON.
struct SceneRonWriter {}

impl SceneRonWriter {
    ghost use Rattle.test_nested_parts.specs.SceneRonCodecs.{scene_ron};

    /// Appends the fields between parentheses. If the write fails, what was written so far is left.
    #[cycle(write_scene_ron)]
    fn append_record(
        value: &Scene,
        alloc: Global,
        d: usize,
        s: &mut SerRonState,
    ) -> Result<(), AllocError>
        ensures ok { OnOk result
            (Appends s.old.out s.new.out (scene_ron.canonical.text d value.now)) }
        ensures err { OnErr result (AppendsPart s.old.out s.new.out) }
    {
        s.st_pre()?;
        let inner = d.saturating_add(1);
        append_required(alloc, "mode", &value.mode, inner, s)?;
        nano_ron_nested::append_required_within(alloc, "scenes", &value.scenes, inner, s)?;
        s.st_post(d)
    }
}

impl WritesRon for Scene {
    #[cycle(write_scene_ron)]
    fn write_ron(&self, alloc: Global, d: usize, s: &mut SerRonState) -> Result<(), AllocError> {
        let start = s.out.len();
        let written = SceneRonWriter::append_record(self, alloc, d, s);
        nano_ron_nested::rollback_on_error(&mut s.out, start, written)
    }
}

impl SerRon for Scene {
    fn ser_ron(&self, alloc: Global, d: usize, s: &mut SerRonState) -> Result<(), AllocError> {
        WritesRon::write_ron(self, alloc, d, s)
    }
}

impl ReadsRon<Scene> for Levels {
    #[cycle(read)]
    fn read_ron(
        &self,
        left: usize,
        alloc: Global,
        state: &mut DeRonState,
        input: &mut Chars<'_>,
    ) -> Result<Scene, DeRonErr> {
        if left == 0 {
            return Err(nano_ron_nested::too_deep(alloc, state));
        }
        let Levels::More(below) = self else {
            return Err(nano_ron_nested::no_levels(alloc, state));
        };
        let Some(below) = below.first() else {
            return Err(nano_ron_nested::no_levels(alloc, state));
        };
        match read_record_ron_within::<Levels, SceneFields>(below, left - 1, alloc, state, input) {
            Ok(values) => Ok(Scene::make(values)),
            Err(error) => Err(error),
        }
    }
}

impl DeRon for Scene {
    fn de_ron(
        alloc: Global,
        state: &mut DeRonState,
        input: &mut Chars<'_>,
    ) -> Result<Self, DeRonErr> {
        let levels = Levels::most();
        ReadsRon::<Self>::read_ron(levels, 128, alloc, state, input)
    }
}
