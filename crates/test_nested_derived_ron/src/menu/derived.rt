//! Written by derive_files: how the types of the module above are encoded.

ghost use Rattle.std.specs.Prelude.{codes, ◌==◌, if◌then◌else◌, refl, OnOk, OnErr};
ghost use Rattle.nano_schema.specs.UserTypes.{agreed};
ghost use Rattle.nano_text.specs.Outcomes.{Appends, AppendsPart};

use super::*;
use nano_bin_nested::{ReadsBin, WritesBin, append_part_within, no_memory, read_record_within};
use nano_bin_schema::{BinCodec, DeBin, DeBinErr, SerBin};
use nano_json_nested::{
    NestedJson, ReadsJson, WritesJson, append_required_within, no_levels, read_record_json_within,
    rollback_on_error, too_deep,
};
use nano_json_schema::{
    DeJson, DeJsonErr, DeJsonState, JsonCodec, JsonRefs, SerJson, SerJsonState,
};
use nano_levels::{Levels, Other, Within};
use nano_ron_nested::{NestedRon, ReadsRon, WritesRon, append_required, read_record_ron_within};
use nano_ron_schema::{DeRon, DeRonErr, DeRonState, RonCodec, SerRon, SerRonState};
use nano_schema::{Label, Required, StructSchema, Value};
use std::alloc::{AllocError, Global};
use std::str::Chars;

pub struct MenuNames<const I: usize> {}

impl<const I: usize> Label for MenuNames<I> {
    ghost label = { if I == 0 then codes "title" else codes "entries" };

    fn text() -> &'static str {
        nano_schema::name_of!(I, 0 => "title", _ => "entries")
    }
}

type MenuFields = (
    Other<Required<MenuNames<0>, String>>,
    Within<Required<MenuNames<1>, BTreeMap<String, Menu>>>,
);

impl StructSchema for Menu {
    ghost use Rattle.test_nested_derived_ron.specs.MenuCodecs.{menu_view};

    type Values = (String, BTreeMap<String, Menu>);

    ghost view = { menu_view };

    fn make(values: Self::Values) -> Self {
        let (title, entries) = values;
        Menu { title, entries }
    }
}

impl Value for Menu {
    ghost use Rattle.test_nested_derived_ron.specs.MenuCodecs.{menu_means, menu_codec};

    ghost means = { menu_means };

    ghost legal = { menu_codec.encoding.legal };

    #[tactic(auto, using(crate::proofs::MenuCodecsLaws::menu_legal))]
    fn known(&self) {
        Value::known(&self.title);
        Value::known(&self.entries);
    }
}

// ---- bytes

impl BinCodec for Menu {
    ghost use Rattle.test_nested_derived_ron.specs.MenuCodecs.{menu_codec};

    ghost bin = { menu_codec };

    ghost agrees = { agreed };
}

impl WritesBin for Menu {
    #[tactic(auto, using(crate::proofs::MenuCodecsLaws::menu_written_laws))]
    fn write_bin(&self, alloc: Global, output: &mut Vec<u8>) -> Result<(), AllocError> {
        let start = output.len();
        SerBin::ser_bin(&self.title, alloc, output)?;
        append_part_within(alloc, &self.entries, output, start)
    }
}

impl SerBin for Menu {
    fn ser_bin(&self, alloc: Global, output: &mut Vec<u8>) -> Result<(), AllocError> {
        WritesBin::write_bin(self, alloc, output)
    }
}

impl ReadsBin<Menu> for Levels {
    #[cycle(read)]
    fn read_bin(&self, alloc: Global, offset: &mut usize, bytes: &[u8]) -> Result<Menu, DeBinErr> {
        let Levels::More(below) = self else {
            return Err(no_memory(*offset, bytes));
        };
        let Some(below) = below.first() else {
            return Err(no_memory(*offset, bytes));
        };
        read_record_within::<Levels, Menu, MenuFields>(below, alloc, offset, bytes)
    }
}

impl DeBin for Menu {
    ghost is_decodable = { refl };

    fn de_bin(alloc: Global, offset: &mut usize, bytes: &[u8]) -> Result<Self, DeBinErr> {
        let levels = Levels::most();
        ReadsBin::<Self>::read_bin(levels, alloc, offset, bytes)
    }
}

// ---- JSON

impl JsonCodec for Menu {
    ghost use Rattle.test_nested_derived_ron.specs.MenuJsonCodecs.{menu_json};

    ghost json = { menu_json };

    ghost agrees = { agreed };
}

impl NestedJson for Menu {
    ghost use Rattle.test_nested_derived_ron.specs.MenuCodecs.{menu_means};
    ghost use Rattle.test_nested_derived_ron.specs.MenuJsonCodecs.{menu_json_at};

    ghost means = { menu_means };

    ghost at = { menu_json_at };
}

/// What writes `Menu` as JSON.
struct MenuJsonWriter {}

impl MenuJsonWriter {
    ghost use Rattle.test_nested_derived_ron.specs.MenuJsonCodecs.{menu_json};

    /// Appends the fields between braces. If the write fails, what was written so far is left.
    #[cycle(write_menu_json)]
    fn append_record(
        value: &Menu,
        alloc: Global,
        d: usize,
        s: &mut SerJsonState,
    ) -> Result<(), AllocError>
        ensures ok { OnOk result
            (Appends s.old.out s.new.out (menu_json.canonical.text d value.now)) }
        ensures err { OnErr result (AppendsPart s.old.out s.new.out) }
    {
        s.st_pre()?;
        let inner = d.saturating_add(1);
        let entries_is_first = Required::<MenuNames<0>, String>::append_fields(
            &&value.title,
            alloc,
            true,
            inner,
            s,
        )?;
        append_required_within(alloc, "entries", &value.entries, entries_is_first, inner, s)?;
        s.st_post(d)
    }
}

impl WritesJson for Menu {
    #[cycle(write_menu_json)]
    fn write_json(&self, alloc: Global, d: usize, s: &mut SerJsonState) -> Result<(), AllocError> {
        let start = s.out.len();
        let written = MenuJsonWriter::append_record(self, alloc, d, s);
        rollback_on_error(&mut s.out, start, written)
    }
}

impl SerJson for Menu {
    fn ser_json(&self, alloc: Global, d: usize, s: &mut SerJsonState) -> Result<(), AllocError> {
        WritesJson::write_json(self, alloc, d, s)
    }
}

impl ReadsJson<Menu> for Levels {
    #[cycle(read)]
    fn read_json(
        &self,
        left: usize,
        alloc: Global,
        state: &mut DeJsonState,
        input: &mut Chars<'_>,
    ) -> Result<Menu, DeJsonErr> {
        if left == 0 {
            return Err(too_deep(alloc, state));
        }
        let Levels::More(below) = self else {
            return Err(no_levels(alloc, state));
        };
        let Some(below) = below.first() else {
            return Err(no_levels(alloc, state));
        };
        match read_record_json_within::<Levels, MenuFields>(below, left - 1, alloc, state, input) {
            Ok(values) => Ok(Menu::make(values)),
            Err(error) => Err(error),
        }
    }
}

impl DeJson for Menu {
    fn de_json(
        alloc: Global,
        state: &mut DeJsonState,
        input: &mut Chars<'_>,
    ) -> Result<Self, DeJsonErr> {
        let levels = Levels::most();
        ReadsJson::<Self>::read_json(levels, 128, alloc, state, input)
    }
}

// ---- RON

impl RonCodec for Menu {
    ghost use Rattle.test_nested_derived_ron.specs.MenuRonCodecs.{menu_ron};

    ghost ron = { menu_ron };

    ghost agrees = { agreed };
}

impl NestedRon for Menu {
    ghost use Rattle.test_nested_derived_ron.specs.MenuCodecs.{menu_means};
    ghost use Rattle.test_nested_derived_ron.specs.MenuRonCodecs.{menu_ron_at};

    ghost means = { menu_means };

    ghost at = { menu_ron_at };
}

/// What writes `Menu` as RON.
struct MenuRonWriter {}

impl MenuRonWriter {
    ghost use Rattle.test_nested_derived_ron.specs.MenuRonCodecs.{menu_ron};

    /// Appends the fields between parentheses. If the write fails, what was written so far is left.
    #[cycle(write_menu_ron)]
    fn append_record(
        value: &Menu,
        alloc: Global,
        d: usize,
        s: &mut SerRonState,
    ) -> Result<(), AllocError>
        ensures ok { OnOk result
            (Appends s.old.out s.new.out (menu_ron.canonical.text d value.now)) }
        ensures err { OnErr result (AppendsPart s.old.out s.new.out) }
    {
        s.st_pre()?;
        let inner = d.saturating_add(1);
        append_required(alloc, "title", &value.title, inner, s)?;
        nano_ron_nested::append_required_within(alloc, "entries", &value.entries, inner, s)?;
        s.st_post(d)
    }
}

impl WritesRon for Menu {
    #[cycle(write_menu_ron)]
    fn write_ron(&self, alloc: Global, d: usize, s: &mut SerRonState) -> Result<(), AllocError> {
        let start = s.out.len();
        let written = MenuRonWriter::append_record(self, alloc, d, s);
        nano_ron_nested::rollback_on_error(&mut s.out, start, written)
    }
}

impl SerRon for Menu {
    fn ser_ron(&self, alloc: Global, d: usize, s: &mut SerRonState) -> Result<(), AllocError> {
        WritesRon::write_ron(self, alloc, d, s)
    }
}

impl ReadsRon<Menu> for Levels {
    #[cycle(read)]
    fn read_ron(
        &self,
        left: usize,
        alloc: Global,
        state: &mut DeRonState,
        input: &mut Chars<'_>,
    ) -> Result<Menu, DeRonErr> {
        if left == 0 {
            return Err(nano_ron_nested::too_deep(alloc, state));
        }
        let Levels::More(below) = self else {
            return Err(nano_ron_nested::no_levels(alloc, state));
        };
        let Some(below) = below.first() else {
            return Err(nano_ron_nested::no_levels(alloc, state));
        };
        match read_record_ron_within::<Levels, MenuFields>(below, left - 1, alloc, state, input) {
            Ok(values) => Ok(Menu::make(values)),
            Err(error) => Err(error),
        }
    }
}

impl DeRon for Menu {
    fn de_ron(
        alloc: Global,
        state: &mut DeRonState,
        input: &mut Chars<'_>,
    ) -> Result<Self, DeRonErr> {
        let levels = Levels::most();
        ReadsRon::<Self>::read_ron(levels, 128, alloc, state, input)
    }
}
