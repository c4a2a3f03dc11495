//! Written by derive_files: how the types of the module above are encoded.

ghost use Rattle.std.specs.Prelude.{codes, ◌==◌, if◌then◌else◌, refl, OnOk, OnErr};
ghost use Rattle.nano_schema.specs.UserTypes.{text, agreed};
ghost use Rattle.nano_text.specs.Outcomes.{Appends, AppendsPart};

use super::*;
use nano_bin_nested::{ReadsBin, WritesBin, append_part_within, no_memory, read_record_within};
use nano_bin_schema::{BinCodec, DeBin, DeBinErr, SerBin};
use nano_json_nested::{
    NestedJson, ReadsJson, WritesJson, append_required_within, no_levels, read_record_json_within,
    rollback_on_error, too_deep,
};
use nano_json_schema::{
    DeJson, DeJsonErr, DeJsonState, JsonCodec, JsonRefs, SerJson, SerJsonState,
};
use nano_levels::{Levels, Other, Within};
use nano_ron_nested::{NestedRon, ReadsRon, WritesRon, append_required, read_record_ron_within};
use nano_ron_schema::{DeRon, DeRonErr, DeRonState, RonCodec, SerRon, SerRonState};
use nano_schema::{
    DefaultBool, DefaultI32, DefaultOf, DefaultU16, Defaulted, Label, Required, StructSchema,
    TypeDefault, Value,
};
use std::alloc::{AllocError, Global};
use std::str::Chars;

pub struct WidgetNames<const I: usize> {}

impl<const I: usize> Label for WidgetNames<I> {
    ghost label = { if I == 0 then codes "title" else if I == 1 then codes "shortcut"
        else if I == 2 then codes "width" else if I == 3 then codes "row"
        else if I == 4 then codes "is_open" else if I == 5 then codes "entries"
        else codes "others" };

    fn text() -> &'static str {
        nano_schema::name_of!(I, 0 => "title", 1 => "shortcut", 2 => "width", 3 => "row",
            4 => "is_open", 5 => "entries", _ => "others")
    }
}

/// The default of `shortcut`.
pub struct WidgetShortcutDefault {}

impl DefaultOf<String> for WidgetShortcutDefault {
    ghost missing = { text (codes "none") };

    fn default(alloc: Global) -> Result<String, AllocError> {
        String::from_str(alloc, "none")
    }
}

type WidgetFields = (
    (
        Other<Required<WidgetNames<0>, String>>,
        (
            Other<Defaulted<WidgetNames<1>, String, WidgetShortcutDefault>>,
            Other<Defaulted<WidgetNames<2>, u16, DefaultU16<80>>>,
        ),
    ),
    (
        (
            Other<Defaulted<WidgetNames<3>, i32, DefaultI32<-1>>>,
            Other<Defaulted<WidgetNames<4>, bool, DefaultBool<true>>>,
        ),
        (
            Within<Defaulted<WidgetNames<5>, Vec<Widget>, TypeDefault>>,
            Within<Defaulted<WidgetNames<6>, BTreeMap<String, Widget>, TypeDefault>>,
        ),
    ),
);

impl StructSchema for Widget {
    ghost use Rattle.test_nested_defaults.specs.WidgetCodecs.{widget_view};

    type Values = (
        (String, (String, u16)),
        ((i32, bool), (Vec<Widget>, BTreeMap<String, Widget>)),
    );

    ghost view = { widget_view };

    fn make(values: Self::Values) -> Self {
        let ((title, (shortcut, width)), ((row, is_open), (entries, others))) = values;
        Widget {
            title,
            shortcut,
            width,
            row,
            is_open,
            entries,
            others,
        }
    }
}

impl Value for Widget {
    ghost use Rattle.test_nested_defaults.specs.WidgetCodecs.{widget_means, widget_codec};

    ghost means = { widget_means };

    ghost legal = { widget_codec.encoding.legal };

    #[tactic(auto, using(crate::proofs::WidgetCodecsLaws::widget_legal))]
    fn known(&self) {
        Value::known(&self.title);
        Value::known(&self.shortcut);
        Value::known(&self.width);
        Value::known(&self.row);
        Value::known(&self.is_open);
        Value::known(&self.entries);
        Value::known(&self.others);
    }
}

// ---- bytes

impl BinCodec for Widget {
    ghost use Rattle.test_nested_defaults.specs.WidgetCodecs.{widget_codec};

    ghost bin = { widget_codec };

    ghost agrees = { agreed };
}

impl WritesBin for Widget {
    #[tactic(auto, using(crate::proofs::WidgetCodecsLaws::widget_written_laws))]
    fn write_bin(&self, alloc: Global, output: &mut Vec<u8>) -> Result<(), AllocError> {
        let start = output.len();
        SerBin::ser_bin(&self.title, alloc, output)?;
        nano_bin::append_part(alloc, &self.shortcut, output, start)?;
        nano_bin::append_part(alloc, &self.width, output, start)?;
        nano_bin::append_part(alloc, &self.row, output, start)?;
        nano_bin::append_part(alloc, &self.is_open, output, start)?;
        append_part_within(alloc, &self.entries, output, start)?;
        append_part_within(alloc, &self.others, output, start)
    }
}

impl SerBin for Widget {
    fn ser_bin(&self, alloc: Global, output: &mut Vec<u8>) -> Result<(), AllocError> {
        WritesBin::write_bin(self, alloc, output)
    }
}

impl ReadsBin<Widget> for Levels {
    #[cycle(read)]
    fn read_bin(
        &self,
        alloc: Global,
        offset: &mut usize,
        bytes: &[u8],
    ) -> Result<Widget, DeBinErr> {
        let Levels::More(below) = self else {
            return Err(no_memory(*offset, bytes));
        };
        let Some(below) = below.first() else {
            return Err(no_memory(*offset, bytes));
        };
        read_record_within::<Levels, Widget, WidgetFields>(below, alloc, offset, bytes)
    }
}

impl DeBin for Widget {
    ghost is_decodable = { refl };

    fn de_bin(alloc: Global, offset: &mut usize, bytes: &[u8]) -> Result<Self, DeBinErr> {
        let levels = Levels::most();
        ReadsBin::<Self>::read_bin(levels, alloc, offset, bytes)
    }
}

// ---- JSON

impl JsonCodec for Widget {
    ghost use Rattle.test_nested_defaults.specs.WidgetJsonCodecs.{widget_json};

    ghost json = { widget_json };

    ghost agrees = { agreed };
}

impl NestedJson for Widget {
    ghost use Rattle.test_nested_defaults.specs.WidgetCodecs.{widget_means};
    ghost use Rattle.test_nested_defaults.specs.WidgetJsonCodecs.{widget_json_at};

    ghost means = { widget_means };

    ghost at = { widget_json_at };
}

/// What writes `Widget` as JSON.
struct WidgetJsonWriter {}

impl WidgetJsonWriter {
    ghost use Rattle.test_nested_defaults.specs.WidgetJsonCodecs.{widget_json};

    /// Appends the fields between braces. If the write fails, what was written so far is left.
    #[cycle(write_widget_json)]
    fn append_record(
        value: &Widget,
        alloc: Global,
        d: usize,
        s: &mut SerJsonState,
    ) -> Result<(), AllocError>
        ensures ok { OnOk result
            (Appends s.old.out s.new.out (widget_json.canonical.text d value.now)) }
        ensures err { OnErr result (AppendsPart s.old.out s.new.out) }
    {
        s.st_pre()?;
        let inner = d.saturating_add(1);
        let shortcut_is_first = Required::<WidgetNames<0>, String>::append_fields(
            &&value.title,
            alloc,
            true,
            inner,
            s,
        )?;
        let width_is_first = Required::<WidgetNames<1>, String>::append_fields(
            &&value.shortcut,
            alloc,
            shortcut_is_first,
            inner,
            s,
        )?;
        let row_is_first = Required::<WidgetNames<2>, u16>::append_fields(
            &&value.width,
            alloc,
            width_is_first,
            inner,
            s,
        )?;
        let is_open_is_first = Required::<WidgetNames<3>, i32>::append_fields(
            &&value.row,
            alloc,
            row_is_first,
            inner,
            s,
        )?;
        let entries_is_first = Required::<WidgetNames<4>, bool>::append_fields(
            &&value.is_open,
            alloc,
            is_open_is_first,
            inner,
            s,
        )?;
        let others_is_first = append_required_within(
            alloc,
            "entries",
            &value.entries,
            entries_is_first,
            inner,
            s,
        )?;
        append_required_within(alloc, "others", &value.others, others_is_first, inner, s)?;
        s.st_post(d)
    }
}

impl WritesJson for Widget {
    #[cycle(write_widget_json)]
    fn write_json(&self, alloc: Global, d: usize, s: &mut SerJsonState) -> Result<(), AllocError> {
        let start = s.out.len();
        let written = WidgetJsonWriter::append_record(self, alloc, d, s);
        rollback_on_error(&mut s.out, start, written)
    }
}

impl SerJson for Widget {
    fn ser_json(&self, alloc: Global, d: usize, s: &mut SerJsonState) -> Result<(), AllocError> {
        WritesJson::write_json(self, alloc, d, s)
    }
}

impl ReadsJson<Widget> for Levels {
    #[cycle(read)]
    fn read_json(
        &self,
        left: usize,
        alloc: Global,
        state: &mut DeJsonState,
        input: &mut Chars<'_>,
    ) -> Result<Widget, DeJsonErr> {
        if left == 0 {
            return Err(too_deep(alloc, state));
        }
        let Levels::More(below) = self else {
            return Err(no_levels(alloc, state));
        };
        let Some(below) = below.first() else {
            return Err(no_levels(alloc, state));
        };
        match read_record_json_within::<Levels, WidgetFields>(
            below,
            left - 1,
            alloc,
            state,
            input,
        ) {
            Ok(values) => Ok(Widget::make(values)),
            Err(error) => Err(error),
        }
    }
}

impl DeJson for Widget {
    fn de_json(
        alloc: Global,
        state: &mut DeJsonState,
        input: &mut Chars<'_>,
    ) -> Result<Self, DeJsonErr> {
        let levels = Levels::most();
        ReadsJson::<Self>::read_json(levels, 128, alloc, state, input)
    }
}

// ---- RON

impl RonCodec for Widget {
    ghost use Rattle.test_nested_defaults.specs.WidgetRonCodecs.{widget_ron};

    ghost ron = { widget_ron };

    ghost agrees = { agreed };
}

impl NestedRon for Widget {
    ghost use Rattle.test_nested_defaults.specs.WidgetCodecs.{widget_means};
    ghost use Rattle.test_nested_defaults.specs.WidgetRonCodecs.{widget_ron_at};

    ghost means = { widget_means };

    ghost at = { widget_ron_at };
}

/// What writes `Widget` as RON.
struct WidgetRonWriter {}

impl WidgetRonWriter {
    ghost use Rattle.test_nested_defaults.specs.WidgetRonCodecs.{widget_ron};

    /// Appends the fields between parentheses. If the write fails, what was written so far is left.
    #[cycle(write_widget_ron)]
    fn append_record(
        value: &Widget,
        alloc: Global,
        d: usize,
        s: &mut SerRonState,
    ) -> Result<(), AllocError>
        ensures ok { OnOk result
            (Appends s.old.out s.new.out (widget_ron.canonical.text d value.now)) }
        ensures err { OnErr result (AppendsPart s.old.out s.new.out) }
    {
        s.st_pre()?;
        let inner = d.saturating_add(1);
        append_required(alloc, "title", &value.title, inner, s)?;
        append_required(alloc, "shortcut", &value.shortcut, inner, s)?;
        append_required(alloc, "width", &value.width, inner, s)?;
        append_required(alloc, "row", &value.row, inner, s)?;
        append_required(alloc, "is_open", &value.is_open, inner, s)?;
        nano_ron_nested::append_required_within(alloc, "entries", &value.entries, inner, s)?;
        nano_ron_nested::append_required_within(alloc, "others", &value.others, inner, s)?;
        s.st_post(d)
    }
}

impl WritesRon for Widget {
    #[cycle(write_widget_ron)]
    fn write_ron(&self, alloc: Global, d: usize, s: &mut SerRonState) -> Result<(), AllocError> {
        let start = s.out.len();
        let written = WidgetRonWriter::append_record(self, alloc, d, s);
        nano_ron_nested::rollback_on_error(&mut s.out, start, written)
    }
}

impl SerRon for Widget {
    fn ser_ron(&self, alloc: Global, d: usize, s: &mut SerRonState) -> Result<(), AllocError> {
        WritesRon::write_ron(self, alloc, d, s)
    }
}

impl ReadsRon<Widget> for Levels {
    #[cycle(read)]
    fn read_ron(
        &self,
        left: usize,
        alloc: Global,
        state: &mut DeRonState,
        input: &mut Chars<'_>,
    ) -> Result<Widget, DeRonErr> {
        if left == 0 {
            return Err(nano_ron_nested::too_deep(alloc, state));
        }
        let Levels::More(below) = self else {
            return Err(nano_ron_nested::no_levels(alloc, state));
        };
        let Some(below) = below.first() else {
            return Err(nano_ron_nested::no_levels(alloc, state));
        };
        match read_record_ron_within::<Levels, WidgetFields>(below, left - 1, alloc, state, input) {
            Ok(values) => Ok(Widget::make(values)),
            Err(error) => Err(error),
        }
    }
}

impl DeRon for Widget {
    fn de_ron(
        alloc: Global,
        state: &mut DeRonState,
        input: &mut Chars<'_>,
    ) -> Result<Self, DeRonErr> {
        let levels = Levels::most();
        ReadsRon::<Self>::read_ron(levels, 128, alloc, state, input)
    }
}
