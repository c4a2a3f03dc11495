//! Written by derive_files: how the types of the module above are encoded.

ghost use Rattle.std.specs.Prelude.{codes, ◌==◌, if◌then◌else◌, OnOk, OnErr};
ghost use Rattle.nano_schema.specs.UserTypes.{agreed};
ghost use Rattle.nano_text.specs.Outcomes.{Appends, AppendsPart};
ghost use Rattle.nano_schema_levels.proofs.LegalLevelsLaws.{between};

use super::*;
use nano_bin_nested::{ReadsBin, WritesBin, append_part_within, no_memory, read_record_within};
use nano_bin_schema::{BinCodec, DeBin, DeBinErr, SerBin};
use nano_json_nested::{
    NestedJson, ReadsJson, WritesJson, append_required_within, no_levels, read_record_json_within,
    rollback_on_error, too_deep,
};
use nano_json_schema::{
    DeJson, DeJsonErr, DeJsonState, JsonCodec, JsonRefs, SerJson, SerJsonState,
};
use nano_levels::{Levels, Other, Within};
use nano_ron_nested::{
    NestedRon, ReadsRon, WritesRon, append_optional, append_required, read_record_ron_within,
};
use nano_ron_schema::{DeRon, DeRonErr, DeRonState, RonCodec, SerRon, SerRonState};
use nano_schema::{Label, Optional, Required, StructSchema, Value};
use std::alloc::{AllocError, Global};
use std::str::Chars;

pub struct ShelfNames<const I: usize> {}

impl<const I: usize> Label for ShelfNames<I> {
    ghost label = { if I == 0 then codes "name" else if I == 1 then codes "values"
        else if I == 2 then codes "best" else codes "inner" };

    fn text() -> &'static str {
        nano_schema::name_of!(I, 0 => "name", 1 => "values", 2 => "best", _ => "inner")
    }
}

type ShelfFields<K, V> = (
    (
        Other<Required<ShelfNames<0>, K>>,
        Other<Required<ShelfNames<1>, BTreeMap<String, V>>>,
    ),
    (
        Other<Optional<ShelfNames<2>, V>>,
        Within<Required<ShelfNames<3>, Vec<Shelf<K, V>>>>,
    ),
);

impl<K, V> StructSchema for Shelf<K, V> {
    ghost use Rattle.test_nested_generics.specs.ShelfCodecs.{shelf_view};

    type Values = ((K, BTreeMap<String, V>), (Option<V>, Vec<Shelf<K, V>>));

    ghost view = { shelf_view };

    fn make(values: Self::Values) -> Self {
        let ((name, values), (best, inner)) = values;
        Shelf {
            name,
            values,
            best,
            inner,
        }
    }
}

impl<K: BinCodec, V: BinCodec> Value for Shelf<K, V> {
    ghost use Rattle.test_nested_generics.specs.ShelfCodecs.{shelf_means, shelf_codec};

    ghost means = { shelf_means K.bin.canonical.means V.bin.canonical.means };

    ghost legal = { (shelf_codec K.bin V.bin).encoding.legal };

    #[tactic(auto, using(crate::proofs::ShelfCodecsLaws::shelf_legal))]
    fn known(&self) {
        Value::known(&self.name);
        Value::known(&self.values);
        Value::known(&self.best);
        Value::known(&self.inner);
    }
}

// ---- bytes

impl<K: BinCodec, V: BinCodec> BinCodec for Shelf<K, V> {
    ghost use Rattle.test_nested_generics.specs.ShelfCodecs.{shelf_codec};

    ghost bin = { shelf_codec K.bin V.bin };

    ghost agrees = { agreed };
}

impl<K: SerBin, V: SerBin> WritesBin for Shelf<K, V> {
    #[tactic(auto, using(crate::proofs::ShelfCodecsLaws::shelf_written_laws))]
    fn write_bin(&self, alloc: Global, output: &mut Vec<u8>) -> Result<(), AllocError> {
        let start = output.len();
        SerBin::ser_bin(&self.name, alloc, output)?;
        nano_bin::append_part(alloc, &self.values, output, start)?;
        nano_bin::append_part(alloc, &self.best, output, start)?;
        append_part_within(alloc, &self.inner, output, start)
    }
}

impl<K: SerBin, V: SerBin> SerBin for Shelf<K, V> {
    fn ser_bin(&self, alloc: Global, output: &mut Vec<u8>) -> Result<(), AllocError> {
        WritesBin::write_bin(self, alloc, output)
    }
}

impl<K: DeBin, V: DeBin> ReadsBin<Shelf<K, V>> for Levels {
    #[cycle(read)]
    fn read_bin(
        &self,
        alloc: Global,
        offset: &mut usize,
        bytes: &[u8],
    ) -> Result<Shelf<K, V>, DeBinErr> {
        let Levels::More(below) = self else {
            return Err(no_memory(*offset, bytes));
        };
        let Some(below) = below.first() else {
            return Err(no_memory(*offset, bytes));
        };
        read_record_within::<Levels, Shelf<K, V>, ShelfFields<K, V>>(below, alloc, offset, bytes)
    }
}

impl<K: DeBin, V: DeBin> DeBin for Shelf<K, V> {
    ghost use Rattle.test_nested_generics.specs.ShelfCodecs.{shelf_is_read};

    ghost is_decodable = { shelf_is_read K.bin V.bin K.is_decodable V.is_decodable };

    fn de_bin(alloc: Global, offset: &mut usize, bytes: &[u8]) -> Result<Self, DeBinErr> {
        let levels = Levels::most();
        ReadsBin::<Self>::read_bin(levels, alloc, offset, bytes)
    }
}

// ---- JSON

impl<K: BinCodec + JsonCodec, V: BinCodec + JsonCodec> JsonCodec for Shelf<K, V> {
    ghost use Rattle.test_nested_generics.specs.ShelfJsonCodecs.{shelf_json, shelf_json_agrees};

    ghost json = { shelf_json K.json V.json };

    ghost agrees = { shelf_json_agrees K.json V.json K.bin V.bin (between K.BinCodec.agrees
        K.JsonCodec.agrees) (between V.BinCodec.agrees V.JsonCodec.agrees) };
}

impl<K: JsonCodec, V: JsonCodec> NestedJson for Shelf<K, V> {
    ghost use Rattle.test_nested_generics.specs.ShelfCodecs.{shelf_means};
    ghost use Rattle.test_nested_generics.specs.ShelfJsonCodecs.{shelf_json_at};

    ghost means = { shelf_means K.json.canonical.means V.json.canonical.means };

    ghost at = { shelf_json_at K.json V.json };
}

/// What writes `Shelf` as JSON.
struct ShelfJsonWriter {}

impl ShelfJsonWriter {
    ghost use Rattle.test_nested_generics.specs.ShelfJsonCodecs.{shelf_json};

    /// Appends the fields between braces. If the write fails, what was written so far is left.
    #[cycle(write_shelf_json)]
    fn append_record<K: BinCodec + SerJson, V: BinCodec + SerJson>(
        value: &Shelf<K, V>,
        alloc: Global,
        d: usize,
        s: &mut SerJsonState,
    ) -> Result<(), AllocError>
        ensures ok { OnOk result
            (Appends s.old.out s.new.out ((shelf_json K.json V.json).canonical.text d value.now)) }
        ensures err { OnErr result (AppendsPart s.old.out s.new.out) }
    {
        s.st_pre()?;
        let inner = d.saturating_add(1);
        let values_is_first = Required::<ShelfNames<0>, K>::append_fields(
            &&value.name,
            alloc,
            true,
            inner,
            s,
        )?;
        let best_is_first = Required::<ShelfNames<1>, BTreeMap<String, V>>::append_fields(
            &&value.values,
            alloc,
            values_is_first,
            inner,
            s,
        )?;
        let inner_is_first = Optional::<ShelfNames<2>, V>::append_fields(
            &&value.best,
            alloc,
            best_is_first,
            inner,
            s,
        )?;
        append_required_within(alloc, "inner", &value.inner, inner_is_first, inner, s)?;
        s.st_post(d)
    }
}

impl<K: BinCodec + SerJson, V: BinCodec + SerJson> WritesJson for Shelf<K, V> {
    #[cycle(write_shelf_json)]
    fn write_json(&self, alloc: Global, d: usize, s: &mut SerJsonState) -> Result<(), AllocError> {
        let start = s.out.len();
        let written = ShelfJsonWriter::append_record(self, alloc, d, s);
        rollback_on_error(&mut s.out, start, written)
    }
}

impl<K: BinCodec + SerJson, V: BinCodec + SerJson> SerJson for Shelf<K, V> {
    fn ser_json(&self, alloc: Global, d: usize, s: &mut SerJsonState) -> Result<(), AllocError> {
        WritesJson::write_json(self, alloc, d, s)
    }
}

impl<K: DeJson, V: DeJson> ReadsJson<Shelf<K, V>> for Levels {
    #[cycle(read)]
    fn read_json(
        &self,
        left: usize,
        alloc: Global,
        state: &mut DeJsonState,
        input: &mut Chars<'_>,
    ) -> Result<Shelf<K, V>, DeJsonErr> {
        if left == 0 {
            return Err(too_deep(alloc, state));
        }
        let Levels::More(below) = self else {
            return Err(no_levels(alloc, state));
        };
        let Some(below) = below.first() else {
            return Err(no_levels(alloc, state));
        };
        match read_record_json_within::<Levels, ShelfFields<K, V>>(
            below,
            left - 1,
            alloc,
            state,
            input,
        ) {
            Ok(values) => Ok(Shelf::make(values)),
            Err(error) => Err(error),
        }
    }
}

impl<K: BinCodec + DeJson, V: BinCodec + DeJson> DeJson for Shelf<K, V> {
    fn de_json(
        alloc: Global,
        state: &mut DeJsonState,
        input: &mut Chars<'_>,
    ) -> Result<Self, DeJsonErr> {
        let levels = Levels::most();
        ReadsJson::<Self>::read_json(levels, 128, alloc, state, input)
    }
}

// ---- RON

impl<K: BinCodec + RonCodec, V: BinCodec + RonCodec> RonCodec for Shelf<K, V> {
    ghost use Rattle.test_nested_generics.specs.ShelfRonCodecs.{shelf_ron, shelf_ron_agrees};

    ghost ron = { shelf_ron K.ron V.ron };

    ghost agrees = { shelf_ron_agrees K.ron V.ron K.bin V.bin (between K.BinCodec.agrees
        K.RonCodec.agrees) (between V.BinCodec.agrees V.RonCodec.agrees) };
}

impl<K: RonCodec, V: RonCodec> NestedRon for Shelf<K, V> {
    ghost use Rattle.test_nested_generics.specs.ShelfCodecs.{shelf_means};
    ghost use Rattle.test_nested_generics.specs.ShelfRonCodecs.{shelf_ron_at};

    ghost means = { shelf_means K.ron.canonical.means V.ron.canonical.means };

    ghost at = { shelf_ron_at K.ron V.ron };
}

/// What writes `Shelf` as RON.
struct ShelfRonWriter {}

impl ShelfRonWriter {
    ghost use Rattle.test_nested_generics.specs.ShelfRonCodecs.{shelf_ron};

    /// Appends the fields between parentheses. If the write fails, what was written so far is left.
    #[cycle(write_shelf_ron)]
    fn append_record<K: BinCodec + SerRon, V: BinCodec + SerRon>(
        value: &Shelf<K, V>,
        alloc: Global,
        d: usize,
        s: &mut SerRonState,
    ) -> Result<(), AllocError>
        ensures ok { OnOk result
            (Appends s.old.out s.new.out ((shelf_ron K.ron V.ron).canonical.text d value.now)) }
        ensures err { OnErr result (AppendsPart s.old.out s.new.out) }
    {
        s.st_pre()?;
        let inner = d.saturating_add(1);
        append_required(alloc, "name", &value.name, inner, s)?;
        append_required(alloc, "values", &value.values, inner, s)?;
        append_optional(alloc, "best", &value.best, inner, s)?;
        nano_ron_nested::append_required_within(alloc, "inner", &value.inner, inner, s)?;
        s.st_post(d)
    }
}

impl<K: BinCodec + SerRon, V: BinCodec + SerRon> WritesRon for Shelf<K, V> {
    #[cycle(write_shelf_ron)]
    fn write_ron(&self, alloc: Global, d: usize, s: &mut SerRonState) -> Result<(), AllocError> {
        let start = s.out.len();
        let written = ShelfRonWriter::append_record(self, alloc, d, s);
        nano_ron_nested::rollback_on_error(&mut s.out, start, written)
    }
}

impl<K: BinCodec + SerRon, V: BinCodec + SerRon> SerRon for Shelf<K, V> {
    fn ser_ron(&self, alloc: Global, d: usize, s: &mut SerRonState) -> Result<(), AllocError> {
        WritesRon::write_ron(self, alloc, d, s)
    }
}

impl<K: DeRon, V: DeRon> ReadsRon<Shelf<K, V>> for Levels {
    #[cycle(read)]
    fn read_ron(
        &self,
        left: usize,
        alloc: Global,
        state: &mut DeRonState,
        input: &mut Chars<'_>,
    ) -> Result<Shelf<K, V>, DeRonErr> {
        if left == 0 {
            return Err(nano_ron_nested::too_deep(alloc, state));
        }
        let Levels::More(below) = self else {
            return Err(nano_ron_nested::no_levels(alloc, state));
        };
        let Some(below) = below.first() else {
            return Err(nano_ron_nested::no_levels(alloc, state));
        };
        match read_record_ron_within::<Levels, ShelfFields<K, V>>(
            below,
            left - 1,
            alloc,
            state,
            input,
        ) {
            Ok(values) => Ok(Shelf::make(values)),
            Err(error) => Err(error),
        }
    }
}

impl<K: BinCodec + DeRon, V: BinCodec + DeRon> DeRon for Shelf<K, V> {
    fn de_ron(
        alloc: Global,
        state: &mut DeRonState,
        input: &mut Chars<'_>,
    ) -> Result<Self, DeRonErr> {
        let levels = Levels::most();
        ReadsRon::<Self>::read_ron(levels, 128, alloc, state, input)
    }
}
