//! Written by derive_files: how the types of the module above are encoded.

ghost use Rattle.std.specs.Prelude.{codes, ◌==◌, if◌then◌else◌, refl};
ghost use Rattle.nano_schema.specs.UserTypes.{agreed};

use super::*;
use nano_bin_nested::{
    ReadsBin, WritesBin, append_variant, append_variant_within, no_memory, read_choice_within,
};
use nano_bin_schema::{BinCodec, DeBin, DeBinErr, SerBin};
use nano_json_nested::{
    NestedJson, ReadsJson, WritesJson, no_levels, read_choice_json_within, too_deep,
    write_variant_other, write_variant_within,
};
use nano_json_schema::{DeJson, DeJsonErr, DeJsonState, JsonCodec, SerJson, SerJsonState};
use nano_levels::{Levels, Other, Within};
use nano_ron_nested::{NestedRon, ReadsRon, WritesRon, read_choice_ron_within};
use nano_ron_schema::{DeRon, DeRonErr, DeRonState, RonCodec, SerRon, SerRonState};
use nano_schema::{Either, EnumSchema, Label, Newtype, Unit, Value, Variant};
use std::alloc::{AllocError, Global};
use std::str::Chars;

pub struct SettingNames<const I: usize> {}

impl<const I: usize> Label for SettingNames<I> {
    ghost label = { if I == 0 then codes "Unset" else if I == 1 then codes "Text"
        else if I == 2 then codes "Counts" else if I == 3 then codes "Table" else codes "Lists" };

    fn text() -> &'static str {
        nano_schema::name_of!(I, 0 => "Unset", 1 => "Text", 2 => "Counts", 3 => "Table",
            _ => "Lists")
    }
}

type SettingVariants5 = Variant<SettingNames<4>, Within<Newtype<BTreeMap<u16, Vec<Setting>>>>>;

type SettingVariants4 = (
    Variant<SettingNames<3>, Within<Newtype<BTreeMap<String, Setting>>>>,
    SettingVariants5,
);

type SettingVariants3 = (
    Variant<SettingNames<2>, Other<Newtype<BTreeMap<i32, u64>>>>,
    SettingVariants4,
);

type SettingVariants2 = (
    Variant<SettingNames<1>, Other<Newtype<String>>>,
    SettingVariants3,
);

type SettingVariants = (Variant<SettingNames<0>, Other<Unit>>, SettingVariants2);

type SettingValues5 = BTreeMap<u16, Vec<Setting>>;

type SettingValues4 = Either<BTreeMap<String, Setting>, SettingValues5>;

type SettingValues3 = Either<BTreeMap<i32, u64>, SettingValues4>;

type SettingValues2 = Either<String, SettingValues3>;

type SettingValues = Either<(), SettingValues2>;

impl EnumSchema for Setting {
    ghost use Rattle.test_nested_derived_ron.specs.SettingCodecs.{setting_view};

    type Values = SettingValues;

    ghost view = { setting_view };

    #[tactic(auto, using(crate::proofs::SettingCodecsLaws::setting_views))]
    fn make(values: Self::Values) -> Self {
        let later = match values {
            Either::First(values) => {
                let () = values;
                return Self::Unset;
            }
            Either::Later(later) => later,
        };
        let later = match later {
            Either::First(values) => {
                let first = values;
                return Self::Text(first);
            }
            Either::Later(later) => later,
        };
        let later = match later {
            Either::First(values) => {
                let first = values;
                return Self::Counts(first);
            }
            Either::Later(later) => later,
        };
        let later = match later {
            Either::First(values) => {
                let first = values;
                return Self::Table(first);
            }
            Either::Later(later) => later,
        };
        let first = later;
        Self::Lists(first)
    }
}

impl Value for Setting {
    ghost use Rattle.test_nested_derived_ron.specs.SettingCodecs.{setting_means, setting_codec};

    ghost means = { setting_means };

    ghost legal = { setting_codec.encoding.legal };

    fn known(&self) {
        match self {
            Self::Unset => Value::known(&()),
            Self::Text(first) => Value::known(first),
            Self::Counts(first) => Value::known(first),
            Self::Table(first) => Value::known(first),
            Self::Lists(first) => Value::known(first),
        }
    }
}

// ---- bytes

impl BinCodec for Setting {
    ghost use Rattle.test_nested_derived_ron.specs.SettingCodecs.{setting_codec};

    ghost bin = { setting_codec };

    ghost agrees = { agreed };
}

impl WritesBin for Setting {
    #[tactic(auto, using(crate::proofs::SettingCodecsLaws::setting_written_laws))]
    fn write_bin(&self, alloc: Global, output: &mut Vec<u8>) -> Result<(), AllocError> {
        match self {
            Self::Unset => append_variant(alloc, 0, &(), output),
            Self::Text(first) => append_variant(alloc, 1, first, output),
            Self::Counts(first) => append_variant(alloc, 2, first, output),
            Self::Table(first) => append_variant_within(alloc, 3, first, output),
            Self::Lists(first) => append_variant_within(alloc, 4, first, output),
        }
    }
}

impl SerBin for Setting {
    fn ser_bin(&self, alloc: Global, output: &mut Vec<u8>) -> Result<(), AllocError> {
        WritesBin::write_bin(self, alloc, output)
    }
}

impl ReadsBin<Setting> for Levels {
    #[cycle(read)]
    fn read_bin(
        &self,
        alloc: Global,
        offset: &mut usize,
        bytes: &[u8],
    ) -> Result<Setting, DeBinErr> {
        let Levels::More(below) = self else {
            return Err(no_memory(*offset, bytes));
        };
        let Some(below) = below.first() else {
            return Err(no_memory(*offset, bytes));
        };
        read_choice_within::<Levels, Setting, SettingVariants>(below, alloc, offset, bytes)
    }
}

impl DeBin for Setting {
    ghost is_decodable = { refl };

    fn de_bin(alloc: Global, offset: &mut usize, bytes: &[u8]) -> Result<Self, DeBinErr> {
        let levels = Levels::most();
        ReadsBin::<Self>::read_bin(levels, alloc, offset, bytes)
    }
}

// ---- JSON

impl JsonCodec for Setting {
    ghost use Rattle.test_nested_derived_ron.specs.SettingJsonCodecs.{setting_json};

    ghost json = { setting_json };

    ghost agrees = { agreed };
}

impl NestedJson for Setting {
    ghost use Rattle.test_nested_derived_ron.specs.SettingCodecs.{setting_means};
    ghost use Rattle.test_nested_derived_ron.specs.SettingJsonCodecs.{setting_json_at};

    ghost means = { setting_means };

    ghost at = { setting_json_at };
}

impl WritesJson for Setting {
    #[tactic(auto, using(crate::proofs::SettingJsonCodecsLaws::setting_json_texts))]
    fn write_json(&self, alloc: Global, d: usize, s: &mut SerJsonState) -> Result<(), AllocError> {
        match self {
            Self::Unset => nano_json_schema::write_unit_variant(alloc, "Unset", s),
            Self::Text(first) => write_variant_other(alloc, "Text", first, d, s),
            Self::Counts(first) => write_variant_other(alloc, "Counts", first, d, s),
            Self::Table(first) => write_variant_within(alloc, "Table", first, d, s),
            Self::Lists(first) => write_variant_within(alloc, "Lists", first, d, s),
        }
    }
}

impl SerJson for Setting {
    fn ser_json(&self, alloc: Global, d: usize, s: &mut SerJsonState) -> Result<(), AllocError> {
        WritesJson::write_json(self, alloc, d, s)
    }
}

impl ReadsJson<Setting> for Levels {
    #[cycle(read)]
    fn read_json(
        &self,
        left: usize,
        alloc: Global,
        state: &mut DeJsonState,
        input: &mut Chars<'_>,
    ) -> Result<Setting, DeJsonErr> {
        if left == 0 {
            return Err(too_deep(alloc, state));
        }
        let Levels::More(below) = self else {
            return Err(no_levels(alloc, state));
        };
        let Some(below) = below.first() else {
            return Err(no_levels(alloc, state));
        };
        match read_choice_json_within::<Levels, SettingVariants>(
            below,
            left - 1,
            alloc,
            state,
            input,
        ) {
            Ok(values) => Ok(Setting::make(values)),
            Err(error) => Err(error),
        }
    }
}

impl DeJson for Setting {
    fn de_json(
        alloc: Global,
        state: &mut DeJsonState,
        input: &mut Chars<'_>,
    ) -> Result<Self, DeJsonErr> {
        let levels = Levels::most();
        ReadsJson::<Self>::read_json(levels, 128, alloc, state, input)
    }
}

// ---- RON

impl RonCodec for Setting {
    ghost use Rattle.test_nested_derived_ron.specs.SettingRonCodecs.{setting_ron};

    ghost ron = { setting_ron };

    ghost agrees = { agreed };
}

impl NestedRon for Setting {
    ghost use Rattle.test_nested_derived_ron.specs.SettingCodecs.{setting_means};
    ghost use Rattle.test_nested_derived_ron.specs.SettingRonCodecs.{setting_ron_at};

    ghost means = { setting_means };

    ghost at = { setting_ron_at };
}

impl WritesRon for Setting {
    #[tactic(auto, using(crate::proofs::SettingRonCodecsLaws::setting_ron_texts))]
    fn write_ron(&self, alloc: Global, d: usize, s: &mut SerRonState) -> Result<(), AllocError> {
        match self {
            Self::Unset => nano_ron_schema::write_unit_variant("Unset", s),
            Self::Text(first) => nano_ron_nested::write_variant_other(alloc, "Text", first, d, s),
            Self::Counts(first) => {
                nano_ron_nested::write_variant_other(alloc, "Counts", first, d, s)
            }
            Self::Table(first) => {
                nano_ron_nested::write_variant_within(alloc, "Table", first, d, s)
            }
            Self::Lists(first) => {
                nano_ron_nested::write_variant_within(alloc, "Lists", first, d, s)
            }
        }
    }
}

impl SerRon for Setting {
    fn ser_ron(&self, alloc: Global, d: usize, s: &mut SerRonState) -> Result<(), AllocError> {
        WritesRon::write_ron(self, alloc, d, s)
    }
}

impl ReadsRon<Setting> for Levels {
    #[cycle(read)]
    fn read_ron(
        &self,
        left: usize,
        alloc: Global,
        state: &mut DeRonState,
        input: &mut Chars<'_>,
    ) -> Result<Setting, DeRonErr> {
        if left == 0 {
            return Err(nano_ron_nested::too_deep(alloc, state));
        }
        let Levels::More(below) = self else {
            return Err(nano_ron_nested::no_levels(alloc, state));
        };
        let Some(below) = below.first() else {
            return Err(nano_ron_nested::no_levels(alloc, state));
        };
        match read_choice_ron_within::<Levels, SettingVariants>(
            below,
            left - 1,
            alloc,
            state,
            input,
        ) {
            Ok(values) => Ok(Setting::make(values)),
            Err(error) => Err(error),
        }
    }
}

impl DeRon for Setting {
    fn de_ron(
        alloc: Global,
        state: &mut DeRonState,
        input: &mut Chars<'_>,
    ) -> Result<Self, DeRonErr> {
        let levels = Levels::most();
        ReadsRon::<Self>::read_ron(levels, 128, alloc, state, input)
    }
}
