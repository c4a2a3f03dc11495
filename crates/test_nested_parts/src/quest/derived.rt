//! Written by derive_files: how the types of the module above are encoded.

ghost use Rattle.std.specs.Prelude.{codes, ◌==◌, if◌then◌else◌, refl, OnOk, OnErr, ◌≡◌};
ghost use Rattle.nano_schema.specs.UserTypes.{agreed};
ghost use Rattle.nano_text.specs.Outcomes.{Appends, AppendsPart, Unchanged};
ghost use Rattle.nano_json_schema.specs.Variants.{content_text};

use super::*;
use nano_bin_nested::{
    ReadsBin, WritesBin, append_part_within, append_variant, append_variant_within, no_memory,
    read_choice_within,
};
use nano_bin_schema::{BinCodec, DeBin, DeBinErr, SerBin};
use nano_json_nested::{
    NestedJson, ReadsJson, WritesJson, append_required_within, no_levels, read_choice_json_within,
    rollback_on_error, too_deep, write_pair_within, write_variant_other,
};
use nano_json_schema::{
    DeJson, DeJsonErr, DeJsonState, JsonCodec, JsonRefs, SerJson, SerJsonState,
};
use nano_levels::{Levels, Other, Within};
use nano_ron_nested::{
    NestedRon, ReadsRon, WritesRon, append_optional, append_required, read_choice_ron_within,
};
use nano_ron_schema::{DeRon, DeRonErr, DeRonState, RonCodec, SerRon, SerRonState};
use nano_schema::{
    Either, EnumSchema, Label, Newtype, Optional, Required, Struct, Tuple, Value, Variant,
};
use std::alloc::{AllocError, Global};
use std::str::Chars;

pub struct QuestNames<const I: usize> {}

impl<const I: usize> Label for QuestNames<I> {
    ghost label = { if I == 0 then codes "Win" else if I == 1 then codes "Bring"
        else if I == 2 then codes "All" else codes "Find" };

    fn text() -> &'static str {
        nano_schema::name_of!(I, 0 => "Win", 1 => "Bring", 2 => "All", _ => "Find")
    }
}

type QuestBringParts = (Other<Newtype<Item>>, Within<Newtype<Box<Quest>>>);

pub struct QuestAllNames<const I: usize> {}

impl<const I: usize> Label for QuestAllNames<I> {
    ghost label = { if I == 0 then codes "quests" else if I == 1 then codes "modes"
        else codes "mode" };

    fn text() -> &'static str {
        nano_schema::name_of!(I, 0 => "quests", 1 => "modes", _ => "mode")
    }
}

type QuestAllParts = (
    Within<Required<QuestAllNames<0>, Vec<Quest>>>,
    (
        Other<Required<QuestAllNames<1>, Vec<Mode>>>,
        Other<Optional<QuestAllNames<2>, Mode>>,
    ),
);

type QuestVariants4 = Variant<QuestNames<3>, Other<Newtype<BTreeMap<String, Item>>>>;

type QuestVariants3 = (
    Variant<QuestNames<2>, Struct<QuestAllParts>>,
    QuestVariants4,
);

type QuestVariants2 = (Variant<QuestNames<1>, QuestBringParts>, QuestVariants3);

type QuestVariants = (Variant<QuestNames<0>, Other<Newtype<Mode>>>, QuestVariants2);

type QuestValues4 = BTreeMap<String, Item>;

type QuestValues3 = Either<(Vec<Quest>, (Vec<Mode>, Option<Mode>)), QuestValues4>;

type QuestValues2 = Either<(Item, Box<Quest>), QuestValues3>;

type QuestValues = Either<Mode, QuestValues2>;

impl EnumSchema for Quest {
    ghost use Rattle.test_nested_parts.specs.QuestCodecs.{quest_view};

    type Values = QuestValues;

    ghost view = { quest_view };

    #[tactic(auto, using(crate::proofs::QuestCodecsLaws::quest_views))]
    fn make(values: Self::Values) -> Self {
        let later = match values {
            Either::First(values) => {
                let first = values;
                return Self::Win(first);
            }
            Either::Later(later) => later,
        };
        let later = match later {
            Either::First(values) => {
                let (first, second) = values;
                return Self::Bring(first, second);
            }
            Either::Later(later) => later,
        };
        let later = match later {
            Either::First(values) => {
                let (quests, (modes, mode)) = values;
                return Self::All {
                    quests,
                    modes,
                    mode,
                };
            }
            Either::Later(later) => later,
        };
        let first = later;
        Self::Find(first)
    }
}

impl Value for Quest {
    ghost use Rattle.test_nested_parts.specs.QuestCodecs.{quest_means, quest_codec};

    ghost means = { quest_means };

    ghost legal = { quest_codec.encoding.legal };

    fn known(&self) {
        match self {
            Self::Win(first) => Value::known(first),
            Self::Bring(first, second) => {
                Value::known(first);
                Value::known(second);
            }
            Self::All {
                quests,
                modes,
                mode,
            } => {
                Value::known(quests);
                Value::known(modes);
                Value::known(mode);
            }
            Self::Find(first) => Value::known(first),
        }
    }
}

// ---- bytes

impl BinCodec for Quest {
    ghost use Rattle.test_nested_parts.specs.QuestCodecs.{quest_codec};

    ghost bin = { quest_codec };

    ghost agrees = { agreed };
}

impl WritesBin for Quest {
    #[tactic(auto, using(crate::proofs::QuestCodecsLaws::quest_written_laws))]
    fn write_bin(&self, alloc: Global, output: &mut Vec<u8>) -> Result<(), AllocError> {
        let start = output.len();
        match self {
            Self::Win(first) => append_variant(alloc, 0, first, output),
            Self::Bring(first, second) => {
                append_variant(alloc, 1, first, output)?;
                append_part_within(alloc, second, output, start)
            }
            Self::All {
                quests,
                modes,
                mode,
            } => {
                append_variant_within(alloc, 2, quests, output)?;
                nano_bin::append_part(alloc, modes, output, start)?;
                nano_bin::append_part(alloc, mode, output, start)
            }
            Self::Find(first) => append_variant(alloc, 3, first, output),
        }
    }
}

impl SerBin for Quest {
    fn ser_bin(&self, alloc: Global, output: &mut Vec<u8>) -> Result<(), AllocError> {
        WritesBin::write_bin(self, alloc, output)
    }
}

impl ReadsBin<Quest> for Levels {
    #[cycle(read)]
    fn read_bin(&self, alloc: Global, offset: &mut usize, bytes: &[u8]) -> Result<Quest, DeBinErr> {
        let Levels::More(below) = self else {
            return Err(no_memory(*offset, bytes));
        };
        let Some(below) = below.first() else {
            return Err(no_memory(*offset, bytes));
        };
        read_choice_within::<Levels, Quest, QuestVariants>(below, alloc, offset, bytes)
    }
}

impl DeBin for Quest {
    ghost is_decodable = { refl };

    fn de_bin(alloc: Global, offset: &mut usize, bytes: &[u8]) -> Result<Self, DeBinErr> {
        let levels = Levels::most();
        ReadsBin::<Self>::read_bin(levels, alloc, offset, bytes)
    }
}

// ---- JSON

impl JsonCodec for Quest {
    ghost use Rattle.test_nested_parts.specs.QuestJsonCodecs.{quest_json};

    ghost json = { quest_json };

    ghost agrees = { agreed };
}

impl NestedJson for Quest {
    ghost use Rattle.test_nested_parts.specs.QuestCodecs.{quest_means};
    ghost use Rattle.test_nested_parts.specs.QuestJsonCodecs.{quest_json_at};

    ghost means = { quest_means };

    ghost at = { quest_json_at };
}

type QuestJsonVariants4 = Variant<QuestNames<3>, Other<Newtype<BTreeMap<String, Item>>>>;

type QuestJsonVariants3 = (
    Variant<QuestNames<2>, Struct<QuestAllParts>>,
    QuestJsonVariants4,
);

type QuestJsonVariants2 = (
    Variant<QuestNames<1>, Tuple<QuestBringParts>>,
    QuestJsonVariants3,
);

type QuestJsonVariants = (
    Variant<QuestNames<0>, Other<Newtype<Mode>>>,
    QuestJsonVariants2,
);

/// What writes the variants of `Quest` with named fields as JSON.
struct QuestJsonWriter {}

impl QuestJsonWriter {
    ghost use Rattle.test_nested_parts.specs.declared.quest.Quest.{All as Quest-All};
    ghost use Rattle.test_nested_parts.specs.QuestJsonCodecs.{quest_json, quest_json_content_all};

    /// Appends the fields of `All`. If the write fails, what was written so far is left.
    #[cycle(write_quest_json)]
    fn append_all_fields(
        value: &Quest,
        v0: &Vec<Quest>,
        v1: &Vec<Mode>,
        v2: &Option<Mode>,
        alloc: Global,
        d: usize,
        s: &mut SerJsonState,
    ) -> Result<(), AllocError>
        requires { value.now ≡ Quest-All v0.now v1.now v2.now }
        ensures ok { OnOk result (Appends s.old.out s.new.out
            ((quest_json_content_all.codec quest_json).canonical.text d (v0.now, (v1.now, v2.now)))) }
        ensures err { OnErr result (AppendsPart s.old.out s.new.out) }
    {
        s.st_pre()?;
        let inner = d.saturating_add(1);
        let modes_is_first = append_required_within(alloc, "quests", v0, true, inner, s)?;
        let mode_is_first = Required::<QuestAllNames<1>, Vec<Mode>>::append_fields(
            &v1,
            alloc,
            modes_is_first,
            inner,
            s,
        )?;
        Optional::<QuestAllNames<2>, Mode>::append_fields(&v2, alloc, mode_is_first, inner, s)?;
        s.st_post(d)
    }

    /// Appends `All` with its fields. If the write fails, what was written so far is left.
    #[cycle(write_quest_json)]
    fn append_all(
        value: &Quest,
        v0: &Vec<Quest>,
        v1: &Vec<Mode>,
        v2: &Option<Mode>,
        alloc: Global,
        d: usize,
        s: &mut SerJsonState,
    ) -> Result<(), AllocError>
        requires { value.now ≡ Quest-All v0.now v1.now v2.now }
        ensures ok { OnOk result (Appends s.old.out s.new.out
            (content_text (codes "All")
            ((quest_json_content_all.codec quest_json).canonical.text d (v0.now, (v1.now, v2.now))))) }
        ensures err { OnErr result (AppendsPart s.old.out s.new.out) }
    {
        s.st_pre()?;
        "All".ser_json(alloc, 0, s)?;
        s.out.push_str(":")?;
        Self::append_all_fields(value, v0, v1, v2, alloc, d, s)?;
        s.st_post(d)
    }

    /// Appends `All` with its fields. If the write fails, `s.out` is unchanged.
    #[cycle(write_quest_json)]
    fn write_all(
        value: &Quest,
        v0: &Vec<Quest>,
        v1: &Vec<Mode>,
        v2: &Option<Mode>,
        alloc: Global,
        d: usize,
        s: &mut SerJsonState,
    ) -> Result<(), AllocError>
        requires { value.now ≡ Quest-All v0.now v1.now v2.now }
        ensures ok { OnOk result (Appends s.old.out s.new.out
            (content_text (codes "All")
            ((quest_json_content_all.codec quest_json).canonical.text d (v0.now, (v1.now, v2.now))))) }
        ensures err { OnErr result (Unchanged s.old.out s.new.out) }
    {
        let start = s.out.len();
        let written = Self::append_all(value, v0, v1, v2, alloc, d, s);
        rollback_on_error(&mut s.out, start, written)
    }
}

impl WritesJson for Quest {
    #[cycle(write_quest_json)]
    #[tactic(auto, using(crate::proofs::QuestJsonCodecsLaws::quest_json_texts))]
    fn write_json(&self, alloc: Global, d: usize, s: &mut SerJsonState) -> Result<(), AllocError> {
        match self {
            Self::Win(first) => write_variant_other(alloc, "Win", first, d, s),
            Self::Bring(first, second) => {
                let first = &nano_json_schema::Part { of: first };
                write_pair_within(alloc, "Bring", first, second, d, s)
            }
            Self::All {
                quests: v0,
                modes: v1,
                mode: v2,
            } => QuestJsonWriter::write_all(self, v0, v1, v2, alloc, d, s),
            Self::Find(first) => write_variant_other(alloc, "Find", first, d, s),
        }
    }
}

impl SerJson for Quest {
    fn ser_json(&self, alloc: Global, d: usize, s: &mut SerJsonState) -> Result<(), AllocError> {
        WritesJson::write_json(self, alloc, d, s)
    }
}

impl ReadsJson<Quest> for Levels {
    #[cycle(read)]
    fn read_json(
        &self,
        left: usize,
        alloc: Global,
        state: &mut DeJsonState,
        input: &mut Chars<'_>,
    ) -> Result<Quest, DeJsonErr> {
        if left == 0 {
            return Err(too_deep(alloc, state));
        }
        let Levels::More(below) = self else {
            return Err(no_levels(alloc, state));
        };
        let Some(below) = below.first() else {
            return Err(no_levels(alloc, state));
        };
        match read_choice_json_within::<Levels, QuestJsonVariants>(
            below,
            left - 1,
            alloc,
            state,
            input,
        ) {
            Ok(values) => Ok(Quest::make(values)),
            Err(error) => Err(error),
        }
    }
}

impl DeJson for Quest {
    fn de_json(
        alloc: Global,
        state: &mut DeJsonState,
        input: &mut Chars<'_>,
    ) -> Result<Self, DeJsonErr> {
        let levels = Levels::most();
        ReadsJson::<Self>::read_json(levels, 128, alloc, state, input)
    }
}

// ---- RON

impl RonCodec for Quest {
    ghost use Rattle.test_nested_parts.specs.QuestRonCodecs.{quest_ron};

    ghost ron = { quest_ron };

    ghost agrees = { agreed };
}

impl NestedRon for Quest {
    ghost use Rattle.test_nested_parts.specs.QuestCodecs.{quest_means};
    ghost use Rattle.test_nested_parts.specs.QuestRonCodecs.{quest_ron_at};

    ghost means = { quest_means };

    ghost at = { quest_ron_at };
}

/// What writes the variants of `Quest` with named fields as RON.
struct QuestRonWriter {}

impl QuestRonWriter {
    ghost use Rattle.test_nested_parts.specs.declared.quest.Quest.{All as Quest-All};
    ghost use Rattle.test_nested_parts.specs.QuestRonCodecs.{quest_ron_of_all};

    /// Appends `All`. If the write fails, what was written so far is left.
    #[cycle(write_quest_ron)]
    fn append_all(
        value: &Quest,
        v0: &Vec<Quest>,
        v1: &Vec<Mode>,
        v2: &Option<Mode>,
        alloc: Global,
        d: usize,
        s: &mut SerRonState,
    ) -> Result<(), AllocError>
        requires { value.now ≡ Quest-All v0.now v1.now v2.now }
        ensures ok { OnOk result
            (Appends s.old.out s.new.out (quest_ron_of_all d v0.now v1.now v2.now)) }
        ensures err { OnErr result (AppendsPart s.old.out s.new.out) }
    {
        nano_ron_schema::write_unit_variant("All", s)?;
        s.st_pre()?;
        let inner = d.saturating_add(1);
        nano_ron_nested::append_required_within(alloc, "quests", v0, inner, s)?;
        append_required(alloc, "modes", v1, inner, s)?;
        append_optional(alloc, "mode", v2, inner, s)?;
        s.st_post(d)
    }

    /// Appends `All`. If the write fails, the text is unchanged.
    #[cycle(write_quest_ron)]
    fn write_all(
        value: &Quest,
        v0: &Vec<Quest>,
        v1: &Vec<Mode>,
        v2: &Option<Mode>,
        alloc: Global,
        d: usize,
        s: &mut SerRonState,
    ) -> Result<(), AllocError>
        requires { value.now ≡ Quest-All v0.now v1.now v2.now }
        ensures ok { OnOk result
            (Appends s.old.out s.new.out (quest_ron_of_all d v0.now v1.now v2.now)) }
        ensures err { OnErr result (Unchanged s.old.out s.new.out) }
    {
        let start = s.out.len();
        let written = Self::append_all(value, v0, v1, v2, alloc, d, s);
        nano_ron_nested::rollback_on_error(&mut s.out, start, written)
    }
}

impl WritesRon for Quest {
    #[cycle(write_quest_ron)]
    #[tactic(auto, using(crate::proofs::QuestRonCodecsLaws::quest_ron_texts))]
    fn write_ron(&self, alloc: Global, d: usize, s: &mut SerRonState) -> Result<(), AllocError> {
        match self {
            Self::Win(first) => nano_ron_nested::write_variant_other(alloc, "Win", first, d, s),
            Self::Bring(first, second) => {
                let first = &nano_ron_schema::Part { of: first };
                nano_ron_nested::write_pair_within(alloc, "Bring", first, second, d, s)
            }
            Self::All {
                quests: v0,
                modes: v1,
                mode: v2,
            } => QuestRonWriter::write_all(self, v0, v1, v2, alloc, d, s),
            Self::Find(first) => nano_ron_nested::write_variant_other(alloc, "Find", first, d, s),
        }
    }
}

impl SerRon for Quest {
    fn ser_ron(&self, alloc: Global, d: usize, s: &mut SerRonState) -> Result<(), AllocError> {
        WritesRon::write_ron(self, alloc, d, s)
    }
}

impl ReadsRon<Quest> for Levels {
    #[cycle(read)]
    fn read_ron(
        &self,
        left: usize,
        alloc: Global,
        state: &mut DeRonState,
        input: &mut Chars<'_>,
    ) -> Result<Quest, DeRonErr> {
        if left == 0 {
            return Err(nano_ron_nested::too_deep(alloc, state));
        }
        let Levels::More(below) = self else {
            return Err(nano_ron_nested::no_levels(alloc, state));
        };
        let Some(below) = below.first() else {
            return Err(nano_ron_nested::no_levels(alloc, state));
        };
        match read_choice_ron_within::<Levels, QuestVariants>(
            below,
            left - 1,
            alloc,
            state,
            input,
        ) {
            Ok(values) => Ok(Quest::make(values)),
            Err(error) => Err(error),
        }
    }
}

impl DeRon for Quest {
    fn de_ron(
        alloc: Global,
        state: &mut DeRonState,
        input: &mut Chars<'_>,
    ) -> Result<Self, DeRonErr> {
        let levels = Levels::most();
        ReadsRon::<Self>::read_ron(levels, 128, alloc, state, input)
    }
}
