//! Types that contain themselves, in JSON: what writes them variant by variant or field by field,
//! and what reads them within levels.

use crate::output::nested_json_contents::append_contents;
use crate::output::nested_json_variants::{arms, json_variants};
use crate::output::nested_names::writer_cycle;
use crate::output::nested_rows::NestedRow;
use crate::output::nested_text::{JSON, reading, text_holes};
use derive_impls::sheet::Sheet;
use derive_impls::target::Target;
use derive_syntax::Variant;
use std::alloc::{AllocError, Global};

pub(crate) const CODEC: &str = "
// ---- JSON

impl$BY_CODEC nano_json_schema::JsonCodec for $FULL {
    ghost use Rattle.$TEXTS.{$OWN$AND_LAW};

    ghost json = { $IS_CODED };

    ghost agrees = { $AGREED };
}

impl$BY_NESTED nano_json_nested::NestedJson for $FULL {
    ghost use Rattle.$SPECS.{$MEANS};
    ghost use Rattle.$TEXTS.{$AT};

    ghost means = { $SAYS };

    ghost at = { $CODES };
}";

pub(crate) const CHOICE: &str = "
impl$BY_SER nano_json_nested::WritesJson for $FULL {
$AROUND    #[tactic(auto, using($RULES_json_texts))]
    fn write_json(&self, alloc: std::alloc::Global, d: usize, \
        s: &mut nano_json_schema::SerJsonState) -> Result<(), std::alloc::AllocError> {
        match self {
$ARMS        }
    }
}";

// A line outside an impl would bring the definitions of this type into the impls of the other types
// of the file, which these definitions may cite. So what cites them stands in an impl.
pub(crate) const RECORD: &str = "
/// What writes `$TYPE` as JSON.
struct $WRITER {}

impl $WRITER {
    ghost use Rattle.$TEXTS.{$OWN};

    /// Appends the fields between braces. If the write fails, what was written so far is left.
    #[cycle($CYCLE)]
    fn append_record$BY_SER(
        value: &$FULL,
        alloc: std::alloc::Global,
        d: usize,
        s: &mut nano_json_schema::SerJsonState,
    ) -> Result<(), std::alloc::AllocError>
        ensures ok { OnOk result
            (Appends s.old.out s.new.out ($IS_WRITTEN.canonical.text d value.now)) }
        ensures err { OnErr result (AppendsPart s.old.out s.new.out) }
    {
        s.st_pre()?;
        let inner = d.saturating_add(1);
$FIELDS        s.st_post(d)
    }
}

impl$BY_SER nano_json_nested::WritesJson for $FULL {
    #[cycle($CYCLE)]
    fn write_json(&self, alloc: std::alloc::Global, d: usize, \
        s: &mut nano_json_schema::SerJsonState) -> Result<(), std::alloc::AllocError> {
        let start = s.out.len();
        let written = $WRITER::append_record(self, alloc, d, s);
        nano_json_nested::rollback_on_error(&mut s.out, start, written)
    }
}";

pub(crate) const WRITER: &str = "
impl$BY_SER nano_json_schema::SerJson for $FULL {
    fn ser_json(&self, alloc: std::alloc::Global, d: usize, \
        s: &mut nano_json_schema::SerJsonState) -> Result<(), std::alloc::AllocError> {
        nano_json_nested::WritesJson::write_json(self, alloc, d, s)
    }
}";

pub(crate) const LEVELS: &str = "
impl$BY_LEVELS nano_json_nested::ReadsJson<$FULL> for nano_levels::Levels {
    #[cycle($IN_READ)]
    fn read_json(&self, left: usize, alloc: std::alloc::Global, \
        state: &mut nano_json_schema::DeJsonState, input: &mut std::str::Chars<'_>) \
        -> Result<$FULL, nano_json_schema::DeJsonErr> {
        if left == 0 {
            return Err($DEEP);
        }
        let nano_levels::Levels::More(below) = self else {
            return Err(nano_json_nested::no_levels(alloc, state));
        };
        let Some(below) = below.first() else {
            return Err(nano_json_nested::no_levels(alloc, state));
        };
        match $CALL {
            Ok(values) => Ok($TYPE::make(values)),
            Err(error) => Err(error),
        }
    }
}";

// It is no level of its own: as many may follow of the values of the root.
pub(crate) const AROUND: &str = "
impl$BY_LEVELS nano_json_nested::ReadsJson<$FULL> for nano_levels::Levels {
    #[cycle($IN_READ)]
    fn read_json(&self, left: usize, alloc: std::alloc::Global, \
        state: &mut nano_json_schema::DeJsonState, input: &mut std::str::Chars<'_>) \
        -> Result<$FULL, nano_json_schema::DeJsonErr> {
        match $CALL {
            Ok(values) => Ok($TYPE::make(values)),
            Err(error) => Err(error),
        }
    }
}";

pub(crate) const READER: &str = "
impl$BY_DE nano_json_schema::DeJson for $FULL {
    fn de_json(alloc: std::alloc::Global, state: &mut nano_json_schema::DeJsonState, \
        input: &mut std::str::Chars<'_>) -> Result<Self, nano_json_schema::DeJsonErr> {
        let levels = nano_levels::Levels::most();
        nano_json_nested::ReadsJson::<Self>::read_json(levels, $LIMIT, alloc, state, input)
    }
}";

/// The templates of what writes and reads a type: as a level, or around the one whose levels are
/// counted.
pub(crate) fn reader_of<'a>(target: &Target<'a>) -> [&'static str; 3] {
    if target.is_around() {
        [WRITER, AROUND, READER]
    } else {
        [WRITER, LEVELS, READER]
    }
}

/// Appends the impls of JSON of an enum, whose variants stand so in their row.
pub(crate) fn append_json_choice<'a>(
    sheet: &mut Sheet,
    target: &Target<'a>,
    variants: &[Variant<'a>],
    row: &NestedRow,
) -> Result<(), AllocError> {
    let alloc = sheet.alloc;
    let mut holes = text_holes(sheet, target, JSON)?;
    sheet.write(CODEC, &holes);
    let full = json_variants(sheet, target, variants, &row.leaves)?;
    let call = reading(sheet, JSON, target, (full.as_str(), "choice"))?;
    holes.put("CALL", call.as_str());
    let has_writer = append_contents(sheet, target, variants, &row.contents)?;
    holes.put_made(
        "AROUND",
        choice_cycle(alloc, target, (JSON.name, has_writer)),
    );
    holes.put_made("ARMS", arms(sheet, target, variants, JSON));
    sheet.write(CHOICE, &holes);
    for template in reader_of(target) {
        sheet.write(template, &holes);
    }
    Ok(())
}

/// The line that says which functions call each other that write an enum in a format, if it has
/// a writer of its own for variants, or is one of several types.
pub(crate) fn choice_cycle<'a>(
    alloc: Global,
    target: &Target<'a>,
    (format, has_writer): (&str, bool),
) -> Result<String, AllocError> {
    if !has_writer && !target.is_one_of_several() {
        return Ok(String::new(alloc));
    }
    format!(in alloc; "    #[cycle({})]\n", writer_cycle(alloc, target, format)?)
}

/// Appends the impls of JSON of a struct, given what writes its fields.
pub(crate) fn append_json_record<'a>(
    sheet: &mut Sheet,
    target: &Target<'a>,
    fields: &str,
) -> Result<(), AllocError> {
    import_outcomes(sheet);
    let alloc = sheet.alloc;
    let mut holes = text_holes(sheet, target, JSON)?;
    let call = reading(sheet, JSON, target, (target.row.as_str(), "record"))?;
    holes.put("CALL", call.as_str());
    holes.put_made("CYCLE", writer_cycle(alloc, target, JSON.name));
    holes.put("FIELDS", fields);
    sheet.write(CODEC, &holes);
    sheet.write(RECORD, &holes);
    for template in reader_of(target) {
        sheet.write(template, &holes);
    }
    Ok(())
}

/// Brings in what is said of calls that append.
pub(crate) fn import_outcomes(sheet: &mut Sheet) {
    sheet.import("ghost use Rattle.std.specs.Prelude.{OnOk};");
    sheet.import("ghost use Rattle.std.specs.Prelude.{OnErr};");
    sheet.import("ghost use Rattle.nano_text.specs.Outcomes.{Appends};");
    sheet.import("ghost use Rattle.nano_text.specs.Outcomes.{AppendsPart};");
}
