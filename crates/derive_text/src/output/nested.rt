//! Types that contain themselves: their schema, and as bytes what writes them part by part, and what
//! reads them within levels. Their codecs stand in a file of definitions.

use crate::output::nested_bodies::{known_arms, known_fields};
use crate::output::nested_json::{append_json_choice, append_json_record};
use crate::output::nested_json_fields::json_fields;
use crate::output::nested_names::{cycle_line, nested_holes, put_codec, put_laws, reader_cycle};
use crate::output::nested_parameters::{given, put_bounds, put_read};
use crate::output::nested_ron::{append_ron_choice, append_ron_record};
use crate::output::nested_rows::{NestedRow, append_choice_row, append_record_row};
use crate::output::nested_writes::{write_arms, write_fields};
use derive_impls::layout::{Brackets, Items, Piece, list};
use derive_impls::sheet::Sheet;
use derive_impls::target::Target;
use derive_syntax::{
    Case, Content, Cycle, Definition, Fault, Field, Holes, Shape, Source, Variant,
};
use std::alloc::{AllocError, Global};

/// What differs between structs and enums.
struct Kind {
    /// The trait of the schema.
    schema: &'static str,
    /// What reads one.
    read: &'static str,
    /// Whether it is that of enums.
    is_enum: bool,
}

const RECORD: Kind = Kind {
    schema: "nano_schema::StructSchema",
    read: "read_record_within",
    is_enum: false,
};

const CHOICE: Kind = Kind {
    schema: "nano_schema::EnumSchema",
    read: "read_choice_within",
    is_enum: true,
};

/// Appends the impls of a type of a source that contains itself, by these types.
pub(crate) fn append_nested<'a>(
    sheet: &mut Sheet,
    module: &'a str,
    (source, definition): (&Source<'a>, &Definition<'a>),
    cycle: Cycle<'a>,
) -> Result<(), Fault> {
    let mut target = Target::nested(sheet, module, definition)?;
    for other in &source.definitions {
        if cycle.is_root(other.name) {
            target.counted = other.attributes;
        }
    }
    target.root = cycle.root;
    target.cycle = cycle.names;
    match &definition.shape {
        Shape::Parts(_parts) => Ok(()),
        Shape::Fields(fields) => append_record(sheet, &target, fields),
        Shape::Variants(variants) => append_choice(sheet, &target, variants),
    }
}

/// Appends the impls of a struct.
fn append_record<'a>(
    sheet: &mut Sheet,
    target: &Target<'a>,
    fields: &[Field<'a>],
) -> Result<(), Fault> {
    let attributes = target.attributes;
    let row = append_record_row(sheet, target, fields)?;
    let known = known_fields(sheet, fields)?;
    let write = if attributes.bin.is_used() {
        write_fields(sheet, target, fields)?
    } else {
        String::new(sheet.alloc)
    };
    append_impls(sheet, target, &RECORD, &row, (&known, &write))?;
    if attributes.json.is_used() {
        let appended = json_fields(sheet, target, fields, (&row.leaves, "&value."))?;
        append_json_record(sheet, target, appended.as_str())?;
    }
    if attributes.ron.is_used() {
        append_ron_record(sheet, target, fields)?;
    }
    Ok(())
}

const NO_FIELDS: &str =
    "has braces with nothing between them, which no variant has of an enum that \
    contains itself: leave them out";

/// An error at a variant that has braces with nothing between them.
fn check_contents<'a>(variants: &[Variant<'a>]) -> Result<(), Fault> {
    for variant in variants {
        if let Content::Fields(fields) = &variant.content {
            if fields.is_empty() {
                return Err(variant.name.fault(NO_FIELDS));
            }
        }
    }
    Ok(())
}

/// Appends the impls of an enum.
fn append_choice<'a>(
    sheet: &mut Sheet,
    target: &Target<'a>,
    variants: &[Variant<'a>],
) -> Result<(), Fault> {
    check_contents(variants)?;
    let attributes = target.attributes;
    let row = append_choice_row(sheet, target, variants)?;
    let known = known_arms(sheet, variants)?;
    let write = if attributes.bin.is_used() {
        write_arms(sheet, target, variants)?
    } else {
        String::new(sheet.alloc)
    };
    append_impls(sheet, target, &CHOICE, &row, (&known, &write))?;
    if attributes.json.is_used() {
        append_json_choice(sheet, target, variants, &row)?;
    }
    if attributes.ron.is_used() {
        append_ron_choice(sheet, target, variants)?;
    }
    Ok(())
}

const SCHEMA: &str = "
impl$BY_NONE $SCHEMA for $FULL {
    ghost use Rattle.$SPECS.{$SEEN};

    type Values = $HELD;

    ghost view = { $SEEN };

$VIEWS    fn make(values: Self::Values) -> Self {
$MAKING    }
}

impl$BY_VALUE nano_schema::Value for $FULL {
$CITED

    ghost means = { $IS_MEANT };

    ghost legal = { $FIRST.encoding.legal };

$LEGAL$IN_KNOWN    fn known(&self) {
$KNOWN    }
}";

const BYTES: &str = "
// ---- bytes

impl$BY_CODEC nano_bin_schema::BinCodec for $FULL {
    ghost use Rattle.$SPECS.{$BIN};

    ghost bin = { $IS_CODED };

    ghost agrees = { agreed };
}

impl$BY_SER nano_bin_nested::WritesBin for $FULL {
    #[tactic(auto, using($LAWS_written_laws))]
$IN_WRITE    fn write_bin(&self, alloc: std::alloc::Global, output: &mut Vec<u8>) \
        -> Result<(), std::alloc::AllocError> {
$WRITE    }
}

impl$BY_SER nano_bin_schema::SerBin for $FULL {
    fn ser_bin(&self, alloc: std::alloc::Global, output: &mut Vec<u8>) \
        -> Result<(), std::alloc::AllocError> {
        nano_bin_nested::WritesBin::write_bin(self, alloc, output)
    }
}";

const LEVELS: &str = "
impl$BY_LEVELS nano_bin_nested::ReadsBin<$FULL> for nano_levels::Levels {
    #[cycle($IN_READ)]
    fn read_bin(&self, alloc: std::alloc::Global, offset: &mut usize, bytes: &[u8]) \
        -> Result<$FULL, nano_bin_schema::DeBinErr> {
        let nano_levels::Levels::More(below) = self else {
            return Err(nano_bin_nested::no_memory(*offset, bytes));
        };
        let Some(below) = below.first() else {
            return Err(nano_bin_nested::no_memory(*offset, bytes));
        };
        $CALL
    }
}";

// It is no level of its own: as many may follow of the values of the root.
const AROUND: &str = "
impl$BY_LEVELS nano_bin_nested::ReadsBin<$FULL> for nano_levels::Levels {
    #[cycle($IN_READ)]
    fn read_bin(&self, alloc: std::alloc::Global, offset: &mut usize, bytes: &[u8]) \
        -> Result<$FULL, nano_bin_schema::DeBinErr> {
        $CALL
    }
}";

const READER: &str = "
impl$BY_DE nano_bin_schema::DeBin for $FULL {
$CITES_READ    ghost is_decodable = { $IS_READ };

    fn de_bin(alloc: std::alloc::Global, offset: &mut usize, bytes: &[u8]) \
        -> Result<Self, nano_bin_schema::DeBinErr> {
        let levels = nano_levels::Levels::$LEVELS;
        nano_bin_nested::ReadsBin::<Self>::read_bin(levels, alloc, offset, bytes)
    }
}";

/// Appends the impls of a type with this row: what its values mean, and bytes if it has them. Given
/// are the bodies of what says that a value is legal, and of what writes it as bytes.
fn append_impls<'a>(
    sheet: &mut Sheet,
    target: &Target<'a>,
    kind: &Kind,
    row: &NestedRow,
    (known, write): (&String, &String),
) -> Result<(), AllocError> {
    let alloc = sheet.alloc;
    let mut holes = nested_holes(sheet, target)?;
    put_laws(&mut holes, alloc, target, kind.is_enum)?;
    put_codec(&mut holes, alloc, target)?;
    holes.put("SCHEMA", sheet.short(kind.schema).as_str());
    holes.put("HELD", row.values.as_str());
    holes.put("MAKING", row.making.as_str());
    holes.put_made("IN_KNOWN", cycle_line(alloc, target, "known", ""));
    holes.put("KNOWN", known.as_str());
    sheet.write(SCHEMA, &holes);
    if target.attributes.bin.is_used() {
        append_bytes(sheet, target, kind, holes, write)?;
    }
    Ok(())
}

/// Appends the impls of bytes, of which the body is given that writes a value.
fn append_bytes<'a>(
    sheet: &mut Sheet,
    target: &Target<'a>,
    kind: &Kind,
    mut holes: Holes,
    write: &String,
) -> Result<(), AllocError> {
    sheet.import("ghost use Rattle.nano_schema.specs.UserTypes.{agreed};");
    let alloc = sheet.alloc;
    let name = Case::Snake.of_variant(alloc, target.name.text)?;
    put_read(&mut holes, sheet, target)?;
    put_bounds(&mut holes, sheet, target, "bin")?;
    holes.put_made("CALL", reading(sheet, target, kind));
    let codec = sheet.made(format!(in alloc; "{name}_codec"));
    holes.put_made("IS_CODED", given(alloc, target, codec.as_str(), "bin"));
    holes.put("BIN", codec.as_str());
    holes.put_made("LEVELS", levels_of(alloc, target));
    holes.put_made("IN_READ", reader_cycle(alloc, target, "bin"));
    holes.put_made("IN_WRITE", cycle_line(alloc, target, "write", "_bin"));
    holes.put("WRITE", write.as_str());
    sheet.write(BYTES, &holes);
    sheet.write(if target.is_around() { AROUND } else { LEVELS }, &holes);
    sheet.write(READER, &holes);
    Ok(())
}

/// The call that gives the levels that are read.
pub(crate) fn levels_of<'a>(alloc: Global, target: &Target<'a>) -> Result<String, AllocError> {
    match target.counted.levels {
        Some(_limit) => format!(in alloc; "at_most({})", target.counted.level_limit()),
        None => String::from_str(alloc, "most()"),
    }
}

/// The call that reads a value: one level below, or of as many levels if it is none of its own.
fn reading<'a>(sheet: &mut Sheet, target: &Target<'a>, kind: &Kind) -> Result<String, AllocError> {
    let alloc = sheet.alloc;
    let open = sheet.made(format!(in alloc;
        "nano_bin_nested::{}::<nano_levels::Levels, {}, {}>(",
        kind.read, target.full, target.row
    ));
    let open = sheet.short(open.as_str());
    let mut arguments = Vec::new(alloc);
    let levels = if target.is_around() { "self" } else { "below" };
    for argument in [levels, "alloc", "offset", "bytes"] {
        arguments.push(Piece::of(alloc, argument)?)?;
    }
    let brackets = Brackets {
        open: open.as_str(),
        close: ")",
        items: Items::Values,
        indent: 8,
        before: 8,
        after: 0,
    };
    Ok(list(alloc, brackets, &arguments)?.laid)
}
