//! The variants with named fields of enums that contain themselves, in JSON: what writes each.

use crate::output::nested_json::import_outcomes;
use crate::output::nested_json_fields::json_fields;
use crate::output::nested_names::{put_variant, specs_of, writer_cycle};
use crate::output::nested_parameters::{given_term, writer_bounds};
use crate::output::nested_text::{JSON, TextNames, writer_of};
use derive_impls::layout::Items;
use derive_impls::rows::{Leaf, paired};
use derive_impls::sheet::Sheet;
use derive_impls::target::Target;
use derive_impls::types::type_text;
use derive_impls::variants::bracketed;
use derive_syntax::{Case, Content, Field, Holes, Variant, variant_name};
use std::alloc::{AllocError, Global};

const CONTENT: &str = "
impl $WRITER {
$BROUGHT    ghost use Rattle.$TEXTS.{$JSON, $CONTENT};

    /// Appends the fields of `$NAME`. If the write fails, what was written so far is left.
    #[cycle($CYCLE)]
    $INNER
        requires { value.now ≡ $WHOLE }
        ensures ok { OnOk result (Appends s.old.out s.new.out
            (($LAID.codec $IS_WRITTEN).canonical.text d $VALUE)) }
        ensures err { OnErr result (AppendsPart s.old.out s.new.out) }
    {
        s.st_pre()?;
        let inner = d.saturating_add(1);
$FIELDS        s.st_post(d)
    }

    /// Appends `$NAME` with its fields. If the write fails, what was written so far is left.
    #[cycle($CYCLE)]
    $MIDDLE
        requires { value.now ≡ $WHOLE }
        ensures ok { OnOk result (Appends s.old.out s.new.out
            (content_text (codes \"$KEY\")
            (($LAID.codec $IS_WRITTEN).canonical.text d $VALUE))) }
        ensures err { OnErr result (AppendsPart s.old.out s.new.out) }
    {
        s.st_pre()?;
        \"$KEY\".ser_json(alloc, 0, s)?;
        s.out.push_str(\":\")?;
        Self::append_$OF_fields(value, $ARGUMENTSalloc, d, s)?;
        s.st_post(d)
    }

    /// Appends `$NAME` with its fields. If the write fails, `s.out` is unchanged.
    #[cycle($CYCLE)]
    $OUTER
        requires { value.now ≡ $WHOLE }
        ensures ok { OnOk result (Appends s.old.out s.new.out
            (content_text (codes \"$KEY\")
            (($LAID.codec $IS_WRITTEN).canonical.text d $VALUE))) }
        ensures err { OnErr result (Unchanged s.old.out s.new.out) }
    {
        let start = s.out.len();
        let written = Self::append_$OF(value, $ARGUMENTSalloc, d, s);
        nano_json_nested::rollback_on_error(&mut s.out, start, written)
    }
}";

/// Appends what writes each variant that has named fields, and says whether there is one. Given is
/// how what each variant holds stands in its row.
pub(crate) fn append_contents<'a>(
    sheet: &mut Sheet,
    target: &Target<'a>,
    variants: &[Variant<'a>],
    contents: &[Vec<Leaf>],
) -> Result<bool, AllocError> {
    let is_there = append_writer(sheet, target, variants, JSON);
    for (variant, leaves) in variants.iter().zip(contents) {
        if let Content::Fields(fields) = &variant.content {
            append_content(sheet, target, variant, (fields, leaves))?;
        }
    }
    Ok(is_there)
}

const WRITER: &str = "
/// What writes the variants of `$TYPE` with named fields as $TITLE.
struct $WRITER {}";

/// Appends what the functions stand in that write variants with named fields in a format, if there
/// are such, and says whether there are.
pub(crate) fn append_writer<'a>(
    sheet: &mut Sheet,
    target: &Target<'a>,
    variants: &[Variant<'a>],
    format: TextNames,
) -> bool {
    let alloc = sheet.alloc;
    for variant in variants {
        if let Content::Fields(_fields) = &variant.content {
            let writer = sheet.made(writer_of(alloc, target, format));
            let mut holes = target.holes(alloc);
            holes.put("TITLE", format.title);
            holes.put("WRITER", writer.as_str());
            sheet.write(WRITER, &holes);
            return true;
        }
    }
    false
}

/// Appends what writes a variant that has these fields, which stand so in their row.
fn append_content<'a>(
    sheet: &mut Sheet,
    target: &Target<'a>,
    variant: &Variant<'a>,
    (fields, leaves): (&[Field<'a>], &[Leaf]),
) -> Result<(), AllocError> {
    let alloc = sheet.alloc;
    import_outcomes(sheet);
    sheet.import("ghost use Rattle.nano_text.specs.Outcomes.{Unchanged};");
    sheet.import("ghost use Rattle.nano_json_schema.specs.Variants.{content_text};");
    sheet.import("ghost use Rattle.std.specs.Prelude.{◌≡◌};");
    let mut holes = value_holes(alloc, fields)?;
    put_variant(&mut holes, alloc, target, (variant, fields.len()))?;
    let of = Case::Snake.of_variant(alloc, target.name.text)?;
    let end = Case::Snake.of_variant(alloc, variant.name.text)?;
    let content = sheet.made(format!(in alloc; "{of}_json_content_{end}"));
    let lines = json_fields(sheet, target, fields, (leaves, "v"))?;
    holes.put_made("TEXTS", specs_of(alloc, target.module, "Json"));
    holes.put("FIELDS", lines.as_str());
    let root = Case::Snake.of_variant(alloc, target.root.text)?;
    let codec = sheet.made(format!(in alloc; "{root}_json"));
    let written = sheet.made(given_term(alloc, target, codec.as_str(), JSON.name));
    let laid = sheet.made(given_term(alloc, target, content.as_str(), JSON.name));
    holes.put("IS_WRITTEN", written.as_str());
    holes.put("LAID", laid.as_str());
    holes.put("JSON", codec.as_str());
    holes.put("CONTENT", content.as_str());
    holes.put("NAME", variant.name.text);
    holes.put_made("KEY", variant_name(alloc, variant, None));
    let inner = sheet.made(format!(in alloc; "append_{end}_fields"));
    let middle = sheet.made(format!(in alloc; "append_{end}"));
    let outer = sheet.made(format!(in alloc; "write_{end}"));
    holes.put_made("WRITER", writer_of(alloc, target, JSON));
    holes.put_made("INNER", head(sheet, target, inner.as_str(), fields));
    holes.put_made("MIDDLE", head(sheet, target, middle.as_str(), fields));
    holes.put_made("OUTER", head(sheet, target, outer.as_str(), fields));
    holes.put("OF", end.as_str());
    holes.put_made("CYCLE", writer_cycle(alloc, target, JSON.name));
    sheet.write(CONTENT, &holes);
    Ok(())
}

/// The holes that the values of fields stand in: as arguments, and as nested pairs.
fn value_holes<'a>(alloc: Global, fields: &[Field<'a>]) -> Result<Holes, AllocError> {
    let mut values = Vec::new(alloc);
    let mut arguments = String::new(alloc);
    for i in 0..fields.len() {
        arguments.push_str(format!(in alloc; "v{i}, ")?.as_str())?;
        values.push(format!(in alloc; "v{i}.now")?)?;
    }
    let mut holes = Holes::new(alloc);
    holes.put("ARGUMENTS", arguments.as_str());
    holes.put(
        "VALUE",
        paired(alloc, values, Items::Patterns, 4, 4)?.flat.as_str(),
    );
    Ok(holes)
}

/// The head of a function of this name, which takes a value and the values of its fields.
fn head<'a>(
    sheet: &mut Sheet,
    target: &Target<'a>,
    name: &str,
    fields: &[Field<'a>],
) -> Result<String, AllocError> {
    let alloc = sheet.alloc;
    let mut parameters = Vec::new(alloc);
    let item = sheet.made(format!(in alloc; "value: &{}", target.full));
    sheet.push(&mut parameters, item);
    for (i, field) in fields.iter().enumerate() {
        let of = sheet.made(type_text(alloc, field.of));
        let item = sheet.made(format!(in alloc; "v{i}: &{of}"));
        sheet.push(&mut parameters, item);
    }
    parameters.push(sheet.short("alloc: std::alloc::Global"))?;
    let item = sheet.made(String::from_str(alloc, "d: usize"));
    sheet.push(&mut parameters, item);
    parameters.push(sheet.short("s: &mut nano_json_schema::SerJsonState"))?;
    let bounds = writer_bounds(sheet, target, JSON.name)?;
    let open = sheet.made(format!(in alloc; "fn {name}{bounds}("));
    let close = sheet.short(") -> Result<(), std::alloc::AllocError>");
    let brackets = (open.as_str(), close.as_str());
    Ok(bracketed(alloc, brackets, &parameters, Items::Patterns, (4, 4))?.laid)
}
