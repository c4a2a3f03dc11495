//! The variants with named fields of enums that contain themselves, in RON: what writes each.

use crate::output::nested_json::import_outcomes;
use crate::output::nested_json_contents::append_writer;
use crate::output::nested_names::{put_variant, specs_of, writer_cycle};
use crate::output::nested_parameters::{given, writer_bounds};
use crate::output::nested_ron_steps::field_steps;
use crate::output::nested_text::{RON, writer_of};
use derive_impls::sheet::Sheet;
use derive_impls::target::Target;
use derive_impls::types::type_text;
use derive_syntax::{Case, Content, Field, Holes, Variant, variant_name};
use std::alloc::{AllocError, Global};

const CONTENT: &str = "
impl $WRITER {
$BROUGHT    ghost use Rattle.$TEXTS.{$OWN};

    /// Appends `$CASE`. If the write fails, what was written so far is left.
    #[cycle($CYCLE)]
    fn append_$END$BY_SER(
        value: &$TYPE,
$ARGUMENTS        alloc: std::alloc::Global,
        d: usize,
        s: &mut nano_ron_schema::SerRonState,
    ) -> Result<(), std::alloc::AllocError>
        requires { value.now ≡ $WHOLE }
        ensures ok { OnOk result
            (Appends s.old.out s.new.out ($IS_CODED d$SAID)) }
        ensures err { OnErr result (AppendsPart s.old.out s.new.out) }
    {
$STEPS    }

    /// Appends `$CASE`. If the write fails, the text is unchanged.
    #[cycle($CYCLE)]
    fn write_$END$BY_SER(
        value: &$TYPE,
$ARGUMENTS        alloc: std::alloc::Global,
        d: usize,
        s: &mut nano_ron_schema::SerRonState,
    ) -> Result<(), std::alloc::AllocError>
        requires { value.now ≡ $WHOLE }
        ensures ok { OnOk result
            (Appends s.old.out s.new.out ($IS_CODED d$SAID)) }
        ensures err { OnErr result (Unchanged s.old.out s.new.out) }
    {
        let start = s.out.len();
        let written = Self::append_$END(value, $GIVENalloc, d, s);
        nano_ron_nested::rollback_on_error(&mut s.out, start, written)
    }
}";

/// Appends what writes each variant that has named fields, and says whether there is one.
pub(crate) fn append_contents<'a>(
    sheet: &mut Sheet,
    target: &Target<'a>,
    variants: &[Variant<'a>],
) -> Result<bool, AllocError> {
    let is_there = append_writer(sheet, target, variants, RON);
    for variant in variants {
        if let Content::Fields(fields) = &variant.content {
            append_content(sheet, target, variant, fields)?;
        }
    }
    Ok(is_there)
}

/// Appends what writes a variant that has these fields.
fn append_content<'a>(
    sheet: &mut Sheet,
    target: &Target<'a>,
    variant: &Variant<'a>,
    fields: &[Field<'a>],
) -> Result<(), AllocError> {
    import_outcomes(sheet);
    sheet.import("ghost use Rattle.nano_text.specs.Outcomes.{Unchanged};");
    sheet.import("ghost use Rattle.std.specs.Prelude.{◌≡◌};");
    let alloc = sheet.alloc;
    let name = Case::Snake.of_variant(alloc, target.name.text)?;
    let end = Case::Snake.of_variant(alloc, variant.name.text)?;
    let mut holes = Holes::new(alloc);
    put_arguments(&mut holes, alloc, fields)?;
    put_variant(&mut holes, alloc, target, (variant, fields.len()))?;
    let steps = steps_of(sheet, target, variant, fields)?;
    let texts = sheet.made(specs_of(alloc, target.module, RON.word));
    holes.put("TEXTS", texts.as_str());
    let own = sheet.made(format!(in alloc; "{name}_ron_of_{end}"));
    let bounds = writer_bounds(sheet, target, RON.name)?;
    holes.put("BY_SER", bounds.as_str());
    holes.put_made("IS_CODED", given(alloc, target, own.as_str(), RON.name));
    holes.put("OWN", own.as_str());
    holes.put("TYPE", target.full.as_str());
    holes.put("CASE", variant.name.text);
    holes.put_made("CYCLE", writer_cycle(alloc, target, RON.name));
    holes.put_made("WRITER", writer_of(alloc, target, RON));
    holes.put("END", end.as_str());
    holes.put("STEPS", steps.as_str());
    sheet.write(CONTENT, &holes);
    Ok(())
}

/// Adds the values of fields as arguments, as what is passed, and as a clause says them.
fn put_arguments<'a>(
    holes: &mut Holes,
    alloc: Global,
    fields: &[Field<'a>],
) -> Result<(), AllocError> {
    let mut arguments = String::new(alloc);
    let mut given = String::new(alloc);
    let mut said = String::new(alloc);
    for (i, field) in fields.iter().enumerate() {
        let of = type_text(alloc, field.of)?;
        arguments.push_str(format!(in alloc; "        v{i}: &{of},\n")?.as_str())?;
        given.push_str(format!(in alloc; "v{i}, ")?.as_str())?;
        said.push_str(format!(in alloc; " v{i}.now")?.as_str())?;
    }
    holes.put("ARGUMENTS", arguments.as_str());
    holes.put("GIVEN", given.as_str());
    holes.put("SAID", said.as_str());
    Ok(())
}

/// The steps that append a variant that has these fields.
fn steps_of<'a>(
    sheet: &mut Sheet,
    target: &Target<'a>,
    variant: &Variant<'a>,
    fields: &[Field<'a>],
) -> Result<String, AllocError> {
    let alloc = sheet.alloc;
    let called = variant_name(alloc, variant, None)?;
    let call = sheet.made(format!(in alloc;
        "nano_ron_schema::write_unit_variant(\"{called}\", s)"
    ));
    let call = sheet.short(call.as_str());
    let steps = field_steps(sheet, target, fields, false)?;
    format!(in alloc;
        "        {call}?;
        s.st_pre()?;
        let inner = d.saturating_add(1);
{steps}        s.st_post(d)
"
    )
}
