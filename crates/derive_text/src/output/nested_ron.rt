//! Types that contain themselves, in RON: what writes them variant by variant or field by field, and
//! what reads them within levels.

use crate::output::nested_json::{CHOICE, CODEC, RECORD, choice_cycle, import_outcomes, reader_of};
use crate::output::nested_json_variants::arms;
use crate::output::nested_names::writer_cycle;
use crate::output::nested_ron_contents::append_contents;
use crate::output::nested_ron_steps::field_steps;
use crate::output::nested_text::{RON, in_ron, reading, text_holes};
use derive_impls::sheet::Sheet;
use derive_impls::target::Target;
use derive_syntax::{Field, Holes, Variant};
use std::alloc::{AllocError, Global};

/// Appends the impls of RON of an enum.
pub(crate) fn append_ron_choice<'a>(
    sheet: &mut Sheet,
    target: &Target<'a>,
    variants: &[Variant<'a>],
) -> Result<(), AllocError> {
    let alloc = sheet.alloc;
    let mut holes = text_holes(sheet, target, RON)?;
    let call = reading(sheet, RON, target, (target.row.as_str(), "choice"))?;
    holes.put("CALL", call.as_str());
    sheet.write(in_ron(alloc, CODEC)?.as_str(), &holes);
    let has_writer = append_contents(sheet, target, variants)?;
    holes.put_made(
        "AROUND",
        choice_cycle(alloc, target, (RON.name, has_writer)),
    );
    holes.put_made("ARMS", arms(sheet, target, variants, RON));
    sheet.write(in_ron(alloc, CHOICE)?.as_str(), &holes);
    append_reader(sheet, target, &holes)
}

/// Appends what writes and reads a type.
fn append_reader<'a>(
    sheet: &mut Sheet,
    target: &Target<'a>,
    holes: &Holes,
) -> Result<(), AllocError> {
    let alloc = sheet.alloc;
    for template in reader_of(target) {
        sheet.write(in_ron(alloc, template)?.as_str(), holes);
    }
    Ok(())
}

/// Appends the impls of RON of a struct.
pub(crate) fn append_ron_record<'a>(
    sheet: &mut Sheet,
    target: &Target<'a>,
    fields: &[Field<'a>],
) -> Result<(), AllocError> {
    import_outcomes(sheet);
    let alloc = sheet.alloc;
    let mut holes = text_holes(sheet, target, RON)?;
    let call = reading(sheet, RON, target, (target.row.as_str(), "record"))?;
    holes.put("CALL", call.as_str());
    holes.put_made("CYCLE", writer_cycle(alloc, target, RON.name));
    let steps = field_steps(sheet, target, fields, true)?;
    holes.put("FIELDS", steps.as_str());
    sheet.write(in_ron(alloc, CODEC)?.as_str(), &holes);
    sheet.write(in_ron(alloc, RECORD)?.as_str(), &holes);
    append_reader(sheet, target, &holes)
}
