//! The names of fields and variants, each as a type.

use crate::layout::{COLUMNS, start_line, width};
use crate::names::in_type_name;
use crate::sheet::Sheet;
use derive_syntax::{Case, Holes, Variant, variant_name};
use std::alloc::{AllocError, Global};

/// The names of variants in JSON and RON, in this case.
pub fn variant_names<'a>(
    sheet: &mut Sheet,
    variants: &[Variant<'a>],
    case: Option<Case>,
) -> Vec<String> {
    let alloc = sheet.alloc;
    let mut names = Vec::new(alloc);
    for variant in variants {
        let name = sheet.made(variant_name(alloc, variant, case));
        sheet.push(&mut names, name);
    }
    names
}

const LABEL: &str = "
pub struct $LABEL {}

impl nano_schema::Label for $LABEL {
    ghost label = { $CODES };

    fn text() -> &'static str {
        \"$TEXT\"
    }
}";

const LABELS: &str = "
pub struct $LABEL<const I: usize> {}

impl<const I: usize> nano_schema::Label for $LABEL<I> {
    ghost label = { $CASES };

    fn text() -> &'static str {
        nano_schema::name_of!(I, $ARMS)
    }
}";

/// Appends the type that stands for the names of some fields or variants, and returns the type of
/// each. Several names have one type, with the number of the name.
pub fn append_labels(
    sheet: &mut Sheet,
    owner: &str,
    names: &[String],
) -> Result<Vec<String>, AllocError> {
    let alloc = sheet.alloc;
    let mut labels = Vec::new(alloc);
    if let [name] = names {
        let label = name_of(sheet, owner, "Name")?;
        append_label(sheet, label.as_str(), name.as_str());
        sheet.push(&mut labels, label);
    } else if !names.is_empty() {
        let label = name_of(sheet, owner, "Names")?;
        append_numbered(sheet, label.as_str(), names);
        for i in 0..names.len() {
            let item = sheet.made(format!(in alloc; "{label}<{i}>"));
            sheet.push(&mut labels, item);
        }
    }
    Ok(labels)
}

/// Appends the type that stands for a name.
fn append_label(sheet: &mut Sheet, label: &str, name: &str) {
    let codes = codes_of(sheet, name);
    let mut holes = Holes::new(sheet.alloc);
    holes.put("TEXT", name);
    holes.put("CODES", codes.as_str());
    holes.put("LABEL", label);
    sheet.write(LABEL, &holes);
}

/// Appends the type that stands for several names, by their numbers.
fn append_numbered(sheet: &mut Sheet, label: &str, names: &[String]) {
    sheet.import("ghost use Rattle.std.specs.Prelude.{codes};");
    sheet.import("ghost use Rattle.std.specs.Prelude.{◌==◌};");
    sheet.import("ghost use Rattle.std.specs.Prelude.{if◌then◌else◌};");
    let cases = cases(sheet, names);
    let arms = arms(sheet, names);
    let mut holes = Holes::new(sheet.alloc);
    holes.put("CASES", cases.as_str());
    holes.put("ARMS", arms.as_str());
    holes.put("LABEL", label);
    sheet.write(LABELS, &holes);
}

/// The bytes of a name in a ghost term: one by one where it is beyond ASCII.
fn codes_of(sheet: &mut Sheet, name: &str) -> String {
    let alloc = sheet.alloc;
    if name.is_ascii() {
        sheet.import("ghost use Rattle.std.specs.Prelude.{codes};");
        return sheet.made(format!(in alloc; "codes \"{name}\""));
    }
    sheet.import("ghost use Rattle.std.specs.Prelude.{◌∷◌};");
    sheet.import("ghost use Rattle.std.specs.Prelude.{[]};");
    let mut text = sheet.made(String::from_str(alloc, "("));
    for byte in name.as_bytes() {
        sheet.add_made(&mut text, format!(in alloc; "{byte} ∷ "));
    }
    sheet.add(&mut text, "[])");
    text
}

/// The names in a ghost term, on each line as many as it has space for. The last one stands for every
/// later number, too.
fn cases(sheet: &mut Sheet, names: &[String]) -> String {
    let alloc = sheet.alloc;
    let mut line = Line::after(alloc, "    ghost label = { ", 8);
    let mut before = "";
    for (i, name) in names.iter().enumerate() {
        let codes = codes_of(sheet, name.as_str());
        let case = if i.saturating_add(1) < names.len() {
            format!(in alloc; "{before}if I == {i} then {codes}")
        } else {
            format!(in alloc; "{before}{codes}")
        };
        let case = sheet.made(case);
        line.add(sheet, case.as_str());
        before = "else ";
    }
    line.text
}

/// The names in the arms of the macro, on each line as many as it has space for.
fn arms(sheet: &mut Sheet, names: &[String]) -> String {
    let alloc = sheet.alloc;
    let mut line = Line::after(alloc, "        nano_schema::name_of!(I, ", 12);
    for (i, name) in names.iter().enumerate() {
        let arm = if i.saturating_add(1) < names.len() {
            format!(in alloc; "{i} => \"{name}\",")
        } else {
            format!(in alloc; "_ => \"{name}\"")
        };
        let arm = sheet.made(arm);
        line.add(sheet, arm.as_str());
    }
    line.text
}

/// Parts of a text on lines, each of which has as many as it has space for.
#[derive(Drop)]
struct Line {
    /// The lines so far, without what stands before the first part.
    text: String,
    /// How many columns the last of them has.
    used: usize,
    /// How far each but the first is indented.
    indent: usize,
}

impl Line {
    /// No parts, after this on their first line.
    fn after(alloc: Global, before: &str, indent: usize) -> Line {
        Line {
            text: String::new(alloc),
            used: width(before),
            indent,
        }
    }

    /// Adds a part. What closes the text has three columns on its last line.
    fn add(&mut self, sheet: &mut Sheet, part: &str) {
        let whole = self.used.saturating_add(width(part)).saturating_add(1);
        if self.text.is_empty() {
            self.used = whole;
        } else if whole.saturating_add(3) <= COLUMNS {
            sheet.add(&mut self.text, " ");
            self.used = whole;
        } else {
            let step = start_line(&mut self.text, self.indent);
            sheet.note(step);
            self.used = self.indent.saturating_add(width(part));
        }
        sheet.add(&mut self.text, part);
    }
}

/// A free name for something of an owner.
pub fn name_of(sheet: &mut Sheet, owner: &str, name: &str) -> Result<String, AllocError> {
    let alloc = sheet.alloc;
    let mut wanted = sheet.made(String::from_str(alloc, owner));
    sheet.add_made(&mut wanted, in_type_name(alloc, name));
    sheet.names.take(alloc, wanted.as_str())
}
