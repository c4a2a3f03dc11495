//! What `make` ensures of the fields that it makes itself, which are skipped and stand in no row.

use crate::layout::{COLUMNS, start_line, width};
use crate::sheet::Sheet;
use crate::target::Target;
use crate::types::type_text;
use crate::views::binders;
use derive_syntax::{Content, Field, Missing, Variant, missing_value, stands_in_row};
use std::alloc::{AllocError, Global};

/// What opens the body of `make` where its only clause is that of the trait.
pub(crate) const OPENED: &str = " {";
/// How far a line is indented that goes on with a clause, and with a case of one.
const INDENT: usize = 12;

const CASE_INDENT: usize = 14;
/// How many columns come before a clause that is a single line.
const BEFORE: usize = 26;
/// How many columns stand around a fact on its line.
const AROUND: usize = 4;

/// What comes after the head of `make` of a struct: the bracket that opens its body, after a clause
/// for each field that it makes itself, if there is one.
pub(crate) fn of_fields<'a>(
    sheet: &mut Sheet,
    target: &Target<'a>,
    fields: &[Field<'a>],
) -> Result<String, AllocError> {
    let alloc = sheet.alloc;
    let mut values = Vec::new(alloc);
    for field in fields {
        values.push(format!(in alloc; "result.{}", field.name.text)?)?;
    }
    let facts = facts(sheet, fields, &values)?;
    if facts.is_empty() {
        return String::from_str(alloc, OPENED);
    }
    let skipped = joined(alloc, &facts, BEFORE, INDENT)?;
    clauses(sheet, target, "nano_schema::StructSchema", skipped.as_str())
}

/// The same of an enum, of which the clause has a case for each variant with such a field.
pub(crate) fn of_variants<'a>(
    sheet: &mut Sheet,
    target: &Target<'a>,
    variants: &[Variant<'a>],
) -> Result<String, AllocError> {
    let alloc = sheet.alloc;
    let mut cases = String::new(alloc);
    let mut has_others = false;
    for variant in variants {
        let case = case(sheet, variant)?;
        has_others = has_others || case.is_empty();
        cases.push_str(case.as_str())?;
    }
    if cases.is_empty() {
        return String::from_str(alloc, OPENED);
    }
    if has_others {
        sheet.import("ghost use Rattle.std.specs.Prelude.{⊤};");
        cases.push_str("          | _ ↦ ⊤\n")?;
    }
    let skipped = format!(in alloc; "elim result [\n{cases}        ]")?;
    clauses(sheet, target, "nano_schema::EnumSchema", skipped.as_str())
}

/// The case of a variant, or nothing if it has no field that is made in its place.
fn case<'a>(sheet: &mut Sheet, variant: &Variant<'a>) -> Result<String, AllocError> {
    let alloc = sheet.alloc;
    let Content::Fields(fields) = &variant.content else {
        return Ok(String::new(alloc));
    };
    let values = binders(alloc, variant)?;
    let facts = facts(sheet, fields, &values)?;
    if facts.is_empty() {
        return Ok(String::new(alloc));
    }
    let mut text = format!(in alloc; "          | {}", variant.name.text)?;
    for value in &values {
        text.push(' ')?;
        text.push_str(value.as_str())?;
    }
    text.push_str(" ↦ ")?;
    let facts = joined(alloc, &facts, width(text.as_str()), CASE_INDENT)?;
    format!(in alloc; "{text}{facts}\n")
}

/// The trait's clause, one of this text for the fields that are skipped, and the bracket.
fn clauses<'a>(
    sheet: &mut Sheet,
    target: &Target<'a>,
    of: &str,
    skipped: &str,
) -> Result<String, AllocError> {
    sheet.import("ghost use Rattle.std.specs.Prelude.{◌≡◌};");
    let of = sheet.short(of);
    let view = format!(in sheet.alloc; "        ensures seen {{ ⟦<{} as {of}>⟧.view", target.full)?;
    let space = if width(view.as_str()).saturating_add(18) > COLUMNS {
        "\n            "
    } else {
        " "
    };
    format!(in sheet.alloc;
        "\n{view}{space}result ≡ values }}\n        ensures skipped {{ {skipped} }}\n    {{"
    )
}

/// What holds of each field that is made in its place, whose value is called so.
fn facts<'a>(
    sheet: &mut Sheet,
    fields: &[Field<'a>],
    values: &[String],
) -> Result<Vec<String>, AllocError> {
    let mut facts = Vec::new(sheet.alloc);
    for (field, value) in fields.iter().zip(values) {
        if !stands_in_row(*field) {
            facts.push(fact(sheet, *field, value.as_str())?)?;
        }
    }
    Ok(facts)
}

/// What holds of the value of such a field: it is what is given, or a default of its type.
fn fact<'a>(sheet: &mut Sheet, field: Field<'a>, value: &str) -> Result<String, AllocError> {
    let alloc = sheet.alloc;
    match missing_value(field) {
        Missing::Whole(number) => format!(in alloc; "{value} ≡ {number}"),
        Missing::Signed(number) => {
            sheet.import("ghost use Rattle.std.specs.Prelude.{pos};");
            let Some(digits) = number.strip_prefix('-') else {
                return format!(in alloc; "{value} ≡ pos {number}");
            };
            sheet.import("ghost use Rattle.std.specs.Prelude.{neg_ℤ};");
            format!(in alloc; "{value} ≡ neg_ℤ (pos {digits})")
        }
        Missing::Truth(word) => {
            sheet.import(if word == "true" {
                "ghost use Rattle.std.specs.Prelude.{true};"
            } else {
                "ghost use Rattle.std.specs.Prelude.{false};"
            });
            format!(in alloc; "{value} ≡ {word}")
        }
        _ => {
            let of = type_text(alloc, field.of)?;
            format!(in alloc; "⟦<{of} as std::default::Default>⟧.is_default {value}")
        }
    }
}

/// Facts that hold together, each on a line. The first has so many columns before it, and the
/// others are indented so far.
fn joined(
    alloc: Global,
    facts: &[String],
    before: usize,
    indent: usize,
) -> Result<String, AllocError> {
    let (open, close) = if facts.len() > 1 {
        ("(", ")")
    } else {
        ("", "")
    };
    let mut text = String::new(alloc);
    let mut used = before;
    for fact in facts {
        if !text.is_empty() {
            start_line(&mut text, indent)?;
            text.push_str("× ")?;
            used = indent.saturating_add(2);
        }
        text.push_str(open)?;
        append_fact(&mut text, fact.as_str(), used, indent)?;
        text.push_str(close)?;
    }
    Ok(text)
}

/// Appends a fact to a line of so many columns. Where that has no space for it, its last word begins
/// a line that is indented so far.
fn append_fact(
    text: &mut String,
    fact: &str,
    used: usize,
    indent: usize,
) -> Result<(), AllocError> {
    let whole = used.saturating_add(width(fact)).saturating_add(AROUND);
    let (start, last) = fact.rsplit_once(' ').unwrap_or((fact, ""));
    if whole <= COLUMNS || last.is_empty() {
        return text.push_str(fact);
    }
    text.push_str(start)?;
    start_line(text, indent)?;
    text.push_str(last)
}
