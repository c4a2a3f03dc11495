//! The bodies of the methods that write a value of a type that contains itself as bytes.

use crate::output::nested_bodies::{arm, borrowed, indented, parts_of};
use derive_impls::sheet::Sheet;
use derive_impls::target::Target;
use derive_syntax::{Content, Field, Variant};
use std::alloc::{AllocError, Global};

const START: &str = "        let start = output.len();\n";

/// The body that writes a struct, field by field.
pub(crate) fn write_fields<'a>(
    sheet: &mut Sheet,
    target: &Target<'a>,
    fields: &[Field<'a>],
) -> Result<String, AllocError> {
    let alloc = sheet.alloc;
    let parts = borrowed(alloc, fields)?;
    let mut lines = Vec::new(alloc);
    for (i, part) in parts.iter().enumerate() {
        let is_within = target.is_within(part.of);
        let call = match (i, is_within) {
            (0, true) => format!(in alloc;
                "nano_bin_nested::WritesBin::write_bin({}, alloc, output)",
                part.name
            )?,
            (0, false) => format!(in alloc;
                "nano_bin_schema::SerBin::ser_bin({}, alloc, output)",
                part.name
            )?,
            _ => later_part(alloc, part.name.as_str(), is_within)?,
        };
        lines.push(step(sheet, call.as_str(), i.saturating_add(1) == parts.len())?)?;
    }
    let start = if lines.len() > 1 { START } else { "" };
    let body = sheet.made(indented(alloc, &lines, "        ", ""));
    format!(in alloc; "{start}{body}")
}

/// What appends a part after others.
fn later_part(alloc: Global, name: &str, is_within: bool) -> Result<String, AllocError> {
    if is_within {
        format!(in alloc; "nano_bin_nested::append_part_within(alloc, {name}, output, start)")
    } else {
        format!(in alloc; "nano_bin::append_part(alloc, {name}, output, start)")
    }
}

/// A call that is the last one, or passes an error on.
fn step(sheet: &mut Sheet, call: &str, is_last: bool) -> Result<String, AllocError> {
    let mut line = sheet.short(call);
    line.push_str(if is_last { "" } else { "?;" })?;
    Ok(line)
}

/// The body that writes an enum: the tag, and part by part what the variant holds.
pub(crate) fn write_arms<'a>(
    sheet: &mut Sheet,
    target: &Target<'a>,
    variants: &[Variant<'a>],
) -> Result<String, AllocError> {
    let alloc = sheet.alloc;
    let mut arms = String::new(alloc);
    let mut start = "";
    for (tag, variant) in variants.iter().enumerate() {
        let lines = write_lines(sheet, target, tag, &variant.content)?;
        start = if lines.len() > 1 { START } else { start };
        sheet.add_made(&mut arms, arm(alloc, variant, &lines, ""));
    }
    format!(in alloc; "{start}        match self {{\n{arms}        }}\n")
}

/// What writes a tag, and what the variant holds.
fn write_lines<'a>(
    sheet: &mut Sheet,
    target: &Target<'a>,
    tag: usize,
    content: &Content<'a>,
) -> Result<Vec<String>, AllocError> {
    let alloc = sheet.alloc;
    let parts = parts_of(alloc, content)?;
    let mut lines = Vec::new(alloc);
    if parts.is_empty() {
        let call = sheet.made(format!(in alloc;
            "nano_bin_nested::append_variant(alloc, {tag}, &(), output)"
        ));
        lines.push(step(sheet, call.as_str(), true)?)?;
    }
    for (i, part) in parts.iter().enumerate() {
        let is_within = target.is_within(part.of);
        let call = match i {
            0 => first_part(alloc, tag, part.name.as_str(), is_within)?,
            _ => later_part(alloc, part.name.as_str(), is_within)?,
        };
        lines.push(step(sheet, call.as_str(), i.saturating_add(1) == parts.len())?)?;
    }
    Ok(lines)
}

/// What appends a tag and a part.
fn first_part(
    alloc: Global,
    tag: usize,
    name: &str,
    is_within: bool,
) -> Result<String, AllocError> {
    let end = if is_within { "_within" } else { "" };
    format!(in alloc; "nano_bin_nested::append_variant{end}(alloc, {tag}, {name}, output)")
}
