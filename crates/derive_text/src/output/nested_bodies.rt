//! The bodies of the methods of types that contain themselves.

use derive_impls::fields::field_texts;
use derive_impls::layout::{COLUMNS, Items, width};
use derive_impls::records::made;
use derive_impls::rows::paired;
use derive_impls::sheet::Sheet;
use derive_impls::taking::{blanks, fields_taken, is_array, taken};
use derive_impls::target::Target;
use derive_impls::tuples::named;
use derive_impls::variants::{PARTS, named_variant};
use derive_syntax::{Content, Field, Type, Variant};
use std::alloc::{AllocError, Global};

/// The body that makes a struct of the values of its fields.
pub(crate) fn record_making<'a>(
    alloc: Global,
    target: &Target<'a>,
    fields: &[Field<'a>],
) -> Result<String, AllocError> {
    let made = made(alloc, target, fields)?.laid;
    let taken = fields_taken(alloc, fields, "values", 8)?;
    format!(in alloc; "{taken}        {made}\n")
}

/// The body that makes an enum of the content of its variant: for each variant but the last one
/// test, and what makes the last.
pub(crate) fn variants_making<'a>(
    sheet: &mut Sheet,
    variants: &[Variant<'a>],
) -> Result<String, AllocError> {
    let alloc = sheet.alloc;
    let either = sheet.short("nano_schema::Either::First");
    let either = either.as_str().strip_suffix("::First").unwrap_or("Either");
    let mut text = String::new(alloc);
    let mut of = "values";
    for (i, variant) in variants.iter().enumerate() {
        let step = if i.saturating_add(1) < variants.len() {
            tested(alloc, variant, of, either)?
        } else {
            last_made(alloc, variant, of)?
        };
        sheet.add(&mut text, step.as_str());
        of = "later";
    }
    Ok(text)
}

/// What makes a variant of what something is, if that is its content.
fn tested<'a>(
    alloc: Global,
    variant: &Variant<'a>,
    of: &str,
    either: &str,
) -> Result<String, AllocError> {
    let content = content_taken(alloc, variant, "values", 16)?;
    let made = named_variant(alloc, variant, Items::Values, (16, 19))?;
    format!(in alloc;
        "        let later = match {of} {{
            {either}::First(values) => {{
{content}                return {made};
            }}
            {either}::Later(later) => later,
        }};\n"
    )
}

/// What makes the last variant of its content.
fn last_made<'a>(alloc: Global, variant: &Variant<'a>, of: &str) -> Result<String, AllocError> {
    let content = content_taken(alloc, variant, of, 8)?;
    let made = named_variant(alloc, variant, Items::Values, (8, 4))?;
    format!(in alloc; "{content}        {made}\n")
}

/// Lines, each indented so far, that take the content of a variant apart, which something is.
fn content_taken<'a>(
    alloc: Global,
    variant: &Variant<'a>,
    of: &str,
    indent: usize,
) -> Result<String, AllocError> {
    let mut names = Vec::new(alloc);
    let mut has_array = false;
    for part in parts_of(alloc, &variant.content)? {
        has_array = has_array || is_array(part.of);
        names.push(part.name)?;
    }
    if has_array && names.len() > 2 {
        return taken(alloc, &names, (blanks(indent), of));
    }
    let before = indent.saturating_add("let ".len());
    let pattern = paired(alloc, names, Items::Patterns, indent, before)?.laid;
    format!(in alloc; "{}let {pattern} = {of};\n", blanks(indent))
}

/// A part of what a variant holds, or a field of a struct.
#[derive(Drop)]
pub(crate) struct Held<'a> {
    /// What it is called.
    pub(crate) name: String,
    /// Its type.
    pub(crate) of: Type<'a>,
}

/// What a variant holds.
pub(crate) fn parts_of<'a>(
    alloc: Global,
    content: &Content<'a>,
) -> Result<Vec<Held<'a>>, AllocError> {
    let (names, types) = match content {
        Content::Nothing => (Vec::new(alloc), Vec::new(alloc)),
        Content::Parts(parts) => (named(alloc, "", &PARTS, parts.len())?, parts.clone()?),
        Content::Fields(fields) => (
            field_texts(alloc, fields, "$NAME")?,
            types_of(alloc, fields)?,
        ),
    };
    let mut parts = Vec::new(alloc);
    for (name, of) in names.into_iter().zip(types) {
        parts.push(Held { name, of })?;
    }
    Ok(parts)
}

/// The fields of a struct, each as it is borrowed.
pub(crate) fn borrowed<'a>(
    alloc: Global,
    fields: &[Field<'a>],
) -> Result<Vec<Held<'a>>, AllocError> {
    let mut parts = Vec::new(alloc);
    for field in fields {
        let name = format!(in alloc; "&self.{}", field.name.text)?;
        parts.push(Held { name, of: field.of })?;
    }
    Ok(parts)
}

/// The types of fields.
fn types_of<'a>(alloc: Global, fields: &[Field<'a>]) -> Result<Vec<Type<'a>>, AllocError> {
    let mut types = Vec::new(alloc);
    for field in fields {
        types.push(field.of)?;
    }
    Ok(types)
}

// ---- that a value is legal

/// The body that says of each field of a struct that it is legal.
pub(crate) fn known_fields<'a>(
    sheet: &mut Sheet,
    fields: &[Field<'a>],
) -> Result<String, AllocError> {
    let lines = known_lines(sheet, &borrowed(sheet.alloc, fields)?)?;
    indented(sheet.alloc, &lines, "        ", ";")
}

/// What says of each part that it is legal.
fn known_lines(sheet: &mut Sheet, parts: &[Held<'_>]) -> Result<Vec<String>, AllocError> {
    let alloc = sheet.alloc;
    let mut lines = Vec::new(alloc);
    for part in parts {
        let line = sheet.made(format!(in alloc; "nano_schema::Value::known({})", part.name));
        lines.push(sheet.short(line.as_str()))?;
    }
    Ok(lines)
}

/// The body that says of the content of a variant that it is legal.
pub(crate) fn known_arms<'a>(
    sheet: &mut Sheet,
    variants: &[Variant<'a>],
) -> Result<String, AllocError> {
    let alloc = sheet.alloc;
    let mut text = sheet.made(String::from_str(alloc, "        match self {\n"));
    for variant in variants {
        let parts = parts_of(alloc, &variant.content)?;
        let mut lines = known_lines(sheet, &parts)?;
        if lines.is_empty() {
            lines.push(sheet.short("nano_schema::Value::known(&())"))?;
        }
        sheet.add_made(&mut text, arm(alloc, variant, &lines, ";"));
    }
    sheet.add(&mut text, "        }\n");
    Ok(text)
}

/// The arm of a variant with these steps, each but a step that stands alone with such an end.
pub(crate) fn arm<'a>(
    alloc: Global,
    variant: &Variant<'a>,
    lines: &[String],
    end: &str,
) -> Result<String, AllocError> {
    let pattern = named_variant(alloc, variant, Items::Patterns, (12, 12))?;
    arm_of(alloc, pattern.as_str(), lines, end)
}

/// The arm of a pattern with these steps, each but a step that stands alone with such an end.
pub(crate) fn arm_of(
    alloc: Global,
    pattern: &str,
    lines: &[String],
    end: &str,
) -> Result<String, AllocError> {
    if let [line] = lines {
        let flat = format!(in alloc; "            {pattern} => {line},")?;
        if !line.contains('\n') && width(last_line(flat.as_str())) <= COLUMNS {
            return format!(in alloc; "{flat}\n");
        }
    }
    let end = if lines.len() > 1 { end } else { "" };
    let body = indented(alloc, lines, "                ", end)?;
    format!(in alloc; "            {pattern} => {{\n{body}            }}\n")
}

/// The last line of a text.
fn last_line(text: &str) -> &str {
    match text.rsplit_once('\n') {
        Some((_before, line)) => line,
        None => text,
    }
}

/// Lines, each after such an indent and with such an end.
pub(crate) fn indented(
    alloc: Global,
    lines: &[String],
    indent: &str,
    end: &str,
) -> Result<String, AllocError> {
    let mut text = String::new(alloc);
    for line in lines {
        text.push_str(format!(in alloc; "{indent}{line}{end}\n")?.as_str())?;
    }
    Ok(text)
}
