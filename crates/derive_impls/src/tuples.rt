//! Tuple structs of two to eight parts, each of which is what the tuple of its parts is: one of two
//! to four by Rust's tuple, and a longer one by a first part and the others, each with a schema.

use crate::codecs::append_codecs;
use crate::ensured::OPENED;
use crate::forms::{RECORD, WIDE, tupled};
use crate::layout::{Brackets, Items, Piece, list};
use crate::records::values_of_row;
use crate::seen::{Seen, append_seen};
use crate::sheet::Sheet;
use crate::taking::is_array;
use crate::target::Target;
use crate::types::type_text;
use crate::variants::{PARTS, bracketed};
use derive_syntax::{Holes, Type};
use std::alloc::{AllocError, Global};

/// Appends the impls of a tuple struct.
pub(crate) fn append_tuple<'a>(
    sheet: &mut Sheet,
    target: &Target<'a>,
    parts: &[Type<'a>],
) -> Result<(), AllocError> {
    let alloc = sheet.alloc;
    if parts.len() > MOST_OF_TUPLE {
        return append_wide(sheet, target, parts);
    }
    let values = target.values.as_str();
    let types = part_types(alloc, parts, "$TYPE")?;
    let before = values.len().saturating_add("type  = ".len());
    let tuple = bracketed(alloc, ("(", ")"), &types, Items::Types, (0, before))?;
    sheet.alias(values, tuple.laid.as_str());
    let row = sheet.made(format!(in alloc; "nano_schema::Tuple<{values}>"));
    let row = sheet.short(row.as_str());
    sheet.alias(target.row.as_str(), row.as_str());
    append_seen(sheet, target, &seen(alloc, target, parts)?)?;
    let write = sheet.made(parts_writer(alloc, parts.len()));
    append_codecs(sheet, target, &RECORD, &tupled(write.as_str()))
}

/// What writes the tuple of so many parts in a text.
fn parts_writer(alloc: Global, count: usize) -> Result<String, AllocError> {
    let mut text = String::from_str(alloc, "        let parts = (\n")?;
    for place in PLACES.iter().take(count) {
        text.push_str("            nano_$MODULE_schema::Part { of: &self.")?;
        text.push_str(*place)?;
        text.push_str(" },\n")?;
    }
    text.push_str(
        "        );\n        nano_$MODULE_schema::Ser$NAME::ser_$MODULE(&parts, $ARGUMENTS)",
    )?;
    Ok(text)
}

/// What a program calls the parts of a struct.
pub(crate) const PLACES: [&str; 8] = ["0", "1", "2", "3", "4", "5", "6", "7"];

/// How many parts the longest of Rust's tuples has that is read and written.
const MOST_OF_TUPLE: usize = 4;

/// Appends the impls of a tuple struct of more parts than such a tuple has.
fn append_wide<'a>(
    sheet: &mut Sheet,
    target: &Target<'a>,
    parts: &[Type<'a>],
) -> Result<(), AllocError> {
    let alloc = sheet.alloc;
    let open = sheet.short("nano_schema::Newtype<$TYPE>");
    let schemas = part_types(alloc, parts, open.as_str())?;
    let before = target.row.len().saturating_add("type  = ".len());
    let row = first_and_others(alloc, &schemas, Items::Types, (0, before, 1))?;
    sheet.alias(target.row.as_str(), row.laid.as_str());
    let seen = wide_seen(sheet, target, parts)?;
    append_seen(sheet, target, &seen)?;
    append_codecs(sheet, target, &RECORD, &WIDE)
}

/// The struct of these parts as the first of them and the others.
fn wide_seen<'a>(
    sheet: &mut Sheet,
    target: &Target<'a>,
    parts: &[Type<'a>],
) -> Result<Seen, AllocError> {
    let (alloc, count) = (sheet.alloc, parts.len());
    let names = named(alloc, "", &PARTS, count)?;
    let places = named(alloc, "x.", &PLACES, count)?;
    let borrowed = named(alloc, "&self.", &PLACES, count)?;
    Ok(Seen {
        types: values_of_row(sheet, target)?,
        view: first_and_others(alloc, &places, Items::Patterns, (0, 0, 0))?.flat,
        ensured: String::from_str(alloc, OPENED)?,
        taken: wide_taken(alloc, parts, &names)?,
        made: made(alloc, target, &names)?,
        borrowed: first_and_others(alloc, &borrowed, Items::Values, (8, 8, 0))?.laid,
    })
}

/// Lines that take the first part and the others apart: by one pattern, or step by step where a part
/// is an array.
fn wide_taken<'a>(
    alloc: Global,
    parts: &[Type<'a>],
    names: &[String],
) -> Result<String, AllocError> {
    let mut has_array = false;
    for part in parts {
        has_array = has_array || is_array(*part);
    }
    if !has_array {
        let pattern = first_and_others(alloc, names, Items::Patterns, (8, 12, 10))?;
        return format!(in alloc; "        let {} = values;\n", pattern.laid);
    }
    let mut lines = String::new(alloc);
    let mut whole = String::from_str(alloc, "values")?;
    for (i, pair) in names.windows(2).enumerate() {
        if let [first, second] = pair {
            let is_last = i.saturating_add(2) == names.len();
            let others = if is_last {
                second.clone()?
            } else {
                format!(in alloc; "from_{second}")?
            };
            let line = format!(in alloc; "        let ({first}, {others}) = {whole};\n")?;
            lines.push_str(line.as_str())?;
            whole = others;
        }
    }
    Ok(lines)
}

/// Texts as pairs of the first and the others, on a line that is indented so far, after so many
/// columns of it and before some more.
fn first_and_others(
    alloc: Global,
    texts: &[String],
    items: Items,
    (indent, before, after): (usize, usize, usize),
) -> Result<Piece, AllocError> {
    let mut pairs = Piece::of(alloc, "")?;
    for (level, text) in texts.iter().enumerate().rev() {
        let first = Piece::of(alloc, text.as_str())?;
        let inner = indent.saturating_add(level.saturating_mul(4));
        let brackets = Brackets {
            open: "(",
            close: ")",
            items,
            indent: inner,
            before: if level == 0 { before } else { inner },
            after: if level == 0 { after } else { 1 },
        };
        pairs = if level.saturating_add(1) == texts.len() {
            first
        } else {
            list(alloc, brackets, &[first, pairs])?
        };
    }
    Ok(pairs)
}

/// The struct as the tuple of its parts.
fn seen<'a>(alloc: Global, target: &Target<'a>, parts: &[Type<'a>]) -> Result<Seen, AllocError> {
    let names = named(alloc, "", &PARTS, parts.len())?;
    Ok(Seen {
        types: target.values.clone()?,
        view: placed(alloc, "x.", parts.len(), (0, 0))?.flat,
        ensured: String::from_str(alloc, OPENED)?,
        taken: taken(alloc, &names)?,
        made: made(alloc, target, &names)?,
        borrowed: placed(alloc, "&self.", parts.len(), (8, 7))?.laid,
    })
}

/// The tuple of so many parts, each by its place after some text.
fn placed(
    alloc: Global,
    before: &str,
    count: usize,
    place: (usize, usize),
) -> Result<Piece, AllocError> {
    let parts = named(alloc, before, &PLACES, count)?;
    bracketed(alloc, ("(", ")"), &parts, Items::Values, place)
}

/// What takes the tuple apart, with these names.
fn taken(alloc: Global, names: &[String]) -> Result<String, AllocError> {
    let pattern = bracketed(alloc, ("(", ")"), names, Items::Patterns, (8, 12))?.laid;
    format!(in alloc; "        let {pattern} = values;\n")
}

/// What makes the struct of parts with these names.
fn made<'a>(alloc: Global, target: &Target<'a>, names: &[String]) -> Result<String, AllocError> {
    let open = format!(in alloc; "{}(", target.name.text)?;
    Ok(bracketed(alloc, (open.as_str(), ")"), names, Items::Values, (8, 8))?.laid)
}

/// A text for each part, from a template with its type.
pub fn part_types<'a>(
    alloc: Global,
    parts: &[Type<'a>],
    template: &str,
) -> Result<Vec<String>, AllocError> {
    let mut texts = Vec::new(alloc);
    for part in parts {
        texts.push(part_type(alloc, *part, template)?)?;
    }
    Ok(texts)
}

/// A text for a part, from a template with its type.
fn part_type<'a>(alloc: Global, part: Type<'a>, template: &str) -> Result<String, AllocError> {
    let mut holes = Holes::new(alloc);
    holes.put_made("TYPE", type_text(alloc, part));
    holes.fill(template)
}

/// The first of these names, so many, each after some text.
pub fn named(
    alloc: Global,
    before: &str,
    names: &[&str],
    count: usize,
) -> Result<Vec<String>, AllocError> {
    let mut texts = Vec::new(alloc);
    for name in names.iter().take(count) {
        texts.push(format!(in alloc; "{before}{name}")?)?;
    }
    Ok(texts)
}
