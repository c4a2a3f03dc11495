//! What types that contain themselves have in each format of texts: what stands in the templates of
//! the format, and the call that reads a value.

use crate::output::nested_names::{laws_of, nested_holes, reader_cycle, specs_of};
use crate::output::nested_parameters::{given, given_term, meant, put_agreement, put_bounds};
use derive_impls::layout::{Brackets, Items, Piece, list};
use derive_impls::sheet::Sheet;
use derive_impls::target::Target;
use derive_syntax::{Attributes, Case, Holes};
use std::alloc::{AllocError, Global};

/// A format of texts, by its names.
#[derive(Clone, Copy)]
pub(crate) struct TextNames {
    /// As the names of functions and definitions have it.
    pub(crate) name: &'static str,
    /// As the names of traits and files have it.
    pub(crate) word: &'static str,
    /// As comments have it.
    pub(crate) title: &'static str,
}

/// JSON.
pub(crate) const JSON: TextNames = TextNames {
    name: "json",
    word: "Json",
    title: "JSON",
};

/// RON.
pub(crate) const RON: TextNames = TextNames {
    name: "ron",
    word: "Ron",
    title: "RON",
};

/// What a template of JSON says otherwise in RON.
const IN_RON: [(&str, &str); 4] = [
    ("json", "ron"),
    ("Json", "Ron"),
    ("JSON", "RON"),
    ("braces", "parentheses"),
];

/// A template of JSON as it stands in RON.
pub(crate) fn in_ron(alloc: Global, template: &str) -> Result<String, AllocError> {
    let mut text = String::from_str(alloc, template)?;
    for (json, ron) in IN_RON {
        text = replaced(alloc, text.as_str(), json, ron)?;
    }
    Ok(text)
}

/// A text with one word in place of another.
fn replaced(alloc: Global, text: &str, from: &str, to: &str) -> Result<String, AllocError> {
    let mut other = String::new(alloc);
    for (i, part) in text.split(from).enumerate() {
        other.push_str(if i > 0 { to } else { "" })?;
        other.push_str(part)?;
    }
    Ok(other)
}

/// The first format of a type, if it is one of texts.
pub(crate) fn first_text(attributes: Attributes<'_>) -> Option<TextNames> {
    if attributes.bin.is_used() {
        return None;
    }
    Some(if attributes.json.is_used() { JSON } else { RON })
}

/// What stands in the templates of a format of texts.
pub(crate) fn text_holes<'a>(
    sheet: &mut Sheet,
    target: &Target<'a>,
    format: TextNames,
) -> Result<Holes, AllocError> {
    let alloc = sheet.alloc;
    let TextNames {
        name: end,
        word,
        ..
    } = format;
    let name = Case::Snake.of_variant(alloc, target.name.text)?;
    let mut holes = nested_holes(sheet, target)?;
    let codec = sheet.made(format!(in alloc; "{name}_{end}"));
    put_agreement(&mut holes, sheet, target, end)?;
    put_bounds(&mut holes, sheet, target, end)?;
    let at = sheet.made(format!(in alloc; "{name}_{end}_at"));
    let means = sheet.made(format!(in alloc; "{name}_means"));
    holes.put_made("IS_CODED", given(alloc, target, codec.as_str(), end));
    let written = sheet.made(given_term(alloc, target, codec.as_str(), end));
    holes.put("IS_WRITTEN", written.as_str());
    holes.put_made("CODES", given(alloc, target, at.as_str(), end));
    holes.put_made("SAYS", meant(alloc, target, means.as_str(), end));
    holes.put_made("RULES", laws_of(alloc, target, word));
    holes.put_made("TEXTS", specs_of(alloc, target.module, word));
    holes.put("OWN", codec.as_str());
    holes.put_made("WRITER", writer_of(alloc, target, format));
    holes.put("AT", at.as_str());
    holes.put_made("IN_READ", reader_cycle(alloc, target, end));
    holes.put("LIMIT", target.counted.level_limit());
    holes.put_made("DEEP", too_deep(sheet, target, end));
    Ok(holes)
}

/// The name of what writes a type field by field in a format of texts.
pub(crate) fn writer_of<'a>(
    alloc: Global,
    target: &Target<'a>,
    format: TextNames,
) -> Result<String, AllocError> {
    format!(in alloc; "{}{}Writer", target.name.text, format.word)
}

/// The call that reports more levels than are read, in the format of this name.
fn too_deep<'a>(sheet: &mut Sheet, target: &Target<'a>, end: &str) -> Result<String, AllocError> {
    let alloc = sheet.alloc;
    let call = match target.counted.levels {
        Some(_limit) => format!(in alloc;
            "nano_{end}_nested::too_many_levels(alloc, {}, state)",
            target.counted.level_limit()
        )?,
        None => format!(in alloc; "nano_{end}_nested::too_deep(alloc, state)")?,
    };
    Ok(sheet.short(call.as_str()))
}

/// The call that reads what a value is seen as by this row, of structs or of enums: one level below,
/// or of as many levels if the type is none of its own.
pub(crate) fn reading<'a>(
    sheet: &mut Sheet,
    format: TextNames,
    target: &Target<'a>,
    (row, of): (&str, &str),
) -> Result<String, AllocError> {
    let (alloc, end) = (sheet.alloc, format.name);
    let read = sheet.made(format!(in alloc; "nano_{end}_nested::read_{of}_{end}_within"));
    let open = sheet.made(format!(in alloc; "{read}::<nano_levels::Levels, {row}>("));
    let open = sheet.short(open.as_str());
    let mut arguments = Vec::new(alloc);
    let (levels, left, items) = if target.is_around() {
        ("self", "left", Items::Values)
    } else {
        ("below", "left - 1", Items::Patterns)
    };
    for argument in [levels, left, "alloc", "state", "input"] {
        arguments.push(Piece::of(alloc, argument)?)?;
    }
    let brackets = Brackets {
        open: open.as_str(),
        close: ")",
        items,
        indent: 8,
        before: 14,
        after: 2,
    };
    Ok(list(alloc, brackets, &arguments)?.laid)
}
