//! How an enum is seen as the content of its variant, in a ghost term.

use crate::layout::{COLUMNS, width};
use crate::rows::ghost_pairs;
use crate::target::Target;
use derive_syntax::{Content, Variant, stands_in_row};
use std::alloc::{AllocError, Global};

/// Lines that bring in the ghost names of the variants.
pub(crate) fn variant_imports<'a>(
    alloc: Global,
    target: &Target<'a>,
    variants: &[Variant<'a>],
) -> Result<String, AllocError> {
    let mut names = Vec::new(alloc);
    for variant in variants {
        names.push(String::from_str(alloc, variant.name.text)?)?;
    }
    imports_of(alloc, target, &names)
}

/// Lines that bring in these ghost names of variants, on each line as many as it has space for.
pub(crate) fn imports_of<'a>(
    alloc: Global,
    target: &Target<'a>,
    names: &[String],
) -> Result<String, AllocError> {
    let mut lines = String::new(alloc);
    let mut last = String::new(alloc);
    for name in names {
        let name = name.as_str();
        let longer = match last.strip_suffix("};\n") {
            Some(start) => format!(in alloc; "{start}, {name}}};\n")?,
            None => variant_import(alloc, target, name)?,
        };
        if width(longer.as_str()) > COLUMNS.saturating_add(1) {
            lines.push_str(last.as_str())?;
            last = variant_import(alloc, target, name)?;
        } else {
            last = longer;
        }
    }
    lines.push_str(last.as_str())?;
    Ok(lines)
}

/// A line that brings in the ghost name of a variant.
fn variant_import<'a>(
    alloc: Global,
    target: &Target<'a>,
    name: &str,
) -> Result<String, AllocError> {
    let (module, owner) = (target.module, target.name.text);
    format!(in alloc; "    ghost use Rattle.{module}.{owner}.TheVariants.{{{name}}};\n")
}

/// The cases of the term, each a line.
pub(crate) fn cases<'a>(alloc: Global, variants: &[Variant<'a>]) -> Result<String, AllocError> {
    let mut text = String::new(alloc);
    for (i, variant) in variants.iter().enumerate() {
        let binders = binders(alloc, variant)?;
        text.push_str("      | ")?;
        text.push_str(variant.name.text)?;
        for binder in &binders {
            text.push(' ')?;
            text.push_str(binder.as_str())?;
        }
        text.push_str(" ↦ ")?;
        let content = ghost_content(alloc, variant, &binders)?;
        text.push_str(ghost_path(alloc, content.as_str(), i, variants.len())?.as_str())?;
        text.push('\n')?;
    }
    Ok(text)
}

/// A name for each part or field that a variant holds.
pub(crate) fn binders<'a>(alloc: Global, variant: &Variant<'a>) -> Result<Vec<String>, AllocError> {
    let count = match &variant.content {
        Content::Nothing => 0,
        Content::Parts(parts) => parts.len(),
        Content::Fields(fields) => fields.len(),
    };
    let mut binders = Vec::new(alloc);
    for k in 0..count {
        binders.push(format!(in alloc; "v{k}")?)?;
    }
    Ok(binders)
}

/// What a variant holds, in a ghost term.
fn ghost_content<'a>(
    alloc: Global,
    variant: &Variant<'a>,
    binders: &[String],
) -> Result<String, AllocError> {
    match &variant.content {
        Content::Nothing => String::from_str(alloc, "tt"),
        Content::Parts(_) => ghost_tuple(alloc, binders),
        Content::Fields(fields) => {
            let mut in_row = Vec::new(alloc);
            for (field, binder) in fields.iter().zip(binders) {
                if stands_in_row(*field) {
                    in_row.push(binder.clone()?)?;
                }
            }
            ghost_pairs(alloc, &in_row, "", ", ")
        }
    }
}

/// Terms as a tuple, or the one that there is.
fn ghost_tuple(alloc: Global, terms: &[String]) -> Result<String, AllocError> {
    if let [term] = terms {
        return term.clone();
    }
    let mut text = String::new(alloc);
    for term in terms {
        text.push_str(if text.is_empty() { "(" } else { ", " })?;
        text.push_str(term.as_str())?;
    }
    text.push(')')?;
    Ok(text)
}

/// A variant's content at its place among so many variants.
fn ghost_path(alloc: Global, content: &str, i: usize, count: usize) -> Result<String, AllocError> {
    if count < 2 {
        return String::from_str(alloc, content);
    }
    let is_last = i.saturating_add(1) == count;
    let (depth, end) = if is_last {
        (i.saturating_sub(1), "Later")
    } else {
        (i, "First")
    };
    let mut path = format!(in alloc; "{end} {content}")?;
    for _later in 0..depth {
        path = format!(in alloc; "Later ({path})")?;
    }
    Ok(path)
}
