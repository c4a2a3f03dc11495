//! Variants in code: what is matched, and what is done in each case.

use crate::defaults::{bound_field, made_field};
use crate::fields::{field_texts, row_fields};
use crate::layout::{Brackets, Items, Piece, list};
use crate::rows::paired;
use crate::tuples::named;
use derive_syntax::{Content, Holes, Variant};
use std::alloc::{AllocError, Global};

/// What a pattern calls the parts of a tuple variant.
pub const PARTS: [&str; 8] = [
    "first", "second", "third", "fourth", "fifth", "sixth", "seventh", "eighth",
];

/// Texts as a tuple, or the one text that there is, on a line that is indented so far, after so
/// many columns of it.
pub(crate) fn tuple_of(
    alloc: Global,
    texts: &[String],
    items: Items,
    place: (usize, usize),
) -> Result<String, AllocError> {
    if let [text] = texts {
        return text.clone();
    }
    Ok(bracketed(alloc, ("(", ")"), texts, items, place)?.laid)
}

/// Texts between brackets, with a character after them.
pub fn bracketed(
    alloc: Global,
    (open, close): (&str, &str),
    texts: &[String],
    items: Items,
    (indent, before): (usize, usize),
) -> Result<Piece, AllocError> {
    let mut pieces = Vec::new(alloc);
    for text in texts {
        pieces.push(Piece::of(alloc, text.as_str())?)?;
    }
    let brackets = Brackets {
        open,
        close,
        items,
        indent,
        before,
        after: 5,
    };
    list(alloc, brackets, &pieces)
}

/// The names that a pattern gives to what a variant holds, or that a value has in their places.
fn bound_names<'a>(
    alloc: Global,
    content: &Content<'a>,
    items: Items,
) -> Result<Vec<String>, AllocError> {
    let fields = match content {
        Content::Nothing => return Ok(Vec::new(alloc)),
        Content::Parts(parts) => return named(alloc, "", &PARTS, parts.len()),
        Content::Fields(fields) => fields,
    };
    let mut names = Vec::new(alloc);
    for field in fields {
        names.push(match items {
            Items::Patterns => bound_field(alloc, *field)?,
            _ => made_field(alloc, *field)?,
        })?;
    }
    Ok(names)
}

/// A variant with its content by the names of a pattern, on a line that is indented so far, after
/// so many columns of it: a pattern, or a value.
pub fn named_variant<'a>(
    alloc: Global,
    variant: &Variant<'a>,
    items: Items,
    place: (usize, usize),
) -> Result<String, AllocError> {
    let (end, close, items_there) = match &variant.content {
        Content::Nothing => return format!(in alloc; "Self::{}", variant.name.text),
        Content::Parts(_) => ("(", ")", items),
        Content::Fields(_) => (" {", "}", Items::Fields),
    };
    let names = bound_names(alloc, &variant.content, items)?;
    let open = format!(in alloc; "Self::{}{end}", variant.name.text)?;
    Ok(bracketed(alloc, (open.as_str(), close), &names, items_there, place)?.laid)
}

/// The content of a variant by the names of a pattern: a tuple, nested pairs, or one of them.
pub(crate) fn content_of<'a>(
    alloc: Global,
    variant: &Variant<'a>,
    items: Items,
    (indent, before): (usize, usize),
) -> Result<String, AllocError> {
    match &variant.content {
        Content::Nothing => String::from_str(alloc, "()"),
        Content::Parts(parts) => {
            let names = named(alloc, "", &PARTS, parts.len())?;
            tuple_of(alloc, &names, items, (indent, before))
        }
        Content::Fields(fields) => {
            let names = field_texts(alloc, &row_fields(alloc, fields)?, "$NAME")?;
            Ok(paired(alloc, names, items, indent, before)?.laid)
        }
    }
}

const ARM: &str = "            $PATTERN => {
                let refs = $REFS;
$STEPS                $PLACE
            }
";

/// The arms of a `match` that gives references to the content of the variant.
pub(crate) fn arms<'a>(alloc: Global, variants: &[Variant<'a>]) -> Result<String, AllocError> {
    let mut text = String::new(alloc);
    for (i, variant) in variants.iter().enumerate() {
        text.push_str(arm(alloc, variant, i, variants.len())?.as_str())?;
    }
    Ok(text)
}

/// The arm of a variant, at its place among so many.
fn arm<'a>(
    alloc: Global,
    variant: &Variant<'a>,
    i: usize,
    count: usize,
) -> Result<String, AllocError> {
    let mut holes = Holes::new(alloc);
    let pattern = named_variant(alloc, variant, Items::Patterns, (12, 12))?;
    holes.put("PATTERN", pattern.as_str());
    let refs = content_of(alloc, variant, Items::Values, (16, 27))?;
    holes.put("REFS", refs.as_str());
    let (lines, place) = steps(alloc, i, count)?;
    holes.put("STEPS", lines.as_str());
    holes.put("PLACE", place.as_str());
    holes.fill(ARM)
}

/// How many steps stand on one line.
const STEPS: usize = 4;

/// What puts references at the place of their variant among so many: lines before the last step,
/// and the value of the arm. A variable for each step would make the check longer.
fn steps(alloc: Global, i: usize, count: usize) -> Result<(String, String), AllocError> {
    let is_last = i.saturating_add(1) == count;
    let innermost = if is_last {
        "refs"
    } else {
        "Either::First(refs)"
    };
    let mut steps = usize::from(!is_last);
    let mut lines = String::new(alloc);
    let mut place = String::from_str(alloc, innermost)?;
    for _later in 0..i {
        if steps == STEPS {
            lines = format!(in alloc; "{lines}                let refs = {place};\n")?;
            (steps, place) = (0, String::from_str(alloc, "refs")?);
        }
        place = format!(in alloc; "Either::Later({place})")?;
        steps = steps.saturating_add(1);
    }
    Ok((lines, place))
}
