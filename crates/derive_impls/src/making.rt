//! The body that makes an enum of the content of its variant.

use crate::fields::row_fields;
use crate::layout::Items;
use crate::taking::{blanks, fields_taken};
use crate::variants::{content_of, named_variant};
use derive_syntax::{Content, Holes, Variant};
use std::alloc::{AllocError, Global};

const TEST: &str = "        let later = match $OF {
            nano_schema::Either::First(values) => {
$TAKEN                return $MADE;
            }
            nano_schema::Either::Later(later) => later,
        };
";

const LAST: &str = "$TAKEN        $MADE
";

/// The body: for each variant but the last one test, and what makes the last.
pub(crate) fn making<'a>(alloc: Global, variants: &[Variant<'a>]) -> Result<String, AllocError> {
    let mut text = String::new(alloc);
    let mut of = "values";
    for (i, variant) in variants.iter().enumerate() {
        let step = if i.saturating_add(1) < variants.len() {
            step(alloc, variant, of, (TEST, "values"), (16, 19))?
        } else {
            step(alloc, variant, of, (LAST, of), (8, 4))?
        };
        text.push_str(step.as_str())?;
        of = "later";
    }
    Ok(text)
}

/// What makes this variant of what something is, by a template in which its content is called so,
/// and which has the variant on a line that is indented so far, after so many columns of it.
fn step<'a>(
    alloc: Global,
    variant: &Variant<'a>,
    of: &str,
    (template, content): (&str, &str),
    (indent, before): (usize, usize),
) -> Result<String, AllocError> {
    let made = named_variant(alloc, variant, Items::Values, (indent, before))?;
    let taken = content_taken(alloc, variant, content, indent)?;
    let mut holes = Holes::new(alloc);
    holes.put("OF", of);
    holes.put("MADE", made.as_str());
    holes.put("TAKEN", taken.as_str());
    holes.fill(template)
}

/// Lines, each indented so far, that take the content of a variant apart, which something is.
fn content_taken<'a>(
    alloc: Global,
    variant: &Variant<'a>,
    of: &str,
    indent: usize,
) -> Result<String, AllocError> {
    if let Content::Fields(fields) = &variant.content {
        return fields_taken(alloc, &row_fields(alloc, fields)?, of, indent);
    }
    let before = indent.saturating_add("let ".len());
    let pattern = content_of(alloc, variant, Items::Patterns, (indent, before))?;
    format!(in alloc; "{}let {pattern} = {of};\n", blanks(indent))
}
