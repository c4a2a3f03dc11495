//! Fields, parts and variants.

use crate::parse::attributes::{Below, attributes};
use crate::parse::cursor::Cursor;
use crate::parse::types::parse_type;
use crate::syntax::{Attributes, Content, Field, Type, Variant};
use crate::token::Token;
use derive_source::Fault;
use std::alloc::Global;

/// The most parts of a tuple struct.
pub(crate) const MOST_OF_STRUCT: usize = 8;

/// The most parts of a tuple variant.
const MOST_OF_VARIANT: usize = 4;

/// Takes `pub`, and what may follow it in brackets: `crate`, `super`, `self`, or `in` and a path.
pub(crate) fn visibility<'a>(cursor: &mut Cursor<'a>) -> Result<(), Fault> {
    if !cursor.take("pub") || !is_restriction(cursor) {
        return Ok(());
    }
    let _ = cursor.take("(");
    let _ = cursor.take("in");
    for _turn in cursor.tokens {
        let _ = cursor.next();
        if !cursor.take("::") {
            break;
        }
    }
    cursor.expect(")", "stands where `)` is wanted")
}

/// Whether a bracket comes next that says where something is seen, and is not that of a type.
fn is_restriction(cursor: &Cursor<'_>) -> bool {
    if !cursor.is_at("(") {
        return false;
    }
    for word in ["crate", "super", "self"] {
        if cursor.is_ahead(1, word) && cursor.is_ahead(2, ")") {
            return true;
        }
    }
    cursor.is_ahead(1, "in")
}

/// Takes fields with names, of which there may be none, from their bracket to its end.
pub(crate) fn fields<'a>(alloc: Global, cursor: &mut Cursor<'a>) -> Result<Vec<Field<'a>>, Fault> {
    cursor.expect("{", "stands where `{` is wanted")?;
    let fields = listed_fields(alloc, cursor)?;
    cursor.expect("}", "stands where a comma or `}` is wanted")?;
    Ok(fields)
}

/// Takes fields with names, as long as there are commas between them.
fn listed_fields<'a>(alloc: Global, cursor: &mut Cursor<'a>) -> Result<Vec<Field<'a>>, Fault> {
    let mut fields = Vec::new(alloc);
    for _turn in cursor.tokens {
        match next_field(alloc, cursor)? {
            Some(field) => fields.push(field)?,
            None => break,
        }
        if !cursor.take(",") {
            break;
        }
    }
    Ok(fields)
}

/// Takes a field with a name, or nothing before a bracket that closes.
fn next_field<'a>(alloc: Global, cursor: &mut Cursor<'a>) -> Result<Option<Field<'a>>, Fault> {
    let above = attributes(cursor, Below::Field)?;
    if cursor.is_at("}") {
        above.of_nothing()?;
        return Ok(None);
    }
    Ok(Some(field(alloc, cursor, above)?))
}

/// Takes a field with a name.
fn field<'a>(
    alloc: Global,
    cursor: &mut Cursor<'a>,
    attributes: Attributes<'a>,
) -> Result<Field<'a>, Fault> {
    visibility(cursor)?;
    let name = cursor.name()?;
    cursor.expect(":", "stands where `:` is wanted")?;
    let of = parse_type(alloc, cursor)?;
    Ok(Field {
        name,
        of,
        attributes,
    })
}

/// Takes the parts of a tuple struct or tuple variant, from their bracket to its end: one to so many.
pub(crate) fn parts<'a>(
    alloc: Global,
    cursor: &mut Cursor<'a>,
    most: usize,
) -> Result<Vec<Type<'a>>, Fault> {
    cursor.expect("(", "stands where `(` is wanted")?;
    let parts = listed_parts(alloc, cursor, most)?;
    cursor.expect(")", "stands where a comma or `)` is wanted")?;
    Ok(parts)
}

/// Takes the parts of a tuple struct or tuple variant, as long as there are commas between them.
fn listed_parts<'a>(
    alloc: Global,
    cursor: &mut Cursor<'a>,
    most: usize,
) -> Result<Vec<Type<'a>>, Fault> {
    let mut parts = Vec::new(alloc);
    for _turn in cursor.tokens {
        match next_part(alloc, cursor, (parts.len(), most))? {
            Some(part) => parts.push(part)?,
            None => break,
        }
        if !cursor.take(",") {
            break;
        }
    }
    Ok(parts)
}

/// Takes a part of a tuple of so many at most after so many others, or nothing before a bracket that
/// closes.
fn next_part<'a>(
    alloc: Global,
    cursor: &mut Cursor<'a>,
    (count, most): (usize, usize),
) -> Result<Option<Type<'a>>, Fault> {
    attributes(cursor, Below::Part)?.of_nothing()?;
    if cursor.is_at(")") {
        return if count > 0 {
            Ok(None)
        } else {
            Err(cursor.fault(NO_PART))
        };
    }
    if count >= most {
        return Err(cursor.fault(too_many(most)));
    }
    visibility(cursor)?;
    Ok(Some(parse_type(alloc, cursor)?))
}

/// What is wrong with a part after the most that there may be.
fn too_many(most: usize) -> &'static str {
    if most == MOST_OF_VARIANT {
        "begins a fifth part: a variant has one to four without names"
    } else {
        "begins a ninth part: a struct has one to eight without names"
    }
}

const NO_PART: &str = "stands where a type is wanted: leave the brackets out where there is none";

/// Takes variants, from their bracket to its end.
pub(crate) fn variants<'a>(
    alloc: Global,
    cursor: &mut Cursor<'a>,
) -> Result<Vec<Variant<'a>>, Fault> {
    cursor.expect("{", "stands where `{` is wanted")?;
    let variants = listed_variants(alloc, cursor)?;
    if variants.is_empty() {
        return Err(cursor.fault("stands where a variant is wanted"));
    }
    cursor.expect("}", "stands where a comma or `}` is wanted")?;
    Ok(variants)
}

/// Takes variants, as long as there are commas between them.
fn listed_variants<'a>(alloc: Global, cursor: &mut Cursor<'a>) -> Result<Vec<Variant<'a>>, Fault> {
    let mut variants = Vec::new(alloc);
    for _turn in cursor.tokens {
        match next_variant(alloc, cursor)? {
            Some(variant) => variants.push(variant)?,
            None => break,
        }
        if !cursor.take(",") {
            break;
        }
    }
    Ok(variants)
}

/// Takes a variant, or nothing before a bracket that closes.
fn next_variant<'a>(alloc: Global, cursor: &mut Cursor<'a>) -> Result<Option<Variant<'a>>, Fault> {
    let above = attributes(cursor, Below::Variant)?;
    if cursor.is_at("}") {
        above.of_nothing()?;
        return Ok(None);
    }
    let name = cursor.name()?;
    Ok(Some(variant(alloc, cursor, above, name)?))
}

/// Takes what a variant holds.
fn variant<'a>(
    alloc: Global,
    cursor: &mut Cursor<'a>,
    attributes: Attributes<'a>,
    name: Token<'a>,
) -> Result<Variant<'a>, Fault> {
    let content = if cursor.is_at("(") {
        Content::Parts(parts(alloc, cursor, MOST_OF_VARIANT)?)
    } else if cursor.is_at("{") {
        Content::Fields(fields(alloc, cursor)?)
    } else {
        Content::Nothing
    };
    if cursor.is_at("=") {
        return Err(cursor.fault(DISCRIMINANT));
    }
    Ok(Variant {
        name,
        content,
        attributes,
    })
}

const DISCRIMINANT: &str = "gives a variant a number, and none has one here: leave it out. In \
    bytes a variant is its place in the enum, from 0";
