//! The types of an enum's variants, and of their content: each of the first variant and the rest.

use crate::fields::{field_texts, row_fields};
use crate::layout::{Brackets, Items, Piece, list};
use crate::parameters::{bounds, content_types, parameters_in};
use crate::rows::{Leaf, paired};
use crate::sheet::Sheet;
use crate::target::Target;
use crate::tuples::part_types;
use crate::variants::tuple_of;
use derive_syntax::{Content, Token, Type, Variant};
use std::alloc::{AllocError, Global};

/// A chain of types: of the first variant and the rest.
#[derive(Clone, Copy)]
struct Chain<'a> {
    /// The type of all variants: its name, with its parameters.
    full: &'a str,
    /// What stands before the parameters of each of these types: a lifetime, or nothing.
    before: &'static str,
    /// What opens the list of a first and a rest.
    open: &'a str,
    /// What closes it.
    close: &'static str,
    /// What its two items are.
    items: Items,
}

/// Appends the types, the last variant's first. Each variant has a schema.
pub(crate) fn append_chains<'a>(
    sheet: &mut Sheet,
    target: &Target<'a>,
    variants: &[Variant<'a>],
    schemas: &[Leaf],
) -> Result<(), AllocError> {
    let held = held_types(sheet.alloc, variants, "$TYPE")?;
    append_owned_chains(sheet, target, variants, (schemas, &held))?;
    let named = named_by(sheet.alloc, &target.parameters, variants)?;
    let either = either_of(sheet, variants.len());
    let refs = Chain {
        full: target.refs.as_str(),
        before: "<'a",
        open: either.as_str(),
        close: ">",
        items: Items::Patterns,
    };
    let held = held_types(sheet.alloc, variants, "&'a $TYPE")?;
    append_chain(sheet, refs, &named, &held)
}

/// What opens the list of a first variant and the rest of so many, if there is a rest.
fn either_of(sheet: &mut Sheet, count: usize) -> String {
    match count {
        1 => String::new(sheet.alloc),
        _ => sheet.short("nano_schema::Either<"),
    }
}

/// Appends the types of the variants and of what they hold, the last variant's first. Each variant
/// has a schema, and a type of what it holds.
pub fn append_owned_chains<'a>(
    sheet: &mut Sheet,
    target: &Target<'a>,
    variants: &[Variant<'a>],
    (schemas, held): (&[Leaf], &[Leaf]),
) -> Result<(), AllocError> {
    append_variants(sheet, target, variants, (target.row.as_str(), schemas))?;
    let named = named_by(sheet.alloc, &target.parameters, variants)?;
    let either = either_of(sheet, variants.len());
    let values = Chain {
        full: target.values.as_str(),
        before: "",
        open: either.as_str(),
        close: ">",
        items: Items::Patterns,
    };
    append_chain(sheet, values, &named, held)
}

/// Appends the types of the variants, the last variant's first, of which the first has this name.
/// Each variant has a schema.
pub fn append_variants<'a>(
    sheet: &mut Sheet,
    target: &Target<'a>,
    variants: &[Variant<'a>],
    (full, schemas): (&str, &[Leaf]),
) -> Result<(), AllocError> {
    let named = named_by(sheet.alloc, &target.parameters, variants)?;
    let row = Chain {
        full,
        before: "",
        open: "(",
        close: ")",
        items: Items::Types,
    };
    append_chain(sheet, row, &named, schemas)
}

/// For each variant the parameters that it and those after it name.
fn named_by<'a>(
    alloc: Global,
    parameters: &[Token<'a>],
    variants: &[Variant<'a>],
) -> Result<Vec<Vec<Token<'a>>>, AllocError> {
    let mut types: Vec<Type<'a>> = Vec::new(alloc);
    let mut named = Vec::new(alloc);
    for variant in variants.iter().rev() {
        for of in &content_types(alloc, &variant.content)? {
            types.push(*of)?;
        }
        named.push(parameters_in(alloc, parameters, &types)?)?;
    }
    named.reverse();
    Ok(named)
}

/// Appends a chain of types, each with the parameters that it names.
fn append_chain<'a>(
    sheet: &mut Sheet,
    chain: Chain<'_>,
    named: &[Vec<Token<'a>>],
    firsts: &[Leaf],
) -> Result<(), AllocError> {
    let mut later: Option<String> = None;
    for (i, (first, parameters)) in firsts.iter().zip(named).enumerate().rev() {
        let full = link_name(sheet, chain, i, parameters)?;
        let before = full.len().saturating_add("type  = ".len());
        let of = match later {
            Some(rest) => link(sheet.alloc, chain, first, rest.as_str(), before)?,
            None => first.piece(sheet.alloc, 0, before)?,
        };
        sheet.alias(full.as_str(), of.laid.as_str());
        later = Some(full);
    }
    Ok(())
}

/// A first and the rest, after so many columns of the line.
fn link(
    alloc: Global,
    chain: Chain<'_>,
    first: &Leaf,
    rest: &str,
    before: usize,
) -> Result<Piece, AllocError> {
    let brackets = Brackets {
        open: chain.open,
        close: chain.close,
        items: chain.items,
        indent: 0,
        before,
        after: 1,
    };
    list(
        alloc,
        brackets,
        &[first.piece(alloc, 4, 4)?, Piece::of(alloc, rest)?],
    )
}

/// The name of the type of the variants from this one on, with the parameters that they name.
fn link_name<'a>(
    sheet: &mut Sheet,
    chain: Chain<'_>,
    i: usize,
    parameters: &[Token<'a>],
) -> Result<String, AllocError> {
    let alloc = sheet.alloc;
    if i == 0 {
        return String::from_str(alloc, chain.full);
    }
    let (name, _arguments) = chain.full.split_once('<').unwrap_or((chain.full, ""));
    let wanted = sheet.made(format!(in alloc; "{name}{}", i.saturating_add(1)));
    let mut name = sheet.names.take(alloc, wanted.as_str())?;
    sheet.add_made(&mut name, bounds(alloc, chain.before, parameters, ""));
    Ok(name)
}

/// The types of what the variants hold, each part by a template.
fn held_types<'a>(
    alloc: Global,
    variants: &[Variant<'a>],
    template: &str,
) -> Result<Vec<Leaf>, AllocError> {
    let mut types = Vec::new(alloc);
    for variant in variants {
        let held = held_type(alloc, &variant.content, template)?;
        types.push(Leaf::of(alloc, held)?)?;
    }
    Ok(types)
}

/// The type of what a variant holds.
fn held_type<'a>(
    alloc: Global,
    content: &Content<'a>,
    template: &str,
) -> Result<String, AllocError> {
    match content {
        Content::Nothing => String::from_str(alloc, "()"),
        Content::Parts(parts) => {
            let types = part_types(alloc, parts, template)?;
            tuple_of(alloc, &types, Items::Patterns, (4, 4))
        }
        Content::Fields(fields) => {
            let types = field_texts(alloc, &row_fields(alloc, fields)?, template)?;
            Ok(paired(alloc, types, Items::Patterns, 4, 4)?.flat)
        }
    }
}
