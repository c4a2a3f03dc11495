//! The rows of types that contain themselves: `Within` stands around fields and parts that hold
//! values of the type, and `Other` around the rest.

use crate::output::nested_bodies::{record_making, variants_making};
use crate::output::nested_parameters::arguments_in;
use derive_impls::chains::append_owned_chains;
use derive_impls::defaults::append_default;
use derive_impls::fields::field_texts;
use derive_impls::labels::{append_labels, name_of, variant_names};
use derive_impls::layout::Items;
use derive_impls::names::in_type_name;
use derive_impls::records::laid;
use derive_impls::rows::{Leaf, append_row, paired};
use derive_impls::sheet::Sheet;
use derive_impls::target::Target;
use derive_impls::tuples::part_types;
use derive_impls::types::{optional_part, type_text};
use derive_syntax::{Content, Field, Type, Variant, field_name};
use std::alloc::{AllocError, Global};

/// What a type that contains itself is made of.
#[derive(Drop)]
pub(crate) struct NestedRow {
    /// The type of the values of its fields, or of the content of its variants.
    pub(crate) values: String,
    /// The body of what makes it of those.
    pub(crate) making: String,
    /// The fields of a struct, or the variants, as they stand in its row.
    pub(crate) leaves: Vec<Leaf>,
    /// What each variant holds, as it stands in the row of its content.
    pub(crate) contents: Vec<Vec<Leaf>>,
}

/// Appends the row of a struct.
pub(crate) fn append_record_row<'a>(
    sheet: &mut Sheet,
    target: &Target<'a>,
    fields: &[Field<'a>],
) -> Result<NestedRow, AllocError> {
    let leaves = field_leaves(sheet, target, target.name.text, fields)?;
    append_row(sheet, target.row.as_str(), &leaves)?;
    Ok(NestedRow {
        values: laid(sheet.alloc, fields, "$TYPE", Items::Types, (4, 18))?,
        making: record_making(sheet.alloc, target, fields)?,
        leaves,
        contents: Vec::new(sheet.alloc),
    })
}

/// The fields of an owner as they stand in its row, after their labels.
fn field_leaves<'a>(
    sheet: &mut Sheet,
    target: &Target<'a>,
    owner: &str,
    fields: &[Field<'a>],
) -> Result<Vec<Leaf>, AllocError> {
    let mut names = Vec::new(sheet.alloc);
    for field in fields {
        names.push(field_name(sheet.alloc, *field, None)?)?;
    }
    let labels = append_labels(sheet, owner, &names)?;
    labelled(sheet, target, (owner, fields), labels)
}

/// The fields of an owner, with these labels, as they stand in a row: after the types that stand
/// for their defaults.
fn labelled<'a>(
    sheet: &mut Sheet,
    target: &Target<'a>,
    (owner, fields): (&str, &[Field<'a>]),
    labels: Vec<String>,
) -> Result<Vec<Leaf>, AllocError> {
    let alloc = sheet.alloc;
    let mut leaves = Vec::new(alloc);
    for (field, label) in fields.iter().zip(labels) {
        let (kind, part) = match (field.attributes.default, optional_part(field.of)) {
            (Some(_word), _) => ("nano_schema::Defaulted<", field.of),
            (None, Some(part)) => ("nano_schema::Optional<", part),
            (None, None) => ("nano_schema::Required<", field.of),
        };
        let mut texts = Vec::new(alloc);
        sheet.push(&mut texts, label);
        let item = sheet.made(type_text(alloc, part));
        sheet.push(&mut texts, item);
        if field.attributes.default.is_some() {
            texts.push(append_default(sheet, owner, *field)?)?;
        }
        leaves.push(leaf(sheet, target, (kind, field.of), texts))?;
    }
    Ok(leaves)
}

/// A field or a part of this kind and type, whose arguments are these texts, as it stands in a row
/// of a type.
fn leaf<'a>(
    sheet: &mut Sheet,
    target: &Target<'a>,
    (kind, of): (&str, Type<'a>),
    texts: Vec<String>,
) -> Leaf {
    let alloc = sheet.alloc;
    let around = if target.is_within(of) {
        "nano_levels::Within<"
    } else {
        "nano_levels::Other<"
    };
    let open = sheet.made(format!(in alloc; "{around}{kind}"));
    Leaf {
        open: sheet.short(open.as_str()),
        texts,
        close: ">>",
        around: Vec::new(alloc),
    }
}

/// Parts without names as they stand in a row of a type.
fn part_leaves<'a>(
    sheet: &mut Sheet,
    target: &Target<'a>,
    parts: &[Type<'a>],
) -> Result<Vec<Leaf>, AllocError> {
    let alloc = sheet.alloc;
    let mut leaves = Vec::new(alloc);
    for part in parts {
        let mut texts = Vec::new(alloc);
        let item = sheet.made(type_text(alloc, *part));
        sheet.push(&mut texts, item);
        leaves.push(leaf(sheet, target, ("nano_schema::Newtype<", *part), texts))?;
    }
    Ok(leaves)
}

/// Appends the row of an enum.
pub(crate) fn append_choice_row<'a>(
    sheet: &mut Sheet,
    target: &Target<'a>,
    variants: &[Variant<'a>],
) -> Result<NestedRow, AllocError> {
    let names = variant_names(sheet, variants, None);
    let labels = append_labels(sheet, target.name.text, &names)?;
    let mut schemas = Vec::new(sheet.alloc);
    let mut contents = Vec::new(sheet.alloc);
    for (variant, label) in variants.iter().zip(labels) {
        let leaves = content_leaves(sheet, target, variant)?;
        schemas.push(variant_leaf(sheet, target, variant, (label, &leaves))?)?;
        sheet.push(&mut contents, leaves);
    }
    let held = held_values(sheet.alloc, variants)?;
    append_owned_chains(sheet, target, variants, (&schemas, &held))?;
    Ok(NestedRow {
        values: target.values.clone()?,
        making: variants_making(sheet, variants)?,
        leaves: schemas,
        contents,
    })
}

/// What a variant holds, as it stands in the row of its content.
fn content_leaves<'a>(
    sheet: &mut Sheet,
    target: &Target<'a>,
    variant: &Variant<'a>,
) -> Result<Vec<Leaf>, AllocError> {
    let alloc = sheet.alloc;
    match &variant.content {
        Content::Nothing => Ok(Vec::new(alloc)),
        Content::Parts(parts) => part_leaves(sheet, target, parts),
        Content::Fields(fields) => {
            let owner = sheet.made(owner_of(alloc, target, variant));
            field_leaves(sheet, target, owner.as_str(), fields)
        }
    }
}

/// What the names of a variant's own types begin with.
fn owner_of<'a>(
    alloc: Global,
    target: &Target<'a>,
    variant: &Variant<'a>,
) -> Result<String, AllocError> {
    let name = in_type_name(alloc, variant.name.text)?;
    format!(in alloc; "{}{name}", target.name.text)
}

/// A variant of this label as it stands in the row of an enum, after the row of its content.
fn variant_leaf<'a>(
    sheet: &mut Sheet,
    target: &Target<'a>,
    variant: &Variant<'a>,
    (label, leaves): (String, &[Leaf]),
) -> Result<Leaf, AllocError> {
    let content = variant_content(sheet, target, variant, leaves)?;
    let mut texts = Vec::new(sheet.alloc);
    sheet.push(&mut texts, label);
    sheet.push(&mut texts, content);
    Ok(Leaf {
        open: sheet.short("nano_schema::Variant<"),
        texts,
        close: ">",
        around: Vec::new(sheet.alloc),
    })
}

/// What a variant holds, as it stands in the row of an enum, after the row of these leaves of it.
fn variant_content<'a>(
    sheet: &mut Sheet,
    target: &Target<'a>,
    variant: &Variant<'a>,
    leaves: &[Leaf],
) -> Result<String, AllocError> {
    let alloc = sheet.alloc;
    let is_struct = match &variant.content {
        Content::Nothing => return Ok(sheet.short("nano_levels::Other<nano_schema::Unit>")),
        Content::Parts(_parts) => false,
        Content::Fields(_fields) => true,
    };
    if let ([leaf], false) = (leaves, is_struct) {
        return Ok(leaf.piece(alloc, 0, 0)?.flat);
    }
    let owner = sheet.made(owner_of(alloc, target, variant));
    let mut row = name_of(sheet, owner.as_str(), "Parts")?;
    sheet.add_made(&mut row, arguments_in(alloc, target, &variant.content));
    append_row(sheet, row.as_str(), leaves)?;
    if !is_struct {
        return Ok(row);
    }
    let content = sheet.made(format!(in alloc; "nano_schema::Struct<{row}>"));
    Ok(sheet.short(content.as_str()))
}

/// The types of what the variants hold.
fn held_values<'a>(alloc: Global, variants: &[Variant<'a>]) -> Result<Vec<Leaf>, AllocError> {
    let mut held = Vec::new(alloc);
    for variant in variants {
        let types = held_types(alloc, &variant.content)?;
        let text = paired(alloc, types, Items::Patterns, 4, 4)?.flat;
        held.push(Leaf::of(alloc, text)?)?;
    }
    Ok(held)
}

/// The types of what a variant holds, each as a text.
fn held_types<'a>(alloc: Global, content: &Content<'a>) -> Result<Vec<String>, AllocError> {
    match content {
        Content::Nothing => Ok(Vec::new(alloc)),
        Content::Parts(parts) => part_types(alloc, parts, "$TYPE"),
        Content::Fields(fields) => field_texts(alloc, fields, "$TYPE"),
    }
}
