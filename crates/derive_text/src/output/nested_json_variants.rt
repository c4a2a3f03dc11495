//! The variants of enums that contain themselves: their row in JSON, and what writes each in JSON and
//! in RON.

use crate::output::nested_bodies::{Held, arm, arm_of, parts_of};
use crate::output::nested_parameters::arguments;
use crate::output::nested_text::{JSON, TextNames, writer_of};
use derive_impls::chains::append_variants;
use derive_impls::labels::name_of;
use derive_impls::layout::{Brackets, Items, Piece, list};
use derive_impls::rows::Leaf;
use derive_impls::sheet::Sheet;
use derive_impls::target::Target;
use derive_impls::variants::bracketed;
use derive_syntax::{Case, Content, Field, Variant, variant_name};
use std::alloc::{AllocError, Global};

// ---- the row

/// The name of the row of the variants in JSON, where the parts of a variant that has several stand
/// between brackets: that row, if there are such, or the one of all formats, in which they stand so.
pub(crate) fn json_variants<'a>(
    sheet: &mut Sheet,
    target: &Target<'a>,
    variants: &[Variant<'a>],
    schemas: &[Leaf],
) -> Result<String, AllocError> {
    let alloc = sheet.alloc;
    if !have_several(variants) {
        return target.row.clone();
    }
    let mut full = name_of(sheet, target.name.text, "JsonVariants")?;
    sheet.add_made(&mut full, arguments(alloc, target));
    let mut leaves = Vec::new(alloc);
    for (variant, schema) in variants.iter().zip(schemas) {
        leaves.push(json_leaf(sheet, variant, schema)?)?;
    }
    append_variants(sheet, target, variants, (full.as_str(), &leaves))?;
    Ok(full)
}

/// Whether a variant has several parts.
fn have_several(variants: &[Variant<'_>]) -> bool {
    for variant in variants {
        if has_several(&variant.content) {
            return true;
        }
    }
    false
}

/// Whether there are several parts.
fn has_several(content: &Content<'_>) -> bool {
    match content {
        Content::Parts(parts) => parts.len() > 1,
        _ => false,
    }
}

/// A variant as it stands in the row of JSON, from how it stands in that of all formats.
fn json_leaf<'a>(
    sheet: &mut Sheet,
    variant: &Variant<'a>,
    schema: &Leaf,
) -> Result<Leaf, AllocError> {
    let alloc = sheet.alloc;
    let mut texts = Vec::new(alloc);
    for (i, text) in schema.texts.iter().enumerate() {
        if i > 0 && has_several(&variant.content) {
            let content = sheet.made(format!(in alloc; "nano_schema::Tuple<{text}>"));
            texts.push(sheet.short(content.as_str()))?;
        } else {
            texts.push(text.clone()?)?;
        }
    }
    Ok(Leaf {
        open: schema.open.clone()?,
        texts,
        close: schema.close,
        around: Vec::new(alloc),
    })
}

// ---- what writes each variant

/// What writes each variant in a format of texts.
pub(crate) fn arms<'a>(
    sheet: &mut Sheet,
    target: &Target<'a>,
    variants: &[Variant<'a>],
    format: TextNames,
) -> Result<String, AllocError> {
    let mut text = String::new(sheet.alloc);
    for variant in variants {
        let arm = match &variant.content {
            Content::Fields(fields) => fields_arm(sheet, target, variant, (fields, format))?,
            _ => parts_arm(sheet, target, variant, format)?,
        };
        sheet.add(&mut text, arm.as_str());
    }
    Ok(text)
}

/// What writes a variant with named fields.
fn fields_arm<'a>(
    sheet: &mut Sheet,
    target: &Target<'a>,
    variant: &Variant<'a>,
    (fields, format): (&[Field<'a>], TextNames),
) -> Result<String, AllocError> {
    let alloc = sheet.alloc;
    let mut bound = Vec::new(alloc);
    let end = Case::Snake.of_variant(alloc, variant.name.text)?;
    let writer = sheet.made(writer_of(alloc, target, format));
    let mut call = sheet.made(format!(in alloc; "{writer}::write_{end}(self, "));
    for (i, field) in fields.iter().enumerate() {
        let item = sheet.made(format!(in alloc; "{}: v{i}", field.name.text));
        sheet.push(&mut bound, item);
        sheet.add_made(&mut call, format!(in alloc; "v{i}, "));
    }
    sheet.add(&mut call, "alloc, d, s)");
    let open = sheet.made(format!(in alloc; "Self::{} {{", variant.name.text));
    let brackets = (open.as_str(), "}");
    let pattern = bracketed(alloc, brackets, &bound, Items::Fields, (12, 12))?.laid;
    let mut lines = Vec::new(alloc);
    sheet.push(&mut lines, call);
    arm_of(alloc, pattern.as_str(), &lines, "")
}

/// What writes a variant with its parts.
fn parts_arm<'a>(
    sheet: &mut Sheet,
    target: &Target<'a>,
    variant: &Variant<'a>,
    format: TextNames,
) -> Result<String, AllocError> {
    let alloc = sheet.alloc;
    let parts = parts_of(alloc, &variant.content)?;
    let mut lines = Vec::new(alloc);
    for part in &parts {
        if parts.len() > 1 && !target.is_within(part.of) {
            let (name, end) = (part.name.as_str(), format.name);
            let line = sheet.made(format!(in alloc;
                "let {name} = &nano_{end}_schema::Part {{ of: {name} }};"
            ));
            lines.push(sheet.short(line.as_str()))?;
        }
    }
    lines.push(write_parts(sheet, target, variant, (&parts, format))?)?;
    arm(alloc, variant, &lines, "")
}

/// The call that writes a variant with its parts.
fn write_parts<'a>(
    sheet: &mut Sheet,
    target: &Target<'a>,
    variant: &Variant<'a>,
    (parts, format): (&[Held<'a>], TextNames),
) -> Result<String, AllocError> {
    match parts {
        [] => write_name(sheet, variant, format),
        [part] => write_part(sheet, target, variant, (part, format)),
        _ => write_several(sheet, variant, parts, format),
    }
}

/// The call that writes a variant without content.
fn write_name<'a>(
    sheet: &mut Sheet,
    variant: &Variant<'a>,
    format: TextNames,
) -> Result<String, AllocError> {
    let alloc = sheet.alloc;
    let key = variant_name(alloc, variant, None)?;
    let given = if format.name == JSON.name {
        "alloc, "
    } else {
        ""
    };
    let call = sheet.made(format!(in alloc;
        "nano_{}_schema::write_unit_variant({given}\"{key}\", s)",
        format.name
    ));
    Ok(sheet.short(call.as_str()))
}

/// The call that writes a variant with one part.
fn write_part<'a>(
    sheet: &mut Sheet,
    target: &Target<'a>,
    variant: &Variant<'a>,
    (part, format): (&Held<'a>, TextNames),
) -> Result<String, AllocError> {
    let alloc = sheet.alloc;
    let key = variant_name(alloc, variant, None)?;
    let end = if target.is_within(part.of) {
        "within"
    } else {
        "other"
    };
    let call = sheet.made(format!(in alloc;
        "nano_{}_nested::write_variant_{end}(alloc, \"{key}\", {}, d, s)",
        format.name, part.name
    ));
    Ok(sheet.short(call.as_str()))
}

/// What the call is given that writes a variant of this key with several parts.
fn several<'a>(alloc: Global, key: &str, parts: &[Held<'a>]) -> Result<Vec<Piece>, AllocError> {
    let mut arguments = Vec::new(alloc);
    add_piece(alloc, &mut arguments, "alloc")?;
    add_piece(alloc, &mut arguments, key)?;
    for part in parts {
        add_piece(alloc, &mut arguments, part.name.as_str())?;
    }
    add_piece(alloc, &mut arguments, "d")?;
    add_piece(alloc, &mut arguments, "s")?;
    Ok(arguments)
}

/// Adds a text to pieces.
fn add_piece(alloc: Global, pieces: &mut Vec<Piece>, text: &str) -> Result<(), AllocError> {
    pieces.push(Piece::of(alloc, text)?)?;
    Ok(())
}

/// The call that writes a variant with two parts or three.
fn write_several<'a>(
    sheet: &mut Sheet,
    variant: &Variant<'a>,
    parts: &[Held<'a>],
    format: TextNames,
) -> Result<String, AllocError> {
    let alloc = sheet.alloc;
    let count = if parts.len() == 2 { "pair" } else { "triple" };
    let open = sheet.made(format!(in alloc; "nano_{}_nested::write_{count}_within(", format.name));
    let open = sheet.short(open.as_str());
    let name = sheet.made(variant_name(alloc, variant, None));
    let key = sheet.made(format!(in alloc; "\"{name}\""));
    let arguments = several(alloc, key.as_str(), parts)?;
    let brackets = Brackets {
        open: open.as_str(),
        close: ")",
        items: Items::Values,
        indent: 16,
        before: 16,
        after: 0,
    };
    Ok(list(alloc, brackets, &arguments)?.laid)
}
