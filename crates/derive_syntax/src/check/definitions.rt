//! One struct or enum.

use crate::check::bounds::check_bounds;
use crate::check::defaults::{check_default, stands_in_row};
use crate::check::keys::check_key;
use crate::check::known::check_type;
use crate::check::names::{EncodedName, check_distinct, check_encoded, check_name};
use crate::parse::AS_COMMENT;
use crate::syntax::{Attributes, Content, Definition, Field, Shape, Source, Type, Variant};
use crate::token::Token;
use derive_source::{Case, Fault};
use std::alloc::Global;

const NO_CODEC: &str = "stands in a type with no formats: write `// nanoserde: bin json ron` above \
    it, or those of the three that it has";

const SKIPPED: &str = "is for a field that is read, and this one is skipped";

/// An error where a struct or an enum cannot be written.
pub(crate) fn check_definition<'a>(
    alloc: Global,
    source: &Source<'a>,
    definition: &Definition<'a>,
) -> Result<(), Fault> {
    check_above(definition)?;
    let case = definition.attributes.case;
    match &definition.shape {
        Shape::Fields(fields) => check_fields(alloc, source, definition, fields, case),
        Shape::Parts(parts) => check_parts(source, definition, parts),
        Shape::Variants(variants) => check_variants(alloc, source, definition, variants),
    }
}

/// An error where what stands above a type cannot be there, or its type parameters cannot.
fn check_above<'a>(definition: &Definition<'a>) -> Result<(), Fault> {
    check_distinct(&definition.parameters)?;
    check_attributes(definition.attributes, definition)?;
    check_transparent(definition)?;
    check_key(definition)?;
    check_case(definition)?;
    check_unknown(definition)?;
    if definition.attributes.codec.is_some() {
        check_bounds(definition)?;
    }
    Ok(())
}

/// An error where a type is called transparent that is not a newtype.
fn check_transparent<'a>(definition: &Definition<'a>) -> Result<(), Fault> {
    let Some(word) = definition.attributes.transparent else {
        return Ok(());
    };
    match &definition.shape {
        Shape::Parts(parts) if parts.len() == 1 => Ok(()),
        _ => Err(word.fault("is for a struct of one part without a name")),
    }
}

const HYPHENS: &str = "is for JSON alone: a name of RON is one word";

const NO_NAMES: &str = "is for fields with names and for variants, and none of them is here";

/// An error where the names in a type cannot be in the case that is given.
fn check_case<'a>(definition: &Definition<'a>) -> Result<(), Fault> {
    let attributes = definition.attributes;
    let (Some(text), Some(case)) = (attributes.rename_all, attributes.case) else {
        return Ok(());
    };
    match &definition.shape {
        Shape::Parts(_) => Err(text.fault(NO_NAMES)),
        Shape::Fields(fields) if fields.is_empty() => Err(text.fault(NO_NAMES)),
        _ if case.has_hyphens() && attributes.ron.is_used() => Err(text.fault(HYPHENS)),
        _ => Ok(()),
    }
}

const NO_JSON: &str = "is for JSON that is read: write `json` or `de_json` beside it";

const NO_RON: &str = "is for RON that is read: write `ron` or `de_ron` beside it";

const SKIPS: &str = "is for a struct with named fields: a variant with fields skips those of \
    other names";

const REJECTS: &str = "is for a struct with named fields: a variant with fields rejects those of \
    other names";

/// An error where fields of unknown names are denied that no reader of JSON would skip, or allowed
/// that no reader of RON would reject.
fn check_unknown<'a>(definition: &Definition<'a>) -> Result<(), Fault> {
    let above = definition.attributes;
    let shape = &definition.shape;
    check_read(shape, above.deny_unknown, above.json.reads, NO_JSON, SKIPS)?;
    check_read(shape, above.allow_unknown, above.ron.reads, NO_RON, REJECTS)
}

/// An error at a word for structs that are read in a format, where it is not read, or where the
/// type is no struct.
fn check_read<'a>(
    shape: &Shape<'a>,
    word: Option<Token<'a>>,
    is_read: bool,
    not_read: &'static str,
    no_struct: &'static str,
) -> Result<(), Fault> {
    match (word, shape) {
        (None, _) => Ok(()),
        (Some(_word), Shape::Fields(_)) if is_read => Ok(()),
        (Some(word), Shape::Fields(_)) => Err(word.fault(not_read)),
        (Some(word), _) => Err(word.fault(no_struct)),
    }
}

/// An error where fields, whose names are in this case, cannot be written.
fn check_fields<'a>(
    alloc: Global,
    source: &Source<'a>,
    definition: &Definition<'a>,
    fields: &[Field<'a>],
    case: Option<Case>,
) -> Result<(), Fault> {
    let mut encoded_names = Vec::new(alloc);
    for field in fields {
        check_field(alloc, source, definition, *field)?;
        add_names(alloc, definition, *field, case, &mut encoded_names)?;
    }
    check_distinct_fields(alloc, fields)?;
    check_encoded(&encoded_names)
}

/// An error where two fields have one name.
fn check_distinct_fields<'a>(alloc: Global, fields: &[Field<'a>]) -> Result<(), Fault> {
    let mut names = Vec::new(alloc);
    for field in fields {
        names.push(field.name)?;
    }
    check_distinct(&names)
}

/// An error where a field cannot be written, whatever its names are.
fn check_field<'a>(
    alloc: Global,
    source: &Source<'a>,
    definition: &Definition<'a>,
    field: Field<'a>,
) -> Result<(), Fault> {
    check_attributes(field.attributes, definition)?;
    check_default(source, definition, field)?;
    if field.attributes.skip.is_some() {
        check_none(&field.attributes.aliases(alloc)?)?;
    }
    if stands_in_row(field) {
        check_type(source, definition, field.of)
    } else {
        Ok(())
    }
}

/// Adds the names of a field that is not skipped, or an error where one cannot be written.
fn add_names<'a>(
    alloc: Global,
    definition: &Definition<'a>,
    field: Field<'a>,
    case: Option<Case>,
    encoded_names: &mut Vec<EncodedName<'a>>,
) -> Result<(), Fault> {
    if field.attributes.skip.is_some() {
        return Ok(());
    }
    let name = EncodedName::of_field(alloc, field, case)?;
    add_name(definition, name, encoded_names)?;
    add_aliases(alloc, definition, field, encoded_names)
}

/// Adds a name, or an error where it cannot be written.
fn add_name<'a>(
    definition: &Definition<'a>,
    name: EncodedName<'a>,
    encoded_names: &mut Vec<EncodedName<'a>>,
) -> Result<(), Fault> {
    check_name(&name, definition.attributes)?;
    encoded_names.push(name)?;
    Ok(())
}

/// Adds the aliases of a field to the names, or an error where one cannot be written.
fn add_aliases<'a>(
    alloc: Global,
    definition: &Definition<'a>,
    field: Field<'a>,
    encoded_names: &mut Vec<EncodedName<'a>>,
) -> Result<(), Fault> {
    for alias in &field.attributes.aliases(alloc)? {
        add_name(
            definition,
            EncodedName::of_alias(alloc, *alias)?,
            encoded_names,
        )?;
    }
    Ok(())
}

/// An error where a field that is skipped has an alias.
fn check_none(aliases: &[Token<'_>]) -> Result<(), Fault> {
    match aliases.first() {
        Some(alias) => Err(alias.fault(SKIPPED)),
        None => Ok(()),
    }
}

/// An error where a type, or a field or a variant of it, has attributes and no formats, or one of
/// Rust's attributes that would change the impls.
fn check_attributes<'a>(
    attributes: Attributes<'a>,
    definition: &Definition<'a>,
) -> Result<(), Fault> {
    let of = definition.attributes;
    match (attributes.first, attributes.serde, attributes.cfg) {
        (Some(word), _, _) if of.codec.is_none() => Err(word.fault(NO_CODEC)),
        _ if of.codec.is_none() => Ok(()),
        (_, Some(word), _) if !of.is_serde => Err(word.fault(AS_COMMENT)),
        (_, _, Some(word)) => Err(word.fault(CFG)),
        _ => Ok(()),
    }
}

const CFG: &str = "leaves out what the impls below have: a type with formats has no `cfg`";

/// An error where a tuple struct or tuple variant cannot be written.
fn check_parts<'a>(
    source: &Source<'a>,
    definition: &Definition<'a>,
    parts: &[Type<'a>],
) -> Result<(), Fault> {
    for part in parts {
        check_type(source, definition, *part)?;
    }
    Ok(())
}

/// An error where variants cannot be written.
fn check_variants<'a>(
    alloc: Global,
    source: &Source<'a>,
    definition: &Definition<'a>,
    variants: &[Variant<'a>],
) -> Result<(), Fault> {
    let mut encoded_names = Vec::new(alloc);
    for variant in variants {
        check_attributes(variant.attributes, definition)?;
        let name = EncodedName::of_variant(alloc, variant, definition.attributes.case)?;
        add_name(definition, name, &mut encoded_names)?;
        check_content(alloc, source, definition, &variant.content)?;
    }
    check_distinct_variants(alloc, variants)?;
    check_encoded(&encoded_names)
}

/// An error where two variants have one name.
fn check_distinct_variants<'a>(alloc: Global, variants: &[Variant<'a>]) -> Result<(), Fault> {
    let mut names = Vec::new(alloc);
    for variant in variants {
        names.push(variant.name)?;
    }
    check_distinct(&names)
}

/// An error where what a variant holds cannot be written.
fn check_content<'a>(
    alloc: Global,
    source: &Source<'a>,
    definition: &Definition<'a>,
    content: &Content<'a>,
) -> Result<(), Fault> {
    match content {
        Content::Nothing => Ok(()),
        Content::Parts(parts) => check_parts(source, definition, parts),
        // The case of an enum is that of its variants' names alone.
        Content::Fields(fields) => check_fields(alloc, source, definition, fields, None),
    }
}
