//! Types that contain themselves, and types that contain each other.

use crate::check::defaults::is_number;
use crate::check::known::is_defined;
use crate::check::nested_defaults::check_default;
use crate::check::nested_json::check_nested_json;
use crate::cycle::Cycle;
use crate::nested::nested_part;
use crate::syntax::{Attributes, Content, Definition, Field, Shape, Source, Type, Variant};
use crate::token::{Token, TokenKind};
use derive_source::Fault;
use std::alloc::Global;

const TUPLE: &str = "is a tuple struct that contains itself: give its parts names";

const GENERIC: &str = "is a type parameter of one of types that contain each other, and such types \
    have none";

const BOUND: &str = "has a bound in a type that contains itself, where a type parameter has none";

const NO_CODEC: &str = "stands above a type that contains itself: write `bin`, `json`, `ron` or \
    several of them";

/// The words that may stand above a type that contains itself.
const WORDS: [&str; 4] = ["bin", "json", "ron", "levels"];

const NO_LEVELS: &str = "is for a type that contains itself, and this one does not";

const NO_ROOT: &str =
    "stands above a type whose levels are not counted: of types that contain each \
    other those of the one on each way back are";

const NO_SAME: &str = "is one of types that contain each other: the same line with formats stands \
    above each of them";

const NO_CYCLE: &str =
    "is one of types that contain each other: `#[cycle(name)]` stands above each \
    of them, with one name";

const NO_LIMIT: &str = "is no number of levels: that is one from 1 to 128";

const NO_MODULE: &str =
    "is another user-defined type in one that contains itself: it is defined in \
    this file, or a line `use crate::module::Type;` names the module of its file and the type";

const NO_FILE: &str = "contains itself, or has a part that does, and stands in another type that \
    contains itself: it is defined in a file of its own, and a line `use crate::module::Type;` names \
    that file's module and the type";

const NO_ASCII: &str =
    "is beyond ASCII, and stands in a type that contains itself, where names are \
    ASCII";

const NO_WORD: &str = "stands in a type that contains itself: above its fields and variants is no \
    attribute but `rename` and `default`";

/// An error where a type with formats contains itself in a way that is not written, by however many
/// other types.
pub(crate) fn check_nested<'a>(
    alloc: Global,
    source: &Source<'a>,
    definition: &Definition<'a>,
) -> Result<(), Fault> {
    if definition.attributes.codec.is_none() {
        return Ok(());
    }
    let cycle = source.cycle_of(alloc, definition)?;
    check_levels(definition, &cycle)?;
    match &cycle {
        Some(cycle) => check_cycle(alloc, source, definition, cycle),
        None => Ok(()),
    }
}

/// An error where one of types that contain each other, or one that contains itself, is not written.
fn check_cycle<'a>(
    alloc: Global,
    source: &Source<'a>,
    definition: &Definition<'a>,
    cycle: &Cycle<'a>,
) -> Result<(), Fault> {
    if let (Some(parameter), false) = (definition.parameters.first(), cycle.is_one()) {
        return Err(parameter.fault(GENERIC));
    }
    check_no_bounds(definition)?;
    check_formats(definition.attributes)?;
    check_same(source, definition, cycle)?;
    let attributes = definition.attributes;
    if attributes.json.is_used() || attributes.ron.is_used() {
        check_nested_json(definition)?;
    }
    match &definition.shape {
        Shape::Fields(fields) => check_fields(alloc, source, cycle, fields),
        Shape::Parts(_parts) => Err(definition.name.fault(TUPLE)),
        Shape::Variants(variants) => check_variants(alloc, source, cycle, variants),
    }
}

/// An error at the first bound of the type parameters of a type that contains itself.
fn check_no_bounds<'a>(definition: &Definition<'a>) -> Result<(), Fault> {
    for bound in &definition.bounds {
        if let Some(token) = bound.of.0.first() {
            return Err(token.fault(BOUND));
        }
    }
    Ok(())
}

/// An error where a limit of levels is no number of them, or stands above a type that has none.
fn check_levels<'a>(definition: &Definition<'a>, cycle: &Option<Cycle<'a>>) -> Result<(), Fault> {
    let Some(limit) = definition.attributes.levels else {
        return Ok(());
    };
    match cycle {
        None => return Err(limit.fault(NO_LEVELS)),
        Some(cycle) if !cycle.is_root(definition.name) => return Err(limit.fault(NO_ROOT)),
        Some(_cycle) => {}
    }
    let number = limit.quoted();
    match number.parse::<u8>() {
        Ok(levels) if levels >= 1 && levels <= 128 && is_number("u8", number) => Ok(()),
        _ => Err(limit.fault(NO_LIMIT)),
    }
}

/// An error at the name of one of several types that has other formats, or no cycle.
fn check_same<'a>(
    source: &Source<'a>,
    definition: &Definition<'a>,
    cycle: &Cycle<'a>,
) -> Result<(), Fault> {
    for other in &source.definitions {
        if !cycle.is_one() && other.name.is_among(&cycle.names) {
            check_other_of_cycle(definition.attributes, other)?;
        }
    }
    Ok(())
}

/// An error at the name of a type that has other formats than these, or no cycle.
fn check_other_of_cycle<'a>(here: Attributes<'a>, other: &Definition<'a>) -> Result<(), Fault> {
    let there = other.attributes;
    if there.bin != here.bin || there.json != here.json || there.ron != here.ron {
        return Err(other.name.fault(NO_SAME));
    }
    if there.cycle.is_none() {
        return Err(other.name.fault(NO_CYCLE));
    }
    Ok(())
}

/// An error at the first word above a type that asks for more than these formats in both directions.
fn check_formats(attributes: Attributes<'_>) -> Result<(), Fault> {
    let mut in_comment = false;
    for token in attributes.above {
        match token.kind {
            TokenKind::Attribute => in_comment = true,
            TokenKind::AttributeEnd => in_comment = false,
            TokenKind::Word if in_comment && !WORDS.contains(&token.text) => {
                return Err(token.fault(NO_CODEC));
            }
            _ => {}
        }
    }
    Ok(())
}

/// An error at a field that is not written.
fn check_fields<'a>(
    alloc: Global,
    source: &Source<'a>,
    cycle: &Cycle<'a>,
    fields: &[Field<'a>],
) -> Result<(), Fault> {
    for field in fields {
        check_words(alloc, field.attributes)?;
        check_part(alloc, source, cycle, field.of)?;
        check_default(alloc, cycle, *field)?;
    }
    Ok(())
}

/// An error at an attribute of a field that changes more than its name and its default.
fn check_words(alloc: Global, attributes: Attributes<'_>) -> Result<(), Fault> {
    let aliases = attributes.aliases(alloc)?;
    match attributes.skip.or(aliases.first().copied()) {
        Some(word) => Err(word.fault(NO_WORD)),
        None => check_ascii(attributes),
    }
}

/// An error at a name that is given and is beyond ASCII.
fn check_ascii(attributes: Attributes<'_>) -> Result<(), Fault> {
    match attributes.rename {
        Some(name) if !name.quoted().is_ascii() => Err(name.fault(NO_ASCII)),
        _ => Ok(()),
    }
}

/// An error at a part that is not written.
fn check_parts<'a>(
    alloc: Global,
    source: &Source<'a>,
    cycle: &Cycle<'a>,
    parts: &[Type<'a>],
) -> Result<(), Fault> {
    for part in parts {
        check_part(alloc, source, cycle, *part)?;
    }
    Ok(())
}

/// An error at a part that is not written, or at another type that has no impls to cite.
fn check_part<'a>(
    alloc: Global,
    source: &Source<'a>,
    cycle: &Cycle<'a>,
    of: Type<'a>,
) -> Result<(), Fault> {
    let part = nested_part(alloc, cycle, of)?;
    for token in of.0 {
        if part.others.contains(&token.text) {
            check_other(alloc, source, *token)?;
        }
    }
    Ok(())
}

/// An error at another type that no type of the file is and no line brings in, or that is one of the
/// file and contains itself or leads to one that does.
fn check_other<'a>(alloc: Global, source: &Source<'a>, other: Token<'a>) -> Result<(), Fault> {
    if !is_defined(source, other) {
        return match source.module_of_type(alloc, other.text)? {
            Some(_module) => Ok(()),
            None => Err(other.fault(NO_MODULE)),
        };
    }
    let contained = source.contained_in(alloc, other)?;
    for name in &contained {
        if name.is_among(&source.contained_in(alloc, *name)?) {
            return Err(other.fault(NO_FILE));
        }
    }
    Ok(())
}

/// An error at a variant that is not written.
fn check_variants<'a>(
    alloc: Global,
    source: &Source<'a>,
    cycle: &Cycle<'a>,
    variants: &[Variant<'a>],
) -> Result<(), Fault> {
    for variant in variants {
        check_ascii(variant.attributes)?;
        match &variant.content {
            Content::Nothing => {}
            Content::Parts(parts) => check_parts(alloc, source, cycle, parts)?,
            Content::Fields(fields) => check_fields(alloc, source, cycle, fields)?,
        }
    }
    Ok(())
}
