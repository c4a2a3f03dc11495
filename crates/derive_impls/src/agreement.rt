//! That the codec of a type is of what its values mean. A type parameter's codec says so of its
//! values, and the codec of a generic type says it by those of its parameters.

use crate::held::{field_terms, inner_tuple_terms, tuple_terms};
use crate::parameters::{content_types, encoded_types};
use crate::rows::ghost_pairs;
use crate::sheet::Sheet;
use derive_syntax::{Content, Definition, Fault, Shape, Token, Type, Variant};
use std::alloc::{AllocError, Global};

/// The ghost terms of a type for its codecs.
#[derive(Drop)]
pub(crate) struct Agreement {
    /// That a codec is of what the values mean.
    pub(crate) agrees: String,
    /// That what is written as bytes is read back.
    pub(crate) decodable: String,
}

/// The terms of a definition whose name has these parameters.
pub(crate) fn agreement_of<'a>(
    sheet: &mut Sheet,
    definition: &Definition<'a>,
    full: &str,
) -> Result<Agreement, Fault> {
    let terms = terms(sheet.alloc, definition, full)?;
    Ok(Agreement {
        agrees: sheet.short(terms.agrees.as_str()),
        decodable: terms.decodable,
    })
}

/// The terms of a type with no parameters.
pub(crate) fn agreed(alloc: Global) -> Result<Agreement, AllocError> {
    Ok(Agreement {
        agrees: String::from_str(alloc, "agreed")?,
        decodable: String::from_str(alloc, "refl")?,
    })
}

/// The terms, in which items are said by their paths.
fn terms<'a>(alloc: Global, definition: &Definition<'a>, full: &str) -> Result<Agreement, Fault> {
    if definition.parameters.is_empty() {
        return Ok(agreed(alloc)?);
    }
    match &definition.shape {
        Shape::Fields(fields) => {
            of_fields(alloc, definition, &encoded_types(alloc, fields)?, full)
        }
        Shape::Parts(parts) => of_parts(alloc, definition, parts),
        Shape::Variants(variants) => of_variants(alloc, definition, variants, full),
    }
}

/// The terms of a struct with fields of these types.
fn of_fields<'a>(
    alloc: Global,
    definition: &Definition<'a>,
    types: &[Type<'a>],
    full: &str,
) -> Result<Agreement, Fault> {
    let terms = all_terms(alloc, &definition.parameters, types)?;
    let pairs = paired_terms(alloc, &terms)?;
    Ok(Agreement {
        agrees: format!(in alloc;
            "seen_agrees {} ⟦<{full} as nano_schema::StructSchema>⟧.view",
            pairs.agrees
        )?,
        decodable: pairs.decodable,
    })
}

/// The terms of a struct with parts of these types.
fn of_parts<'a>(
    alloc: Global,
    definition: &Definition<'a>,
    types: &[Type<'a>],
) -> Result<Agreement, Fault> {
    let terms = all_terms(alloc, &definition.parameters, types)?;
    Ok(tuple_terms(alloc, &terms)?)
}

/// The terms of an enum of these variants.
fn of_variants<'a>(
    alloc: Global,
    definition: &Definition<'a>,
    variants: &[Variant<'a>],
    full: &str,
) -> Result<Agreement, Fault> {
    let mut agree = String::new(alloc);
    let mut decode = String::from_str(alloc, "refl")?;
    for variant in variants.iter().rev() {
        let content = of_content(alloc, &definition.parameters, &variant.content)?;
        let (first, read) = (content.agrees.as_str(), content.decodable.as_str());
        agree = if agree.is_empty() {
            format!(in alloc; "(last_agrees {first})")?
        } else {
            format!(in alloc; "(next_agrees {first} {agree})")?
        };
        decode = format!(in alloc; "(both_are_read {read} {decode})")?;
    }
    Ok(Agreement {
        agrees: format!(in alloc;
            "choice_agrees {agree} ⟦<{full} as nano_schema::EnumSchema>⟧.view"
        )?,
        decodable: decode,
    })
}

/// The terms of what a variant holds.
fn of_content<'a>(
    alloc: Global,
    parameters: &[Token<'a>],
    content: &Content<'a>,
) -> Result<Agreement, Fault> {
    let types = content_types(alloc, content)?;
    let terms = all_terms(alloc, parameters, &types)?;
    match content {
        Content::Parts(parts) if parts.len() > 1 => Ok(inner_tuple_terms(alloc, &terms)?),
        _ => Ok(paired_terms(alloc, &terms)?),
    }
}

/// The terms of each of these types.
fn all_terms<'a>(
    alloc: Global,
    parameters: &[Token<'a>],
    types: &[Type<'a>],
) -> Result<Vec<Agreement>, Fault> {
    let mut terms = Vec::new(alloc);
    for of in types {
        terms.push(field_terms(alloc, parameters, *of)?)?;
    }
    Ok(terms)
}

/// The terms of types that have these, as nested pairs, or of nothing.
fn paired_terms(alloc: Global, terms: &[Agreement]) -> Result<Agreement, AllocError> {
    if terms.is_empty() {
        return Ok(Agreement {
            agrees: agreed_of(alloc, "()")?,
            decodable: String::from_str(alloc, "refl")?,
        });
    }
    let mut agree = Vec::new(alloc);
    let mut decode = Vec::new(alloc);
    for of in terms {
        agree.push(of.agrees.clone()?)?;
        decode.push(of.decodable.clone()?)?;
    }
    Ok(Agreement {
        agrees: ghost_pairs(alloc, &agree, "pair_agrees ", " ")?,
        decodable: ghost_pairs(alloc, &decode, "both_are_read ", " ")?,
    })
}

/// That the codec of the type of this text is of what its values mean.
pub(crate) fn agreed_of(alloc: Global, text: &str) -> Result<String, AllocError> {
    format!(in alloc;
        "(agreed {{means = ⟦<{text} as nano_schema::Value>⟧.means}} \
        {{legal = ⟦<{text} as nano_schema::Value>⟧.legal}})"
    )
}
