//! The terms of a type among the fields, which may have type parameters within.

use crate::agreement::{Agreement, agreed_of};
use crate::tuples::{PLACES, named};
use crate::types::{LibraryType, argument_of, type_text};
use derive_syntax::{Fault, Token, Type, listed, tuple_parts};
use std::alloc::{AllocError, Global};

/// A type of the library that holds values of another one, and agrees as that does.
#[derive(Clone, Copy)]
struct Holder {
    /// Which it is.
    of: LibraryType,
    /// The term, before that of the type that it holds.
    open: &'static str,
    /// The rest of the term.
    close: &'static str,
}

const HOLDERS: [Holder; 4] = [
    Holder {
        of: ("Option", "option"),
        open: "(option_agrees ",
        close: ")",
    },
    Holder {
        of: ("Vec", "vec"),
        open: "(seen_agrees (list_agrees ",
        close: ") (λ x. x.items))",
    },
    Holder {
        of: ("Box", "boxed"),
        open: "(seen_agrees ",
        close: " (λ x. x.value))",
    },
    Holder {
        of: ("LinkedList", "collections"),
        open: "(list_agrees ",
        close: ")",
    },
];

const UNKNOWN: &str = "is a type parameter within a type that is no `Option`, `Vec`, `Box`, \
    `LinkedList` or tuple";

/// The terms of the type of a field or a part.
pub(crate) fn field_terms<'a>(
    alloc: Global,
    parameters: &[Token<'a>],
    of: Type<'a>,
) -> Result<Agreement, Fault> {
    held_terms(alloc, parameters, of, of.0.len())
}

/// The terms of a type in which types stand in one another so deep at most.
fn held_terms<'a>(
    alloc: Global,
    parameters: &[Token<'a>],
    of: Type<'a>,
    depth: usize,
) -> Result<Agreement, Fault> {
    let Some(parameter) = of.parameter_of(parameters) else {
        return Ok(known(alloc, of)?);
    };
    if let [_alone] = of.0 {
        return Ok(of_parameter(alloc, parameter)?);
    }
    let (holder, types) = opened(alloc, of)?;
    let mut terms = Vec::new(alloc);
    for part in &types {
        if depth == 0 {
            return Err(parameter.fault(UNKNOWN));
        }
        terms.push(held_terms(alloc, parameters, *part, depth - 1)?)?;
    }
    match around(alloc, holder, &terms)? {
        Some(agreement) => Ok(agreement),
        None => Err(parameter.fault(UNKNOWN)),
    }
}

/// How many tokens `Vec<T>` has.
const OF_ONE: usize = 4;

/// Whether a type parameter stands deeper in one of these types than in `Option<T>`.
pub(crate) fn are_deep<'a>(parameters: &[Token<'a>], types: &[Type<'a>]) -> bool {
    for of in types {
        if of.0.len() > OF_ONE && of.parameter_of(parameters).is_some() {
            return true;
        }
    }
    false
}

/// What holds values of other types, and these: a type of the library, or `None` and the parts of
/// a tuple. Nothing is held where it is another type.
fn opened<'a>(alloc: Global, of: Type<'a>) -> Result<(Option<Holder>, Vec<Type<'a>>), AllocError> {
    for holder in HOLDERS {
        if let Some(argument) = argument_of(of, holder.of) {
            return Ok((Some(holder), listed(alloc, argument)?));
        }
    }
    match tuple_parts(of) {
        Some(parts) => Ok((None, listed(alloc, parts)?)),
        None => Ok((None, Vec::new(alloc))),
    }
}

/// The terms of what holds values of types that have these terms, if there are as many as it has.
fn around(
    alloc: Global,
    holder: Option<Holder>,
    terms: &[Agreement],
) -> Result<Option<Agreement>, AllocError> {
    match (holder, terms) {
        (Some(holder), [of]) => Ok(Some(Agreement {
            agrees: format!(in alloc; "{}{}{}", holder.open, of.agrees, holder.close)?,
            decodable: of.decodable.clone()?,
        })),
        (None, [_, _, ..]) => Ok(Some(inner_tuple_terms(alloc, terms)?)),
        _ => Ok(None),
    }
}

/// The terms of a tuple of parts that have these, within a term.
pub(crate) fn inner_tuple_terms(
    alloc: Global,
    terms: &[Agreement],
) -> Result<Agreement, AllocError> {
    let tuple = tuple_terms(alloc, terms)?;
    Ok(Agreement {
        agrees: format!(in alloc; "({})", tuple.agrees)?,
        decodable: tuple.decodable,
    })
}

/// The terms of a tuple of parts that have these.
pub(crate) fn tuple_terms(alloc: Global, terms: &[Agreement]) -> Result<Agreement, AllocError> {
    let mut agree = Vec::new(alloc);
    let mut decode = Vec::new(alloc);
    for part in terms {
        agree.push(part.agrees.clone()?)?;
        decode.push(part.decodable.clone()?)?;
    }
    let pairs = in_turn(alloc, &agree, "pair_agrees ", " ")?;
    let view = in_turn(alloc, &named(alloc, "x.", &PLACES, terms.len())?, "", ", ")?;
    Ok(Agreement {
        agrees: format!(in alloc; "seen_agrees {pairs} (λ x. {view})")?,
        decodable: in_turn(alloc, &decode, "both_are_read ", " ")?,
    })
}

/// The texts as pairs of a ghost term, each text before the pair of the later ones.
pub(crate) fn in_turn(
    alloc: Global,
    texts: &[String],
    before: &str,
    between: &str,
) -> Result<String, AllocError> {
    let mut pairs = String::new(alloc);
    for text in texts.iter().rev() {
        pairs = if pairs.is_empty() {
            text.clone()?
        } else {
            format!(in alloc; "({before}{text}{between}{pairs})")?
        };
    }
    Ok(pairs)
}

/// The terms of a type parameter.
fn of_parameter<'a>(alloc: Global, parameter: Token<'a>) -> Result<Agreement, AllocError> {
    Ok(Agreement {
        agrees: format!(in alloc; "{}.agrees", parameter.text)?,
        decodable: format!(in alloc; "{}.is_decodable", parameter.text)?,
    })
}

/// The terms of a type without parameters.
fn known<'a>(alloc: Global, of: Type<'a>) -> Result<Agreement, AllocError> {
    Ok(Agreement {
        agrees: agreed_of(alloc, type_text(alloc, of)?.as_str())?,
        decodable: String::from_str(alloc, "refl")?,
    })
}
