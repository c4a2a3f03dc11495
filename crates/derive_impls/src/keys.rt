//! Keys: that `==` and `cmp` of a type are those of what its values mean.

use crate::key_names::CITED;
use crate::key_terms::{Terms, library_terms, of_terms, tuple_terms};
use crate::sheet::Sheet;
use crate::target::Target;
use crate::views::imports_of;
use derive_syntax::{Fault, Holes, Shape, Token, Type, Variant, listed, tuple_parts};
use std::alloc::{AllocError, Global};

/// A key that later ones may have as a part.
#[derive(Drop)]
pub(crate) struct Known {
    /// Its name.
    name: String,
    /// Its terms, as those of a part.
    terms: Terms,
}

const KEY: &str = "
// ---- a key

impl$BOUNDS nano_schema::Key for $FULL$OPEN
$IMPORTS    ghost order = { $ORDER };

    ghost exact = { $EXACT };
}

impl$SORTED nano_schema::OrderedKey for $FULL$OPEN
$IMPORTS    ghost follows = { $FOLLOWS };
}";

/// Appends what makes a type a key, where it is called one.
pub(crate) fn append_key<'a>(
    sheet: &mut Sheet,
    target: &Target<'a>,
    shape: &Shape<'a>,
) -> Result<(), Fault> {
    let terms = match shape {
        _ if target.attributes.key.is_none() => return Ok(()),
        Shape::Fields(_) => return Ok(()),
        Shape::Parts(parts) => of_parts(sheet, target, parts)?,
        Shape::Variants(variants) => of_variants(sheet.alloc, target, variants)?,
    };
    let order = order_of(sheet, target, shape)?;
    append_impls(sheet, target, &terms, order.as_str());
    if target.parameters.is_empty() {
        let known = known_key(sheet.alloc, target.name.text, &terms)?;
        sheet.keys.push(known)?;
    }
    Ok(())
}

/// The order in which keys of a type are written.
fn order_of<'a>(
    sheet: &mut Sheet,
    target: &Target<'a>,
    shape: &Shape<'a>,
) -> Result<String, AllocError> {
    let row = match shape {
        Shape::Parts(parts) if parts.len() > 1 => target.values.as_str(),
        Shape::Variants(_) => {
            sheet.import("ghost use Rattle.nano_schema.specs.UserTypes.{variants};");
            return String::from_str(sheet.alloc, "variants");
        }
        _ => target.row.as_str(),
    };
    format!(in sheet.alloc; "⟦<{row} as nano_schema::Key>⟧.order")
}

/// Appends the impls of a key that has these terms and this order.
fn append_impls<'a>(sheet: &mut Sheet, target: &Target<'a>, terms: &Terms, order: &str) {
    let alloc = sheet.alloc;
    for (name, line) in &CITED {
        if terms.exact.as_str().contains(*name) || terms.follows.as_str().contains(*name) {
            sheet.import(*line);
        }
    }
    let key = sheet.short(": nano_schema::Key");
    let sorted = sheet.short(": nano_schema::OrderedKey");
    let mut holes = target.holes(alloc);
    holes.put_made("BOUNDS", target.bounds(alloc, key.as_str()));
    holes.put_made("SORTED", target.bounds(alloc, sorted.as_str()));
    holes.put("ORDER", sheet.short(order).as_str());
    holes.put("EXACT", sheet.short(terms.exact.as_str()).as_str());
    holes.put("FOLLOWS", sheet.short(terms.follows.as_str()).as_str());
    let end = if terms.imports.is_empty() { "" } else { "\n" };
    let imports = sheet.made(format!(in alloc; "{}{end}", terms.imports));
    holes.put("IMPORTS", imports.as_str());
    sheet.write(KEY, &holes);
}

/// The terms of a struct: those of the pair of its first part and the pair of the others.
fn of_parts<'a>(sheet: &Sheet, target: &Target<'a>, parts: &[Type<'a>]) -> Result<Terms, Fault> {
    let alloc = sheet.alloc;
    let mut terms = Vec::new(alloc);
    for part in parts {
        let depth = part.0.len();
        terms.push(part_terms(alloc, &sheet.keys, &target.parameters, *part, depth)?)?;
    }
    Ok(of_terms(alloc, &terms)?)
}

/// The terms of an enum, whose values are listed.
fn of_variants<'a>(
    alloc: Global,
    target: &Target<'a>,
    variants: &[Variant<'a>],
) -> Result<Terms, AllocError> {
    let owner = target.name.text;
    let mut names = Vec::new(alloc);
    let mut values = String::new(alloc);
    let mut cases = String::new(alloc);
    for variant in variants {
        let name = variant.name.text;
        names.push(format!(in alloc; "{name} as {owner}_{name}")?)?;
        values.push_str(format!(in alloc; "{owner}_{name} ∷ ")?.as_str())?;
        cases.push_str(format!(in alloc; "| {owner}_{name} ↦ placed refl ")?.as_str())?;
    }
    let all = format!(in alloc;
        "(λ x. elim x as (IsPlaced ⟦<{owner} as nano_schema::Value>⟧.means ({values}[])) [ {cases}])"
    )?;
    Ok(Terms {
        exact: format!(in alloc; "variants_tell {all} ⟦<{owner} as PartialEq>⟧.eq refl")?,
        follows: format!(in alloc; "variants_follow {all} ⟦<{owner} as Ord>⟧.cmp refl")?,
        imports: imports_of(alloc, target, &names)?,
    })
}

/// A key of this name and these terms, as a part of others.
fn known_key(alloc: Global, name: &str, terms: &Terms) -> Result<Known, AllocError> {
    let means = format!(in alloc; "⟦<{name} as nano_schema::Value>⟧.means")?;
    let order = format!(in alloc; "⟦<{name} as nano_schema::Key>⟧.order")?;
    let exact = terms.exact.as_str();
    let follows = terms.follows.as_str();
    Ok(Known {
        name: String::from_str(alloc, name)?,
        terms: Terms {
            exact: format!(in alloc; "(exact_by ⟦<{name} as PartialEq>⟧.eq {means} ({exact}))")?,
            follows: format!(in alloc;
                "(ordered_by ⟦<{name} as Ord>⟧.cmp {means} {order} ({follows}))"
            )?,
            imports: terms.imports.clone()?,
        },
    })
}

const NO_PART: &str =
    "is in no key: a part of one is an integer, `bool`, `()`, a `String`, a tuple \
    of two to four of these, a type parameter, or a key above it in the file that has none";

/// The terms of a part in which types stand in one another so deep at most.
fn part_terms<'a>(
    alloc: Global,
    keys: &[Known],
    parameters: &[Token<'a>],
    of: Type<'a>,
    depth: usize,
) -> Result<Terms, Fault> {
    if let [word] = of.0 {
        return word_terms(alloc, keys, parameters, *word);
    }
    let Some(list) = tuple_parts(of) else {
        return Err(no_part(of));
    };
    let mut terms = Vec::new(alloc);
    for part in &listed(alloc, list)? {
        if depth == 0 {
            return Err(no_part(of));
        }
        terms.push(part_terms(alloc, keys, parameters, *part, depth - 1)?)?;
    }
    match terms.len() {
        0 => Ok(library_terms(alloc, "unit")?),
        2 => Ok(tuple_terms(alloc, "pair", &terms)?),
        3 => Ok(tuple_terms(alloc, "triple", &terms)?),
        4 => Ok(tuple_terms(alloc, "quadruple", &terms)?),
        _ => Err(no_part(of)),
    }
}

/// What is wrong with a type that no key has.
fn no_part(of: Type<'_>) -> Fault {
    match of.0 {
        [first, ..] => first.fault(NO_PART),
        [] => Fault::place(0, NO_PART),
    }
}

/// The terms of a part whose type is a word.
fn word_terms<'a>(
    alloc: Global,
    keys: &[Known],
    parameters: &[Token<'a>],
    word: Token<'a>,
) -> Result<Terms, Fault> {
    let name = word.text;
    if word.is_among(parameters) {
        return Ok(Terms {
            exact: format!(in alloc; "(exact_by {name}.eq {name}.means {name}.exact)")?,
            follows: format!(in alloc;
                "(ordered_by {name}.cmp {name}.means {name}.order {name}.follows)"
            )?,
            imports: String::new(alloc),
        });
    }
    for key in keys {
        if key.name.as_str() == name {
            return Ok(Terms {
                exact: key.terms.exact.clone()?,
                follows: key.terms.follows.clone()?,
                imports: key.terms.imports.clone()?,
            });
        }
    }
    match name {
        "u8" | "u16" | "u32" | "u64" | "u128" | "usize" => Ok(library_terms(alloc, "unsigned")?),
        "i8" | "i16" | "i32" | "i64" | "i128" => Ok(library_terms(alloc, "signed")?),
        "bool" => Ok(library_terms(alloc, "bool")?),
        "String" => Ok(library_terms(alloc, "text")?),
        _ => Err(word.fault(NO_PART)),
    }
}
