//! Types of a file that contain themselves, or each other.

use crate::syntax::{Definition, Shape, Source};
use crate::token::Token;
use derive_source::Fault;
use std::alloc::{AllocError, Global};

/// Types of a file that contain each other, or one that contains itself.
#[derive(Drop)]
pub struct Cycle<'a> {
    /// Their names, in the order of the file.
    pub names: Vec<Token<'a>>,
    /// The same, each after those that it contains but the root, which is the last.
    pub inward: Vec<Token<'a>>,
    /// The one that each way from a type back to itself leads through. What is read is counted in
    /// its levels; each of the others is a layer around values of it.
    pub root: Token<'a>,
    /// The type parameters of a type that contains itself. Several types have none.
    pub parameters: Vec<Token<'a>>,
}

impl Cycle<'_> {
    /// Whether it is one type, which contains itself.
    pub fn is_one(&self) -> bool {
        self.names.len() == 1
    }

    /// Whether a type is the one that each way back leads through, by its name.
    pub fn is_root(&self, name: Token<'_>) -> bool {
        self.root.text == name.text
    }
}

const NO_ROOT: &str = "leads back to the type that it stands in: of types that contain each \
    other one is on each way back";

impl<'a> Source<'a> {
    /// The types that a type of the file contains and that contain it, with itself. `None` where it
    /// does not contain itself, by however many types.
    ///
    /// # Errors
    ///
    /// No type among them is on each way back. Or an allocation fails.
    pub fn cycle_of(
        &self,
        alloc: Global,
        definition: &Definition<'a>,
    ) -> Result<Option<Cycle<'a>>, Fault> {
        let names = members(alloc, self, definition.name)?;
        if names.is_empty() {
            return Ok(None);
        }
        let Some(root) = root_of(alloc, self, &names)? else {
            return Err(way_back(definition, &names));
        };
        let inward = inward(alloc, self, &names, root)?;
        let parameters = if names.len() == 1 {
            definition.parameters.clone()?
        } else {
            Vec::new(alloc)
        };
        Ok(Some(Cycle {
            names,
            inward,
            root,
            parameters,
        }))
    }

    /// The types of the file that one of them contains, by however many of them.
    pub(crate) fn contained_in(
        &self,
        alloc: Global,
        name: Token<'a>,
    ) -> Result<Vec<Token<'a>>, AllocError> {
        contained(alloc, self, name, "")
    }
}

/// The types that a type contains and that contain it, with itself, if it contains itself.
fn members<'a>(
    alloc: Global,
    source: &Source<'a>,
    name: Token<'a>,
) -> Result<Vec<Token<'a>>, AllocError> {
    let mut names = Vec::new(alloc);
    for other in &source.contained_in(alloc, name)? {
        if is_contained(alloc, source, *other, name)? {
            names.push(*other)?;
        }
    }
    in_order(alloc, source, &names)
}

/// Whether a type contains another, by however many types of the file.
fn is_contained<'a>(
    alloc: Global,
    source: &Source<'a>,
    of: Token<'a>,
    name: Token<'a>,
) -> Result<bool, AllocError> {
    Ok(name.is_among(&source.contained_in(alloc, of)?))
}

/// These names in the order of the file.
fn in_order<'a>(
    alloc: Global,
    source: &Source<'a>,
    names: &[Token<'a>],
) -> Result<Vec<Token<'a>>, AllocError> {
    let mut ordered = Vec::new(alloc);
    for definition in &source.definitions {
        if definition.name.is_among(names) {
            ordered.push(definition.name)?;
        }
    }
    Ok(ordered)
}

/// The first of some types that each way back leads through: one beside which there are structs
/// alone, if there is such a one.
fn root_of<'a>(
    alloc: Global,
    source: &Source<'a>,
    names: &[Token<'a>],
) -> Result<Option<Token<'a>>, AllocError> {
    let mut first = None;
    for name in names {
        if !is_root(alloc, source, names, *name)? {
            continue;
        }
        if are_structs(source, names, *name) {
            return Ok(Some(*name));
        }
        first = first.or(Some(*name));
    }
    Ok(first)
}

/// Whether none of some types leads back to itself but through this one.
fn is_root<'a>(
    alloc: Global,
    source: &Source<'a>,
    names: &[Token<'a>],
    root: Token<'a>,
) -> Result<bool, AllocError> {
    for name in names {
        if name.text != root.text && name.is_among(&contained(alloc, source, *name, root.text)?) {
            return Ok(false);
        }
    }
    Ok(true)
}

/// Whether all of some types but this one are structs of named fields.
fn are_structs<'a>(source: &Source<'a>, names: &[Token<'a>], root: Token<'a>) -> bool {
    for definition in &source.definitions {
        let name = definition.name;
        let is_other = name.text != root.text && name.is_among(names);
        if is_other && !matches!(definition.shape, Shape::Fields(_)) {
            return false;
        }
    }
    true
}

/// Some types, each after those that it contains but the root, which is the last.
fn inward<'a>(
    alloc: Global,
    source: &Source<'a>,
    names: &[Token<'a>],
    root: Token<'a>,
) -> Result<Vec<Token<'a>>, AllocError> {
    let mut ordered = Vec::new(alloc);
    for _turn in names {
        for name in names {
            if is_next(alloc, source, names, (*name, root), &ordered)? {
                ordered.push(*name)?;
            }
        }
    }
    ordered.push(root)?;
    Ok(ordered)
}

/// Whether a type, which is not the root, comes next: it is not there, and those of some types are
/// that it contains.
fn is_next<'a>(
    alloc: Global,
    source: &Source<'a>,
    names: &[Token<'a>],
    (name, root): (Token<'a>, Token<'a>),
    there: &[Token<'a>],
) -> Result<bool, AllocError> {
    if name.text == root.text || name.is_among(there) {
        return Ok(false);
    }
    let held = contained(alloc, source, name, root.text)?;
    Ok(are_there(&held, names, there))
}

/// Whether those of some types that are among these are there.
fn are_there<'a>(held: &[Token<'a>], names: &[Token<'a>], there: &[Token<'a>]) -> bool {
    for name in held {
        if name.is_among(names) && !name.is_among(there) {
            return false;
        }
    }
    true
}

/// The types of the file that one of them contains, by however many of them but the one that is
/// left out.
fn contained<'a>(
    alloc: Global,
    source: &Source<'a>,
    name: Token<'a>,
    left_out: &str,
) -> Result<Vec<Token<'a>>, AllocError> {
    let mut found = Vec::new(alloc);
    for _turn in &source.definitions {
        add_contained(source, name, left_out, &mut found)?;
    }
    Ok(found)
}

/// Adds the types that one of them contains, or what is found already.
fn add_contained<'a>(
    source: &Source<'a>,
    name: Token<'a>,
    left_out: &str,
    found: &mut Vec<Token<'a>>,
) -> Result<(), AllocError> {
    for definition in &source.definitions {
        let other = definition.name;
        let is_new = other.text != left_out && !other.is_among(found);
        if is_new && is_held(source, (name, found.as_slice()), other) {
            found.push(other)?;
        }
    }
    Ok(())
}

/// Whether one type, or one of these, contains another.
fn is_held<'a>(
    source: &Source<'a>,
    (name, found): (Token<'a>, &[Token<'a>]),
    other: Token<'a>,
) -> bool {
    for definition in &source.definitions {
        let holds = definition.name.text == name.text || definition.name.is_among(found);
        if holds && definition.place_of(other).is_some() {
            return true;
        }
    }
    false
}

/// The fault of a type that leads back to itself by others.
fn way_back<'a>(definition: &Definition<'a>, names: &[Token<'a>]) -> Fault {
    for name in names {
        if name.text != definition.name.text {
            if let Some(word) = definition.place_of(*name) {
                return word.fault(NO_ROOT);
            }
        }
    }
    definition.name.fault(NO_ROOT)
}
