//! Names of the items that are written or brought in, each of which no item of the file has.

use derive_syntax::{Bound, Content, Field, Missing, Shape, Source, Token, Type, missing_value};
use std::alloc::{AllocError, Global};

/// The names that are taken.
#[derive(Drop)]
pub struct Names {
    taken: Vec<String>,
}

impl Names {
    /// The names of the types of the file, those that they are made of, and those of what is
    /// brought in there.
    pub fn new<'a>(alloc: Global, source: &Source<'a>) -> Result<Names, AllocError> {
        let mut names = Names {
            taken: Vec::new(alloc),
        };
        for definition in &source.definitions {
            names.add(alloc, definition.name.text)?;
            names.add_all(alloc, &definition.parameters)?;
            names.add_bounds(alloc, &definition.bounds)?;
            names.add_named(alloc, &definition.shape)?;
        }
        names.add_all(alloc, &source.imported)?;
        Ok(names)
    }

    /// Adds the words of bounds.
    fn add_bounds<'a>(&mut self, alloc: Global, bounds: &[Bound<'a>]) -> Result<(), AllocError> {
        for bound in bounds {
            self.add_all(alloc, bound.of.0)?;
            self.add_types(alloc, &bound.traits)?;
        }
        Ok(())
    }

    /// Adds what a type is made of.
    fn add_named<'a>(&mut self, alloc: Global, shape: &Shape<'a>) -> Result<(), AllocError> {
        match shape {
            Shape::Fields(fields) => self.add_fields(alloc, fields),
            Shape::Parts(parts) => self.add_types(alloc, parts),
            Shape::Variants(variants) => {
                for variant in variants {
                    self.add_content(alloc, &variant.content)?;
                }
                Ok(())
            }
        }
    }

    /// Adds what a variant holds.
    fn add_content<'a>(&mut self, alloc: Global, content: &Content<'a>) -> Result<(), AllocError> {
        match content {
            Content::Nothing => Ok(()),
            Content::Parts(parts) => self.add_types(alloc, parts),
            Content::Fields(fields) => self.add_fields(alloc, fields),
        }
    }

    /// Adds the words of the types of fields, and of the paths of their defaults.
    fn add_fields<'a>(&mut self, alloc: Global, fields: &[Field<'a>]) -> Result<(), AllocError> {
        for field in fields {
            self.add_all(alloc, field.of.0)?;
            if let Missing::Path(path) = missing_value(*field) {
                self.add_path(alloc, path)?;
            }
        }
        Ok(())
    }

    /// Adds the words of types.
    fn add_types<'a>(&mut self, alloc: Global, types: &[Type<'a>]) -> Result<(), AllocError> {
        for of in types {
            self.add_all(alloc, of.0)?;
        }
        Ok(())
    }

    /// Adds the words of a path.
    fn add_path(&mut self, alloc: Global, path: &str) -> Result<(), AllocError> {
        for word in path.split("::") {
            self.add(alloc, word)?;
        }
        Ok(())
    }

    /// Adds tokens.
    fn add_all<'a>(&mut self, alloc: Global, tokens: &[Token<'a>]) -> Result<(), AllocError> {
        for token in tokens {
            self.add(alloc, token.text)?;
        }
        Ok(())
    }

    /// Adds a name.
    fn add(&mut self, alloc: Global, name: &str) -> Result<(), AllocError> {
        Ok(self.taken.push(String::from_str(alloc, name)?)?)
    }

    /// Takes this name if it is free, and says whether it was.
    pub(crate) fn take_as_it_is(&mut self, alloc: Global, name: &str) -> Result<bool, AllocError> {
        if self.is_taken(name) {
            return Ok(false);
        }
        self.add(alloc, name)?;
        Ok(true)
    }

    /// Takes a name: this one, or with a number after it that makes it another than each name that
    /// is taken, in whichever case.
    pub fn take(&mut self, alloc: Global, name: &str) -> Result<String, AllocError> {
        let mut free = String::from_str(alloc, name)?;
        for number in 2..self.taken.len().saturating_add(3) {
            if !self.is_taken(free.as_str()) {
                break;
            }
            free = format!(in alloc; "{name}{number}")?;
        }
        self.taken.push(free.clone()?)?;
        Ok(free)
    }

    fn is_taken(&self, name: &str) -> bool {
        for taken in &self.taken {
            if taken.as_str().eq_ignore_ascii_case(name) {
                return true;
            }
        }
        false
    }
}

/// A name as a part of a type's name: `first_name` as `FirstName`.
pub fn in_type_name(alloc: Global, name: &str) -> Result<String, AllocError> {
    let mut text = String::new(alloc);
    let mut begins = true;
    for c in name.chars() {
        if c == '_' {
            begins = true;
        } else if begins {
            text.push(c.to_ascii_uppercase())?;
            begins = false;
        } else {
            text.push(c)?;
        }
    }
    Ok(text)
}
