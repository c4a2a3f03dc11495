//! Where a type stands in a definition.

use crate::syntax::{Content, Definition, Field, Shape, Type, Variant};
use crate::token::Token;

impl<'a> Definition<'a> {
    /// The first place in its fields or parts at which a type of this name stands. A word within a
    /// path is none.
    pub(crate) fn place_of(&self, name: Token<'a>) -> Option<Token<'a>> {
        match &self.shape {
            Shape::Fields(fields) => place_in_fields(fields, name),
            Shape::Parts(parts) => place_in_parts(parts, name),
            Shape::Variants(variants) => place_in_variants(variants, name),
        }
    }
}

/// The first place in variants.
fn place_in_variants<'a>(variants: &[Variant<'a>], name: Token<'a>) -> Option<Token<'a>> {
    for variant in variants {
        let place = match &variant.content {
            Content::Nothing => None,
            Content::Parts(parts) => place_in_parts(parts, name),
            Content::Fields(fields) => place_in_fields(fields, name),
        };
        if place.is_some() {
            return place;
        }
    }
    None
}

/// The first place in fields.
fn place_in_fields<'a>(fields: &[Field<'a>], name: Token<'a>) -> Option<Token<'a>> {
    for field in fields {
        let place = field.of.parameter_of(&[name]);
        if place.is_some() {
            return place;
        }
    }
    None
}

/// The first place in parts.
fn place_in_parts<'a>(parts: &[Type<'a>], name: Token<'a>) -> Option<Token<'a>> {
    for part in parts {
        let place = part.parameter_of(&[name]);
        if place.is_some() {
            return place;
        }
    }
    None
}
