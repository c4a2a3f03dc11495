//! The definitions of a file, as far as the generator asks for it.

use crate::token::{Token, TokenKind};
use derive_source::Case;
use std::alloc::{AllocError, Global};

/// A type: its tokens.
#[derive(Clone, Copy)]
pub struct Type<'a>(pub &'a [Token<'a>]);

impl<'a> Type<'a> {
    /// The first of these type parameters that stands in it. A word within a path is none.
    pub fn parameter_of(self, parameters: &[Token<'a>]) -> Option<Token<'a>> {
        let mut in_path = false;
        for token in self.0 {
            if !in_path && token.is_among(parameters) {
                return Some(*token);
            }
            in_path = token.is("::");
        }
        None
    }
}

/// Whether a format is read, and whether it is written.
#[derive(Clone, Copy, PartialEq)]
pub struct Directions {
    /// Whether it is read.
    pub reads: bool,
    /// Whether it is written.
    pub writes: bool,
}

impl Directions {
    /// Whether it is read or written.
    pub fn is_used(self) -> bool {
        self.reads || self.writes
    }
}

/// The words of the comments `// nanoserde: ..` above something.
#[derive(Clone, Copy)]
pub struct Attributes<'a> {
    /// The first of these words, if there is one.
    pub first: Option<Token<'a>>,
    /// The first word that names a format, if there is one.
    pub codec: Option<Token<'a>>,
    /// What becomes of bytes.
    pub bin: Directions,
    /// What becomes of JSON.
    pub json: Directions,
    /// What becomes of RON.
    pub ron: Directions,
    /// The word `transparent`.
    pub transparent: Option<Token<'a>>,
    /// The word `key`.
    pub key: Option<Token<'a>>,
    /// How many of the traits are derived that a key has.
    pub key_traits: usize,
    /// The text after `rename`.
    pub rename: Option<Token<'a>>,
    /// The tokens of these comments, and of what stands between them.
    pub above: &'a [Token<'a>],
    /// The text after `rename_all`.
    pub rename_all: Option<Token<'a>>,
    /// The case that this text names.
    pub case: Option<Case>,
    /// The text after `levels`.
    pub levels: Option<Token<'a>>,
    /// The word `deny_unknown`.
    pub deny_unknown: Option<Token<'a>>,
    /// The word `allow_unknown`.
    pub allow_unknown: Option<Token<'a>>,
    /// The word `default`.
    pub default: Option<Token<'a>>,
    /// The text after `default`.
    pub default_path: Option<Token<'a>>,
    /// The word `skip`.
    pub skip: Option<Token<'a>>,
    /// The name of an attribute of Rust that is for serde.
    pub serde: Option<Token<'a>>,
    /// Whether a macro of serde is derived, which reads such attributes.
    pub is_serde: bool,
    /// The name of an attribute of Rust by which something is left out.
    pub cfg: Option<Token<'a>>,
    /// The name of the attribute that stands above types that contain each other.
    pub cycle: Option<Token<'a>>,
}

impl<'a> Attributes<'a> {
    /// The texts after `alias`, in their order.
    pub fn aliases(self, alloc: Global) -> Result<Vec<Token<'a>>, AllocError> {
        let mut aliases = Vec::new(alloc);
        let mut in_comment = false;
        let mut is_alias = false;
        for token in self.above {
            match token.kind {
                TokenKind::Attribute => in_comment = true,
                TokenKind::AttributeEnd => in_comment = false,
                TokenKind::Word => is_alias = token.text == "alias",
                TokenKind::Text if in_comment && is_alias => aliases.push(*token)?,
                _ => {}
            }
        }
        Ok(aliases)
    }

    /// How many levels are read of a type that contains itself, as the program has the number.
    pub fn level_limit(self) -> &'a str {
        match self.levels {
            Some(limit) => limit.quoted(),
            None => "128",
        }
    }
}

/// A field with a name.
#[derive(Clone, Copy)]
pub struct Field<'a> {
    /// Its name in the program.
    pub name: Token<'a>,
    /// Its type.
    pub of: Type<'a>,
    /// What stands above it.
    pub attributes: Attributes<'a>,
}

/// What a variant holds.
#[derive(Drop)]
pub enum Content<'a> {
    /// Nothing.
    Nothing,
    /// The parts of a tuple variant or a newtype.
    Parts(Vec<Type<'a>>),
    /// Fields with names.
    Fields(Vec<Field<'a>>),
}

/// A variant of an enum.
#[derive(Drop)]
pub struct Variant<'a> {
    /// Its name in the program.
    pub name: Token<'a>,
    /// What it holds.
    pub content: Content<'a>,
    /// What stands above it.
    pub attributes: Attributes<'a>,
}

/// What a user-defined type is made of.
#[derive(Drop)]
pub enum Shape<'a> {
    /// A struct with named fields, or with nothing.
    Fields(Vec<Field<'a>>),
    /// A tuple struct, or a newtype.
    Parts(Vec<Type<'a>>),
    /// An enum.
    Variants(Vec<Variant<'a>>),
}

/// What is asked of a type that names type parameters.
#[derive(Drop)]
pub struct Bound<'a> {
    /// The type.
    pub of: Type<'a>,
    /// The traits that it has, and the lifetimes that it outlives.
    pub traits: Vec<Type<'a>>,
}

/// A user-defined type.
#[derive(Drop)]
pub struct Definition<'a> {
    /// Its name.
    pub name: Token<'a>,
    /// Its type parameters.
    pub parameters: Vec<Token<'a>>,
    /// Their bounds, and those after `where`.
    pub bounds: Vec<Bound<'a>>,
    /// What it is made of.
    pub shape: Shape<'a>,
    /// What stands above it.
    pub attributes: Attributes<'a>,
}

/// What stands above `mod derived;`.
#[derive(Drop)]
pub struct Source<'a> {
    /// The structs and enums, in their order.
    pub definitions: Vec<Definition<'a>>,
    /// The tokens of the lines that bring in names.
    pub imported: Vec<Token<'a>>,
}
