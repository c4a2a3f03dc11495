//! The items of a file: structs and enums are taken, lines that end in a semicolon are
//! passed over, and anything else is an error.

use crate::parse::attributes::{Below, attributes};
use crate::parse::bounds::{parameters, where_clause};
use crate::parse::brackets::check_brackets;
use crate::parse::cursor::Cursor;
use crate::parse::fields::{MOST_OF_STRUCT, fields, parts, variants, visibility};
use crate::syntax::{Attributes, Definition, Shape, Source};
use crate::token::{Token, TokenKind};
use derive_source::Fault;
use std::alloc::Global;

/// What these tokens of a source of so many bytes declare.
pub fn source_of<'a>(
    alloc: Global,
    tokens: &'a [Token<'a>],
    end: usize,
) -> Result<Source<'a>, Fault> {
    check_brackets(alloc, tokens)?;
    let mut cursor = Cursor::new(tokens, end);
    let mut source = Source {
        definitions: Vec::new(alloc),
        imported: Vec::new(alloc),
    };
    for _turn in tokens {
        if !item(alloc, &mut cursor, &mut source)? {
            break;
        }
    }
    Ok(source)
}

/// Takes an item, and says whether there was one.
fn item<'a>(
    alloc: Global,
    cursor: &mut Cursor<'a>,
    source: &mut Source<'a>,
) -> Result<bool, Fault> {
    let above = attributes(cursor, Below::Definition)?;
    if cursor.peek().is_none() {
        above.of_nothing()?;
        return Ok(false);
    }
    visibility(cursor)?;
    if cursor.is_at("struct") || cursor.is_at("enum") {
        let definition = definition(alloc, cursor, above)?;
        source.definitions.push(definition)?;
    } else {
        check_line(cursor)?;
        above.of_nothing()?;
        line(cursor, &mut source.imported)?;
    }
    Ok(true)
}

/// An error where an item is none that ends in a semicolon.
fn check_line(cursor: &Cursor<'_>) -> Result<(), Fault> {
    for word in ["mod", "use", "ghost", "type"] {
        if cursor.is_at(word) {
            return Ok(());
        }
    }
    Err(cursor.fault(unknown_item(cursor)))
}

/// Passes over an item that ends in a semicolon, and notes its words.
fn line<'a>(cursor: &mut Cursor<'a>, imported: &mut Vec<Token<'a>>) -> Result<(), Fault> {
    let is_module = cursor.is_at("mod");
    for _turn in cursor.tokens {
        if is_module && cursor.is_at("{") {
            return Err(cursor.fault("begins a module: put it into a file of its own"));
        }
        match cursor.next() {
            Some(token) if token.is(";") => return Ok(()),
            Some(token) => imported.push(token)?,
            None => break,
        }
    }
    Err(cursor.fault("stands where `;` is wanted"))
}

/// What is wrong with an item.
fn unknown_item(cursor: &Cursor<'_>) -> &'static str {
    let word = match cursor.peek() {
        Some(token) if token.kind == TokenKind::Word => token.text,
        _ => "",
    };
    if word == "union" {
        "is no type that can be read and written: make it a struct or an enum"
    } else if OTHER_ITEMS.contains(&word) {
        "stands where a struct or an enum is wanted: put functions, impls, traits, constants and \
         macros into another file"
    } else {
        "stands where a struct, an enum, `use`, `mod` or `type` is wanted"
    }
}

const OTHER_ITEMS: [&str; 9] = [
    "fn",
    "impl",
    "trait",
    "const",
    "static",
    "unsafe",
    "async",
    "extern",
    "macro_rules",
];

/// Takes a struct or an enum.
fn definition<'a>(
    alloc: Global,
    cursor: &mut Cursor<'a>,
    attributes: Attributes<'a>,
) -> Result<Definition<'a>, Fault> {
    let is_enum = cursor.take("enum");
    if !is_enum {
        let _ = cursor.take("struct");
    }
    let name = cursor.name()?;
    let mut bounds = Vec::new(alloc);
    let parameters = parameters(alloc, cursor, &mut bounds)?;
    where_clause(alloc, cursor, &mut bounds)?;
    let shape = if is_enum {
        Shape::Variants(variants(alloc, cursor)?)
    } else if cursor.is_at("(") {
        let parts = parts(alloc, cursor, MOST_OF_STRUCT)?;
        where_clause(alloc, cursor, &mut bounds)?;
        cursor.expect(";", "stands where `;` is wanted")?;
        Shape::Parts(parts)
    } else if cursor.take(";") {
        Shape::Fields(Vec::new(alloc))
    } else {
        Shape::Fields(fields(alloc, cursor)?)
    };
    Ok(Definition {
        name,
        parameters,
        bounds,
        shape,
        attributes,
    })
}
