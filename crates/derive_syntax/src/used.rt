//! The modules of the crate from which the lines of a file bring types in.

use crate::syntax::Source;
use crate::token::Token;
use std::alloc::{AllocError, Global};

impl<'a> Source<'a> {
    /// The module of the crate that a line `use crate::..` brings a type in from, with a period
    /// before each of its names: `.shapes.round` for `use crate::shapes::round::Circle;` and the
    /// name `Circle`. `None` where no line does, or does it from the crate itself or by another name.
    pub fn module_of_type(&self, alloc: Global, name: &str) -> Result<Option<String>, AllocError> {
        for i in 0..self.imported.len() {
            let Some([word, library, line @ ..]) = self.imported.get(i..) else {
                continue;
            };
            if word.is("use") && library.is("crate") {
                if let Some(module) = module_in(alloc, line, name)? {
                    return Ok(Some(module));
                }
            }
        }
        Ok(None)
    }
}

/// The module from which a line, after `use crate`, brings a type in, if it does.
fn module_in(alloc: Global, line: &[Token<'_>], name: &str) -> Result<Option<String>, AllocError> {
    let mut module = String::new(alloc);
    let mut rest = line;
    for _step in line {
        let [colons, word, after @ ..] = rest else {
            break;
        };
        if !colons.is("::") {
            break;
        }
        let is_step = match after.first() {
            Some(following) => following.is("::"),
            None => false,
        };
        if !is_step {
            let is_there = !module.is_empty() && is_named(*word, after, name);
            return Ok(if is_there { Some(module) } else { None });
        }
        module.push('.')?;
        module.push_str(word.text)?;
        rest = after;
    }
    Ok(None)
}

/// Whether a line that ends in this word, or in names between braces, has this name there.
fn is_named(word: Token<'_>, after: &[Token<'_>], name: &str) -> bool {
    if !word.is("{") {
        return word.is(name) && !is_renamed(after);
    }
    let mut begins = true;
    for (i, token) in after.iter().enumerate() {
        let following = after.get(i.saturating_add(1)..).unwrap_or(&[]);
        if begins && token.is(name) && ends_item(following) {
            return true;
        }
        if token.is("{") || token.is("}") {
            return false;
        }
        begins = token.is(",");
    }
    false
}

/// Whether a name between braces ends before these tokens.
fn ends_item(after: &[Token<'_>]) -> bool {
    match after.first() {
        Some(following) => following.is(",") || following.is("}"),
        None => false,
    }
}

/// Whether a name before these tokens is brought in as another one.
fn is_renamed(after: &[Token<'_>]) -> bool {
    match after.first() {
        Some(following) => following.is("as"),
        None => false,
    }
}
