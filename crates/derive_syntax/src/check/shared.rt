//! Types of the library that share what they hold, or that may borrow it.

use crate::check::known::{is_defined, is_imported};
use crate::syntax::{Definition, Source};
use crate::token::Token;

/// Their names, each with its module.
const SHARED: [(&str, &str); 4] = [
    ("Rc", "rc"),
    ("Arc", "sync"),
    ("RefCell", "cell"),
    ("Cow", "borrow"),
];

/// Whether a word of a type, after these tokens of it, is one of them.
pub(crate) fn is_shared<'a>(
    source: &Source<'a>,
    definition: &Definition<'a>,
    before: &[Token<'a>],
    word: Token<'a>,
) -> bool {
    for (name, module) in SHARED {
        if word.text == name {
            return match before {
                [.., of, colons] if colons.is("::") => of.is(module),
                _ => is_named(source, definition, word, module),
            };
        }
    }
    false
}

/// Whether a name is that of the library: no type of the file has it, and no line brings it in from
/// elsewhere.
fn is_named<'a>(
    source: &Source<'a>,
    definition: &Definition<'a>,
    word: Token<'a>,
    module: &str,
) -> bool {
    if word.is_among(&definition.parameters) || is_defined(source, word) {
        return false;
    }
    !is_imported(&source.imported, word) || is_from(&source.imported, word, module)
}

/// Whether a line brings in a name from this module of the library.
fn is_from<'a>(imported: &[Token<'a>], word: Token<'a>, module: &str) -> bool {
    for i in 0..imported.len() {
        if let Some([library, _, of, colons, name]) = imported.get(i..i.saturating_add(5)) {
            let is_module = library.is("std") && of.is(module) && colons.is("::");
            if is_module && (name.is(word.text) || name.is("{")) {
                return true;
            }
        }
    }
    false
}
