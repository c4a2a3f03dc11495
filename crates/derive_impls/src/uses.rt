//! What the module of the impls brings in, so that items are said by their names alone.
//!
//! An item whose name the file declares or brings in is said by its path, so that nothing there
//! stands in for it. Functions and macros are said by their paths, too, but for those of types that
//! contain themselves, whose calls are long.

use crate::layout::{Brackets, COLUMNS, Items, Piece, filled, in_line, width};
use crate::names::Names;
use std::alloc::{AllocError, Global};

/// The modules whose items are brought in, in the order of their lines.
const MODULES: [&str; 11] = [
    "nano_bin",
    "nano_bin_nested",
    "nano_bin_schema",
    "nano_json_nested",
    "nano_json_schema",
    "nano_levels",
    "nano_ron_nested",
    "nano_ron_schema",
    "nano_schema",
    "std::alloc",
    "std::str",
];

/// An item that two modules have: it is said by its path.
const SHARED: &str = "Part";

/// What brings in items of a module.
#[derive(Drop)]
struct Use {
    /// The module.
    module: &'static str,
    /// The names of the items, each once.
    names: Vec<String>,
}

/// What brings in items, once for each module.
#[derive(Drop)]
pub(crate) struct Uses {
    alloc: Global,
    uses: Vec<Use>,
}

impl Uses {
    /// Nothing.
    pub(crate) fn new(alloc: Global) -> Result<Uses, AllocError> {
        let mut uses = Vec::new(alloc);
        for module in &MODULES {
            let names = Vec::new(alloc);
            uses.push(Use { module, names })?;
        }
        Ok(Uses { alloc, uses })
    }

    /// A text in which each item that is brought in is said by its name alone.
    pub(crate) fn short(&mut self, names: &mut Names, text: &str) -> Result<String, AllocError> {
        let mut short = String::from_str(self.alloc, text)?;
        for part in &mut self.uses {
            short = part.short(self.alloc, names, short.as_str())?;
        }
        Ok(short)
    }

    /// The lines that bring the items in.
    pub(crate) fn lines(self) -> Result<String, AllocError> {
        let mut text = String::from_str(self.alloc, "use super::*;\n")?;
        for part in self.uses {
            text.push_str(part.lines(self.alloc)?.as_str())?;
        }
        Ok(text)
    }
}

impl Use {
    /// A text in which each item of the module is said by its name alone, if it is brought in.
    fn short(
        &mut self,
        alloc: Global,
        names: &mut Names,
        text: &str,
    ) -> Result<String, AllocError> {
        let path = format!(in alloc; "{}::", self.module)?;
        let mut short = String::new(alloc);
        for (i, part) in text.split(path.as_str()).enumerate() {
            if i > 0 && (is_in_path(short.as_str()) || !self.brings(alloc, names, part)?) {
                short.push_str(path.as_str())?;
            }
            short.push_str(part)?;
        }
        Ok(short)
    }

    /// Brings in the item whose name a text begins with, and says whether its name is free for it.
    fn brings(&mut self, alloc: Global, names: &mut Names, text: &str) -> Result<bool, AllocError> {
        let name = first_word(text);
        if name == SHARED || self.is_called(name) {
            return Ok(false);
        }
        for known in &self.names {
            if known.as_str() == name {
                return Ok(true);
            }
        }
        if !names.take_as_it_is(alloc, name)? {
            return Ok(false);
        }
        self.names.push(String::from_str(alloc, name)?)?;
        Ok(true)
    }

    /// Whether a name is that of a function or a macro which is said by its path: each is, but those
    /// for types that contain themselves.
    fn is_called(&self, name: &str) -> bool {
        name.starts_with(|c: char| c.is_ascii_lowercase()) && !self.module.ends_with("_nested")
    }

    /// The line that brings the items in, or lines where it is too long.
    fn lines(mut self, alloc: Global) -> Result<String, AllocError> {
        self.names.sort()?;
        if let [name] = self.names.as_slice() {
            return format!(in alloc; "use {}::{name};\n", self.module);
        }
        if self.names.is_empty() {
            return Ok(String::new(alloc));
        }
        let mut items = Vec::new(alloc);
        for name in &self.names {
            items.push(Piece::of(alloc, name.as_str())?)?;
        }
        let open = format!(in alloc; "use {}::{{", self.module)?;
        let brackets = Brackets {
            open: open.as_str(),
            close: "};\n",
            items: Items::Values,
            indent: 0,
            before: 0,
            after: 0,
        };
        let line = in_line(alloc, brackets, &items)?;
        if width(line.as_str()) < COLUMNS {
            return Ok(line);
        }
        filled(alloc, brackets, &items, COLUMNS.saturating_sub(1))
    }
}

/// Whether a text ends within a path, so that what follows is no beginning of one.
fn is_in_path(text: &str) -> bool {
    text.ends_with(|c: char| c == ':' || is_of_word(c))
}

/// The word that a text begins with.
fn first_word(text: &str) -> &str {
    match text.find(|c: char| !is_of_word(c)) {
        Some(end) => text.get(..end).unwrap_or(text),
        None => text,
    }
}

/// Whether a character is one of a word.
fn is_of_word(c: char) -> bool {
    c == '_' || c.is_ascii_alphanumeric()
}
