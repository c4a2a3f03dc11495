//! What is written, line by line. That memory ran out is reported at the end of it, and not at each
//! step.

use crate::ghost_uses::{Import, append_import};
use crate::keys::Known;
use crate::layout::{COLUMNS, start_line, width};
use crate::names::Names;
use crate::uses::Uses;
use derive_syntax::Holes;
use std::alloc::{AllocError, Global};

/// How far a line is indented that goes on with a ghost member, but for the space before a word.
const INDENT: usize = 7;
/// How much further a case in it is indented.
const CASE: usize = 2;

/// What is written so far.
#[derive(Drop)]
pub struct Sheet {
    /// What takes memory.
    pub alloc: Global,
    /// The names that are taken.
    pub names: Names,
    /// The items.
    text: String,
    /// What brings ghost names in, once for each module.
    imports: Vec<Import>,
    /// What brings items in.
    uses: Uses,
    /// The functions that say what values mean in a format, by the format's module.
    pub(crate) laws: Vec<(&'static str, String)>,
    /// The keys that were written.
    pub(crate) keys: Vec<Known>,
    /// Whether there was no memory for a part of it.
    lacks_memory: bool,
}

impl Sheet {
    /// Nothing.
    pub fn new(alloc: Global, names: Names) -> Result<Sheet, AllocError> {
        Ok(Sheet {
            alloc,
            names,
            text: String::new(alloc),
            imports: Vec::new(alloc),
            uses: Uses::new(alloc)?,
            laws: Vec::new(alloc),
            keys: Vec::new(alloc),
            lacks_memory: false,
        })
    }

    /// Takes note of a step for which there was no memory.
    pub(crate) fn note(&mut self, step: Result<(), AllocError>) {
        if step.is_err() {
            self.lacks_memory = true;
        }
    }

    /// A text that was made. It is empty where there was no memory for it.
    pub fn made(&mut self, text: Result<String, AllocError>) -> String {
        match text {
            Ok(text) => text,
            Err(AllocError) => {
                self.lacks_memory = true;
                String::new(self.alloc)
            }
        }
    }

    /// Appends to a text.
    pub fn add(&mut self, text: &mut String, more: &str) {
        let step = text.push_str(more);
        self.note(step);
    }

    /// Appends to a text one that was made.
    pub fn add_made(&mut self, text: &mut String, more: Result<String, AllocError>) {
        let more = self.made(more);
        self.add(text, more.as_str());
    }

    /// Appends to a list.
    pub fn push<T: Drop>(&mut self, items: &mut Vec<T>, item: T) {
        if items.push(item).is_err() {
            self.lacks_memory = true;
        }
    }

    /// A text in which each item that can be brought in is said by its name alone, and is.
    pub fn short(&mut self, text: &str) -> String {
        let short = self.uses.short(&mut self.names, text);
        self.made(short)
    }

    /// Brings in what a line brings in: `ghost use`, a module, and names between braces.
    pub fn import(&mut self, line: &'static str) {
        let step = self.add_import(line);
        self.note(step);
    }

    /// The same, if there is memory for it.
    fn add_import(&mut self, line: &'static str) -> Result<(), AllocError> {
        let (module, names) = line.split_once(".{").unwrap_or((line, "};"));
        let names = names.strip_suffix("};").unwrap_or(names);
        for import in &mut self.imports {
            if import.module == module {
                return import.add(names);
            }
        }
        let mut import = Import {
            module,
            names: Vec::new(self.alloc),
        };
        import.add(names)?;
        Ok(self.imports.push(import)?)
    }

    /// Appends the name of a type.
    pub fn alias(&mut self, name: &str, of: &str) {
        let mut holes = Holes::new(self.alloc);
        holes.put("NAME", name);
        holes.put("OF", of);
        self.write("\ntype $NAME = $OF;", &holes);
    }

    /// Appends the lines of a template, in which items are said by their names alone.
    pub fn write(&mut self, template: &str, holes: &Holes) {
        let template = self.short(template);
        let text = self.made(holes.fill(template.as_str()));
        for line in text.split('\n') {
            let step = self.line(line);
            self.note(step);
        }
    }

    /// Appends a line. One that is too long becomes several if it is the head of an impl or of a
    /// method, a call that is a body, or a ghost member with no text in it.
    fn line(&mut self, line: &str) -> Result<(), AllocError> {
        if width(line) <= COLUMNS {
            self.text.push_str(line)?;
        } else if line.starts_with("impl") {
            self.head(line)?;
        } else if line.starts_with("    fn ") {
            self.signature(line)?;
        } else if is_call(line) {
            self.call(line)?;
        } else if line.starts_with("    ghost ") && line.ends_with(" };") && !line.contains('"') {
            self.member(line)?;
        } else {
            self.text.push_str(line)?;
        }
        self.text.push('\n')
    }

    /// Appends the head of an impl in two lines, or with a line for each of its parameters.
    fn head(&mut self, line: &str) -> Result<(), AllocError> {
        let (start, of) = line.split_once(" for ").unwrap_or((line, ""));
        if width(start) <= COLUMNS {
            self.text.push_str(start)?;
            self.text.push_str("\n    for ")?;
            return self.text.push_str(of);
        }
        let (parameters, rest) = line.split_once("> ").unwrap_or((line, ""));
        let parameters = parameters.strip_prefix("impl<").unwrap_or(parameters);
        self.text.push_str("impl<\n")?;
        for parameter in parameters.split(", ") {
            self.text.push_str("    ")?;
            self.text.push_str(parameter)?;
            self.text.push_str(",\n")?;
        }
        self.text.push_str("> ")?;
        self.text.push_str(rest)
    }

    /// Appends the head of a method with a line for each of its parameters.
    fn signature(&mut self, line: &str) -> Result<(), AllocError> {
        let (name, rest) = line.split_once('(').unwrap_or((line, ""));
        let (parameters, result) = rest.split_once(") -> ").unwrap_or((rest, ""));
        self.text.push_str(name)?;
        self.text.push_str("(\n")?;
        for parameter in parameters.split(", ") {
            self.text.push_str("        ")?;
            self.text.push_str(parameter)?;
            self.text.push_str(",\n")?;
        }
        self.text.push_str("    ) -> ")?;
        self.text.push_str(result)
    }

    /// Appends a call, or a `match` of one, with a line for its arguments, which are short.
    fn call(&mut self, line: &str) -> Result<(), AllocError> {
        let (call, end) = match line.strip_suffix(" {") {
            Some(call) => (call, " {"),
            None => (line, ""),
        };
        let (function, arguments) = call.rsplit_once('(').unwrap_or((call, ""));
        self.text.push_str(function)?;
        self.text.push('(')?;
        start_line(&mut self.text, INDENT.saturating_add(5))?;
        self.text
            .push_str(arguments.strip_suffix(')').unwrap_or(arguments))?;
        self.text.push(',')?;
        start_line(&mut self.text, INDENT.saturating_add(1))?;
        self.text.push(')')?;
        self.text.push_str(end)
    }

    /// Appends a ghost member, in lines of as many columns as there are. A line ends at a space,
    /// but at none after a comma, nor between `⟦` and `⟧`. Each case has a line, and what closes
    /// the cases begins one.
    fn member(&mut self, line: &str) -> Result<(), AllocError> {
        let (start, term) = line.split_once(" = { ").unwrap_or((line, ""));
        self.text.push_str(start)?;
        self.text.push_str(" = {")?;
        let mut used = width(start).saturating_add(4);
        let mut part = String::new(self.alloc);
        for word in term.split(' ') {
            part.push(' ')?;
            part.push_str(word)?;
            if is_closed(part.as_str()) {
                used = self.word(part.as_str(), used)?;
                part.clear();
            }
        }
        Ok(())
    }

    /// Appends a part of a ghost term, after a space or on a new line, to a line of so many
    /// columns. Answers how many it has then.
    fn word(&mut self, part: &str, used: usize) -> Result<usize, AllocError> {
        let whole = used.saturating_add(width(part));
        let case = if part == " |" { CASE } else { 0 };
        let begins_line = case > 0 || part == " ])";
        if part == " };" || !begins_line && whole.saturating_add(3) <= COLUMNS {
            self.text.push_str(part)?;
            return Ok(whole);
        }
        let indent = INDENT.saturating_add(case);
        start_line(&mut self.text, indent)?;
        self.text.push_str(part)?;
        Ok(width(part).saturating_add(indent))
    }

    /// What the module is, the lines that bring names in, and then the items.
    ///
    /// # Errors
    ///
    /// There was no memory for a part of it.
    pub fn finish(self) -> Result<String, AllocError> {
        if self.lacks_memory {
            return Err(AllocError);
        }
        let mut output = String::from_str(self.alloc, HEAD)?;
        for import in &self.imports {
            append_import(&mut output, import)?;
        }
        output.push('\n')?;
        output.push_str(self.uses.lines()?.as_str())?;
        output.push_str(self.text.as_str())?;
        Ok(output)
    }
}

/// The first lines of the module.
const HEAD: &str =
    "//! Written by derive_files: how the types of the module above are encoded.\n\n";

/// Whether a line is a call of the libraries, or the head of a `match` of one.
fn is_call(line: &str) -> bool {
    let call = line.trim_start();
    let call = call.strip_prefix("match ").unwrap_or(call);
    call.starts_with("nano_") && (call.ends_with(')') || call.ends_with(") {"))
}

/// Whether a line may end after a part of a term: no `⟦` is open, and no item of a tuple follows.
fn is_closed(part: &str) -> bool {
    part.matches('⟦').count() == part.matches('⟧').count() && !part.ends_with(',')
}
