//! Templates: texts with holes, each of which is a dollar sign and a name.

use std::alloc::{AllocError, Global};

/// What stands in the holes of templates. That memory ran out is reported when one is filled.
#[derive(Drop)]
pub struct Holes {
    alloc: Global,
    holes: Vec<Hole>,
    /// Whether there was no memory for one of them.
    lacks_memory: bool,
}

/// A hole. No name begins with another one.
#[derive(Drop)]
struct Hole {
    name: &'static str,
    text: String,
}

impl Holes {
    /// Nothing.
    pub fn new(alloc: Global) -> Holes {
        Holes {
            alloc,
            holes: Vec::new(alloc),
            lacks_memory: false,
        }
    }

    /// Puts a text into the hole of this name.
    pub fn put(&mut self, name: &'static str, text: &str) {
        if self.add(name, text).is_err() {
            self.lacks_memory = true;
        }
    }

    /// Puts a text that was made into the hole of this name, if there was memory for it.
    pub fn put_made(&mut self, name: &'static str, text: Result<String, AllocError>) {
        match text {
            Ok(text) => self.put(name, text.as_str()),
            Err(AllocError) => self.lacks_memory = true,
        }
    }

    /// Puts a text into the hole of this name, if there is memory for it.
    fn add(&mut self, name: &'static str, text: &str) -> Result<(), AllocError> {
        let text = String::from_str(self.alloc, text)?;
        Ok(self.holes.push(Hole { name, text })?)
    }

    /// A template with what stands in its holes.
    ///
    /// # Errors
    ///
    /// There was no memory for one of them, or there is none for the text.
    pub fn fill(&self, template: &str) -> Result<String, AllocError> {
        if self.lacks_memory {
            return Err(AllocError);
        }
        let mut text = String::new(self.alloc);
        for (i, part) in template.split('$').enumerate() {
            if i == 0 {
                text.push_str(part)?;
            } else {
                self.append(&mut text, part)?;
            }
        }
        Ok(text)
    }

    /// Appends a part of a template, with what stands in the hole with whose name it begins.
    fn append(&self, text: &mut String, part: &str) -> Result<(), AllocError> {
        for hole in &self.holes {
            if let Some(rest) = part.strip_prefix(hole.name) {
                text.push_str(hole.text.as_str())?;
                return text.push_str(rest);
            }
        }
        text.push_str(part)
    }
}
