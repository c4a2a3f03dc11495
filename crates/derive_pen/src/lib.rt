//! A pen, with which the generator writes texts. That memory ran out is reported at the end of what
//! is written, and not at each step: code that has no errors on its way is short, and what leaves a
//! function early is most of what it costs to prove it.
#![tactic(auto)]

use std::alloc::{AllocError, Global};
use std::cell::Cell;

/// What texts are written with. It remembers whether there was no memory for one of them, which is
/// then shorter than it should be.
#[derive(Drop)]
pub struct Pen {
    allocator: Global,
    /// Whether there was no memory for one of them.
    lacks_memory: Cell<bool>,
}

impl Pen {
    /// One that has written nothing.
    pub fn new(alloc: Global) -> Pen {
        Pen {
            allocator: alloc,
            lacks_memory: Cell::new(false),
        }
    }

    /// Where memory comes from.
    pub fn alloc(&self) -> Global {
        self.allocator
    }

    /// Whether there was memory for all that was written.
    ///
    /// # Errors
    ///
    /// There was none for a part of it.
    pub fn check(&self) -> Result<(), AllocError> {
        if self.lacks_memory.get() {
            Err(AllocError)
        } else {
            Ok(())
        }
    }

    /// An empty text.
    pub fn empty(&self) -> String {
        String::new(self.allocator)
    }

    /// Appends to a text.
    pub fn add(&self, text: &mut String, more: &str) {
        if text.push_str(more).is_err() {
            self.lacks_memory.set(true);
        }
    }

    /// Appends what stands between two items, if the text has an item already.
    pub fn add_between(&self, text: &mut String, between: &str) {
        if !text.is_empty() {
            self.add(text, between);
        }
    }

    /// Appends a character to a text.
    pub fn add_char(&self, text: &mut String, c: char) {
        if text.push(c).is_err() {
            self.lacks_memory.set(true);
        }
    }

    /// A copy of a text.
    pub fn copy(&self, text: &str) -> String {
        let mut copy = self.empty();
        self.add(&mut copy, text);
        copy
    }

    /// A template, with this value in its hole, which is `{}`.
    pub fn one(&self, template: &str, value: &str) -> String {
        self.filled(template, &[value])
    }

    /// A template with two holes, and these values in them.
    pub fn two(&self, template: &str, first: &str, second: &str) -> String {
        self.filled(template, &[first, second])
    }

    /// A template with three holes, and these values in them.
    pub fn three(&self, template: &str, first: &str, second: &str, third: &str) -> String {
        self.filled(template, &[first, second, third])
    }

    /// A template with four holes, and these values in them.
    pub fn four(
        &self,
        template: &str,
        first: &str,
        second: &str,
        third: &str,
        fourth: &str,
    ) -> String {
        self.filled(template, &[first, second, third, fourth])
    }

    /// A template with as many holes as there are values. Where these are not of one lifetime, the
    /// calls above take them one by one.
    pub fn filled(&self, template: &str, values: &[&str]) -> String {
        let mut text = self.empty();
        for (i, part) in template.split("{}").enumerate() {
            self.add(&mut text, part);
            if let Some(value) = values.get(i) {
                self.add(&mut text, *value);
            }
        }
        text
    }

    /// A number in decimals.
    pub fn number(&self, number: usize) -> String {
        self.whole(format!(in self.allocator; "{number}"))
    }

    /// What was made, if there was memory for it.
    pub fn made<T: Drop>(&self, value: Result<T, AllocError>) -> Option<T> {
        match value {
            Ok(value) => Some(value),
            Err(AllocError) => {
                self.lacks_memory.set(true);
                None
            }
        }
    }

    /// A text for which there may have been no memory: it is then empty.
    pub fn whole(&self, text: Result<String, AllocError>) -> String {
        self.made(text).unwrap_or(self.empty())
    }

    /// Appends to a list.
    pub fn push<T: Drop>(&self, items: &mut Vec<T>, item: T) {
        if items.push(item).is_err() {
            self.lacks_memory.set(true);
        }
    }

    /// Puts names in order.
    pub fn sort(&self, names: &mut Vec<&str>) {
        if names.sort().is_err() {
            self.lacks_memory.set(true);
        }
    }
}
