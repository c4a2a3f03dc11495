//! The words of a text that stand for others: a name of a definition of a type with parameters, for
//! that name with what it is given.

use derive_pen::Pen;

/// Words, and what stands in their place.
#[derive(Drop)]
pub(crate) struct Words {
    /// What stands in the place of a word, as it is.
    whole: Vec<Word>,
    /// What is given to the names that begin so, the longest first.
    begun: Vec<Word>,
    /// Names that stand as they are.
    own: Vec<String>,
}

/// A word, and a text for it.
#[derive(Drop)]
struct Word {
    word: String,
    text: String,
}

impl Words {
    /// No words.
    pub(crate) fn new(pen: &Pen) -> Words {
        Words {
            whole: Vec::new(pen.alloc()),
            begun: Vec::new(pen.alloc()),
            own: Vec::new(pen.alloc()),
        }
    }

    /// Puts a text in the place of a word.
    pub(crate) fn put(&mut self, pen: &Pen, word: String, text: String) {
        pen.push(&mut self.whole, Word { word, text });
    }

    /// Gives something to the names that begin so.
    pub(crate) fn give(&mut self, pen: &Pen, word: String, text: String) {
        pen.push(&mut self.begun, Word { word, text });
    }

    /// Lets the names stand as they are that a text defines.
    pub(crate) fn leave_defined(&mut self, pen: &Pen, text: &str) {
        for line in text.split('\n') {
            let (name, rest) = defined(line).split_once(' ').unwrap_or((line, ""));
            if rest.starts_with(": ") {
                pen.push(&mut self.own, pen.copy(name));
            }
        }
    }

    /// A line with what stands for its words. A comment stands as it is, and so does what is
    /// between quotes, and a word after a caret, which is left out.
    pub(crate) fn reworded(&self, pen: &Pen, line: &str) -> String {
        if line.starts_with("--") || line.starts_with("use ") {
            return pen.copy(line);
        }
        let mut text = pen.empty();
        let mut word = pen.empty();
        let mut is_quoted = false;
        let mut is_bare = false;
        for c in line.chars() {
            if is_of_word(c) {
                pen.add_char(&mut word, c);
                continue;
            }
            let stands = is_quoted || is_bare;
            pen.add(&mut text, self.placed(pen, word.as_str(), stands).as_str());
            word.clear();
            is_quoted = is_quoted != (c == '"');
            is_bare = c == '^';
            if !is_bare {
                pen.add_char(&mut text, c);
            }
        }
        pen.add(&mut text, self.placed(pen, word.as_str(), is_bare).as_str());
        text
    }

    /// What stands in the place of a word with its fields, or the word, if it stands as it is.
    fn placed(&self, pen: &Pen, word: &str, stands: bool) -> String {
        if stands {
            return pen.copy(word);
        }
        if let Some(text) = self.found(word) {
            return pen.copy(text);
        }
        let (name, fields) = word.split_once('.').unwrap_or((word, ""));
        let dot = if name.len() < word.len() { "." } else { "" };
        if fields.starts_with(|c: char| c.is_ascii_uppercase()) {
            return pen.copy(word);
        }
        if let Some(text) = self.found(name) {
            return pen.three("{}{}{}", text, dot, fields);
        }
        match self.given(name) {
            Some(given) => pen.four("({} {}){}{}", name, given, dot, fields),
            None => pen.copy(word),
        }
    }

    /// What stands in the place of a word.
    fn found(&self, word: &str) -> Option<&str> {
        for known in &self.whole {
            if known.word.as_str() == word {
                return Some(known.text.as_str());
            }
        }
        None
    }

    /// What a name is given.
    fn given(&self, name: &str) -> Option<&str> {
        for own in &self.own {
            if own.as_str() == name {
                return None;
            }
        }
        for known in &self.begun {
            if name.starts_with(known.word.as_str()) {
                return Some(known.text.as_str());
            }
        }
        None
    }
}

/// What a line defines, with what comes after it, if it is the first line of a definition.
pub(crate) fn defined(line: &str) -> &str {
    for before in ["abbrev pub ", "unfoldable pub ", "abbrev ", "pub "] {
        if let Some(rest) = line.strip_prefix(before) {
            return rest;
        }
    }
    line
}

/// Whether a character is one of a word with its fields.
fn is_of_word(c: char) -> bool {
    ['_', '-', '\'', '.'].contains(&c) || c.is_ascii_alphanumeric()
}
