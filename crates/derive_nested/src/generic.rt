//! The texts on a type with parameters, from those on one without: what is said of its shape is
//! given the parameters, what is said of meanings what the values of the parameters mean, and what
//! is said of a format stands in a module that has the codecs of the parameters.

use crate::generic_heads::headed;
use crate::nested::Nested;
use crate::parameters::{Speech, coded_by, words_of};
use crate::words::{Words, defined};
use derive_pen::Pen;

/// The definitions of a type, or the laws of these, in the format of this name.
pub(crate) fn with_parameters(
    pen: &Pen,
    nested: &Nested<'_>,
    format: &'static str,
    text: String,
) -> String {
    if !nested.is_generic() {
        return text;
    }
    let outside = words_of(pen, nested, Speech::Meanings);
    let mut inside = words_of(pen, nested, Speech::Codecs(format));
    inside.leave_defined(pen, text.as_str());
    let mut parts = Parts::new(pen);
    for block in text.split("\n\n") {
        let block = block.trim();
        if !block.is_empty() {
            parts.add(pen, nested, (&outside, &inside), block);
        }
    }
    parts.whole(pen, nested, format)
}

/// The parts of a text.
#[derive(Drop)]
struct Parts {
    /// What stands before the module.
    outside: String,
    /// What stands in it.
    inside: String,
    /// What stands after it.
    after: String,
    /// Headings for what comes next.
    waiting: String,
}

/// What a definition is of.
#[derive(Clone, Copy)]
pub(crate) enum Kind {
    /// The content of a type, by its parameters.
    Content,
    /// What is said of the shape of a type.
    Shape,
    /// A variant with no content, and what it is seen as.
    Alone,
    /// What a value means.
    Means,
    /// Which meanings are legal.
    Legal,
    /// What is said as it is.
    Plain,
    /// A set of laws.
    Laws,
    /// What is said of a format.
    Format,
    /// Nothing: a heading.
    Heading,
}

/// What the definition is of that a text begins with.
fn kind_of(pen: &Pen, nested: &Nested<'_>, name: &str) -> Kind {
    let snake = nested.names.snake.as_str();
    let content = pen.one("{}Content", nested.names.of.as_str());
    if name == content.as_str() {
        return Kind::Content;
    }
    let Some(end) = name.strip_prefix(snake) else {
        return match name {
            "" => Kind::Heading,
            "ruleset" => Kind::Laws,
            _ => Kind::Format,
        };
    };
    let alone = words_of(pen, nested, Speech::Meanings);
    let is_alone = alone.reworded(pen, name).as_str() != name;
    match end {
        "_opened" | "_view" | "_depth_step" | "_depth" => Kind::Shape,
        "_means_step" | "_means" => Kind::Means,
        "_step" => Kind::Legal,
        "_weaker" => Kind::Plain,
        _ if end.starts_with("_view_") && is_alone => Kind::Alone,
        _ if end.starts_with("_view_") => Kind::Shape,
        _ => Kind::Format,
    }
}

/// The name of what a block defines, after its comments.
pub(crate) fn name_of(block: &str) -> &str {
    for line in block.split('\n') {
        if !line.starts_with("--") {
            let (name, _rest) = defined(line).split_once(' ').unwrap_or((line, ""));
            return name;
        }
    }
    ""
}

impl Parts {
    /// No parts.
    fn new(pen: &Pen) -> Parts {
        Parts {
            outside: pen.empty(),
            inside: pen.empty(),
            after: pen.empty(),
            waiting: pen.empty(),
        }
    }

    /// Adds a block, in the words of what stands outside and inside of the module.
    fn add(
        &mut self,
        pen: &Pen,
        nested: &Nested<'_>,
        (outside, inside): (&Words, &Words),
        block: &str,
    ) {
        let kind = kind_of(pen, nested, name_of(block));
        let text = match kind {
            Kind::Heading => return append_block(pen, &mut self.waiting, block),
            Kind::Laws => return append_block(pen, &mut self.after, block),
            Kind::Format => {
                let text = reworded(pen, inside, block);
                append_block(pen, &mut self.inside, self.waiting.as_str());
                self.waiting.clear();
                return append_block(pen, &mut self.inside, text.as_str());
            }
            _ => headed(pen, nested, outside, (&kind, block)),
        };
        append_block(pen, &mut self.outside, self.waiting.as_str());
        self.waiting.clear();
        append_block(pen, &mut self.outside, text.as_str());
    }

    /// The text of these parts.
    fn whole(self, pen: &Pen, nested: &Nested<'_>, format: &str) -> String {
        let mut text = pen.empty();
        append_block(pen, &mut text, self.outside.as_str());
        if !self.inside.is_empty() {
            let codecs = nested.of_each(
                pen,
                "($SNAKE_$FORMAT : Codec $NAME)",
                coded_by(format),
                " ",
            );
            let types = nested.types(pen);
            let head = pen.two(
                "module _ {{} : Type 0} {} where\n",
                types.as_str(),
                codecs.as_str(),
            );
            pen.add(&mut text, "\n");
            pen.add(&mut text, head.as_str());
            append_indented(pen, &mut text, self.inside.as_str());
        }
        append_block(pen, &mut text, self.after.as_str());
        text
    }
}

/// Appends a block after a line that is blank.
fn append_block(pen: &Pen, text: &mut String, block: &str) {
    let block = block.trim();
    if block.is_empty() {
        return;
    }
    pen.add(text, "\n");
    pen.add(text, block);
    pen.add(text, "\n");
}

/// Appends the lines of blocks, each further in.
fn append_indented(pen: &Pen, text: &mut String, blocks: &str) {
    for line in blocks.trim().split('\n') {
        if !line.is_empty() {
            pen.add(text, "  ");
            pen.add(text, line);
        }
        pen.add(text, "\n");
    }
}

/// The lines of a block in other words.
fn reworded(pen: &Pen, words: &Words, block: &str) -> String {
    let mut text = pen.empty();
    for line in block.split('\n') {
        pen.add(&mut text, words.reworded(pen, line).as_str());
        pen.add(&mut text, "\n");
    }
    text
}
