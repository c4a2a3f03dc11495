//! The parameters of a type that contains itself: how a text speaks of them, and what the names of
//! the type's definitions are given for it.

use crate::codec_laws::law_end;
use crate::nested::Nested;
use crate::part::Names;
use crate::words::Words;
use derive_pen::Pen;
use derive_syntax::{Attributes, Holes};

/// A format, by its codecs.
#[derive(Clone, Copy)]
pub(crate) struct Format {
    /// Its name, with which the names of codecs end.
    pub(crate) name: &'static str,
    /// The trait of types that have one.
    pub(crate) of: &'static str,
}

const BIN: Format = Format {
    name: "bin",
    of: "BinCodec",
};

const JSON: Format = Format {
    name: "json",
    of: "JsonCodec",
};

const RON: Format = Format {
    name: "ron",
    of: "RonCodec",
};

/// The format of this name.
pub(crate) fn coded_by(name: &str) -> Format {
    match name {
        "json" => JSON,
        "ron" => RON,
        _ => BIN,
    }
}

/// The first format that stands above a type.
pub(crate) fn first_of(attributes: Attributes<'_>) -> Format {
    if attributes.bin.is_used() {
        BIN
    } else if attributes.json.is_used() {
        JSON
    } else {
        RON
    }
}

/// How a text speaks of the parameters of a type.
#[derive(Clone, Copy)]
pub(crate) enum Speech {
    /// By what their values mean, and what is legal for them.
    Meanings,
    /// By their codecs in the format of this name, which stand in a file of definitions or laws.
    Codecs(&'static str),
    /// By their codecs in the format of this name, as goals have them.
    Goals(&'static str),
}

impl Speech {
    /// A template for the codec of a parameter in the format of this name.
    fn codec(self, format: &str) -> (&'static str, Format) {
        match self {
            Speech::Goals(_own) => ("g.$NAME.$OF.$FORMAT", coded_by(format)),
            _ => ("$SNAKE_$FORMAT", coded_by(format)),
        }
    }

    /// The name of the format that it speaks by.
    fn format(self) -> &'static str {
        match self {
            Speech::Meanings => "",
            Speech::Codecs(format) | Speech::Goals(format) => format,
        }
    }

    /// A template for what the values of a parameter mean.
    fn means(self) -> &'static str {
        match self {
            Speech::Meanings => "$SNAKE_means",
            Speech::Codecs(_name) => "$SNAKE_$FORMAT.canonical.means",
            Speech::Goals(_name) => "g.$NAME.$OF.$FORMAT.canonical.means",
        }
    }

    /// A template for what is legal for a parameter.
    fn legal(self) -> &'static str {
        match self {
            Speech::Meanings => "$SNAKE_legal",
            Speech::Codecs(_name) => "$SNAKE_$FORMAT.encoding.legal",
            Speech::Goals(_name) => "g.$NAME.$OF.$FORMAT.encoding.legal",
        }
    }
}

/// A template for a parameter and a format.
fn of_one(pen: &Pen, names: &Names, template: &str, format: Format) -> String {
    let mut holes = Holes::new(pen.alloc());
    holes.put("NAME", names.of.as_str());
    holes.put("SNAKE", names.snake.as_str());
    holes.put("FORMAT", format.name);
    holes.put("OF", format.of);
    pen.whole(holes.fill(template))
}

impl Nested<'_> {
    /// Whether it has parameters.
    pub(crate) fn is_generic(&self) -> bool {
        !self.parameters.is_empty()
    }

    /// A template for each parameter and a format, with something between them.
    pub(crate) fn of_each(
        &self,
        pen: &Pen,
        template: &str,
        format: Format,
        between: &str,
    ) -> String {
        let mut text = pen.empty();
        for names in &self.parameters {
            pen.add_between(&mut text, between);
            pen.add(&mut text, of_one(pen, names, template, format).as_str());
        }
        text
    }

    /// The same for each in a row of arguments.
    fn given(&self, pen: &Pen, template: &str, format: &str) -> String {
        self.of_each(pen, template, coded_by(format), " ")
    }

    /// Its parameters.
    pub(crate) fn types(&self, pen: &Pen) -> String {
        self.given(pen, "$NAME", "")
    }

    /// Its parameters, as a text speaks of them: goals leave them out.
    fn types_in(&self, pen: &Pen, speech: Speech) -> String {
        match speech {
            Speech::Goals(_name) => self.given(pen, "_", ""),
            _ => self.types(pen),
        }
    }
}

/// The words by which a text on a type says its names, where it speaks so of the type's parameters.
pub(crate) fn words_of(pen: &Pen, nested: &Nested<'_>, speech: Speech) -> Words {
    let mut words = Words::new(pen);
    put_types(pen, nested, speech, &mut words);
    put_steps(pen, nested, speech, &mut words);
    put_views(pen, nested, &mut words);
    put_parts(pen, nested, speech, &mut words);
    let snake = nested.names.snake.as_str();
    let first = nested.first.name;
    for (begin, format) in [("_json", "json"), ("_ron", "ron"), ("_", first)] {
        let (template, format) = speech.codec(format);
        let given = nested.of_each(pen, template, format, " ");
        words.give(pen, pen.two("{}{}", snake, begin), given);
    }
    words
}

/// What is declared of a type: each name is given the parameters.
const DECLARED: [(&str, &str); 6] = [
    ("", "-F"),
    ("", "Content"),
    ("map-", ""),
    ("fold-", ""),
    ("fold_out-", ""),
    ("out-", ""),
];

/// Puts the type, and what is declared of it.
fn put_types(pen: &Pen, nested: &Nested<'_>, speech: Speech, words: &mut Words) {
    let (name, types) = (nested.names.of.as_str(), nested.types_in(pen, speech));
    words.put(
        pen,
        pen.copy(name),
        pen.two("({} {})", name, types.as_str()),
    );
    for (before, after) in DECLARED {
        let word = pen.three("{}{}{}", before, name, after);
        let text = pen.two("{} {}", word.as_str(), types.as_str());
        words.put(pen, word, text);
    }
}

/// Puts what a value means, which meanings are legal, and what is said of the shape of a type
/// alone.
fn put_steps(pen: &Pen, nested: &Nested<'_>, speech: Speech, words: &mut Words) {
    let snake = nested.names.snake.as_str();
    let means = nested.given(pen, speech.means(), speech.format());
    let legal = nested.given(pen, speech.legal(), speech.format());
    for (end, given) in [("means", &means), ("means_step", &means), ("step", &legal)] {
        let word = pen.two("{}_{}", snake, end);
        let text = pen.two("({} {})", word.as_str(), given.as_str());
        words.put(pen, word, text);
    }
    for end in SHAPES {
        let word = pen.two("{}_{}", snake, end);
        words.put(pen, pen.copy(word.as_str()), word);
    }
}

/// What is said of the shape of a type alone.
const SHAPES: [&str; 4] = ["opened", "view", "depth", "depth_step"];

/// Puts what the variants are seen as. That of a variant with no content is given the parameters.
fn put_views(pen: &Pen, nested: &Nested<'_>, words: &mut Words) {
    let (snake, types) = (nested.names.snake.as_str(), nested.types(pen));
    for held in &nested.contents {
        if !nested.is_enum {
            continue;
        }
        let word = pen.two("{}_view_{}", snake, law_end(pen, held).as_str());
        let text = if held.leaves.is_empty() {
            pen.two("({} {})", word.as_str(), types.as_str())
        } else {
            pen.copy(word.as_str())
        };
        words.put(pen, word, text);
    }
}

/// Puts what is said of each parameter.
fn put_parts(pen: &Pen, nested: &Nested<'_>, speech: Speech, words: &mut Words) {
    let format = coded_by(speech.format());
    let (codec, _name) = speech.codec(format.name);
    for names in &nested.parameters {
        for (word, text) in [
            ("$SNAKE_part", codec),
            ("$SNAKE_value.means", speech.means()),
            ("$SNAKE_value.legal", speech.legal()),
            ("$SNAKE_agrees", "g.met.$NAME.$OF.agrees"),
        ] {
            let word = of_one(pen, names, word, format);
            words.put(pen, word, of_one(pen, names, text, format));
        }
    }
}
