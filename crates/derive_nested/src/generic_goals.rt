//! The answers for a type with parameters, from those for one without.

use crate::nested::Nested;
use crate::parameters::{Speech, words_of};
use crate::words::Words;
use derive_pen::Pen;

/// The answers for a type, in the format of this name: each takes what is known of the parameters.
pub(crate) fn with_goals(
    pen: &Pen,
    nested: &Nested<'_>,
    format: &'static str,
    text: String,
) -> String {
    if !nested.is_generic() {
        return text;
    }
    let words = words_of(pen, nested, Speech::Goals(format));
    let mut answers = pen.empty();
    for (i, line) in text.as_str().split('\n').enumerate() {
        pen.add(&mut answers, if i > 0 { "\n" } else { "" });
        pen.add(&mut answers, answer_line(pen, &words, line).as_str());
    }
    answers
}

/// A line of an answer.
fn answer_line(pen: &Pen, words: &Words, line: &str) -> String {
    if line.starts_with("pub ") {
        return pen.copy(line);
    }
    for given in [" t c =", " c ="] {
        if let Some((name, rest)) = line.split_once(given) {
            if !name.contains(' ') {
                return pen.three("{} g{}{}", name, given, words.reworded(pen, rest).as_str());
            }
        }
    }
    words.reworded(pen, line)
}
