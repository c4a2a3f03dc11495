//! What a file of definitions or laws brings in: each name that stands in it, once.

use derive_pen::Pen;

/// A module, and names of it: each is brought in where it stands in a text. One that begins with a
/// hole is an operator, which stands without its holes.
pub(crate) struct Known {
    pub(crate) module: &'static str,
    pub(crate) names: &'static [&'static str],
}

/// The lines that bring in what stands in a text.
pub(crate) fn imports(pen: &Pen, text: &str, tables: &[&[Known]]) -> String {
    let mut words: Vec<&str> = Vec::new(pen.alloc());
    for word in text.split(is_between) {
        let (word, _field) = word.split_once('.').unwrap_or((word, ""));
        pen.push(&mut words, word);
    }
    pen.sort(&mut words);
    words.dedup();
    let mut lines = pen.empty();
    for table in tables {
        pen.add(&mut lines, imported(pen, table, &words).as_str());
    }
    lines
}

/// The lines that bring in the names of a table that are among these words.
fn imported(pen: &Pen, table: &[Known], words: &[&str]) -> String {
    let mut lines = pen.empty();
    for known in table {
        pen.add(&mut lines, import(pen, known, words).as_str());
    }
    lines
}

/// Whether a character stands between the words of a text.
fn is_between(c: char) -> bool {
    [' ', '\n', '(', ')', '{', '}', ',', ';'].contains(&c)
}

/// The line that brings in the names of a module that are among these words, if there are any.
fn import(pen: &Pen, known: &Known, words: &[&str]) -> String {
    let mut names = pen.empty();
    for name in known.names {
        if words.contains(&word_of(*name)) {
            pen.add_between(&mut names, ", ");
            pen.add(&mut names, *name);
        }
    }
    if names.is_empty() {
        return names;
    }
    pen.two("use Rattle.{}.{{}}\n", known.module, names.as_str())
}

/// A name as it stands in a text: the one that another is brought in as, or an operator without the
/// holes around it.
fn word_of(name: &str) -> &str {
    let (_theirs, name) = name.split_once(" as ").unwrap_or(("", name));
    let name = name.strip_prefix('◌').unwrap_or(name);
    name.strip_suffix('◌').unwrap_or(name)
}
