//! Comments that are meant to be attributes, and are none.

const NAME: &str = "nanoserde";

const DOC: &str = "a doc comment is no attribute: begin it with `//`";

const FORM: &str =
    "an attribute begins with `// nanoserde:`, in these letters, with one space and a \
    colon";

/// The words with which an attribute begins.
const WORDS: [&str; 18] = [
    "bin",
    "json",
    "ron",
    "de_bin",
    "de_json",
    "de_ron",
    "ser_bin",
    "ser_json",
    "ser_ron",
    "transparent",
    "key",
    "rename",
    "rename_all",
    "deny_unknown",
    "allow_unknown",
    "levels",
    "default",
    "skip",
];

/// What is wrong with a comment that is no attribute, where it is meant to be one.
pub(crate) fn fault_of(comment: &str) -> Option<&'static str> {
    if let Some(text) = after_slashes(comment, "///", "//!") {
        return if is_meant(text) { Some(DOC) } else { None };
    }
    match after_slashes(comment, "//", "/*") {
        Some(text) if is_meant(text) => Some(FORM),
        _ => None,
    }
}

/// What comes after one of two beginnings of a comment.
fn after_slashes<'a>(comment: &'a str, one: &str, other: &str) -> Option<&'a str> {
    match comment.strip_prefix(one) {
        Some(text) => Some(text),
        None => comment.strip_prefix(other),
    }
}

/// Whether a text begins with the name and a colon, or with the name in whichever letters and then
/// an attribute.
fn is_meant(text: &str) -> bool {
    let (name, after) = first_word(text);
    if !name.eq_ignore_ascii_case(NAME) {
        return false;
    }
    match after.strip_prefix(':') {
        Some(words) => name == NAME || begins_with_attribute(words),
        None => begins_with_attribute(after),
    }
}

/// Whether a text is attributes as far as it is read, and no sentence that begins as they do.
fn begins_with_attribute(text: &str) -> bool {
    let (word, after) = first_word(text);
    let (following, _rest) = first_word(after);
    let is_last = after.is_empty() || after.starts_with(',') || after.starts_with('=');
    WORDS.contains(&word) && (is_last || WORDS.contains(&following))
}

/// The word with which a text begins after white space, and what comes after it and white space.
fn first_word(text: &str) -> (&str, &str) {
    let text = text.trim_start();
    for (at, c) in text.char_indices() {
        if c != '_' && !c.is_ascii_alphanumeric() {
            let word = text.get(..at).unwrap_or("");
            return (word, text.get(at..).unwrap_or("").trim_start());
        }
    }
    (text, "")
}
