//! The form of a name, values of either form, and faults as they are shown.

use crate::checks::{holds, is_made, is_so};
use nano_text_forms::{Form, Rejection, TextFault};
use nano_toml::TomlParser;
use std::alloc::{AllocError, Global};

/// Names, and the form that each tells.
const NAMES: &[(&str, Option<Form>)] = &[
    ("a.json", Some(Form::Json)),
    (".json", Some(Form::Json)),
    ("a.json.ron", Some(Form::Ron)),
    ("json", None),
    ("a.JSON", None),
    ("a.ron ", None),
    ("", None),
];

#[test]
fn names_tell_the_form(rt: HostRuntime) {
    for (name, form) in NAMES {
        holds(&rt, Form::of_name(name) == *form, name);
    }
}

/// The numbers that a text is, written again, or in words why it is none.
fn again(alloc: Global, form: Form, text: &str) -> Result<String, AllocError> {
    match form.read::<Vec<u64>>(alloc, text) {
        Ok(numbers) => form.write(alloc, &numbers),
        Err(Rejection::Text(fault)) => Ok(fault.words),
        Err(Rejection::Memory) => Err(AllocError),
    }
}

/// Whether a text is no list of numbers, and this is shown of its fault.
fn is_shown(alloc: Global, form: Form, text: &str, expected: &str) -> bool {
    match form.read::<Vec<u64>>(alloc, text) {
        Err(Rejection::Text(fault)) => {
            let mut output = Vec::new(alloc);
            let is_written = fault.show(&mut output, "file", text).is_ok();
            is_written && output.as_slice() == expected.as_bytes()
        }
        _ => false,
    }
}

#[test]
fn values_and_faults_of_a_form(rt: HostRuntime) {
    let alloc = rt.alloc();
    is_made(&rt, again(alloc, Form::Json, " [1, 2,] "), "[1,2]");
    let expected = "[\n    1,\n    2,\n]";
    is_made(&rt, again(alloc, Form::Ron, "[1, 2] // two"), expected);
    is_made(&rt, again(alloc, Form::Json, "[1] 2"), "Cannot parse end ");
    is_made(&rt, again(alloc, Form::Ron, "[1] 2"), "Cannot parse end ");
    let after_a_word =
        "file:2:6: Unexpected token Ident expected unsigned integer \n\t1, x]\n\t    ^\n";
    let is_so = is_shown(alloc, Form::Ron, "[\n\t1, x]", after_a_word);
    holds(&rt, is_so, "a word");
    let at_the_end = "file:1:2: Unexpected token Eof expected , or ] \n[1\n ^\n";
    let is_so = is_shown(alloc, Form::Json, "[1", at_the_end);
    holds(&rt, is_so, "the end");
}

/// A line of more than 120 characters, with a tab before its 64th one.
const LONG: &str = "012345678901234567890123456789012345678901234567890123456789\
    ab\tcd\
    012345678901234567890123456789012345678901234567890123456789";

/// What is shown of it there.
const LONG_SHOWN: &str = "1:64: w\n...345678901234567890123456789012345678901234567890123456789ab\t\
    cd0123456789012345678901234567890123456789012345678901234567...\n\
    \x20                                                             \t^\n";

/// A line, a column in it, and what is shown below the words.
const EXCERPTS: &[(&str, usize, &str)] = &[
    ("", 0, "1:1: w\n\n^\n"),
    ("", 3, "1:1: w\n\n^\n"),
    ("ab", 0, "1:1: w\nab\n^\n"),
    ("ab", 1, "1:1: w\nab\n^\n"),
    ("ab", 2, "1:2: w\nab\n ^\n"),
    ("ab", 9, "1:3: w\nab\n  ^\n"),
    ("äöü", 3, "1:3: w\näöü\n  ^\n"),
    (
        "\t\u{0}\u{1b}\tb",
        5,
        "1:5: w\n\t\u{fffd}\u{fffd}\tb\n\t  \t^\n",
    ),
    (LONG, 64, LONG_SHOWN),
];

/// Whether this is shown of a fault at a column of a line that is at hand alone.
fn is_shown_of_line(
    alloc: Global,
    line: &str,
    column: usize,
    expected: &str,
) -> Result<bool, AllocError> {
    let fault = TextFault {
        words: String::from_str(alloc, "w")?,
        line: 0,
        column,
    };
    let mut output = Vec::new(alloc);
    let is_written = fault.show_line(&mut output, "f", line).is_ok();
    let expected = format!(in alloc; "f:{expected}")?;
    Ok(is_written && output.as_slice() == expected.as_bytes())
}

#[test]
fn lines_around_a_place(rt: HostRuntime) {
    for (line, column, expected) in EXCERPTS {
        is_so(
            &rt,
            is_shown_of_line(rt.alloc(), line, *column, expected),
            expected,
        );
    }
}

/// Whether this is shown of the fault of a text in TOML.
fn is_shown_of_toml(alloc: Global, text: &str, expected: &str) -> bool {
    let Err(error) = TomlParser::parse(alloc, text) else {
        return false;
    };
    match Rejection::from(error) {
        Rejection::Text(fault) => {
            let mut output = Vec::new(alloc);
            let is_written = fault.show(&mut output, "f", text).is_ok();
            is_written && output.as_slice() == expected.as_bytes()
        }
        Rejection::Memory => false,
    }
}

#[test]
fn faults_of_toml(rt: HostRuntime) {
    let expected = "f:2:6: Unexpected token Comma \nb = ,\n     ^\n";
    holds(
        &rt,
        is_shown_of_toml(rt.alloc(), "a = 1\nb = ,\n", expected),
        "TOML",
    );
}
