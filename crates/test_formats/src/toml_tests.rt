//! Tables of TOML texts: what is found in them, their equality, what is nested deep, and the
//! laws.

use crate::checks::{holds, is_made};
use nano_toml::{Toml, TomlErr, TomlParser, TomlTok, laws};
use std::alloc::{AllocError, Global};
use std::collections::HashMap;
use std::process::Abort;

/// Whether these are an empty table and one of one key.
fn is_none_and_one(tables: &Vec<HashMap<String, Toml>>) -> bool {
    tables.len() == 2 && tables[0].is_empty() && tables[1].len() == 1
}

/// Whether these are the number 1 and a `nan` without a sign.
fn is_one_and_nan(values: &Vec<Toml>) -> bool {
    values.len() == 2
        && matches!(&values[0], Toml::Num(1))
        && matches!(&values[1], Toml::Nan(false))
}

/// Whether the second of tables has one key.
fn is_second_of_one(value: &Toml) -> bool {
    match value {
        Toml::Array(tables) => {
            if tables.len() > 1 {
                return value.index(1).len() == 1;
            }
            false
        }
        _ => false,
    }
}

/// Whether what is found in a value is what stands in the text, by its kind.
fn is_found(alloc: Global, value: &Toml) -> Result<bool, AllocError> {
    match value {
        Toml::Num(_) => Ok(value.num() == 5),
        Toml::Str(_) => Ok(value.str() == "x"),
        Toml::Bool(_) => Ok(value.boolean()),
        Toml::Dec(text) => Ok(text.as_str() == "-1.50"),
        Toml::Date(_) => Ok(value.date(alloc)?.as_str() == "1979-05-27"),
        Toml::SimpleArray(_) => Ok(is_one_and_nan(value.simple_arr())),
        Toml::Array(_) => Ok(is_none_and_one(value.arr()) && is_second_of_one(value)),
        _ => Ok(false),
    }
}

/// Whether a text that was taken out is the expected one.
fn is_text(text: String, expected: &str) -> bool {
    text.as_str() == expected
}

/// Whether what is taken out of a value is what stands in the text, by its kind. From a number or
/// a truth nothing is taken out.
fn is_taken_out(value: Toml) -> bool {
    match &value {
        Toml::Str(_) => is_text(value.into_str(), "x"),
        Toml::Dec(_) => is_text(value.into_dec(), "-1.50"),
        Toml::Date(_) => is_text(value.into_date(), "1979-05-27"),
        Toml::SimpleArray(_) => is_one_and_nan(&value.into_simple_arr()),
        Toml::Array(_) => is_none_and_one(&value.into_arr()),
        _ => true,
    }
}

/// A text with a value of each kind.
const KINDS: &str =
    "n = 5 s = \"x\" b = true f = -1.50 d = 1979-05-27 l = [1, nan] [[t]] [[t]] k = 1";

/// Each value of a table is found, and taken out.
fn are_found(rt: &impl Abort, alloc: Global, table: HashMap<String, Toml>) {
    for (key, value) in table {
        holds(rt, is_found(alloc, &value) == Ok(true), key.as_str());
        holds(rt, is_taken_out(value), key.as_str());
    }
}

#[test]
fn toml_values(rt: HostRuntime) {
    let alloc = rt.alloc();
    match TomlParser::parse(alloc, KINDS) {
        Ok(table) => {
            holds(&rt, table.len() == 7, KINDS);
            are_found(&rt, alloc, table);
        }
        Err(_error) => holds(&rt, false, KINDS),
    }
}

/// An error as it is shown, and as its copy is to whom looks into it.
fn shown(alloc: Global, error: &TomlErr) -> Result<String, AllocError> {
    let copy = error.clone(alloc)?;
    format!(in alloc; "{error}; {copy:?}")
}

/// The error of a text, as it is shown.
fn shown_of(alloc: Global, text: &str) -> Result<String, AllocError> {
    match TomlParser::parse(alloc, text) {
        Ok(_table) => String::from_str(alloc, "a table"),
        Err(error) => shown(alloc, &error),
    }
}

/// An error without a message, in the last line.
fn last_error(alloc: Global) -> TomlErr {
    TomlErr {
        msg: String::new(alloc),
        line: usize::MAX,
        col: 0,
        memory: true,
    }
}

#[test]
fn toml_errors(rt: HostRuntime) {
    let alloc = rt.alloc();
    let _parser = TomlParser::default();
    let expected = "Toml error: Cannot parse toml tokenizer , line:1 col:6; \
        Toml error: Cannot parse toml tokenizer , line:1 col:6";
    is_made(&rt, shown_of(alloc, "a = @"), expected);
    let expected = "Toml error: , line:18446744073709551615 col:1; \
        Toml error: , line:18446744073709551615 col:1";
    is_made(&rt, shown(alloc, &last_error(alloc)), expected);
    let is_one = TomlTok::U64(1) == TomlTok::U64(1) && TomlTok::U64(1) != TomlTok::I64(1);
    holds(&rt, is_one && TomlTok::Comma != TomlTok::Equals, "tokens");
}

/// The table of a text, as a value.
fn table_of(alloc: Global, text: &str) -> Option<Toml> {
    let mut tables = Vec::new(alloc);
    tables.push(TomlParser::parse(alloc, text).ok()?).ok()?;
    Some(Toml::Array(tables))
}

/// Whether two texts give the same table.
fn same(alloc: Global, one: &str, other: &str) -> Option<bool> {
    Some(table_of(alloc, one)? == table_of(alloc, other)?)
}

/// Two texts, and whether they give the same table.
const PAIRS: &[(&str, &str, bool)] = &[
    ("a = 1 b = 2", "b = 2 a = 1", true),
    ("a = nan", "a = nan", true),
    ("a = nan", "a = -nan", false),
    ("a = 1", "a = 1.0", false),
    ("a = 1.0", "a = 1.00", false),
    ("a = [1, 2]", "a = [1 2]", true),
    ("a = [1, 2]", "a = [2, 1]", false),
    ("a = [1]", "a = 1", false),
    ("a = 1", "a = 1 b = 1", false),
    ("a = 1 b = 1", "a = 1", false),
    ("[[a]] b = 1 [[a]]", "[[a]] b = 1 [[a]]", true),
    ("[[a]] b = 1 [[a]]", "[[a]] [[a]] b = 1", false),
    ("a = inf", "a = nan", false),
    ("a = 1979-05-27", "a = \"1979-05-27\"", false),
];

#[test]
fn toml_equality(rt: HostRuntime) {
    for (one, other, expected) in PAIRS {
        holds(&rt, same(rt.alloc(), one, other) == Some(*expected), one);
    }
}

/// A list of so many levels.
fn brackets(alloc: Global, open: &str, depth: usize, close: &str) -> Result<String, AllocError> {
    let (opened, closed) = (open.repeat(alloc, depth)?, close.repeat(alloc, depth)?);
    format!(in alloc; "a = {opened}{closed}")
}

/// The table of a list of so many levels.
fn nested(alloc: Global, open: &str, depth: usize, close: &str) -> Option<Toml> {
    let text = brackets(alloc, open, depth, close).ok()?;
    table_of(alloc, text.as_str())
}

/// Whether a list of 10,000 levels is equal to itself, and not to one of a level fewer.
fn is_compared(alloc: Global, open: &str, close: &str) -> Option<bool> {
    let list = nested(alloc, open, 10_000, close)?;
    let is_itself = list == nested(alloc, open, 10_000, close)?;
    Some(is_itself && list != nested(alloc, open, 9_999, close)?)
}

/// What opens a level of a list, and what closes it.
const DEEP: &[(&str, &str)] = &[("[", ""), ("[", "]"), ("[1,", "1]"), ("[[],", "[]]")];

/// What opens a level of a list that is compared, and what closes it.
const COMPARED: &[(&str, &str)] = &[("[", ""), ("[", "]"), ("[[],1,", "]")];

#[test]
fn toml_is_nested(rt: HostRuntime) {
    for (open, close) in DEEP {
        holds(
            &rt,
            nested(rt.alloc(), open, 100_000, close).is_some(),
            open,
        );
    }
}

#[test]
fn toml_is_compared(rt: HostRuntime) {
    for (open, close) in COMPARED {
        holds(
            &rt,
            is_compared(rt.alloc(), open, close) == Some(true),
            open,
        );
    }
}

#[test]
fn toml_laws(_rt: HostRuntime) {
    laws::eq_is_reflexive();
    laws::eq_is_symmetric();
    laws::eq_is_transitive();
    laws::text_is_cut_in_one_way();
    laws::text_encodes_one_list();
    laws::list_has_one_table();
    laws::text_encodes_one_table();
    laws::text_has_one_first_error();
    laws::text_with_an_error_encodes_no_table();
}
