//! Documents that are read and written.

use crate::checks::holds;
use nano_document::{Json, laws};
use nano_json::{DeJson, DeJsonErr, SerJson};
use std::alloc::Global;

/// Texts, and what is written of the documents that they are.
const TEXTS: &[(&str, &str)] = &[
    ("null", "null"),
    (" true", "true"),
    ("false", "false"),
    ("0", "0"),
    ("-0", "0"),
    ("18446744073709551615", "18446744073709551615"),
    ("-9223372036854775808", "-9223372036854775808"),
    ("1.5", "1.5"),
    ("[-0.0, 1., 01e-05, +1E5]", "[-0.0,1.,01e-05,+1E5]"),
    ("{\"a\": 1e400}", "{\"a\":1e400}"),
    ("\"a\\u00e9\\n\"", "\"aé\\n\""),
    ("[ ]", "[]"),
    ("[1, [2], {},]", "[1,[2],{}]"),
    (
        "{\"b\": 1, \"a\": [null], \"b\": 2}",
        "{\"b\":1,\"a\":[null],\"b\":2}",
    ),
];

/// Texts that are no documents.
const NOT_READ: &[&str] = &[
    "",
    ".5",
    "1e",
    "1e+5",
    "-.e5",
    "1.5.5",
    "[1",
    "{\"a\"}",
    "{1:2}",
    "nul",
    "18446744073709551616",
];

fn again(alloc: Global, text: &str) -> Result<String, DeJsonErr> {
    let document = Json::deserialize_json_whole(alloc, text)?;
    match document.serialize_json(alloc) {
        Ok(written) => Ok(written),
        Err(_rejected) => Ok(String::new(alloc)),
    }
}

fn is_again(alloc: Global, text: &str, expected: &str) -> bool {
    match again(alloc, text) {
        Ok(written) => written.as_str() == expected,
        Err(_error) => false,
    }
}

#[test]
fn documents_are_read_and_written(rt: HostRuntime) {
    let alloc = rt.alloc();
    for (text, expected) in TEXTS {
        holds(&rt, is_again(alloc, text, expected), text);
    }
    for text in NOT_READ {
        holds(&rt, again(alloc, text).is_err(), text);
    }
}

/// Whether the documents of a list are as they stand in the text below.
fn are_items(items: &Vec<Json>) -> bool {
    items.len() == 4
        && items[0].is_null()
        && items[1].as_bool() == Some(true)
        && items[2].as_i64() == Some(-3)
        && items[2].as_u64() == None
        && items[3].as_str() == Some("x")
}

fn is_list(json: &Json) -> bool {
    match json.as_list() {
        Some(items) => are_items(items),
        None => false,
    }
}

fn is_found(alloc: Global) -> Result<bool, DeJsonErr> {
    let json = Json::deserialize_json_whole(alloc, "[null, true, -3, \"x\"]")?;
    Ok(is_list(&json) && json.as_bool().is_none() && json.as_object().is_none())
}

fn is_taken_out(alloc: Global) -> Result<bool, DeJsonErr> {
    let json = Json::deserialize_json(alloc, "[\"a\", [2], {\"b\": 3}]")?;
    let Err(json) = json.into_text() else {
        return Ok(false);
    };
    let Ok(mut items) = json.into_list() else {
        return Ok(false);
    };
    let Some(object) = items.pop() else {
        return Ok(false);
    };
    match object.into_object() {
        Ok(entries) => Ok(entries.len() == 1 && entries[0].1.as_i64() == Some(3)),
        Err(_json) => Ok(false),
    }
}

#[test]
fn what_a_document_holds(rt: HostRuntime) {
    let alloc = rt.alloc();
    holds(&rt, is_found(alloc).unwrap_or(false), "found");
    holds(&rt, is_taken_out(alloc).unwrap_or(false), "taken out");
    laws::a_document_of_few_levels_is_sound();
    laws::a_text_has_one_first_error();
}
