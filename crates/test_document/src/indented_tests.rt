//! Documents that are written with indentation, and read again.

use crate::checks::holds;
use nano_document::{Json, laws};
use nano_json::{DeJson, DeJsonErr};
use std::alloc::Global;

/// Texts, and what is written of the documents that they are.
const INDENTED: &[(&str, &str)] = &[
    ("\"x\"", "\"x\""),
    ("[]", "[]"),
    ("{ }", "{}"),
    ("[1,[2],[]]", "[\n  1,\n  [\n    2\n  ],\n  []\n]"),
    (
        "{\"a\":-1,\"b\":{\"c\":null}}",
        "{\n  \"a\": -1,\n  \"b\": {\n    \"c\": null\n  }\n}",
    ),
];

fn is_indented(alloc: Global, text: &str, expected: &str) -> Result<bool, DeJsonErr> {
    let json = Json::deserialize_json_whole(alloc, text)?;
    laws::indented_text_is_cut_into_the_same_tokens(&json);
    laws::indented_text_decodes_to_the_document(&json);
    let Ok(written) = json.serialize_indented(alloc) else {
        return Ok(false);
    };
    let again = Json::deserialize_json_whole(alloc, written.as_str())?;
    Ok(written.as_str() == expected && again == json)
}

#[test]
fn documents_are_indented(rt: HostRuntime) {
    let alloc = rt.alloc();
    for (text, expected) in INDENTED {
        let indented = is_indented(alloc, text, expected).unwrap_or(false);
        holds(&rt, indented, text);
    }
}
