//! Values of types of the formats that are written with indentation, and read again.

use crate::checks::holds;
use nano_document::Json;
use nano_json::{BothJson, DeJsonErr};
use nano_json_indent::{laws, serialize_json_indented};
use std::alloc::Global;
use std::collections::{BTreeMap, BTreeSet, LinkedList};

/// Whether the value that a text encodes is written so with indentation, and is read again.
fn is_indented<T: BothJson>(alloc: Global, text: &str, expected: &str) -> Result<bool, DeJsonErr> {
    let value = T::deserialize_json_whole(alloc, text)?;
    laws::indented_text_has_the_same_tokens(&value);
    laws::indented_text_decodes_to_the_value(&value);
    let (Ok(written), Ok(canonical)) = (
        serialize_json_indented(alloc, &value),
        value.serialize_json(alloc),
    ) else {
        return Ok(false);
    };
    let again = T::deserialize_json_whole(alloc, written.as_str())?;
    let Ok(same) = again.serialize_json(alloc) else {
        return Ok(false);
    };
    Ok(written.as_str() == expected && same == canonical)
}

/// The same, false where reading failed.
fn is_written<T: BothJson>(alloc: Global, text: &str, expected: &str) -> bool {
    is_indented::<T>(alloc, text, expected).unwrap_or(false)
}

#[test]
fn scalars_are_written_as_they_are(rt: HostRuntime) {
    let alloc = rt.alloc();
    let text = "18446744073709551615";
    holds(
        &rt,
        is_written::<u64>(alloc, text, "18446744073709551615"),
        text,
    );
    let text = "-9223372036854775808";
    holds(
        &rt,
        is_written::<i64>(alloc, text, "-9223372036854775808"),
        text,
    );
    let text = "-0";
    holds(&rt, is_written::<i8>(alloc, text, "0"), text);
    let text = "true";
    holds(&rt, is_written::<bool>(alloc, text, "true"), text);
    let text = "null";
    holds(&rt, is_written::<()>(alloc, text, "null"), text);
    let text = "\"a\\n\\u00e9\"";
    holds(&rt, is_written::<String>(alloc, text, "\"a\\né\""), text);
    let text = "[+1.50, -0]";
    holds(
        &rt,
        is_written::<Json>(alloc, text, "[\n  +1.50,\n  0\n]"),
        text,
    );
}

#[test]
fn each_item_begins_a_line(rt: HostRuntime) {
    let alloc = rt.alloc();
    let text = "[]";
    holds(&rt, is_written::<Vec<u8>>(alloc, text, "[]"), text);
    let text = "[[],[1]]";
    holds(
        &rt,
        is_written::<Vec<Vec<u8>>>(alloc, text, "[\n  [],\n  [\n    1\n  ]\n]"),
        text,
    );
    let text = "[1,null,-2]";
    holds(
        &rt,
        is_written::<Vec<Option<i32>>>(alloc, text, "[\n  1,\n  null,\n  -2\n]"),
        text,
    );
    let text = "[true,]";
    holds(
        &rt,
        is_written::<LinkedList<bool>>(alloc, text, "[\n  true\n]"),
        text,
    );
    let text = "[2,1]";
    holds(
        &rt,
        is_written::<BTreeSet<u8>>(alloc, text, "[\n  1,\n  2\n]"),
        text,
    );
    let text = "[1,\"a\"]";
    holds(
        &rt,
        is_written::<(u8, String)>(alloc, text, "[\n  1,\n  \"a\"\n]"),
        text,
    );
}

#[test]
fn a_space_stands_after_a_colon(rt: HostRuntime) {
    let alloc = rt.alloc();
    let text = "{}";
    holds(
        &rt,
        is_written::<BTreeMap<String, u8>>(alloc, text, "{}"),
        text,
    );
    let text = "{\"b\":[],\"a\":[1]}";
    let expected = "{\n  \"a\": [\n    1\n  ],\n  \"b\": []\n}";
    holds(
        &rt,
        is_written::<BTreeMap<String, Vec<u8>>>(alloc, text, expected),
        text,
    );
}
