//! What a document holds, pointers, and which documents are equal.

use crate::checks::holds;
use nano_document::Json;
use nano_json::{DeJson, DeJsonErr};
use std::alloc::Global;

/// A document with lists, objects, a name that stands twice, and names with `/` and `~`.
const DOCUMENT: &str = "{\"servers\": [{\"port\": 80}, {\"port\": 81}], \"a/b\": 1, \"m~n\": 2,
    \"\": 3, \"port\": 4, \"port\": 5, \"01\": 6, \"empty\": []}";

/// Pointers, and the number that each leads to.
const FOUND: &[(&str, u64)] = &[
    ("/servers/0/port", 80),
    ("/servers/1/port", 81),
    ("/a~1b", 1),
    ("/m~0n", 2),
    ("/", 3),
    ("/port", 5),
    ("/01", 6),
];

/// Pointers that lead nowhere.
const NOT_FOUND: &[&str] = &[
    "servers",
    "/server",
    "/servers/2",
    "/servers/00",
    "/servers/01",
    "/servers/+1",
    "/servers/-",
    "/servers/18446744073709551616",
    "/servers/0/port/0",
    "/servers/",
    "/a/b",
    "/a~2b",
    "/m~n",
    "/empty/0",
];

fn leads_to(alloc: Global, pointer: &str, number: u64) -> Result<bool, DeJsonErr> {
    let json = Json::deserialize_json_whole(alloc, DOCUMENT)?;
    match json.pointer(pointer) {
        Some(found) => Ok(found.as_u64() == Some(number)),
        None => Ok(false),
    }
}

fn leads_nowhere(alloc: Global, pointer: &str) -> Result<bool, DeJsonErr> {
    let json = Json::deserialize_json_whole(alloc, DOCUMENT)?;
    Ok(json.pointer(pointer).is_none())
}

#[test]
fn pointers_lead_to_documents(rt: HostRuntime) {
    let alloc = rt.alloc();
    for (pointer, number) in FOUND {
        let found = leads_to(alloc, pointer, *number).unwrap_or(false);
        holds(&rt, found, pointer);
    }
    for pointer in NOT_FOUND {
        let nowhere = leads_nowhere(alloc, pointer).unwrap_or(false);
        holds(&rt, nowhere, pointer);
    }
}

/// How many entries have this name.
fn count_of(json: &Json, name: &str) -> usize {
    json.iter().filter(|entry| entry.0.as_str() == name).count()
}

fn is_held(alloc: Global) -> Result<bool, DeJsonErr> {
    let json = Json::deserialize_json_whole(alloc, DOCUMENT)?;
    let Some(port) = json.get("port") else {
        return Ok(false);
    };
    let Some(servers) = json.get("servers") else {
        return Ok(false);
    };
    Ok(
        port.as_u64() == Some(5)
            && json.get("ports").is_none()
            && servers.get("port").is_none()
            && count_of(&json, "port") == 2
            && json.len() == 8
            && servers.len() == 2
            && servers.items().len() == 2
            && servers.entries().is_empty()
            && !servers.is_empty()
            && port.is_empty(),
    )
}

#[test]
fn what_lists_and_objects_hold(rt: HostRuntime) {
    holds(&rt, is_held(rt.alloc()).unwrap_or(false), "held");
}

/// Texts of documents, and whether these are equal.
const COMPARED: &[(&str, &str, bool)] = &[
    ("null", "null", true),
    ("null", "false", false),
    ("1", "1", true),
    ("1", "2", false),
    ("-1", "-1", true),
    ("\"a\"", "\"\\u0061\"", true),
    ("\"a\"", "\"b\"", false),
    ("1.0", " 1.0", true),
    ("1.0", "1.00", false),
    ("1e2", "100", false),
    ("1.5", "\"1.5\"", false),
    ("[1, 2]", "[1,2,]", true),
    ("[1, 2]", "[2, 1]", false),
    ("[]", "{}", false),
    ("[1]", "[1, 2]", false),
    ("{\"a\": [1]}", "{\"a\":[1]}", true),
    ("{\"a\": 1, \"b\": 2}", "{\"b\": 2, \"a\": 1}", false),
    ("{\"a\": 1}", "{\"b\": 1}", false),
    ("{\"a\": 1}", "{\"a\": 2}", false),
];

fn are_equal(alloc: Global, one: &str, other: &str) -> Result<bool, DeJsonErr> {
    let one = Json::deserialize_json_whole(alloc, one)?;
    let other = Json::deserialize_json_whole(alloc, other)?;
    Ok(one == other)
}

#[test]
fn documents_are_compared(rt: HostRuntime) {
    let alloc = rt.alloc();
    for (one, other, expected) in COMPARED {
        let equal = are_equal(alloc, one, other).unwrap_or(!*expected);
        holds(&rt, equal == *expected, one);
    }
    holds(&rt, Json::U64(1) == Json::I64(1), "a number of either kind");
    holds(&rt, Json::I64(-1) != Json::U64(1), "another sign");
}
