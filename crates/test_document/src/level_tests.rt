//! Limits of the levels of a document.

use crate::checks::holds;
use nano_document::Json;
use nano_json::{DeJson, DeJsonErr};
use std::alloc::{AllocError, Global};

/// So many brackets around a text, the limit, and what an error says, with its column.
const LIMITS: &[(usize, &str, usize, &str, usize)] = &[
    (0, "null", 0, "Value out of range levels>0 ", 4),
    (0, "", 0, "Value out of range levels>0 ", 0),
    (0, "null", 1, "", 0),
    (1, "", 1, "", 0),
    (1, "2", 1, "Value out of range levels>1 ", 3),
    (127, "1", 128, "", 0),
    (128, "", 128, "", 0),
    (128, "1", 128, "Value out of range levels>128 ", 130),
    (128, "1", 129, "", 0),
    (129, "1", 129, "Value out of range levels>129 ", 131),
    (999, "1", 1000, "", 0),
    (1000, "", 1000, "", 0),
    (1000, "1", 1000, "Value out of range levels>1000 ", 1002),
    (1000, "1", 2000, "", 0),
];

/// So many opening brackets, a text, and as many closing ones.
fn nested(alloc: Global, levels: usize, text: &str) -> Result<String, AllocError> {
    let mut out = String::new(alloc);
    for _ in 0..levels {
        out.push('[')?;
    }
    out.push_str(text)?;
    for _ in 0..levels {
        out.push(']')?;
    }
    Ok(out)
}

/// Whether a document was read, or the error has this message and stands in this column.
fn comes_to(read: Result<Json, DeJsonErr>, message: &str, col: usize) -> bool {
    match read {
        Ok(_document) => message == "",
        Err(error) => error.msg.as_str() == message && error.line == 0 && error.col == col,
    }
}

/// Whether a limit holds for the call of a whole input and for that of a beginning.
fn is_limit(alloc: Global, text: &str, limit: usize, message: &str, col: usize) -> bool {
    let whole = Json::deserialize_json_whole_within(alloc, limit, text);
    let beginning = Json::deserialize_json_within(alloc, limit, text);
    comes_to(whole, message, col) && comes_to(beginning, message, col)
}

#[test]
fn limits_are_of_levels(rt: HostRuntime) {
    let alloc = rt.alloc();
    for (levels, inner, limit, message, col) in LIMITS {
        let Ok(text) = nested(alloc, *levels, inner) else {
            return holds(&rt, false, "memory");
        };
        holds(
            &rt,
            is_limit(alloc, text.as_str(), *limit, message, *col),
            text.as_str(),
        );
    }
}

fn entries_are_levels(alloc: Global) -> bool {
    let text = "{\"a\":{\"b\":[]}}";
    comes_to(Json::deserialize_json_whole_within(alloc, 3, text), "", 0)
        && comes_to(
            Json::deserialize_json_whole_within(alloc, 2, text),
            "Value out of range levels>2 ",
            10,
        )
}

/// What follows a document is looked at after its levels.
fn what_follows_is_found(alloc: Global) -> bool {
    comes_to(
        Json::deserialize_json_whole_within(alloc, 1, "[] 1"),
        "Cannot parse end ",
        4,
    ) && comes_to(Json::deserialize_json_within(alloc, 1, "[] 1"), "", 0)
}

#[test]
fn limits_of_objects_and_of_what_follows(rt: HostRuntime) {
    let alloc = rt.alloc();
    holds(&rt, entries_are_levels(alloc), "entries");
    holds(&rt, what_follows_is_found(alloc), "what follows");
}

fn of_the_trait(alloc: Global, levels: usize, text: &str, message: &str, col: usize) -> bool {
    match nested(alloc, levels, text) {
        Ok(text) => {
            comes_to(Json::deserialize_json(alloc, text.as_str()), message, col)
                && comes_to(
                    Json::deserialize_json_whole(alloc, text.as_str()),
                    message,
                    col,
                )
        }
        Err(_rejected) => false,
    }
}

#[test]
fn the_calls_of_the_trait_read_128_levels(rt: HostRuntime) {
    let alloc = rt.alloc();
    let message = "Value out of range levels>128 ";
    holds(&rt, of_the_trait(alloc, 127, "1", "", 0), "127 and 1");
    holds(&rt, of_the_trait(alloc, 128, "", "", 0), "128");
    holds(
        &rt,
        of_the_trait(alloc, 128, "1", message, 130),
        "128 and 1",
    );
    holds(&rt, of_the_trait(alloc, 129, "", message, 130), "129");
}
