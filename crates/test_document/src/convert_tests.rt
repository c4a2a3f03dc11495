//! Documents that are made of values of other types, and values that are read from documents.

use crate::checks::holds;
use nano_document::{Json, laws};
use nano_json::{BothJson, DeJson, DeJsonErr, SerJson};
use std::alloc::Global;
use std::collections::{BTreeMap, BTreeSet};

/// Whether the value that a text encodes is this document, and is read from it again.
fn is_document<T: BothJson>(alloc: Global, text: &str, expected: &str) -> Result<bool, DeJsonErr> {
    let value = T::deserialize_json_whole(alloc, text)?;
    let document = Json::from_value(alloc, &value)?;
    let other = Json::deserialize_json_whole(alloc, expected)?;
    let again = document.to_value::<T>(alloc)?;
    let back = laws::a_value_comes_back(alloc, &value)?;
    let (Ok(written), Ok(same), Ok(canonical)) = (
        again.serialize_json(alloc),
        back.serialize_json(alloc),
        value.serialize_json(alloc),
    ) else {
        return Ok(false);
    };
    Ok(document == other && written == canonical && same == canonical)
}

/// The same, false where reading failed.
fn is_made<T: BothJson>(alloc: Global, text: &str, expected: &str) -> bool {
    is_document::<T>(alloc, text, expected).unwrap_or(false)
}

#[test]
fn values_are_documents(rt: HostRuntime) {
    let alloc = rt.alloc();
    let text = "18446744073709551615";
    holds(&rt, is_made::<u64>(alloc, text, text), text);
    let text = "-128";
    holds(&rt, is_made::<i8>(alloc, text, text), text);
    let text = "-0";
    holds(&rt, is_made::<i8>(alloc, text, "0"), text);
    let text = "[1,null,-2]";
    holds(&rt, is_made::<Vec<Option<i32>>>(alloc, text, text), text);
    let text = "[2, 1, 2]";
    holds(&rt, is_made::<BTreeSet<u8>>(alloc, text, "[1,2]"), text);
    let text = "{\"b\": \"\\u00e9\", \"a\": \"1.5\"}";
    let expected = "{\"a\":\"1.5\",\"b\":\"é\"}";
    holds(
        &rt,
        is_made::<BTreeMap<String, String>>(alloc, text, expected),
        text,
    );
    let text = "[true,[\"a\",[]]]";
    holds(
        &rt,
        is_made::<(bool, (String, Vec<u8>))>(alloc, text, text),
        text,
    );
    let text = "[+1.50, {\"a\": 1, \"a\": 2}]";
    holds(
        &rt,
        is_made::<Json>(alloc, text, "[+1.50,{\"a\":1,\"a\":2}]"),
        text,
    );
}

/// Documents inside one another, each in a list.
fn deep(alloc: Global, levels: usize) -> Option<Json> {
    let mut document = Json::Null;
    for _ in 1..levels {
        let mut items = Vec::new(alloc);
        let Ok(()) = items.push(document) else {
            return None;
        };
        document = Json::List(items);
    }
    Some(document)
}

/// Whether a document of so many levels is made a document again, or its error has this message
/// and stands in this column of its canonical text.
fn deep_comes_to(alloc: Global, levels: usize, message: &str, col: usize) -> bool {
    let Some(document) = deep(alloc, levels) else {
        return false;
    };
    match Json::from_value(alloc, &document) {
        Ok(same) => message == "" && same == document,
        Err(error) => error.msg.as_str() == message && error.line == 0 && error.col == col,
    }
}

/// Whether the error of a type for a document has this message, and stands in this column of its
/// canonical text.
fn is_not<T: DeJson>(alloc: Global, text: &str, message: &str, col: usize) -> bool {
    let Ok(document) = Json::deserialize_json_whole(alloc, text) else {
        return false;
    };
    match document.to_value::<T>(alloc) {
        Ok(_value) => false,
        Err(error) => error.msg.as_str() == message && error.line == 0 && error.col == col,
    }
}

#[test]
fn what_is_no_document_or_no_value(rt: HostRuntime) {
    let alloc = rt.alloc();
    holds(&rt, deep_comes_to(alloc, 128, "", 0), "128 levels");
    let message = "Value out of range levels>128 ";
    holds(&rt, deep_comes_to(alloc, 129, message, 133), "129 levels");
    let text = " [ 1, 256 ] ";
    let message = "Value out of range 256>255 ";
    holds(&rt, is_not::<Vec<u8>>(alloc, text, message, 7), text);
    let text = "true";
    let message = "Unexpected token Bool(true) expected unsigned integer ";
    holds(&rt, is_not::<u8>(alloc, text, message, 4), text);
}
