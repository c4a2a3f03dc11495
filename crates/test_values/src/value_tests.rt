//! Values one after the other in one text, in JSON and in RON.

use crate::checks::is_so;
use nano_values::json::{Values as JsonValues, laws as json_laws};
use nano_values::ron::{Values as RonValues, laws as ron_laws};
use std::alloc::{AllocError, Global};

/// A text, the values that are taken from it, and the error that is returned then in words, if one
/// is.
type Row = (&'static str, &'static [u32], &'static str);

const JSON: &[Row] = &[
    ("", &[], ""),
    (" \t\r\n", &[], ""),
    ("1", &[1], ""),
    (" 1 2\n\n3\t", &[1, 2, 3], ""),
    (
        "1,2",
        &[1],
        "Json Deserialize error: Unexpected token Comma expected unsigned integer , line:1 col:4",
    ),
    (
        "1 x",
        &[],
        "Json Deserialize error: Unexpected token BareIdent expected Got ##x## needed true, \
        false, null , line:1 col:4",
    ),
    (
        "1 2 300\0",
        &[1, 2, 300],
        "Json Deserialize error: Cannot parse end , line:1 col:9",
    ),
    (
        "1\n\0 2",
        &[1],
        "Json Deserialize error: Cannot parse end , line:2 col:2",
    ),
    (
        "\0",
        &[],
        "Json Deserialize error: Cannot parse end , line:1 col:2",
    ),
    (
        "4294967296",
        &[],
        "Json Deserialize error: Value out of range 4294967296>4294967295 , line:1 col:11",
    ),
];

const RON: &[Row] = &[
    ("", &[], ""),
    (" // none", &[], ""),
    ("1/* and */2 // both", &[1, 2], ""),
    (
        "1,2",
        &[1],
        "Ron Deserialize error: Unexpected token Comma expected unsigned integer , line:1 col:4",
    ),
    (
        "1 2\0",
        &[1, 2],
        "Ron Deserialize error: Cannot parse end , line:1 col:5",
    ),
];

/// Whether a row is taken so, and after its error nothing is left.
fn is_taken_from_json(alloc: Global, row: Row) -> Result<bool, AllocError> {
    let mut values = JsonValues::new(alloc, row.0);
    let mut taken = Vec::new(alloc);
    for _ in 0..10 {
        match values.next::<u32>(alloc) {
            Ok(Some(value)) => taken.push(value)?,
            Ok(None) => return Ok(taken.as_slice() == row.1 && row.2.is_empty()),
            Err(error) => {
                let words = format!(in alloc; "{error}")?;
                let has_ended = matches!(values.next::<u32>(alloc), Ok(None));
                return Ok(has_ended && taken.as_slice() == row.1 && words.as_str() == row.2);
            }
        }
    }
    Ok(false)
}

/// Whether a row is taken so, and after its error nothing is left.
fn is_taken_from_ron(alloc: Global, row: Row) -> Result<bool, AllocError> {
    let mut values = RonValues::new(alloc, row.0);
    let mut taken = Vec::new(alloc);
    for _ in 0..10 {
        match values.next::<u32>(alloc) {
            Ok(Some(value)) => taken.push(value)?,
            Ok(None) => return Ok(taken.as_slice() == row.1 && row.2.is_empty()),
            Err(error) => {
                let words = format!(in alloc; "{error}")?;
                let has_ended = matches!(values.next::<u32>(alloc), Ok(None));
                return Ok(has_ended && taken.as_slice() == row.1 && words.as_str() == row.2);
            }
        }
    }
    Ok(false)
}

#[test]
fn values_of_a_text(rt: HostRuntime) {
    for row in JSON {
        is_so(&rt, is_taken_from_json(rt.alloc(), *row), row.0);
    }
    for row in RON {
        is_so(&rt, is_taken_from_ron(rt.alloc(), *row), row.0);
    }
}

#[test]
fn value_laws(_rt: HostRuntime) {
    json_laws::taken_values_are_those_of_the_text::<u32>();
    json_laws::a_text_with_a_fault_holds_no_values::<u32>();
    json_laws::a_text_holds_one_list_of_values::<u32>();
    ron_laws::taken_values_are_those_of_the_text::<u32>();
    ron_laws::a_text_with_a_fault_holds_no_values::<u32>();
    ron_laws::a_text_holds_one_list_of_values::<u32>();
}
