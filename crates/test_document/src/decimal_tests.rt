//! Decimals: which texts are, and what they are as documents.

use crate::checks::holds;
use nano_document::{Json, is_decimal, laws};
use nano_json::SerJson;
use std::alloc::{AllocError, Global};

/// Texts that are decimals, or begin or end as one, and whether they are.
const TESTED: &[(&str, bool)] = &[
    ("1.5", true),
    ("-0.0", true),
    ("+1.5", true),
    ("1.", true),
    ("-.5", true),
    ("1e5", true),
    ("1E-05", true),
    ("007.e0", true),
    ("", false),
    ("5", false),
    ("-5", false),
    (".5", false),
    (".", false),
    ("-.", false),
    ("e5", false),
    ("1e", false),
    ("1e+5", false),
    ("-.e5", false),
    ("1.5 ", false),
    (" 1.5", false),
    ("1.5\0", false),
    ("1.5.5", false),
    ("1.5e5e5", false),
    ("NaN", false),
    ("١.٥", false),
];

#[test]
fn texts_are_decimals_or_not(rt: HostRuntime) {
    for (text, expected) in TESTED {
        holds(&rt, is_decimal(text) == *expected, text);
    }
}

fn decimal(alloc: Global, text: &str) -> Result<Json, AllocError> {
    Ok(Json::Decimal(String::from_str(alloc, text)?))
}

/// Whether a decimal is found, taken out and written.
fn is_found(alloc: Global) -> Result<bool, AllocError> {
    let json = decimal(alloc, "1.50")?;
    let written = json.serialize_json(alloc)?;
    let found = json.as_decimal() == Some("1.50") && json.as_str() == None;
    let Err(json) = json.into_text() else {
        return Ok(false);
    };
    let Ok(text) = json.into_decimal() else {
        return Ok(false);
    };
    Ok(found && written.as_str() == "1.50" && text.as_str() == "1.50")
}

/// Whether a `Decimal` of a text that is none is that text.
fn is_text(alloc: Global) -> Result<bool, AllocError> {
    let json = decimal(alloc, "1.50 ")?;
    let indented = json.serialize_indented(alloc)?;
    let found = json.as_decimal() == None && json.as_str() == Some("1.50 ");
    let Err(json) = json.into_decimal() else {
        return Ok(false);
    };
    let same = json == Json::Text(String::from_str(alloc, "1.50 ")?);
    let Ok(text) = json.into_text() else {
        return Ok(false);
    };
    Ok(found && same && indented.as_str() == "\"1.50 \"" && text.as_str() == "1.50 ")
}

/// Whether decimals are compared by their texts.
fn are_compared(alloc: Global) -> Result<bool, AllocError> {
    let one = decimal(alloc, "1.0")?;
    let text = Json::Text(String::from_str(alloc, "1.0")?);
    Ok(
        one == decimal(alloc, "1.0")?
            && one != decimal(alloc, "1.00")?
            && one != decimal(alloc, "1.1")?
            && one != decimal(alloc, "1.0 ")?
            && one != text
            && text != one
            && one != Json::U64(1),
    )
}

#[test]
fn what_a_decimal_is(rt: HostRuntime) {
    let alloc = rt.alloc();
    holds(&rt, is_found(alloc).unwrap_or(false), "a decimal");
    holds(&rt, is_text(alloc).unwrap_or(false), "no decimal");
    holds(&rt, are_compared(alloc).unwrap_or(false), "compared");
    laws::a_decimal_is_its_text();
}
