//! Documents as bytes: a tag of two bytes, and what the variant holds.

use crate::checks::holds;
use nano_bin::{DeBin, DeBinErr, DeBinKind, SerBin, laws as of_bytes};
use nano_document::{Json, laws};
use nano_json::{DeJson, SerJson};
use std::alloc::{AllocError, Global};

/// Texts of documents, and their bytes.
const BYTES: &[(&str, &[u8])] = &[
    ("null", &[0, 0]),
    ("false", &[1, 0, 0]),
    ("true", &[1, 0, 1]),
    ("258", &[2, 0, 2, 1, 0, 0, 0, 0, 0, 0]),
    ("-2", &[3, 0, 254, 255, 255, 255, 255, 255, 255, 255]),
    ("1.5", &[4, 0, 3, 0, 0, 0, 0, 0, 0, 0, 49, 46, 53]),
    ("\"é\"", &[5, 0, 2, 0, 0, 0, 0, 0, 0, 0, 195, 169]),
    (
        "[null,[]]",
        &[
            6, 0, 2, 0, 0, 0, 0, 0, 0, 0, 0, 0, 6, 0, 0, 0, 0, 0, 0, 0, 0, 0,
        ],
    ),
    (
        "{\"a\":true,\"a\":{}}",
        &[
            7, 0, 2, 0, 0, 0, 0, 0, 0, 0, 1, 0, 0, 0, 0, 0, 0, 0, 97, 1, 0, 1, 1, 0, 0, 0, 0, 0, 0,
            0, 97, 7, 0, 0, 0, 0, 0, 0, 0, 0, 0,
        ],
    ),
];

/// Bytes of documents that are written otherwise, and their texts.
const READ_TOO: &[(&[u8], &str)] = &[(&[1, 0, 7], "true"), (&[3, 0, 5, 0, 0, 0, 0, 0, 0, 0], "5")];

/// Bytes that are no document, and where that is found.
const NOT_READ: &[(&[u8], usize)] = &[
    (&[], 0),
    (&[0], 0),
    (&[8, 0], 0),
    (&[0, 1], 0),
    (&[2, 0, 1, 0, 0, 0, 0, 0, 0], 2),
    (&[4, 0, 1, 0, 0, 0, 0, 0, 0, 0, 120], 2),
    (&[5, 0, 1, 0, 0, 0, 0, 0, 0, 0, 255], 10),
    (&[6, 0, 1, 0, 0, 0, 0, 0, 0, 0], 10),
    (&[6, 0, 1, 0, 0, 0, 0, 0, 0, 0, 9, 0], 10),
    (
        &[7, 0, 1, 0, 0, 0, 0, 0, 0, 0, 0, 0, 0, 0, 0, 0, 0, 0, 9, 0],
        18,
    ),
];

fn is_written(alloc: Global, json: &Json, bytes: &[u8]) -> bool {
    match json.serialize_bin(alloc) {
        Ok(written) => written.as_slice() == bytes,
        Err(_error) => false,
    }
}

fn is_read(alloc: Global, bytes: &[u8], text: &str) -> bool {
    let Ok(json) = Json::deserialize_bin_whole(alloc, bytes) else {
        return false;
    };
    match json.serialize_json(alloc) {
        Ok(written) => written.as_str() == text,
        Err(_error) => false,
    }
}

fn is_the_document(alloc: Global, text: &str, bytes: &[u8]) -> bool {
    match Json::deserialize_json_whole(alloc, text) {
        Ok(json) => is_written(alloc, &json, bytes) && is_read(alloc, bytes, text),
        Err(_error) => false,
    }
}

fn is_rejected(alloc: Global, bytes: &[u8], place: usize) -> bool {
    match Json::deserialize_bin(alloc, bytes) {
        Ok(_json) => false,
        Err(error) => error.o == place && error.kind != DeBinKind::Memory,
    }
}

#[test]
fn documents_are_bytes(rt: HostRuntime) {
    let alloc = rt.alloc();
    for (text, bytes) in BYTES {
        holds(&rt, is_the_document(alloc, text, bytes), text);
    }
    for (bytes, text) in READ_TOO {
        holds(&rt, is_read(alloc, bytes, text), text);
    }
    for (bytes, place) in NOT_READ {
        holds(&rt, is_rejected(alloc, bytes, *place), "bytes");
    }
}

/// Whether both are written as the same bytes.
fn are_alike(alloc: Global, one: &Json, other: &Json) -> Result<bool, AllocError> {
    let bytes = one.serialize_bin(alloc)?;
    of_bytes::same_bytes_same_meaning(one, other);
    Ok(one == other && is_written(alloc, other, bytes.as_slice()))
}

fn equal_documents_are_alike(alloc: Global) -> Result<bool, AllocError> {
    let decimal = Json::Decimal(String::from_str(alloc, "x")?);
    let text = Json::Text(String::from_str(alloc, "x")?);
    Ok(
        are_alike(alloc, &Json::I64(7), &Json::U64(7))?
            && are_alike(alloc, &decimal, &text)?
            && !is_written(alloc, &Json::I64(-7), &[2, 0, 7, 0, 0, 0, 0, 0, 0, 0]),
    )
}

/// Whether a list that holds a list, and so on, is read back; `Err` holds the error.
fn nested(alloc: Global, levels: usize) -> Result<Result<bool, DeBinErr>, AllocError> {
    let mut json = Json::List(Vec::new(alloc));
    for _ in 1..levels {
        json = Json::List(vec![in alloc; json]?);
    }
    let bytes = json.serialize_bin(alloc)?;
    match of_bytes::read_back_whole(alloc, &json, bytes.as_slice()) {
        Ok(read) => Ok(Ok(read == json)),
        Err(error) => Ok(Err(error)),
    }
}

fn levels_are_counted(alloc: Global) -> Result<bool, AllocError> {
    let most = match nested(alloc, 128)? {
        Ok(same) => same,
        Err(_error) => false,
    };
    let more = match nested(alloc, 129)? {
        Ok(_same) => false,
        Err(error) => error.o == 1280 && error.kind == DeBinKind::Memory,
    };
    Ok(most && more)
}

#[test]
fn equal_documents_are_the_same_bytes(rt: HostRuntime) {
    let alloc = rt.alloc();
    let alike = equal_documents_are_alike(alloc).unwrap_or(false);
    holds(&rt, alike, "equal documents");
    laws::bytes_are_a_tag_and_its_content();
    laws::equal_documents_have_one_tag();
}

#[test]
fn levels_of_bytes_are_counted_to_128(rt: HostRuntime) {
    let alloc = rt.alloc();
    holds(
        &rt,
        levels_are_counted(alloc).unwrap_or(false),
        "128 levels",
    );
}

/// A record with a document in it: bytes of a pair, at an offset.
fn is_read_within(alloc: Global) -> Result<bool, AllocError> {
    let record = (7u8, vec![in alloc; Json::Null, Json::Bool(true)]?);
    let mut bytes = vec![in alloc; 255u8]?;
    record.ser_bin(alloc, &mut bytes)?;
    let mut offset = 1;
    match <(u8, Vec<Json>)>::de_bin(alloc, &mut offset, bytes.as_slice()) {
        Ok(read) => Ok(read.0 == 7 && read.1 == record.1 && offset == bytes.len()),
        Err(_error) => Ok(false),
    }
}

#[test]
fn a_record_holds_documents(rt: HostRuntime) {
    let alloc = rt.alloc();
    holds(&rt, is_read_within(alloc).unwrap_or(false), "a record");
}
