//! Types that contain each other in JSON.

use crate::checks::{Deep, holds};
use crate::json_checks::{are_values, ends_after_128, is_rejected};
use nano_bin::{DeBin, SerBin};
use nano_json::{DeJson, SerJson};
use std::alloc::Global;
use test_nested::{Branch, Statement};

const STATEMENTS: &[&str] = &[
    r#"{"Assign":["a",-2]}"#,
    r#"{"Block":[[{"Block":[[]]}]]}"#,
    r#"{"If":[{"then":{"Block":[[]]},"otherwise":{"Assign":["",7]}}]}"#,
];

/// Texts that are no statement, with the column and the words of the error.
const NO_STATEMENTS: &[(&str, usize, &str)] = &[
    (r#"{"Loop":[1]}"#, 10, "Enum not defined Loop"),
    (r#"{"If":[7]}"#, 9, "Unexpected token U64(7) expected { "),
    (
        r#"{"Assign":["a"]}"#,
        16,
        "Unexpected token BlockClose expected signed integer ",
    ),
];

const BRANCHES: &[&str] = &[
    r#"{"then":{"Block":[[]]}}"#,
    r#"{"then":{"If":[{"then":{"Block":[[]]}}]},"otherwise":{"Block":[[]]}}"#,
];

/// Texts that are no branch, with the column and the words of the error.
const NO_BRANCHES: &[(&str, usize, &str)] = &[
    (r#"{"otherwise":{"Block":[[]]}}"#, 28, "Key not found then"),
    (
        r#"{"then":{"Block":[[7]]}}"#,
        21,
        "Unexpected token U64(7) expected String or { ",
    ),
];

/// A choice of two statements, in bytes: an empty block, and a value for the variable ``.
const CHOICE: &[u8] = &[
    2, 0, 1, 0, 0, 0, 0, 0, 0, 0, 0, 0, 1, 0, 0, 0, 0, 0, 0, 0, 0, 0, 0, 7, 0, 0, 0,
];

/// A choice, and the second statement of it.
const DEEP_STATEMENT: Deep = Deep {
    opening: r#"{"If":[{"then":{"Block":[[]]},"otherwise":"#,
    innermost: r#"{"Block":[[]]}"#,
    closing: "}]}",
};

/// A branch, and the first statement of it.
const DEEP_BRANCH: Deep = Deep {
    opening: r#"{"then":{"If":["#,
    innermost: r#"{"then":{"Block":[[]]}}"#,
    closing: "]}}",
};

/// The bytes are a value that is written as this text, and the text one that is written as them.
fn is_written_as(alloc: Global, bytes: &[u8], text: &str) -> bool {
    let Ok(statement) = Statement::deserialize_bin_whole(alloc, bytes) else {
        return false;
    };
    let Ok(written) = statement.serialize_json(alloc) else {
        return false;
    };
    let Ok(same) = Statement::deserialize_json_whole(alloc, written.as_str()) else {
        return false;
    };
    match same.serialize_bin(alloc) {
        Ok(others) => written.as_str() == text && others.as_slice() == bytes,
        Err(_error) => false,
    }
}

#[test]
fn statements_and_branches_are_read_and_written_back(rt: HostRuntime) {
    let alloc = rt.alloc();
    holds(
        &rt,
        are_values::<Statement>(alloc, STATEMENTS),
        "statements",
    );
    holds(&rt, are_values::<Branch>(alloc, BRANCHES), "branches");
}

#[test]
fn other_texts_are_no_statements_and_no_branches(rt: HostRuntime) {
    let alloc = rt.alloc();
    for (text, column, words) in NO_STATEMENTS {
        let is_so = is_rejected::<Statement>(alloc, text, *column, words);
        holds(&rt, is_so, "a statement");
    }
    for (text, column, words) in NO_BRANCHES {
        let is_so = is_rejected::<Branch>(alloc, text, *column, words);
        holds(&rt, is_so, "a branch");
    }
}

#[test]
fn statements_run_out_after_128_levels(rt: HostRuntime) {
    let alloc = rt.alloc();
    let statements = ends_after_128::<Statement>(alloc, &DEEP_STATEMENT, 5351);
    holds(&rt, statements, "statements");
    let branches = ends_after_128::<Branch>(alloc, &DEEP_BRANCH, 1930);
    holds(&rt, branches, "branches");
}

#[test]
fn statements_of_bytes_are_written_as_json(rt: HostRuntime) {
    let alloc = rt.alloc();
    holds(
        &rt,
        is_written_as(alloc, CHOICE, STATEMENTS[2]),
        "a statement",
    );
}
