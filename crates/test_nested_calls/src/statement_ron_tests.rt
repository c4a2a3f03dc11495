//! Types that contain each other in RON.

use crate::checks::{Deep, holds};
use crate::ron_checks::{are_values, ends_after_128, is_rejected};
use nano_bin::{DeBin, SerBin};
use nano_ron::{DeRon, SerRon};
use std::alloc::Global;
use test_nested::{Branch, Statement};

const STATEMENTS: &[&str] = &[
    r#"Assign("a", -2)"#,
    "Block([\n    Block([\n    ]),\n])",
    "If((\n    then:Block([\n    ]),\n    otherwise:Assign(\"\", 7),\n))",
];

/// Texts that are no statement, with the column and the words of the error.
const NO_STATEMENTS: &[(&str, usize, &str)] = &[
    ("Loop(1)", 6, "Enum not defined Loop"),
    ("If(7)", 5, "Unexpected token U64(7) expected ( "),
    (
        r#"Assign("a", true)"#,
        17,
        "Unexpected token Bool(true) expected signed integer ",
    ),
];

const BRANCHES: &[&str] = &[
    "(\n    then:Block([\n    ]),\n)",
    r#"(
    then:If((
        then:Block([
        ]),
    )),
    otherwise:Block([
    ]),
)"#,
];

/// Texts that are no branch, with the column and the words of the error.
const NO_BRANCHES: &[(&str, usize, &str)] = &[
    ("(otherwise:Block([]))", 21, "Key not found then"),
    (
        "(then:Block([7]))",
        15,
        "Unexpected token U64(7) expected Identifier ",
    ),
    ("(then:Block([]), size:1)", 22, "Unexpected key size"),
];

/// A choice of two statements, in bytes: an empty block, and a value for the variable ``.
const CHOICE: &[u8] = &[
    2, 0, 1, 0, 0, 0, 0, 0, 0, 0, 0, 0, 1, 0, 0, 0, 0, 0, 0, 0, 0, 0, 0, 7, 0, 0, 0,
];

const DEEP_BLOCK: Deep = Deep {
    opening: "Block([",
    innermost: "Block([])",
    closing: "])",
};

const DEEP_CHOICE: Deep = Deep {
    opening: "If((then:",
    innermost: "Block([])",
    closing: "))",
};

const DEEP_BRANCH: Deep = Deep {
    opening: "(then:If(",
    innermost: "(then:Block([]))",
    closing: "))",
};

/// The bytes are a value that is written as this text, and the text one that is written as them.
fn is_written_as(alloc: Global, bytes: &[u8], text: &str) -> bool {
    let Ok(statement) = Statement::deserialize_bin_whole(alloc, bytes) else {
        return false;
    };
    let Ok(written) = statement.serialize_ron(alloc) else {
        return false;
    };
    let Ok(same) = Statement::deserialize_ron_whole(alloc, written.as_str()) else {
        return false;
    };
    match same.serialize_bin(alloc) {
        Ok(others) => written.as_str() == text && others.as_slice() == bytes,
        Err(_error) => false,
    }
}

#[test]
fn statements_and_branches_are_read_and_written_back(rt: HostRuntime) {
    let alloc = rt.alloc();
    holds(
        &rt,
        are_values::<Statement>(alloc, STATEMENTS),
        "statements",
    );
    holds(&rt, are_values::<Branch>(alloc, BRANCHES), "branches");
}

#[test]
fn other_texts_are_no_statements_and_no_branches(rt: HostRuntime) {
    let alloc = rt.alloc();
    for (text, column, words) in NO_STATEMENTS {
        let is_so = is_rejected::<Statement>(alloc, text, *column, words);
        holds(&rt, is_so, text);
    }
    for (text, column, words) in NO_BRANCHES {
        let is_so = is_rejected::<Branch>(alloc, text, *column, words);
        holds(&rt, is_so, text);
    }
}

#[test]
fn statements_run_out_after_128_levels(rt: HostRuntime) {
    let alloc = rt.alloc();
    let blocks = ends_after_128::<Statement>(alloc, &DEEP_BLOCK, 902);
    holds(&rt, blocks, "blocks");
    let choices = ends_after_128::<Statement>(alloc, &DEEP_CHOICE, 1158);
    holds(&rt, choices, "choices");
    let branches = ends_after_128::<Branch>(alloc, &DEEP_BRANCH, 1164);
    holds(&rt, branches, "branches");
}

#[test]
fn statements_of_bytes_are_written_as_ron(rt: HostRuntime) {
    let alloc = rt.alloc();
    let is_so = is_written_as(alloc, CHOICE, STATEMENTS[2]);
    holds(&rt, is_so, "a statement");
}
