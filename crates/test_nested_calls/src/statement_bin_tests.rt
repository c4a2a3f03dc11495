//! Types that contain themselves as bytes.

use crate::bin_checks::{Deep, are_values, ends_after};
use crate::checks::holds;
use test_nested::{Branch, Outline, Statement};

/// An outline with nothing in it, and one of a section `a` and a note.
const OUTLINES: &[&[u8]] = &[
    &[0, 0, 0, 0, 0, 0, 0, 0, 0, 0, 0, 0, 0, 0, 0, 0],
    &[
        1, 0, 0, 0, 0, 0, 0, 0, 1, 0, 0, 0, 0, 0, 0, 0, 97, 0, 0, 0, 0, 0, 0, 0, 0, 0, 0, 0, 0, 0,
        0, 0, 0, 1, 0, 0, 0, 0, 0, 0, 0, 0, 0, 0, 0, 0, 0, 0, 0, 0, 0, 0, 0, 0, 0, 0, 0,
    ],
];

/// A value for a variable, a block in a block, and a choice.
const STATEMENTS: &[&[u8]] = &[
    &[0, 0, 1, 0, 0, 0, 0, 0, 0, 0, 97, 254, 255, 255, 255],
    &[1, 0, 1, 0, 0, 0, 0, 0, 0, 0, 1, 0, 0, 0, 0, 0, 0, 0, 0, 0],
    &[
        2, 0, 1, 0, 0, 0, 0, 0, 0, 0, 0, 0, 1, 0, 0, 0, 0, 0, 0, 0, 0, 0, 0, 7, 0, 0, 0,
    ],
];

const BRANCHES: &[&[u8]] = &[
    &[1, 0, 0, 0, 0, 0, 0, 0, 0, 0, 0],
    &[
        2, 0, 1, 0, 0, 0, 0, 0, 0, 0, 0, 0, 0, 1, 1, 0, 0, 0, 0, 0, 0, 0, 0, 0,
    ],
];

/// A choice, and its second statement.
const DEEP_STATEMENT: Deep = Deep {
    around: &[2, 0, 1, 0, 0, 0, 0, 0, 0, 0, 0, 0, 1],
    inner: &[1, 0, 0, 0, 0, 0, 0, 0, 0, 0],
};

#[test]
fn types_that_contain_themselves_are_bytes(rt: HostRuntime) {
    let alloc = rt.alloc();
    holds(&rt, are_values::<Outline>(alloc, OUTLINES), "outlines");
    holds(
        &rt,
        are_values::<Statement>(alloc, STATEMENTS),
        "statements",
    );
    holds(&rt, are_values::<Branch>(alloc, BRANCHES), "branches");
}

#[test]
fn levels_are_counted_by_statements(rt: HostRuntime) {
    let alloc = rt.alloc();
    let statements = ends_after::<Statement>(alloc, &DEEP_STATEMENT, 128, 1653);
    holds(&rt, statements, "statements");
}
