//! Types that contain themselves, as RON, by impls that `derive` writes.

use crate::checks::{Deep, holds};
use crate::ron_checks::{are_values, ends_after_128, is_rejected};
use test_nested_derived::{Chain, Expression, Folder, Tree};

const TREES: &[&str] = &[
    "Leaf(-2)",
    "Node([\n    Leaf(7),\n    Node([\n        Leaf(8),\n    ]),\n])",
];

/// A number, and the sum of 3 and its opposite within another sum.
const EXPRESSIONS: &[&str] = &[
    "Number(7)",
    "Sum(Sum(Number(3), Negated(Number(3))), Number(-1))",
];

const CHAINS: &[&str] = &[
    "(\n    number:5,\n)",
    "(\n    number:5,\n    next:(\n        number:6,\n    ),\n)",
];

/// A folder `b`, in which is a folder `a`.
const FOLDERS: &[&str] = &[
    "(\n    name:\"b\",\n    folders:[\n        (\n            name:\"a\",\n            \
    folders:[\n            ],\n        ),\n    ],\n)",
];

/// Texts that are no tree, with the column and the words of the error.
const NO_TREES: &[(&str, usize, &str)] = &[
    ("Twig(1)", 6, "Enum not defined Twig"),
    (
        "Node([Leaf(true)])",
        16,
        "Unexpected token Bool(true) expected signed integer ",
    ),
];

const DEEP_TREE: Deep = Deep {
    opening: "Node([",
    innermost: "Leaf(4)",
    closing: "])",
};

const DEEP_EXPRESSION: Deep = Deep {
    opening: "Sum(Number(1), ",
    innermost: "Number(2)",
    closing: ")",
};

const DEEP_CHAIN: Deep = Deep {
    opening: "(number:1,next:",
    innermost: "(number:2)",
    closing: ")",
};

const DEEP_FOLDER: Deep = Deep {
    opening: "(name:\"a\",folders:[",
    innermost: "(name:\"b\",folders:[])",
    closing: "])",
};

#[test]
fn types_that_contain_themselves_are_texts(rt: HostRuntime) {
    let alloc = rt.alloc();
    holds(&rt, are_values::<Tree>(alloc, TREES), "trees");
    let expressions = are_values::<Expression>(alloc, EXPRESSIONS);
    holds(&rt, expressions, "expressions");
    holds(&rt, are_values::<Chain>(alloc, CHAINS), "chains");
    holds(&rt, are_values::<Folder>(alloc, FOLDERS), "folders");
}

#[test]
fn other_texts_are_rejected_where_they_differ(rt: HostRuntime) {
    let alloc = rt.alloc();
    for (text, column, words) in NO_TREES {
        let is_so = is_rejected::<Tree>(alloc, text, *column, words);
        holds(&rt, is_so, "a row");
    }
}

#[test]
fn levels_of_texts_run_out_after_128(rt: HostRuntime) {
    let alloc = rt.alloc();
    let trees = ends_after_128::<Tree>(alloc, &DEEP_TREE, 773);
    holds(&rt, trees, "trees");
    let expressions = ends_after_128::<Expression>(alloc, &DEEP_EXPRESSION, 1916);
    holds(&rt, expressions, "expressions");
    let chains = ends_after_128::<Chain>(alloc, &DEEP_CHAIN, 1922);
    holds(&rt, chains, "chains");
    let folders = ends_after_128::<Folder>(alloc, &DEEP_FOLDER, 2434);
    holds(&rt, folders, "folders");
}
