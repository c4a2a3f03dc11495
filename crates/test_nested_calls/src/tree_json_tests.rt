//! Types that contain themselves, as JSON, by impls that `derive` writes.

use crate::checks::{Deep, holds};
use crate::json_checks::{are_values, ends_after_128, is_rejected};
use test_nested_derived::{Chain, Expression, Folder, Tree};

const TREES: &[&str] = &[
    r#"{"Leaf":[-2]}"#,
    r#"{"Node":[[{"Leaf":[7]},{"Node":[[{"Leaf":[8]}]]}]]}"#,
];

/// The sum of 3 and its opposite.
const EXPRESSIONS: &[&str] = &[r#"{"Sum":[{"Number":[3]},{"Negated":[{"Number":[3]}]}]}"#];

const CHAINS: &[&str] = &[
    r#"{"number":5}"#,
    r#"{"number":5,"next":{"number":6,"next":{"number":7}}}"#,
];

/// A folder `b`, in which is a folder `a`.
const FOLDERS: &[&str] = &[r#"{"name":"b","folders":[{"name":"a","folders":[]}]}"#];

/// Texts that are no tree, with the column and the words of the error.
const NO_TREES: &[(&str, usize, &str)] = &[
    (r#"{"Twig":[1]}"#, 10, "Enum not defined Twig"),
    (
        r#"{"Node":[[{"Leaf":[true]}]]}"#,
        24,
        "Unexpected token Bool(true) expected signed integer ",
    ),
];

const DEEP_TREE: Deep = Deep {
    opening: r#"{"Node":[["#,
    innermost: r#"{"Leaf":[4]}"#,
    closing: "]]}",
};

const DEEP_EXPRESSION: Deep = Deep {
    opening: r#"{"Sum":[{"Number":[1]},"#,
    innermost: r#"{"Number":[2]}"#,
    closing: "]}",
};

const DEEP_CHAIN: Deep = Deep {
    opening: r#"{"number":1,"next":"#,
    innermost: r#"{"number":2}"#,
    closing: "}",
};

const DEEP_FOLDER: Deep = Deep {
    opening: r#"{"name":"a","folders":["#,
    innermost: r#"{"name":"b","folders":[]}"#,
    closing: "]}",
};

#[test]
fn types_that_contain_themselves_are_texts(rt: HostRuntime) {
    let alloc = rt.alloc();
    holds(&rt, are_values::<Tree>(alloc, TREES), "trees");
    let expressions = are_values::<Expression>(alloc, EXPRESSIONS);
    holds(&rt, expressions, "expressions");
    holds(&rt, are_values::<Chain>(alloc, CHAINS), "chains");
    holds(&rt, are_values::<Folder>(alloc, FOLDERS), "folders");
}

#[test]
fn other_texts_are_rejected_where_they_differ(rt: HostRuntime) {
    let alloc = rt.alloc();
    for (text, column, words) in NO_TREES {
        let is_so = is_rejected::<Tree>(alloc, text, *column, words);
        holds(&rt, is_so, "a row");
    }
}

#[test]
fn levels_of_texts_run_out_after_128(rt: HostRuntime) {
    let alloc = rt.alloc();
    let trees = ends_after_128::<Tree>(alloc, &DEEP_TREE, 1282);
    holds(&rt, trees, "trees");
    let expressions = ends_after_128::<Expression>(alloc, &DEEP_EXPRESSION, 2931);
    holds(&rt, expressions, "expressions");
    let chains = ends_after_128::<Chain>(alloc, &DEEP_CHAIN, 2434);
    holds(&rt, chains, "chains");
    let folders = ends_after_128::<Folder>(alloc, &DEEP_FOLDER, 2946);
    holds(&rt, folders, "folders");
}
