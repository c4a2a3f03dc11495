//! Types that contain themselves, as bytes, by impls that `derive` writes.

use crate::bin_checks::{Deep, are_values, ends_after, is_rejected};
use crate::checks::holds;
use test_nested_derived::{Chain, Expression, Folder, Rule, Tree};

const TREES: &[&[u8]] = &[
    &[0, 0, 254, 255, 255, 255],
    &[
        1, 0, 2, 0, 0, 0, 0, 0, 0, 0, 0, 0, 7, 0, 0, 0, 1, 0, 1, 0, 0, 0, 0, 0, 0, 0, 0, 0, 8, 0,
        0, 0,
    ],
];

/// The sum of 3 and its opposite.
const EXPRESSIONS: &[&[u8]] = &[&[
    2, 0, 0, 0, 3, 0, 0, 0, 0, 0, 0, 0, 1, 0, 0, 0, 3, 0, 0, 0, 0, 0, 0, 0,
]];

const CHAINS: &[&[u8]] = &[
    &[5, 0, 0, 0, 0],
    &[5, 0, 0, 0, 1, 6, 0, 0, 0, 1, 7, 0, 0, 0, 0],
];

/// A folder `b`, in which is a folder `a`.
const FOLDERS: &[&[u8]] = &[&[
    1, 0, 0, 0, 0, 0, 0, 0, 98, 1, 0, 0, 0, 0, 0, 0, 0, 1, 0, 0, 0, 0, 0, 0, 0, 97, 0, 0, 0, 0, 0,
    0, 0, 0,
]];

/// Bytes that are no tree, and where that is found.
const NO_TREES: &[(&[u8], usize)] = &[
    (&[], 0),
    (&[2, 0], 0),
    (&[0, 0, 1, 0, 0], 2),
    (&[1, 0, 1, 0, 0, 0, 0, 0, 0, 0, 9, 0], 10),
];

const DEEP_TREE: Deep = Deep {
    around: &[1, 0, 1, 0, 0, 0, 0, 0, 0, 0],
    inner: &[0, 0, 4, 0, 0, 0],
};

const DEEP_EXPRESSION: Deep = Deep {
    around: &[1, 0],
    inner: &[0, 0, 4, 0, 0, 0, 0, 0, 0, 0],
};

const DEEP_CHAIN: Deep = Deep {
    around: &[4, 0, 0, 0, 1],
    inner: &[4, 0, 0, 0, 0],
};

const DEEP_FOLDER: Deep = Deep {
    around: &[0, 0, 0, 0, 0, 0, 0, 0, 1, 0, 0, 0, 0, 0, 0, 0],
    inner: &[0, 0, 0, 0, 0, 0, 0, 0, 0, 0, 0, 0, 0, 0, 0, 0],
};

const DEEP_RULE: Deep = Deep {
    around: &[2, 0, 0, 0, 0, 0, 1],
    inner: &[0, 0],
};

#[test]
fn types_that_contain_themselves_are_bytes(rt: HostRuntime) {
    let alloc = rt.alloc();
    holds(&rt, are_values::<Tree>(alloc, TREES), "trees");
    let expressions = are_values::<Expression>(alloc, EXPRESSIONS);
    holds(&rt, expressions, "expressions");
    holds(&rt, are_values::<Chain>(alloc, CHAINS), "chains");
    holds(&rt, are_values::<Folder>(alloc, FOLDERS), "folders");
}

#[test]
fn other_bytes_are_rejected_where_they_differ(rt: HostRuntime) {
    let alloc = rt.alloc();
    for (bytes, place) in NO_TREES {
        let is_so = is_rejected::<Tree>(alloc, bytes, *place, false);
        holds(&rt, is_so, "a row");
    }
}

#[test]
fn levels_run_out_after_as_many_as_are_read(rt: HostRuntime) {
    let alloc = rt.alloc();
    let trees = ends_after::<Tree>(alloc, &DEEP_TREE, 128, 1280);
    holds(&rt, trees, "trees");
    let expressions = ends_after::<Expression>(alloc, &DEEP_EXPRESSION, 128, 256);
    holds(&rt, expressions, "expressions");
    let chains = ends_after::<Chain>(alloc, &DEEP_CHAIN, 128, 640);
    holds(&rt, chains, "chains");
    let folders = ends_after::<Folder>(alloc, &DEEP_FOLDER, 128, 2048);
    holds(&rt, folders, "folders");
    let rules = ends_after::<Rule>(alloc, &DEEP_RULE, 5, 30);
    holds(&rt, rules, "rules");
}
