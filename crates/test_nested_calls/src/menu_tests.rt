//! Types that contain themselves, as RON, by impls that `derive` writes.

use crate::checks::{Deep, holds};
use crate::ron_checks::{are_values, ends_after_128, is_rejected};
use test_nested_derived_ron::{Comment, Filter, Menu, Setting};

/// A comment, and one that quotes another.
const COMMENTS: &[&str] = &[
    "(\n    author:\"a\",\n    text:\"b\",\n    votes:-1,\n    answers:[\n    ],\n)",
    "(\n    author:\"a\",\n    text:\"b\",\n    votes:2,\n    pinned:true,\n    quoted:(\n        \
    author:\"c\",\n        text:\"d\",\n        votes:0,\n        answers:[\n        ],\n    ),\n    \
    answers:[\n    ],\n)",
];

const FILTERS: &[&str] = &[
    "Any",
    "Not(Any)",
    "AtLeast(2, [\n    Any,\n])",
    "Has(\n    field:\"a\",\n)",
    "Has(\n    field:\"a\",\n    and:Not(Any),\n)",
];

/// A menu `m`, whose entry `a` opens a menu `b`.
const MENUS: &[&str] = &[
    "(\n    title:\"m\",\n    entries:{\n        \"a\":(\n            title:\"b\",\n            \
    entries:{\n            },\n        ),\n    },\n)",
];

const SETTINGS: &[&str] = &[
    "Unset",
    "Text(\"a\")",
    "Counts({\n    -3:7,\n    5:0,\n})",
    "Table({\n    \"a\":Text(\"b\"),\n    \"c\":Unset,\n})",
    "Lists({\n    2:[\n        Unset,\n    ],\n    300:[\n    ],\n})",
];

/// Texts that are no filter, with the column and the words of the error.
const NO_FILTERS: &[(&str, usize, &str)] = &[
    ("Twig(1)", 6, "Enum not defined Twig"),
    (
        "AtLeast(2, [Not(true)])",
        21,
        "Unexpected token Bool(true) expected Identifier ",
    ),
];

const DEEP_COMMENT: Deep = Deep {
    opening: "(author:\"a\",text:\"b\",votes:1,answers:[",
    innermost: "(author:\"a\",text:\"b\",votes:1,answers:[])",
    closing: "])",
};

const DEEP_MENU: Deep = Deep {
    opening: "(title:\"a\",entries:{\"b\":",
    innermost: "(title:\"c\",entries:{})",
    closing: "})",
};

const DEEP_SETTING: Deep = Deep {
    opening: "Table({\"a\":",
    innermost: "Unset",
    closing: "})",
};

const DEEP_FILTER: Deep = Deep {
    opening: "Has(field:\"a\",and:",
    innermost: "Any",
    closing: ")",
};

#[test]
fn types_that_contain_themselves_are_texts(rt: HostRuntime) {
    let alloc = rt.alloc();
    holds(&rt, are_values::<Comment>(alloc, COMMENTS), "comments");
    holds(&rt, are_values::<Filter>(alloc, FILTERS), "filters");
    holds(&rt, are_values::<Menu>(alloc, MENUS), "menus");
    holds(&rt, are_values::<Setting>(alloc, SETTINGS), "settings");
}

#[test]
fn other_texts_are_rejected_where_they_differ(rt: HostRuntime) {
    let alloc = rt.alloc();
    for (text, column, words) in NO_FILTERS {
        let is_so = is_rejected::<Filter>(alloc, text, *column, words);
        holds(&rt, is_so, "a row");
    }
}

#[test]
fn levels_of_texts_run_out_after_128(rt: HostRuntime) {
    let alloc = rt.alloc();
    let comments = ends_after_128::<Comment>(alloc, &DEEP_COMMENT, 4866);
    holds(&rt, comments, "comments");
    let filters = ends_after_128::<Filter>(alloc, &DEEP_FILTER, 2308);
    holds(&rt, filters, "filters");
    let menus = ends_after_128::<Menu>(alloc, &DEEP_MENU, 3074);
    holds(&rt, menus, "menus");
    let settings = ends_after_128::<Setting>(alloc, &DEEP_SETTING, 1414);
    holds(&rt, settings, "settings");
}
