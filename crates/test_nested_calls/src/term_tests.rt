//! Each type in each format.

use crate::checks::holds;
use crate::{bin_checks, json_checks, ron_checks};
use test_nested_shapes::{Argument, Node, Term, Trail};

const IF: &[u8] = &[
    2, 0, 3, 0, 9, 0, 0, 0, 1, 0, 0, 1, 0, 0, 0, 0, 0, 0, 0, 0, 0, 1, 0, 0, 0, 0, 0, 0, 0, 0, 0, 0,
    0, 0, 0, 0, 0, 0, 0,
];

const CALL: &[u8] = &[
    1, 0, 1, 0, 0, 0, 0, 0, 0, 0, 102, 2, 0, 0, 0, 0, 0, 0, 0, 2, 0, 0, 0, 0, 0, 7, 0, 0, 0, 0, 0,
    0, 0,
];

const ARGUMENT: &[u8] = &[
    1, 0, 1, 0, 0, 0, 0, 0, 0, 0, 120, 1, 0, 0, 5, 0, 0, 0, 0, 0, 0, 0,
];

const NODE: &[u8] = &[
    0, 0, 0, 0, 0, 0, 0, 0, 1, 0, 0, 0, 255, 255, 255, 255, 0, 0, 0, 0, 2, 0, 0, 0, 0, 0, 0, 0, 0,
    0, 0, 0, 0, 0, 0, 0, 0, 0, 0, 0, 0, 0, 0, 0, 0, 0, 0, 0, 0, 0, 0, 0,
];

const TRAIL_JSON: &str = r#"{"Through":[[["a",7],["",0]],[1,2],{"Through":[[],[],"End"]}]}"#;

const TRAIL_RON: &str = "Through([    (\"a\", 7),    (\"\", 0)], [    1,    2], End)";

const TRAIL: &[u8] = &[
    1, 0, 1, 0, 0, 0, 0, 0, 0, 0, 1, 0, 0, 0, 0, 0, 0, 0, 97, 7, 1, 0, 0, 0, 0, 0, 0, 0, 5, 0, 0, 0,
];

const NODE_JSON: &str =
    r#"{"name":"a","at":[1,-2,3],"size":[4,5],"tags":["x","y"],"effects":{"b":1,"c":2},"children":[{"name":"","at":[0,0,0],"size":[0,0],"tags":[],"effects":{},"children":[]}]}"#;

const NODE_RON: &str = "(
    name:\"a\",
    at:(1, -2, 3),
    size:(4, 5),
    tags:[        \"x\",        \"y\"],
    effects:{
        \"b\":1,
        \"c\":2,
    },
    children:[
    ],
)";

const CALL_JSON: &str =
    r#"{"Call":["f",["Rest",{"Plain":[{"Number":[7]}]},{"Named":{"name":"x","value":{"Number":[5]}}}]]}"#;

const CALL_RON: &str = "Call(\"f\", [
    Rest,
    Plain(Number(7)),
    Named(
        name:\"x\",
        value:Number(5),
    ),
])";

#[test]
fn terms_and_arguments_are_read_and_written_back(rt: HostRuntime) {
    let alloc = rt.alloc();
    holds(
        &rt,
        bin_checks::is_read_back::<Term>(alloc, IF),
        "a condition",
    );
    holds(&rt, bin_checks::is_read_back::<Term>(alloc, CALL), "a call");
    holds(
        &rt,
        bin_checks::is_read_back::<Argument>(alloc, ARGUMENT),
        "an argument",
    );
    holds(
        &rt,
        !bin_checks::is_read_back::<Argument>(alloc, IF),
        "no argument",
    );
    holds(
        &rt,
        json_checks::is_read_back::<Term>(alloc, CALL_JSON),
        "a call in JSON",
    );
    holds(
        &rt,
        ron_checks::is_read_back::<Term>(alloc, CALL_RON),
        "a call in RON",
    );
    let argument = r#"{"Named":{"name":"x"}}"#;
    holds(
        &rt,
        json_checks::is_read_back::<Argument>(alloc, argument),
        "an argument in JSON",
    );
    holds(
        &rt,
        ron_checks::is_read_back::<Argument>(alloc, "Rest"),
        "an argument in RON",
    );
}

#[test]
fn nodes_are_read_and_written_back(rt: HostRuntime) {
    let alloc = rt.alloc();
    holds(&rt, bin_checks::is_read_back::<Node>(alloc, NODE), "bytes");
    holds(
        &rt,
        json_checks::is_read_back::<Node>(alloc, NODE_JSON),
        "JSON",
    );
    holds(
        &rt,
        ron_checks::is_read_back::<Node>(alloc, NODE_RON),
        "RON",
    );
}

#[test]
fn trails_are_read_and_written_back(rt: HostRuntime) {
    let alloc = rt.alloc();
    holds(
        &rt,
        bin_checks::is_read_back::<Trail>(alloc, TRAIL),
        "bytes",
    );
    holds(
        &rt,
        json_checks::is_read_back::<Trail>(alloc, TRAIL_JSON),
        "JSON",
    );
    holds(
        &rt,
        ron_checks::is_read_back::<Trail>(alloc, TRAIL_RON),
        "RON",
    );
}

#[test]
fn other_texts_are_no_trails(rt: HostRuntime) {
    let alloc = rt.alloc();
    let other = json_checks::is_rejected::<Trail>(
        alloc,
        r#"{"Through":[[],[],"Begin"]}"#,
        27,
        "Enum not defined Begin",
    );
    holds(&rt, other, "another variant");
    holds(
        &rt,
        !json_checks::is_read_back::<Trail>(alloc, r#"{"Through":[[],[]]}"#),
        "a part too few",
    );
}
