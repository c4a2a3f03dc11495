//! Values of a type that has defaults, in each format.

use crate::checks::holds;
use crate::json_checks::{is_rejected, is_written_as};
use crate::{bin_checks, ron_checks};
use test_nested_defaults::Widget;

/// A widget of which the title alone is given, as it is written.
const PLAIN: &str =
    "{\"title\":\"m\",\"shortcut\":\"none\",\"width\":80,\"row\":-1,\"is_open\":true,\"entries\":[],\"others\":{}}";

/// One with an entry, a width and another one.
const FULL: &str =
    "{\"title\":\"m\",\"shortcut\":\"q\",\"width\":7,\"row\":3,\"is_open\":false,\"entries\":[{\"title\":\"m\",\"shortcut\":\"none\",\"width\":80,\"row\":-1,\"is_open\":true,\"entries\":[],\"others\":{}}],\"others\":{\"o\":{\"title\":\"m\",\"shortcut\":\"none\",\"width\":80,\"row\":-1,\"is_open\":true,\"entries\":[],\"others\":{}}}}";

#[test]
fn a_widget_has_defaults_in_json(rt: HostRuntime) {
    let alloc = rt.alloc();
    holds(
        &rt,
        is_written_as::<Widget>(alloc, "{\"title\":\"m\"}", PLAIN),
        "the title alone",
    );
    holds(
        &rt,
        is_written_as::<Widget>(alloc, PLAIN, PLAIN),
        "all that is written",
    );
    holds(
        &rt,
        is_written_as::<Widget>(alloc, FULL, FULL),
        "all fields",
    );
    let text = "{\"entries\":[{\"width\":1}],\"title\":\"m\"}";
    let words = "Key not found title";
    holds(
        &rt,
        is_rejected::<Widget>(alloc, text, 25, words),
        "no title",
    );
    let text = "{\"title\":\"m\",\"width\":null}";
    let words = "Unexpected token Null expected unsigned integer ";
    holds(
        &rt,
        is_rejected::<Widget>(alloc, text, 26, words),
        "no number",
    );
}

#[test]
fn a_widget_has_defaults_in_ron(rt: HostRuntime) {
    let alloc = rt.alloc();
    let wanted =
        "(\n    title:\"m\",\n    shortcut:\"none\",\n    width:80,\n    row:-1,\n    is_open:true,\n    entries:[\n    ],\n    others:{\n    },\n)";
    holds(
        &rt,
        ron_checks::is_written_as::<Widget>(alloc, "(title:\"m\")", wanted),
        "the title alone",
    );
    holds(
        &rt,
        ron_checks::is_written_as::<Widget>(alloc, wanted, wanted),
        "all that is written",
    );
}

#[test]
fn a_widget_has_no_defaults_in_bytes(rt: HostRuntime) {
    let bytes = [
        1, 0, 0, 0, 0, 0, 0, 0, 109, 0, 0, 0, 0, 0, 0, 0, 0, 7, 0, 255, 255, 255, 255, 1, 0, 0, 0,
        0, 0, 0, 0, 0, 0, 0, 0, 0, 0, 0, 0, 0,
    ];
    holds(
        &rt,
        bin_checks::is_read_back::<Widget>(rt.alloc(), &bytes),
        "a widget",
    );
}
