//! Three types that contain each other, in JSON and RON.

use crate::checks::{Deep, holds, nested};
use crate::json_checks::{is_read_back, is_rejected};
use nano_json::{BothJson, DeJson, SerJson};
use nano_ron::{DeRon, SerRon};
use std::alloc::Global;
use test_nested::{Guide, Stop, Way};

const GUIDES: &[&str] = &[
    r#"{"name":"","stops":[]}"#,
    r#"{"name":"a","stops":[{"ways":{}}],"next":{"name":"b","stops":[]}}"#,
    r#"{"name":"a","stops":[{"ways":{"b":{"minutes":7,"guide":{"name":"c","stops":[]}}},"best":{"minutes":1,"guide":{"name":"","stops":[]}}}]}"#,
];

const STOPS: &[&str] = &[
    r#"{"ways":{}}"#,
    r#"{"ways":{"b":{"minutes":7,"guide":{"name":"c","stops":[{"ways":{}}]}}}}"#,
];

const WAYS: &[&str] = &[r#"{"minutes":7,"guide":{"name":"c","stops":[]}}"#];

/// Texts that are no guide, with the column and the words of the error.
const NO_GUIDES: &[(&str, usize, &str)] = &[
    (r#"{"stops":[]}"#, 12, "Key not found name"),
    (
        r#"{"name":"","stops":[{"best":{"minutes":1}}]}"#,
        43,
        "Key not found guide",
    ),
    (
        r#"{"name":"","stops":[],"next":{}}"#,
        32,
        "Key not found name",
    ),
];

/// A guide that goes on with another one.
const DEEP_GUIDE: Deep = Deep {
    opening: r#"{"name":"","stops":[],"next":"#,
    innermost: r#"{"name":"","stops":[]}"#,
    closing: "}",
};

/// A guide with so many around it is a value.
fn is_read<T: BothJson>(alloc: Global, around: usize) -> bool {
    match nested(alloc, &DEEP_GUIDE, around) {
        Ok(text) => is_read_back::<T>(alloc, text.as_str()),
        Err(_failed) => false,
    }
}

/// The text is a value of JSON whose text in RON is read back as it.
fn is_written_in_ron<T: SerJson + DeJson + SerRon + DeRon + Drop>(
    alloc: Global,
    text: &str,
) -> bool {
    let Ok(value) = T::deserialize_json_whole(alloc, text) else {
        return false;
    };
    let Ok(written) = value.serialize_ron(alloc) else {
        return false;
    };
    let Ok(same) = T::deserialize_ron_whole(alloc, written.as_str()) else {
        return false;
    };
    match same.serialize_json(alloc) {
        Ok(others) => others.as_str() == text,
        Err(_failed) => false,
    }
}

#[test]
fn guides_are_read_and_written_back(rt: HostRuntime) {
    let alloc = rt.alloc();
    for text in GUIDES {
        holds(&rt, is_read_back::<Guide>(alloc, text), "a guide");
        holds(
            &rt,
            is_written_in_ron::<Guide>(alloc, text),
            "a guide in RON",
        );
    }
    for text in STOPS {
        holds(&rt, is_read_back::<Stop>(alloc, text), "a stop");
        holds(&rt, is_written_in_ron::<Stop>(alloc, text), "a stop in RON");
    }
    for text in WAYS {
        holds(&rt, is_read_back::<Way>(alloc, text), "a way");
        holds(&rt, is_written_in_ron::<Way>(alloc, text), "a way in RON");
    }
}

#[test]
fn other_texts_are_no_guides(rt: HostRuntime) {
    let alloc = rt.alloc();
    for (text, column, words) in NO_GUIDES {
        let is_so = is_rejected::<Guide>(alloc, text, *column, words);
        holds(&rt, is_so, "a guide");
    }
}

#[test]
fn guides_run_out_after_64_levels(rt: HostRuntime) {
    let alloc = rt.alloc();
    holds(&rt, is_read::<Guide>(alloc, 63), "64 levels");
    holds(&rt, !is_read::<Guide>(alloc, 64), "65 levels");
}
