//! The parts of questions, each with what it answers.

use conformance::{code, counterpart};
use nanoserde::{DeBinErr, DeBinKind};
use std::alloc::{AllocError, Global};
use std::process::Abort;

/// What is said of a call holds.
fn holds(rt: &impl Abort, asked: Result<bool, AllocError>, call: &str) {
    match asked {
        Ok(is_so) => assert!(rt; is_so, "at {call}"),
        Err(_rejected) => assert!(rt; false, "no memory at {call}"),
    }
}

/// Whether an error of this kind that moved the offset so far counts as too short.
fn is_too_short(alloc: Global, kind: DeBinKind, moved: usize) -> Result<bool, AllocError> {
    let error = DeBinErr {
        o: 1,
        l: 1,
        s: 1,
        kind,
    };
    Ok(code(alloc, error, moved)?.is_too_short())
}

/// Whether an error counts as too short where it should.
fn is_reported(alloc: Global) -> Result<bool, AllocError> {
    let short = is_too_short(alloc, DeBinKind::TooShort, 0)?;
    let moved = is_too_short(alloc, DeBinKind::TooShort, 1)?;
    let other = is_too_short(alloc, DeBinKind::NotUtf8, 0)?;
    Ok(short && !moved && !other)
}

#[test]
fn only_an_error_that_leaves_the_offset_is_too_short(rt: HostRuntime) {
    holds(&rt, is_reported(rt.alloc()), "is_too_short");
}

/// Types, each with that of the same entries in the other order.
const COUNTERPARTS: &[(&str, &str)] = &[
    ("HashSet<u8>", "BTreeSet<u8>"),
    ("BTreeSet<u8>", "HashSet<u8>"),
    ("HashMap<u8, Vec<u8>>", "BTreeMap<u8, Vec<u8>>"),
    ("BTreeMap<u8, u8>", "HashMap<u8, u8>"),
    ("Vec<HashSet<u8>>", "none"),
    ("u8", "none"),
];

/// Whether each type has its counterpart.
fn have_counterparts(alloc: Global) -> Result<bool, AllocError> {
    for (kind, wanted) in COUNTERPARTS {
        let is_so = match counterpart(alloc, kind)? {
            Some(other) => other.as_str() == *wanted,
            None => *wanted == "none",
        };
        if !is_so {
            return Ok(false);
        }
    }
    Ok(true)
}

#[test]
fn a_counterpart_is_another_type(rt: HostRuntime) {
    holds(&rt, have_counterparts(rt.alloc()), "counterpart");
}
